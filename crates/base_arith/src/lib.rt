// Small things that many crates need: tests of two without a branch, and what is left of a number.
#![tactic(auto)]

ghost use Rattle.std.specs.Prelude.{◌&&◌, ◌||◌, ◌≡◌, ◌-◌};

// Whether both hold. The compiler makes it a choice without a branch, so that a loop over a block of bytes tests many at once.
pub fn both(a: bool, b: bool) -> bool
    ensures { result ≡ a && b }
{
    if a { b } else { false }
}

// Whether one of two holds, without a branch too.
pub fn either(a: bool, b: bool) -> bool
    ensures { result ≡ a || b }
{
    if a { true } else { b }
}

// How much of n is left of `used`.
pub fn left_of(n: usize, used: usize) -> usize
    ensures { result ≡ n - used }
{
    if used < n { n - used } else { 0 }
}
