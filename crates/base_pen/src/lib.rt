// Total writes into lent room: a write past the room's end changes nothing and still moves the place, so that the same
// call on an empty room measures. Bytes and numbers go by the same functions and laws (specs/Pen.antt).
#![tactic(auto)]

ghost use Rattle.std.specs.Prelude.{◌≡◌, [], ◌∷◌, ◌+◌, ◌≤◌, length, replicate};
ghost use Rattle.base_pen.specs.Pen.{Wrote, Writes};

// One item.
pub fn put<T: Copy>(out: &mut [T], at: usize, item: T) -> usize
    ensures { Writes out.old at (item ∷ []) out.new result }
{
    if at < out.len() {
        out[at] = item;
    }
    at.saturating_add(1)
}

// The items one after the other.
pub fn put_all<T: Copy>(out: &mut [T], at: usize, items: &[T]) -> usize
    ensures { Writes out.old at items.now out.new result }
{
    let end = at.saturating_add(items.len());
    if at < out.len() {
        let stop = end.min(out.len());
        store(out, at, &items[..stop - at]);
    }
    end
}

// Items that fit. As a loop, and not by `copy_from_slice`, which an archive for C would need `memmove` for.
pub fn store<T: Copy>(out: &mut [T], at: usize, items: &[T])
    requires { at + length items.now ≤ length out.old }
    ensures { Wrote out.old at items.now out.new (at + length items.now) }
{
    for (i, item) in items.iter().enumerate() {
        out[at + i] = *item;
    }
}

pub fn put_spaces(out: &mut [u8], at: usize, n: usize) -> usize
    ensures { Writes out.old at (replicate n 32) out.new result }
{
    let end = at.saturating_add(n);
    if at < out.len() {
        let stop = end.min(out.len());
        out[at..stop].fill(b' ');
    }
    end
}
