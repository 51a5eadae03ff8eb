// What follows a qualifier's key in feature_table.rs: `=` and a value, or a line's end.
#![tactic(auto)]

ghost use Rattle.std.specs.Prelude.{◌≤◌, ◌∷◌, [], length, drop};
ghost use Rattle.spec_format.specs.Readers.{tag};
ghost use Rattle.scan_bytes.specs.Views.{Stepped};
ghost use Rattle.read_feature_key_end.specs.Tails.{absent_of, value_of_with, TailIs};

use read_feature_value::Read;
use scan_bytes::Step;

// No value; or one that starts at `from`, with its length and how it was read; and the place after it.
#[derive(Clone, Copy)]
pub enum Tail {
    Absent(usize),
    With {
        from: usize,
        quoted: bool,
        length: usize,
        next: usize,
    },
    No,
    Cut,
}

fn equals_at(s: &[u8], at: usize) -> Step
    requires { at ≤ length s.now }
    ensures { Stepped s.now at (tag (61 ∷ []) (drop at s.now)) result }
{
    if s.len() <= at {
        return Step::Cut;
    }
    if s[at] != b'=' {
        return Step::No;
    }
    Step::Got(at + 1)
}

fn absent_at(s: &[u8], at: usize, indent: usize, joined: bool) -> Tail
    requires { at ≤ length s.now }
    ensures { TailIs s.now at joined indent (absent_of (drop at s.now)) result }
{
    match scan_bytes::line_end(s, at) {
        Step::Got(n) => Tail::Absent(n),
        Step::No => Tail::No,
        Step::Cut => Tail::Cut,
    }
}

// What follows the key; `joined` where the key is `translation`.
pub fn tail_at(s: &[u8], at: usize, indent: usize, joined: bool) -> Tail
    requires { at ≤ length s.now }
    ensures { TailIs s.now at joined indent (value_of_with joined indent (drop at s.now)) result }
{
    match equals_at(s, at) {
        Step::Got(from) => match read_feature_value::value_at(s, from, indent, joined) {
            Read::Got {
                quoted,
                length,
                next,
            } => Tail::With {
                from,
                quoted,
                length,
                next,
            },
            Read::No => absent_at(s, at, indent, joined),
            Read::Cut => Tail::Cut,
        },
        Step::No => absent_at(s, at, indent, joined),
        Step::Cut => Tail::Cut,
    }
}
