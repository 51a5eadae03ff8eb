// The values of qualifiers of feature_table.rs: a quoted reading first, and else a bare one.
#![tactic(auto)]

ghost use Rattle.std.specs.Prelude.{◌≤◌, length, drop};
ghost use Rattle.base_pen.specs.Pen.{Writes};
ghost use Rattle.read_feature_value.specs.Reads.{value_with, read_text, Placed, ReadIs};

use read_feature_joined::Value;

// A value: whether it was read as a quoted one, its length, and the place after it.
#[derive(Clone, Copy)]
pub enum Read {
    Got {
        quoted: bool,
        length: usize,
        next: usize,
    },
    No,
    Cut,
}

// The value at `at`; `joined` where the key is `translation`.
pub fn value_at(s: &[u8], at: usize, indent: usize, joined: bool) -> Read
    requires { at ≤ length s.now }
    ensures { ReadIs s.now at joined indent (value_with joined indent (drop at s.now)) result }
{
    match read_feature_quoted::quoted_at(s, at, indent, joined) {
        Value::Got { length, next } => Read::Got {
            quoted: true,
            length,
            next,
        },
        Value::No => match read_feature_bare::bare_value_at(s, at, indent) {
            Value::Got { length, next } => Read::Got {
                quoted: false,
                length,
                next,
            },
            Value::No => Read::No,
            Value::Cut => Read::Cut,
        },
        Value::Cut => Read::Cut,
    }
}

// The text that `value_at` scans, read as it says, with the length and the place after it that it gives: a quoted one with nothing to undo is copied.
pub fn put_value(
    s: &[u8],
    at: usize,
    indent: usize,
    joined: bool,
    quoted: bool,
    long: usize,
    next: usize,
    room: &mut [u8],
    place: usize,
) -> usize
    requires { Placed s.now at joined indent quoted long next }
    ensures { Writes room.old place (read_text quoted joined indent (drop at s.now)) room.new result }
{
    if quoted {
        // The value has an opening quote, a closing one and a LF besides its text, and no byte more: so nothing in it was undone.
        if next - at - long == 3 {
            return base_pen::put_all(room, place, &s[at + 1..at + 1 + long]);
        }
        return read_feature_quoted::put_quoted(s, at, indent, joined, room, place);
    }
    read_feature_bare::put_bare(s, at, indent, room, place)
}
