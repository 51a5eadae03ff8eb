// `wrap_location` of writer.rs: a text over lines that break after the last comma that fits, else at the width.
#![tactic(auto)]

ghost use Rattle.std.specs.Prelude.{◌≡◌, [], ◌∷◌, ◌++◌, ◌+◌, ◌≤◌, length};
ghost use Rattle.spec_format.specs.Bytes.{spaces};
ghost use Rattle.spec_format.specs.Wrap.{comma_lines};
ghost use Rattle.base_pen.specs.Pen.{Writes};
ghost use Rattle.write_wrap_location.specs.Commas.{Broke};
ghost use Rattle.spec_format.specs.Record.{most};

use base_pen::{put, put_all, put_spaces};
use write_wrap_text::last_of;

// Where a text of more than n bytes breaks.
fn comma_break(text: &[u8], n: usize) -> usize
    requires { n ≤ length text.now }
    ensures { Broke n text.now result }
{
    match last_of(&text[..n], b',') {
        Some(k) => k + 1,
        None => n,
    }
}

// A line that is not the last, and the indent of the next.
fn put_line(out: &mut [u8], at: usize, line: &[u8], indent: usize) -> usize
    ensures { Writes out.old at (line.now ++ 10 ∷ [] ++ spaces indent) out.new result }
{
    let a = put_all(out, at, line);
    let b = put(out, a, b'\n');
    put_spaces(out, b, indent)
}

// The lines of a text after a first indent of `taken` columns.
pub fn put_commas(
    out: &mut [u8],
    at: usize,
    text: &[u8],
    taken: usize,
    indent: usize,
    width: usize,
) -> usize
    requires { (length text.now ≤ most) × (taken ≤ 33554432) × (indent + 2 ≤ width) × (width ≤ 132) }
    ensures { Writes out.old at (comma_lines (length text.now) width indent taken text.now) out.new result }
{
    let mut p = at;
    let mut used = taken;
    let mut rest = text;
    while !rest.is_empty() && width < used + rest.len() {
        let end = comma_break(rest, width.saturating_sub(used));
        p = put_line(out, p, &rest[..end], indent);
        rest = &rest[end..];
        used = indent;
    }
    p = put_all(out, p, rest);
    put(out, p, b'\n')
}
