// `write_field` of writer.rs: a header word padded to 12 columns, and its text over lines.
#![tactic(auto)]

ghost use Rattle.std.specs.Prelude.{◌≡◌, ◌-◌, ◌≤◌, length};
ghost use Rattle.spec_format.specs.Write.{padded, field_lines};
ghost use Rattle.base_pen.specs.Pen.{Writes};
ghost use Rattle.spec_format.specs.Record.{most};

use base_arith::left_of;
use base_pen::{put_all, put_spaces};
use write_wrap_text::put_wrapped;

// A word, with spaces up to n columns.
pub fn put_padded(out: &mut [u8], at: usize, word: &[u8], n: usize) -> usize
    ensures { Writes out.old at (padded n word.now) out.new result }
{
    let next = put_all(out, at, word);
    put_spaces(out, next, left_of(n, word.len()))
}

pub fn put_field(out: &mut [u8], at: usize, word: &[u8], text: &[u8], width: usize) -> usize
    requires { (length word.now ≤ 12) × (length text.now ≤ most) × (60 ≤ width) × (width ≤ 132) }
    ensures { Writes out.old at (field_lines width word.now text.now) out.new result }
{
    let next = put_padded(out, at, word, 12);
    put_wrapped(out, next, text, 12, 12, false, width)
}
