// Numbers in decimal, as they are and right-aligned.
#![tactic(auto)]

ghost use Rattle.std.specs.Prelude.{◌≡◌, ◌≤◌, length};
ghost use Rattle.spec_format.specs.Bytes.{decimal};
ghost use Rattle.spec_format.specs.Write.{right_aligned};
ghost use Rattle.base_pen.specs.Pen.{Writes};

use base_pen::{put, put_spaces};

pub fn put_decimal(out: &mut [u8], at: usize, n: u32) -> usize
    ensures { Writes out.old at (decimal n) out.new result }
{
    let last = if n < 10 {
        at
    } else {
        put_decimal(out, at, n / 10)
    };
    put(out, last, b'0' + (n % 10) as u8)
}

// How many digits n has: what it takes of an empty room.
pub fn width(n: u32) -> usize
    ensures value { result ≡ length (decimal n) }
    ensures most { result ≤ 10 }
{
    put_decimal(&mut [], 0, n)
}

// n right-aligned in nine columns.
pub fn put_nine(out: &mut [u8], at: usize, n: u32) -> usize
    ensures { Writes out.old at (right_aligned 9 (decimal n)) out.new result }
{
    let p = put_spaces(out, at, 9usize.saturating_sub(width(n)));
    put_decimal(out, p, n)
}
