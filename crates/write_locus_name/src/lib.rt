// The name that a LOCUS line prints, and which it is: `truncate_locus` and `escape_locus` of writer.rs.
#![tactic(auto)]

ghost use Rattle.std.specs.Prelude.{◌≡◌, suc, ◌+◌, ◌-◌, ◌≤◌, length};
ghost use Rattle.spec_format.specs.Bytes.{decimal};
ghost use Rattle.spec_format.specs.Write.{escaped_name, name_and_length};
ghost use Rattle.base_pen.specs.Pen.{Writes};
ghost use Rattle.write_locus_name.specs.Names.{Kept, chosen, name_test, printed_of};
ghost use Rattle.spec_format.specs.Record.{most};

use base_arith::{both, left_of};
use base_pen::{put_all, put_spaces};
use judge_text::printing_all;
use spec_format::Span;
use write_decimal::{put_decimal, width};
use write_locus_words::{put_joined, two_words, words_print};

// LOCUS's name, else ACCESSION.
pub fn chosen_name(name: Option<Span>, accession: Option<Span>) -> Option<Span>
    ensures { result ≡ chosen name accession }
{
    name.or(accession)
}

// A name as it is, or its words joined by `_` where that is asked for and there are two or more.
fn put_escaped_name(out: &mut [u8], at: usize, name: &[u8], escape: bool) -> usize
    requires { length name.now ≤ most }
    ensures { Writes out.old at (escaped_name escape name.now) out.new result }
{
    if both(escape, two_words(name)) {
        return put_joined(out, at, name);
    }
    put_all(out, at, name)
}

// The escaped name is not empty, and its bytes are 32 to 126.
fn escaped_name_fine(name: &[u8], escape: bool) -> bool
    requires { length name.now ≤ most }
    ensures { result ≡ name_test (escaped_name escape name.now) }
{
    if both(escape, two_words(name)) {
        return words_print(name);
    }
    both(0 < name.len(), printing_all(name))
}

// How many spaces part a name of so many bytes from a length of d digits.
fn gap(used: usize, d: usize) -> usize
    requires { d ≤ 10 }
    ensures { result ≡ suc (27 - (used + d)) }
{
    if 27 <= used {
        return 1;
    }
    left_of(27, used + d) + 1
}

// An escaped name and a length, apart by one space at least, over 28 columns.
fn put_name_length(out: &mut [u8], at: usize, name: &[u8], n: u32, escape: bool) -> usize
    requires { length name.now ≤ most }
    ensures { Writes out.old at (name_and_length (escaped_name escape name.now) (decimal n)) out.new result }
{
    let a = put_escaped_name(out, at, name, escape);
    let b = put_spaces(out, a, gap(a - at, width(n)));
    put_decimal(out, b, n)
}

// How much of a name is printed beside a length of d digits.
fn kept(name: &[u8], d: usize, truncate: bool) -> usize
    requires { (length name.now ≤ most) × (d ≤ 10) }
    ensures { Kept truncate d name.now result }
{
    if truncate {
        if 28 < name.len() + 1 + d {
            return 27 - d;
        }
        return name.len();
    }
    name.len()
}

// The printed name, cut and escaped where that is asked for, and the length.
pub fn put_printed_name(
    out: &mut [u8],
    at: usize,
    name: &[u8],
    n: u32,
    truncate: bool,
    escape: bool,
) -> usize
    requires { length name.now ≤ most }
    ensures { Writes out.old at (name_and_length (printed_of truncate escape (decimal n) name.now) (decimal n)) out.new result }
{
    let from = 0;
    let end = kept(name, width(n), truncate);
    put_name_length(out, at, &name[from..end], n, escape)
}

// Number 11's test of the printed name.
pub fn printed_name_fine(name: &[u8], n: u32, truncate: bool, escape: bool) -> bool
    requires { length name.now ≤ most }
    ensures { result ≡ name_test (printed_of truncate escape (decimal n) name.now) }
{
    let from = 0;
    let end = kept(name, width(n), truncate);
    escaped_name_fine(&name[from..end], escape)
}
