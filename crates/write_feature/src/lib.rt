// A feature's lines of writer.rs: its first line, its qualifiers, and CONTIG.
#![tactic(auto)]

ghost use Rattle.std.specs.Prelude.{[], ◌∷◌, ◌++◌, ◌≡◌, ◌≤◌, length};
ghost use Rattle.spec_format.specs.Bytes.{bytes};
ghost use Rattle.spec_format.specs.Wrap.{wrap_location};
ghost use Rattle.spec_format.specs.Write.{key_text, value_lines};
ghost use Rattle.base_pen.specs.Pen.{Writes};
ghost use Rattle.write_feature.specs.Lines.{feature_start};
ghost use Rattle.spec_format.specs.Record.{most};

use base_arith::left_of;
use base_keys::{bare_key, comma_key};
use base_pen::{put, put_all, put_spaces};
use write_field::put_padded;
use write_wrap_location::put_commas;
use write_wrap_text::put_wrapped;

fn put_key(out: &mut [u8], at: usize, k: &[u8]) -> usize
    ensures { Writes out.old at (key_text k.now) out.new result }
{
    let a = put_spaces(out, at, 21);
    let b = put(out, a, b'/');
    put_all(out, b, k)
}

// A qualifier without a value.
pub fn put_flag(out: &mut [u8], at: usize, k: &[u8]) -> usize
    ensures { Writes out.old at (key_text k.now ++ bytes "\n") out.new result }
{
    let next = put_key(out, at, k);
    put(out, next, b'\n')
}

// A qualifier with a value.
pub fn put_value(out: &mut [u8], at: usize, k: &[u8], v: &[u8], width: usize) -> usize
    requires { (length k.now ≤ most) × (length v.now ≤ most) × (60 ≤ width) × (width ≤ 132) }
    ensures { Writes out.old at (value_lines width k.now v.now) out.new result }
{
    let a = put_key(out, at, k);
    let b = put(out, a, b'=');
    let taken = 23 + k.len();
    if comma_key(k) {
        return put_commas(out, b, v, taken, 21, width);
    }
    if bare_key(k) {
        return put_wrapped(out, b, v, taken, 21, false, width);
    }
    let d = put(out, b, b'"');
    put_wrapped(out, d, v, taken + 1, 21, true, width)
}

// A feature's kind and its location.
pub fn put_feature(out: &mut [u8], at: usize, kind: &[u8], location: &[u8], width: usize) -> usize
    requires { (length kind.now ≤ most) × (length location.now ≤ most) × (60 ≤ width) × (width ≤ 132) }
    ensures { Writes out.old at (wrap_location width (feature_start kind.now) 21 location.now) out.new result }
{
    let a = put_spaces(out, at, 5);
    let b = put_padded(out, a, kind, 15);
    let d = put(out, b, b' ');
    let taken = 6 + kind.len() + left_of(15, kind.len());
    put_commas(out, d, location, taken, 21, width)
}

pub fn put_contig(out: &mut [u8], at: usize, contig: &[u8], width: usize) -> usize
    requires { (length contig.now ≤ most) × (60 ≤ width) × (width ≤ 132) }
    ensures { Writes out.old at (wrap_location width (bytes "CONTIG      ") 12 contig.now) out.new result }
{
    let next = put_all(out, at, b"CONTIG      ");
    put_commas(out, next, contig, 12, 12, width)
}
