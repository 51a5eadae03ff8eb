// The ORIGIN block of writer.rs: 60 letters a line, written ten at a time. A whole line that fits the room is written under one test for room,
// and a block for which no room is left is measured by a formula.
#![tactic(auto)]

ghost use Rattle.std.specs.Prelude.{◌≡◌, [], ◌∷◌, ◌++◌, ◌+◌, ◌*◌, ◌%◌, ◌≤◌, ◌<◌, length, take, drop};
ghost use Rattle.spec_format.specs.Bytes.{decimal};
ghost use Rattle.spec_format.specs.Write.{right_aligned, line_start, ten_start, letter_lines, origin_lines};
ghost use Rattle.base_pen.specs.Pen.{Wrote, Writes};
ghost use Rattle.write_origin.specs.Origin.{Ten};
ghost use Rattle.write_origin.specs.Number.{column};
ghost use Rattle.write_origin.specs.Measure.{letters_length};
ghost use Rattle.write_origin.specs.Whole.{spaced, thirty, sixty, Lines};
ghost use Rattle.spec_format.specs.Record.{most};

use base_pen::{put, put_all, store};
use write_decimal::put_nine;

// What stands before letter i, counted from 0.
fn put_mark(out: &mut [u8], at: usize, i: usize) -> usize
    requires { i < most }
    ensures { Writes out.old at (line_start i ++ ten_start i) out.new result }
{
    if i % 60 == 0 {
        let a = put(out, at, b'\n');
        let b = put_nine(out, a, (i + 1) as u32);
        return put(out, b, b' ');
    }
    if i % 10 == 0 {
        return put(out, at, b' ');
    }
    at
}

// Where the ten letters from i on end among n.
fn ten_end(i: usize, n: usize) -> usize
    requires { i < n }
    ensures { Ten i n result }
{
    if n - i < 10 { n } else { i + 10 }
}

// The letters from a ten's start on, whatever room there is.
fn put_tens(out: &mut [u8], at: usize, letters: &[u8], from: usize) -> usize
    requires { (length letters.now ≤ most) × (from ≤ length letters.now) × (from % 10 ≡ 0) }
    ensures { Writes out.old at (letter_lines from (drop from letters.now)) out.new result }
{
    let mut p = at;
    let mut i = from;
    while i < letters.len() {
        let a = put_mark(out, p, i);
        let end = ten_end(i, letters.len());
        p = put_all(out, a, &letters[i..end]);
        i = end;
    }
    put(out, p, b'\n')
}

// ---- whole lines

// A column of a number: its last digit, and a space where it is 0.
fn column(m: u32) -> u8
    ensures { result ≡ column m }
{
    if m == 0 { b' ' } else { b'0' + (m % 10) as u8 }
}

// LF and a number in nine columns.
fn number_of(n: u32) -> [u8; 10]
    requires { (1 ≤ n) × (n < 100000000) }
    ensures { result ≡ 10 ∷ [] ++ right_aligned 9 (decimal n) }
{
    let a = n / 10;
    let b = a / 10;
    let c = b / 10;
    let d = c / 10;
    let e = d / 10;
    let f = e / 10;
    let g = f / 10;
    [
        b'\n',
        b' ',
        column(g),
        column(f),
        column(e),
        column(d),
        column(c),
        column(b),
        column(a),
        column(n),
    ]
}

// Ten letters by value: nothing that they could overlap with, so that they go as wide moves.
fn ten_from(letters: &[u8], i: usize) -> [u8; 10]
    requires { i + 10 ≤ length letters.now }
    ensures { result ≡ take 10 (drop i letters.now) }
{
    [
        letters[i],
        letters[i + 1],
        letters[i + 2],
        letters[i + 3],
        letters[i + 4],
        letters[i + 5],
        letters[i + 6],
        letters[i + 7],
        letters[i + 8],
        letters[i + 9],
    ]
}

// A space and ten letters, which fit.
fn store_spaced(out: &mut [u8], at: usize, letters: &[u8], i: usize)
    requires { (at + 11 ≤ length out.old) × (i + 10 ≤ length letters.now) }
    ensures { Wrote out.old at (spaced letters.now i) out.new (at + 11) }
{
    store(out, at, b" ");
    let ten = ten_from(letters, i);
    store(out, at + 1, &ten);
}

fn store_thirty(out: &mut [u8], at: usize, letters: &[u8], i: usize)
    requires { (at + 33 ≤ length out.old) × (i + 30 ≤ length letters.now) }
    ensures { Wrote out.old at (thirty letters.now i) out.new (at + 33) }
{
    store_spaced(out, at, letters, i);
    store_spaced(out, at + 11, letters, i + 10);
    store_spaced(out, at + 22, letters, i + 20);
}

// A line of sixty letters, which fits.
fn store_line(out: &mut [u8], at: usize, letters: &[u8], i: usize)
    requires { (at + 76 ≤ length out.old) × (i + 60 ≤ length letters.now) × (i < most) }
    ensures { Wrote out.old at (sixty letters.now i) out.new (at + 76) }
{
    let number = number_of((i + 1) as u32);
    store(out, at, &number);
    store_thirty(out, at + 10, letters, i);
    store_thirty(out, at + 43, letters, i + 30);
}

// The whole lines that fit, one after the other; how many they are.
fn put_lines(out: &mut [u8], at: usize, letters: &[u8]) -> usize
    requires { (length letters.now ≤ most) × (at ≤ length out.old) }
    ensures { Lines out.old at letters.now out.new result }
{
    let mut k = 0;
    let mut p = at;
    let mut i = 0;
    while 60 <= letters.len() - i {
        if out.len() - p < 76 {
            return k;
        }
        store_line(out, p, letters, i);
        k += 1;
        p += 76;
        i += 60;
    }
    k
}

// How many bytes n letters take.
fn letters_length(n: usize) -> usize
    requires { n ≤ most }
    ensures { result ≡ letters_length n }
{
    n + (n + 9) / 10 + 10 * ((n + 59) / 60) + 1
}

fn put_letters(out: &mut [u8], at: usize, letters: &[u8]) -> usize
    requires { length letters.now ≤ most }
    ensures { Writes out.old at (letter_lines 0 letters.now) out.new result }
{
    if out.len() <= at {
        return at.saturating_add(letters_length(letters.len()));
    }
    let k = put_lines(out, at, letters);
    put_tens(out, at + 76 * k, letters, 60 * k)
}

// The whole block; nothing where there are no letters.
pub fn put_origin(out: &mut [u8], at: usize, letters: &[u8]) -> usize
    requires { length letters.now ≤ most }
    ensures { Writes out.old at (origin_lines letters.now) out.new result }
{
    if letters.len() < 1 {
        return at;
    }
    let a = put_all(out, at, b"ORIGIN      ");
    put_letters(out, a, letters)
}
