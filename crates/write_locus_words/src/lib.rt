// The words of a name, parted by white space: `escape_locus` of writer.rs joins them.
#![tactic(auto)]

ghost use Rattle.std.specs.Prelude.{◌≡◌, ◌&&◌, ◌||◌, ◌≤◌, ◌<◌, length, get_or, drop, eqb, ltb};
ghost use Rattle.spec_format.specs.Bytes.{all, between, printing};
ghost use Rattle.spec_format.specs.Write.{white, words, joined};
ghost use Rattle.base_pen.specs.Pen.{Writes};
ghost use Rattle.write_locus_words.specs.Words.{white_one, white_two, white_three, white_from, shown, closed, ended, next_place, cap, second};
ghost use Rattle.spec_format.specs.Record.{most};

use base_arith::{both, left_of};
use base_pen::put;
use scan_bytes::{is_between, is_blank};

fn either(a: bool, b: bool) -> bool
    ensures { result ≡ (a || b) }
{
    if a { true } else { b }
}

fn white_one(a: u8) -> bool
    ensures { result ≡ white_one a }
{
    either(is_between(b'\t', b'\r', a), a == b' ')
}

// Next line and no-break space, C2 85 and C2 A0 in UTF-8.
fn white_two(a: u8, b: u8) -> bool
    ensures { result ≡ white_two a b }
{
    both(a == 194, either(b == 133, b == 160))
}

// The last byte of a white space of three bytes that begins E2 80: the spaces 80 to 8A, line and paragraph separator A8 and A9, narrow no-break space AF.
fn white_last(c: u8) -> bool
    ensures { result ≡ (between 128 138 c || (between 168 169 c || eqb c 175)) }
{
    either(
        is_between(128, 138, c),
        either(is_between(168, 169, c), c == 175),
    )
}

fn white_general(a: u8, b: u8, c: u8) -> bool
    ensures { result ≡ (eqb a 226 && (eqb b 128 && (between 128 138 c || (between 168 169 c || eqb c 175)))) }
{
    both(a == 226, both(b == 128, white_last(c)))
}

fn is_three(a: u8, b: u8, c: u8, x: u8, y: u8, z: u8) -> bool
    ensures { result ≡ (eqb a x && (eqb b y && eqb c z)) }
{
    both(a == x, both(b == y, c == z))
}

// Beside those of `white_last`: Ogham space mark E1 9A 80, medium mathematical space E2 81 9F, ideographic space E3 80 80.
fn white_three(a: u8, b: u8, c: u8) -> bool
    ensures { result ≡ white_three a b c }
{
    let ogham = is_three(a, b, c, 225, 154, 128);
    let general = white_general(a, b, c);
    let medium = is_three(a, b, c, 226, 129, 159);
    let ideographic = is_three(a, b, c, 227, 128, 128);
    either(ogham, either(general, either(medium, ideographic)))
}

// How many bytes the white space has that begins with these three; 0 if none does.
fn white_of(a: u8, b: u8, c: u8) -> usize
    ensures { result ≡ white a b c }
{
    if white_one(a) {
        return 1;
    }
    if white_two(a, b) {
        return 2;
    }
    if white_three(a, b, c) {
        return 3;
    }
    0
}

fn byte_at(s: &[u8], i: usize) -> u8
    ensures { result ≡ get_or s.now i 0 }
{
    if i < s.len() { s[i] } else { 0 }
}

// How many bytes of white space come from i on, of which n are known already.
fn white_from(s: &[u8], i: usize, n: usize) -> usize
    requires { (i < length s.now) × (length s.now ≤ most) }
    ensures { result ≡ white_from n (drop i s.now) }
{
    if 0 < n {
        return n;
    }
    white_of(byte_at(s, i), byte_at(s, i + 1), byte_at(s, i + 2))
}

// A byte, or a space for one of white space.
fn shown_byte(w: usize, b: u8) -> u8
    ensures { result ≡ shown w b }
{
    if 0 < w { b' ' } else { b }
}

// Where a byte stands: before the first word, in a word, or after one.
#[derive(Clone, Copy)]
pub enum Place {
    Before,
    Inside,
    After,
}

// Where the next byte stands after a blank.
fn closed_place(place: Place) -> Place
    ensures { result ≡ closed place }
{
    match place {
        Place::Before => Place::Before,
        Place::Inside => Place::After,
        Place::After => Place::After,
    }
}

// Where the next byte stands.
fn next_place(place: Place, b: u8) -> Place
    ensures { result ≡ next_place place b }
{
    if is_blank(b) {
        return closed_place(place);
    }
    Place::Inside
}

// This byte begins a word that is not the first.
fn is_after(place: Place) -> bool
    ensures { result ≡ ended place }
{
    match place {
        Place::Before => false,
        Place::Inside => false,
        Place::After => true,
    }
}

fn begins_second(place: Place, b: u8) -> bool
    ensures { result ≡ second place b }
{
    both(is_after(place), !is_blank(b))
}

// A byte of a word, after `_` if it begins a word that is not the first; nothing for a blank.
fn put_next(out: &mut [u8], at: usize, place: Place, b: u8) -> usize
    ensures { Writes out.old at (cap place b) out.new result }
{
    if is_blank(b) {
        return at;
    }
    if is_after(place) {
        let next = put(out, at, b'_');
        return put(out, next, b);
    }
    put(out, at, b)
}

// The words, joined by `_`.
pub fn put_joined(out: &mut [u8], at: usize, name: &[u8]) -> usize
    requires { length name.now ≤ most }
    ensures { Writes out.old at (joined (words name.now)) out.new result }
{
    let mut p = at;
    let mut place = Place::Before;
    let mut white = 0;
    let mut i = 0;
    while i < name.len() {
        let w = white_from(name, i, white);
        let b = shown_byte(w, name[i]);
        p = put_next(out, p, place, b);
        place = next_place(place, b);
        white = left_of(w, 1);
        i += 1;
    }
    p
}

// There are two words or more.
pub fn two_words(name: &[u8]) -> bool
    requires { length name.now ≤ most }
    ensures { result ≡ ltb 1 (length (words name.now)) }
{
    let mut place = Place::Before;
    let mut white = 0;
    let mut i = 0;
    while i < name.len() {
        let w = white_from(name, i, white);
        let b = shown_byte(w, name[i]);
        if begins_second(place, b) {
            return true;
        }
        place = next_place(place, b);
        white = left_of(w, 1);
        i += 1;
    }
    false
}

// All bytes of the words are 32 to 126.
pub fn words_print(name: &[u8]) -> bool
    requires { length name.now ≤ most }
    ensures { result ≡ all printing (joined (words name.now)) }
{
    let mut white = 0;
    let mut i = 0;
    while i < name.len() {
        let w = white_from(name, i, white);
        if !is_between(b' ', b'~', shown_byte(w, name[i])) {
            return false;
        }
        white = left_of(w, 1);
        i += 1;
    }
    true
}
