// The tokens of a LOCUS line: where each stands, and the tests that one may have to pass. Nothing is written.
#![tactic(auto)]

ghost use Rattle.std.specs.Prelude.{◌≡◌, ◌≤◌, length};
ghost use Rattle.spec_format.specs.Bytes.{all, same, blank, not_blank, but};
ghost use Rattle.spec_format.specs.Dates.{months};
ghost use Rattle.spec_format.specs.Locus.{place_in, date_token};
ghost use Rattle.read_locus_tokens.specs.Parts.{cut, spanned, Ends, Scanned, NextToken, plain_byte, Valued, bases_of, Placed, date_of_parts};

use spec_format::{Date, Span};

// What stands next between blanks, and where it ends.
#[derive(Clone, Copy)]
pub enum Token {
    At { text: Span, end: usize },
    None,
}

#[derive(Clone, Copy)]
pub enum Decimal {
    Value(u64),
    Not,
}

fn is_blank(b: u8) -> bool
    ensures { result ≡ blank b }
{
    b == b' ' || b == b'\t'
}

fn is_plain(b: u8) -> bool
    ensures { result ≡ plain_byte b }
{
    is_blank(b) || b'!' <= b && b <= b'~'
}

// Whether all bytes from..to are blanks or visible.
pub fn plain(s: &[u8], from: usize, to: usize) -> bool
    requires { (from ≤ to) × (to ≤ length s.now) }
    ensures { result ≡ all plain_byte (cut s.now from to) }
{
    let mut i = from;
    while i < to {
        if !is_plain(s[i]) {
            return false;
        }
        i += 1;
    }
    true
}

fn blanks_end(s: &[u8], at: usize, to: usize) -> usize
    requires { (at ≤ to) × (to ≤ length s.now) }
    ensures { Scanned blank s.now at to result }
{
    let mut i = at;
    while i < to {
        if is_blank(s[i]) {
            i += 1;
        } else {
            return i;
        }
    }
    i
}

fn word_end(s: &[u8], at: usize, to: usize) -> usize
    requires { (at ≤ to) × (to ≤ length s.now) }
    ensures { Scanned not_blank s.now at to result }
{
    let mut i = at;
    while i < to {
        if is_blank(s[i]) {
            return i;
        }
        i += 1;
    }
    i
}

// The token after the blanks at a place.
pub fn token_at(s: &[u8], at: usize, to: usize) -> Token
    requires { (at ≤ to) × (to ≤ length s.now) }
    ensures { NextToken s.now at to result }
{
    let first = blanks_end(s, at, to);
    let end = word_end(s, first, to);
    if first < end {
        Token::At {
            text: Span {
                start: first,
                length: end - first,
            },
            end: end,
        }
    } else {
        Token::None
    }
}

// The number that at most ten digits stand for.
fn decimal_in(t: &[u8]) -> Decimal
    requires { length t.now ≤ 10 }
    ensures { Valued t.now result }
{
    let mut v: u64 = 0;
    let mut i = 0;
    while i < t.len() {
        let b = t[i];
        if b < b'0' {
            return Decimal::Not;
        }
        if b'9' < b {
            return Decimal::Not;
        }
        v = 10 * v + (b - b'0') as u64;
        i += 1;
    }
    Decimal::Value(v)
}

// The bases of a LOCUS line.
fn bases_in(t: &[u8]) -> Option<u32>
    ensures { result ≡ bases_of t.now }
{
    if 10 < t.len() {
        return None;
    }
    let Decimal::Value(n) = decimal_in(t) else {
        return None;
    };
    if 4294967295 < n {
        return None;
    }
    Some(n as u32)
}

// The place of a text among three words and those after them, where `later` is its place; 0 where it is none.
fn place_from(t: &[u8], first: &[u8], second: &[u8], third: &[u8], later: u8) -> u8
    requires { later ≤ 9 }
    ensures { Placed t.now first.now second.now third.now later result }
{
    if base_keys::same_text(t, first) {
        return 1;
    }
    if base_keys::same_text(t, second) {
        return 2;
    }
    if base_keys::same_text(t, third) {
        return 3;
    }
    if later == 0 {
        return 0;
    }
    later + 3
}

// The number of a month, 0 where there is none of that name.
fn month_in(t: &[u8]) -> u8
    ensures { result ≡ place_in t.now months }
{
    let october = place_from(t, b"OCT", b"NOV", b"DEC", 0);
    let july = place_from(t, b"JUL", b"AUG", b"SEP", october);
    let april = place_from(t, b"APR", b"MAY", b"JUN", july);
    place_from(t, b"JAN", b"FEB", b"MAR", april)
}

// The date of a day, a month and a year.
fn date_of_parts(day: &[u8], month: &[u8], year: &[u8]) -> Option<Date>
    requires { (length day.now ≤ 2) × (length year.now ≤ 4) }
    ensures { result ≡ date_of_parts day.now month.now year.now }
{
    let Decimal::Value(d) = decimal_in(day) else {
        return None;
    };
    let Decimal::Value(y) = decimal_in(year) else {
        return None;
    };
    Date::from(d as u8, month_in(month), y as u16)
}

// A date of ten or eleven bytes, the day having one or two.
fn date_in(t: &[u8]) -> Option<Date>
    ensures { result ≡ date_token t.now }
{
    if t.len() < 10 {
        return None;
    }
    if 11 < t.len() {
        return None;
    }
    let d = t.len() - 9;
    let month = d + 1;
    let month_end = d + 4;
    let year = d + 5;
    if t[d] != b'-' {
        return None;
    }
    if t[month_end] != b'-' {
        return None;
    }
    date_of_parts(&t[..d], &t[month..month_end], &t[year..])
}

fn not_colon(b: u8) -> bool
    ensures { result ≡ but 58 b }
{
    b != b':'
}

// Whether a name has no colon.
fn colon_free(s: &[u8], from: usize, to: usize) -> bool
    requires { (from ≤ to) × (to ≤ length s.now) }
    ensures { result ≡ all (but 58) (cut s.now from to) }
{
    let mut i = from;
    while i < to {
        if !not_colon(s[i]) {
            return false;
        }
        i += 1;
    }
    true
}

// The same tests of a span.
pub fn span_named(s: &[u8], x: Span) -> bool
    requires { Ends (length s.now) x }
    ensures { result ≡ all (but 58) (spanned s.now x) }
{
    let start = x.start;
    let end = start + x.length;
    colon_free(s, start, end)
}

pub fn span_equal(s: &[u8], x: Span, w: &[u8]) -> bool
    requires { Ends (length s.now) x }
    ensures { result ≡ same (spanned s.now x) w.now }
{
    let start = x.start;
    let end = start + x.length;
    base_keys::same_text(&s[start..end], w)
}

pub fn span_bases(s: &[u8], x: Span) -> Option<u32>
    requires { Ends (length s.now) x }
    ensures { result ≡ bases_of (spanned s.now x) }
{
    let start = x.start;
    let end = start + x.length;
    bases_in(&s[start..end])
}

pub fn span_date(s: &[u8], x: Span) -> Option<Date>
    requires { Ends (length s.now) x }
    ensures { result ≡ date_token (spanned s.now x) }
{
    let start = x.start;
    let end = start + x.length;
    date_in(&s[start..end])
}
