// The scanners that every reader is made of: words, spaces, runs of bytes and lines. Each is given a slice and a place, and writes nothing.
#![tactic(auto)]

ghost use Rattle.std.specs.Prelude.{◌≡◌, ◌+◌, ◌≤◌, ◌<◌, ◌&&◌, ◌||◌, not, length, drop, ltb};
ghost use Rattle.spec_format.specs.Bytes.{spaces, between, visible, digit, letter, blank, not_blank, space, but};
ghost use Rattle.spec_format.specs.Readers.{tag, until, until1, spaces1, line, line_end};
ghost use Rattle.spec_format.specs.Features.{key_end};
ghost use Rattle.scan_bytes.specs.Places.{Scanned, Passes, Spaced, Indented, line_stop, stop_at, stop_after};
ghost use Rattle.scan_bytes.specs.Views.{Stepped, Texted, Emptied, Lined};

use base_arith::both;

// The place after what was read; or no, or that the slice ended before that was clear.
#[derive(Clone, Copy)]
pub enum Step {
    Got(usize),
    No,
    Cut,
}

// A line's text ends at `end`, and the next line is at `next`.
#[derive(Clone, Copy)]
pub enum Line {
    Got { end: usize, next: usize },
    No,
    Cut,
}

// ---- bytes

pub fn is_between(low: u8, high: u8, b: u8) -> bool
    ensures { result ≡ between low high b }
{
    low <= b && b <= high
}

pub fn is_visible(b: u8) -> bool
    ensures { result ≡ visible b }
{
    is_between(b'!', b'~', b)
}

pub fn is_digit(b: u8) -> bool
    ensures { result ≡ digit b }
{
    is_between(b'0', b'9', b)
}

pub fn is_letter(b: u8) -> bool
    ensures { result ≡ letter b }
{
    if is_between(b'A', b'Z', b) {
        return true;
    }
    is_between(b'a', b'z', b)
}

pub fn is_blank(b: u8) -> bool
    ensures { result ≡ blank b }
{
    b == b' ' || b == b'\t'
}

fn is_not_blank(b: u8) -> bool
    ensures { result ≡ not_blank b }
{
    !is_blank(b)
}

pub fn is_space(b: u8) -> bool
    ensures { result ≡ space b }
{
    b == b' '
}

fn is_not_space(b: u8) -> bool
    ensures { result ≡ but 32 b }
{
    !is_space(b)
}

pub fn is_key_end(b: u8) -> bool
    ensures { result ≡ key_end b }
{
    b == b'=' || (b == b'\r' || b == b'\n')
}

fn is_line_stop(b: u8) -> bool
    ensures { result ≡ line_stop b }
{
    b == b'\n' || b == b'\r'
}

// ---- words and indents

pub fn tag(s: &[u8], at: usize, word: &[u8]) -> Step
    requires { at ≤ length s.now }
    ensures { Stepped s.now at (tag word.now (drop at s.now)) result }
{
    let mut i = at;
    let mut j = 0;
    while j < word.len() {
        if s.len() <= i {
            return Step::Cut;
        }
        if s[i] != word[j] {
            return Step::No;
        }
        i += 1;
        j += 1;
    }
    Step::Got(i)
}

// Whether the 16 bytes at a place are spaces.
fn sixteen_spaces(s: &[u8], at: usize) -> bool
    requires { at + 16 ≤ length s.now }
    ensures { Spaced s.now at 16 result }
{
    let mut ok = true;
    let mut j = 0;
    while j < 16 {
        ok = both(ok, is_space(s[at + j]));
        j += 1;
    }
    ok
}

// Whether `n` spaces stand there, where n is 16 to 32: the first 16 of them and the last 16. False says nothing.
fn wide_indent(s: &[u8], at: usize, n: usize) -> bool
    requires { at ≤ length s.now }
    ensures { Indented s.now at n result }
{
    if n < 16 {
        return false;
    }
    if 32 < n {
        return false;
    }
    if s.len() - at < n {
        return false;
    }
    if !sixteen_spaces(s, at) {
        return false;
    }
    sixteen_spaces(s, at + (n - 16))
}

// `n` spaces, byte by byte.
fn each_space(s: &[u8], at: usize, n: usize) -> Step
    requires { at ≤ length s.now }
    ensures { Stepped s.now at (tag (spaces n) (drop at s.now)) result }
{
    let mut i = at;
    let mut left = n;
    while 0 < left {
        if s.len() <= i {
            return Step::Cut;
        }
        if s[i] != b' ' {
            return Step::No;
        }
        i += 1;
        left -= 1;
    }
    Step::Got(i)
}

// `n` spaces.
pub fn indent(s: &[u8], at: usize, n: usize) -> Step
    requires { at ≤ length s.now }
    ensures { Stepped s.now at (tag (spaces n) (drop at s.now)) result }
{
    if wide_indent(s, at, n) {
        return Step::Got(at + n);
    }
    each_space(s, at, n)
}

// ---- runs of bytes

fn stop_at(s: &[u8], e: usize) -> Step
    ensures { result ≡ stop_at (length s.now) e }
{
    if s.len() <= e {
        return Step::Cut;
    }
    Step::Got(e)
}

fn stop_after(s: &[u8], at: usize, e: usize) -> Step
    ensures { result ≡ stop_after (length s.now) at e }
{
    if s.len() <= e {
        return Step::Cut;
    }
    if e == at {
        return Step::No;
    }
    Step::Got(e)
}

fn spaces_end(s: &[u8], at: usize) -> usize
    requires { at ≤ length s.now }
    ensures { Scanned (but 32) s.now at result }
{
    let mut i = at;
    while i < s.len() {
        if is_not_space(s[i]) {
            return i;
        }
        i += 1;
    }
    i
}

fn blanks_end(s: &[u8], at: usize) -> usize
    requires { at ≤ length s.now }
    ensures { Scanned not_blank s.now at result }
{
    let mut i = at;
    while i < s.len() {
        if is_not_blank(s[i]) {
            return i;
        }
        i += 1;
    }
    i
}

fn next_space(s: &[u8], at: usize) -> usize
    requires { at ≤ length s.now }
    ensures { Scanned space s.now at result }
{
    let mut i = at;
    while i < s.len() {
        if is_space(s[i]) {
            return i;
        }
        i += 1;
    }
    i
}

fn next_key_end(s: &[u8], at: usize) -> usize
    requires { at ≤ length s.now }
    ensures { Scanned key_end s.now at result }
{
    let mut i = at;
    while i < s.len() {
        if is_key_end(s[i]) {
            return i;
        }
        i += 1;
    }
    i
}

// One space or more.
pub fn spaces1(s: &[u8], at: usize) -> Step
    requires { at ≤ length s.now }
    ensures { Texted s.now at (spaces1 (drop at s.now)) result }
{
    let e = spaces_end(s, at);
    stop_after(s, at, e)
}

// One blank or more.
pub fn blanks1(s: &[u8], at: usize) -> Step
    requires { at ≤ length s.now }
    ensures { Texted s.now at (until1 not_blank (drop at s.now)) result }
{
    let e = blanks_end(s, at);
    stop_after(s, at, e)
}

// Blanks, or none.
pub fn blanks0(s: &[u8], at: usize) -> Step
    requires { at ≤ length s.now }
    ensures { Texted s.now at (until not_blank (drop at s.now)) result }
{
    let e = blanks_end(s, at);
    stop_at(s, e)
}

// One byte or more before a space.
pub fn until_space(s: &[u8], at: usize) -> Step
    requires { at ≤ length s.now }
    ensures { Texted s.now at (until1 space (drop at s.now)) result }
{
    let e = next_space(s, at);
    stop_after(s, at, e)
}

// One byte or more before what ends a qualifier's key.
pub fn until_key_end(s: &[u8], at: usize) -> Step
    requires { at ≤ length s.now }
    ensures { Texted s.now at (until1 key_end (drop at s.now)) result }
{
    let e = next_key_end(s, at);
    stop_after(s, at, e)
}

// ---- lines

// A line's end, and nothing before it.
pub fn line_end(s: &[u8], at: usize) -> Step
    requires { at ≤ length s.now }
    ensures { Emptied s.now at (line_end (drop at s.now)) result }
{
    if s.len() <= at {
        return Step::Cut;
    }
    let n = at + 1;
    if s[at] == b'\n' {
        return Step::Got(n);
    }
    if s[at] != b'\r' {
        return Step::No;
    }
    if s.len() <= n {
        return Step::Cut;
    }
    if s[n] == b'\n' {
        return Step::Got(n + 1);
    }
    Step::No
}

// Whether a byte is none that ends a line because it is above them; all text is.
fn is_above_stops(b: u8) -> bool
    ensures { result ≡ ltb 13 b }
{
    b'\r' < b
}

// Whether the eight bytes from `at` on are such.
fn eight_inside(s: &[u8], at: usize) -> bool
    requires { at + 8 ≤ length s.now }
    ensures { Passes line_stop s.now at 8 result }
{
    let mut ok = true;
    let mut j = 0;
    while j < 8 {
        ok = both(ok, is_above_stops(s[at + j]));
        j += 1;
    }
    ok
}

fn near_stop(s: &[u8], at: usize) -> usize
    requires { at ≤ length s.now }
    ensures { Scanned line_stop s.now at result }
{
    let mut i = at;
    while i < s.len() {
        if is_line_stop(s[i]) {
            return i;
        }
        i += 1;
    }
    i
}

// The first LF or CR.
fn next_stop(s: &[u8], at: usize) -> usize
    requires { at ≤ length s.now }
    ensures { Scanned line_stop s.now at result }
{
    let mut i = at;
    while 8 <= s.len() - i {
        if !eight_inside(s, i) {
            return near_stop(s, i);
        }
        i += 8;
    }
    near_stop(s, i)
}

// The line at `at`.
pub fn line_at(s: &[u8], at: usize) -> Line
    requires { at ≤ length s.now }
    ensures { Lined s.now at (line (drop at s.now)) result }
{
    let e = next_stop(s, at);
    if s.len() <= e {
        return Line::Cut;
    }
    let n = e + 1;
    if s[e] == b'\n' {
        return Line::Got { end: e, next: n };
    }
    if s.len() <= n {
        return Line::Cut;
    }
    if s[n] == b'\n' {
        return Line::Got {
            end: e,
            next: n + 1,
        };
    }
    Line::No
}
