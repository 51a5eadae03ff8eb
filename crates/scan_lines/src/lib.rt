// The line reader: it keeps the input and the place reached in it. Its functions are thin: each takes it apart and asks one that has the slice and the place.
#![tactic(auto)]

ghost use Rattle.std.specs.Prelude.{◌≡◌, not, ◌+◌, ◌≤◌, eqb, length, drop};
ghost use Rattle.scan_lines.specs.Reached.{Fetched, NextLine, NextFeed, after_line, Feedless, Unfed, Fed};

use base_arith::both;
use scan_bytes::Line;

#[derive(Clone, Copy)]
pub struct LineReader<'a> {
    pub input: &'a [u8],
    pub place: usize,
}

// ---- the slice and the place

// A line, and the place after it.
#[derive(Clone, Copy)]
pub struct Taken {
    pub line: Line,
    pub next: usize,
}

// The place after a line; after none, the place where it was asked.
fn after_line(line: Line, place: usize) -> usize
    ensures { result ≡ after_line place line }
{
    match line {
        Line::Got { end: _, next } => next,
        Line::No => place,
        Line::Cut => place,
    }
}

// The line at a place; past the end there is none.
pub fn line_step(input: &[u8], place: usize) -> Taken
    ensures { Fetched input.now place result }
{
    if input.len() < place {
        return Taken {
            line: Line::Cut,
            next: place,
        };
    }
    let line = scan_bytes::line_at(input, place);
    let next = after_line(line, place);
    Taken {
        line: line,
        next: next,
    }
}

fn no_feed(b: u8) -> bool
    ensures { result ≡ not (eqb b 10) }
{
    b != b'\n'
}

// Whether no LF stands among the 32 bytes at a place: a loop without a branch, which the compiler makes a test of many bytes at once.
fn feedless(input: &[u8], at: usize) -> bool
    requires { at + 32 ≤ length input.now }
    ensures { Feedless input.now at 32 result }
{
    let mut ok = true;
    let mut j = 0;
    while j < 32 {
        ok = both(ok, no_feed(input[at + j]));
        j += 1;
    }
    ok
}

// A later place up to which no LF stands, found 32 bytes at a time.
fn past_blocks(input: &[u8], place: usize) -> usize
    ensures { Unfed input.now place result }
{
    if input.len() < place {
        return place;
    }
    let mut i = place;
    while 32 <= input.len() - i {
        if !feedless(input, i) {
            return i;
        }
        i += 32;
    }
    i
}

// The place after the next LF, or the end, whatever else stands in the line.
pub fn feed_step(input: &[u8], place: usize) -> usize
    ensures { Fed input.now place result }
{
    let mut i = past_blocks(input, place);
    while i < input.len() {
        if input[i] == b'\n' {
            return i + 1;
        }
        i += 1;
    }
    i
}

// What is left from a place on: nothing past the end.
pub fn rest_at(input: &[u8], place: usize) -> &[u8]
    ensures { result.now ≡ drop place input.now }
{
    let n = input.len();
    if place < n {
        &input[place..]
    } else {
        &input[n..]
    }
}

// ---- the reader

pub fn reader_at<'a>(input: &'a [u8], place: usize) -> LineReader<'a>
    ensures { (result.input ≡ input.entry) × (result.place ≡ place) }
{
    LineReader { input, place }
}

// The line at the reader's place, which moves past it.
pub fn next_line<'s, 'a>(reader: &'s mut LineReader<'a>) -> Line
    ensures { NextLine reader.old result reader.new }
{
    let t = line_step(reader.input, reader.place);
    reader.place = t.next;
    t.line
}

// The reader's place moves past the next LF; that place.
pub fn next_feed<'s, 'a>(reader: &'s mut LineReader<'a>) -> usize
    ensures { NextFeed reader.old result reader.new }
{
    let next = feed_step(reader.input, reader.place);
    reader.place = next;
    next
}

// What is left to read.
pub fn rest<'a>(reader: LineReader<'a>) -> &'a [u8]
    ensures { result.now ≡ drop reader.entry.place reader.entry.input.now }
{
    rest_at(reader.input, reader.place)
}
