// `wrap_text` and `wrap_get_line` of writer.rs: free text over lines, with quotes doubled where asked.
#![tactic(auto)]

ghost use Rattle.std.specs.Prelude.{◌≡◌, ◌≢◌, ℕ, ◌∷◌, [], ◌++◌, ◌+◌, ◌-◌, ◌*◌, ◌≤◌, ◌<◌, length, slice_index, take, MatchOption, IfSome, IsTrue, true, false};
ghost use Rattle.spec_format.specs.Bytes.{spaces};
ghost use Rattle.spec_format.specs.Wrap.{wrapped};
ghost use Rattle.base_pen.specs.Pen.{Writes};
ghost use Rattle.write_wrap_text.specs.Straight.{Plain, mark, Straight};
ghost use Rattle.write_wrap_text.specs.Line.{Breaks, columns, stops, full, escape, closed};
ghost use Rattle.spec_format.specs.Record.{most};

use base_pen::{put, put_all, put_spaces};

// Where a line ends in its text, and where the next one starts.
#[derive(Clone, Copy)]
pub struct Break {
    pub end: usize,
    pub next: usize,
}

// How many columns a byte takes.
fn columns(b: u8, quote: bool) -> usize
    ensures is { result ≡ columns quote b }
    ensures most { result ≤ 2 }
{
    if quote && b == b'"' { 2 } else { 1 }
}

// Whether a line of `width` columns stops before b, which would bring it to w columns. A byte inside a character, in UTF-8 one of 128 to 191, never stops it.
fn stops(b: u8, width: usize, w: usize) -> bool
    ensures { result ≡ stops b width w }
{
    width < w && !(128..192).contains(&b)
}

// The break of a full line before the byte b at i, which is left out if it is a space or LF. Else the line breaks at its last space, if it has one.
fn full(b: u8, i: usize, space: Option<usize>) -> Break
    requires { (i < most) × IfSome space (λ k. k < i) }
    ensures { result ≡ full b i space }
{
    match (b, space) {
        (b' ' | b'\n', _) => Break {
            end: i,
            next: i + 1,
        },
        (_, Some(k)) => Break {
            end: k,
            next: k + 1,
        },
        (_, None) => Break { end: i, next: i },
    }
}

// The first line of the text, where `taken` columns are taken, byte by byte. Of the first `from` bytes it is known that each takes one column and that none is a LF.
fn line_scan(text: &[u8], from: usize, taken: usize, width: usize, quote: bool) -> Break
    requires { (length text.now ≤ most) × (taken ≤ 33554432) × (from ≤ length text.now) × (from ≤ width - taken) × Straight quote from text.now }
    ensures { Breaks quote width taken text.now result }
{
    let mut used = taken + from;
    for i in from..text.len() {
        let b = text[i];
        used += columns(b, quote);
        if stops(b, width, used) {
            let space = last_of(&text[..i], b' ');
            return full(b, i, space);
        }
        if b == b'\n' {
            return Break {
                end: i,
                next: i + 1,
            };
        }
    }
    Break {
        end: text.len(),
        next: text.len(),
    }
}

// The byte beside LF that a look for a line's end halts at: a quote, if it is written twice.
fn mark(quote: bool) -> u8
    ensures { result ≡ mark quote }
{
    if quote { b'"' } else { b'\n' }
}

// Whether a block has no byte b. Nothing leaves the loop before the end, so that the compiler tests many bytes at once.
fn lacks(block: &[u8], b: u8) -> bool
    ensures { IsTrue result → (k : ℕ) → k < length block.now → slice_index block.now k ≢ b }
{
    block.iter().fold(true, |ok, c| ok & (*c != b))
}

// Whether a block holds neither LF nor `mark`.
fn markless(block: &[u8], mark: u8) -> bool
    ensures { IsTrue result → (k : ℕ) → k < length block.now → Plain mark (slice_index block.now k) }
{
    lacks(block, b'\n') & lacks(block, mark)
}

// The first LF or `mark`, byte by byte.
fn mark_in(text: &[u8], mark: u8) -> Option<usize>
    ensures { MatchOption result ((k : ℕ) → k < length text.now → Plain mark (slice_index text.now k))
        (λ i. (i < length text.now) × (Plain mark (slice_index text.now i) → ⊥) × ((k : ℕ) → k < i → Plain mark (slice_index text.now k))) }
{
    text.iter().position(|b| *b == b'\n' || *b == mark)
}

// The first LF or `mark`, by blocks. The last block may hold bytes that were in one before.
fn first_mark(text: &[u8], mark: u8) -> Option<usize>
    ensures { MatchOption result ((k : ℕ) → k < length text.now → Plain mark (slice_index text.now k))
        (λ i. (i < length text.now) × (Plain mark (slice_index text.now i) → ⊥) × ((k : ℕ) → k < i → Plain mark (slice_index text.now k))) }
{
    let mut from = 0;
    for block in text.chunks_exact(16) {
        if !markless(block, mark) {
            break;
        }
        from += 16;
    }
    let left = text.len() - from;
    if left < 16 && 16 <= text.len() && markless(&text[text.len() - 16..], mark) {
        return None;
    }
    match mark_in(&text[from..], mark) {
        Some(k) => Some(from + k),
        None => None,
    }
}

// The last byte b, byte by byte.
fn last_in(text: &[u8], b: u8) -> Option<usize>
    ensures { MatchOption result ((k : ℕ) → k < length text.now → slice_index text.now k ≢ b)
        (λ i. (i < length text.now) × (slice_index text.now i ≡ b) × ((k : ℕ) → i < k → k < length text.now → slice_index text.now k ≢ b)) }
{
    text.iter().rposition(|c| *c == b)
}

// The place of the last byte b, by blocks: a line of a translation has no space. The first block may hold bytes that were in one before.
pub fn last_of(text: &[u8], b: u8) -> Option<usize>
    ensures { MatchOption result ((k : ℕ) → k < length text.now → slice_index text.now k ≢ b)
        (λ i. (i < length text.now) × (slice_index text.now i ≡ b) × ((k : ℕ) → i < k → k < length text.now → slice_index text.now k ≢ b)) }
{
    let mut end = text.len();
    for block in text.rchunks_exact(16) {
        if !lacks(block, b) {
            break;
        }
        end -= 16;
    }
    if end < 16 && 16 <= text.len() && lacks(&text[..16], b) {
        return None;
    }
    last_in(&text[..end], b)
}

// The first line of the text, where `taken` columns are taken, and whether it is to be written with quotes doubled: false where it is known to hold none. Where each byte
// takes one column, it needs no scan.
fn line_break(text: &[u8], taken: usize, width: usize, quote: bool) -> (Break, bool)
    requires { (length text.now ≤ most) × (taken ≤ 33554432) × (width ≤ 132) }
    ensures is { Breaks quote width taken text.now result.0 }
    ensures same { escape result.1 (take result.0.end text.now) ≡ escape quote (take result.0.end text.now) }
{
    let n = text.len().min(width.saturating_sub(taken));
    let start = &text[..n];
    if let Some(k) = first_mark(start, mark(quote)) {
        if start[k] != b'\n' {
            return (line_scan(text, k, taken, width, true), true);
        }
        let fed = Break {
            end: k,
            next: k + 1,
        };
        return (fed, false);
    }
    if n == text.len() {
        return (Break { end: n, next: n }, false);
    }
    // below 128 a byte is a character of its own
    if text[n] < 128 {
        return (full(text[n], n, last_of(start, b' ')), false);
    }
    (line_scan(text, n, taken, width, quote), quote)
}

// Whether no byte is written twice.
fn is_single(text: &[u8], quote: bool) -> bool
    ensures yes { IsTrue result → quote ≡ true → (k : ℕ) → k < length text.now → slice_index text.now k ≢ 34 }
    ensures no { result ≡ false → quote ≡ true }
{
    !quote || !text.contains(&b'"')
}

// How many quotes a line has, by which it is longer where they are doubled.
fn quotes_in(line: &[u8]) -> usize
    ensures { length line.now + result ≡ length (escape true line.now) }
{
    let mut n = 0;
    for b in line {
        if *b == b'"' {
            n += 1;
        }
    }
    n
}

// A line whose quotes are doubled, where it fits.
fn store_doubled(out: &mut [u8], at: usize, line: &[u8]) -> usize
    requires { at + 2 * length line.now ≤ length out.old }
    ensures { Writes out.old at (escape true line.now) out.new result }
{
    let mut p = at;
    for b in line {
        out[p] = *b;
        p += 1;
        if *b == b'"' {
            out[p] = *b;
            p += 1;
        }
    }
    p
}

// A line as it is written: a quote twice where quotes are doubled. Byte by byte only near the end of the room.
fn put_escaped(out: &mut [u8], at: usize, line: &[u8], quote: bool) -> usize
    ensures { Writes out.old at (escape quote line.now) out.new result }
{
    if is_single(line, quote) {
        return put_all(out, at, line);
    }
    if out.len() <= at {
        return at
            .saturating_add(line.len())
            .saturating_add(quotes_in(line));
    }
    if line.len() <= (out.len() - at) / 2 {
        return store_doubled(out, at, line);
    }
    let mut p = at;
    for b in line {
        if *b == b'"' {
            p = put(out, p, *b);
        }
        p = put(out, p, *b);
    }
    p
}

// The end of a line that is not the last, and the indent of the next.
fn put_break(out: &mut [u8], at: usize, indent: usize) -> usize
    ensures { Writes out.old at (10 ∷ [] ++ spaces indent) out.new result }
{
    let next = put(out, at, b'\n');
    put_spaces(out, next, indent)
}

// What ends a text whose last line has a free column, or has not.
fn put_closing(out: &mut [u8], at: usize, quote: bool, free: bool, indent: usize) -> usize
    ensures { Writes out.old at (closed quote free indent) out.new result }
{
    if !quote {
        return put(out, at, b'\n');
    }
    if free {
        return put_all(out, at, b"\"\n");
    }
    let a = put_break(out, at, indent);
    put_all(out, a, b"\"\n")
}

// The text after its first indent and quote, which take `taken` columns.
pub fn put_wrapped(
    out: &mut [u8],
    at: usize,
    text: &[u8],
    taken: usize,
    indent: usize,
    quote: bool,
    width: usize,
) -> usize
    requires { (length text.now ≤ most) × (taken ≤ 33554432) × (indent + 2 ≤ width) × (width ≤ 132) }
    ensures { Writes out.old at (wrapped quote width indent taken text.now) out.new result }
{
    let mut p = at;
    let mut used = taken;
    let mut rest = text;
    loop {
        let (line, doubled) = line_break(rest, used, width, quote);
        let a = put_escaped(out, p, &rest[..line.end], doubled);
        rest = &rest[line.next..];
        if rest.is_empty() {
            let free = a - p < width.saturating_sub(used);
            return put_closing(out, a, quote, free, indent);
        }
        p = put_break(out, a, indent);
        used = indent;
    }
}
