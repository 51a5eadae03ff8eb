// Header entries (field.rs): a word, spaces, a text, and further lines at the text's column. What is found is where the text stands; it is put later.
#![tactic(auto)]

ghost use Rattle.std.specs.Prelude.{◌≡◌, ◌+◌, ◌-◌, ◌≤◌, ◌<◌, length, drop};
ghost use Rattle.spec_format.specs.Header.{line_after, further_line, field_text, field_bytes, field};
ghost use Rattle.scan_bytes.specs.Places.{part};
ghost use Rattle.scan_utf8.specs.States.{start, Ran};
ghost use Rattle.read_field_entry.specs.Texts.{further, grown_by, Pieced, Joins};
ghost use Rattle.read_field_entry.specs.Entries.{gapped, worded, Finds, Enters};

use scan_bytes::{Line, Step};
use scan_utf8::State;

// A further line: its text from `from` up to `end`.
#[derive(Clone, Copy)]
pub enum Piece {
    Got {
        from: usize,
        end: usize,
        next: usize,
    },
    No,
    Cut,
}

// A text of several lines, joined, and the state in which it leaves the test of UTF-8.
#[derive(Clone, Copy)]
enum Joined {
    Got {
        length: usize,
        next: usize,
        state: State,
    },
    No,
    Cut,
}

// A text starts at `text`, its further lines stand `columns` in, joined it has `length` bytes, and `next` is the place after it.
#[derive(Clone, Copy)]
pub struct Entry {
    pub text: usize,
    pub columns: usize,
    pub length: usize,
    pub next: usize,
}

#[derive(Clone, Copy)]
enum Found {
    Got(Entry, State),
    No,
    Cut,
}

#[derive(Clone, Copy)]
pub enum EntryAt {
    Got(Entry),
    No,
    Cut,
}

// ---- texts

// The state after a further line, with its LF or without.
fn line_state(u: State, keep: bool, s: &[u8], from: usize, to: usize) -> State
    requires { (from ≤ to) × (to ≤ length s.now) }
    ensures { Ran u (line_after keep (part from to s.now)) result }
{
    if keep {
        return scan_utf8::utf8_on(scan_utf8::utf8_feed(u), s, from, to);
    }
    scan_utf8::utf8_on(u, s, from, to)
}

fn grown(keep: bool, front: usize, n: usize) -> usize
    requires { front + n + 1 < 18446744073709551616 }
    ensures { result ≡ grown_by keep front n }
{
    if keep { front + n + 1 } else { front + n }
}

pub fn further_line(s: &[u8], at: usize, columns: usize) -> Piece
    requires { at ≤ length s.now }
    ensures { Pieced s.now at (further_line columns (drop at s.now)) result }
{
    match scan_bytes::indent(s, at, columns) {
        Step::No => Piece::No,
        Step::Cut => Piece::Cut,
        Step::Got(from) => match scan_bytes::line_at(s, from) {
            Line::No => Piece::No,
            Line::Cut => Piece::Cut,
            Line::Got { end, next } => Piece::Got { from, end, next },
        },
    }
}

// The further lines from `at` on, after `front` bytes that left the test of UTF-8 in the state `u`.
fn further_lines(s: &[u8], at: usize, columns: usize, keep: bool, u: State, front: usize) -> Joined
    requires { (at ≤ length s.now) × (front ≤ at) }
    ensures { Joins s.now at (further columns keep (drop at s.now)) u front result }
{
    let mut i = at;
    let mut size = front;
    let mut state = u;
    loop {
        match further_line(s, i, columns) {
            Piece::No => return Joined::Got {
                length: size,
                next: i,
                state,
            },
            Piece::Cut => return Joined::Cut,
            Piece::Got { from, end, next } => {
                state = line_state(state, keep, s, from, end);
                size = grown(keep, size, end - from);
                i = next;
            }
        }
    }
}

fn text_at(s: &[u8], at: usize, columns: usize, keep: bool) -> Joined
    requires { at ≤ length s.now }
    ensures { Joins s.now at (field_text columns keep (drop at s.now)) start 0 result }
{
    match scan_bytes::line_at(s, at) {
        Line::No => Joined::No,
        Line::Cut => Joined::Cut,
        Line::Got { end, next } => further_lines(
            s,
            next,
            columns,
            keep,
            scan_utf8::utf8_on(scan_utf8::started(), s, at, end),
            end - at,
        ),
    }
}

// ---- entries

fn found_text(s: &[u8], at: usize, columns: usize, keep: bool) -> Found
    requires { at ≤ length s.now }
    ensures { Finds s.now at keep (field_text columns keep (drop at s.now)) result }
{
    match text_at(s, at, columns, keep) {
        Joined::No => Found::No,
        Joined::Cut => Found::Cut,
        Joined::Got {
            length,
            next,
            state,
        } => Found::Got(
            Entry {
                text: at,
                columns,
                length,
                next,
            },
            state,
        ),
    }
}

fn found_gap(s: &[u8], at: usize, indent: usize, word: usize, keep: bool) -> Found
    requires { (at ≤ length s.now) × (indent < 4096) × (word < 4096) }
    ensures { Finds s.now at keep (gapped indent word keep (drop at s.now)) result }
{
    match scan_bytes::spaces1(s, at) {
        Step::No => Found::No,
        Step::Cut => Found::Cut,
        Step::Got(d) => found_text(s, d, indent + (d - at) + word, keep),
    }
}

fn found_word(s: &[u8], at: usize, indent: usize, word: &[u8], keep: bool) -> Found
    requires { (at ≤ length s.now) × (indent < 4096) × (length word.now < 4096) }
    ensures { Finds s.now at keep (worded indent word.now keep (drop at s.now)) result }
{
    match scan_bytes::tag(s, at, word) {
        Step::No => Found::No,
        Step::Cut => Found::Cut,
        Step::Got(a) => found_gap(s, a, indent, word.len(), keep),
    }
}

fn found_at(s: &[u8], at: usize, indent: usize, word: &[u8], keep: bool) -> Found
    requires { (at ≤ length s.now) × (indent < 4096) × (length word.now < 4096) }
    ensures { Finds s.now at keep (field_bytes indent word.now keep (drop at s.now)) result }
{
    match scan_bytes::indent(s, at, indent) {
        Step::No => Found::No,
        Step::Cut => Found::Cut,
        Step::Got(a) => found_word(s, a, indent, word, keep),
    }
}

// An entry whose text is UTF-8.
pub fn field_at(s: &[u8], at: usize, indent: usize, word: &[u8], keep: bool) -> EntryAt
    requires { (at ≤ length s.now) × (indent < 4096) × (length word.now < 4096) }
    ensures { Enters s.now at keep (field indent word.now keep (drop at s.now)) result }
{
    match found_at(s, at, indent, word, keep) {
        Found::No => EntryAt::No,
        Found::Cut => EntryAt::Cut,
        Found::Got(entry, state) => {
            if scan_utf8::utf8_ends(state) {
                EntryAt::Got(entry)
            } else {
                EntryAt::No
            }
        }
    }
}

// An entry, whatever its text's bytes.
pub fn bytes_at(s: &[u8], at: usize, indent: usize, word: &[u8], keep: bool) -> EntryAt
    requires { (at ≤ length s.now) × (indent < 4096) × (length word.now < 4096) }
    ensures { Enters s.now at keep (field_bytes indent word.now keep (drop at s.now)) result }
{
    match found_at(s, at, indent, word, keep) {
        Found::No => EntryAt::No,
        Found::Cut => EntryAt::Cut,
        Found::Got(entry, _) => EntryAt::Got(entry),
    }
}
