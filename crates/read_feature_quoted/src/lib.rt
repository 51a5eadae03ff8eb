// Quoted values of feature_table.rs: escapes are undone, lines are joined by LF, or by nothing in `translation`, and the joined text is UTF-8.
#![tactic(auto)]

ghost use Rattle.std.specs.Prelude.{◌≡◌, ◌+◌, ◌≤◌, ◌<◌, ◌||◌, eqb, ltb, ◌∷◌, [], length, drop};
ghost use Rattle.spec_format.specs.Readers.{tag, utf8_of};
ghost use Rattle.spec_format.specs.Features.{special, escape, quoted_turn, quoted};
ghost use Rattle.read_feature_joined.specs.Taken.{taken, gathered};
ghost use Rattle.read_feature_joined.specs.Views.{Valued};
ghost use Rattle.base_pen.specs.Pen.{Writes};
ghost use Rattle.scan_bytes.specs.Places.{part};
ghost use Rattle.scan_utf8.specs.States.{ascii, Ran};
ghost use Rattle.read_feature_quoted.specs.Escapes.{feed, second_quote, split_quote, later_escape, QuoteStep, StepOne, Escaped, Known, Onward, Plain, PlainRun, Closed, Turned, feed_text, Pieced, quoted_text};

use base_arith::both;
use read_feature_joined::Value;
use scan_bytes::Step;
use scan_utf8::State;

// What an escape stands for, a quote or a LF, and the place after it.
#[derive(Clone, Copy)]
enum Escape {
    Quote(usize),
    Feed(usize),
    No,
    Cut,
}

// An escape, or the place after the value's end.
#[derive(Clone, Copy)]
enum Turn {
    Quote(usize),
    Feed(usize),
    Stop(usize),
    No,
    Cut,
}

// Where a run of ordinary bytes ends, and whether they are known to be ASCII.
#[derive(Clone, Copy)]
struct Run {
    end: usize,
    ascii: bool,
}

// The text's bytes up to `to`, then a LF where `feed` says so, and where the value goes on; or the last of its bytes, and how it ends. `ascii` where those bytes are known to be.
#[derive(Clone, Copy)]
enum Piece {
    On {
        to: usize,
        feed: bool,
        next: usize,
        ascii: bool,
    },
    Stop {
        to: usize,
        next: usize,
        ascii: bool,
    },
    No(usize),
    Cut(usize),
}

// ---- escapes

fn quote_at(s: &[u8], at: usize) -> Step
    requires { at ≤ length s.now }
    ensures { QuoteStep s.now at (tag (34 ∷ []) (drop at s.now)) result }
{
    if s.len() <= at {
        return Step::Cut;
    }
    if s[at] != b'"' {
        return Step::No;
    }
    Step::Got(at + 1)
}

fn double_at(s: &[u8], at: usize) -> Step
    requires { at ≤ length s.now }
    ensures { QuoteStep s.now at (tag (34 ∷ 34 ∷ []) (drop at s.now)) result }
{
    match quote_at(s, at) {
        Step::Got(i) => quote_at(s, i),
        Step::No => Step::No,
        Step::Cut => Step::Cut,
    }
}

// A line's end and the indent.
fn feed_at(s: &[u8], at: usize, indent: usize) -> Step
    requires { at ≤ length s.now }
    ensures { StepOne s.now at (feed indent (drop at s.now)) result }
{
    match scan_bytes::line_end(s, at) {
        Step::Got(i) => scan_bytes::indent(s, i, indent),
        Step::No => Step::No,
        Step::Cut => Step::Cut,
    }
}

// A line's end, the indent and a quote. Mostly no quote stands there, and then it does not matter what stands before it.
fn second_quote(s: &[u8], at: usize, indent: usize) -> Step
    requires { at ≤ length s.now }
    ensures { StepOne s.now at (second_quote indent (drop at s.now)) result }
{
    match scan_bytes::line_end(s, at) {
        Step::Got(i) => {
            if indent < s.len() - i {
                if s[i + indent] != b'"' {
                    return Step::No;
                }
            }
            match scan_bytes::indent(s, i, indent) {
                Step::Got(j) => quote_at(s, j),
                Step::No => Step::No,
                Step::Cut => Step::Cut,
            }
        }
        Step::No => Step::No,
        Step::Cut => Step::Cut,
    }
}

// Two quotes with a line's end and the indent between them.
fn split_at(s: &[u8], at: usize, indent: usize) -> Step
    requires { at ≤ length s.now }
    ensures { QuoteStep s.now at (split_quote indent (drop at s.now)) result }
{
    match quote_at(s, at) {
        Step::Got(i) => second_quote(s, i, indent),
        Step::No => Step::No,
        Step::Cut => Step::Cut,
    }
}

fn later_escape(s: &[u8], at: usize, indent: usize) -> Escape
    requires { at ≤ length s.now }
    ensures { Escaped s.now at (later_escape indent (drop at s.now)) result }
{
    match split_at(s, at, indent) {
        Step::Got(n) => Escape::Quote(n),
        Step::No => match feed_at(s, at, indent) {
            Step::Got(n) => Escape::Feed(n),
            Step::No => Escape::No,
            Step::Cut => Escape::Cut,
        },
        Step::Cut => Escape::Cut,
    }
}

fn escape_at(s: &[u8], at: usize, indent: usize) -> Escape
    requires { at ≤ length s.now }
    ensures { Escaped s.now at (escape indent (drop at s.now)) result }
{
    match double_at(s, at) {
        Step::Got(n) => Escape::Quote(n),
        Step::No => later_escape(s, at, indent),
        Step::Cut => Escape::Cut,
    }
}

// ---- runs of ordinary bytes, and what ends them

fn is_special(b: u8) -> bool
    ensures { result ≡ special b }
{
    b == b'"' || (b == b'\r' || b == b'\n')
}

// Whether a byte stands for itself because it is above the quote, or a space; most do.
fn is_ordinary(b: u8) -> bool
    ensures { result ≡ (ltb 34 b || eqb b 32) }
{
    if b'"' < b {
        return true;
    }
    b == b' '
}

fn is_ascii(b: u8) -> bool
    ensures { result ≡ ascii b }
{
    b < 128
}

// Whether the eight bytes at a place are such, and ASCII.
fn eight_ordinary(s: &[u8], at: usize) -> bool
    requires { at + 8 ≤ length s.now }
    ensures { Onward s.now at 8 result }
{
    let mut ok = true;
    let mut j = 0;
    while j < 8 {
        let b = s[at + j];
        ok = both(ok, both(is_ordinary(b), is_ascii(b)));
        j += 1;
    }
    ok
}

fn special_at(s: &[u8], at: usize) -> usize
    requires { at ≤ length s.now }
    ensures { Plain s.now at result }
{
    let mut i = at;
    while i < s.len() {
        if is_special(s[i]) {
            return i;
        }
        i += 1;
    }
    i
}

// One pass tests for special bytes and for ASCII; from a byte that is not ASCII on, for special bytes alone.
fn plain_end(s: &[u8], at: usize) -> Run
    requires { at ≤ length s.now }
    ensures { PlainRun s.now at result }
{
    let mut i = at;
    while 8 <= s.len() - i {
        if !eight_ordinary(s, i) {
            break;
        }
        i += 8;
    }
    while i < s.len() {
        let b = s[i];
        if is_special(b) {
            return Run {
                end: i,
                ascii: true,
            };
        }
        if 128 <= b {
            return Run {
                end: special_at(s, i),
                ascii: false,
            };
        }
        i += 1;
    }
    Run {
        end: i,
        ascii: true,
    }
}

fn closing_at(s: &[u8], at: usize) -> Turn
    requires { at ≤ length s.now }
    ensures { Closed s.now at result }
{
    match quote_at(s, at) {
        Step::Got(i) => match scan_bytes::line_end(s, i) {
            Step::Got(n) => Turn::Stop(n),
            Step::No => Turn::No,
            Step::Cut => Turn::Cut,
        },
        Step::No => Turn::No,
        Step::Cut => Turn::Cut,
    }
}

fn turn_at(s: &[u8], at: usize, indent: usize) -> Turn
    requires { at ≤ length s.now }
    ensures { Turned s.now at indent result }
{
    match escape_at(s, at, indent) {
        Escape::Quote(n) => Turn::Quote(n),
        Escape::Feed(n) => Turn::Feed(n),
        Escape::No => closing_at(s, at),
        Escape::Cut => Turn::Cut,
    }
}

// A run of ordinary bytes and what ends it; a quote that is meant follows the run in the slice too.
fn piece_at(s: &[u8], at: usize, indent: usize, joined: bool) -> Piece
    requires { at ≤ length s.now }
    ensures { Pieced s.now at joined indent result }
{
    let run = plain_end(s, at);
    let e = run.end;
    let ascii = run.ascii;
    match turn_at(s, e, indent) {
        Turn::Quote(n) => Piece::On {
            to: e + 1,
            feed: false,
            next: n,
            ascii,
        },
        Turn::Feed(n) => Piece::On {
            to: e,
            feed: !joined,
            next: n,
            ascii,
        },
        Turn::Stop(n) => Piece::Stop {
            to: e,
            next: n,
            ascii,
        },
        Turn::No => Piece::No(e),
        Turn::Cut => Piece::Cut(e),
    }
}

// ---- the whole value

fn feed_length(feed: bool) -> usize
    ensures { result ≡ length (feed_text feed) }
{
    if feed { 1 } else { 0 }
}

fn fed(feed: bool, state: State) -> State
    ensures { Ran state (feed_text feed) result }
{
    if feed {
        return scan_utf8::utf8_feed(state);
    }
    state
}

// What `scan_utf8::utf8_on` gives; bytes that are known to be ASCII are not looked at between characters.
fn run_on(state: State, s: &[u8], from: usize, to: usize, ascii: bool) -> State
    requires { (from ≤ to) × (to ≤ length s.now) × Known s.now from to ascii }
    ensures { Ran state (part from to s.now) result }
{
    if ascii {
        if scan_utf8::utf8_ends(state) {
            return scan_utf8::started();
        }
    }
    scan_utf8::utf8_on(state, s, from, to)
}

fn quoted_on(s: &[u8], at: usize, indent: usize, joined: bool) -> Value
    requires { at ≤ length s.now }
    ensures { Valued s.now at (taken (quoted_turn joined indent) (drop at s.now)) (utf8_of (gathered (quoted_turn joined indent) (drop at s.now))) result }
{
    let mut i = at;
    let mut length = 0;
    let mut state = scan_utf8::started();
    loop {
        match piece_at(s, i, indent, joined) {
            Piece::On {
                to,
                feed,
                next,
                ascii,
            } => {
                length += to - i + feed_length(feed);
                state = fed(feed, run_on(state, s, i, to, ascii));
                i = next;
            }
            Piece::Stop { to, next, ascii } => {
                let last = run_on(state, s, i, to, ascii);
                if scan_utf8::utf8_ends(last) {
                    return Value::Got {
                        length: length + (to - i),
                        next,
                    };
                }
                return Value::No;
            }
            Piece::No(_) => return Value::No,
            Piece::Cut(_) => return Value::Cut,
        }
    }
}

// The quoted value at `at`; `joined` as in `translation`.
pub fn quoted_at(s: &[u8], at: usize, indent: usize, joined: bool) -> Value
    requires { at ≤ length s.now }
    ensures { Valued s.now at (quoted_text joined indent (drop at s.now)) (utf8_of (quoted joined indent (drop at s.now))) result }
{
    match quote_at(s, at) {
        Step::Got(i) => quoted_on(s, i, indent, joined),
        Step::No => Value::No,
        Step::Cut => Value::Cut,
    }
}

// ---- into a room

fn put_feed(feed: bool, room: &mut [u8], place: usize) -> usize
    ensures { Writes room.old place (feed_text feed) room.new result }
{
    if feed {
        return base_pen::put(room, place, b'\n');
    }
    place
}

fn put_on(s: &[u8], at: usize, indent: usize, joined: bool, room: &mut [u8], place: usize) -> usize
    requires { at ≤ length s.now }
    ensures { Writes room.old place (taken (quoted_turn joined indent) (drop at s.now)) room.new result }
{
    let mut i = at;
    let mut p = place;
    loop {
        match piece_at(s, i, indent, joined) {
            Piece::On {
                to,
                feed,
                next,
                ascii: _,
            } => {
                let q = base_pen::put_all(room, p, &s[i..to]);
                p = put_feed(feed, room, q);
                i = next;
            }
            Piece::Stop {
                to,
                next: _,
                ascii: _,
            } => return base_pen::put_all(room, p, &s[i..to]),
            Piece::No(to) => return base_pen::put_all(room, p, &s[i..to]),
            Piece::Cut(to) => return base_pen::put_all(room, p, &s[i..to]),
        }
    }
}

// The text that `quoted_at` scans.
pub fn put_quoted(
    s: &[u8],
    at: usize,
    indent: usize,
    joined: bool,
    room: &mut [u8],
    place: usize,
) -> usize
    requires { at ≤ length s.now }
    ensures { Writes room.old place (quoted_text joined indent (drop at s.now)) room.new result }
{
    match quote_at(s, at) {
        Step::Got(i) => put_on(s, i, indent, joined, room, place),
        Step::No => place,
        Step::Cut => place,
    }
}
