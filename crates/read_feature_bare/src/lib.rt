// Bare texts of feature_table.rs, which are the texts of locations and unquoted values: a line and the further lines with the indent and no slash, joined by nothing.
#![tactic(auto)]

ghost use Rattle.std.specs.Prelude.{◌≡◌, ◌≤◌, length, drop};
ghost use Rattle.spec_format.specs.Bytes.{spaces};
ghost use Rattle.spec_format.specs.Readers.{bind, tag, utf8_of};
ghost use Rattle.spec_format.specs.Features.{not_slash, bare_more, bare};
ghost use Rattle.scan_bytes.specs.Views.{Stepped};
ghost use Rattle.read_feature_joined.specs.Taken.{taken, gathered};
ghost use Rattle.read_feature_joined.specs.Views.{Valued};
ghost use Rattle.base_pen.specs.Pen.{Writes};
ghost use Rattle.scan_utf8.specs.States.{start};
ghost use Rattle.read_feature_bare.specs.Bared.{bare_text, Furthered, Bared, over_lines, Stretched};

use read_feature_joined::Value;
use scan_bytes::{Line, Step};
use scan_utf8::State;

// A further line's text, and the line after it; or that none stands here.
#[derive(Clone, Copy)]
enum Further {
    Line {
        from: usize,
        end: usize,
        next: usize,
    },
    Stop,
    No,
    Cut,
}

// A bare text's length, the place after it, and the state in which it leaves the test of UTF-8.
#[derive(Clone, Copy)]
pub enum Bare {
    Got {
        length: usize,
        next: usize,
        state: State,
    },
    No,
    Cut,
}

// A bare text where it stands, in one line up to `end` or over several with this length together, and the place after it.
#[derive(Clone, Copy)]
pub enum Stretch {
    Line { end: usize, next: usize },
    Lines { length: usize, next: usize },
    No,
    Cut,
}

// The indent, and then any byte but a slash. Mostly a slash stands there, and then it does not matter what stands before it.
fn further_start(s: &[u8], at: usize, indent: usize) -> Step
    requires { at ≤ length s.now }
    ensures { Stepped s.now at (bind (tag (spaces indent) (drop at s.now)) (λ _ z. not_slash z)) result }
{
    if indent < s.len() - at {
        if s[at + indent] == b'/' {
            return Step::No;
        }
    }
    match scan_bytes::indent(s, at, indent) {
        Step::Got(i) => {
            if s.len() <= i {
                return Step::No;
            }
            if s[i] == b'/' {
                return Step::No;
            }
            Step::Got(i)
        }
        Step::No => Step::No,
        Step::Cut => Step::Cut,
    }
}

fn further_at(s: &[u8], at: usize, indent: usize) -> Further
    requires { at ≤ length s.now }
    ensures { Furthered s.now at (bare_more indent (drop at s.now)) result }
{
    match further_start(s, at, indent) {
        Step::Got(from) => match scan_bytes::line_at(s, from) {
            Line::Got { end, next } => Further::Line { from, end, next },
            Line::No => Further::No,
            Line::Cut => Further::Cut,
        },
        Step::No => Further::Stop,
        Step::Cut => Further::Cut,
    }
}

// The further lines, with the count and the test going on from those of the first line.
fn further_lines(s: &[u8], at: usize, indent: usize, first: usize, before: State) -> Bare
    requires { (at ≤ length s.now) × (first ≤ at) }
    ensures { Bared s.now at first before (taken (bare_more indent) (drop at s.now)) (gathered (bare_more indent) (drop at s.now)) result }
{
    let mut i = at;
    let mut length = first;
    let mut state = before;
    loop {
        match further_at(s, i, indent) {
            Further::Line { from, end, next } => {
                length += end - from;
                state = scan_utf8::utf8_on(state, s, from, end);
                i = next;
            }
            Further::Stop => {
                return Bare::Got {
                    length,
                    next: i,
                    state,
                };
            }
            Further::No => return Bare::No,
            Further::Cut => return Bare::Cut,
        }
    }
}

// The text that `bare_text` says; locations and values test it further.
pub fn bare_at(s: &[u8], at: usize, indent: usize) -> Bare
    requires { at ≤ length s.now }
    ensures { Bared s.now at 0 start (bare_text indent (drop at s.now)) (bare indent (drop at s.now)) result }
{
    match scan_bytes::line_at(s, at) {
        Line::Got { end, next } => {
            let state = scan_utf8::utf8_on(scan_utf8::started(), s, at, end);
            further_lines(s, next, indent, end - at, state)
        }
        Line::No => Bare::No,
        Line::Cut => Bare::Cut,
    }
}

// A text over several lines, by what is known of the tested one.
fn over_lines(text: Bare) -> Stretch
    ensures { result ≡ over_lines text }
{
    match text {
        Bare::Got {
            length,
            next,
            state: _,
        } => Stretch::Lines { length, next },
        Bare::No => Stretch::No,
        Bare::Cut => Stretch::Cut,
    }
}

// The text that `bare_at` finds, without the test of UTF-8: one in a single line, as most are, is found by its line end alone.
pub fn stretch_at(s: &[u8], at: usize, indent: usize) -> Stretch
    requires { at ≤ length s.now }
    ensures { Stretched s.now at (bare_text indent (drop at s.now)) (bare indent (drop at s.now)) result }
{
    match scan_bytes::line_at(s, at) {
        Line::Got { end, next } => match further_start(s, next, indent) {
            Step::No => Stretch::Line { end, next },
            Step::Got(_) => over_lines(bare_at(s, at, indent)),
            Step::Cut => Stretch::Cut,
        },
        Line::No => Stretch::No,
        Line::Cut => Stretch::Cut,
    }
}

// A bare value: UTF-8, after joining.
pub fn bare_value_at(s: &[u8], at: usize, indent: usize) -> Value
    requires { at ≤ length s.now }
    ensures { Valued s.now at (bare_text indent (drop at s.now)) (utf8_of (bare indent (drop at s.now))) result }
{
    match bare_at(s, at, indent) {
        Bare::Got {
            length,
            next,
            state,
        } => {
            if scan_utf8::utf8_ends(state) {
                return Value::Got { length, next };
            }
            Value::No
        }
        Bare::No => Value::No,
        Bare::Cut => Value::Cut,
    }
}

// ---- into a room

fn put_further(s: &[u8], at: usize, indent: usize, room: &mut [u8], place: usize) -> usize
    requires { at ≤ length s.now }
    ensures { Writes room.old place (taken (bare_more indent) (drop at s.now)) room.new result }
{
    let mut i = at;
    let mut p = place;
    loop {
        match further_at(s, i, indent) {
            Further::Line { from, end, next } => {
                p = base_pen::put_all(room, p, &s[from..end]);
                i = next;
            }
            Further::Stop => return p,
            Further::No => return p,
            Further::Cut => return p,
        }
    }
}

// The text that `bare_at` scans.
pub fn put_bare(s: &[u8], at: usize, indent: usize, room: &mut [u8], place: usize) -> usize
    requires { at ≤ length s.now }
    ensures { Writes room.old place (bare_text indent (drop at s.now)) room.new result }
{
    match scan_bytes::line_at(s, at) {
        Line::Got { end, next } => {
            let p = base_pen::put_all(room, place, &s[at..end]);
            put_further(s, next, indent, room, p)
        }
        Line::No => place,
        Line::Cut => place,
    }
}
