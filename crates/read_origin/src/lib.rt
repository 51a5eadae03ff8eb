// From ORIGIN on: `origin_tag` of misc.rs, the letters and the record's end of stream_parser.rs. Nothing is written.
#![tactic(auto)]

ghost use Rattle.std.specs.Prelude.{◌≡◌, ℕ, ◌≤◌, ◌<◌, length, drop, Option};
ghost use Rattle.spec_format.specs.Readers.{line, utf8_of};
ghost use Rattle.spec_format.specs.Origin.{origin_tag};
ghost use Rattle.spec_format.specs.Record.{promised, counted};
ghost use Rattle.spec_format.specs.Rooms.{may_length};
ghost use Rattle.read_letters.specs.Runs.{sifted};
ghost use Rattle.read_origin.specs.Ends.{origin_blanks, origin_text, origin_rest, Passed, letters_then, sequence_then, origin_then, bad_by, Ends};

use read_letters::Counted;
use read_slashes::RecordEnd;
use scan_bytes::{Line, Step};
use spec_format::Unread;

// The letters stand at `letters_at` and are `letters` many, and the record ends at `place`; or why there is none. A record without ORIGIN has
// its letters at the slice's end, where none are.
#[derive(Clone, Copy)]
pub enum EndAt {
    Got {
        letters_at: usize,
        letters: usize,
        place: usize,
    },
    Refused(Unread),
}

// ---- ORIGIN

// Blanks and a line end, after the word.
fn origin_blanks(s: &[u8], at: usize) -> Step
    requires { at ≤ length s.now }
    ensures { Passed s.now at (origin_blanks (drop at s.now)) result }
{
    match scan_bytes::blanks0(s, at) {
        Step::Got(next) => scan_bytes::line_end(s, next),
        Step::No => Step::No,
        Step::Cut => Step::Cut,
    }
}

// A text up to the line's end, which is dropped; no line after it belongs to it.
fn origin_line(s: &[u8], at: usize) -> Step
    requires { at ≤ length s.now }
    ensures { Passed s.now at (utf8_of (line (drop at s.now))) result }
{
    match scan_utf8::utf8_line(s, at) {
        Line::Got { end: _, next } => Step::Got(next),
        Line::No => Step::No,
        Line::Cut => Step::Cut,
    }
}

// A space at least and a text, after the word.
fn origin_text(s: &[u8], at: usize) -> Step
    requires { at ≤ length s.now }
    ensures { Passed s.now at (origin_text (drop at s.now)) result }
{
    match scan_bytes::spaces1(s, at) {
        Step::Got(next) => origin_line(s, next),
        Step::No => Step::No,
        Step::Cut => Step::Cut,
    }
}

// Blanks alone, or else a text.
fn origin_rest(s: &[u8], at: usize) -> Step
    requires { at ≤ length s.now }
    ensures { Passed s.now at (origin_rest (drop at s.now)) result }
{
    match origin_blanks(s, at) {
        Step::Got(next) => Step::Got(next),
        Step::Cut => Step::Cut,
        Step::No => origin_text(s, at),
    }
}

// ORIGIN's line.
pub fn origin_at(s: &[u8], at: usize) -> Step
    requires { at ≤ length s.now }
    ensures { Passed s.now at (origin_tag (drop at s.now)) result }
{
    match scan_bytes::tag(s, at, b"ORIGIN") {
        Step::Got(next) => origin_rest(s, next),
        Step::No => Step::No,
        Step::Cut => Step::Cut,
    }
}

// ---- the letters, and the record's end

// Whether LOCUS gives this length or none.
fn may_number(given: Option<u32>, n: usize) -> bool
    ensures { result ≡ promised (may_length given) n }
{
    given.is_none_or(|l| l as usize == n)
}

// Whether LOCUS gives this length.
fn must_number(given: Option<u32>, n: usize) -> bool
    ensures { result ≡ counted (may_length given) n }
{
    given.is_some_and(|l| l as usize == n)
}

// The record's end at `at`; its letters start at `first` and were counted already.
fn slashes_after(s: &[u8], at: usize, first: usize, letters: usize) -> EndAt
    requires { (at ≤ length s.now) × (first ≤ length s.now) × (letters ≡ length (sifted (drop first s.now))) }
    ensures { (given : Option ℕ) → Ends s.now given (letters_then (sifted (drop first s.now)) (drop at s.now)) result }
{
    match read_slashes::record_end(s, at) {
        RecordEnd::At(place) => EndAt::Got {
            letters_at: first,
            letters,
            place,
        },
        RecordEnd::NoSlashes => EndAt::Refused(Unread::NoSlashes),
        RecordEnd::Unended => EndAt::Refused(Unread::Unended),
    }
}

// Why the letters may not go on with the byte at a place: a letter stands there only with the strict switch, as one without a code.
fn bad_letter(s: &[u8], at: usize) -> Unread
    requires { at < length s.now }
    ensures { result ≡ bad_by (drop at s.now) }
{
    if scan_bytes::is_letter(s[at]) {
        return Unread::StrayLetter;
    }
    Unread::BadLetter
}

// The letters at `at`, which must be as many as LOCUS says. The input may end with them only if LOCUS says how many there are.
fn sequence_at(s: &[u8], at: usize, given: Option<u32>, strict: bool) -> EndAt
    requires { at ≤ length s.now }
    ensures { Ends s.now given (sequence_then strict (drop at s.now)) result }
{
    match read_letters::count_letters(s, at, strict) {
        Counted::AtSlash { count, next } => {
            if may_number(given, count) {
                return slashes_after(s, next, at, count);
            }
            EndAt::Refused(Unread::OtherLength)
        }
        Counted::AtEnd { count } => {
            if must_number(given, count) {
                return EndAt::Got {
                    letters_at: at,
                    letters: count,
                    place: s.len(),
                };
            }
            EndAt::Refused(Unread::Unended)
        }
        Counted::Bad { next } => EndAt::Refused(bad_letter(s, next)),
    }
}

// ORIGIN and the letters, or none; and the record's end.
pub fn end_at(s: &[u8], at: usize, given: Option<u32>, strict: bool) -> EndAt
    requires { at ≤ length s.now }
    ensures { Ends s.now given (origin_then strict (drop at s.now)) result }
{
    match origin_at(s, at) {
        Step::Got(next) => sequence_at(s, next, given, strict),
        Step::No => slashes_after(s, at, s.len(), 0),
        Step::Cut => EndAt::Refused(Unread::Unended),
    }
}
