// The header's fields (field.rs): entries that may be missing, and lines that are dropped.
#![tactic(auto)]

ghost use Rattle.std.specs.Prelude.{◌≡◌, ◌≤◌, ◌<◌, length, drop};
ghost use Rattle.spec_format.specs.Bytes.{bytes};
ghost use Rattle.spec_format.specs.Readers.{or_else, tag};
ghost use Rattle.spec_format.specs.Header.{maybe_field, source, ignored_line};
ghost use Rattle.scan_bytes.specs.Views.{Stepped, Lined};
ghost use Rattle.read_field_optional.specs.Fields.{section_word, may_length, MayEnter, Sources};

use read_field_entry::{Entry, EntryAt};
use scan_bytes::{Line, Step};

// An entry that may be missing.
#[derive(Clone, Copy)]
pub enum MayEntry {
    Absent,
    Is(Entry),
}

#[derive(Clone, Copy)]
pub enum MayEntryAt {
    Got { entry: MayEntry, next: usize },
    Cut,
}

// SOURCE, with ORGANISM where that follows.
#[derive(Clone, Copy)]
pub enum SourceAt {
    Got {
        text: Entry,
        organism: MayEntry,
        next: usize,
    },
    No,
    Cut,
}

// One word or else the other.
fn either_word(s: &[u8], at: usize, a: &[u8], b: &[u8]) -> Step
    requires { at ≤ length s.now }
    ensures { Stepped s.now at (or_else (tag a.now (drop at s.now)) (tag b.now (drop at s.now))) result }
{
    match scan_bytes::tag(s, at, a) {
        Step::Got(n) => Step::Got(n),
        Step::Cut => Step::Cut,
        Step::No => scan_bytes::tag(s, at, b),
    }
}

// A word that ends the header.
fn section_word(s: &[u8], at: usize) -> Step
    requires { at ≤ length s.now }
    ensures { Stepped s.now at (section_word (drop at s.now)) result }
{
    match either_word(s, at, b"ORIGIN", b"CONTIG") {
        Step::Got(n) => Step::Got(n),
        Step::Cut => Step::Cut,
        Step::No => either_word(s, at, b"FEATURES", b"//"),
    }
}

// A line that is dropped.
pub fn dropped_at(s: &[u8], at: usize) -> Line
    requires { at ≤ length s.now }
    ensures { Lined s.now at (ignored_line (drop at s.now)) result }
{
    match section_word(s, at) {
        Step::Got(_) => Line::No,
        Step::Cut => Line::Cut,
        Step::No => scan_utf8::utf8_line(s, at),
    }
}

// How many bytes the text of an entry has.
pub fn may_length(e: MayEntry) -> usize
    ensures { result ≡ may_length e }
{
    match e {
        MayEntry::Absent => 0,
        MayEntry::Is(entry) => entry.length,
    }
}

pub fn may_field_at(s: &[u8], at: usize, indent: usize, word: &[u8], keep: bool) -> MayEntryAt
    requires { (at ≤ length s.now) × (indent < 4096) × (length word.now < 4096) }
    ensures { MayEnter s.now at keep (maybe_field indent word.now keep (drop at s.now)) result }
{
    match read_field_entry::field_at(s, at, indent, word, keep) {
        EntryAt::Cut => MayEntryAt::Cut,
        EntryAt::No => MayEntryAt::Got {
            entry: MayEntry::Absent,
            next: at,
        },
        EntryAt::Got(entry) => MayEntryAt::Got {
            entry: MayEntry::Is(entry),
            next: entry.next,
        },
    }
}

pub fn source_at(s: &[u8], at: usize) -> SourceAt
    requires { at ≤ length s.now }
    ensures { Sources s.now at (source (drop at s.now)) result }
{
    match read_field_entry::field_at(s, at, 0, b"SOURCE", true) {
        EntryAt::No => SourceAt::No,
        EntryAt::Cut => SourceAt::Cut,
        EntryAt::Got(text) => {
            let after = text.next;
            match may_field_at(s, after, 2, b"ORGANISM", true) {
                MayEntryAt::Cut => SourceAt::Cut,
                MayEntryAt::Got { entry, next } => SourceAt::Got {
                    text,
                    organism: entry,
                    next,
                },
            }
        }
    }
}
