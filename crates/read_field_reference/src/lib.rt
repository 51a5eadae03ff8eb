// `reference` of field.rs: REFERENCE with the entries under it, where each text stands, and how many bytes they have together.
#![tactic(auto)]

ghost use Rattle.std.specs.Prelude.{◌≡◌, ◌≤◌, ◌<◌, length, drop};
ghost use Rattle.spec_format.specs.Header.{reference};
ghost use Rattle.read_field_reference.specs.Parts.{pair_of, up_to_consrtm, after_journal, from_title, Pairs, Fronts, Ends, Backs, joined_entries};
ghost use Rattle.read_field_reference.specs.References.{References};

use read_field_entry::{Entry, EntryAt};
use read_field_optional::{MayEntry, MayEntryAt};

#[derive(Clone, Copy)]
pub struct ReferenceEntries {
    pub text: Entry,
    pub authors: MayEntry,
    pub consrtm: MayEntry,
    pub title: Entry,
    pub journal: MayEntry,
    pub pubmed: MayEntry,
    pub remark: MayEntry,
}

// `bytes` counts the texts.
#[derive(Clone, Copy)]
pub enum ReferenceAt {
    Got {
        entries: ReferenceEntries,
        bytes: usize,
        next: usize,
    },
    No,
    Cut,
}

// An entry, and one that may follow it.
#[derive(Clone, Copy)]
enum PairAt {
    Got {
        text: Entry,
        more: MayEntry,
        bytes: usize,
        next: usize,
    },
    No,
    Cut,
}

// The entries up to CONSRTM.
#[derive(Clone, Copy)]
struct Front {
    text: Entry,
    authors: MayEntry,
    consrtm: MayEntry,
}

#[derive(Clone, Copy)]
enum FrontAt {
    Got {
        front: Front,
        bytes: usize,
        next: usize,
    },
    No,
    Cut,
}

// The entries after JOURNAL.
#[derive(Clone, Copy)]
enum EndAt {
    Got {
        pubmed: MayEntry,
        remark: MayEntry,
        bytes: usize,
        next: usize,
    },
    Cut,
}

// The entries from TITLE on.
#[derive(Clone, Copy)]
struct Back {
    title: Entry,
    journal: MayEntry,
    pubmed: MayEntry,
    remark: MayEntry,
}

#[derive(Clone, Copy)]
enum BackAt {
    Got {
        back: Back,
        bytes: usize,
        next: usize,
    },
    No,
    Cut,
}

fn pair_at(s: &[u8], at: usize, indent: usize, word: &[u8], after: &[u8]) -> PairAt
    requires { (at ≤ length s.now) × (indent < 4096) × (length word.now < 4096) × (length after.now < 4096) }
    ensures { Pairs s.now at (pair_of indent word.now after.now (drop at s.now)) result }
{
    match read_field_entry::field_at(s, at, indent, word, true) {
        EntryAt::No => PairAt::No,
        EntryAt::Cut => PairAt::Cut,
        EntryAt::Got(text) => {
            let start = text.next;
            match read_field_optional::may_field_at(s, start, 2, after, true) {
                MayEntryAt::Cut => PairAt::Cut,
                MayEntryAt::Got { entry, next } => PairAt::Got {
                    text,
                    more: entry,
                    bytes: text.length + read_field_optional::may_length(entry),
                    next,
                },
            }
        }
    }
}

fn front_at(s: &[u8], at: usize) -> FrontAt
    requires { at ≤ length s.now }
    ensures { Fronts s.now at (up_to_consrtm (drop at s.now)) result }
{
    match pair_at(s, at, 0, b"REFERENCE", b"AUTHORS") {
        PairAt::No => FrontAt::No,
        PairAt::Cut => FrontAt::Cut,
        PairAt::Got {
            text,
            more,
            bytes,
            next: start,
        } => {
            match read_field_optional::may_field_at(s, start, 2, b"CONSRTM", true) {
                MayEntryAt::Cut => FrontAt::Cut,
                MayEntryAt::Got { entry, next } => FrontAt::Got {
                    front: Front {
                        text,
                        authors: more,
                        consrtm: entry,
                    },
                    bytes: bytes + read_field_optional::may_length(entry),
                    next,
                },
            }
        }
    }
}

fn end_at(s: &[u8], at: usize) -> EndAt
    requires { at ≤ length s.now }
    ensures { Ends s.now at (after_journal (drop at s.now)) result }
{
    match read_field_optional::may_field_at(s, at, 3, b"PUBMED", false) {
        MayEntryAt::Cut => EndAt::Cut,
        MayEntryAt::Got {
            entry: pubmed,
            next: start,
        } => {
            match read_field_optional::may_field_at(s, start, 2, b"REMARK", true) {
                MayEntryAt::Cut => EndAt::Cut,
                MayEntryAt::Got {
                    entry: remark,
                    next,
                } => EndAt::Got {
                    pubmed,
                    remark,
                    bytes: read_field_optional::may_length(pubmed)
                        + read_field_optional::may_length(remark),
                    next,
                },
            }
        }
    }
}

fn back_at(s: &[u8], at: usize) -> BackAt
    requires { at ≤ length s.now }
    ensures { Backs s.now at (from_title (drop at s.now)) result }
{
    match pair_at(s, at, 2, b"TITLE", b"JOURNAL") {
        PairAt::No => BackAt::No,
        PairAt::Cut => BackAt::Cut,
        PairAt::Got {
            text,
            more,
            bytes: front,
            next: start,
        } => match end_at(s, start) {
            EndAt::Cut => BackAt::Cut,
            EndAt::Got {
                pubmed,
                remark,
                bytes,
                next,
            } => BackAt::Got {
                back: Back {
                    title: text,
                    journal: more,
                    pubmed,
                    remark,
                },
                bytes: front + bytes,
                next,
            },
        },
    }
}

fn joined(front: Front, back: Back) -> ReferenceEntries
    ensures { result ≡ joined_entries front back }
{
    let text = front.text;
    let authors = front.authors;
    let consrtm = front.consrtm;
    let title = back.title;
    let journal = back.journal;
    let pubmed = back.pubmed;
    let remark = back.remark;
    ReferenceEntries {
        text,
        authors,
        consrtm,
        title,
        journal,
        pubmed,
        remark,
    }
}

pub fn reference_at(s: &[u8], at: usize) -> ReferenceAt
    requires { at ≤ length s.now }
    ensures { References s.now at (reference (drop at s.now)) result }
{
    match front_at(s, at) {
        FrontAt::No => ReferenceAt::No,
        FrontAt::Cut => ReferenceAt::Cut,
        FrontAt::Got {
            front,
            bytes: first,
            next: start,
        } => match back_at(s, start) {
            BackAt::No => ReferenceAt::No,
            BackAt::Cut => ReferenceAt::Cut,
            BackAt::Got { back, bytes, next } => ReferenceAt::Got {
                entries: joined(front, back),
                bytes: first + bytes,
                next,
            },
        },
    }
}
