// `field` of field.rs: one field of the header, tried word by word in the Rust's order, or a line that is dropped.
#![tactic(auto)]

ghost use Rattle.std.specs.Prelude.{◌≤◌, length, drop};
ghost use Rattle.spec_format.specs.Header.{header_field};
ghost use Rattle.read_field_any.specs.Fields.{FieldRead};
ghost use Rattle.read_field_any.specs.Tries.{from_comment, from_source, from_dblink, from_accession};

use read_field_entry::{Entry, EntryAt};
use read_field_optional::{MayEntry, SourceAt};
use read_field_reference::{ReferenceAt, ReferenceEntries};
use scan_bytes::Line;

#[derive(Clone, Copy)]
pub enum Field {
    Definition(Entry),
    Accession(Entry),
    Version(Entry),
    Dblink(Entry),
    Keywords(Entry),
    Source {
        text: Entry,
        organism: MayEntry,
    },
    Reference {
        entries: ReferenceEntries,
        bytes: usize,
    },
    Comment(Entry),
    Dropped,
}

#[derive(Clone, Copy)]
pub enum FieldAt {
    Got { field: Field, next: usize },
    No,
    Cut,
}

// COMMENT, or a line that is dropped.
fn from_comment(s: &[u8], at: usize) -> FieldAt
    requires { at ≤ length s.now }
    ensures { FieldRead s.now at (from_comment (drop at s.now)) result }
{
    match read_field_entry::field_at(s, at, 0, b"COMMENT", true) {
        EntryAt::Cut => FieldAt::Cut,
        EntryAt::Got(entry) => FieldAt::Got {
            field: Field::Comment(entry),
            next: entry.next,
        },
        EntryAt::No => match read_field_optional::dropped_at(s, at) {
            Line::No => FieldAt::No,
            Line::Cut => FieldAt::Cut,
            Line::Got { end: _, next } => FieldAt::Got {
                field: Field::Dropped,
                next,
            },
        },
    }
}

// SOURCE, REFERENCE, and the fields tried after them.
fn from_source(s: &[u8], at: usize) -> FieldAt
    requires { at ≤ length s.now }
    ensures { FieldRead s.now at (from_source (drop at s.now)) result }
{
    match read_field_optional::source_at(s, at) {
        SourceAt::Cut => FieldAt::Cut,
        SourceAt::Got {
            text,
            organism,
            next,
        } => FieldAt::Got {
            field: Field::Source { text, organism },
            next,
        },
        SourceAt::No => match read_field_reference::reference_at(s, at) {
            ReferenceAt::Cut => FieldAt::Cut,
            ReferenceAt::Got {
                entries,
                bytes,
                next,
            } => FieldAt::Got {
                field: Field::Reference { entries, bytes },
                next,
            },
            ReferenceAt::No => from_comment(s, at),
        },
    }
}

// DBLINK, KEYWORDS, and the fields tried after them.
fn from_dblink(s: &[u8], at: usize) -> FieldAt
    requires { at ≤ length s.now }
    ensures { FieldRead s.now at (from_dblink (drop at s.now)) result }
{
    match read_field_entry::field_at(s, at, 0, b"DBLINK", true) {
        EntryAt::Cut => FieldAt::Cut,
        EntryAt::Got(entry) => FieldAt::Got {
            field: Field::Dblink(entry),
            next: entry.next,
        },
        EntryAt::No => match read_field_entry::field_at(s, at, 0, b"KEYWORDS", true) {
            EntryAt::Cut => FieldAt::Cut,
            EntryAt::Got(entry) => FieldAt::Got {
                field: Field::Keywords(entry),
                next: entry.next,
            },
            EntryAt::No => from_source(s, at),
        },
    }
}

// ACCESSION, VERSION, and the fields tried after them.
fn from_accession(s: &[u8], at: usize) -> FieldAt
    requires { at ≤ length s.now }
    ensures { FieldRead s.now at (from_accession (drop at s.now)) result }
{
    match read_field_entry::field_at(s, at, 0, b"ACCESSION", true) {
        EntryAt::Cut => FieldAt::Cut,
        EntryAt::Got(entry) => FieldAt::Got {
            field: Field::Accession(entry),
            next: entry.next,
        },
        EntryAt::No => match read_field_entry::field_at(s, at, 0, b"VERSION", true) {
            EntryAt::Cut => FieldAt::Cut,
            EntryAt::Got(entry) => FieldAt::Got {
                field: Field::Version(entry),
                next: entry.next,
            },
            EntryAt::No => from_dblink(s, at),
        },
    }
}

pub fn header_field_at(s: &[u8], at: usize) -> FieldAt
    requires { at ≤ length s.now }
    ensures { FieldRead s.now at (header_field (drop at s.now)) result }
{
    match read_field_entry::field_at(s, at, 0, b"DEFINITION", true) {
        EntryAt::Cut => FieldAt::Cut,
        EntryAt::Got(entry) => FieldAt::Got {
            field: Field::Definition(entry),
            next: entry.next,
        },
        EntryAt::No => from_accession(s, at),
    }
}
