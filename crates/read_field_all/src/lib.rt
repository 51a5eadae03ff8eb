// The header's loop (`fields` and `fill_seq_fields` of field.rs): where each entry stands that counts, and how many references and comments there are.
#![tactic(auto)]

ghost use Rattle.std.specs.Prelude.{◌≡◌, ◌+◌, ◌≤◌, length, drop};
ghost use Rattle.read_field_all.specs.Notes.{chosen, entry_in, later, later_source, twice_by, reference_amount, entry_amount, unseen, noting, Fitting};
ghost use Rattle.read_field_all.specs.Gathered.{fields_at, Gathered};

use read_field_any::{Field, FieldAt};
use read_field_entry::Entry;
use read_field_optional::MayEntry;

#[derive(Clone, Copy)]
pub enum MaySource {
    Absent,
    Is { text: Entry, organism: MayEntry },
}

// `twice`: a second DEFINITION was seen. `references` and `comments` are counts, with the bytes of their texts. `next` is the place after the header.
#[derive(Clone, Copy)]
pub struct Header {
    pub definition: MayEntry,
    pub accession: MayEntry,
    pub version: MayEntry,
    pub dblink: MayEntry,
    pub keywords: MayEntry,
    pub source: MaySource,
    pub twice: bool,
    pub references: usize,
    pub reference_bytes: usize,
    pub comments: usize,
    pub comment_bytes: usize,
    pub next: usize,
}

// How many, and of how many bytes.
#[derive(Clone, Copy)]
struct Amount {
    count: usize,
    bytes: usize,
}

// The words of entries by number.
const DEFINITION: usize = 0;

const ACCESSION: usize = 1;

const VERSION: usize = 2;

const DBLINK: usize = 3;

const KEYWORDS: usize = 4;

const COMMENT: usize = 5;

// ---- what a field adds

fn only_if(yes: bool, e: Entry) -> MayEntry
    ensures { result ≡ chosen yes e }
{
    if yes {
        MayEntry::Is(e)
    } else {
        MayEntry::Absent
    }
}

// The entry, if its word has this number.
fn entry_in(field: Field, word: usize) -> MayEntry
    ensures { result ≡ entry_in word field }
{
    match field {
        Field::Definition(e) => only_if(word == DEFINITION, e),
        Field::Accession(e) => only_if(word == ACCESSION, e),
        Field::Version(e) => only_if(word == VERSION, e),
        Field::Dblink(e) => only_if(word == DBLINK, e),
        Field::Keywords(e) => only_if(word == KEYWORDS, e),
        Field::Comment(e) => only_if(word == COMMENT, e),
        Field::Source {
            text: _,
            organism: _,
        } => MayEntry::Absent,
        Field::Reference {
            entries: _,
            bytes: _,
        } => MayEntry::Absent,
        Field::Dropped => MayEntry::Absent,
    }
}

// The entry that counts: the later one.
fn later_in(old: MayEntry, field: Field, word: usize) -> MayEntry
    ensures { result ≡ later old (entry_in word field) }
{
    match entry_in(field, word) {
        MayEntry::Absent => old,
        MayEntry::Is(e) => MayEntry::Is(e),
    }
}

fn later_source(old: MaySource, field: Field) -> MaySource
    ensures { result ≡ later_source old field }
{
    match field {
        Field::Source { text, organism } => MaySource::Is { text, organism },
        Field::Definition(_) => old,
        Field::Accession(_) => old,
        Field::Version(_) => old,
        Field::Dblink(_) => old,
        Field::Keywords(_) => old,
        Field::Reference {
            entries: _,
            bytes: _,
        } => old,
        Field::Comment(_) => old,
        Field::Dropped => old,
    }
}

// A second DEFINITION was seen, this one or one before.
fn twice_by(twice: bool, old: MayEntry, new: MayEntry) -> bool
    ensures { result ≡ twice_by twice old new }
{
    match new {
        MayEntry::Absent => twice,
        MayEntry::Is(_) => match old {
            MayEntry::Absent => false,
            MayEntry::Is(_) => true,
        },
    }
}

fn entry_amount(e: MayEntry) -> Amount
    ensures { result ≡ entry_amount e }
{
    match e {
        MayEntry::Absent => Amount { count: 0, bytes: 0 },
        MayEntry::Is(e) => Amount {
            count: 1,
            bytes: e.length,
        },
    }
}

fn reference_amount(field: Field) -> Amount
    ensures { result ≡ reference_amount field }
{
    match field {
        Field::Reference { entries: _, bytes } => Amount { count: 1, bytes },
        Field::Definition(_) => Amount { count: 0, bytes: 0 },
        Field::Accession(_) => Amount { count: 0, bytes: 0 },
        Field::Version(_) => Amount { count: 0, bytes: 0 },
        Field::Dblink(_) => Amount { count: 0, bytes: 0 },
        Field::Keywords(_) => Amount { count: 0, bytes: 0 },
        Field::Source {
            text: _,
            organism: _,
        } => Amount { count: 0, bytes: 0 },
        Field::Comment(_) => Amount { count: 0, bytes: 0 },
        Field::Dropped => Amount { count: 0, bytes: 0 },
    }
}

pub fn definition_in(field: Field) -> MayEntry
    ensures { result ≡ entry_in 0 field }
{
    entry_in(field, DEFINITION)
}

pub fn comment_in(field: Field) -> MayEntry
    ensures { result ≡ entry_in 5 field }
{
    entry_in(field, COMMENT)
}

// ---- the header

fn nothing_seen(at: usize) -> Header
    ensures { result ≡ unseen at }
{
    Header {
        definition: MayEntry::Absent,
        accession: MayEntry::Absent,
        version: MayEntry::Absent,
        dblink: MayEntry::Absent,
        keywords: MayEntry::Absent,
        source: MaySource::Absent,
        twice: false,
        references: 0,
        reference_bytes: 0,
        comments: 0,
        comment_bytes: 0,
        next: at,
    }
}

// The header with one more field, which ends before `next`.
fn noted(h: Header, field: Field, next: usize) -> Header
    requires { Fitting h field }
    ensures { result ≡ noting h field next }
{
    let first = h.definition;
    let twice = twice_by(h.twice, first, entry_in(field, DEFINITION));
    let definition = later_in(first, field, DEFINITION);
    let old_accession = h.accession;
    let accession = later_in(old_accession, field, ACCESSION);
    let old_version = h.version;
    let version = later_in(old_version, field, VERSION);
    let old_dblink = h.dblink;
    let dblink = later_in(old_dblink, field, DBLINK);
    let old_keywords = h.keywords;
    let keywords = later_in(old_keywords, field, KEYWORDS);
    let old_source = h.source;
    let source = later_source(old_source, field);
    let reference = reference_amount(field);
    let comment = entry_amount(comment_in(field));
    Header {
        definition,
        accession,
        version,
        dblink,
        keywords,
        source,
        twice,
        references: h.references + reference.count,
        reference_bytes: h.reference_bytes + reference.bytes,
        comments: h.comments + comment.count,
        comment_bytes: h.comment_bytes + comment.bytes,
        next,
    }
}

pub fn header_at(s: &[u8], at: usize) -> Header
    requires { at ≤ length s.now }
    ensures { Gathered s.now at (fields_at (drop at s.now)) result }
{
    let mut seen = nothing_seen(at);
    loop {
        let i = seen.next;
        match read_field_any::header_field_at(s, i) {
            FieldAt::No => return seen,
            FieldAt::Cut => return seen,
            FieldAt::Got { field, next } => {
                seen = noted(seen, field, next);
            }
        }
    }
}
