// The head of a table: LOCUS texts and the single texts of the header, put into the store; how many bytes they take; and where each lies.
#![tactic(auto)]

ghost use Rattle.std.specs.Prelude.{◌≡◌, ◌+◌, ◌<◌, ◌^◌, ◌++◌, length};
ghost use Rattle.read_locus_tokens.specs.Parts.{spanned, Ends};
ghost use Rattle.read_locus.specs.Plans.{TextEnds, PlanEnds};
ghost use Rattle.base_pen.specs.Pen.{Wrote, Writes};
ghost use Rattle.read_record_head.specs.Texts.{entry_text, may_text, source_text, text_of, locus_text, header_text, head_text, EntryGets, MayGets, SourceGets, HeaderGets, HeadGets};
ghost use Rattle.read_record_head.specs.Places.{text_length, text_from, locus_bytes, header_bytes, source_bytes, head_bytes, known_head, locus_head, entry_at, header_texts, source_at, head_in};

use read_field_all::{Header, MaySource};
use read_field_entry::Entry;
use read_field_optional::MayEntry;
use read_locus::LocusPlan;
use spec_format::{ContigText, Date, Head, SourceText, Span};

// ---- the texts

fn put_span(s: &[u8], x: Span, texts: &mut [u8], place: usize) -> usize
    requires { Ends (length s.now) x }
    ensures { Writes texts.old place (spanned s.now x) texts.new result }
{
    let from = x.start;
    base_pen::put_all(texts, place, &s[from..from + x.length])
}

fn put_text(s: &[u8], x: Option<Span>, texts: &mut [u8], place: usize) -> usize
    requires { TextEnds (length s.now) x }
    ensures { Writes texts.old place (text_of s.now x) texts.new result }
{
    match x {
        None => place,
        Some(span) => put_span(s, span, texts, place),
    }
}

fn put_three(
    s: &[u8],
    name: Span,
    molecule: Option<Span>,
    division: Span,
    texts: &mut [u8],
    place: usize,
) -> usize
    requires { Ends (length s.now) name × (TextEnds (length s.now) molecule × Ends (length s.now) division) }
    ensures { Writes texts.old place (spanned s.now name ++ text_of s.now molecule ++ spanned s.now division) texts.new result }
{
    let a = put_span(s, name, texts, place);
    let b = put_text(s, molecule, texts, a);
    put_span(s, division, texts, b)
}

// Name, molecule type and division; a LOCUS line that was not understood has the division UNK alone.
fn put_locus(s: &[u8], locus: LocusPlan, texts: &mut [u8], place: usize) -> usize
    requires { PlanEnds (length s.now) locus }
    ensures { Writes texts.old place (locus_text s.now locus) texts.new result }
{
    match locus {
        LocusPlan::Unknown => base_pen::put_all(texts, place, b"UNK"),
        LocusPlan::Known {
            name,
            length: _,
            molecule,
            circular: _,
            division,
            date: _,
        } => put_three(s, name, molecule, division, texts, place),
    }
}

fn put_one(s: &[u8], e: Entry, texts: &mut [u8], place: usize) -> usize
    requires { EntryGets s.now e }
    ensures { Writes texts.old place (entry_text s.now e) texts.new result }
{
    read_field_text::put_entry(s, e.text, e.columns, true, texts, place)
}

fn put_may(s: &[u8], e: MayEntry, texts: &mut [u8], place: usize) -> usize
    requires { MayGets s.now e }
    ensures { Writes texts.old place (may_text s.now e) texts.new result }
{
    match e {
        MayEntry::Absent => place,
        MayEntry::Is(entry) => put_one(s, entry, texts, place),
    }
}

fn put_header(s: &[u8], h: Header, texts: &mut [u8], place: usize) -> usize
    requires { HeaderGets s.now h }
    ensures { Writes texts.old place (header_text s.now h) texts.new result }
{
    let definition = h.definition;
    let accession = h.accession;
    let version = h.version;
    let dblink = h.dblink;
    let keywords = h.keywords;
    let a = put_may(s, definition, texts, place);
    let b = put_may(s, accession, texts, a);
    let c = put_may(s, version, texts, b);
    let d = put_may(s, dblink, texts, c);
    put_may(s, keywords, texts, d)
}

fn put_source(s: &[u8], x: MaySource, texts: &mut [u8], place: usize) -> usize
    requires { SourceGets s.now x }
    ensures { Writes texts.old place (source_text s.now x) texts.new result }
{
    match x {
        MaySource::Absent => place,
        MaySource::Is { text, organism } => {
            let a = put_one(s, text, texts, place);
            put_may(s, organism, texts, a)
        }
    }
}

// The texts of the head, from the store's first byte on.
pub fn put_head(s: &[u8], locus: LocusPlan, header: Header, texts: &mut [u8]) -> usize
    requires { HeadGets s.now locus header × (length (head_text s.now locus header) < 2 ^ 64) }
    ensures { Wrote texts.old 0 (head_text s.now locus header) texts.new result }
{
    let source = header.source;
    let a = put_locus(s, locus, texts, 0);
    let b = put_header(s, header, texts, a);
    put_source(s, source, texts, b)
}

// ---- how many bytes they take, and where each lies

// Where the LOCUS texts lie, with the other values; `next` is the place after the texts.
#[derive(Clone, Copy)]
struct LocusHead {
    name: Option<Span>,
    length: Option<u32>,
    molecule: Option<Span>,
    circular: bool,
    division: Span,
    date: Option<Date>,
    next: usize,
}

#[derive(Clone, Copy)]
struct HeaderTexts {
    definition: Option<Span>,
    accession: Option<Span>,
    version: Option<Span>,
    dblink: Option<Span>,
    keywords: Option<Span>,
    next: usize,
}

fn text_length(x: Option<Span>) -> usize
    ensures { result ≡ text_length x }
{
    match x {
        None => 0,
        Some(span) => span.length,
    }
}

fn text_from(place: usize, x: Option<Span>) -> Option<Span>
    ensures { result ≡ text_from place x }
{
    match x {
        None => None,
        Some(span) => Some(Span {
            start: place,
            length: span.length,
        }),
    }
}

fn known_head(
    name: Span,
    length: u32,
    molecule: Option<Span>,
    circular: bool,
    division: Span,
    date: Date,
) -> LocusHead
    requires { name.length + text_length molecule + division.length < 2 ^ 64 }
    ensures { result ≡ known_head name length molecule circular division date }
{
    let a = name.length;
    let b = a + text_length(molecule);
    LocusHead {
        name: Some(Span {
            start: 0,
            length: a,
        }),
        length: Some(length),
        molecule: text_from(a, molecule),
        circular,
        division: Span {
            start: b,
            length: division.length,
        },
        date: Some(date),
        next: b + division.length,
    }
}

fn locus_head(locus: LocusPlan) -> LocusHead
    requires { locus_bytes locus < 2 ^ 64 }
    ensures { result ≡ locus_head locus }
{
    match locus {
        LocusPlan::Unknown => LocusHead {
            name: None,
            length: None,
            molecule: None,
            circular: false,
            division: Span {
                start: 0,
                length: 3,
            },
            date: None,
            next: 3,
        },
        LocusPlan::Known {
            name,
            length,
            molecule,
            circular,
            division,
            date,
        } => known_head(name, length, molecule, circular, division, date),
    }
}

fn entry_at(place: usize, e: MayEntry) -> Option<Span>
    ensures { result ≡ entry_at place e }
{
    match e {
        MayEntry::Absent => None,
        MayEntry::Is(entry) => Some(Span {
            start: place,
            length: entry.length,
        }),
    }
}

fn header_texts(h: Header, place: usize) -> HeaderTexts
    requires { place + header_bytes h < 2 ^ 64 }
    ensures { result ≡ header_texts place h }
{
    let definition = h.definition;
    let accession = h.accession;
    let version = h.version;
    let dblink = h.dblink;
    let keywords = h.keywords;
    let a = place + read_field_optional::may_length(definition);
    let b = a + read_field_optional::may_length(accession);
    let c = b + read_field_optional::may_length(version);
    let d = c + read_field_optional::may_length(dblink);
    HeaderTexts {
        definition: entry_at(place, definition),
        accession: entry_at(a, accession),
        version: entry_at(b, version),
        dblink: entry_at(c, dblink),
        keywords: entry_at(d, keywords),
        next: d + read_field_optional::may_length(keywords),
    }
}

fn source_at(place: usize, x: MaySource) -> Option<SourceText>
    requires { place + source_bytes x < 2 ^ 64 }
    ensures { result ≡ source_at place x }
{
    match x {
        MaySource::Absent => None,
        MaySource::Is { text, organism } => Some(SourceText {
            text: Span {
                start: place,
                length: text.length,
            },
            organism: entry_at(place + text.length, organism),
        }),
    }
}

fn source_length(x: MaySource) -> usize
    requires { source_bytes x < 2 ^ 64 }
    ensures { result ≡ source_bytes x }
{
    match x {
        MaySource::Absent => 0,
        MaySource::Is { text, organism } => text.length + read_field_optional::may_length(organism),
    }
}

// How many bytes the texts of the head take.
pub fn head_bytes(locus: LocusPlan, header: Header) -> usize
    requires { head_bytes locus header < 2 ^ 64 }
    ensures { result ≡ head_bytes locus header }
{
    let source = header.source;
    let l = locus_head(locus);
    let t = header_texts(header, l.next);
    t.next + source_length(source)
}

// The head: where the texts that `put_head` puts lie, and the counts. CONTIG is put later.
pub fn head_of(
    locus: LocusPlan,
    header: Header,
    features: usize,
    contig: Option<ContigText>,
    letters: usize,
) -> Head
    requires { head_bytes locus header < 2 ^ 64 }
    ensures { result ≡ head_in locus header features contig letters }
{
    let x = header.source;
    let l = locus_head(locus);
    let t = header_texts(header, l.next);
    let source = source_at(t.next, x);
    let name = l.name;
    let length = l.length;
    let molecule = l.molecule;
    let division = l.division;
    let date = l.date;
    let definition = t.definition;
    let accession = t.accession;
    let version = t.version;
    let dblink = t.dblink;
    let keywords = t.keywords;
    Head {
        name,
        length,
        molecule,
        circular: l.circular,
        division,
        date,
        definition,
        accession,
        version,
        dblink,
        keywords,
        source,
        references: header.references,
        comments: header.comments,
        features,
        contig,
        letters,
    }
}
