// The head of a table as 33 numbers and back, for callers that pass numbers and slices only. specs/Numbers.antt of `spec_contracts` has the layout.
#![tactic(auto)]

ghost use Rattle.std.specs.Prelude.{◌≡◌, [], ◌∷◌, ◌≤◌, get_or};
ghost use Rattle.base_pen.specs.Pen.{Writes};
ghost use Rattle.spec_contracts.specs.Numbers.{above, flag, text_numbers, source_numbers, contig_numbers, length_numbers, date_numbers, locus_numbers, field_numbers, rest_numbers, head_numbers, lower, text_from};
ghost use Rattle.spec_contracts.specs.Numbers.{text_in, span_in, source_from, source_in, contig_from, contig_in, length_from, on_date, date_from, date_in, head_in, outside, head_from};

use base_arith::both;
use base_pen::{put, put_all};
use spec_format::{ContigText, Date, Head, SourceText, Span};

// ---- to numbers

fn plus_one(n: usize) -> usize
    ensures { result ≡ above n }
{
    if n < usize::MAX {
        return n + 1;
    }
    n
}

fn put_text(out: &mut [usize], at: usize, text: Option<Span>) -> usize
    ensures { Writes out.old at (text_numbers text) out.new result }
{
    match text {
        None => put_all(out, at, &[0, 0]),
        Some(span) => put_all(out, at, &[span.start, plus_one(span.length)]),
    }
}

fn put_source(out: &mut [usize], at: usize, source: Option<SourceText>) -> usize
    ensures { Writes out.old at (source_numbers source) out.new result }
{
    match source {
        None => put_all(out, at, &[0, 0, 0, 0]),
        Some(SourceText { text, organism }) => {
            let next = put_all(out, at, &[text.start, plus_one(text.length)]);
            put_text(out, next, organism)
        }
    }
}

fn put_contig(out: &mut [usize], at: usize, contig: Option<ContigText>) -> usize
    ensures { Writes out.old at (contig_numbers contig) out.new result }
{
    match contig {
        None => put_all(out, at, &[0, 0, 0, 0]),
        Some(ContigText { text, row, rows }) => {
            put_all(out, at, &[text.start, plus_one(text.length), row, rows])
        }
    }
}

fn put_length(out: &mut [usize], at: usize, length: Option<u32>) -> usize
    ensures { Writes out.old at (length_numbers length) out.new result }
{
    match length {
        None => put(out, at, 0),
        Some(n) => put(out, at, n as usize + 1),
    }
}

fn put_three(out: &mut [usize], at: usize, a: usize, b: usize, c: usize) -> usize
    ensures { Writes out.old at (a ∷ b ∷ c ∷ []) out.new result }
{
    let next = put_all(out, at, &[a, b]);
    put(out, next, c)
}

fn put_date(out: &mut [usize], at: usize, date: Option<Date>) -> usize
    ensures { Writes out.old at (date_numbers date) out.new result }
{
    match date {
        None => put_three(out, at, 0, 0, 0),
        Some(on) => put_three(
            out,
            at,
            on.day as usize,
            on.month as usize,
            on.year as usize,
        ),
    }
}

fn flag_of(b: bool) -> usize
    ensures { result ≡ flag b }
{
    if b { 1 } else { 0 }
}

// Name, length, molecule type, topology, division, date.
fn put_locus(out: &mut [usize], at: usize, head: Head) -> usize
    ensures { Writes out.old at (locus_numbers head) out.new result }
{
    let name = head.name;
    let length = head.length;
    let molecule = head.molecule;
    let division = head.division;
    let date = head.date;
    let a = put_text(out, at, name);
    let b = put_length(out, a, length);
    let c = put_text(out, b, molecule);
    let d = put(out, c, flag_of(head.circular));
    let e = put_all(out, d, &[division.start, division.length]);
    put_date(out, e, date)
}

// The single texts of the header.
fn put_fields(out: &mut [usize], at: usize, head: Head) -> usize
    ensures { Writes out.old at (field_numbers head) out.new result }
{
    let definition = head.definition;
    let accession = head.accession;
    let version = head.version;
    let dblink = head.dblink;
    let keywords = head.keywords;
    let source = head.source;
    let a = put_text(out, at, definition);
    let b = put_text(out, a, accession);
    let c = put_text(out, b, version);
    let d = put_text(out, c, dblink);
    let e = put_text(out, d, keywords);
    put_source(out, e, source)
}

// How many rows and letters, and CONTIG.
fn put_rest(out: &mut [usize], at: usize, head: Head) -> usize
    ensures { Writes out.old at (rest_numbers head) out.new result }
{
    let contig = head.contig;
    let a = put_all(out, at, &[head.references, head.comments]);
    let b = put(out, a, head.features);
    let c = put_contig(out, b, contig);
    put(out, c, head.letters)
}

fn put_head(out: &mut [usize], at: usize, head: Head) -> usize
    ensures { Writes out.old at (head_numbers head) out.new result }
{
    let a = put_locus(out, at, head);
    let b = put_fields(out, a, head);
    put_rest(out, b, head)
}

// The numbers of a head.
pub fn head_numbers(head: Head) -> [usize; 33]
    ensures { result ≡ head_numbers head }
{
    let mut numbers = [0usize; 33];
    put_head(&mut numbers, 0, head);
    numbers
}

// ---- from numbers

// The number at a place; 0 past the end.
fn number_at(ns: &[usize], i: usize) -> usize
    ensures { result ≡ get_or ns.now i 0 }
{
    if i < ns.len() {
        return ns[i];
    }
    0
}

fn text_from(start: usize, above: usize) -> Option<Span>
    ensures { result ≡ text_from start above }
{
    if above == 0 {
        return None;
    }
    Some(Span {
        start: start,
        length: above - 1,
    })
}

fn text_at(ns: &[usize], i: usize) -> Option<Span>
    requires { i ≤ 30 }
    ensures { result ≡ text_in ns.now i }
{
    text_from(number_at(ns, i), number_at(ns, i + 1))
}

fn source_from(start: usize, above: usize, organism: Option<Span>) -> Option<SourceText>
    ensures { result ≡ source_from start above organism }
{
    if above == 0 {
        return None;
    }
    Some(SourceText {
        text: Span {
            start: start,
            length: above - 1,
        },
        organism: organism,
    })
}

fn contig_from(start: usize, above: usize, row: usize, rows: usize) -> Option<ContigText>
    ensures { result ≡ contig_from start above row rows }
{
    if above == 0 {
        return None;
    }
    Some(ContigText {
        text: Span {
            start: start,
            length: above - 1,
        },
        row: row,
        rows: rows,
    })
}

fn length_from(above: usize) -> Option<u32>
    requires { above ≤ 4294967296 }
    ensures { result ≡ length_from above }
{
    if above == 0 {
        return None;
    }
    Some((above - 1) as u32)
}

fn lower_byte(n: usize) -> u8
    ensures { result ≡ lower 255 n }
{
    if 255 < n {
        return 255;
    }
    n as u8
}

fn lower_pair(n: usize) -> u16
    ensures { result ≡ lower 65535 n }
{
    if 65535 < n {
        return 65535;
    }
    n as u16
}

fn date_on(day: usize, month: usize, year: usize) -> Option<Date>
    ensures { result ≡ on_date day month year }
{
    Some(Date {
        day: lower_byte(day),
        month: lower_byte(month),
        year: lower_pair(year),
    })
}

fn date_from(day: usize, month: usize, year: usize) -> Option<Date>
    ensures { result ≡ date_from day month year }
{
    if both(day == 0, both(month == 0, year == 0)) {
        return None;
    }
    date_on(day, month, year)
}

fn span_at(ns: &[usize], i: usize) -> Span
    requires { i ≤ 30 }
    ensures { result ≡ span_in ns.now i }
{
    Span {
        start: number_at(ns, i),
        length: number_at(ns, i + 1),
    }
}

fn date_at(ns: &[usize], i: usize) -> Option<Date>
    requires { i ≤ 30 }
    ensures { result ≡ date_in ns.now i }
{
    date_from(number_at(ns, i), number_at(ns, i + 1), number_at(ns, i + 2))
}

fn source_at(ns: &[usize], i: usize) -> Option<SourceText>
    requires { i ≤ 28 }
    ensures { result ≡ source_in ns.now i }
{
    source_from(number_at(ns, i), number_at(ns, i + 1), text_at(ns, i + 2))
}

fn contig_at(ns: &[usize], i: usize) -> Option<ContigText>
    requires { i ≤ 28 }
    ensures { result ≡ contig_in ns.now i }
{
    contig_from(
        number_at(ns, i),
        number_at(ns, i + 1),
        number_at(ns, i + 2),
        number_at(ns, i + 3),
    )
}

// The head of 33 numbers.
fn head_in(ns: &[usize], length: Option<u32>) -> Head
    requires { length ≡ length_from (get_or ns.now 2 0) }
    ensures { result ≡ head_in ns.now }
{
    Head {
        name: text_at(ns, 0),
        length: length,
        molecule: text_at(ns, 3),
        circular: number_at(ns, 5) != 0,
        division: span_at(ns, 6),
        date: date_at(ns, 8),
        definition: text_at(ns, 11),
        accession: text_at(ns, 13),
        version: text_at(ns, 15),
        dblink: text_at(ns, 17),
        keywords: text_at(ns, 19),
        source: source_at(ns, 21),
        references: number_at(ns, 25),
        comments: number_at(ns, 26),
        features: number_at(ns, 27),
        contig: contig_at(ns, 28),
        letters: number_at(ns, 32),
    }
}

fn no_head() -> Head
    ensures { result ≡ outside }
{
    Head {
        name: None,
        length: None,
        molecule: None,
        circular: false,
        division: Span {
            start: usize::MAX,
            length: 0,
        },
        date: None,
        definition: None,
        accession: None,
        version: None,
        dblink: None,
        keywords: None,
        source: None,
        references: 0,
        comments: 0,
        features: 0,
        contig: None,
        letters: 0,
    }
}

// The head that numbers stand for. Where they stand for none it is one that lies outside every room, so that a writer answers 12 or 10.
pub fn head_from(ns: &[usize]) -> Head
    ensures { result ≡ head_from ns.now }
{
    if ns.len() < 33 {
        return no_head();
    }
    if 4294967296 < ns[2] {
        return no_head();
    }
    head_in(ns, length_from(ns[2]))
}
