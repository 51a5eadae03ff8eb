// `locus_line` of writer.rs: the whole line of a table in rooms, and number 11's test of the name that it prints.
#![tactic(auto)]

ghost use Rattle.std.specs.Prelude.{◌≡◌, [], ◌≤◌, length};
ghost use Rattle.spec_format.specs.Bytes.{decimal, is};
ghost use Rattle.spec_format.specs.Rooms.{span_text, may_text, may_length, table_of};
ghost use Rattle.spec_format.specs.Write.{padded, name_and_length, length_or, molecule_text};
ghost use Rattle.write_locus_name.specs.Names.{name_test, printed_of};
ghost use Rattle.base_pen.specs.Pen.{Writes};
ghost use Rattle.judge_rooms.specs.Facts.{SpanIn, TextIn, HeadIn};
ghost use Rattle.judge_rooms.specs.Parts.{reference_rooms};
ghost use Rattle.write_locus.specs.Line.{or_untitled, name_with, line_start, line_middle, line_end, line_with};
ghost use Rattle.spec_format.specs.Record.{most};

use base_pen::{put, put_all, put_spaces};
use spec_format::{Date, Head, Span, printed_date};
use write_locus_name::{chosen_name, printed_name_fine, put_printed_name};
use write_locus_parts::{put_date, put_molecule, put_topology};

// The length that is printed: LOCUS's, else the letter count.
fn printed_length(bases: Option<u32>, letters: usize) -> u32
    requires { letters ≤ most }
    ensures { result ≡ length_or (may_length bases) letters }
{
    bases.unwrap_or(letters as u32)
}

// The printed name of a text that is there, and the length.
fn put_span_name(
    out: &mut [u8],
    at: usize,
    texts: &[u8],
    name: Span,
    n: u32,
    truncate: bool,
    escape: bool,
) -> usize
    requires { (length texts.now ≤ most) × SpanIn texts.now name }
    ensures { Writes out.old at (name_and_length (printed_of truncate escape (decimal n) (span_text texts.now name)) (decimal n)) out.new result }
{
    let start = name.start;
    let end = start + name.length;
    put_printed_name(out, at, &texts[start..end], n, truncate, escape)
}

// The printed name and the length.
fn put_name(
    out: &mut [u8],
    at: usize,
    texts: &[u8],
    name: Option<Span>,
    n: u32,
    truncate: bool,
    escape: bool,
) -> usize
    requires { (length texts.now ≤ most) × TextIn texts.now name }
    ensures { Writes out.old at (name_and_length (printed_of truncate escape (decimal n) (or_untitled (may_text texts.now name))) (decimal n)) out.new result }
{
    match name {
        None => put_printed_name(out, at, b"UNTITLED", n, truncate, escape),
        Some(s) => put_span_name(out, at, texts, s, n, truncate, escape),
    }
}

// Number 11's test of the printed name of a text that is there.
fn span_fine(texts: &[u8], name: Span, n: u32, truncate: bool, escape: bool) -> bool
    requires { (length texts.now ≤ most) × SpanIn texts.now name }
    ensures { result ≡ name_test (printed_of truncate escape (decimal n) (span_text texts.now name)) }
{
    let start = name.start;
    let end = start + name.length;
    printed_name_fine(&texts[start..end], n, truncate, escape)
}

// Number 11's test of the printed name of a text.
fn text_fine(texts: &[u8], name: Option<Span>, n: u32, truncate: bool, escape: bool) -> bool
    requires { (length texts.now ≤ most) × TextIn texts.now name }
    ensures { result ≡ name_test (printed_of truncate escape (decimal n) (or_untitled (may_text texts.now name))) }
{
    match name {
        None => printed_name_fine(b"UNTITLED", n, truncate, escape),
        Some(s) => span_fine(texts, s, n, truncate, escape),
    }
}

// Number 11's test of the printed name.
pub fn name_fine(texts: &[u8], head: Head, truncate: bool, escape: bool) -> bool
    requires { HeadIn texts.now head × (length texts.now ≤ most) × (head.letters ≤ most) }
    ensures { result ≡ name_test (name_with truncate escape (length_or (may_length head.length) head.letters) (table_of (reference_rooms texts.now []) head)) }
{
    let name = head.name;
    let accession = head.accession;
    let bases = head.length;
    let n = printed_length(bases, head.letters);
    text_fine(texts, chosen_name(name, accession), n, truncate, escape)
}

// A molecule type that is there.
fn put_span_molecule(
    out: &mut [u8],
    at: usize,
    texts: &[u8],
    molecule: Span,
    truncate: bool,
) -> usize
    requires { SpanIn texts.now molecule }
    ensures { Writes out.old at (padded 7 (molecule_text truncate (is (span_text texts.now molecule)))) out.new result }
{
    let start = molecule.start;
    let end = start + molecule.length;
    put_molecule(out, at, &texts[start..end], truncate)
}

// A molecule type that may be absent, in seven columns.
fn put_molecule_text(
    out: &mut [u8],
    at: usize,
    texts: &[u8],
    molecule: Option<Span>,
    truncate: bool,
) -> usize
    requires { TextIn texts.now molecule }
    ensures { Writes out.old at (padded 7 (molecule_text truncate (may_text texts.now molecule))) out.new result }
{
    match molecule {
        None => put_spaces(out, at, 7),
        Some(s) => put_span_molecule(out, at, texts, s, truncate),
    }
}

// The line up to the molecule type.
fn put_start(
    out: &mut [u8],
    at: usize,
    texts: &[u8],
    head: Head,
    truncate: bool,
    escape: bool,
) -> usize
    requires { HeadIn texts.now head × (length texts.now ≤ most) × (head.letters ≤ most) }
    ensures { Writes out.old at (line_start truncate escape (length_or (may_length head.length) head.letters) (table_of (reference_rooms texts.now []) head)) out.new result }
{
    let name = head.name;
    let accession = head.accession;
    let bases = head.length;
    let n = printed_length(bases, head.letters);
    let a = put_all(out, at, b"LOCUS       ");
    let b = put_name(
        out,
        a,
        texts,
        chosen_name(name, accession),
        n,
        truncate,
        escape,
    );
    put_all(out, b, b" bp    ")
}

// The molecule type and the topology.
fn put_middle(
    out: &mut [u8],
    at: usize,
    texts: &[u8],
    molecule: Option<Span>,
    circular: bool,
    truncate: bool,
) -> usize
    requires { TextIn texts.now molecule }
    ensures { Writes out.old at (line_middle truncate (may_text texts.now molecule) circular) out.new result }
{
    let a = put_molecule_text(out, at, texts, molecule, truncate);
    let b = put(out, a, b' ');
    let c = put_topology(out, b, circular);
    put(out, c, b' ')
}

// The division and the date.
fn put_line_end(
    out: &mut [u8],
    at: usize,
    texts: &[u8],
    division: Span,
    date: Option<Date>,
) -> usize
    requires { SpanIn texts.now division }
    ensures { Writes out.old at (line_end (span_text texts.now division) date) out.new result }
{
    let start = division.start;
    let a = put_all(out, at, &texts[start..start + division.length]);
    let b = put(out, a, b' ');
    let c = put_date(out, b, printed_date(date));
    put(out, c, b'\n')
}

// The whole line.
pub fn put_locus(
    out: &mut [u8],
    at: usize,
    texts: &[u8],
    head: Head,
    truncate: bool,
    escape: bool,
) -> usize
    requires { HeadIn texts.now head × (length texts.now ≤ most) × (head.letters ≤ most) }
    ensures { Writes out.old at (line_with truncate escape (length_or (may_length head.length) head.letters) (table_of (reference_rooms texts.now []) head)) out.new result }
{
    let molecule = head.molecule;
    let division = head.division;
    let date = head.date;
    let a = put_start(out, at, texts, head, truncate, escape);
    let b = put_middle(out, a, texts, molecule, head.circular, truncate);
    put_line_end(out, b, texts, division, date)
}
