// The header's lines of writer.rs, of a table in rooms: single texts, SOURCE, references, comments.
#![tactic(auto)]

ghost use Rattle.std.specs.Prelude.{[], ◌+◌, ◌≤◌, ◌<◌, length};
ghost use Rattle.spec_format.specs.Bytes.{bytes, each};
ghost use Rattle.spec_format.specs.Rooms.{cut, may_text, may_source, text_in, perhaps_in, rows_from, reference_in, comment_in, table_of, rooms_in};
ghost use Rattle.spec_format.specs.Write.{field_lines, maybe_lines, source_lines, reference_lines, header_lines};
ghost use Rattle.base_pen.specs.Pen.{Writes};
ghost use Rattle.judge_rooms.specs.Parts.{reference_rooms, comment_rooms};
ghost use Rattle.judge_rooms.specs.Facts.{TextIn, SourceIn, ReferenceIn};
ghost use Rattle.judge_header.specs.Rules.{Known, RowKnown, PerhapsKnown, ReferencesKnown, CommentsKnown, HeaderKnown};
ghost use Rattle.write_header.specs.Header.{FirstKnown, first_texts, reference_start};
ghost use Rattle.spec_format.specs.Record.{most};

use spec_format::{Head, SourceText, Span};
use write_field::put_field;

// A text of the store, after its word.
fn put_span(
    out: &mut [u8],
    at: usize,
    word: &[u8],
    texts: &[u8],
    start: usize,
    n: usize,
    width: usize,
) -> usize
    requires { (length word.now ≤ 12) × Known texts.now start n × (60 ≤ width) × (width ≤ 132) }
    ensures { Writes out.old at (field_lines width word.now (cut texts.now start n)) out.new result }
{
    let end = start + n;
    put_field(out, at, word, &texts[start..end], width)
}

// `write_field_maybe`: nothing where the text is absent.
fn put_maybe(
    out: &mut [u8],
    at: usize,
    word: &[u8],
    texts: &[u8],
    text: Option<Span>,
    width: usize,
) -> usize
    requires { (length word.now ≤ 12) × (length texts.now ≤ most) × TextIn texts.now text × (60 ≤ width) × (width ≤ 132) }
    ensures { Writes out.old at (maybe_lines width word.now (may_text texts.now text)) out.new result }
{
    match text {
        None => at,
        Some(s) => put_span(out, at, word, texts, s.start, s.length, width),
    }
}

fn put_source(
    out: &mut [u8],
    at: usize,
    texts: &[u8],
    source: Option<SourceText>,
    width: usize,
) -> usize
    requires { (length texts.now ≤ most) × SourceIn texts.now source × (60 ≤ width) × (width ≤ 132) }
    ensures { Writes out.old at (source_lines width (may_source texts.now source)) out.new result }
{
    match source {
        None => at,
        Some(SourceText { text, organism }) => {
            let a = put_span(out, at, b"SOURCE", texts, text.start, text.length, width);
            put_maybe(out, a, b"  ORGANISM", texts, organism, width)
        }
    }
}

// The text whose start and length stand in a row.
fn put_row_text(
    out: &mut [u8],
    at: usize,
    word: &[u8],
    texts: &[u8],
    rows: &[usize],
    place: usize,
    width: usize,
) -> usize
    requires { (length word.now ≤ 12) × RowKnown texts.now rows.now place × (60 ≤ width) × (width ≤ 132) }
    ensures { Writes out.old at (field_lines width word.now (text_in texts.now rows.now place)) out.new result }
{
    put_span(out, at, word, texts, rows[place], rows[place + 1], width)
}

// The same of one that may be absent: it has its length plus one.
fn put_row_text_maybe(
    out: &mut [u8],
    at: usize,
    word: &[u8],
    texts: &[u8],
    rows: &[usize],
    place: usize,
    width: usize,
) -> usize
    requires { (length word.now ≤ 12) × PerhapsKnown texts.now rows.now place × (60 ≤ width) × (width ≤ 132) }
    ensures { Writes out.old at (maybe_lines width word.now (perhaps_in texts.now rows.now place)) out.new result }
{
    let n = rows[place + 1];
    if n == 0 {
        return at;
    }
    put_span(out, at, word, texts, rows[place], n - 1, width)
}

// The texts of a reference before its title.
fn put_reference_start(
    out: &mut [u8],
    at: usize,
    texts: &[u8],
    references: &[usize],
    place: usize,
    width: usize,
) -> usize
    requires { (length texts.now ≤ most) × (place + 13 < length references.now) × ReferenceIn texts.now references.now place × (60 ≤ width) × (width ≤ 132) }
    ensures { Writes out.old at (reference_start width (reference_in (reference_rooms texts.now references.now) place)) out.new result }
{
    let a = put_row_text(out, at, b"REFERENCE", texts, references, place, width);
    let b = put_row_text_maybe(out, a, b"  AUTHORS", texts, references, place + 2, width);
    put_row_text_maybe(out, b, b"  CONSRTM", texts, references, place + 4, width)
}

fn put_reference(
    out: &mut [u8],
    at: usize,
    texts: &[u8],
    references: &[usize],
    place: usize,
    width: usize,
) -> usize
    requires { (length texts.now ≤ most) × (place + 13 < length references.now) × ReferenceIn texts.now references.now place × (60 ≤ width) × (width ≤ 132) }
    ensures { Writes out.old at (reference_lines width (reference_in (reference_rooms texts.now references.now) place)) out.new result }
{
    let a = put_reference_start(out, at, texts, references, place, width);
    let b = put_row_text(out, a, b"  TITLE", texts, references, place + 6, width);
    let d = put_row_text_maybe(out, b, b"  JOURNAL", texts, references, place + 8, width);
    let e = put_row_text_maybe(out, d, b"   PUBMED", texts, references, place + 10, width);
    put_row_text_maybe(out, e, b"  REMARK", texts, references, place + 12, width)
}

fn put_references(
    out: &mut [u8],
    at: usize,
    texts: &[u8],
    references: &[usize],
    n: usize,
    width: usize,
) -> usize
    requires { ReferencesKnown texts.now references.now n × (60 ≤ width) × (width ≤ 132) }
    ensures { Writes out.old at (each (reference_lines width) (rows_from (reference_in (reference_rooms texts.now references.now)) 14 0 n)) out.new result }
{
    let mut p = at;
    let mut i = 0;
    while i < n {
        p = put_reference(out, p, texts, references, 14 * i, width);
        i += 1;
    }
    p
}

fn put_comments(
    out: &mut [u8],
    at: usize,
    texts: &[u8],
    comments: &[usize],
    n: usize,
    width: usize,
) -> usize
    requires { CommentsKnown texts.now comments.now n × (60 ≤ width) × (width ≤ 132) }
    ensures { Writes out.old at (each (field_lines width (bytes "COMMENT")) (rows_from (comment_in (comment_rooms texts.now comments.now)) 2 0 n)) out.new result }
{
    let mut p = at;
    let mut i = 0;
    while i < n {
        p = put_row_text(out, p, b"COMMENT", texts, comments, 2 * i, width);
        i += 1;
    }
    p
}

// The texts that stand before SOURCE.
fn put_first_texts(out: &mut [u8], at: usize, texts: &[u8], head: Head, width: usize) -> usize
    requires { FirstKnown texts.now head × (60 ≤ width) × (width ≤ 132) }
    ensures { Writes out.old at (first_texts width (table_of (reference_rooms texts.now []) head)) out.new result }
{
    let definition = head.definition;
    let accession = head.accession;
    let version = head.version;
    let dblink = head.dblink;
    let keywords = head.keywords;
    let a = put_maybe(out, at, b"DEFINITION", texts, definition, width);
    let b = put_maybe(out, a, b"ACCESSION", texts, accession, width);
    let d = put_maybe(out, b, b"VERSION", texts, version, width);
    let e = put_maybe(out, d, b"DBLINK", texts, dblink, width);
    put_maybe(out, e, b"KEYWORDS", texts, keywords, width)
}

// All lines of the header.
pub fn put_header(
    out: &mut [u8],
    at: usize,
    texts: &[u8],
    references: &[usize],
    comments: &[usize],
    head: Head,
    width: usize,
) -> usize
    requires { HeaderKnown texts.now references.now comments.now head × (60 ≤ width) × (width ≤ 132) }
    ensures { Writes out.old at (header_lines width (table_of (rooms_in texts.now references.now comments.now [] [] [] []) head)) out.new result }
{
    let source = head.source;
    let a = put_first_texts(out, at, texts, head, width);
    let b = put_source(out, a, texts, source, width);
    let d = put_references(out, b, texts, references, head.references, width);
    put_comments(out, d, texts, comments, head.comments, width)
}
