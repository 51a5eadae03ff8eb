// Number 10: whether each span and row of a table in lent rooms lies inside its room.
#![tactic(auto)]

ghost use Rattle.std.specs.Prelude.{◌≡◌, [], ◌+◌, ◌*◌, ◌/◌, ◌≤◌, ◌<◌, length, MatchOption};
ghost use Rattle.std.specs.Bool.{OnTrue};
ghost use Rattle.spec_format.specs.Bytes.{absent, is};
ghost use Rattle.spec_format.specs.Rooms.{span_text, text_in, perhaps_in, span_fine, text_fine, source_fine, row_text_fine, row_perhaps_fine, rows_fine, reference_row_fine, comment_row_fine, qualifier_row_fine, qualifiers_fine, lengths_fine, head_fine, counts_fine, rooms_fine, rooms_in};
ghost use Rattle.judge_rooms.specs.Parts.{reference_rooms, comment_rooms, qualifier_rooms, feature_rooms, feature_next, rest_head};
ghost use Rattle.judge_rooms.specs.Facts.{SpanIn, RowText, RowPerhaps};

use spec_format::{Head, MOST, SourceText, Span};

// ---- the texts of spans and rows that are known to lie in the store

pub fn span_text(texts: &[u8], span: Span) -> &[u8]
    requires { SpanIn texts.now span }
    ensures { result.now ≡ span_text texts.now span }
{
    &texts[span.start..span.start + span.length]
}

// The text whose start and length stand at a place of a room of rows.
pub fn text_in<'a>(texts: &'a [u8], rows: &[usize], at: usize) -> &'a [u8]
    requires row { at + 1 < length rows.now }
    requires inside { RowText texts.now rows.now at }
    ensures { result.now ≡ text_in texts.now rows.now at }
{
    &texts[rows[at]..rows[at] + rows[at + 1]]
}

// The same of one that may be absent: it has its length plus one.
pub fn perhaps_in<'a>(texts: &'a [u8], rows: &[usize], at: usize) -> Option<&'a [u8]>
    requires row { at + 1 < length rows.now }
    requires inside { RowPerhaps texts.now rows.now at }
    ensures { MatchOption result (perhaps_in texts.now rows.now at ≡ absent) (λ t. perhaps_in texts.now rows.now at ≡ is t.now) }
{
    let n = rows[at + 1];
    if n == 0 {
        None
    } else {
        Some(&texts[rows[at]..rows[at] + (n - 1)])
    }
}

// ---- number 10

// No sum is made, so none can wrap.
pub fn span_fine(room: usize, start: usize, n: usize) -> bool
    ensures { result ≡ span_fine room start n }
{
    start <= room && n <= room - start
}

fn text_fine(room: usize, text: Option<Span>) -> bool
    ensures { result ≡ text_fine room text }
{
    text.is_none_or(|s| span_fine(room, s.start, s.length))
}

fn source_fine(room: usize, source: Option<SourceText>) -> bool
    ensures { result ≡ source_fine room source }
{
    source.is_none_or(|s| {
        span_fine(room, s.text.start, s.text.length) && text_fine(room, s.organism)
    })
}

// The text whose start and length stand at a place of a room of rows.
fn row_text_fine(texts: &[u8], rows: &[usize], at: usize) -> bool
    requires { at + 1 < length rows.now }
    ensures { result ≡ row_text_fine (reference_rooms texts.now rows.now) rows.now at }
{
    span_fine(texts.len(), rows[at], rows[at + 1])
}

// The same of one that may be absent: it has its length plus one.
fn row_perhaps_fine(texts: &[u8], rows: &[usize], at: usize) -> bool
    requires { at + 1 < length rows.now }
    ensures { result ≡ row_perhaps_fine (reference_rooms texts.now rows.now) rows.now at }
{
    rows[at + 1] == 0 || span_fine(texts.len(), rows[at], rows[at + 1] - 1)
}

#[tactic(auto, unfolding(spec_format::specs::Rooms::reference_row_fine))]
fn reference_row_fine(texts: &[u8], references: &[usize], at: usize) -> bool
    requires { at + 13 < length references.now }
    ensures { result ≡ reference_row_fine (reference_rooms texts.now references.now) at }
{
    row_text_fine(texts, references, at)
        && row_perhaps_fine(texts, references, at + 2)
        && row_perhaps_fine(texts, references, at + 4)
        && row_text_fine(texts, references, at + 6)
        && row_perhaps_fine(texts, references, at + 8)
        && row_perhaps_fine(texts, references, at + 10)
        && row_perhaps_fine(texts, references, at + 12)
}

fn references_fine(texts: &[u8], references: &[usize], n: usize) -> bool
    requires { 14 * n ≤ length references.now }
    ensures { result ≡ rows_fine (reference_row_fine (reference_rooms texts.now references.now)) 14 0 n }
{
    (0..n).all(|i| reference_row_fine(texts, references, 14 * i))
}

#[tactic(auto, unfolding(spec_format::specs::Rooms::comment_row_fine))]
fn comments_fine(texts: &[u8], comments: &[usize], n: usize) -> bool
    requires { 2 * n ≤ length comments.now }
    ensures { result ≡ rows_fine (comment_row_fine (comment_rooms texts.now comments.now)) 2 0 n }
{
    (0..n).all(|i| row_text_fine(texts, comments, 2 * i))
}

#[tactic(auto, unfolding(spec_format::specs::Rooms::qualifier_row_fine))]
fn qualifier_row_fine(texts: &[u8], qualifiers: &[usize], at: usize) -> bool
    requires { at + 3 < length qualifiers.now }
    ensures { result ≡ qualifier_row_fine (qualifier_rooms texts.now qualifiers.now) at }
{
    row_text_fine(texts, qualifiers, at) && row_perhaps_fine(texts, qualifiers, at + 2)
}

// `count` qualifiers from `first` on, of which none may start before `from`.
#[tactic(auto, unfolding(spec_format::specs::Rooms::qualifiers_fine))]
fn qualifiers_fine(
    texts: &[u8],
    qualifiers: &[usize],
    from: usize,
    first: usize,
    count: usize,
) -> bool
    ensures same { result ≡ qualifiers_fine (qualifier_rooms texts.now qualifiers.now) from first count }
    ensures end { OnTrue result (first + count ≤ length qualifiers.now / 4) }
{
    from <= first
        && span_fine(qualifiers.len() / 4, first, count)
        && (first..first + count).all(|i| qualifier_row_fine(texts, qualifiers, 4 * i))
}

// Where the qualifiers of the next feature may start, if this one is in order. Its location rows are not looked at.
#[tactic(auto, unfolding(crate::specs::Parts::feature_next, spec_format::specs::Rooms::qualifiers_fine, spec_format::specs::Rooms::qualifier_row_fine))]
pub fn feature_next(
    texts: &[u8],
    features: &[usize],
    qualifiers: &[usize],
    at: usize,
    from: usize,
) -> Option<usize>
    requires { at + 5 < length features.now }
    ensures { result ≡ feature_next (feature_rooms texts.now features.now qualifiers.now) at from }
{
    if !(row_text_fine(texts, features, at) && row_text_fine(texts, features, at + 2)) {
        return None;
    }
    let first = features[at + 4];
    let count = features[at + 5];
    if count == 0 {
        Some(from)
    } else if qualifiers_fine(texts, qualifiers, from, first, count) {
        Some(first + count)
    } else {
        None
    }
}

// Rooms of rows are measured in rows.
#[tactic(auto, unfolding(spec_format::specs::Rooms::lengths_fine))]
fn lengths_fine(
    texts: &[u8],
    references: &[usize],
    comments: &[usize],
    qualifiers: &[usize],
    locations: &[usize],
    letters: &[u8],
) -> bool
    ensures { result ≡ lengths_fine (rooms_in texts.now references.now comments.now [] qualifiers.now locations.now letters.now) }
{
    texts.len() <= MOST
        && references.len() / 14 <= MOST
        && comments.len() / 2 <= MOST
        && qualifiers.len() / 4 <= MOST
        && locations.len() / 7 <= MOST
        && letters.len() <= MOST
}

#[tactic(auto, unfolding(spec_format::specs::Rooms::head_fine))]
fn head_fine(texts: &[u8], head: Head) -> bool
    ensures { result ≡ head_fine (reference_rooms texts.now []) (rest_head head) }
{
    let room = texts.len();
    text_fine(room, head.name)
        && text_fine(room, head.molecule)
        && span_fine(room, head.division.start, head.division.length)
        && text_fine(room, head.definition)
        && text_fine(room, head.accession)
        && text_fine(room, head.version)
        && text_fine(room, head.dblink)
        && text_fine(room, head.keywords)
        && source_fine(room, head.source)
}

#[tactic(auto, unfolding(spec_format::specs::Rooms::counts_fine))]
fn counts_fine(references: &[usize], comments: &[usize], letters: &[u8], head: Head) -> bool
    ensures { result ≡ counts_fine (rooms_in [] references.now comments.now [] [] [] letters.now) (rest_head head) }
{
    head.references <= references.len() / 14
        && head.comments <= comments.len() / 2
        && head.letters <= letters.len()
}

// Number 10 is not due for anything but the features, of each of which `feature_next` says it, and CONTIG.
#[tactic(auto, unfolding(spec_format::specs::Rooms::counts_fine))]
pub fn rest_fine(
    texts: &[u8],
    references: &[usize],
    comments: &[usize],
    qualifiers: &[usize],
    locations: &[usize],
    letters: &[u8],
    head: Head,
) -> bool
    ensures { result ≡ rooms_fine (rooms_in texts.now references.now comments.now [] qualifiers.now locations.now letters.now) (rest_head head) }
{
    lengths_fine(texts, references, comments, qualifiers, locations, letters)
        && head_fine(texts, head)
        && counts_fine(references, comments, letters, head)
        && references_fine(texts, references, head.references)
        && comments_fine(texts, comments, head.comments)
}
