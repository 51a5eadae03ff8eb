// The entry points that ship, as the tests call them: with a feature's row as eight numbers of a flat room, so that stored answers and cases say what they lend and expect in numbers. The numbers are
// made rows of structs, exactly as many rows are lent as the flat room has, and what they hold afterwards is put back as numbers.
#![tactic(auto)]

ghost use Rattle.std.specs.Prelude.{◌*◌, ◌+◌, ◌/◌, ◌<◌, ◌≤◌, length, take, drop, ◌≡◌};
ghost use Rattle.std.proofs.lemmas.List.Edits.{sets};
ghost use Rattle.base_pen.specs.Pen.{Writes};
ghost use Rattle.base_rows.specs.Rows.{numbers, flat};
ghost use Rattle.spec_contracts.specs.Writes.{WriteAnswered};
ghost use Rattle.spec_format.specs.Rooms.{rooms_in};
ghost use Rattle.test_rows.specs.Through.{first, Through};

use base_rows::Feature;
use spec_contracts::Reported;
use spec_format::{Head, How, ReadAnswer, Span, Unread, Unwritten, WriteAnswer};
use spec_lines::Spot;

// As many rows as any test lends: the rooms of stored answers have 264 numbers. A flat room of more rows is refused, by 3 in reading and by 10 in writing, so that a test which lends it fails.
const MOST_ROWS: usize = 33;

// The row at a place of a flat room.
fn row_at(features: &[usize], at: usize) -> Feature
    requires { at + 7 < length features.now }
    ensures { numbers result ≡ take 8 (drop at features.now) }
{
    Feature {
        kind: Span {
            start: features[at],
            length: features[at + 1],
        },
        location: Span {
            start: features[at + 2],
            length: features[at + 3],
        },
        first: features[at + 4],
        count: features[at + 5],
        row: features[at + 6],
        rows: features[at + 7],
    }
}

// The first n rows of a flat room.
fn rows_of(features: &[usize], n: usize) -> [Feature; MOST_ROWS]
    requires { (n ≤ 33) × (8 * n ≤ length features.now) }
    ensures { flat (take n result) ≡ take (8 * n) features.now }
{
    let no = Span {
        start: 0,
        length: 0,
    };
    let mut rows = [Feature {
        kind: no,
        location: no,
        first: 0,
        count: 0,
        row: 0,
        rows: 0,
    }; MOST_ROWS];
    let mut i = 0usize;
    while i < n {
        rows[i] = row_at(features, 8 * i);
        i += 1;
    }
    rows
}

fn put_row(features: &mut [usize], at: usize, row: Feature) -> usize
    ensures { Writes features.old at (numbers row) features.new result }
{
    let kind = row.kind;
    let location = row.location;
    let next = base_pen::put_all(
        features,
        at,
        &[kind.start, kind.length, location.start, location.length],
    );
    base_pen::put_all(features, next, &[row.first, row.count, row.row, row.rows])
}

// The first n rows put into a flat room again.
fn put_rows(rows: [Feature; MOST_ROWS], n: usize, features: &mut [usize])
    requires { n ≤ 33 }
    ensures { features.new ≡ sets features.old 0 (flat (take n rows)) }
{
    let mut at = 0;
    let mut i = 0usize;
    while i < n {
        at = put_row(features, at, rows[i]);
        i += 1;
    }
}

// Reads into the first n rows, and puts them into the flat room again.
fn read_lent(
    s: &[u8],
    at: usize,
    strict: bool,
    texts: &mut [u8],
    references: &mut [usize],
    comments: &mut [usize],
    rows: [Feature; MOST_ROWS],
    n: usize,
    features: &mut [usize],
    qualifiers: &mut [usize],
    locations: &mut [usize],
    letters: &mut [u8],
) -> Reported
    requires { (n ≤ 33) × (8 * n ≤ length features.old) × (flat (take n rows) ≡ take (8 * n) features.old) }
    ensures { Through strict s.now at (8 * n) (rooms_in texts.old references.old comments.old features.old qualifiers.old locations.old letters.old) (rooms_in texts.new references.new comments.new features.new qualifiers.new locations.new letters.new) result }
{
    let mut lent = rows;
    let reported = read_record::read(
        s,
        at,
        strict,
        texts,
        references,
        comments,
        &mut lent[..n],
        qualifiers,
        locations,
        letters,
    );
    put_rows(lent, n, features);
    reported
}

// What a room of too many rows is answered.
fn too_many() -> Reported {
    Reported {
        answer: ReadAnswer::Refused(Unread::BadPlace),
        spot: Spot { line: 0, offset: 0 },
    }
}

// The reader, on a flat room of features.
pub fn read(
    s: &[u8],
    at: usize,
    strict: bool,
    texts: &mut [u8],
    references: &mut [usize],
    comments: &mut [usize],
    features: &mut [usize],
    qualifiers: &mut [usize],
    locations: &mut [usize],
    letters: &mut [u8],
) -> Reported
    ensures { length features.old / 8 ≤ 33 → Through strict s.now at (8 * (length features.old / 8)) (rooms_in texts.old references.old comments.old features.old qualifiers.old locations.old letters.old) (rooms_in texts.new references.new comments.new features.new qualifiers.new locations.new letters.new) result }
{
    let n = features.len() / 8;
    if MOST_ROWS < n {
        return too_many();
    }
    let rows = rows_of(features, n);
    read_lent(
        s, at, strict, texts, references, comments, rows, n, features, qualifiers, locations,
        letters,
    )
}

// Writes from the first n rows.
fn write_lent(
    out: &mut [u8],
    texts: &[u8],
    references: &[usize],
    comments: &[usize],
    rows: [Feature; MOST_ROWS],
    n: usize,
    qualifiers: &[usize],
    locations: &[usize],
    letters: &[u8],
    head: Head,
    how: How,
) -> WriteAnswer
    requires { n ≤ 33 }
    ensures { WriteAnswered how (rooms_in texts.now references.now comments.now (flat (take n rows)) qualifiers.now locations.now letters.now) head out.old out.new result }
{
    let lent = rows;
    write_record::write(
        out,
        texts,
        references,
        comments,
        &lent[..n],
        qualifiers,
        locations,
        letters,
        head,
        how,
    )
}

// The writers, on a flat room of features.
pub fn write(
    out: &mut [u8],
    texts: &[u8],
    references: &[usize],
    comments: &[usize],
    features: &[usize],
    qualifiers: &[usize],
    locations: &[usize],
    letters: &[u8],
    head: Head,
    how: How,
) -> WriteAnswer
    ensures { length features.now / 8 ≤ 33 → WriteAnswered how (first (8 * (length features.now / 8)) (rooms_in texts.now references.now comments.now features.now qualifiers.now locations.now letters.now)) head out.old out.new result }
{
    let n = features.len() / 8;
    if MOST_ROWS < n {
        return WriteAnswer::Refused(Unwritten::BadRooms);
    }
    let rows = rows_of(features, n);
    write_lent(
        out, texts, references, comments, rows, n, qualifiers, locations, letters, head, how,
    )
}
