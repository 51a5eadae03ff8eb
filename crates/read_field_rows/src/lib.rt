// References and comments put into lent rooms by a second walk over the header: their texts, and the rows that say where those are.
#![tactic(auto)]

ghost use Rattle.std.specs.Prelude.{◌+◌, ◌≤◌, ◌<◌, ◌^◌, length, drop};
ghost use Rattle.spec_format.specs.Bytes.{bytes};
ghost use Rattle.spec_format.specs.Header.{every, text_in, reference_in};
ghost use Rattle.spec_format.specs.Rooms.{reference_pieces, comment_pieces, texts_of, rows_of};
ghost use Rattle.read_field_all.specs.Gathered.{fields_at};
ghost use Rattle.read_field_row.specs.Puts.{Room, Puts};
ghost use Rattle.read_field_rows.specs.Pieces.{wanted, reference_found, found_in, FieldReady};
ghost use Rattle.read_field_rows.specs.Puts.{begun, Laid};

use read_field_any::{Field, FieldAt};
use read_field_row::{Pens, put_comment, put_reference};

// ---- a field

fn put_if_reference(
    s: &[u8],
    field: Field,
    texts: &mut [u8],
    rows: &mut [usize],
    pens: Pens,
) -> Pens
    requires { FieldReady s.now field × Room pens (reference_found s.now field) }
    ensures { Puts texts.old rows.old pens (reference_found s.now field) texts.new rows.new result }
{
    match field {
        Field::Reference { entries, bytes: _ } => put_reference(s, entries, texts, rows, pens),
        Field::Definition(_) => pens,
        Field::Accession(_) => pens,
        Field::Version(_) => pens,
        Field::Dblink(_) => pens,
        Field::Keywords(_) => pens,
        Field::Source {
            text: _,
            organism: _,
        } => pens,
        Field::Comment(_) => pens,
        Field::Dropped => pens,
    }
}

// The comment, or else the reference, that a field is.
fn put_found(
    s: &[u8],
    field: Field,
    comments: bool,
    texts: &mut [u8],
    rows: &mut [usize],
    pens: Pens,
) -> Pens
    requires { FieldReady s.now field × Room pens (found_in s.now comments field) }
    ensures { Puts texts.old rows.old pens (found_in s.now comments field) texts.new rows.new result }
{
    if comments {
        return put_comment(s, read_field_all::comment_in(field), texts, rows, pens);
    }
    put_if_reference(s, field, texts, rows, pens)
}

// ---- the header

// The comments, or else the references, of the header that starts at `at`.
fn put_fields(
    s: &[u8],
    at: usize,
    comments: bool,
    texts: &mut [u8],
    place: usize,
    rows: &mut [usize],
) -> Pens
    requires { (at ≤ length s.now) × Room (begun place) (wanted comments (fields_at (drop at s.now))) }
    ensures { Puts texts.old rows.old (begun place) (wanted comments (fields_at (drop at s.now))) texts.new rows.new result }
{
    let mut i = at;
    let mut pens = Pens {
        text: place,
        row: 0,
    };
    loop {
        match read_field_any::header_field_at(s, i) {
            FieldAt::No => return pens,
            FieldAt::Cut => return pens,
            FieldAt::Got { field, next } => {
                pens = put_found(s, field, comments, texts, rows, pens);
                i = next;
            }
        }
    }
}

pub fn put_references(
    s: &[u8],
    at: usize,
    texts: &mut [u8],
    place: usize,
    rows: &mut [usize],
) -> usize
    requires { (at ≤ length s.now) × (place + length (texts_of reference_pieces (every reference_in (fields_at (drop at s.now)))) < 2 ^ 64) × (length (rows_of reference_pieces place (every reference_in (fields_at (drop at s.now)))) < 2 ^ 64) }
    ensures { Laid reference_pieces texts.old rows.old place (every reference_in (fields_at (drop at s.now))) texts.new rows.new result }
{
    let pens = put_fields(s, at, false, texts, place, rows);
    pens.text
}

pub fn put_comments(
    s: &[u8],
    at: usize,
    texts: &mut [u8],
    place: usize,
    rows: &mut [usize],
) -> usize
    requires { (at ≤ length s.now) × (place + length (texts_of comment_pieces (every (text_in (bytes "COMMENT")) (fields_at (drop at s.now)))) < 2 ^ 64) × (length (rows_of comment_pieces place (every (text_in (bytes "COMMENT")) (fields_at (drop at s.now)))) < 2 ^ 64) }
    ensures { Laid comment_pieces texts.old rows.old place (every (text_in (bytes "COMMENT")) (fields_at (drop at s.now))) texts.new rows.new result }
{
    let pens = put_fields(s, at, true, texts, place, rows);
    pens.text
}
