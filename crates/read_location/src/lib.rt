// A location's text (document 02, ticket 1) read into rows: the reader calls itself on the inner text, and the nesting left falls.
#![tactic(auto)]

ghost use Rattle.std.specs.Prelude.{[], ◌∷◌, suc, ◌≤◌, length};
ghost use Rattle.spec_format.specs.Location.{word, comma_in, single, plain, word_row, members_in, location_from, location, reading};
ghost use Rattle.scan_location_bytes.specs.Views.{view, total, Ready, Reached};
ghost use Rattle.scan_location_usual.specs.Usuals.{range_row};
ghost use Rattle.read_location_row.specs.Rows.{Noted};
ghost use Rattle.read_location.specs.Reads.{Stands, Located, Closable, Closes, Answered, Ends};

use read_location_row::Pen;
use scan_location::{Begun, Plain, Row};
use scan_location_bytes::{Laid, Peek, Spot, Word};
use scan_location_usual::{Ranged, Usual};

// ---- the cycle: a location, a word, its members

// What was read: the spot behind it and the pen behind its rows. Or a fault, or a seventeenth word.
#[derive(Clone, Copy)]
enum RowsAt {
    Got { spot: Spot, pen: Pen },
    Fault,
    Deep,
}

// The row of a range.
fn range_noted(out: &mut [usize], seen: &[usize], pen: Pen, from: usize, to: usize) -> Pen
    requires { pen.row ≤ 100000000 }
    ensures { Noted seen.now out.old pen (range_row from to ∷ []) out.new result }
{
    let row = Row {
        form: 2,
        marks: 0,
        from,
        to,
        start: 0,
        length: 0,
        inside: 0,
    };
    read_location_row::note_row(out, seen, pen, row)
}

// A location of one row, whatever it is made of.
fn any_plain_in(
    s: &[u8],
    laid: Laid,
    gaps: bool,
    spot: Spot,
    out: &mut [usize],
    seen: &[usize],
    pen: Pen,
) -> RowsAt
    requires { Stands laid s.now spot pen }
    ensures { Located (single (plain gaps (total laid s.now spot) (view laid s.now spot.at))) laid s.now seen.now out.old spot pen out.new result }
{
    match scan_location::plain_at(s, laid, gaps, spot) {
        Plain::Row { row, spot: behind } => {
            let to = read_location_row::note_row(out, seen, pen, row);
            RowsAt::Got {
                spot: behind,
                pen: to,
            }
        }
        Plain::Fault => RowsAt::Fault,
    }
}

// The same, mostly a range.
fn plain_in(
    s: &[u8],
    laid: Laid,
    gaps: bool,
    spot: Spot,
    out: &mut [usize],
    seen: &[usize],
    pen: Pen,
) -> RowsAt
    requires { Stands laid s.now spot pen }
    ensures { Located (single (plain gaps (total laid s.now spot) (view laid s.now spot.at))) laid s.now seen.now out.old spot pen out.new result }
{
    match scan_location_usual::range_at(s, laid, spot) {
        Ranged::Is {
            from,
            to,
            spot: behind,
        } => {
            let next = range_noted(out, seen, pen, from, to);
            RowsAt::Got {
                spot: behind,
                pen: next,
            }
        }
        Ranged::Other => any_plain_in(s, laid, gaps, spot, out, seen, pen),
    }
}

// A comma, where the word of this form may have more members.
fn comma_at(s: &[u8], laid: Laid, form: usize, spot: Spot) -> Word
    requires { Ready laid s.now spot }
    ensures { Reached laid s.now spot (comma_in form (view laid s.now spot.at)) result }
{
    if form == 4 {
        return Word::Other;
    }
    scan_location_bytes::mark_at(s, laid, spot, b',')
}

// A word's members were read from row `first` on: its bracket, and its own row.
fn closed_by(
    s: &[u8],
    laid: Laid,
    form: usize,
    first: usize,
    members: RowsAt,
    out: &mut [usize],
    seen: &[usize],
) -> RowsAt
    requires { Closable laid s.now first members }
    ensures { Closes form first laid s.now seen.now out.old out.new members result }
{
    match members {
        RowsAt::Got { spot, pen } => match scan_location_bytes::mark_at(s, laid, spot, b')') {
            Word::Past(behind) => {
                let row = Row {
                    form,
                    marks: 0,
                    from: 0,
                    to: 0,
                    start: 0,
                    length: 0,
                    inside: pen.row - first,
                };
                let to = read_location_row::note_row(out, seen, pen, row);
                RowsAt::Got {
                    spot: behind,
                    pen: to,
                }
            }
            Word::Other => RowsAt::Fault,
        },
        RowsAt::Fault => RowsAt::Fault,
        RowsAt::Deep => RowsAt::Deep,
    }
}

#[cycle(location_in_members_in_word_in)]
fn location_in(
    s: &[u8],
    laid: Laid,
    gaps: bool,
    spot: Spot,
    left: usize,
    out: &mut [usize],
    seen: &[usize],
    pen: Pen,
) -> RowsAt
    requires { Stands laid s.now spot pen }
    ensures { Located (location gaps (total laid s.now spot) left (view laid s.now spot.at)) laid s.now seen.now out.old spot pen out.new result }
{
    match scan_location::begin_at(s, laid, spot) {
        Begun::Word { form, spot: inner } => {
            word_in(s, laid, gaps, inner, left, form, out, seen, pen)
        }
        Begun::Other => plain_in(s, laid, gaps, spot, out, seen, pen),
    }
}

// Behind a word's opening bracket.
#[cycle(location_in_members_in_word_in)]
fn word_in(
    s: &[u8],
    laid: Laid,
    gaps: bool,
    spot: Spot,
    left: usize,
    form: usize,
    out: &mut [usize],
    seen: &[usize],
    pen: Pen,
) -> RowsAt
    requires { Stands laid s.now spot pen }
    ensures { Located (location_from gaps (total laid s.now spot) left (word form (view laid s.now spot.at)) []) laid s.now seen.now out.old spot pen out.new result }
{
    if left == 0 {
        return RowsAt::Deep;
    }
    let members = members_in(s, laid, gaps, spot, left - 1, form, out, seen, pen);
    closed_by(s, laid, form, pen.row, members, out, seen)
}

#[cycle(location_in_members_in_word_in)]
fn members_in(
    s: &[u8],
    laid: Laid,
    gaps: bool,
    spot: Spot,
    left: usize,
    form: usize,
    out: &mut [usize],
    seen: &[usize],
    pen: Pen,
) -> RowsAt
    requires { Stands laid s.now spot pen }
    ensures { Located (members_in (suc (length (view laid s.now spot.at))) form (location gaps (total laid s.now spot) left) (view laid s.now spot.at)) laid s.now seen.now out.old spot pen out.new result }
{
    let mut here = spot;
    let mut to = pen;
    loop {
        match location_in(s, laid, gaps, here, left, out, seen, to) {
            RowsAt::Got { spot: p, pen: q } => match comma_at(s, laid, form, p) {
                Word::Past(next) => {
                    here = next;
                    to = q;
                }
                Word::Other => {
                    return RowsAt::Got { spot: p, pen: q };
                }
            },
            RowsAt::Fault => {
                return RowsAt::Fault;
            }
            RowsAt::Deep => {
                return RowsAt::Deep;
            }
        }
    }
}

// ---- the whole text

// A location that was read, how many rows it has and whether they are those that are there; or none; or one with a seventeenth word.
#[derive(Clone, Copy)]
pub enum Location {
    Read { rows: usize, same: bool },
    None,
    TooDeep,
}

// What was read from row `first` on, with nothing behind it.
fn ended(s: &[u8], laid: Laid, first: usize, r: RowsAt) -> Location
    requires { Closable laid s.now first r }
    ensures { Ends laid s.now first r result }
{
    match r {
        RowsAt::Got { spot, pen } => match scan_location_bytes::byte_or_end(s, laid, spot.at) {
            Peek::End => Location::Read {
                rows: pen.row - first,
                same: pen.same,
            },
            Peek::Byte { byte: _, next: _ } => Location::None,
        },
        RowsAt::Fault => Location::None,
        RowsAt::Deep => Location::TooDeep,
    }
}

// The location whose text begins at `at`: its rows are put into `out` from row `first` on, and compared with those of `seen` from there on.
// Past the end of `out` nothing is put, and past the end of `seen` no row is the same.
pub fn location_at(
    s: &[u8],
    laid: Laid,
    gaps: bool,
    at: usize,
    out: &mut [usize],
    seen: &[usize],
    first: usize,
) -> Location
    requires { (at ≤ length s.now) × ((length s.now ≤ 16777216) × (first ≤ 16777216)) }
    ensures { Answered (reading gaps (view laid s.now at)) seen.now out.old first out.new result }
{
    let spot = Spot { at, off: 0 };
    let pen = Pen {
        row: first,
        same: true,
    };
    let r = location_in(s, laid, gaps, spot, 16, out, seen, pen);
    ended(s, laid, first, r)
}

// The row of a range's complement, behind that of the range.
fn complement_noted(out: &mut [usize], seen: &[usize], pen: Pen, from: usize, to: usize) -> Pen
    requires { pen.row ≤ 16777216 }
    ensures { Noted seen.now out.old pen (range_row from to ∷ word_row 4 1 ∷ []) out.new result }
{
    let next = range_noted(out, seen, pen, from, to);
    let row = Row {
        form: 4,
        marks: 0,
        from: 0,
        to: 0,
        start: 0,
        length: 0,
        inside: 1,
    };
    read_location_row::note_row(out, seen, next, row)
}

// The location whose text is all of `s`: mostly a range or its complement, whose rows are known at once.
pub fn piece_at(s: &[u8], gaps: bool, out: &mut [usize], seen: &[usize], first: usize) -> Location
    requires { (length s.now ≤ 16777216) × (first ≤ 16777216) }
    ensures { Answered (reading gaps s.now) seen.now out.old first out.new result }
{
    let pen = Pen {
        row: first,
        same: true,
    };
    match scan_location_usual::usual_at(s) {
        Usual::Range { from, to } => {
            let behind = range_noted(out, seen, pen, from, to);
            Location::Read {
                rows: 1,
                same: behind.same,
            }
        }
        Usual::Complement { from, to } => {
            let behind = complement_noted(out, seen, pen, from, to);
            Location::Read {
                rows: 2,
                same: behind.same,
            }
        }
        Usual::Other => location_at(s, Laid::Piece, gaps, 0, out, seen, first),
    }
}
