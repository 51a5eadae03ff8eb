// Rows of a location put into lent room, and compared at once with rows that are there.
#![tactic(auto)]

ghost use Rattle.std.specs.Prelude.{◌≡◌, [], ◌∷◌, ◌≤◌};
ghost use Rattle.std.proofs.lemmas.List.Edits.{sets};
ghost use Rattle.spec_format.specs.Rooms.{row_numbers};
ghost use Rattle.scan_location.specs.Views.{row_of};
ghost use Rattle.read_location_row.specs.Rows.{stand, Noted};

use base_arith::both;
use scan_location::Row;

// The row's numbers, one behind the other.
fn put_seven(out: &mut [usize], at: usize, row: Row)
    requires { at ≤ 700000000 }
    ensures { out.new ≡ sets out.old at (row_numbers (row_of row)) }
{
    base_pen::put(out, at, row.form);
    base_pen::put(out, at + 1, row.marks);
    base_pen::put(out, at + 2, row.from);
    base_pen::put(out, at + 3, row.to);
    base_pen::put(out, at + 4, row.start);
    base_pen::put(out, at + 5, row.length);
    base_pen::put(out, at + 6, row.inside);
}

// The same. Past the room's end nothing is put, and who only counts rows lends none.
fn put_row(out: &mut [usize], at: usize, row: Row)
    requires { at ≤ 700000000 }
    ensures { out.new ≡ sets out.old at (row_numbers (row_of row)) }
{
    if out.len() <= at {
        return;
    }
    put_seven(out, at, row)
}

// Whether the row's numbers are there. All seven are compared, with no branch between them.
fn stands_seven(seen: &[usize], at: usize, row: Row) -> bool
    ensures { result ≡ stand seen.now at (row_numbers (row_of row)) }
{
    if seen.len() <= at {
        return false;
    }
    if seen.len() - at < 7 {
        return false;
    }
    let form = row.form == seen[at];
    let marks = row.marks == seen[at + 1];
    let from = row.from == seen[at + 2];
    let to = row.to == seen[at + 3];
    let start = row.start == seen[at + 4];
    let length = row.length == seen[at + 5];
    let inside = row.inside == seen[at + 6];
    both(
        form,
        both(
            marks,
            both(from, both(to, both(start, both(length, inside)))),
        ),
    )
}

// Where the next row goes, and whether all rows so far are those that are there.
#[derive(Clone, Copy)]
pub struct Pen {
    pub row: usize,
    pub same: bool,
}

pub fn note_row(out: &mut [usize], seen: &[usize], pen: Pen, row: Row) -> Pen
    requires { pen.row ≤ 100000000 }
    ensures { Noted seen.now out.old pen (row_of row ∷ []) out.new result }
{
    let at = 7 * pen.row;
    put_row(out, at, row);
    let here = stands_seven(seen, at, row);
    let same = both(pen.same, here);
    let row = pen.row + 1;
    Pen { row, same }
}
