// Feature rows as structs in lent room, and the two thin functions that store and fetch one. An index outside the room is answered.
#![tactic(auto)]

ghost use Rattle.std.specs.Prelude.{◌≡◌, slice_get};
ghost use Rattle.base_rows.specs.Rows.{Stored};

use spec_format::Span;

// A feature: its kind, its location, which qualifiers are its own, and which rows are its location's. In memory it is as in C, for api/vilggodan.h.
#[repr(C)]
#[derive(Clone, Copy)]
pub struct Feature {
    pub kind: Span,
    pub location: Span,
    pub first: usize,
    pub count: usize,
    pub row: usize,
    pub rows: usize,
}

// The row at `at`, if there is one.
pub fn fetch_row(rows: &[Feature], at: usize) -> Option<Feature>
    ensures { result ≡ slice_get rows.now at }
{
    rows.get(at).copied()
}

// Whether there is a row i; where there is none, the rows stay as they are.
pub fn store_row(rows: &mut [Feature], i: usize, row: Feature) -> bool
    ensures { Stored rows.old i row rows.new result }
{
    if i < rows.len() {
        rows[i] = row;
        true
    } else {
        false
    }
}
