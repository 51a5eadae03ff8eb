// Numbers 10 and 11 of a location: whether its rows lie in their room and are those of its text, and whether the text has a reading. None is
// told where number 10 is due; else whether number 11 is not.
#![tactic(auto)]

ghost use Rattle.std.specs.Prelude.{◌≡◌, ◌/◌, ◌≤◌, length};
ghost use Rattle.spec_format.specs.Record.{most};
ghost use Rattle.spec_format.specs.Rooms.{span_text};
ghost use Rattle.judge_rooms.specs.Facts.{SpanIn};
ghost use Rattle.judge_location.specs.Told.{first_of, location_told, contig_told};

use judge_rooms::{span_fine, span_text};
use read_location::{Location, piece_at};
use spec_format::{ContigText, Span};

// Where the rows of a location are looked for: those of none start nowhere.
#[tactic(auto, unfolding(crate::specs::Told::first_of))]
fn first_of(row: usize, rows: usize) -> usize
    ensures { result ≡ first_of row rows }
{
    if rows == 0 { 0 } else { row }
}

// The location whose text lies in the store.
#[tactic(auto, using(crate::specs::Told::told))]
pub fn location_told(
    texts: &[u8],
    text: Span,
    gaps: bool,
    locations: &[usize],
    row: usize,
    rows: usize,
) -> Option<bool>
    requires { (length texts.now ≤ most) × SpanIn texts.now text × (length locations.now / 7 ≤ most) }
    ensures { result ≡ location_told gaps locations.now (span_text texts.now text) row rows }
{
    let first = first_of(row, rows);
    if !span_fine(locations.len() / 7, first, rows) {
        return None;
    }
    match piece_at(span_text(texts, text), gaps, &mut [], locations, first) {
        Location::Read { rows: n, same } if n == rows && same => Some(true),
        Location::Read { .. } => None,
        Location::None | Location::TooDeep => Some(false),
    }
}

// CONTIG, which may lie outside the store.
#[tactic(auto, unfolding(spec_format::specs::Rooms::location_fine, spec_format::specs::Rooms::location_row_in))]
pub fn contig_told(texts: &[u8], locations: &[usize], contig: Option<ContigText>) -> Option<bool>
    requires { (length texts.now ≤ most) × (length locations.now / 7 ≤ most) }
    ensures { result ≡ contig_told texts.now locations.now contig }
{
    match contig {
        None => Some(true),
        Some(ContigText { text, row, rows }) => {
            if span_fine(texts.len(), text.start, text.length) {
                location_told(texts, text, true, locations, row, rows)
            } else {
                None
            }
        }
    }
}
