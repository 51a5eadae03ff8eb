// What programs in other languages call, by the names that `api_boundary_c` exports: the reader and the writers over numbers and slices. No call asks anything of its
// arguments; api/vilggodan.h says how they are passed, and specs/Told.antt of `spec_contracts` what is returned.
#![tactic(auto)]

ghost use Rattle.spec_contracts.specs.Lent.{lent, left};
ghost use Rattle.spec_contracts.specs.Told.{ReadTold, WriteTold, how_of};

use api_head::head_from;
use api_told::{reading_of, writing_of};
use base_rows::Feature;
use spec_contracts::{Reading, Writing};
use spec_format::How;

// Reads the record at a place of `s` into the rooms, strictly or not.
pub fn vilggodan_read(
    s: &[u8],
    at: usize,
    strict: bool,
    texts: &mut [u8],
    references: &mut [usize],
    comments: &mut [usize],
    features: &mut [Feature],
    qualifiers: &mut [usize],
    locations: &mut [usize],
    letters: &mut [u8],
) -> Reading
    ensures { ReadTold strict s.now at (lent texts.old references.old comments.old features.old qualifiers.old locations.old letters.old) (left texts.new references.new comments.new features.new qualifiers.new locations.new letters.new) result }
{
    let answer = read_record::read(
        s, at, strict, texts, references, comments, features, qualifiers, locations, letters,
    );
    reading_of(at, answer)
}

// Writes the table in the rooms by the keeping rules or plainly.
pub fn vilggodan_write(
    out: &mut [u8],
    texts: &[u8],
    references: &[usize],
    comments: &[usize],
    features: &[Feature],
    qualifiers: &[usize],
    locations: &[usize],
    letters: &[u8],
    head: &[usize],
    width: usize,
    keep: bool,
    truncate: bool,
    escape: bool,
) -> Writing
    ensures { WriteTold (how_of keep width truncate escape) (lent texts.now references.now comments.now features.now qualifiers.now locations.now letters.now) head.now out.old out.new result }
{
    let answer = write_record::write(
        out,
        texts,
        references,
        comments,
        features,
        qualifiers,
        locations,
        letters,
        head_from(head),
        How {
            keeping: keep,
            width: width,
            truncate: truncate,
            escape: escape,
        },
    );
    writing_of(answer)
}
