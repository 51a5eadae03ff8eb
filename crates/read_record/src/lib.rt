// The reader's entry point with the features' rows as structs: all but the features is prepared, and then they are put in one pass, row by row.
#![tactic(auto)]

ghost use Rattle.spec_contracts.specs.Lent.{lent, left};
ghost use Rattle.spec_contracts.specs.Reads.{ReadReported};

use base_rows::Feature;
use spec_contracts::Reported;

// Reads the record at a place of a slice into the rooms; with the strict switch a letter without an IUPAC code is refused. It has no branch: where the answer refuses, no
// feature is left to be put, and the line of the trouble is found.
pub fn read(
    s: &[u8],
    at: usize,
    strict: bool,
    texts: &mut [u8],
    references: &mut [usize],
    comments: &mut [usize],
    rows: &mut [Feature],
    qualifiers: &mut [usize],
    locations: &mut [usize],
    letters: &mut [u8],
) -> Reported
    ensures { ReadReported strict s.now at (lent texts.old references.old comments.old rows.old qualifiers.old locations.old letters.old) (left texts.new references.new comments.new rows.new qualifiers.new locations.new letters.new) result }
{
    let p = read_record_prepared::prepare(
        s,
        at,
        strict,
        texts,
        references,
        comments,
        rows.len(),
        qualifiers.len(),
        locations,
        letters,
    );
    read_feature_rows::store_rows(
        s, p.at, p.count, texts, p.place, rows, qualifiers, locations,
    );
    let answer = p.answer;
    let spot = read_trouble::spot_told(s, at, answer);
    Reported { answer, spot }
}
