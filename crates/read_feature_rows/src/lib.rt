// The features of a record put into lent rooms, one after the other, with their own rows as structs.
#![tactic(auto)]

ghost use Rattle.std.specs.Prelude.{drop};
ghost use Rattle.read_feature_table.specs.Reads.{features_in};
ghost use Rattle.read_feature_qualifier_rows.specs.Puts.{Fits, FeaturesPut};
ghost use Rattle.base_rows.specs.Rows.{flat};

use base_rows::Feature;
use read_feature_row::Reached;

// The n features that stand from `at` on: texts from `place` on, rows from the start of their rooms on. The place after the texts.
pub fn store_rows(
    s: &[u8],
    at: usize,
    n: usize,
    texts: &mut [u8],
    place: usize,
    rows: &mut [Feature],
    qualifiers: &mut [usize],
    locations: &mut [usize],
) -> usize
    requires { Fits s.now at n place (features_in (drop at s.now)) }
    ensures { FeaturesPut place (features_in (drop at s.now)) texts.old texts.new (flat rows.old) (flat rows.new) qualifiers.old qualifiers.new locations.old locations.new result }
{
    let mut reached = Reached {
        at: at,
        text: place,
        row: 0,
        qualifier: 0,
        count: 0,
        location: 0,
    };
    while reached.row < n {
        let made = read_feature_row::make_row(s, texts, qualifiers, locations, reached);
        base_rows::store_row(rows, reached.row, made.row);
        reached = made.reached;
    }
    reached.text
}
