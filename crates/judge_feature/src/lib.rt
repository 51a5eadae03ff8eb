// The tests that numbers 11 and 13 make of features and their qualifiers, of a table in rooms.
#![tactic(auto)]

ghost use Rattle.std.specs.Prelude.{◌≡◌, ◌&&◌};
ghost use Rattle.spec_format.specs.Rooms.{qualifier_in, feature_in};
ghost use Rattle.spec_format.specs.WellFormed.{value_fine};
ghost use Rattle.judge_rooms.specs.Parts.{qualifier_rooms, feature_rooms};
ghost use Rattle.judge_feature.specs.Rules.{kind_of, location_of, qualifier_of, feature_of, QualifierKnown, FeatureKnown};

use base_keys::comma_key;
use judge_header::Rule;
use judge_rooms::{perhaps_in, text_in};
use judge_text::{comma_fine, key_fine, kind_fine, kind_kept, value_kept, without};
use scan_utf8::utf8_ok;

fn value_fine(key: &[u8], value: &[u8]) -> bool
    ensures { result ≡ value_fine key.now value.now }
{
    if comma_key(key) {
        comma_fine(value)
    } else {
        utf8_ok(value, 0, value.len())
    }
}

#[tactic(auto, unfolding(crate::specs::Rules::qualifier_of, spec_format::specs::Rooms::qualifier_in))]
fn qualifier_passes(rule: Rule, texts: &[u8], qualifiers: &[usize], at: usize) -> bool
    requires { QualifierKnown texts.now qualifiers.now at }
    ensures { result ≡ qualifier_of rule (qualifier_in (qualifier_rooms texts.now qualifiers.now) at) }
{
    let key = text_in(texts, qualifiers, at);
    let value = perhaps_in(texts, qualifiers, at + 2);
    match rule {
        Rule::Fine(width) => key_fine(width, key) && value.is_none_or(|v| value_fine(key, v)),
        Rule::Kept(width) => value.is_none_or(|v| value_kept(width, key, v)),
    }
}

// The kind and the location. What number 11 asks of a location is told where its rows are judged.
fn first_passes(rule: Rule, kind: &[u8], location: &[u8]) -> bool
    ensures { result ≡ (kind_of rule kind.now && location_of rule location.now) }
{
    match rule {
        Rule::Fine(width) => kind_fine(width, kind),
        Rule::Kept(_) => kind_kept(kind) && without(location, b'/'),
    }
}

// The feature whose row of eight numbers is at a place.
#[tactic(auto, unfolding(crate::specs::Rules::feature_of, spec_format::specs::Rooms::feature_in))]
pub fn feature_passes(
    rule: Rule,
    texts: &[u8],
    features: &[usize],
    qualifiers: &[usize],
    at: usize,
) -> bool
    requires { FeatureKnown texts.now features.now qualifiers.now at }
    ensures { result ≡ feature_of rule (feature_in (feature_rooms texts.now features.now qualifiers.now) at) }
{
    let kind = text_in(texts, features, at);
    let location = text_in(texts, features, at + 2);
    let first = features[at + 4];
    let count = features[at + 5];
    first_passes(rule, kind, location)
        && (first..first + count).all(|i| qualifier_passes(rule, texts, qualifiers, 4 * i))
}
