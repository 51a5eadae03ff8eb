// The features of feature_table.rs, scanned: how many there are, how many qualifiers and location rows they have, and how long their texts are. Nothing is written.
#![tactic(auto)]

ghost use Rattle.std.specs.Prelude.{◌-◌, ◌≤◌, ◌<◌, length, drop};
ghost use Rattle.spec_format.specs.Features.{feature_from, feature};
ghost use Rattle.scan_bytes.specs.Places.{part};
ghost use Rattle.read_feature_table.specs.Reads.{Placed, feature_rest, FeatureRead, features_in, FeaturesRead};

use read_feature_location::Located;
use read_feature_names::Kind;
use read_feature_qualifiers::QualifiersAt;

// How many qualifiers and location rows a feature has, the lengths of all its texts, and the place after it.
#[derive(Clone, Copy)]
enum FeatureAt {
    Got {
        qualifiers: usize,
        rows: usize,
        bytes: usize,
        next: usize,
    },
    No,
    Cut,
}

// How many features there are, how many qualifiers and location rows they have together, the lengths of all their texts, and the place after them.
#[derive(Clone, Copy)]
pub struct Features {
    pub count: usize,
    pub qualifiers: usize,
    pub rows: usize,
    pub bytes: usize,
    pub next: usize,
}

// The feature that starts at `at`, once its kind, first..end, and its location, `long` bytes from `location` on with `rows` rows, are read; its qualifiers start at `rest`.
fn feature_rest(
    s: &[u8],
    at: usize,
    first: usize,
    end: usize,
    location: usize,
    long: usize,
    rows: usize,
    rest: usize,
) -> FeatureAt
    requires { Placed s.now at first end location long rows rest }
    ensures { FeatureRead s.now at (feature_rest s.now at first end location rest) result }
{
    match read_feature_qualifiers::qualifiers_at(s, rest, location - at) {
        QualifiersAt::Got { count, bytes, next } => FeatureAt::Got {
            qualifiers: count,
            rows,
            bytes: end - first + long + bytes,
            next,
        },
        QualifiersAt::Cut => FeatureAt::Cut,
    }
}

// The same, once its kind is read.
fn feature_from(s: &[u8], at: usize, first: usize, end: usize, location: usize) -> FeatureAt
    requires { (at < first) × (first < end) × (end < location) × (location ≤ length s.now) × (length s.now ≤ 16777216) }
    ensures { FeatureRead s.now at (feature_from (location - at) (part first end s.now) (drop location s.now)) result }
{
    match read_feature_location::location_at(s, location, location - at) {
        Located::Got {
            length,
            next,
            rows,
            line: _,
        } => feature_rest(s, at, first, end, location, length, rows, next),
        Located::No => FeatureAt::No,
        Located::Cut => FeatureAt::Cut,
    }
}

fn feature_at(s: &[u8], at: usize) -> FeatureAt
    requires { (at ≤ length s.now) × (length s.now ≤ 16777216) }
    ensures { FeatureRead s.now at (feature (drop at s.now)) result }
{
    match read_feature_names::kind_at(s, at) {
        Kind::Got { first, end, next } => feature_from(s, at, first, end, next),
        Kind::No => FeatureAt::No,
        Kind::Cut => FeatureAt::Cut,
    }
}

// The features from `at` on, as far as they fit.
pub fn features_at(s: &[u8], at: usize) -> Features
    requires { (at ≤ length s.now) × (length s.now ≤ 16777216) }
    ensures { FeaturesRead s.now at (features_in (drop at s.now)) result }
{
    let mut i = at;
    let mut count = 0;
    let mut all = 0;
    let mut parts = 0;
    let mut total = 0;
    loop {
        match feature_at(s, i) {
            FeatureAt::Got {
                qualifiers,
                rows,
                bytes,
                next,
            } => {
                count += 1;
                all += qualifiers;
                parts += rows;
                total += bytes;
                i = next;
            }
            FeatureAt::No => {
                return Features {
                    count: count,
                    qualifiers: all,
                    rows: parts,
                    bytes: total,
                    next: i,
                };
            }
            FeatureAt::Cut => {
                return Features {
                    count: count,
                    qualifiers: all,
                    rows: parts,
                    bytes: total,
                    next: i,
                };
            }
        }
    }
}
