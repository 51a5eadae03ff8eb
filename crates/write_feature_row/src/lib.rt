// What the writer does with one feature row: numbers 10, 11 and 13 of it but for its location, and its lines. Each makes the row's eight numbers and calls the function
// on flat numbers.
#![tactic(auto)]

ghost use Rattle.std.specs.Prelude.{◌≡◌, ◌||◌, not, ◌+◌, ◌-◌, ◌≤◌};
ghost use Rattle.judge_feature.specs.Rules.{feature_of, QualifierKnown, QualifiersKnown, FeatureKnown};
ghost use Rattle.spec_format.specs.Bytes.{each};
ghost use Rattle.spec_format.specs.Rooms.{text_in, rows_from, qualifier_in, feature_in};
ghost use Rattle.spec_format.specs.Wrap.{wrap_location};
ghost use Rattle.spec_format.specs.Write.{qualifier_lines, feature_lines};
ghost use Rattle.base_pen.specs.Pen.{Writes};
ghost use Rattle.base_rows.specs.Rows.{numbers};
ghost use Rattle.judge_rooms.specs.Parts.{qualifier_rooms, feature_rooms, feature_next};
ghost use Rattle.write_feature.specs.Lines.{feature_start};
ghost use Rattle.write_feature_row.specs.FirstLine.{FirstLineKnown};

use base_rows::Feature;
use judge_feature::feature_passes;
use judge_header::Rule;
use judge_rooms::feature_next;
use write_feature::{put_feature, put_flag, put_value};

fn row_numbers(row: Feature) -> [usize; 8]
    ensures { result ≡ numbers row }
{
    let kind = row.kind;
    let location = row.location;
    [
        kind.start,
        kind.length,
        location.start,
        location.length,
        row.first,
        row.count,
        row.row,
        row.rows,
    ]
}

// Where the qualifiers of the next row may start, if this one is in order but for its location rows.
pub fn row_next(row: Feature, texts: &[u8], qualifiers: &[usize], from: usize) -> Option<usize>
    ensures { result ≡ feature_next (feature_rooms texts.now (numbers row) qualifiers.now) 0 from }
{
    let flat = row_numbers(row);
    feature_next(texts, &flat, qualifiers, 0, from)
}

pub fn row_passes(rule: Rule, row: Feature, texts: &[u8], qualifiers: &[usize]) -> bool
    requires { FeatureKnown texts.now (numbers row) qualifiers.now 0 }
    ensures { result ≡ feature_of rule (feature_in (feature_rooms texts.now (numbers row) qualifiers.now) 0) }
{
    let flat = row_numbers(row);
    feature_passes(rule, texts, &flat, qualifiers, 0)
}

// Number 13 of a row, of which the plain writer asks nothing.
pub fn row_kept(
    keeping: bool,
    width: usize,
    row: Feature,
    texts: &[u8],
    qualifiers: &[usize],
) -> bool
    requires { FeatureKnown texts.now (numbers row) qualifiers.now 0 }
    ensures { result ≡ (not keeping || feature_of (Rule.Kept width) (feature_in (feature_rooms texts.now (numbers row) qualifiers.now) 0)) }
{
    if keeping {
        return row_passes(Rule::Kept(width), row, texts, qualifiers);
    }
    true
}

fn put_qualifier(
    out: &mut [u8],
    at: usize,
    texts: &[u8],
    qualifiers: &[usize],
    row: usize,
    width: usize,
) -> usize
    requires { QualifierKnown texts.now qualifiers.now row × (60 ≤ width) × (width ≤ 132) }
    ensures { Writes out.old at (qualifier_lines width (qualifier_in (qualifier_rooms texts.now qualifiers.now) row)) out.new result }
{
    let key = qualifiers[row];
    let key_length = qualifiers[row + 1];
    let key_end = key + key_length;
    let value = row + 2;
    let n = qualifiers[value + 1];
    if n == 0 {
        return put_flag(out, at, &texts[key..key_end]);
    }
    let start = qualifiers[value];
    let end = start + (n - 1);
    put_value(out, at, &texts[key..key_end], &texts[start..end], width)
}

// The qualifiers from row `first` up to row `end`.
fn put_qualifiers(
    out: &mut [u8],
    at: usize,
    texts: &[u8],
    qualifiers: &[usize],
    first: usize,
    end: usize,
    width: usize,
) -> usize
    requires { QualifiersKnown texts.now qualifiers.now first end × (60 ≤ width) × (width ≤ 132) }
    ensures { Writes out.old at (each (qualifier_lines width) (rows_from (qualifier_in (qualifier_rooms texts.now qualifiers.now)) 4 first (end - first))) out.new result }
{
    let mut p = at;
    let mut i = first;
    while i < end {
        p = put_qualifier(out, p, texts, qualifiers, 4 * i, width);
        i += 1;
    }
    p
}

// A feature's kind and its location.
fn put_first_line(
    out: &mut [u8],
    at: usize,
    texts: &[u8],
    features: &[usize],
    row: usize,
    width: usize,
) -> usize
    requires { FirstLineKnown texts.now features.now row × (60 ≤ width) × (width ≤ 132) }
    ensures { Writes out.old at (wrap_location width (feature_start (text_in texts.now features.now row)) 21 (text_in texts.now features.now (row + 2))) out.new result }
{
    let kind = features[row];
    let kind_length = features[row + 1];
    let kind_end = kind + kind_length;
    let place = row + 2;
    let start = features[place];
    let n = features[place + 1];
    let end = start + n;
    put_feature(out, at, &texts[kind..kind_end], &texts[start..end], width)
}

// The lines of the feature whose eight numbers are at a place.
fn put_feature_lines(
    out: &mut [u8],
    at: usize,
    texts: &[u8],
    features: &[usize],
    qualifiers: &[usize],
    row: usize,
    width: usize,
) -> usize
    requires { FeatureKnown texts.now features.now qualifiers.now row × (60 ≤ width) × (width ≤ 132) }
    ensures { Writes out.old at (feature_lines width (feature_in (feature_rooms texts.now features.now qualifiers.now) row)) out.new result }
{
    let first = features[row + 4];
    let count = features[row + 5];
    let next = put_first_line(out, at, texts, features, row, width);
    if count == 0 {
        return next;
    }
    put_qualifiers(out, next, texts, qualifiers, first, first + count, width)
}

pub fn put_row_lines(
    out: &mut [u8],
    at: usize,
    row: Feature,
    texts: &[u8],
    qualifiers: &[usize],
    width: usize,
) -> usize
    requires { FeatureKnown texts.now (numbers row) qualifiers.now 0 × (60 ≤ width) × (width ≤ 132) }
    ensures { Writes out.old at (feature_lines width (feature_in (feature_rooms texts.now (numbers row) qualifiers.now) 0)) out.new result }
{
    let flat = row_numbers(row);
    put_feature_lines(out, at, texts, &flat, qualifiers, 0, width)
}
