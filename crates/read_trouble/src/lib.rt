// Where the trouble lies for which a record was not read: after a refusal it is found anew, by the scanners that refused, and its line counted.
#![tactic(auto)]

ghost use Rattle.std.specs.Prelude.{◌≡◌, ◌≤◌, length, drop};
ghost use Rattle.spec_format.specs.Record.{most, left_by, base_count, middle, deep_in};
ghost use Rattle.spec_format.specs.declared.ReadAnswer.TheVariants as answers;
ghost use Rattle.read_letters.specs.Runs.{letters_by};
ghost use Rattle.spec_lines.specs.Lines.{nowhere, spot_of};
ghost use Rattle.spec_lines.specs.Stands.{Stands};
ghost use Rattle.spec_lines.specs.Troubles.{letters_end, header_begins, header_ends, second_definition, deep_place, searched};
ghost use Rattle.read_trouble.specs.Found.{origin_ends_by, sections_end_by, Shallow, deep_at, lined, Found, SpotTold};

use read_field_optional::MayEntryAt;
use read_letters::Counted;
use read_record_middle::MiddleAt;
use scan_bytes::Step;
use spec_format::{MOST, ReadAnswer, Unread};
use spec_lines::Spot;

// ---- where the sections end: 7, 8, 9 and 16

// The byte that ends the letters, with the strict switch the letter without a code, or the slice's end.
fn letters_end(s: &[u8], at: usize, strict: bool) -> usize
    requires { at ≤ length s.now }
    ensures { Stands s.now at (letters_end (letters_by strict (drop at s.now))) result }
{
    match read_letters::count_letters(s, at, strict) {
        Counted::AtSlash { count: _, next } => next,
        Counted::AtEnd { count: _ } => s.len(),
        Counted::Bad { next } => next,
    }
}

// Where ORIGIN stands, what ends its letters.
fn origin_ends(s: &[u8], at: usize, strict: bool) -> usize
    requires { at ≤ length s.now }
    ensures { Stands s.now at (origin_ends_by strict (drop at s.now)) result }
{
    match read_origin::origin_at(s, at) {
        Step::Got(next) => letters_end(s, next, strict),
        Step::No => at,
        Step::Cut => at,
    }
}

// The place after features, BASE COUNT and CONTIG.
fn middle_ends(s: &[u8], at: usize) -> usize
    requires { (at ≤ length s.now) × (length s.now ≤ most) }
    ensures { Shallow (deep_in (drop at s.now)) s.now at (left_by (drop at s.now) (middle (drop at s.now))) result }
{
    match read_record_middle::middle_at(s, at) {
        MiddleAt::Got {
            features_at: _,
            features: _,
            contig: _,
            contig_rows: _,
            next,
        } => next,
        MiddleAt::Cut => at,
        MiddleAt::Deep => at,
    }
}

// Where the sections end that follow the header; `at` is where that ends.
fn sections_end(s: &[u8], at: usize, strict: bool) -> usize
    requires { (at ≤ length s.now) × (length s.now ≤ most) }
    ensures { Shallow (deep_in (drop at s.now)) s.now at (sections_end_by strict (drop at s.now)) result }
{
    let next = middle_ends(s, at);
    origin_ends(s, next, strict)
}

// ---- the location that is too deep: 14

// CONTIG is tried after BASE COUNT.
fn count_ends(s: &[u8], at: usize) -> usize
    requires { at ≤ length s.now }
    ensures { Stands s.now at (left_by (drop at s.now) (base_count (drop at s.now))) result }
{
    match read_field_optional::may_field_at(s, at, 0, b"BASE COUNT", false) {
        MayEntryAt::Got { entry: _, next } => next,
        MayEntryAt::Cut => at,
    }
}

// Where the features of a table end: the feature that stands there, if it is too deep, or else CONTIG.
fn deep_at(s: &[u8], at: usize) -> usize
    requires { (at ≤ length s.now) × (length s.now ≤ most) }
    ensures { Stands s.now at (deep_at (drop at s.now)) result }
{
    if read_feature_location::deep_feature_at(s, at) {
        return at;
    }
    count_ends(s, at)
}

// The feature or the CONTIG that is too deep; `at` is where the header ends.
fn deep_place(s: &[u8], at: usize) -> usize
    requires { (at ≤ length s.now) × (length s.now ≤ most) }
    ensures { Stands s.now at (deep_place (drop at s.now)) result }
{
    match read_feature_names::features_header(s, at) {
        Step::Got(first) => {
            let counts = read_feature_table::features_at(s, first);
            let end = counts.next;
            deep_at(s, end)
        }
        Step::No => count_ends(s, at),
        Step::Cut => at,
    }
}

// ---- the place of each trouble, from the place given on

fn second_definition(s: &[u8], at: usize) -> usize
    requires { (at ≤ length s.now) × (length s.now ≤ most) }
    ensures { Stands s.now at (second_definition (header_begins (drop at s.now))) result }
{
    let header = read_trouble_header::header_begins(s, at);
    read_trouble_header::second_definition(s, header)
}

fn sections(s: &[u8], at: usize, strict: bool) -> usize
    requires { (at ≤ length s.now) × (length s.now ≤ most) }
    ensures { Shallow (deep_in (header_ends (drop at s.now))) s.now at (sections_end_by strict (header_ends (drop at s.now))) result }
{
    let header = read_trouble_header::header_ends(s, at);
    sections_end(s, header, strict)
}

fn deep_location(s: &[u8], at: usize) -> usize
    requires { (at ≤ length s.now) × (length s.now ≤ most) }
    ensures { Stands s.now at (deep_place (header_ends (drop at s.now))) result }
{
    let header = read_trouble_header::header_ends(s, at);
    deep_place(s, header)
}

// Whether a refusal tells a line.
fn has_line(why: Unread) -> bool
    ensures { result ≡ lined why }
{
    match why {
        Unread::AtEnd => false,
        Unread::Unended => true,
        Unread::BadPlace => false,
        Unread::NoLocus => true,
        Unread::TwoDefinitions => true,
        Unread::NoSlashes => true,
        Unread::OtherLength => true,
        Unread::BadLetter => true,
        Unread::TooDeep => true,
        Unread::StrayLetter => true,
    }
}

// The place of the trouble, if the record at `at` is not read for it.
fn trouble_at(s: &[u8], at: usize, why: Unread) -> usize
    requires { (at ≤ length s.now) × (length s.now ≤ most) }
    ensures { Found s.now at why result }
{
    match why {
        Unread::AtEnd => s.len(),
        Unread::Unended => s.len(),
        Unread::BadPlace => s.len(),
        Unread::NoLocus => read_preamble::search_at(s, at),
        Unread::TwoDefinitions => second_definition(s, at),
        Unread::NoSlashes => sections(s, at, false),
        Unread::OtherLength => sections(s, at, false),
        Unread::BadLetter => sections(s, at, false),
        Unread::TooDeep => deep_location(s, at),
        Unread::StrayLetter => sections(s, at, true),
    }
}

// ---- the line

fn no_spot() -> Spot
    ensures { result ≡ nowhere }
{
    Spot { line: 0, offset: 0 }
}

// The LOCUS line.
fn locus_spot(s: &[u8], at: usize) -> Spot
    requires { at ≤ length s.now }
    ensures { result ≡ spot_of s.now at (searched (drop at s.now)) }
{
    let place = read_preamble::search_at(s, at);
    scan_spot::spot_at(s, at, place)
}

fn refusal_spot(s: &[u8], at: usize, why: Unread) -> Spot
    requires { (at ≤ length s.now) × (length s.now ≤ most) }
    ensures { SpotTold s.now at (answers.Refused why) result }
{
    if !has_line(why) {
        return no_spot();
    }
    let trouble = trouble_at(s, at, why);
    scan_spot::spot_at(s, at, trouble)
}

fn answer_spot(s: &[u8], at: usize, answer: ReadAnswer) -> Spot
    requires { (at ≤ length s.now) × (length s.now ≤ most) }
    ensures { SpotTold s.now at answer result }
{
    match answer {
        ReadAnswer::Done { head: _, place: _ } => no_spot(),
        ReadAnswer::Refused(why) => refusal_spot(s, at, why),
        ReadAnswer::Room(_) => locus_spot(s, at),
    }
}

// The line that the reader's answer tells. A success costs two comparisons.
pub fn spot_told(s: &[u8], at: usize, answer: ReadAnswer) -> Spot
    ensures { SpotTold s.now at answer result }
{
    if MOST < s.len() {
        return no_spot();
    }
    if s.len() < at {
        return no_spot();
    }
    answer_spot(s, at, answer)
}
