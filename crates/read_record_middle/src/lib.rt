// What stands between the header and ORIGIN, each part of which may be missing: the feature table, BASE COUNT, which is dropped, and CONTIG. Nothing is written.
#![tactic(auto)]

ghost use Rattle.std.specs.Prelude.{◌≤◌, length, drop};
ghost use Rattle.spec_format.specs.Record.{deep_in, middle};
ghost use Rattle.read_feature_table.specs.Reads.{features_in, FeaturesRead};
ghost use Rattle.read_contig.specs.Contigs.{ContigRead};
ghost use Rattle.read_record_middle.specs.Middles.{deep_part, contig_part, middle_from, deep_table, Middles};

use read_contig::ContigAt;
use read_feature_table::Features;
use read_field_optional::{MayEntry, MayEntryAt};
use scan_bytes::Step;

// The features from `features_at` on, CONTIG's text and how many rows it has, and the place after them all; or number 14. Without a feature table `features_at` is
// the slice's end, where none are.
#[derive(Clone, Copy)]
pub enum MiddleAt {
    Got {
        features_at: usize,
        features: Features,
        contig: MayEntry,
        contig_rows: usize,
        next: usize,
    },
    Cut,
    Deep,
}

// BASE COUNT and CONTIG.
fn contig_part(s: &[u8], at: usize) -> ContigAt
    requires { (at ≤ length s.now) × (length s.now ≤ 16777216) }
    ensures { ContigRead s.now (deep_part (drop at s.now)) (contig_part (drop at s.now)) result }
{
    match read_field_optional::may_field_at(s, at, 0, b"BASE COUNT", false) {
        MayEntryAt::Cut => ContigAt::Cut,
        MayEntryAt::Got { entry: _, next } => read_contig::contig_at(s, next),
    }
}

// The same, with features that were counted already and start at `first`.
fn middle_from(s: &[u8], at: usize, first: usize, counts: Features) -> MiddleAt
    requires { (at ≤ length s.now) × (length s.now ≤ 16777216) × (first ≤ length s.now) × FeaturesRead s.now first (features_in (drop first s.now)) counts }
    ensures { Middles s.now (deep_part (drop at s.now)) (middle_from (features_in (drop first s.now)) (drop at s.now)) result }
{
    match contig_part(s, at) {
        ContigAt::Cut => MiddleAt::Cut,
        ContigAt::Deep => MiddleAt::Deep,
        ContigAt::Got { entry, rows, next } => MiddleAt::Got {
            features_at: first,
            features: counts,
            contig: entry,
            contig_rows: rows,
            next,
        },
    }
}

// The same after a feature table. Where its features end, a feature that is too deep is number 14.
fn table_from(s: &[u8], first: usize, counts: Features) -> MiddleAt
    requires { (length s.now ≤ 16777216) × (first ≤ length s.now) × FeaturesRead s.now first (features_in (drop first s.now)) counts }
    ensures { Middles s.now (deep_table (drop counts.next s.now)) (middle_from (features_in (drop first s.now)) (drop counts.next s.now)) result }
{
    let end = counts.next;
    if read_feature_location::deep_feature_at(s, end) {
        return MiddleAt::Deep;
    }
    middle_from(s, end, first, counts)
}

pub fn middle_at(s: &[u8], at: usize) -> MiddleAt
    requires { (at ≤ length s.now) × (length s.now ≤ 16777216) }
    ensures { Middles s.now (deep_in (drop at s.now)) (middle (drop at s.now)) result }
{
    match read_feature_names::features_header(s, at) {
        Step::Got(first) => table_from(s, first, read_feature_table::features_at(s, first)),
        Step::No => {
            let end = s.len();
            middle_from(s, at, end, read_feature_table::features_at(s, end))
        }
        Step::Cut => MiddleAt::Cut,
    }
}
