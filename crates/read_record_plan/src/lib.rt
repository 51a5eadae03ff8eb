// `read_one_record` of stream_parser.rs without rooms: where the parts of a record stand and how long they are, or why there is no record. Nothing is written.
#![tactic(auto)]

ghost use Rattle.std.specs.Prelude.{◌≡◌, ◌≤◌, length, drop};
ghost use Rattle.spec_format.specs.Record.{most};
ghost use Rattle.spec_format.specs.Strict.{record_by};
ghost use Rattle.read_locus.specs.Plans.{planned, PlanEnds};
ghost use Rattle.read_record_plan.specs.Plans.{length_in, rest_then, Rests, header_then, locus_then, Plans};

use read_feature_table::Features;
use read_field_all::Header;
use read_field_optional::MayEntry;
use read_locus::LocusPlan;
use read_locus_at::LocusAt;
use read_origin::EndAt;
use read_record_middle::MiddleAt;
use scan_bytes::Step;
use spec_format::Unread;

// What stands after the header, up to `place`.
#[derive(Clone, Copy)]
pub struct Rest {
    pub features_at: usize,
    pub features: Features,
    pub contig: MayEntry,
    pub contig_rows: usize,
    pub letters_at: usize,
    pub letters: usize,
    pub place: usize,
}

#[derive(Clone, Copy)]
pub enum RestAt {
    Got(Rest),
    Refused(Unread),
}

// A record: the values of LOCUS, the header at `header_at`, and what stands after it.
#[derive(Clone, Copy)]
pub struct Plan {
    pub locus: LocusPlan,
    pub header_at: usize,
    pub header: Header,
    pub rest: Rest,
}

#[derive(Clone, Copy)]
pub enum PlanAt {
    Ready(Plan),
    Refused(Unread),
}

// The length that LOCUS gives.
fn locus_length(plan: LocusPlan) -> Option<u32>
    ensures { result ≡ length_in plan }
{
    match plan {
        LocusPlan::Unknown => None,
        LocusPlan::Known {
            name: _,
            length,
            molecule: _,
            circular: _,
            division: _,
            date: _,
        } => Some(length),
    }
}

// All that follows the header.
fn rest_at(s: &[u8], at: usize, given: Option<u32>, strict: bool) -> RestAt
    requires { (at ≤ length s.now) × (length s.now ≤ most) }
    ensures { Rests s.now given (rest_then strict (drop at s.now)) result }
{
    match read_record_middle::middle_at(s, at) {
        MiddleAt::Cut => RestAt::Refused(Unread::Unended),
        MiddleAt::Deep => RestAt::Refused(Unread::TooDeep),
        MiddleAt::Got {
            features_at,
            features: counts,
            contig,
            contig_rows,
            next,
        } => match read_origin::end_at(s, next, given, strict) {
            EndAt::Refused(why) => RestAt::Refused(why),
            EndAt::Got {
                letters_at,
                letters,
                place,
            } => RestAt::Got(Rest {
                features_at,
                features: counts,
                contig,
                contig_rows,
                letters_at,
                letters,
                place,
            }),
        },
    }
}

// All that follows LOCUS.
fn plan_header(s: &[u8], at: usize, plan: LocusPlan, strict: bool) -> PlanAt
    requires { (at ≤ length s.now) × (length s.now ≤ most) × PlanEnds (length s.now) plan }
    ensures { Plans s.now (header_then strict (planned s.now plan) (drop at s.now)) result }
{
    let header = read_field_all::header_at(s, at);
    if header.twice {
        return PlanAt::Refused(Unread::TwoDefinitions);
    }
    match rest_at(s, header.next, locus_length(plan), strict) {
        RestAt::Refused(why) => PlanAt::Refused(why),
        RestAt::Got(rest) => PlanAt::Ready(Plan {
            locus: plan,
            header_at: at,
            header,
            rest,
        }),
    }
}

// From LOCUS on.
fn plan_locus(s: &[u8], at: usize, strict: bool) -> PlanAt
    requires { (at ≤ length s.now) × (length s.now ≤ most) }
    ensures { Plans s.now (locus_then strict (drop at s.now)) result }
{
    match read_locus_at::locus_at(s, at) {
        LocusAt::Got { plan, next } => plan_header(s, next, plan, strict),
        LocusAt::No => PlanAt::Refused(Unread::NoLocus),
        LocusAt::Cut => PlanAt::Refused(Unread::Unended),
    }
}

// With the strict switch a letter without a code is a trouble, too.
pub fn plan_at(s: &[u8], at: usize, strict: bool) -> PlanAt
    requires { (at ≤ length s.now) × (length s.now ≤ most) }
    ensures { Plans s.now (record_by strict (drop at s.now)) result }
{
    match read_preamble::preamble_at(s, at) {
        Step::Got(next) => plan_locus(s, next, strict),
        Step::No => PlanAt::Refused(Unread::NoLocus),
        Step::Cut => PlanAt::Refused(Unread::NoLocus),
    }
}
