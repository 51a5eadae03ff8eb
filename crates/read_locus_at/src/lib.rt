// `locus` of locus.rs: the word, blanks, and the rest of the line, whose values `locus` takes apart.
#![tactic(auto)]

ghost use Rattle.std.specs.Prelude.{◌≡◌, ◌≤◌, length, drop};
ghost use Rattle.spec_format.specs.Locus.{locus};
ghost use Rattle.read_locus_at.specs.Reads.{locus_rest, locus_gap, LocusRead};

use read_locus::LocusPlan;
use scan_bytes::{Line, Step};

// The values of a LOCUS line and the place after it; or no, or cut.
#[derive(Clone, Copy)]
pub enum LocusAt {
    Got { plan: LocusPlan, next: usize },
    No,
    Cut,
}

// The line after its word and blanks.
fn locus_rest(s: &[u8], at: usize) -> LocusAt
    requires { at ≤ length s.now }
    ensures { LocusRead s.now at (locus_rest (drop at s.now)) result }
{
    match scan_bytes::line_at(s, at) {
        Line::Got { end, next } => LocusAt::Got {
            plan: read_locus::locus_line(s, at, end),
            next,
        },
        Line::No => LocusAt::No,
        Line::Cut => LocusAt::Cut,
    }
}

// The blanks before it.
fn locus_gap(s: &[u8], at: usize) -> LocusAt
    requires { at ≤ length s.now }
    ensures { LocusRead s.now at (locus_gap (drop at s.now)) result }
{
    match scan_bytes::blanks1(s, at) {
        Step::Got(next) => locus_rest(s, next),
        Step::No => LocusAt::No,
        Step::Cut => LocusAt::Cut,
    }
}

// The LOCUS line.
pub fn locus_at(s: &[u8], at: usize) -> LocusAt
    requires { at ≤ length s.now }
    ensures { LocusRead s.now at (locus (drop at s.now)) result }
{
    match scan_bytes::tag(s, at, b"LOCUS") {
        Step::Got(next) => locus_gap(s, next),
        Step::No => LocusAt::No,
        Step::Cut => LocusAt::Cut,
    }
}
