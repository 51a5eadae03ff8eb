// All of reading a record into rooms but its features: the answer, what else the rooms hold, and from where on how many features are still to be put.
#![tactic(auto)]

ghost use Rattle.std.specs.Prelude.{◌≡◌, ◌*◌, ◌<◌, ◌^◌, length};
ghost use Rattle.read_record_plan.specs.Plans.{Ready};
ghost use Rattle.read_record_sizes.specs.Sizing.{contig_place};
ghost use Rattle.read_record_prepared.specs.Prepares.{no_rows, all_rows, Planned, Prepares};

use read_record_plan::{Plan, PlanAt};
use spec_format::{MOST, ReadAnswer, Unread};

// The features that are still to be put, and the answer that holds with them: `count` of them, which are read from `at` on, and their texts put from `place` on.
#[derive(Clone, Copy)]
pub struct Prepared {
    pub at: usize,
    pub place: usize,
    pub count: usize,
    pub answer: ReadAnswer,
}

// No feature is put for an answer that changes nothing: none stands at the slice's end.
fn no_rows(s: &[u8], answer: ReadAnswer) -> Prepared
    ensures { result ≡ no_rows (length s.now) answer }
{
    Prepared {
        at: s.len(),
        place: 0,
        count: 0,
        answer: answer,
    }
}

// All features of a record whose other parts are put; their texts go from a place on.
fn all_rows(plan: Plan, place: usize) -> Prepared
    requires { contig_place plan < 2 ^ 64 }
    ensures { result ≡ all_rows plan place }
{
    let rest = plan.rest;
    let counts = rest.features;
    let answer = ReadAnswer::Done {
        head: read_record_sizes::head_in(plan),
        place: rest.place,
    };
    Prepared {
        at: rest.features_at,
        place: place,
        count: counts.count,
        answer: answer,
    }
}

// A record that was planned, where there is room for so many rows of features and so many numbers of qualifiers.
fn planned(
    s: &[u8],
    plan: Plan,
    texts: &mut [u8],
    references: &mut [usize],
    comments: &mut [usize],
    rows: usize,
    qualifiers: usize,
    locations: &mut [usize],
    letters: &mut [u8],
) -> Prepared
    requires { Ready s.now plan × (8 * rows < 2 ^ 64) }
    ensures { Planned s.now plan texts.old texts.new references.old references.new comments.old comments.new rows qualifiers locations.old locations.new letters.old letters.new result }
{
    let n = read_record_sizes::sizes_of(plan);
    if !read_record_sizes::enough(
        n,
        texts.len(),
        references.len(),
        comments.len(),
        8 * rows,
        qualifiers,
        locations.len(),
        letters.len(),
    ) {
        return no_rows(s, ReadAnswer::Room(n));
    }
    let place = read_record_frame::fill_around(
        s, plan, texts, references, comments, locations, letters,
    );
    all_rows(plan, place)
}

// The record at a place of a slice, with the strict switch or without.
pub fn prepare(
    s: &[u8],
    at: usize,
    strict: bool,
    texts: &mut [u8],
    references: &mut [usize],
    comments: &mut [usize],
    rows: usize,
    qualifiers: usize,
    locations: &mut [usize],
    letters: &mut [u8],
) -> Prepared
    requires { 8 * rows < 2 ^ 64 }
    ensures { Prepares strict s.now at texts.old texts.new references.old references.new comments.old comments.new rows qualifiers locations.old locations.new letters.old letters.new result }
{
    if MOST < s.len() {
        return no_rows(s, ReadAnswer::Refused(Unread::BadPlace));
    }
    if s.len() < at {
        return no_rows(s, ReadAnswer::Refused(Unread::BadPlace));
    }
    if s.len() <= at {
        return no_rows(s, ReadAnswer::Refused(Unread::AtEnd));
    }
    match read_record_plan::plan_at(s, at, strict) {
        PlanAt::Refused(why) => no_rows(s, ReadAnswer::Refused(why)),
        PlanAt::Ready(plan) => planned(
            s, plan, texts, references, comments, rows, qualifiers, locations, letters,
        ),
    }
}
