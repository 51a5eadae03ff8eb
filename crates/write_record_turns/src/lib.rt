// The turns of the writer. The feature rows are gone through twice, in one loop: first each is judged and measured, then,
// where the record is to be written, each is put. What a turn does is decided by a state that is passed by value, so the loop itself only fetches rows.
#![tactic(auto)]

ghost use Rattle.std.specs.Prelude.{◌≡◌, [], ◌≤◌};
ghost use Rattle.judge_feature.specs.Rules.{FeatureKnown};
ghost use Rattle.base_rows.specs.Rows.{numbers};
ghost use Rattle.base_rows.specs.declared.Feature.{Feature};
ghost use Rattle.judge_rooms.specs.Facts.{ContigIn};
ghost use Rattle.judge_rooms.specs.Parts.{rest_head};
ghost use Rattle.judge_record.specs.Rest.{Passed};
ghost use Rattle.write_record_parts.specs.Parts.{BeforeKnown, AfterKnown};
ghost use Rattle.write_record_turns.specs.Answered.{asking};
ghost use Rattle.write_record_turns.specs.States.{ended_state, staged_state, Small, Begins, Starts, JudgesTold, Judges, Decides, Puts, Ends, Steady, Steps};
ghost use Rattle.spec_format.specs.Rooms.{rooms_in};
ghost use Rattle.spec_format.specs.Record.{most};

use base_arith::both;
use base_rows::Feature;
use judge_header::Rule;
use judge_location::{contig_told, location_told};
use judge_record::width_fine;
use judge_rooms::rest_fine;
use spec_format::{Head, How, MOST, Unwritten, WriteAnswer};
use write_feature_row::{put_row_lines, row_kept, row_next, row_passes};
use write_record_parts::{put_after, put_before, rest_head, rest_verdict};

// How far the work has come.
#[derive(Clone, Copy)]
pub struct State {
    // There is more to do; where there is not, the answer stands.
    pub going: bool,
    // Rows are put; before that they are judged and measured.
    pub putting: bool,
    // The row that is next.
    pub row: usize,
    // The place reached in the record.
    pub at: usize,
    // Where the qualifiers of that row may start.
    pub from: usize,
    // Neither CONTIG nor a row so far has what number 11, number 13 is given for.
    pub fine: bool,
    pub kept: bool,
    pub answer: WriteAnswer,
}

fn ended(answer: WriteAnswer) -> State
    ensures { result ≡ ended_state answer }
{
    State {
        going: false,
        putting: false,
        row: 0,
        at: 0,
        from: 0,
        fine: true,
        kept: true,
        answer: answer,
    }
}

fn refused(why: Unwritten) -> State
    ensures { result ≡ ended_state (WriteAnswer.Refused why) }
{
    ended(WriteAnswer::Refused(why))
}

fn staged(putting: bool, row: usize, at: usize, from: usize, fine: bool, kept: bool) -> State
    ensures { result ≡ staged_state putting row at from fine kept }
{
    let none = WriteAnswer::Done(0);
    State {
        going: true,
        putting: putting,
        row: row,
        at: at,
        from: from,
        fine: fine,
        kept: kept,
        answer: none,
    }
}

// Number 10 of CONTIG; else the work begins, with what stands before the features.
fn begin(
    told: Option<bool>,
    texts: &[u8],
    references: &[usize],
    comments: &[usize],
    head: Head,
    how: How,
) -> State
    requires { BeforeKnown texts.now references.now comments.now (rest_head head) how.width }
    ensures { Begins told texts.now references.now comments.now head how result }
{
    let Some(read) = told else {
        return refused(Unwritten::BadRooms);
    };
    let rest = rest_head(head);
    let at = put_before(
        &mut [],
        texts,
        references,
        comments,
        rest,
        head.features,
        how,
    );
    staged(false, 0, at, 0, read, true)
}

// Number 12, or number 10 of all but the rows; else the work begins.
pub fn start(
    rows: usize,
    texts: &[u8],
    references: &[usize],
    comments: &[usize],
    qualifiers: &[usize],
    locations: &[usize],
    letters: &[u8],
    head: Head,
    how: How,
) -> State
    ensures { Starts rows (asking texts.now references.now comments.now qualifiers.now locations.now letters.now head how) result }
{
    if !width_fine(how.width) {
        return refused(Unwritten::BadWidth);
    }
    if !rest_fine(
        texts, references, comments, qualifiers, locations, letters, head,
    ) {
        return refused(Unwritten::BadRooms);
    }
    if !both(rows <= MOST, head.features <= rows) {
        return refused(Unwritten::BadRooms);
    }
    let contig = head.contig;
    let told = contig_told(texts, locations, contig);
    begin(told, texts, references, comments, head, how)
}

// Number 10 of a row's location; else the row, whose qualifiers end at `next`, is judged and measured.
fn judge_told(
    s: State,
    row: Feature,
    next: usize,
    told: Option<bool>,
    texts: &[u8],
    qualifiers: &[usize],
    how: How,
) -> State
    requires { FeatureKnown texts.now (numbers row) qualifiers.now 0 × (60 ≤ how.width) × (how.width ≤ 132) × (s.row ≤ most) }
    ensures { JudgesTold texts.now qualifiers.now how s row next told result }
{
    let Some(read) = told else {
        return refused(Unwritten::BadRooms);
    };
    let width = how.width;
    let formed = both(read, row_passes(Rule::Fine(width), row, texts, qualifiers));
    let fine = both(s.fine, formed);
    let kept = both(s.kept, row_kept(how.keeping, width, row, texts, qualifiers));
    let at = put_row_lines(&mut [], s.at, row, texts, qualifiers, width);
    staged(false, s.row + 1, at, next, fine, kept)
}

// A row is judged and measured.
fn judge_row(
    s: State,
    row: Feature,
    texts: &[u8],
    qualifiers: &[usize],
    locations: &[usize],
    how: How,
) -> State
    requires { Small texts.now locations.now × (60 ≤ how.width) × (how.width ≤ 132) × (s.row ≤ most) }
    ensures { Judges texts.now qualifiers.now locations.now how s (Some row) result }
{
    let Some(next) = row_next(row, texts, qualifiers, s.from) else {
        return refused(Unwritten::BadRooms);
    };
    let location = row.location;
    let told = location_told(texts, location, false, locations, row.row, row.rows);
    judge_told(s, row, next, told, texts, qualifiers, how)
}

fn judge_fetched(
    s: State,
    fetched: Option<Feature>,
    texts: &[u8],
    qualifiers: &[usize],
    locations: &[usize],
    how: How,
) -> State
    requires { Small texts.now locations.now × (60 ≤ how.width) × (how.width ≤ 132) × (s.row ≤ most) }
    ensures { Judges texts.now qualifiers.now locations.now how s fetched result }
{
    match fetched {
        None => refused(Unwritten::BadRooms),
        Some(row) => judge_row(s, row, texts, qualifiers, locations, how),
    }
}

fn put_fetched(
    out: &mut [u8],
    s: State,
    fetched: Option<Feature>,
    texts: &[u8],
    qualifiers: &[usize],
    how: How,
) -> State
    requires { ((x : Feature) → fetched ≡ Some x → FeatureKnown texts.now (numbers x) qualifiers.now 0) × (60 ≤ how.width) × (how.width ≤ 132) × (s.row ≤ most) }
    ensures { Puts texts.now qualifiers.now how s fetched out.old result out.new }
{
    match fetched {
        None => refused(Unwritten::BadRooms),
        Some(row) => {
            let at = put_row_lines(out, s.at, row, texts, qualifiers, how.width);
            staged(true, s.row + 1, at, 0, true, true)
        }
    }
}

// The rows are judged: number 11, 13 or 6; else what stands before the features is put.
fn decide(
    out: &mut [u8],
    s: State,
    texts: &[u8],
    references: &[usize],
    comments: &[usize],
    qualifiers: &[usize],
    locations: &[usize],
    letters: &[u8],
    head: Head,
    how: How,
) -> State
    requires { Passed how.width (rooms_in texts.now references.now comments.now [] qualifiers.now locations.now letters.now) (rest_head head) × ContigIn texts.now head.contig }
    ensures { Decides (asking texts.now references.now comments.now qualifiers.now locations.now letters.now head how) s out.old result out.new }
{
    let rest = rest_head(head);
    let verdict = rest_verdict(
        s.fine, s.kept, texts, references, comments, letters, rest, how,
    );
    match verdict {
        Err(why) => refused(why),
        Ok(()) => {
            let n = put_after(&mut [], s.at, texts, letters, head, how.width);
            if out.len() < n {
                return ended(WriteAnswer::Room(n));
            }
            let at = put_before(out, texts, references, comments, rest, head.features, how);
            staged(true, 0, at, 0, true, true)
        }
    }
}

// The rows are put: what stands behind them is put too.
fn end(out: &mut [u8], s: State, texts: &[u8], letters: &[u8], head: Head, how: How) -> State
    requires { AfterKnown texts.now letters.now head how.width }
    ensures { Ends texts.now letters.now head how s out.old result out.new }
{
    let n = put_after(out, s.at, texts, letters, head, how.width);
    ended(WriteAnswer::Done(n))
}

// One turn, with the row that is next.
pub fn step(
    out: &mut [u8],
    s: State,
    fetched: Option<Feature>,
    texts: &[u8],
    references: &[usize],
    comments: &[usize],
    qualifiers: &[usize],
    locations: &[usize],
    letters: &[u8],
    head: Head,
    how: How,
) -> State
    requires { Steady (asking texts.now references.now comments.now qualifiers.now locations.now letters.now head how) s fetched }
    ensures { Steps (asking texts.now references.now comments.now qualifiers.now locations.now letters.now head how) s fetched out.old result out.new }
{
    if s.row < head.features {
        if s.putting {
            return put_fetched(out, s, fetched, texts, qualifiers, how);
        }
        return judge_fetched(s, fetched, texts, qualifiers, locations, how);
    }
    if s.putting {
        return end(out, s, texts, letters, head, how);
    }
    decide(
        out, s, texts, references, comments, qualifiers, locations, letters, head, how,
    )
}
