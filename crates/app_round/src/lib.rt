// A record read into rows of features that are structs, and written again from them. The rows are its own, so whoever calls it has plain parameters.
#![tactic(auto)]

ghost use Rattle.std.specs.Prelude.{◌≡◌};
ghost use Rattle.base_rows.specs.Rows.{flat};
ghost use Rattle.spec_contracts.specs.Rounds.{empty_head, empty_rows, head_of, how_after, Rounds};
ghost use Rattle.spec_format.specs.Rooms.{rooms_in};

use base_rows::Feature;
use spec_contracts::Reported;
use spec_format::{Head, How, ReadAnswer, Span, WriteAnswer};

// What the reader answered, with the line that it tells, and then the writer.
#[derive(Clone, Copy)]
pub struct Round {
    pub read: Reported,
    pub wrote: WriteAnswer,
}

fn no_rows() -> [Feature; 8192]
    ensures { result ≡ empty_rows }
{
    let no = Span {
        start: 0,
        length: 0,
    };
    [Feature {
        kind: no,
        location: no,
        first: 0,
        count: 0,
        row: 0,
        rows: 0,
    }; 8192]
}

fn no_head() -> Head
    ensures { result ≡ empty_head }
{
    Head {
        name: None,
        length: None,
        molecule: None,
        circular: false,
        division: Span {
            start: 0,
            length: 0,
        },
        date: None,
        definition: None,
        accession: None,
        version: None,
        dblink: None,
        keywords: None,
        source: None,
        references: 0,
        comments: 0,
        features: 0,
        contig: None,
        letters: 0,
    }
}

// The head of the record that was read; one without anything where none was.
fn head_of(answer: ReadAnswer) -> Head
    ensures { result ≡ head_of answer }
{
    match answer {
        ReadAnswer::Done { head, place: _ } => head,
        ReadAnswer::Refused(_) => no_head(),
        ReadAnswer::Room(_) => no_head(),
    }
}

// How to write what was read: as asked, or, where nothing was, at a width of 0, which no writer takes.
fn how_after(answer: ReadAnswer, how: How) -> How
    ensures { result ≡ how_after answer how }
{
    let not_at_all = How { width: 0, ..how };
    match answer {
        ReadAnswer::Done { head: _, place: _ } => how,
        ReadAnswer::Refused(_) => not_at_all,
        ReadAnswer::Room(_) => not_at_all,
    }
}

// Reads the record at a place of a slice into the rooms, strictly or not, and writes it again from them, as `how` says. It has no branch: where nothing was read, the writer refuses by 12 and
// leaves its slice as it was.
pub fn read_and_write(
    s: &[u8],
    at: usize,
    strict: bool,
    texts: &mut [u8],
    references: &mut [usize],
    comments: &mut [usize],
    qualifiers: &mut [usize],
    locations: &mut [usize],
    letters: &mut [u8],
    out: &mut [u8],
    how: How,
) -> Round
    ensures { Rounds strict s.now at (rooms_in texts.old references.old comments.old (flat empty_rows) qualifiers.old locations.old letters.old) how texts.new references.new comments.new qualifiers.new locations.new letters.new out.old out.new result.read result.wrote }
{
    let mut rows = no_rows();
    let read = read_record::read(
        s, at, strict, texts, references, comments, &mut rows, qualifiers, locations, letters,
    );
    let head = head_of(read.answer);
    let after = how_after(read.answer, how);
    let wrote = write_record::write(
        out, texts, references, comments, &rows, qualifiers, locations, letters, head, after,
    );
    Round { read, wrote }
}
