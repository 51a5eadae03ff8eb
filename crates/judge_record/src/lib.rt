// Number 12; and numbers 11 and 13 of all but the features and CONTIG, of a table in rooms for which number 10 is not due.
#![tactic(auto)]

ghost use Rattle.std.specs.Prelude.{◌≡◌, []};
ghost use Rattle.spec_format.specs.Rooms.{may_length, table_of};
ghost use Rattle.spec_format.specs.WellFormed.{width_fine, date_fine, letters_fine};
ghost use Rattle.spec_format.specs.Keeping.{locus_kept};
ghost use Rattle.judge_rooms.specs.Parts.{reference_rooms};
ghost use Rattle.judge_rooms.specs.Facts.{HeadIn};
ghost use Rattle.judge_record.specs.Rest.{rest_table, RestKnown};
ghost use Rattle.judge_record.specs.Rules.{locus_prints, well_formed_if, keeps_rules};

use judge_header::{Rule, header_passes, pubmeds_kept};
use judge_rooms::span_text;
use judge_text::{letters_all, printing_all, without, without_spaces};
use spec_format::{Date, Head};

pub fn width_fine(width: usize) -> bool
    ensures { result ≡ width_fine width }
{
    (60..=132).contains(&width)
}

fn date_fine(date: Option<Date>) -> bool
    ensures { result ≡ date_fine date }
{
    date.is_none_or(|on| Date::from(on.day, on.month, on.year).is_some())
}

// Letters, and as many as the length says, where it says a number.
#[tactic(auto, unfolding(spec_format::specs::WellFormed::letters_fine))]
fn letters_fine(length: Option<u32>, letters: &[u8]) -> bool
    ensures { result ≡ letters_fine (may_length length) letters.now }
{
    letters.is_empty() || letters_all(letters) && length.is_none_or(|l| l as usize == letters.len())
}

#[tactic(auto, unfolding(spec_format::specs::Rooms::table_of))]
fn locus_prints(texts: &[u8], head: Head) -> bool
    requires { HeadIn texts.now head }
    ensures { result ≡ locus_prints (table_of (reference_rooms texts.now []) head).locus }
{
    printing_all(span_text(texts, head.division))
        && head
            .molecule
            .is_none_or(|s| printing_all(span_text(texts, s)))
        && date_fine(head.date)
}

#[tactic(auto, unfolding(spec_format::specs::Rooms::table_of, spec_format::specs::Keeping::locus_kept))]
fn locus_kept(texts: &[u8], head: Head) -> bool
    requires { HeadIn texts.now head }
    ensures { result ≡ locus_kept (table_of (reference_rooms texts.now []) head).locus }
{
    head.name.is_some()
        && head.length.is_some()
        && head.date.is_some()
        && head.name.is_none_or(|s| without(span_text(texts, s), b':'))
        && head
            .name
            .is_none_or(|s| without_spaces(span_text(texts, s)))
        && without_spaces(span_text(texts, head.division))
        && head
            .molecule
            .is_none_or(|s| without_spaces(span_text(texts, s)))
}

// Number 11 is not due for anything but the features and CONTIG, where `named` says whether the printed name is fine.
pub fn well_formed(
    width: usize,
    named: bool,
    texts: &[u8],
    references: &[usize],
    comments: &[usize],
    letters: &[u8],
    head: Head,
) -> bool
    requires { RestKnown texts.now references.now comments.now letters.now head }
    ensures { result ≡ well_formed_if named width (rest_table texts.now references.now comments.now letters.now head) }
{
    named
        && locus_prints(texts, head)
        && header_passes(Rule::Fine(width), texts, references, comments, head)
        && letters_fine(head.length, &letters[..head.letters])
}

// Number 13 is not due for anything but the features.
pub fn keeps(
    width: usize,
    truncate: bool,
    escape: bool,
    texts: &[u8],
    references: &[usize],
    comments: &[usize],
    letters: &[u8],
    head: Head,
) -> bool
    requires { RestKnown texts.now references.now comments.now letters.now head }
    ensures { result ≡ keeps_rules width truncate escape (rest_table texts.now references.now comments.now letters.now head) }
{
    !truncate
        && !escape
        && locus_kept(texts, head)
        && header_passes(Rule::Kept(width), texts, references, comments, head)
        && pubmeds_kept(texts, references, head.references)
}
