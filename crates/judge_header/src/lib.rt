// The tests that numbers 11 and 13 make of header texts, of a table in rooms.
#![tactic(auto)]

ghost use Rattle.std.specs.Prelude.{◌≡◌, [], ◌+◌, ◌≤◌, ◌<◌, length};
ghost use Rattle.spec_format.specs.Bytes.{all};
ghost use Rattle.spec_format.specs.Rooms.{may_text, may_source, text_in, perhaps_in, rows_from, reference_in, comment_in, table_of, rooms_in};
ghost use Rattle.spec_format.specs.WellFormed.{if_is, source_texts, reference_texts, header_texts};
ghost use Rattle.spec_format.specs.Keeping.{pubmed_kept};
ghost use Rattle.judge_rooms.specs.Parts.{reference_rooms, comment_rooms};
ghost use Rattle.judge_rooms.specs.Facts.{TextIn, SourceIn, ReferenceIn};
ghost use Rattle.judge_header.specs.Rules.{header_of, RowKnown, PerhapsKnown, ReferencesKnown, CommentsKnown, HeaderKnown};
ghost use Rattle.spec_format.specs.Record.{most};

use judge_rooms::{perhaps_in, span_text, text_in};
use judge_text::{header_kept, without};
use scan_utf8::utf8_ok;
use spec_format::{Head, SourceText, Span};

// A text that can be laid out at a width, or one that is read back as it was.
// Stays: no plainer as a closure or a trait: what it promises of each text would stand in every contract below, where `header_of rule` says it.
#[derive(Clone, Copy)]
pub enum Rule {
    Fine(usize),
    Kept(usize),
}

fn header_text(rule: Rule, text: &[u8]) -> bool
    requires { length text.now ≤ most }
    ensures { result ≡ header_of rule text.now }
{
    match rule {
        Rule::Fine(_) => utf8_ok(text, 0, text.len()),
        Rule::Kept(width) => header_kept(width, text),
    }
}

fn text_passes(rule: Rule, texts: &[u8], text: Option<Span>) -> bool
    requires { (length texts.now ≤ most) × TextIn texts.now text }
    ensures { result ≡ if_is (header_of rule) (may_text texts.now text) }
{
    text.is_none_or(|s| header_text(rule, span_text(texts, s)))
}

fn source_passes(rule: Rule, texts: &[u8], source: Option<SourceText>) -> bool
    requires { (length texts.now ≤ most) × SourceIn texts.now source }
    ensures { result ≡ if_is (source_texts (header_of rule)) (may_source texts.now source) }
{
    source.is_none_or(|s| {
        header_text(rule, span_text(texts, s.text)) && text_passes(rule, texts, s.organism)
    })
}

fn row_passes(rule: Rule, texts: &[u8], rows: &[usize], at: usize) -> bool
    requires { RowKnown texts.now rows.now at }
    ensures { result ≡ header_of rule (text_in texts.now rows.now at) }
{
    header_text(rule, text_in(texts, rows, at))
}

fn row_may_pass(rule: Rule, texts: &[u8], rows: &[usize], at: usize) -> bool
    requires { PerhapsKnown texts.now rows.now at }
    ensures { result ≡ if_is (header_of rule) (perhaps_in texts.now rows.now at) }
{
    perhaps_in(texts, rows, at).is_none_or(|t| header_text(rule, t))
}

#[tactic(auto, unfolding(spec_format::specs::WellFormed::reference_texts, spec_format::specs::Rooms::reference_in))]
fn reference_passes(rule: Rule, texts: &[u8], references: &[usize], at: usize) -> bool
    requires { (length texts.now ≤ most) × (at + 13 < length references.now) × ReferenceIn texts.now references.now at }
    ensures { result ≡ reference_texts (header_of rule) (reference_in (reference_rooms texts.now references.now) at) }
{
    row_passes(rule, texts, references, at)
        && row_may_pass(rule, texts, references, at + 2)
        && row_may_pass(rule, texts, references, at + 4)
        && row_passes(rule, texts, references, at + 6)
        && row_may_pass(rule, texts, references, at + 8)
        && row_may_pass(rule, texts, references, at + 10)
        && row_may_pass(rule, texts, references, at + 12)
}

fn references_pass(rule: Rule, texts: &[u8], references: &[usize], n: usize) -> bool
    requires { ReferencesKnown texts.now references.now n }
    ensures { result ≡ all (reference_texts (header_of rule)) (rows_from (reference_in (reference_rooms texts.now references.now)) 14 0 n) }
{
    (0..n).all(|i| reference_passes(rule, texts, references, 14 * i))
}

fn comments_pass(rule: Rule, texts: &[u8], comments: &[usize], n: usize) -> bool
    requires { CommentsKnown texts.now comments.now n }
    ensures { result ≡ all (header_of rule) (rows_from (comment_in (comment_rooms texts.now comments.now)) 2 0 n) }
{
    (0..n).all(|i| row_passes(rule, texts, comments, 2 * i))
}

// Each header text of the table passes.
pub fn header_passes(
    rule: Rule,
    texts: &[u8],
    references: &[usize],
    comments: &[usize],
    head: Head,
) -> bool
    requires { HeaderKnown texts.now references.now comments.now head }
    ensures { result ≡ header_texts (header_of rule) (table_of (rooms_in texts.now references.now comments.now [] [] [] []) head) }
{
    text_passes(rule, texts, head.definition)
        && text_passes(rule, texts, head.accession)
        && text_passes(rule, texts, head.version)
        && text_passes(rule, texts, head.dblink)
        && text_passes(rule, texts, head.keywords)
        && source_passes(rule, texts, head.source)
        && references_pass(rule, texts, references, head.references)
        && comments_pass(rule, texts, comments, head.comments)
}

pub fn pubmeds_kept(texts: &[u8], references: &[usize], n: usize) -> bool
    requires { ReferencesKnown texts.now references.now n }
    ensures { result ≡ all pubmed_kept (rows_from (reference_in (reference_rooms texts.now references.now)) 14 0 n) }
{
    (0..n).all(|i| perhaps_in(texts, references, 14 * i + 10).is_none_or(|t| without(t, b'\n')))
}
