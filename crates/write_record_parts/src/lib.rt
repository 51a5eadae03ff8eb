// What the writer does with a table but for its features.
#![tactic(auto)]

ghost use Rattle.std.specs.Prelude.{◌≡◌};
ghost use Rattle.base_pen.specs.Pen.{Writes};
ghost use Rattle.judge_rooms.specs.Parts.{rest_head};
ghost use Rattle.judge_record.specs.Rest.{rest_table, RestKnown};
ghost use Rattle.write_record_parts.specs.Parts.{title, before_parts, after_parts, BeforeKnown, AfterKnown};
ghost use Rattle.write_record_parts.specs.RestVerdict.{rest_verdict};

use base_pen::put_all;
use judge_record::{keeps, well_formed};
use spec_format::{Head, How, Unwritten};
use write_header::put_header;
use write_locus::{name_fine, put_locus};
use write_record_end::{put_contig_text, put_end};

// The head of the table without its features and CONTIG.
pub fn rest_head(head: Head) -> Head
    ensures { result ≡ rest_head head }
{
    let name = head.name;
    let length = head.length;
    let molecule = head.molecule;
    let division = head.division;
    let date = head.date;
    let definition = head.definition;
    let accession = head.accession;
    let version = head.version;
    let dblink = head.dblink;
    let keywords = head.keywords;
    let source = head.source;
    let contig = None;
    Head {
        name,
        length,
        molecule,
        circular: head.circular,
        division,
        date,
        definition,
        accession,
        version,
        dblink,
        keywords,
        source,
        references: head.references,
        comments: head.comments,
        features: 0,
        contig,
        letters: head.letters,
    }
}

// The line of FEATURES; nothing where there are none.
fn put_title(out: &mut [u8], at: usize, features: usize) -> usize
    ensures { Writes out.old at (title features) out.new result }
{
    if features == 0 {
        return at;
    }
    put_all(out, at, b"FEATURES             Location/Qualifiers\n")
}

// All lines before those of the features.
pub fn put_before(
    out: &mut [u8],
    texts: &[u8],
    references: &[usize],
    comments: &[usize],
    head: Head,
    features: usize,
    how: How,
) -> usize
    requires { BeforeKnown texts.now references.now comments.now head how.width }
    ensures { Writes out.old 0 (before_parts texts.now references.now comments.now head features how) out.new result }
{
    let a = put_locus(out, 0, texts, head, how.truncate, how.escape);
    let b = put_header(out, a, texts, references, comments, head, how.width);
    put_title(out, b, features)
}

// All lines behind those of the features.
pub fn put_after(
    out: &mut [u8],
    at: usize,
    texts: &[u8],
    letters: &[u8],
    head: Head,
    width: usize,
) -> usize
    requires { AfterKnown texts.now letters.now head width }
    ensures { Writes out.old at (after_parts texts.now letters.now head width) out.new result }
{
    let contig = head.contig;
    let a = put_contig_text(out, at, texts, contig, width);
    put_end(out, a, letters, head.letters)
}

// Numbers 11 and 13 of the table: of its features and CONTIG `fine` and `kept` say it.
pub fn rest_verdict(
    fine: bool,
    kept: bool,
    texts: &[u8],
    references: &[usize],
    comments: &[usize],
    letters: &[u8],
    head: Head,
    how: How,
) -> Result<(), Unwritten>
    requires { RestKnown texts.now references.now comments.now letters.now head }
    ensures { result ≡ rest_verdict how fine kept (rest_table texts.now references.now comments.now letters.now head) }
{
    if !fine {
        return Err(Unwritten::NoLayout);
    }
    if !well_formed(
        how.width,
        name_fine(texts, head, how.truncate, how.escape),
        texts,
        references,
        comments,
        letters,
        head,
    ) {
        return Err(Unwritten::NoLayout);
    }
    if !how.keeping {
        return Ok(());
    }
    if !kept {
        return Err(Unwritten::NotKept);
    }
    if !keeps(
        how.width,
        how.truncate,
        how.escape,
        texts,
        references,
        comments,
        letters,
        head,
    ) {
        return Err(Unwritten::NotKept);
    }
    Ok(())
}
