// The last lines of a record, of a table in rooms: CONTIG, ORIGIN and the end.
#![tactic(auto)]

ghost use Rattle.std.specs.Prelude.{[], ◌++◌, ◌≤◌, length, take};
ghost use Rattle.spec_format.specs.Bytes.{bytes};
ghost use Rattle.spec_format.specs.Rooms.{may_contig};
ghost use Rattle.spec_format.specs.Write.{contig_lines, origin_lines};
ghost use Rattle.base_pen.specs.Pen.{Writes};
ghost use Rattle.judge_rooms.specs.Parts.{reference_rooms};
ghost use Rattle.judge_rooms.specs.Facts.{ContigIn};
ghost use Rattle.spec_format.specs.Record.{most};

use base_pen::put_all;
use spec_format::ContigText;
use write_feature::put_contig;
use write_origin::put_origin;

// CONTIG; nothing where it is absent.
pub fn put_contig_text(
    out: &mut [u8],
    at: usize,
    texts: &[u8],
    contig: Option<ContigText>,
    width: usize,
) -> usize
    requires { (length texts.now ≤ most) × ContigIn texts.now contig × (60 ≤ width) × (width ≤ 132) }
    ensures { Writes out.old at (contig_lines width (may_contig (reference_rooms texts.now []) contig)) out.new result }
{
    match contig {
        None => at,
        Some(ContigText { text, .. }) => {
            let start = text.start;
            let end = start + text.length;
            put_contig(out, at, &texts[start..end], width)
        }
    }
}

// The first n letters of their room, and the record's end.
pub fn put_end(out: &mut [u8], at: usize, letters: &[u8], n: usize) -> usize
    requires { (n ≤ length letters.now) × (length letters.now ≤ most) }
    ensures { Writes out.old at (origin_lines (take n letters.now) ++ bytes "//\n") out.new result }
{
    let start = 0;
    let next = put_origin(out, at, &letters[start..n]);
    put_all(out, next, b"//\n")
}
