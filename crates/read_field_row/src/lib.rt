// A reference or a comment put into lent rooms: its texts, and the row that says where those are.
#![tactic(auto)]

ghost use Rattle.std.specs.Prelude.{true, [], ◌∷◌};
ghost use Rattle.spec_format.specs.Rooms.{reference_pieces};
ghost use Rattle.read_field_row.specs.Pieces.{entry_text, always_piece, may_piece, front_pieces, back_pieces, reference_of, comment_found, Ready, MayReady, ReferenceReady};
ghost use Rattle.read_field_row.specs.Puts.{Room, Puts, Texted};

use read_field_entry::Entry;
use read_field_optional::MayEntry;
use read_field_reference::ReferenceEntries;

// Where the next text goes, and the next number.
#[derive(Clone, Copy)]
pub struct Pens {
    pub text: usize,
    pub row: usize,
}

// ---- a piece

// The text of an entry, and the numbers of its start and n.
fn put_text(
    s: &[u8],
    e: Entry,
    keep: bool,
    n: usize,
    texts: &mut [u8],
    rows: &mut [usize],
    pens: Pens,
) -> Pens
    requires { Ready s.now keep e × Room pens (always_piece s.now keep e ∷ []) }
    ensures { Texted texts.old rows.old pens (entry_text s.now keep e) n texts.new rows.new result }
{
    let start = e.text;
    let columns = e.columns;
    let text = read_field_text::put_entry(s, start, columns, keep, texts, pens.text);
    let row = base_pen::put_all(rows, pens.row, &[pens.text, n]);
    Pens { text, row }
}

fn put_always(
    s: &[u8],
    e: Entry,
    keep: bool,
    texts: &mut [u8],
    rows: &mut [usize],
    pens: Pens,
) -> Pens
    requires { Ready s.now keep e × Room pens (always_piece s.now keep e ∷ []) }
    ensures { Puts texts.old rows.old pens (always_piece s.now keep e ∷ []) texts.new rows.new result }
{
    let n = e.length;
    put_text(s, e, keep, n, texts, rows, pens)
}

fn put_perhaps(
    s: &[u8],
    e: MayEntry,
    keep: bool,
    texts: &mut [u8],
    rows: &mut [usize],
    pens: Pens,
) -> Pens
    requires { MayReady s.now keep e × Room pens (may_piece s.now keep e ∷ []) }
    ensures { Puts texts.old rows.old pens (may_piece s.now keep e ∷ []) texts.new rows.new result }
{
    match e {
        MayEntry::Absent => {
            let row = base_pen::put_all(rows, pens.row, &[0, 0]);
            let text = pens.text;
            Pens { text, row }
        }
        MayEntry::Is(entry) => {
            let n = entry.length + 1;
            put_text(s, entry, keep, n, texts, rows, pens)
        }
    }
}

// ---- a reference, a comment

fn put_front(
    s: &[u8],
    entries: ReferenceEntries,
    texts: &mut [u8],
    rows: &mut [usize],
    pens: Pens,
) -> Pens
    requires { ReferenceReady s.now entries × Room pens (front_pieces (reference_of s.now entries)) }
    ensures { Puts texts.old rows.old pens (front_pieces (reference_of s.now entries)) texts.new rows.new result }
{
    let text = entries.text;
    let authors = entries.authors;
    let consrtm = entries.consrtm;
    let first = put_always(s, text, true, texts, rows, pens);
    let second = put_perhaps(s, authors, true, texts, rows, first);
    put_perhaps(s, consrtm, true, texts, rows, second)
}

fn put_back(
    s: &[u8],
    entries: ReferenceEntries,
    texts: &mut [u8],
    rows: &mut [usize],
    pens: Pens,
) -> Pens
    requires { ReferenceReady s.now entries × Room pens (back_pieces (reference_of s.now entries)) }
    ensures { Puts texts.old rows.old pens (back_pieces (reference_of s.now entries)) texts.new rows.new result }
{
    let title = entries.title;
    let journal = entries.journal;
    let pubmed = entries.pubmed;
    let remark = entries.remark;
    let first = put_always(s, title, true, texts, rows, pens);
    let second = put_perhaps(s, journal, true, texts, rows, first);
    let third = put_perhaps(s, pubmed, false, texts, rows, second);
    put_perhaps(s, remark, true, texts, rows, third)
}

pub fn put_reference(
    s: &[u8],
    entries: ReferenceEntries,
    texts: &mut [u8],
    rows: &mut [usize],
    pens: Pens,
) -> Pens
    requires { ReferenceReady s.now entries × Room pens (reference_pieces (reference_of s.now entries)) }
    ensures { Puts texts.old rows.old pens (reference_pieces (reference_of s.now entries)) texts.new rows.new result }
{
    let middle = put_front(s, entries, texts, rows, pens);
    put_back(s, entries, texts, rows, middle)
}

pub fn put_comment(
    s: &[u8],
    comment: MayEntry,
    texts: &mut [u8],
    rows: &mut [usize],
    pens: Pens,
) -> Pens
    requires { MayReady s.now true comment × Room pens (comment_found s.now comment) }
    ensures { Puts texts.old rows.old pens (comment_found s.now comment) texts.new rows.new result }
{
    match comment {
        MayEntry::Absent => pens,
        MayEntry::Is(e) => put_always(s, e, true, texts, rows, pens),
    }
}
