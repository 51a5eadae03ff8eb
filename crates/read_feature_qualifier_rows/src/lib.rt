// The qualifiers of a feature of feature_table.rs put into lent rooms: their texts, and a row of four numbers for each.
#![tactic(auto)]

ghost use Rattle.std.specs.Prelude.{◌≤◌, length};
ghost use Rattle.spec_format.specs.Rooms.{pieces_text, pieces_row, qualifier_pieces};
ghost use Rattle.read_feature_qualifiers.specs.Reads.{qualifier_in};
ghost use Rattle.read_feature_qualifier_rows.specs.Puts.{Standing, PutTwo, QualifiersPut};

use read_feature_qualifiers::{QualifierAt, ValueAt};

// The places after a qualifier's texts and after its row.
#[derive(Clone, Copy)]
pub struct Places {
    pub text: usize,
    pub row: usize,
}

// The place after the last qualifier, those after its texts and its row, and how many qualifiers there were.
#[derive(Clone, Copy)]
pub struct Run {
    pub next: usize,
    pub text: usize,
    pub row: usize,
    pub count: usize,
}

// A scanned qualifier that ends at `next`: its texts and its row.
fn put_qualifier(
    s: &[u8],
    indent: usize,
    first: usize,
    end: usize,
    joined: bool,
    value: ValueAt,
    next: usize,
    texts: &mut [u8],
    place: usize,
    rows: &mut [usize],
    row: usize,
) -> Places
    requires { Standing s.now indent first end joined value next }
    ensures { PutTwo (pieces_text (qualifier_pieces (qualifier_in s.now indent first end joined value))) (pieces_row place (qualifier_pieces (qualifier_in s.now indent first end joined value))) texts.old place texts.new result.text rows.old row rows.new result.row }
{
    let start = base_pen::put_all(texts, place, &s[first..end]);
    match value {
        ValueAt::Absent => {
            let after = base_pen::put_all(rows, row, &[place, end - first, 0, 0]);
            Places {
                text: start,
                row: after,
            }
        }
        ValueAt::With {
            from,
            quoted,
            length,
        } => {
            let stop = read_feature_value::put_value(
                s, from, indent, joined, quoted, length, next, texts, start,
            );
            let after = base_pen::put_all(rows, row, &[place, end - first, start, length + 1]);
            Places {
                text: stop,
                row: after,
            }
        }
    }
}

// The qualifiers from `at` on.
pub fn put_qualifiers(
    s: &[u8],
    at: usize,
    indent: usize,
    texts: &mut [u8],
    place: usize,
    rows: &mut [usize],
    row: usize,
) -> Run
    requires { at ≤ length s.now }
    ensures { QualifiersPut s.now at indent texts.old place texts.new rows.old row rows.new result }
{
    let mut i = at;
    let mut p = place;
    let mut q = row;
    let mut n = 0;
    loop {
        match read_feature_qualifiers::qualifier_at(s, i, indent) {
            QualifierAt::Got {
                first,
                end,
                joined,
                value,
                bytes: _,
                next,
            } => {
                let put = put_qualifier(
                    s, indent, first, end, joined, value, next, texts, p, rows, q,
                );
                p = put.text;
                q = put.row;
                n += 1;
                i = next;
            }
            QualifierAt::No => {
                return Run {
                    next: i,
                    text: p,
                    row: q,
                    count: n,
                };
            }
            QualifierAt::Cut => {
                return Run {
                    next: i,
                    text: p,
                    row: q,
                    count: n,
                };
            }
        }
    }
}
