// The text of an entry that was found, put into lent room: its first line, and its further lines with or without LF before them.
#![tactic(auto)]

ghost use Rattle.std.specs.Prelude.{◌≡◌, ◌≤◌, length, drop};
ghost use Rattle.spec_format.specs.Header.{line_after, field_text};
ghost use Rattle.scan_bytes.specs.Places.{part};
ghost use Rattle.base_pen.specs.Pen.{Writes};
ghost use Rattle.read_field_entry.specs.Texts.{further};
ghost use Rattle.read_field_text.specs.Texts.{text_in, Gets};

use read_field_entry::Piece;
use scan_bytes::Line;

// A further line from `from` to `to`.
fn put_line(s: &[u8], from: usize, to: usize, keep: bool, room: &mut [u8], place: usize) -> usize
    requires { (from ≤ to) × (to ≤ length s.now) }
    ensures { Writes room.old place (line_after keep (part from to s.now)) room.new result }
{
    if keep {
        let p = base_pen::put(room, place, b'\n');
        return base_pen::put_all(room, p, &s[from..to]);
    }
    base_pen::put_all(room, place, &s[from..to])
}

fn put_further(
    s: &[u8],
    at: usize,
    columns: usize,
    keep: bool,
    room: &mut [u8],
    place: usize,
) -> usize
    requires { (at ≤ length s.now) × Gets (further columns keep (drop at s.now)) }
    ensures { Writes room.old place (text_in (further columns keep (drop at s.now))) room.new result }
{
    let mut i = at;
    let mut p = place;
    loop {
        match read_field_entry::further_line(s, i, columns) {
            Piece::No => return p,
            Piece::Cut => return p,
            Piece::Got { from, end, next } => {
                p = put_line(s, from, end, keep, room, p);
                i = next;
            }
        }
    }
}

// Puts the text that an entry says at `place`; what falls past the room's end is lost, and the place after the text is returned all the same.
pub fn put_entry(
    s: &[u8],
    text: usize,
    columns: usize,
    keep: bool,
    room: &mut [u8],
    place: usize,
) -> usize
    requires { (text ≤ length s.now) × Gets (field_text columns keep (drop text s.now)) }
    ensures { Writes room.old place (text_in (field_text columns keep (drop text s.now))) room.new result }
{
    match scan_bytes::line_at(s, text) {
        Line::No => place,
        Line::Cut => place,
        Line::Got { end, next } => {
            let p = base_pen::put_all(room, place, &s[text..end]);
            put_further(s, next, columns, keep, room, p)
        }
    }
}
