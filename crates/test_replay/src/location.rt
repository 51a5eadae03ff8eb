// One stored location: its text is read again, and what it is read as and all of the room for its rows are held against what is stored.
use read_location::Location;
use scan_location_bytes::Laid;
use test_stored_lines::{
    Checked, byte_room, count_answer, number_at, number_room, same_numbers, take_numbers, take_text,
};

// What the text is read as, by the number that is due for it: 0 a reading, 11 none (in writing), 14 a seventeenth word.
fn number_of(r: Location) -> usize {
    match r {
        Location::Read { rows: _, same: _ } => 0,
        Location::None => 11,
        Location::TooDeep => 14,
    }
}

// Its rows count only where it has a reading.
fn as_stored(r: Location, number: usize, room: &[usize], rows: &[usize]) -> bool {
    if number_of(r) != number {
        return false;
    }
    if number != 0 {
        return true;
    }
    same_numbers(room, rows)
}

// The text is read as stored, by the reader that calls itself and by the one that knows usual texts at once.
fn read_as_stored(text: &[u8], gaps: bool, number: usize, rows: &[usize]) -> bool {
    if 4096 < text.len() {
        return false;
    }
    let none: [usize; 0] = [];
    let mut room = number_room();
    let r = read_location::location_at(text, Laid::Piece, gaps, 0, &mut room, &none, 0);
    if !as_stored(r, number, &room, rows) {
        return false;
    }
    let mut again = number_room();
    let r = read_location::piece_at(text, gaps, &mut again, &none, 0);
    as_stored(r, number, &again, rows)
}

// The first n bytes are the text.
fn part_as_stored(text: &[u8], n: usize, gaps: bool, number: usize, rows: &[usize]) -> bool {
    if text.len() < n {
        return false;
    }
    read_as_stored(&text[0..n], gaps, number, rows)
}

// The location whose fields start there.
pub fn replay_location(s: &[u8], at: usize, counts: &mut [usize]) -> Checked {
    let mut text = byte_room();
    let mut gaps = number_room();
    let mut number = number_room();
    let mut rows = number_room();
    let a = take_text(s, at, &mut text);
    let b = take_numbers(s, a.next, &mut gaps);
    let c = take_numbers(s, b.next, &mut number);
    let d = take_numbers(s, c.next, &mut rows);
    let due = number_at(&number, 0);
    count_answer(counts, due, 1);
    Checked {
        next: d.next,
        same: part_as_stored(&text, a.count, number_at(&gaps, 0) != 0, due, &rows),
    }
}
