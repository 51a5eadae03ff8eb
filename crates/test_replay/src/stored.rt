// Stored answers, run again and counted. A line of a file is one answer, `R` a reading, `S` a strict one, `W` a writing and `L` a location; oracle/README.md has its fields. Lines that
// begin `#` say how the file was made, and what a case shows.
ghost use Rattle.std.specs.Prelude.{length, ◌<◌};

use crate::location::replay_location;
use crate::reading::replay_reading;
use crate::writing::replay_writing;
use std::io;
use std::io::Write;
use test_stored_lines::{
    Checked, DIFFER, LOCATIONS, NOT_UNDERSTOOD, READINGS, STRICT, WRITINGS, byte_at,
    count_departures, count_one, next_line, number_at, number_room, take_numbers,
};

// One answer whose fields start at a place, of that kind.
fn replay_kind(s: &[u8], at: usize, kind: u8, counts: &mut [usize]) -> Checked {
    if kind == b'R' {
        count_one(counts, READINGS);
        return replay_reading(s, at, false, counts);
    }
    if kind == b'S' {
        count_one(counts, READINGS);
        count_one(counts, STRICT);
        return replay_reading(s, at, true, counts);
    }
    if kind == b'W' {
        count_one(counts, WRITINGS);
        return replay_writing(s, at, counts);
    }
    if kind == b'L' {
        count_one(counts, LOCATIONS);
        return replay_location(s, at, counts);
    }
    Checked {
        next: at,
        same: false,
    }
}

// A line of one answer. It is not understood if its fields do not end where the line does.
fn replay_answer(s: &[u8], at: usize, kind: u8, counts: &mut [usize]) -> bool {
    let mut departures = number_room();
    let field = take_numbers(s, at, &mut departures);
    count_departures(counts, &departures, field.count);
    let checked = replay_kind(s, field.next, kind, counts);
    if byte_at(s, checked.next) != b'\n' {
        count_one(counts, NOT_UNDERSTOOD);
    }
    checked.same
}

// Says which line differs, the first few times.
fn tell<W: Write>(out: &mut W, name: &[u8], line: usize, counts: &mut [usize]) -> io::Result<()> {
    count_one(counts, DIFFER);
    if 5 < number_at(counts, DIFFER) {
        return Ok(());
    }
    out.write_all(name)?;
    write!(out, ", line {line}: differs\n")
}

fn replay_line<W: Write>(
    out: &mut W,
    name: &[u8],
    s: &[u8],
    at: usize,
    line: usize,
    counts: &mut [usize],
) -> io::Result<()>
    requires { at < length s.now }
{
    if s[at] == b'#' {
        return Ok(());
    }
    if replay_answer(s, at + 1, s[at], counts) {
        return Ok(());
    }
    tell(out, name, line, counts)
}

// All lines of the file of that name.
pub fn replay_all<W: Write>(
    out: &mut W,
    name: &[u8],
    s: &[u8],
    counts: &mut [usize],
) -> io::Result<()> {
    let mut at = 0;
    let mut line = 1;
    while at < s.len() {
        replay_line(out, name, s, at, line, counts)?;
        at = next_line(s, at);
        line += 1;
    }
    Ok(())
}
