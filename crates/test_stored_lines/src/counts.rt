use std::io;
use std::io::Write;

// What is counted: 0 to 14 and 16 are answers by their number (15 is no answer of a reader or a writer), and these.
pub const TWO_OR_FOUR: usize = 17;

pub const REFUSED: usize = 18;
// Plus the departure's number; the place itself is "no departure".
pub const DEPARTURES: usize = 19;

pub const READINGS: usize = 27;

pub const WRITINGS: usize = 28;

pub const LOCATIONS: usize = 29;

// Readings whose line and offset are stored too.
pub const LINES: usize = 30;

// Readings with the strict switch on.
pub const STRICT: usize = 31;

pub const NOT_UNDERSTOOD: usize = 32;

pub const DIFFER: usize = 33;

// Places for all of these.
pub const COUNTS: usize = 34;

// One more at that place, if there is such a place.
pub fn count_one(counts: &mut [usize], i: usize) {
    if i < counts.len() {
        if counts[i] < usize::MAX {
            counts[i] += 1;
        }
    }
}

fn count_departure(counts: &mut [usize], d: usize) {
    if d <= 7 {
        count_one(counts, DEPARTURES + d);
    }
}

// The departures of a case, of which a list has n.
pub fn count_departures(counts: &mut [usize], list: &[usize], n: usize) {
    if n == 0 {
        count_one(counts, DEPARTURES);
        return;
    }
    let mut i = 0;
    while i < n {
        if list.len() <= i {
            return;
        }
        count_departure(counts, list[i]);
        i += 1;
    }
}

// An answer by the numbers that may be given: one, 2 or 4, or any of a refusal of the Rust.
pub fn count_answer(counts: &mut [usize], first: usize, n: usize) {
    if n == 1 {
        count_one(counts, first);
    } else {
        if n == 2 {
            count_one(counts, TWO_OR_FOUR);
        } else {
            count_one(counts, REFUSED);
        }
    }
}

fn say<W: Write>(out: &mut W, word: &[u8], n: usize) -> io::Result<()> {
    out.write_all(word)?;
    write!(out, "{n}")
}

fn say_line<W: Write>(out: &mut W, word: &[u8], n: usize) -> io::Result<()> {
    say(out, word, n)?;
    out.write_all(b"\n")
}

// None at that place, if there is such a place.
fn clear(counts: &mut [usize], i: usize) {
    if i < counts.len() {
        counts[i] = 0;
    }
}

// How many cases of a source there were; the next source is counted from 0.
pub fn say_source<W: Write>(out: &mut W, title: &[u8], counts: &mut [usize]) -> io::Result<()> {
    out.write_all(title)?;
    if LOCATIONS < counts.len() {
        say(out, b": ", counts[READINGS])?;
        say(out, b" readings, ", counts[WRITINGS])?;
        say(out, b" writings, ", counts[LOCATIONS])?;
        out.write_all(b" locations\n")?;
        clear(counts, READINGS);
        clear(counts, WRITINGS);
        clear(counts, LOCATIONS);
    }
    Ok(())
}

fn say_numbers<W: Write>(out: &mut W, counts: &[usize]) -> io::Result<()> {
    for n in 0..15 {
        if counts.len() <= n {
            break;
        }
        say(out, b"number ", n)?;
        say_line(out, b": ", counts[n])?;
    }
    Ok(())
}

fn say_departures<W: Write>(out: &mut W, counts: &[usize]) -> io::Result<()> {
    for d in 1..8 {
        if counts.len() <= DEPARTURES + d {
            break;
        }
        say(out, b"departure ", d)?;
        say_line(out, b": ", counts[DEPARTURES + d])?;
    }
    Ok(())
}

pub fn say_counts<W: Write>(out: &mut W, counts: &[usize]) -> io::Result<()> {
    if counts.len() <= DIFFER {
        return Ok(());
    }
    say_numbers(out, counts)?;
    say_line(out, b"number 16: ", counts[16])?;
    say_line(out, b"2 or 4: ", counts[TWO_OR_FOUR])?;
    say_line(out, b"2, 4, 5, 7, 8 or 9: ", counts[REFUSED])?;
    say_departures(out, counts)?;
    say_line(out, b"no departure: ", counts[DEPARTURES])?;
    say_line(out, b"with line and offset: ", counts[LINES])?;
    say_line(out, b"strict readings: ", counts[STRICT])?;
    say_line(out, b"not understood: ", counts[NOT_UNDERSTOOD])?;
    say_line(out, b"differ: ", counts[DIFFER])
}
