// The member's question, record by record: read, written by the keeping writer and read again, is it still the same? The keeping writer is asked with an empty
// slice, so nothing is written. It then answers 6 exactly where the call would succeed with more room: no 12, 10, 11 or 13 is due, so with room it answers 0, and
// what such a call writes comes back (`still_the_same` of spec_demands). Each record's line, and the message where one is due, go to the same writer, which is lent.
use app_lines::Message;
use app_options::Options;
use app_rooms::Rooms;
use spec_format::{How, MOST, ReadAnswer, Span};
use std::env::Env;
use std::io;
use std::io::Write;

// The record's name after a comma, if it has one.
fn show_name<W: Write>(output: &mut W, texts: &[u8], name: Option<Span>) -> io::Result<()> {
    let Some(text) = name.and_then(|span| texts.get(span.start..)?.get(..span.length)) else {
        return Ok(());
    };
    output.write_all(b", ")?;
    output.write_all(text)
}

// The record at a place: where the next one starts, if it was read and judged. If it was not read, that is told.
fn judge_at<E: Env, W: Write>(
    env: &E,
    output: &mut W,
    input: &[u8],
    at: usize,
    rooms: &mut Rooms<'_>,
    options: Options,
    ordinal: usize,
) -> io::Result<Option<usize>> {
    let how = How {
        keeping: true,
        width: options.width,
        truncate: false,
        escape: false,
    };
    let round = app_round::read_and_write(
        input,
        at,
        options.strict,
        rooms.texts,
        rooms.references,
        rooms.comments,
        rooms.qualifiers,
        rooms.locations,
        rooms.letters,
        &mut [],
        how,
    );
    let refused = |number| Message {
        ordinal,
        number,
        options,
    };
    let ReadAnswer::Done { head, place } = round.read.answer else {
        let message = refused(base_numbers::read_number(round.read.answer));
        message.tell_unread(env, output, input, round.read.spot)?;
        return Ok(None);
    };
    let number = base_numbers::write_number(round.wrote);
    if 6 < number {
        refused(number).tell_unwritten(env, output, input, at)?;
        return Ok(Some(place));
    }
    write!(output, "record {ordinal}")?;
    show_name(output, rooms.texts, head.name)?;
    // Whether the reader takes as many bytes as the keeping writer would write.
    if MOST < base_numbers::write_value(round.wrote) {
        output.write_all(b": longer than 16,777,216 bytes when written\n")?;
    } else {
        output.write_all(b": kept\n")?;
    }
    Ok(Some(place))
}

// All records of the input. A record takes a byte at least, so there are no more records than bytes.
pub fn judge_all<E: Env, W: Write>(
    env: &E,
    output: &mut W,
    input: &[u8],
    rooms: &mut Rooms<'_>,
    options: Options,
) -> io::Result<()> {
    let mut at = 0;
    for ordinal in 1..=input.len() {
        if at == input.len() {
            break;
        }
        let Some(next) = judge_at(env, output, input, at, rooms, options, ordinal)? else {
            break;
        };
        at = next;
    }
    Ok(())
}
