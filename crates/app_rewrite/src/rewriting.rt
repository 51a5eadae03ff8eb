// Record after record out of an input: each is read, written again and put out. A refusal ends it with a message: which line of the input, which record, which number, and
// why; and then that line. The rooms are lent, and so are the writers for the records and for the message.
use app_lines::Message;
use app_options::Options;
use app_rooms::Rooms;
use spec_format::{How, ReadAnswer, Unread, WriteAnswer};
use std::env::Env;
use std::io;
use std::io::Write;

// The record at a place: where the next one starts, if it was put out. If it was refused, that is told; the input's end is none.
fn rewrite_at<E: Env, O: Write, M: Write>(
    env: &E,
    output: &mut O,
    messages: &mut M,
    input: &[u8],
    at: usize,
    rooms: &mut Rooms<'_>,
    out: &mut [u8],
    options: Options,
    ordinal: usize,
) -> io::Result<Option<usize>> {
    let how = How {
        keeping: options.keep,
        width: options.width,
        truncate: options.truncate,
        escape: options.escape,
    };
    let round = app_round::read_and_write(
        input,
        at,
        options.strict,
        rooms.texts,
        rooms.references,
        rooms.comments,
        rooms.qualifiers,
        rooms.locations,
        rooms.letters,
        out,
        how,
    );
    let refused = |number| Message {
        ordinal,
        number,
        options,
    };
    let place = match round.read.answer {
        ReadAnswer::Done { head: _, place } => place,
        ReadAnswer::Refused(Unread::AtEnd) => return Ok(None),
        answer => {
            let message = refused(base_numbers::read_number(answer));
            message.tell_unread(env, messages, input, round.read.spot)?;
            return Ok(None);
        }
    };
    if let WriteAnswer::Done(n) = round.wrote {
        if let Some(written) = out.get(..n) {
            output.write_all(written)?;
        }
        return Ok(Some(place));
    }
    let message = refused(base_numbers::write_number(round.wrote));
    message.tell_unwritten(env, messages, input, at)?;
    Ok(None)
}

// All records of the input. A record takes a byte at least, so there are no more records than bytes.
pub fn rewrite_all<E: Env, O: Write, M: Write>(
    env: &E,
    output: &mut O,
    messages: &mut M,
    input: &[u8],
    rooms: &mut Rooms<'_>,
    out: &mut [u8],
    options: Options,
) -> io::Result<()> {
    let mut at = 0;
    for ordinal in 1..=input.len() {
        let next = rewrite_at(
            env, output, messages, input, at, rooms, out, options, ordinal,
        )?;
        let Some(next) = next else {
            break;
        };
        at = next;
    }
    Ok(())
}
