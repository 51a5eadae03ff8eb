// Answers for each record on standard input: read, written and read again, is it still the same? "kept", or the line, the number and the reason, all on standard output. The
// usage is that of the script, which takes a file's name too.
#![tactic(auto)]

mod judging;

use app_options::Options;
use app_rooms::{COMMENTS, INPUT, LOCATIONS, QUALIFIERS, REFERENCES, Rooms, TEXTS, room};
use std::io;

fn judge_input(rt: &HostRuntime, options: Options) -> io::Result<()> {
    let mut input: [u8; INPUT] = room(0);
    let mut texts: [u8; TEXTS] = room(0);
    let mut references: [usize; REFERENCES] = room(0);
    let mut comments: [usize; COMMENTS] = room(0);
    let mut qualifiers: [usize; QUALIFIERS] = room(0);
    let mut locations: [usize; LOCATIONS] = room(0);
    let mut letters: [u8; TEXTS] = room(0);
    let n = app_rooms::fill(&mut rt.stdin(), &mut input)?;
    if 524288 < n {
        return eprintln!(rt; "the input is longer than 524,288 bytes");
    }
    let mut rooms = Rooms {
        texts: &mut texts,
        references: &mut references,
        comments: &mut comments,
        qualifiers: &mut qualifiers,
        locations: &mut locations,
        letters: &mut letters,
    };
    judging::judge_all(rt, &mut rt.stdout(), &input[..n], &mut rooms, options)
}

// Of the arguments only a width and `strict` have a meaning here, and what says how a message is printed.
fn main(rt: HostRuntime) -> io::Result<()> {
    match app_options::options_asked(&rt) {
        Some(options) if !options.keep && !options.truncate && !options.escape => judge_input(
            &rt, options,
        ),
        _ => eprintln!(rt; "usage: still [FILE] [WIDTH] [strict]   (WIDTH: 60 to 132, else 80)"),
    }
}
