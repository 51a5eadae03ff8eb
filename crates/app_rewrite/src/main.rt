// Reads GenBank records on standard input and writes them again on standard output, at width 80 or as the arguments say. A refusal is told on standard error. The usage is
// that of the script, which takes a file's name too.
#![tactic(auto)]

mod rewriting;

use app_options::Options;
use app_rooms::{COMMENTS, INPUT, LOCATIONS, OUT, QUALIFIERS, REFERENCES, Rooms, TEXTS, room};
use std::io;

fn rewrite_input(rt: &HostRuntime, options: Options) -> io::Result<()> {
    let mut input: [u8; INPUT] = room(0);
    let mut texts: [u8; TEXTS] = room(0);
    let mut references: [usize; REFERENCES] = room(0);
    let mut comments: [usize; COMMENTS] = room(0);
    let mut qualifiers: [usize; QUALIFIERS] = room(0);
    let mut locations: [usize; LOCATIONS] = room(0);
    let mut letters: [u8; TEXTS] = room(0);
    let mut out: [u8; OUT] = room(0);
    let n = app_rooms::fill(&mut rt.stdin(), &mut input)?;
    if 524288 < n {
        return eprintln!(rt; "the input is longer than 524,288 bytes");
    }
    let mut rooms = Rooms {
        texts: &mut texts,
        references: &mut references,
        comments: &mut comments,
        qualifiers: &mut qualifiers,
        locations: &mut locations,
        letters: &mut letters,
    };
    rewriting::rewrite_all(
        rt,
        &mut rt.stdout(),
        &mut rt.stderr(),
        &input[..n],
        &mut rooms,
        &mut out,
        options,
    )
}

fn main(rt: HostRuntime) -> io::Result<()> {
    match app_options::options_asked(&rt) {
        Some(options) => rewrite_input(&rt, options),
        None => eprintln!(rt;
            "usage: rewrite [FILE] [WIDTH] [keep] [truncate] [escape] [strict]   (WIDTH: 60 to 132, else 80)"
        ),
    }
}
