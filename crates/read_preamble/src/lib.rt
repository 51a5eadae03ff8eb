// The lines before LOCUS: `skip_preamble` of misc.rs.
#![tactic(auto)]

ghost use Rattle.std.specs.Prelude.{◌≡◌, ◌≤◌, length, drop};
ghost use Rattle.spec_format.specs.Bytes.{bytes};
ghost use Rattle.spec_format.specs.Readers.{tag};
ghost use Rattle.spec_format.specs.Locus.{preamble_turn, preamble};
ghost use Rattle.scan_bytes.specs.Views.{Stepped};
ghost use Rattle.spec_lines.specs.Stands.{Stands};
ghost use Rattle.spec_lines.specs.Troubles.{searched};
ghost use Rattle.read_preamble.specs.Skips.{is_got, stopped, Gone, Read, Passed};
ghost use Rattle.read_preamble.specs.Onwards.{Onwards};

use scan_bytes::{Line, Step};

// Whether a line begins `LOCUS` here.
fn at_locus(s: &[u8], at: usize) -> bool
    requires { at ≤ length s.now }
    ensures { result ≡ is_got (tag (bytes "LOCUS") (drop at s.now)) }
{
    match scan_bytes::tag(s, at, b"LOCUS") {
        Step::Got(_) => true,
        Step::No => false,
        Step::Cut => false,
    }
}

// Where the reader stands: before a line that is to be passed, or at an answer.
#[derive(Clone, Copy)]
pub struct Turn {
    pub more: bool,
    pub answer: Step,
}

fn stops(answer: Step) -> Turn
    ensures { result ≡ stopped answer }
{
    Turn {
        more: false,
        answer: answer,
    }
}

// LOCUS stands here, or a line is to be passed.
fn turn_at(s: &[u8], at: usize) -> Turn
    requires { at ≤ length s.now }
    ensures { Gone s.now at at result }
{
    if at_locus(s, at) {
        return stops(Step::Got(at));
    }
    Turn {
        more: true,
        answer: Step::No,
    }
}

// A line was read from a place on: it must be UTF-8.
fn past_line(s: &[u8], at: usize, line: Line) -> Turn
    requires { Read s.now at line }
    ensures { Passed s.now at line result }
{
    match line {
        Line::Got { end, next } => {
            if scan_utf8::utf8_ok(s, at, end) {
                return turn_at(s, next);
            }
            stops(Step::No)
        }
        Line::No => stops(Step::No),
        Line::Cut => stops(Step::Cut),
    }
}

// The place of the first line that begins `LOCUS`.
pub fn preamble_at(s: &[u8], at: usize) -> Step
    requires { at ≤ length s.now }
    ensures { Stepped s.now at (preamble (drop at s.now)) result }
{
    let mut turn = turn_at(s, at);
    let mut reader = scan_lines::reader_at(s, at);
    while turn.more {
        let from = reader.place;
        let line = scan_lines::next_line(&mut reader);
        turn = past_line(s, from, line);
    }
    turn.answer
}

// ---- where the search ended, found anew after a refusal

// A turn of a search: what it passes ends at a place, or it goes no further.
#[derive(Clone, Copy)]
pub enum Onward {
    To(usize),
    Stop,
}

// A line is passed that does not begin `LOCUS` and is UTF-8.
fn search_turn(s: &[u8], at: usize) -> Onward
    requires { at ≤ length s.now }
    ensures { Onwards preamble_turn s.now at result }
{
    if at_locus(s, at) {
        return Onward::Stop;
    }
    match scan_bytes::line_at(s, at) {
        Line::Got { end, next } => {
            if !scan_utf8::utf8_ok(s, at, end) {
                return Onward::Stop;
            }
            Onward::To(next)
        }
        Line::No => Onward::Stop,
        Line::Cut => Onward::Stop,
    }
}

// The place where the search for LOCUS ended: the line that begins so, the one that stopped the search, or the end.
pub fn search_at(s: &[u8], at: usize) -> usize
    requires { at ≤ length s.now }
    ensures { Stands s.now at (searched (drop at s.now)) result }
{
    let mut i = at;
    loop {
        match search_turn(s, i) {
            Onward::To(next) => {
                i = next;
            }
            Onward::Stop => return i,
        }
    }
}
