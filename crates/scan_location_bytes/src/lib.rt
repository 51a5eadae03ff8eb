// A location's text where it lies in a slice: its bytes, words and runs of bytes, in one piece or over lines with an indent.
#![tactic(auto)]

ghost use Rattle.std.specs.Prelude.{◌≡◌, ◌≤◌, ◌<◌, [], ◌∷◌, length, drop};
ghost use Rattle.spec_format.specs.Location.{behind, in_accession, in_gap};
ghost use Rattle.spec_format.specs.Deep.{in_line, further_start};
ghost use Rattle.scan_bytes.specs.Views.{Stepped};
ghost use Rattle.scan_location_bytes.specs.Views.{over_lines, view, line_further, in_class, Ready, Further, Peeked, Reached, Ran};

use scan_bytes::Step;

// How a location's text lies in a slice: in one piece, or over lines with this indent, a feature's or CONTIG's.
#[derive(Clone, Copy)]
pub enum Laid {
    Piece,
    Feature(usize),
    Contig(usize),
}

// A place in the slice, and the place in the location's text that it stands for.
#[derive(Clone, Copy)]
pub struct Spot {
    pub at: usize,
    pub off: usize,
}

// ---- bytes

// The next byte of the text and the place after it, or the text's end.
#[derive(Clone, Copy)]
pub enum Peek {
    End,
    Byte { byte: u8, next: usize },
}

// The start of a further line of the text: the indent, and in a feature any byte but a slash.
fn further_start(s: &[u8], contig: bool, indent: usize, at: usize) -> Step
    requires { at ≤ length s.now }
    ensures { Stepped s.now at (further_start contig indent (drop at s.now)) result }
{
    match scan_bytes::indent(s, at, indent) {
        Step::Got(i) => {
            if contig {
                return Step::Got(i);
            }
            if s.len() <= i {
                return Step::No;
            }
            if s[i] == b'/' {
                return Step::No;
            }
            Step::Got(i)
        }
        Step::No => Step::No,
        Step::Cut => Step::Cut,
    }
}

// From a line's end to the start of a further line.
fn further_line(s: &[u8], contig: bool, indent: usize, at: usize) -> Step
    requires { at ≤ length s.now }
    ensures { Further s.now at (line_further contig indent (drop at s.now)) result }
{
    match scan_bytes::line_end(s, at) {
        Step::Got(n) => further_start(s, contig, indent, n),
        Step::No => Step::No,
        Step::Cut => Step::Cut,
    }
}

fn is_in_line(b: u8) -> bool
    ensures { result ≡ in_line b }
{
    if b == b'\r' {
        return false;
    }
    b != b'\n'
}

// The next byte of a text over lines. A line may hold nothing after its indent.
fn byte_in_lines(s: &[u8], contig: bool, indent: usize, at: usize) -> Peek
    requires { at ≤ length s.now }
    ensures { Peeked (over_lines contig indent) s.now at result }
{
    let mut i = at;
    while i < s.len() {
        let b = s[i];
        if is_in_line(b) {
            return Peek::Byte {
                byte: b,
                next: i + 1,
            };
        }
        match further_line(s, contig, indent, i) {
            Step::Got(n) => {
                i = n;
            }
            Step::No => return Peek::End,
            Step::Cut => return Peek::End,
        }
    }
    Peek::End
}

// Where the text or a line of it may end.
pub fn byte_or_end(s: &[u8], laid: Laid, at: usize) -> Peek
    requires { at ≤ length s.now }
    ensures { Peeked laid s.now at result }
{
    if s.len() <= at {
        return Peek::End;
    }
    match laid {
        Laid::Piece => Peek::Byte {
            byte: s[at],
            next: at + 1,
        },
        Laid::Feature(indent) => byte_in_lines(s, false, indent, at),
        Laid::Contig(indent) => byte_in_lines(s, true, indent, at),
    }
}

// A byte above CR is the next one however the text lies.
pub fn byte_at(s: &[u8], laid: Laid, at: usize) -> Peek
    requires { at ≤ length s.now }
    ensures { Peeked laid s.now at result }
{
    if at < s.len() {
        let b = s[at];
        if b'\r' < b {
            return Peek::Byte {
                byte: b,
                next: at + 1,
            };
        }
    }
    byte_or_end(s, laid, at)
}

// ---- words and runs of bytes

// The spot behind what was looked for, or that it does not stand there.
#[derive(Clone, Copy)]
pub enum Word {
    Past(Spot),
    Other,
}

// One byte.
pub fn mark_at(s: &[u8], laid: Laid, spot: Spot, mark: u8) -> Word
    requires { Ready laid s.now spot }
    ensures { Reached laid s.now spot (behind (mark ∷ []) (view laid s.now spot.at)) result }
{
    match byte_at(s, laid, spot.at) {
        Peek::Byte { byte, next } => {
            if byte == mark {
                return Word::Past(Spot {
                    at: next,
                    off: spot.off + 1,
                });
            }
            Word::Other
        }
        Peek::End => Word::Other,
    }
}

// One byte or more.
pub fn word_at(s: &[u8], laid: Laid, spot: Spot, word: &[u8]) -> Word
    requires { Ready laid s.now spot × (0 < length word.now) }
    ensures { Reached laid s.now spot (behind word.now (view laid s.now spot.at)) result }
{
    let mut at = spot.at;
    let mut j = 0;
    while j < word.len() {
        match byte_at(s, laid, at) {
            Peek::Byte { byte, next } => {
                if byte != word[j] {
                    return Word::Other;
                }
                at = next;
                j += 1;
            }
            Peek::End => return Word::Other,
        }
    }
    Word::Past(Spot {
        at,
        off: spot.off + j,
    })
}

// What a run of bytes is made of.
#[derive(Clone, Copy)]
pub enum Class {
    Digits,
    Accession,
    Gap,
}

fn in_accession(b: u8) -> bool
    ensures { result ≡ in_accession b }
{
    if scan_bytes::is_letter(b) {
        return true;
    }
    if scan_bytes::is_digit(b) {
        return true;
    }
    b == b'_'
}

fn in_gap(b: u8) -> bool
    ensures { result ≡ in_gap b }
{
    if scan_bytes::is_visible(b) {
        if b == b'(' {
            return false;
        }
        return b != b')';
    }
    false
}

fn in_class(class: Class, b: u8) -> bool
    ensures { result ≡ in_class class b }
{
    match class {
        Class::Digits => scan_bytes::is_digit(b),
        Class::Accession => in_accession(b),
        Class::Gap => in_gap(b),
    }
}

// The spot behind a run, which may be empty.
pub fn past_run(s: &[u8], laid: Laid, spot: Spot, class: Class) -> Spot
    requires { Ready laid s.now spot }
    ensures { Ran (in_class class) laid s.now spot result }
{
    let mut at = spot.at;
    let mut off = spot.off;
    loop {
        match byte_at(s, laid, at) {
            Peek::Byte { byte, next } => {
                if in_class(class, byte) {
                    at = next;
                    off += 1;
                } else {
                    return Spot { at, off };
                }
            }
            Peek::End => {
                return Spot { at, off };
            }
        }
    }
}
