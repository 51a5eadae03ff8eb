// Where a record ends: `//` with the empty lines after it, or whether `//` stands on a later line.
#![tactic(auto)]

ghost use Rattle.std.specs.Prelude.{◌≡◌, ◌&&◌, ◌≤◌, length, get_or, drop, eqb};
ghost use Rattle.spec_format.specs.Record.{slashes_later};
ghost use Rattle.read_slashes.specs.Ends.{EmptyPassed, Ended};
ghost use Rattle.read_slashes.specs.Later.{Sought};

use scan_bytes::Step;

// The place after a record, or why it does not end here.
#[derive(Clone, Copy)]
pub enum RecordEnd {
    At(usize),
    NoSlashes,
    Unended,
}

// The place after all empty lines that stand there.
fn empty_lines(s: &[u8], at: usize) -> usize
    requires { at ≤ length s.now }
    ensures { EmptyPassed s.now at result }
{
    let mut i = at;
    loop {
        match scan_bytes::line_end(s, i) {
            Step::Got(next) => {
                i = next;
            }
            Step::No => return i,
            Step::Cut => return i,
        }
    }
}

// What was seen where a line begins: `//`, or neither that nor the end.
#[derive(Clone, Copy)]
pub struct Seen {
    pub more: bool,
    pub found: bool,
}

// Whether what is left begins `//`.
fn slashes_first(rest: &[u8]) -> bool
    requires { 2 ≤ length rest.now }
    ensures { result ≡ (eqb (get_or rest.now 0 0) 47 && eqb (get_or rest.now 1 0) 47) }
{
    rest[0] == b'/' && rest[1] == b'/'
}

// Whether what is left begins `//`, and if not, whether a later line may.
fn seen_in(rest: &[u8]) -> Seen
    ensures { Sought rest.now result }
{
    if rest.len() < 2 {
        return Seen {
            more: false,
            found: false,
        };
    }
    if slashes_first(rest) {
        return Seen {
            more: false,
            found: true,
        };
    }
    Seen {
        more: true,
        found: false,
    }
}

// Whether a line beginning `//` stands after the place.
pub fn slashes_later(s: &[u8], at: usize) -> bool
    requires { at ≤ length s.now }
    ensures { result ≡ slashes_later (drop at s.now) }
{
    let mut reader = scan_lines::reader_at(s, at);
    let mut seen = Seen {
        more: true,
        found: false,
    };
    while seen.more {
        scan_lines::next_feed(&mut reader);
        seen = seen_in(scan_lines::rest(reader));
    }
    seen.found
}

// `//` and the empty lines after it, where the sections end.
pub fn record_end(s: &[u8], at: usize) -> RecordEnd
    requires { at ≤ length s.now }
    ensures { Ended s.now at result }
{
    match scan_bytes::tag(s, at, b"//") {
        Step::Got(next) => RecordEnd::At(empty_lines(s, next)),
        Step::No => {
            if slashes_later(s, at) {
                return RecordEnd::NoSlashes;
            }
            RecordEnd::Unended
        }
        Step::Cut => RecordEnd::Unended,
    }
}
