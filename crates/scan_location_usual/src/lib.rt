// Most locations are a range or the complement of one, `n..m` or `complement(n..m)`, and most members of a join are ranges: these are known in one pass over their bytes, and of
// any other text nothing is said. Who reads a location asks this first, since other readers look at each byte several times.
#![tactic(auto)]

ghost use Rattle.std.specs.Prelude.{◌≡◌, ◌-◌, ◌≤◌, length};
ghost use Rattle.spec_format.specs.Bytes.{starts, digit};
ghost use Rattle.scan_location_bytes.specs.Views.{view, Ready};
ghost use Rattle.scan_location_usual.specs.Usuals.{DigitsTo, NumberTo, RangeTo, RangedAt, Opened, Known};

use scan_bytes::Step;
use scan_location_bytes::{Laid, Peek, Spot};

fn value_of(digit: u8) -> usize
    requires { 48 ≤ digit }
    ensures { result ≡ digit - 48 }
{
    (digit - b'0') as usize
}

// The number that digits make, and the place after them.
#[derive(Clone, Copy)]
struct Run {
    value: usize,
    next: usize,
}

// What the digits from `at` on make of `first`, as long as the number has ten digits at most.
fn digits_on(s: &[u8], at: usize, first: usize) -> Run
    requires { (at ≤ length s.now) × (first ≤ 9) }
    ensures { DigitsTo s.now at first result }
{
    let mut v = first;
    let mut i = at;
    while i < s.len() {
        let b = s[i];
        if scan_bytes::is_digit(b) {
            if 429496728 < v {
                return Run { value: v, next: i };
            }
            v = 10 * v + value_of(b);
            i += 1;
        } else {
            return Run { value: v, next: i };
        }
    }
    Run { value: v, next: i }
}

// A base number, if no digit follows; 0 where none stands.
fn number_on(s: &[u8], at: usize) -> Run
    requires { at ≤ length s.now }
    ensures { NumberTo s.now at result }
{
    if at < s.len() {
        let b = s[at];
        if scan_bytes::is_between(b'1', b'9', b) {
            return digits_on(s, at + 1, value_of(b));
        }
    }
    Run { value: 0, next: at }
}

// A range and the place after it, if no digit follows.
#[derive(Clone, Copy)]
enum Range {
    Is { from: usize, to: usize, next: usize },
    Other,
}

fn range_on(s: &[u8], at: usize) -> Range
    requires { at ≤ length s.now }
    ensures { RangeTo s.now at result }
{
    let first = number_on(s, at);
    if first.value == 0 {
        return Range::Other;
    }
    let dots = first.next;
    if s.len() - dots < 2 {
        return Range::Other;
    }
    if s[dots] != b'.' {
        return Range::Other;
    }
    if s[dots + 1] != b'.' {
        return Range::Other;
    }
    let last = number_on(s, dots + 2);
    if last.value == 0 {
        return Range::Other;
    }
    Range::Is {
        from: first.value,
        to: last.value,
        next: last.next,
    }
}

// ---- at a spot of any text

#[derive(Clone, Copy)]
pub enum Ranged {
    Is { from: usize, to: usize, spot: Spot },
    Other,
}

fn digit_follows(s: &[u8], laid: Laid, at: usize) -> bool
    requires { at ≤ length s.now }
    ensures { result ≡ starts digit (view laid s.now at) }
{
    match scan_location_bytes::byte_at(s, laid, at) {
        Peek::Byte { byte, next: _ } => scan_bytes::is_digit(byte),
        Peek::End => false,
    }
}

// A range in one piece.
pub fn range_at(s: &[u8], laid: Laid, spot: Spot) -> Ranged
    requires { Ready laid s.now spot }
    ensures { RangedAt laid s.now spot result }
{
    match range_on(s, spot.at) {
        Range::Is { from, to, next } => {
            if digit_follows(s, laid, next) {
                return Ranged::Other;
            }
            let behind = Spot {
                at: next,
                off: spot.off + (next - spot.at),
            };
            Ranged::Is {
                from,
                to,
                spot: behind,
            }
        }
        Range::Other => Ranged::Other,
    }
}

// ---- a whole text

#[derive(Clone, Copy)]
pub enum Usual {
    Range { from: usize, to: usize },
    Complement { from: usize, to: usize },
    Other,
}

// A range and nothing behind it.
fn range_only(s: &[u8]) -> Usual
    ensures { Known s.now result }
{
    match range_on(s, 0) {
        Range::Is { from, to, next } => {
            if next < s.len() {
                return Usual::Other;
            }
            Usual::Range { from, to }
        }
        Range::Other => Usual::Other,
    }
}

// From the bracket on: a range, and the bracket that closes.
fn complement_on(s: &[u8], at: usize) -> Usual
    requires { Opened s.now at }
    ensures { Known s.now result }
{
    match range_on(s, at) {
        Range::Is { from, to, next } => {
            if s.len() - next != 1 {
                return Usual::Other;
            }
            if s[next] != b')' {
                return Usual::Other;
            }
            Usual::Complement { from, to }
        }
        Range::Other => Usual::Other,
    }
}

// The text is all of `s`.
pub fn usual_at(s: &[u8]) -> Usual
    ensures { Known s.now result }
{
    match scan_bytes::tag(s, 0, b"complement(") {
        Step::Got(at) => complement_on(s, at),
        Step::No => range_only(s),
        Step::Cut => range_only(s),
    }
}
