// UTF-8, tested byte by byte with a state that can be carried from one piece of a text to the next.
#![tactic(auto)]

ghost use Rattle.std.specs.Prelude.{◌≡◌, ◌≤◌, ◌&&◌, ◌∷◌, [], length, drop, eqb};
ghost use Rattle.spec_format.specs.Bytes.{all};
ghost use Rattle.spec_format.specs.Readers.{line, utf8_of};
ghost use Rattle.spec_format.specs.Utf8.{utf8};
ghost use Rattle.scan_bytes.specs.Places.{part};
ghost use Rattle.scan_bytes.specs.Views.{Lined};
ghost use Rattle.scan_utf8.specs.States.{start, failed, lead_of_four, lead_of, step_of, ascii, Ran};

use base_arith::both;
use scan_bytes::Line;

// What a text may go on with: `more` bytes of a character, the next of them `low` to `high`. No byte leads out of a state whose range is empty.
#[derive(Clone, Copy)]
pub struct State {
    pub more: u8,
    pub low: u8,
    pub high: u8,
}

pub fn state_of(more: u8, low: u8, high: u8) -> State
    ensures { result ≡ (record { more = more; low = low; high = high }) }
{
    State { more, low, high }
}

// Between characters.
pub fn started() -> State
    ensures { result ≡ start }
{
    State {
        more: 0,
        low: 0,
        high: 0,
    }
}

// The numbers of `lead_of_four` and `lead` are those of UTF-8: 128 to 191 go on, 194 to 223 begin two bytes, 224 to 239 three, 240 to 244 four. After 224 and
// 240 nothing that is too long for its character may stand, after 237 no surrogate, after 244 nothing above the last character.

// The first byte of a character of four bytes.
fn lead_of_four(b: u8) -> State
    ensures { result ≡ lead_of_four b }
{
    if b == 240 {
        return state_of(3, 144, 191);
    }
    if scan_bytes::is_between(241, 243, b) {
        return state_of(3, 128, 191);
    }
    if b == 244 {
        return state_of(3, 128, 143);
    }
    state_of(1, 1, 0)
}

// A character's first byte.
fn lead(b: u8) -> State
    ensures { result ≡ lead_of b }
{
    if b < 128 {
        return state_of(0, 0, 0);
    }
    if scan_bytes::is_between(194, 223, b) {
        return state_of(1, 128, 191);
    }
    if b == 224 {
        return state_of(2, 160, 191);
    }
    if b == 237 {
        return state_of(2, 128, 159);
    }
    if scan_bytes::is_between(225, 239, b) {
        return state_of(2, 128, 191);
    }
    lead_of_four(b)
}

fn step(u: State, b: u8) -> State
    ensures { result ≡ step_of u b }
{
    let more = u.more;
    if more == 0 {
        return lead(b);
    }
    if scan_bytes::is_between(u.low, u.high, b) {
        return state_of(more - 1, 128, 191);
    }
    state_of(1, 1, 0)
}

fn is_ascii(b: u8) -> bool
    ensures { result ≡ ascii b }
{
    b < 128
}

fn ascii_in(s: &[u8], from: usize, to: usize) -> bool
    requires { (from ≤ to) × (to ≤ length s.now) }
    ensures { result ≡ all ascii (part from to s.now) }
{
    let mut ok = true;
    let mut i = from;
    while i < to {
        ok = both(ok, is_ascii(s[i]));
        i += 1;
    }
    ok
}

fn steps(u: State, s: &[u8], from: usize, to: usize) -> State
    requires { (from ≤ to) × (to ≤ length s.now) }
    ensures { Ran u (part from to s.now) result }
{
    let mut v = u;
    let mut i = from;
    while i < to {
        v = step(v, s[i]);
        i += 1;
    }
    v
}

// The state after the bytes of `s` from `from` to `to`.
pub fn utf8_on(u: State, s: &[u8], from: usize, to: usize) -> State
    requires { (from ≤ to) × (to ≤ length s.now) }
    ensures { Ran u (part from to s.now) result }
{
    if u.more == 0 {
        if ascii_in(s, from, to) {
            return started();
        }
    }
    steps(u, s, from, to)
}

// The state after a LF.
pub fn utf8_feed(u: State) -> State
    ensures { Ran u (10 ∷ []) result }
{
    step(u, b'\n')
}

// Whether a text may end here.
pub fn utf8_ends(u: State) -> bool
    ensures { result ≡ eqb u.more 0 }
{
    u.more == 0
}

pub fn utf8_ok(s: &[u8], from: usize, to: usize) -> bool
    requires { (from ≤ to) × (to ≤ length s.now) }
    ensures { result ≡ utf8 (part from to s.now) }
{
    let u = utf8_on(started(), s, from, to);
    utf8_ends(u)
}

// A line of UTF-8.
pub fn utf8_line(s: &[u8], at: usize) -> Line
    requires { at ≤ length s.now }
    ensures { Lined s.now at (utf8_of (line (drop at s.now))) result }
{
    match scan_bytes::line_at(s, at) {
        Line::No => Line::No,
        Line::Cut => Line::Cut,
        Line::Got { end, next } => {
            if utf8_ok(s, at, end) {
                return Line::Got { end, next };
            }
            Line::No
        }
    }
}
