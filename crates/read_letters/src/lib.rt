// The letters of ORIGIN: `parse_seq_data` of stream_parser.rs, counted first and then put into the lent room. A line of the usual layout
// (nine columns of number, six times a space and ten letters, a line end) is tested at once and taken whole.
#![tactic(auto)]

ghost use Rattle.std.specs.Prelude.{◌≡◌, [], ◌++◌, ◌+◌, ◌-◌, ◌≤◌, length, drop};
ghost use Rattle.spec_format.specs.Bytes.{letter};
ghost use Rattle.spec_bases.specs.Bases.{coded};
ghost use Rattle.spec_format.specs.Origin.{skipped};
ghost use Rattle.base_pen.specs.Pen.{Writes};
ghost use Rattle.scan_bases.specs.Common.{common};
ghost use Rattle.read_letters.specs.Runs.{taken, letters_by, tally, plus, Counts, sifted, Runs, Skips, one, count_in, spaced, ten, thirty_of, sixty_of};

use base_arith::{both, either};

// How many letters there are, and the place of the `/` that ends them; or the place of a byte that may not stand there, which with the strict switch may be a letter.
#[derive(Clone, Copy)]
pub enum Counted {
    AtSlash { count: usize, next: usize },
    AtEnd { count: usize },
    Bad { next: usize },
}

fn is_skipped(b: u8) -> bool
    ensures { result ≡ skipped b }
{
    either(
        scan_bytes::is_digit(b),
        either(b == b' ', either(b == b'\r', b == b'\n')),
    )
}

// Whether the n bytes at a place are skipped.
fn skips(s: &[u8], at: usize, n: usize) -> bool
    requires { at + n ≤ length s.now }
    ensures { Skips s.now at (at + n) result }
{
    let mut ok = true;
    let mut j = 0;
    while j < n {
        ok = both(ok, is_skipped(s[at + j]));
        j += 1;
    }
    ok
}

// Whether nine columns end in a digit and the eight before it are skipped.
fn numbered(s: &[u8], at: usize) -> bool
    requires { at + 9 ≤ length s.now }
    ensures { Skips s.now at (at + 9) result }
{
    if !scan_bytes::is_digit(s[at + 8]) {
        return false;
    }
    skips(s, at, 8)
}

// Whether a line ends at a place.
fn ends(s: &[u8], at: usize) -> bool
    requires { at + 1 ≤ length s.now }
    ensures { Skips s.now at (at + 1) result }
{
    s[at] == b'\n' || s[at] == b'\r'
}

fn one_if(t: bool) -> u8
    ensures { result ≡ one t }
{
    if t {
        return 1;
    }
    0
}

// How many of the 65 bytes at a place are letters: a sum of bytes in a loop without a branch, which the compiler makes of many bytes at once.
fn letters_in(s: &[u8], at: usize) -> u8
    requires { at + 65 ≤ length s.now }
    ensures { result ≡ count_in letter s.now at 65 }
{
    let mut n: u8 = 0;
    let mut j = 0;
    while j < 65 {
        n += one_if(scan_bytes::is_letter(s[at + j]));
        j += 1;
    }
    n
}

// How many of them have a code.
fn codes_in(s: &[u8], at: usize) -> u8
    requires { at + 65 ≤ length s.now }
    ensures { result ≡ count_in coded s.now at 65 }
{
    let mut n: u8 = 0;
    let mut j = 0;
    while j < 65 {
        n += one_if(scan_bases::is_coded(s[at + j]));
        j += 1;
    }
    n
}

// How many of them stand for one base alone or for all: half as many comparisons as for all codes, and nearly all lines have no others.
fn common_in(s: &[u8], at: usize) -> u8
    requires { at + 65 ≤ length s.now }
    ensures { result ≡ count_in common s.now at 65 }
{
    let mut n: u8 = 0;
    let mut j = 0;
    while j < 65 {
        n += one_if(scan_bases::is_common(s[at + j]));
        j += 1;
    }
    n
}

// Whether a space stands at a place and before each of the two tens of letters after the next ten.
fn three_spaces(s: &[u8], at: usize) -> bool
    requires { at + 33 ≤ length s.now }
    ensures { result ≡ spaced s.now at }
{
    s[at] == b' ' && (s[at + 11] == b' ' && s[at + 22] == b' ')
}

// Whether six times a space and ten letters stand at a place, with the switch letters that have a code. Of 66 bytes that begin so, 60 are letters only if all others are.
fn sixty(s: &[u8], at: usize, strict: bool) -> bool
    requires { at + 66 ≤ length s.now }
    ensures { Runs strict s.now at (at + 66) (thirty_of s.now at ++ thirty_of s.now (at + 33)) result }
{
    if !three_spaces(s, at) {
        return false;
    }
    if !three_spaces(s, at + 33) {
        return false;
    }
    if !strict {
        return letters_in(s, at + 1) == 60;
    }
    if common_in(s, at + 1) == 60 {
        return true;
    }
    codes_in(s, at + 1) == 60
}

// Whether a line of the usual layout does.
fn usual(s: &[u8], at: usize, strict: bool) -> bool
    requires { at + 76 ≤ length s.now }
    ensures { Runs strict s.now at (at + 76) (sixty_of s.now at) result }
{
    if !ends(s, at + 75) {
        return false;
    }
    if !sixty(s, at + 9, strict) {
        return false;
    }
    numbered(s, at)
}

// Whether a byte is a letter, with the switch one that has a code.
fn is_taken(b: u8, strict: bool) -> bool
    ensures { result ≡ taken strict b }
{
    if strict {
        return scan_bases::is_coded(b);
    }
    scan_bytes::is_letter(b)
}

// The letters at a place, byte by byte, after n others.
fn count_from(s: &[u8], at: usize, n: usize, strict: bool) -> Counted
    requires { (at ≤ length s.now) × (n ≤ at) }
    ensures { Counts s.now (at - n) (plus n (tally (letters_by strict (drop at s.now)))) result }
{
    let mut k = n;
    let mut i = at;
    while i < s.len() {
        let b = s[i];
        if is_taken(b, strict) {
            k += 1;
            i += 1;
            continue;
        }
        if b == b'/' {
            return Counted::AtSlash { count: k, next: i };
        }
        if !is_skipped(b) {
            return Counted::Bad { next: i };
        }
        i += 1;
    }
    Counted::AtEnd { count: k }
}

// The letters at a place: lines of the usual layout, which may end in CR and LF and have empty lines between them, and then byte by byte.
pub fn count_letters(s: &[u8], at: usize, strict: bool) -> Counted
    requires { at ≤ length s.now }
    ensures { Counts s.now at (tally (letters_by strict (drop at s.now))) result }
{
    let mut k = 0;
    let mut i = at;
    while 76 <= s.len() - i {
        if usual(s, i, strict) {
            k += 60;
            i += 76;
            continue;
        }
        if s[i] != b'\n' {
            return count_from(s, i, k, strict);
        }
        i += 1;
    }
    count_from(s, i, k, strict)
}

// ---- into the room

// Ten bytes by value: nothing then says that they could lie in the room, and they go there as wide moves.
fn ten_of(s: &[u8], at: usize) -> [u8; 10]
    requires { at + 10 ≤ length s.now }
    ensures { result ≡ ten s.now at }
{
    let mut t = [0u8; 10];
    let mut j = 0;
    while j < 10 {
        t[j] = s[at + j];
        j += 1;
    }
    t
}

// Ten bytes, which fit.
fn copy_ten(s: &[u8], at: usize, room: &mut [u8], place: usize) -> usize
    requires { (at + 10 ≤ length s.now) × (place + 10 ≤ length room.old) }
    ensures { Writes room.old place (ten s.now at) room.new result × (result ≡ place + 10) }
{
    let t = ten_of(s, at);
    base_pen::store(room, place, &t);
    place + 10
}

// Thirty letters of three groups, which fit.
fn copy_thirty(s: &[u8], at: usize, room: &mut [u8], place: usize) -> usize
    requires { (at + 33 ≤ length s.now) × (place + 30 ≤ length room.old) }
    ensures { Writes room.old place (thirty_of s.now at) room.new result × (result ≡ place + 30) }
{
    let a = copy_ten(s, at + 1, room, place);
    let b = copy_ten(s, at + 12, room, a);
    copy_ten(s, at + 23, room, b)
}

// The sixty letters of a line of the usual layout, which fit.
fn copy_sixty(s: &[u8], at: usize, room: &mut [u8], place: usize) -> usize
    requires { (at + 76 ≤ length s.now) × (place + 60 ≤ length room.old) }
    ensures { Writes room.old place (sixty_of s.now at) room.new result }
{
    let next = copy_thirty(s, at + 9, room, place);
    copy_thirty(s, at + 42, room, next)
}

// Thirty letters of three groups, of which some may not fit.
fn put_thirty(s: &[u8], at: usize, room: &mut [u8], place: usize) -> usize
    requires { at + 33 ≤ length s.now }
    ensures { Writes room.old place (thirty_of s.now at) room.new result }
{
    let a = base_pen::put_all(room, place, &s[at + 1..at + 11]);
    let b = base_pen::put_all(room, a, &s[at + 12..at + 22]);
    base_pen::put_all(room, b, &s[at + 23..at + 33])
}

// The sixty letters of a line of the usual layout: one test of the room, for all of them.
fn put_sixty(s: &[u8], at: usize, room: &mut [u8], place: usize) -> usize
    requires { at + 76 ≤ length s.now }
    ensures { Writes room.old place (sixty_of s.now at) room.new result }
{
    if place <= room.len() {
        if 60 <= room.len() - place {
            return copy_sixty(s, at, room, place);
        }
    }
    let next = put_thirty(s, at + 9, room, place);
    put_thirty(s, at + 42, room, next)
}

// The letters at a place, byte by byte.
fn put_from(s: &[u8], at: usize, room: &mut [u8], place: usize) -> usize
    requires { at ≤ length s.now }
    ensures { Writes room.old place (sifted (drop at s.now)) room.new result }
{
    let mut p = place;
    let mut i = at;
    while i < s.len() {
        let b = s[i];
        if scan_bytes::is_letter(b) {
            p = base_pen::put(room, p, b);
            i += 1;
            continue;
        }
        if !is_skipped(b) {
            return p;
        }
        i += 1;
    }
    p
}

// The letters at a place, up to the byte that ends them, put at a place of the room.
pub fn put_letters(s: &[u8], at: usize, room: &mut [u8], place: usize) -> usize
    requires { at ≤ length s.now }
    ensures { Writes room.old place (sifted (drop at s.now)) room.new result }
{
    let mut p = place;
    let mut i = at;
    while 76 <= s.len() - i {
        if usual(s, i, false) {
            p = put_sixty(s, i, room, p);
            i += 76;
            continue;
        }
        if s[i] != b'\n' {
            return put_from(s, i, room, p);
        }
        i += 1;
    }
    put_from(s, i, room, p)
}
