// The fields of a stored line: numbers that `;` ends, and texts between quotes. Spaces may stand before each.
ghost use Rattle.std.specs.Prelude.{◌≤◌, ◌<◌, length, get_or, ◌≡◌};
ghost use Rattle.test_stored_lines.specs.Compared.{Same};

// Where the next field starts, and how many numbers or bytes this one has.
#[derive(Clone, Copy)]
pub struct Field {
    pub next: usize,
    pub count: usize,
}

// Where the line goes on, and whether all was as stored so far.
#[derive(Clone, Copy)]
pub struct Checked {
    pub next: usize,
    pub same: bool,
}

// ---- lines

// The byte at a place; 0 past the end.
pub fn byte_at(s: &[u8], at: usize) -> u8
    ensures { result ≡ get_or s.now at 0 }
{
    if at < s.len() {
        return s[at];
    }
    0
}

// Behind the next LF, or the end.
pub fn next_line(s: &[u8], at: usize) -> usize
    requires { at < length s.now }
    ensures { (at < result) × (result ≤ length s.now) }
{
    let mut i = at;
    while i < s.len() {
        if s[i] == b'\n' {
            return i + 1;
        }
        i += 1;
    }
    i
}

// ---- numbers

// How far a list of numbers is read.
#[derive(Clone, Copy)]
struct Listing {
    count: usize,
    value: usize,
    some: bool,
    done: bool,
}

fn is_digit(b: u8) -> bool {
    if b < b'0' {
        return false;
    }
    b <= b'9'
}

// The value with one more digit. A number that a usize does not hold stands in no line.
fn with_digit(value: usize, b: u8) -> usize {
    let digit = hex(b) as usize;
    if (usize::MAX - digit) / 10 < value {
        return value;
    }
    value * 10 + digit
}

// Puts the number that has been read, if there is one, and tells how many there are then.
fn put_read(room: &mut [usize], so_far: Listing) -> usize {
    if so_far.some {
        return base_pen::put(room, so_far.count, so_far.value);
    }
    so_far.count
}

fn after_number(room: &mut [usize], so_far: Listing, b: u8) -> Listing {
    Listing {
        count: put_read(room, so_far),
        value: 0,
        some: false,
        done: b == b';',
    }
}

fn list_byte(room: &mut [usize], so_far: Listing, b: u8) -> Listing {
    if is_digit(b) {
        return Listing {
            count: so_far.count,
            value: with_digit(so_far.value, b),
            some: true,
            done: false,
        };
    }
    after_number(room, so_far, b)
}

// The numbers up to `;`, put into the room from its start.
pub fn take_numbers(s: &[u8], at: usize, room: &mut [usize]) -> Field {
    let mut so_far = Listing {
        count: 0,
        value: 0,
        some: false,
        done: false,
    };
    let mut i = at;
    while i < s.len() {
        if so_far.done {
            break;
        }
        so_far = list_byte(room, so_far, s[i]);
        i += 1;
    }
    Field {
        next: i,
        count: so_far.count,
    }
}

// ---- texts

// Where in a text a byte stands: before its first quote, in it, after `\`, after `\x`, after that and a digit, behind its last quote.
#[derive(Clone, Copy)]
enum Place {
    Before,
    Inside,
    Escape,
    High,
    Low(u8),
    Behind,
}

// The byte that a byte of the line adds to the text, if it adds one.
#[derive(Clone, Copy)]
enum Added {
    Byte(u8),
    Nothing,
}

// The value of a hexadecimal digit.
fn hex(b: u8) -> u8
    ensures { result ≤ 15 }
{
    if b < b'0' {
        return 0;
    }
    if b <= b'9' {
        return b - 48;
    }
    if b < b'a' {
        return 0;
    }
    if b <= b'f' {
        return b - 87;
    }
    0
}

fn two_digits(high: u8, low: u8) -> u8 {
    if 15 < high {
        return 0;
    }
    high * 16 + hex(low)
}

fn after_inside(b: u8) -> Place {
    if b == b'"' {
        return Place::Behind;
    }
    if b == b'\\' {
        return Place::Escape;
    }
    Place::Inside
}

fn after_escape(b: u8) -> Place {
    if b == b'x' {
        return Place::High;
    }
    Place::Inside
}

fn before_text(b: u8) -> Place {
    if b == b'"' {
        return Place::Inside;
    }
    Place::Before
}

fn place_after(place: Place, b: u8) -> Place {
    match place {
        Place::Before => before_text(b),
        Place::Inside => after_inside(b),
        Place::Escape => after_escape(b),
        Place::High => Place::Low(hex(b)),
        Place::Low(_) => Place::Inside,
        Place::Behind => Place::Behind,
    }
}

fn from_inside(b: u8) -> Added {
    if b == b'"' {
        return Added::Nothing;
    }
    if b == b'\\' {
        return Added::Nothing;
    }
    Added::Byte(b)
}

fn from_escape(b: u8) -> Added {
    if b == b'x' {
        return Added::Nothing;
    }
    if b == b'n' {
        return Added::Byte(10);
    }
    Added::Byte(b)
}

fn what_adds(place: Place, b: u8) -> Added {
    match place {
        Place::Before => Added::Nothing,
        Place::Inside => from_inside(b),
        Place::Escape => from_escape(b),
        Place::High => Added::Nothing,
        Place::Low(high) => Added::Byte(two_digits(high, b)),
        Place::Behind => Added::Nothing,
    }
}

fn put_added(room: &mut [u8], count: usize, what: Added) -> usize {
    match what {
        Added::Nothing => count,
        Added::Byte(b) => base_pen::put(room, count, b),
    }
}

fn is_behind(place: Place) -> bool {
    match place {
        Place::Before => false,
        Place::Inside => false,
        Place::Escape => false,
        Place::High => false,
        Place::Low(_) => false,
        Place::Behind => true,
    }
}

// The text between quotes, put into the room from its start.
pub fn take_text(s: &[u8], at: usize, room: &mut [u8]) -> Field {
    let mut place = Place::Before;
    let mut count = 0;
    let mut i = at;
    while i < s.len() {
        if is_behind(place) {
            break;
        }
        count = put_added(room, count, what_adds(place, s[i]));
        place = place_after(place, s[i]);
        i += 1;
    }
    Field {
        next: i,
        count: count,
    }
}

// ---- what was taken

// The number at a place of a list; 0 past its end.
pub fn number_at(list: &[usize], i: usize) -> usize
    ensures { result ≡ get_or list.now i 0 }
{
    if i < list.len() {
        return list[i];
    }
    0
}

// How much of a room of that length a list of n numbers lends at place i; all of it if it does not say.
pub fn lent(list: &[usize], n: usize, i: usize, room: usize) -> usize
    ensures { result ≤ room }
{
    if n <= i {
        return room;
    }
    let asked = number_at(list, i);
    if asked < room {
        return asked;
    }
    room
}

// The number is among the first n of a list.
pub fn among(list: &[usize], n: usize, number: usize) -> bool {
    let mut i = 0;
    while i < n {
        if list.len() <= i {
            return false;
        }
        if list[i] == number {
            return true;
        }
        i += 1;
    }
    false
}

pub fn same_numbers(a: &[usize], b: &[usize]) -> bool
    ensures { Same a.now b.now result }
{
    if a.len() != b.len() {
        return false;
    }
    let mut i = 0;
    while i < a.len() {
        if a[i] != b[i] {
            return false;
        }
        i += 1;
    }
    true
}
