// What a location is made of but for its brackets: base numbers, ranges, accessions, gaps, and the words before brackets.
#![tactic(auto)]

ghost use Rattle.std.specs.Prelude.{◌≡◌, ◌≤◌};
ghost use Rattle.spec_format.specs.Bytes.{bytes, is};
ghost use Rattle.spec_format.specs.Location.{past, behind, base_number, leaf_row, range_from, after_first, after_less, bases, version_colon, accession, in_gap, gap_end, leaf, plain, begin};
ghost use Rattle.scan_location_bytes.specs.Views.{view, total, Ready, Reached};
ghost use Rattle.scan_location.specs.Views.{Digited, Counted, Numbered, row_of, last_of, Plained, Follows, Begins};

use scan_location_bytes::{Class, Laid, Peek, Spot, Word, byte_at, mark_at, past_run, word_at};

// A location row, by value.
#[derive(Clone, Copy)]
pub struct Row {
    pub form: usize,
    pub marks: usize,
    pub from: usize,
    pub to: usize,
    pub start: usize,
    pub length: usize,
    pub inside: usize,
}

// ---- numbers

#[derive(Clone, Copy)]
enum Digit {
    Is { value: usize, spot: Spot },
    None,
}

fn digit_at(s: &[u8], laid: Laid, spot: Spot) -> Digit
    requires { Ready laid s.now spot }
    ensures { Digited laid s.now spot result }
{
    match byte_at(s, laid, spot.at) {
        Peek::Byte { byte, next } => {
            if scan_bytes::is_digit(byte) {
                return Digit::Is {
                    value: (byte - b'0') as usize,
                    spot: Spot {
                        at: next,
                        off: spot.off + 1,
                    },
                };
            }
            Digit::None
        }
        Peek::End => Digit::None,
    }
}

#[derive(Clone, Copy)]
enum Number {
    Of { value: usize, spot: Spot },
    Fault,
}

// The number that the digits from here on make of `first`.
fn digits_at(s: &[u8], laid: Laid, spot: Spot, first: usize) -> Number
    requires { Ready laid s.now spot × (first ≤ 9) }
    ensures { Counted laid s.now spot first result }
{
    let mut v = first;
    let mut p = spot;
    loop {
        match digit_at(s, laid, p) {
            Digit::Is { value, spot: q } => {
                v = 10 * v + value;
                if 4294967295 < v {
                    return Number::Fault;
                }
                p = q;
            }
            Digit::None => {
                return Number::Of { value: v, spot: p };
            }
        }
    }
}

// A base number.
fn number_at(s: &[u8], laid: Laid, spot: Spot) -> Number
    requires { Ready laid s.now spot }
    ensures { Numbered laid s.now spot (base_number (view laid s.now spot.at)) result }
{
    match digit_at(s, laid, spot) {
        Digit::Is { value, spot: p } => {
            if value == 0 {
                return Number::Fault;
            }
            digits_at(s, laid, p, value)
        }
        Digit::None => Number::Fault,
    }
}

// ---- bases and ranges

// A row and the spot behind it, or that none stands there.
#[derive(Clone, Copy)]
pub enum Plain {
    Row { row: Row, spot: Spot },
    Fault,
}

// Where an accession stands in the text, and its length: 0 and 0 where there is none.
#[derive(Clone, Copy)]
struct Name {
    start: usize,
    length: usize,
}

fn row_of(name: Name, form: usize, marks: usize, from: usize, to: usize) -> Row
    ensures { row_of result ≡ leaf_row name.start name.length form marks from to }
{
    Row {
        form,
        marks,
        from,
        to,
        start: name.start,
        length: name.length,
        inside: 0,
    }
}

// The last number of a row whose first is known.
fn last_at(
    s: &[u8],
    laid: Laid,
    spot: Spot,
    name: Name,
    form: usize,
    marks: usize,
    from: usize,
) -> Plain
    requires { Ready laid s.now spot }
    ensures { Plained laid s.now spot (last_of (leaf_row name.start name.length form marks from) (base_number (view laid s.now spot.at))) result }
{
    match number_at(s, laid, spot) {
        Number::Of { value, spot: p } => Plain::Row {
            row: row_of(name, form, marks, from, value),
            spot: p,
        },
        Number::Fault => Plain::Fault,
    }
}

// The second number of a range, behind its dots.
fn range_at(s: &[u8], laid: Laid, spot: Spot, name: Name, marks: usize, from: usize) -> Plain
    requires { Ready laid s.now spot × (marks ≤ 1) }
    ensures { Plained laid s.now spot (range_from (leaf_row name.start name.length) marks from (view laid s.now spot.at)) result }
{
    match mark_at(s, laid, spot, b'>') {
        Word::Past(p) => last_at(s, laid, p, name, 2, marks + 2, from),
        Word::Other => last_at(s, laid, spot, name, 2, marks, from),
    }
}

// What follows a first number that had no `<`.
fn after_first(s: &[u8], laid: Laid, spot: Spot, name: Name, from: usize) -> Plain
    requires { Ready laid s.now spot }
    ensures { Follows laid s.now spot (after_first (leaf_row name.start name.length) from (behind (bytes "..") (view laid s.now spot.at)) (view laid s.now spot.at)) result }
{
    match word_at(s, laid, spot, b"..") {
        Word::Past(p) => range_at(s, laid, p, name, 0, from),
        Word::Other => match mark_at(s, laid, spot, b'^') {
            Word::Past(p) => last_at(s, laid, p, name, 3, 0, from),
            Word::Other => Plain::Row {
                row: row_of(name, 1, 0, from, from),
                spot,
            },
        },
    }
}

// What follows a first number that had `<`.
fn after_less(s: &[u8], laid: Laid, spot: Spot, name: Name, from: usize) -> Plain
    requires { Ready laid s.now spot }
    ensures { Plained laid s.now spot (after_less (leaf_row name.start name.length) from (behind (bytes "..") (view laid s.now spot.at))) result }
{
    match word_at(s, laid, spot, b"..") {
        Word::Past(p) => range_at(s, laid, p, name, 1, from),
        Word::Other => Plain::Fault,
    }
}

fn bases_at(s: &[u8], laid: Laid, spot: Spot, name: Name) -> Plain
    requires { Ready laid s.now spot }
    ensures { Plained laid s.now spot (bases name.start name.length (view laid s.now spot.at)) result }
{
    match mark_at(s, laid, spot, b'<') {
        Word::Past(p) => match number_at(s, laid, p) {
            Number::Of { value, spot: q } => after_less(s, laid, q, name, value),
            Number::Fault => Plain::Fault,
        },
        Word::Other => match number_at(s, laid, spot) {
            Number::Of { value, spot: q } => after_first(s, laid, q, name, value),
            Number::Fault => Plain::Fault,
        },
    }
}

// ---- accessions and gaps

// Digits and a colon, behind an accession's dot.
fn version_at(s: &[u8], laid: Laid, spot: Spot) -> Word
    requires { Ready laid s.now spot }
    ensures { Reached laid s.now spot (version_colon (is (view laid s.now spot.at))) result }
{
    let end = past_run(s, laid, spot, Class::Digits);
    if end.off == spot.off {
        return Word::Other;
    }
    mark_at(s, laid, end, b':')
}

// An accession with its colon.
fn accession_at(s: &[u8], laid: Laid, spot: Spot) -> Word
    requires { Ready laid s.now spot }
    ensures { Reached laid s.now spot (accession (view laid s.now spot.at)) result }
{
    let end = past_run(s, laid, spot, Class::Accession);
    if end.off == spot.off {
        return Word::Other;
    }
    match mark_at(s, laid, end, b'.') {
        Word::Past(p) => version_at(s, laid, p),
        Word::Other => Word::Other,
    }
}

fn leaf_at(s: &[u8], laid: Laid, spot: Spot) -> Plain
    requires { Ready laid s.now spot }
    ensures { Plained laid s.now spot (leaf (total laid s.now spot) (view laid s.now spot.at)) result }
{
    match accession_at(s, laid, spot) {
        Word::Past(p) => {
            let name = Name {
                start: spot.off,
                length: p.off - spot.off - 1,
            };
            bases_at(s, laid, p, name)
        }
        Word::Other => {
            let name = Name {
                start: 0,
                length: 0,
            };
            bases_at(s, laid, spot, name)
        }
    }
}

// What stands in the brackets of gap( ), and the closing one.
fn gap_at(s: &[u8], laid: Laid, spot: Spot) -> Plain
    requires { Ready laid s.now spot }
    ensures { Plained laid s.now spot (gap_end (total laid s.now spot) (view laid s.now spot.at) (behind (bytes ")") (past in_gap (view laid s.now spot.at)))) result }
{
    let end = past_run(s, laid, spot, Class::Gap);
    match mark_at(s, laid, end, b')') {
        Word::Past(p) => Plain::Row {
            row: Row {
                form: 7,
                marks: 0,
                from: 0,
                to: 0,
                start: spot.off,
                length: end.off - spot.off,
                inside: 0,
            },
            spot: p,
        },
        Word::Other => Plain::Fault,
    }
}

// A location that is no word, of one row. Gaps stand in CONTIG only.
pub fn plain_at(s: &[u8], laid: Laid, gaps: bool, spot: Spot) -> Plain
    requires { Ready laid s.now spot }
    ensures { Plained laid s.now spot (plain gaps (total laid s.now spot) (view laid s.now spot.at)) result }
{
    if gaps {
        return match word_at(s, laid, spot, b"gap(") {
            Word::Past(p) => gap_at(s, laid, p),
            Word::Other => leaf_at(s, laid, spot),
        };
    }
    leaf_at(s, laid, spot)
}

// ---- the three words

// A word's form and the spot behind its bracket, or that none stands there.
#[derive(Clone, Copy)]
pub enum Begun {
    Word { form: usize, spot: Spot },
    Other,
}

pub fn begin_at(s: &[u8], laid: Laid, spot: Spot) -> Begun
    requires { Ready laid s.now spot }
    ensures { Begins laid s.now spot (begin (view laid s.now spot.at)) result }
{
    match word_at(s, laid, spot, b"complement(") {
        Word::Past(p) => Begun::Word { form: 4, spot: p },
        Word::Other => match word_at(s, laid, spot, b"join(") {
            Word::Past(p) => Begun::Word { form: 5, spot: p },
            Word::Other => match word_at(s, laid, spot, b"order(") {
                Word::Past(p) => Begun::Word { form: 6, spot: p },
                Word::Other => Begun::Other,
            },
        },
    }
}
