// The LOCUS line: locus.rs, with document 01's own tokens. The values are spans of the slice; nothing is written.
#![tactic(auto)]

ghost use Rattle.std.specs.Prelude.{◌-◌, ◌≤◌, length, take, drop};
ghost use Rattle.spec_format.specs.Locus.{tokens, locus_of, locus_line};
ghost use Rattle.read_locus_tokens.specs.Parts.{cut, Ends};
ghost use Rattle.read_locus.specs.Plans.{Planned, TextEnds, ThreeEnd, SixEnd, FieldsEnd, three_then, six_then, shaped_locus, fields_locus};

use read_locus_tokens::Token;
use spec_format::{Date, Span};

// The values of a LOCUS line; texts are spans of the slice that was read.
#[derive(Clone, Copy)]
pub enum LocusPlan {
    Unknown,
    Known {
        name: Span,
        length: u32,
        molecule: Option<Span>,
        circular: bool,
        division: Span,
        date: Date,
    },
}

// The values of a line whose other tokens are as they must be, if its topology is.
fn shaped(
    s: &[u8],
    name: Span,
    bases: u32,
    molecule: Option<Span>,
    topology: Span,
    division: Span,
    date: Date,
) -> LocusPlan
    requires { Ends (length s.now) name × (TextEnds (length s.now) molecule × (Ends (length s.now) topology × Ends (length s.now) division)) }
    ensures { Planned s.now (shaped_locus s.now name bases molecule topology division date) result }
{
    if read_locus_tokens::span_equal(s, topology, b"circular") {
        return LocusPlan::Known {
            name: name,
            length: bases,
            molecule: molecule,
            circular: true,
            division: division,
            date: date,
        };
    }
    if read_locus_tokens::span_equal(s, topology, b"linear") {
        return LocusPlan::Known {
            name: name,
            length: bases,
            molecule: molecule,
            circular: false,
            division: division,
            date: date,
        };
    }
    LocusPlan::Unknown
}

// The values of a line's tokens, if each is as it must be.
fn values(
    s: &[u8],
    name: Span,
    count: Span,
    unit: Span,
    molecule: Option<Span>,
    topology: Span,
    division: Span,
    date: Span,
) -> LocusPlan
    requires { FieldsEnd (length s.now) name count unit molecule topology division date }
    ensures { Planned s.now (fields_locus s.now name count unit molecule topology division date) result }
{
    if !read_locus_tokens::span_named(s, name) {
        return LocusPlan::Unknown;
    }
    let Some(length) = read_locus_tokens::span_bases(s, count) else {
        return LocusPlan::Unknown;
    };
    if !read_locus_tokens::span_equal(s, unit, b"bp") {
        return LocusPlan::Unknown;
    }
    let Some(on) = read_locus_tokens::span_date(s, date) else {
        return LocusPlan::Unknown;
    };
    shaped(s, name, length, molecule, topology, division, on)
}

// From the sixth token on: the molecule type is missing where there are six.
fn from_sixth(
    s: &[u8],
    at: usize,
    to: usize,
    name: Span,
    count: Span,
    unit: Span,
    third: Span,
    fourth: Span,
    fifth: Span,
) -> LocusPlan
    requires { (at ≤ to) × ((to ≤ length s.now) × SixEnd (length s.now) name count unit third fourth fifth) }
    ensures { Planned s.now (locus_of (six_then s.now name count unit third fourth fifth (tokens (cut s.now at to)))) result }
{
    let Token::At {
        text: sixth,
        end: next,
    } = read_locus_tokens::token_at(s, at, to)
    else {
        return values(s, name, count, unit, None, third, fourth, fifth);
    };
    let Token::None = read_locus_tokens::token_at(s, next, to) else {
        return LocusPlan::Unknown;
    };
    values(s, name, count, unit, Some(third), fourth, fifth, sixth)
}

// From the third token on.
fn from_third(s: &[u8], at: usize, to: usize, name: Span, count: Span, unit: Span) -> LocusPlan
    requires { (at ≤ to) × ((to ≤ length s.now) × ThreeEnd (length s.now) name count unit) }
    ensures { Planned s.now (locus_of (three_then s.now name count unit (tokens (cut s.now at to)))) result }
{
    let Token::At {
        text: third,
        end: a,
    } = read_locus_tokens::token_at(s, at, to)
    else {
        return LocusPlan::Unknown;
    };
    let Token::At {
        text: fourth,
        end: b,
    } = read_locus_tokens::token_at(s, a, to)
    else {
        return LocusPlan::Unknown;
    };
    let Token::At {
        text: fifth,
        end: c,
    } = read_locus_tokens::token_at(s, b, to)
    else {
        return LocusPlan::Unknown;
    };
    from_sixth(s, c, to, name, count, unit, third, fourth, fifth)
}

fn from_name(s: &[u8], at: usize, to: usize) -> LocusPlan
    requires { (at ≤ to) × (to ≤ length s.now) }
    ensures { Planned s.now (locus_of (tokens (cut s.now at to))) result }
{
    let Token::At { text: name, end: a } = read_locus_tokens::token_at(s, at, to) else {
        return LocusPlan::Unknown;
    };
    let Token::At {
        text: count,
        end: b,
    } = read_locus_tokens::token_at(s, a, to)
    else {
        return LocusPlan::Unknown;
    };
    let Token::At { text: unit, end: c } = read_locus_tokens::token_at(s, b, to) else {
        return LocusPlan::Unknown;
    };
    from_third(s, c, to, name, count, unit)
}

// The values of the LOCUS line whose bytes after the word and blanks are from..to.
pub fn locus_line(s: &[u8], from: usize, to: usize) -> LocusPlan
    requires { (from ≤ to) × (to ≤ length s.now) }
    ensures { Planned s.now (locus_line (take (to - from) (drop from s.now))) result }
{
    if !read_locus_tokens::plain(s, from, to) {
        return LocusPlan::Unknown;
    }
    from_name(s, from, to)
}
