// One feature of feature_table.rs put into lent rooms, its location's rows among them, but for its own row, which is made as a struct, by value: whoever stores it needs no flat numbers.
#![tactic(auto)]

ghost use Rattle.std.specs.Prelude.{◌≡◌, ◌+◌, ◌-◌, ◌≤◌, ◌<◌, ◌^◌, length, drop};
ghost use Rattle.spec_format.specs.Features.{feature_from, feature};
ghost use Rattle.scan_bytes.specs.Places.{part};
ghost use Rattle.base_pen.specs.Pen.{Writes};
ghost use Rattle.read_feature_bare.specs.Bared.{bare_text};
ghost use Rattle.read_feature_table.specs.Reads.{Placed, feature_rest};
ghost use Rattle.read_feature_row.specs.Makes.{no_row, Ahead, LineTold, RowMade, FeaturePut};

use base_rows::Feature;
use read_feature_location::Located;
use read_feature_names::Kind;
use spec_format::Span;

// Where reading goes on; where the next text goes; which row is the next; where the next qualifier's row goes; and how many qualifiers and location rows were put.
#[derive(Clone, Copy)]
pub struct Reached {
    pub at: usize,
    pub text: usize,
    pub row: usize,
    pub qualifier: usize,
    pub count: usize,
    pub location: usize,
}

#[derive(Clone, Copy)]
pub struct Made {
    pub row: Feature,
    pub reached: Reached,
}

// Where no feature starts: its row's turn is over all the same.
fn no_row(reached: Reached) -> Made
    requires { reached.row + 1 < 2 ^ 64 }
    ensures { result ≡ no_row reached }
{
    let none = Span {
        start: 0,
        length: 0,
    };
    let row = Feature {
        kind: none,
        location: none,
        first: 0,
        count: 0,
        row: 0,
        rows: 0,
    };
    let next = Reached {
        at: reached.at,
        text: reached.text,
        row: reached.row + 1,
        qualifier: reached.qualifier,
        count: reached.count,
        location: reached.location,
    };
    Made {
        row: row,
        reached: next,
    }
}

// The text of a location that is `long` bytes; where `line` says that it stands in one line, with no look for further ones.
fn put_text(
    s: &[u8],
    at: usize,
    indent: usize,
    long: usize,
    line: bool,
    texts: &mut [u8],
    place: usize,
) -> usize
    requires { LineTold s.now at indent long line }
    ensures { Writes texts.old place (bare_text indent (drop at s.now)) texts.new result }
{
    if line {
        return base_pen::put_all(texts, place, &s[at..at + long]);
    }
    read_feature_bare::put_bare(s, at, indent, texts, place)
}

// A feature whose kind is scanned and whose location is too, with its rows put.
fn make_located(
    s: &[u8],
    first: usize,
    end: usize,
    location: usize,
    long: usize,
    rows: usize,
    rest: usize,
    line: bool,
    texts: &mut [u8],
    qualifiers: &mut [usize],
    reached: Reached,
) -> Made
    requires { Ahead s.now reached × Placed s.now reached.at first end location long rows rest × LineTold s.now location (location - reached.at) long line }
    ensures { RowMade s.now reached (feature_rest s.now reached.at first end location rest) texts.old texts.new qualifiers.old qualifiers.new result }
{
    let indent = location - reached.at;
    let place = reached.text;
    let start = base_pen::put_all(texts, place, &s[first..end]);
    let stop = put_text(s, location, indent, long, line, texts, start);
    let run = read_feature_qualifier_rows::put_qualifiers(
        s,
        rest,
        indent,
        texts,
        stop,
        qualifiers,
        reached.qualifier,
    );
    let count = run.count;
    let row = Feature {
        kind: Span {
            start: place,
            length: end - first,
        },
        location: Span {
            start: start,
            length: long,
        },
        first: reached.count,
        count: count,
        row: reached.location,
        rows: rows,
    };
    let next = Reached {
        at: run.next,
        text: run.text,
        row: reached.row + 1,
        qualifier: run.row,
        count: reached.count + count,
        location: reached.location + rows,
    };
    Made {
        row: row,
        reached: next,
    }
}

// A feature whose kind is scanned.
fn make_kinded(
    s: &[u8],
    first: usize,
    end: usize,
    location: usize,
    texts: &mut [u8],
    qualifiers: &mut [usize],
    locations: &mut [usize],
    reached: Reached,
) -> Made
    requires { Ahead s.now reached × (reached.at < first) × (first < end) × (end < location) × (location ≤ length s.now) }
    ensures { FeaturePut s.now reached (feature_from (location - reached.at) (part first end s.now) (drop location s.now)) texts.old texts.new qualifiers.old qualifiers.new locations.old locations.new result }
{
    let indent = location - reached.at;
    match read_feature_location::put_location(s, location, indent, locations, reached.location) {
        Located::Got {
            length,
            next,
            rows,
            line,
        } => make_located(
            s, first, end, location, length, rows, next, line, texts, qualifiers, reached,
        ),
        Located::No => no_row(reached),
        Located::Cut => no_row(reached),
    }
}

// The feature that starts where reading goes on: its texts, its qualifiers' and its location's rows are put, and its own row is made. No word of the rooms where none starts
// there.
pub fn make_row(
    s: &[u8],
    texts: &mut [u8],
    qualifiers: &mut [usize],
    locations: &mut [usize],
    reached: Reached,
) -> Made
    requires { Ahead s.now reached }
    ensures { FeaturePut s.now reached (feature (drop reached.at s.now)) texts.old texts.new qualifiers.old qualifiers.new locations.old locations.new result }
{
    match read_feature_names::kind_at(s, reached.at) {
        Kind::Got { first, end, next } => {
            make_kinded(s, first, end, next, texts, qualifiers, locations, reached)
        }
        Kind::No => no_row(reached),
        Kind::Cut => no_row(reached),
    }
}
