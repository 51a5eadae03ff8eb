// The types in which a table and the answers of a call are passed. What they mean is said in specs/.
#![tactic(auto)]

ghost use Rattle.std.specs.Prelude.{◌≡◌};
ghost use Rattle.spec_format.specs.Dates.{made, printed_date};

// The most bytes that a slice may have, and a room of a table; of rows as many.
pub const MOST: usize = 16777216;

// A text in the store of texts: where it starts and how many bytes it has.
#[repr(C)]
#[derive(Clone, Copy)]
pub struct Span {
    pub start: usize,
    pub length: usize,
}

// SOURCE, and ORGANISM only where SOURCE is.
#[derive(Clone, Copy)]
pub struct SourceText {
    pub text: Span,
    pub organism: Option<Span>,
}

// CONTIG: its text, the first of its location rows, and how many there are.
#[derive(Clone, Copy)]
pub struct ContigText {
    pub text: Span,
    pub row: usize,
    pub rows: usize,
}

#[derive(Clone, Copy)]
pub struct Date {
    pub day: u8,
    pub month: u8,
    pub year: u16,
}

impl Date {
    // 01-JAN-1970
    pub const FIRST: Date = Date {
        day: 1,
        month: 1,
        year: 1970,
    };

    // The maker: a date whose day, month and year are in range, or none.
    pub fn from(day: u8, month: u8, year: u16) -> Option<Date>
        ensures { result ≡ made day month year }
    {
        if (1..=31).contains(&day) && (1..=12).contains(&month) && year <= 9999 {
            Some(Date { day, month, year })
        } else {
            None
        }
    }
}

// The date that a record prints: its own, or the first.
pub fn printed_date(d: Option<Date>) -> Date
    ensures { result ≡ printed_date d }
{
    d.unwrap_or(Date::FIRST)
}

// What a table holds outside the rooms: LOCUS values, where the single texts lie, how many rows and letters there are.
#[derive(Clone, Copy)]
pub struct Head {
    pub name: Option<Span>,
    pub length: Option<u32>,
    pub molecule: Option<Span>,
    pub circular: bool,
    pub division: Span,
    pub date: Option<Date>,
    pub definition: Option<Span>,
    pub accession: Option<Span>,
    pub version: Option<Span>,
    pub dblink: Option<Span>,
    pub keywords: Option<Span>,
    pub source: Option<SourceText>,
    pub references: usize,
    pub comments: usize,
    pub features: usize,
    pub contig: Option<ContigText>,
    pub letters: usize,
}

// How much of each room a table takes: bytes of text, rows, letters.
#[repr(C)]
#[derive(Clone, Copy)]
pub struct Sizes {
    pub texts: usize,
    pub references: usize,
    pub comments: usize,
    pub features: usize,
    pub qualifiers: usize,
    pub locations: usize,
    pub letters: usize,
}

// Why no record was read.
#[derive(Clone, Copy)]
pub enum Unread {
    AtEnd,
    Unended,
    BadPlace,
    NoLocus,
    TwoDefinitions,
    NoSlashes,
    OtherLength,
    BadLetter,
    TooDeep,
    StrayLetter,
}

// What the reader answers.
#[derive(Clone, Copy)]
pub enum ReadAnswer {
    Done { head: Head, place: usize },
    Refused(Unread),
    Room(Sizes),
}

// How a record is written: by the keeping rules or not, at what width, with what switches.
#[derive(Clone, Copy)]
pub struct How {
    pub keeping: bool,
    pub width: usize,
    pub truncate: bool,
    pub escape: bool,
}

// Why nothing was written.
#[derive(Clone, Copy)]
pub enum Unwritten {
    BadWidth,
    BadRooms,
    NoLayout,
    NotKept,
}

// What a writer answers: the bytes written, why not, or how many bytes it takes.
#[derive(Clone, Copy)]
pub enum WriteAnswer {
    Done(usize),
    Refused(Unwritten),
    Room(usize),
}
