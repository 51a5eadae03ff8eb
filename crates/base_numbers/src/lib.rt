// Document 01's numbers and values for the answers, as the definitions of `spec_format` give them, and the words for each number.
#![tactic(auto)]

ghost use Rattle.std.specs.Prelude.{◌≡◌};
ghost use Rattle.spec_format.specs.Numbers.{unread_number, unread_place, read_number, unwritten_number, write_number, write_value};

use spec_format::{ReadAnswer, Unread, Unwritten, WriteAnswer};
use std::io;
use std::io::Write;

// The number of a refusal to read.
pub fn unread_number(why: Unread) -> usize
    ensures { result ≡ unread_number why }
{
    match why {
        Unread::AtEnd => 1,
        Unread::Unended => 2,
        Unread::BadPlace => 3,
        Unread::NoLocus => 4,
        Unread::TwoDefinitions => 5,
        Unread::NoSlashes => 7,
        Unread::OtherLength => 8,
        Unread::BadLetter => 9,
        Unread::TooDeep => 14,
        Unread::StrayLetter => 16,
    }
}

// What is returned with it, where `at` was the place given.
pub fn unread_place(why: Unread, at: usize) -> usize
    ensures { result ≡ unread_place why at }
{
    match why {
        Unread::BadPlace => 0,
        _ => at,
    }
}

// The number of a reader's answer.
pub fn read_number(answer: ReadAnswer) -> usize
    ensures { result ≡ read_number answer }
{
    match answer {
        ReadAnswer::Done { head: _, place: _ } => 0,
        ReadAnswer::Room(_) => 6,
        ReadAnswer::Refused(why) => unread_number(why),
    }
}

// The number of a refusal to write.
fn unwritten_number(why: Unwritten) -> usize
    ensures { result ≡ unwritten_number why }
{
    match why {
        Unwritten::BadRooms => 10,
        Unwritten::NoLayout => 11,
        Unwritten::BadWidth => 12,
        Unwritten::NotKept => 13,
    }
}

// The number of a writer's answer.
pub fn write_number(answer: WriteAnswer) -> usize
    ensures { result ≡ write_number answer }
{
    match answer {
        WriteAnswer::Done(_) => 0,
        WriteAnswer::Room(_) => 6,
        WriteAnswer::Refused(why) => unwritten_number(why),
    }
}

// What is returned with it.
pub fn write_value(answer: WriteAnswer) -> usize
    ensures { result ≡ write_value answer }
{
    match answer {
        WriteAnswer::Done(n) | WriteAnswer::Room(n) => n,
        WriteAnswer::Refused(_) => 0,
    }
}

// Why, in words, to the writer `out`; nothing at 0 and at what is no answer's number. The words stand in api/rust, api/vilggodan.h and
// README.md too, and tools/reasons compares them.
pub fn tell<W: Write>(out: &mut W, number: usize) -> io::Result<()> {
    let words = match number {
        1 => "the place is the end of the input: no more records",
        2 => "the input ends inside the record",
        3 => "the place is beyond the input, or the input is longer than 16,777,216 bytes",
        4 => "no LOCUS line",
        5 => "a second DEFINITION",
        6 => "the room is too small",
        7 => "this line is no feature, qualifier, section or //",
        8 => "the letters are not as many as LOCUS says",
        9 => "a byte that cannot stand among the letters",
        10 =>
            "a text or row of the table lies outside its room, or location rows are not those of their text",
        11 => "a text, date or sequence that cannot be laid out",
        12 => "the width is not 60 to 132",
        13 => "a keeping rule is broken: it may not read back the same",
        14 => "a location opens more than 16 words of complement, join and order",
        16 => "a letter that is no IUPAC code for bases",
        _ => "",
    };
    out.write_all(words.as_bytes())
}
