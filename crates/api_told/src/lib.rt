// Answers as numbers, by value: what the boundary for C and Rust returns.
#![tactic(auto)]

ghost use Rattle.std.specs.Prelude.{◌≡◌};
ghost use Rattle.spec_contracts.specs.Told.{no_sizes, reported, reading, writing};

use api_head::head_numbers;
use base_numbers::{unread_number, unread_place, write_number, write_value};
use spec_contracts::{Reading, Reported, Writing};
use spec_format::{ReadAnswer, Sizes, WriteAnswer};
use spec_lines::Spot;

fn no_sizes() -> Sizes
    ensures { result ≡ no_sizes }
{
    Sizes {
        texts: 0,
        references: 0,
        comments: 0,
        features: 0,
        qualifiers: 0,
        locations: 0,
        letters: 0,
    }
}

// The reader's answer and the line that it tells, to a call that gave the place `at`.
fn told(at: usize, answer: ReadAnswer, spot: Spot) -> Reading
    ensures { result ≡ reading at (reported answer spot) }
{
    match answer {
        ReadAnswer::Done { head, place } => Reading {
            number: 0,
            place: place,
            line: spot.line,
            offset: spot.offset,
            head: head_numbers(head),
            sizes: no_sizes(),
        },
        ReadAnswer::Refused(why) => Reading {
            number: unread_number(why),
            place: unread_place(why, at),
            line: spot.line,
            offset: spot.offset,
            head: [0usize; 33],
            sizes: no_sizes(),
        },
        ReadAnswer::Room(n) => Reading {
            number: 6,
            place: at,
            line: spot.line,
            offset: spot.offset,
            head: [0usize; 33],
            sizes: n,
        },
    }
}

// What the reader returned to a call that gave the place `at`.
pub fn reading_of(at: usize, reported: Reported) -> Reading
    ensures { result ≡ reading at reported }
{
    let answer = reported.answer;
    let spot = reported.spot;
    told(at, answer, spot)
}

// A writer's answer.
pub fn writing_of(answer: WriteAnswer) -> Writing
    ensures { result ≡ writing answer }
{
    Writing {
        number: write_number(answer),
        count: write_value(answer),
    }
}
