// What a line of stored answers is made of, and what is counted of the answers.
#![tactic(auto)]

mod counts;
mod fields;
mod room;

pub use counts::{
    COUNTS, DIFFER, LINES, LOCATIONS, NOT_UNDERSTOOD, READINGS, STRICT, WRITINGS, count_answer,
    count_departures, count_one, say_counts, say_source,
};
pub use fields::{
    Checked, Field, among, byte_at, lent, next_line, number_at, same_numbers, take_numbers,
    take_text,
};
pub use room::{byte_room, number_room};
