// What the reader returns, and the answers as numbers, which the boundary for C and Rust returns by value. Nothing runs here: specs/ says what the entry points promise, as records that
// their contracts cite.
#![tactic(auto)]

use spec_format::{ReadAnswer, Sizes};
use spec_lines::Spot;

// What the reader returns: its answer, and the line that this tells.
#[derive(Clone, Copy)]
pub struct Reported {
    pub answer: ReadAnswer,
    pub spot: Spot,
}

// The reader's answer: its number, the place returned with it, the line that a refusal tells and the offset of its first byte (0 and 0 with 0, 1 and 3), with 0 the head as 33 numbers,
// with 6 the exact sizes; else zeros.
#[repr(C)]
#[derive(Clone, Copy)]
pub struct Reading {
    pub number: usize,
    pub place: usize,
    pub line: usize,
    pub offset: usize,
    pub head: [usize; 33],
    pub sizes: Sizes,
}

// A writer's answer: its number, and how many bytes were written or are needed.
#[repr(C)]
#[derive(Clone, Copy)]
pub struct Writing {
    pub number: usize,
    pub count: usize,
}
