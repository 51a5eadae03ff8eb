// Where a refusal's trouble lies, as it is passed. Which line that is, specs/ says.
#![tactic(auto)]

// A line, counted from 1 at the place that a call was given, and the offset in the slice of its first byte; 0 and 0 where there is none to tell.
#[derive(Clone, Copy)]
pub struct Spot {
    pub line: usize,
    pub offset: usize,
}
