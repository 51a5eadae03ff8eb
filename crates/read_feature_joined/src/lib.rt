// What a scan of a joined text answers; specs/ has the laws of texts that are joined from several pieces.
#![tactic(auto)]

// The text's length and the place after it; or no, or that the slice ended before that was clear.
#[derive(Clone, Copy)]
pub enum Value {
    Got { length: usize, next: usize },
    No,
    Cut,
}
