// The line in words before a refusal's number, as bytes in a buffer that the caller lends. Each function answers how long its text is. It
// answers 0, and leaves the buffer alone, where that is shorter than the most bytes its text may have.
#![tactic(auto)]

pub mod away;
pub mod bad;
mod forms;
pub mod other;
mod why;
