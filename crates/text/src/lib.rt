// What the programs print of an outcome, as bytes in a buffer that the caller lends; the caller then writes the text whole. Each message is a
// form (forms.rt). Each function answers how long its text is. It answers 0, and leaves the buffer alone, where that is shorter than the most
// bytes its text may have.
#![tactic(auto)]

mod forms;
pub mod record;
pub mod sharing;
pub mod told;
