// Texts that a spreadsheet saves: a register, a series.
#![tactic(auto)]

pub mod roll;
pub mod series;
