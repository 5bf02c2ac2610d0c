// Books as files: looked at, joined, changed by one run at a time.
#![tactic(auto)]

pub mod books;
pub mod change;
pub mod cut;
pub mod pages;
mod turns;
