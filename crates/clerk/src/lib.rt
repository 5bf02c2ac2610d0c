// What every command of the desk needs: how it is called, its arguments, the files that they name, and what it prints.
#![tactic(auto)]

pub mod args;
pub mod load;
pub mod print;
pub mod shelf;
pub mod usage;
pub mod wrong;
