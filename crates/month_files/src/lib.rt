// The files that a month is settled from besides its books: the members' series, and their ramping files.
#![tactic(auto)]

pub mod places;
pub mod ramps;
pub mod series;
pub mod told;
