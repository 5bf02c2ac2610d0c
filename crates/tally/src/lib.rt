// One member's points at the desk: its score, why a call is turned away, and the same minute by minute with one of its days.
#![tactic(auto)]

pub mod away;
pub mod member;
pub mod minutes;
pub mod outputs;
pub mod wrong;
