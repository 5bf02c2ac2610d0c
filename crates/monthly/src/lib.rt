// A month at the desk: settled from its files; why a member got its points; what its ramping pays.
#![tactic(auto)]

pub mod ramping;
pub mod settle;
pub mod why;
