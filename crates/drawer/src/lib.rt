// What is in the drawer on closing day: records that do not stand, books that add nothing, calls that scoring would refuse.
#![tactic(auto)]

pub mod apart;
pub mod nothing;
pub mod refused;
pub mod stale;
