// House records back: the packet of a stored house record, and its frame (docs/HOUSE.md).
#![tactic(auto)]

mod kinds;
pub mod laws;
pub mod reading;
