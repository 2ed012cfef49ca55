// House records: a packet of any kind as a map and the fields that the map names (docs/HOUSE.md).
#![tactic(auto)]

pub mod kind;
pub mod kinds;
pub mod laws;
pub mod writing;
