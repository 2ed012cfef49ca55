// The reading of a tape, one signal at a time (docs/READING.md).
#![tactic(auto)]

pub mod laws;
pub mod reader;
pub mod signals;
