// The records of all kinds: what a whole frame says, and the frame of a record (docs/FRAME.md).
#![tactic(auto)]

pub mod judging;
pub mod kinds;
pub mod laws;
pub mod records;
pub mod writing;
