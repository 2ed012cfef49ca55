// A stored stretch, handed out in place (docs/READING.md).
#![tactic(auto)]

pub mod laws;
pub mod reader;
pub mod tokens;
