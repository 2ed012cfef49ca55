// What may be sent: commands with their frames, and the two fixed packets of the start-up (docs/COMMANDS.md).
#![tactic(auto)]

pub mod commands;
mod kinds;
pub mod laws;
pub mod making;
pub mod orders;
pub mod startup;
pub mod writing;
