// What a call refuses, and bytes put into a buffer that the caller lends (docs/REFUSALS.md).
#![tactic(auto)]

pub mod output;
pub mod refusals;
