// The listing of a stream of signal numbers, as text (docs/LISTER.md).
#![tactic(auto)]

mod gathering;
pub mod laws;
pub mod line;
pub mod listing;
mod text;
