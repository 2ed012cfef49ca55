// Frames: the interface of a packet kind with its law, and framing, written once over it (docs/FRAME.md).
#![tactic(auto)]

pub mod faults;
pub mod framing;
pub mod kind;
pub mod packet;
