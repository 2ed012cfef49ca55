// The kinds of the interface itself: its mode (0x00, written only), its messages (0x01) and the transmitter's (0x02)
// (docs/PACKETS.md).
#![tactic(auto)]

pub mod interface;
pub mod mode;
pub mod records;
pub mod transmitter;
