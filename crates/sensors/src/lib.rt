// The kinds that sensors send: climate (0x54), rain (0x55) and meters (0x71) (docs/PACKETS.md).
#![tactic(auto)]

pub mod climate;
pub mod meter;
pub mod rain;
pub mod records;
