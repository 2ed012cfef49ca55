// The kinds of devices that are commanded: blinds (0x19) and security contacts (0x20) (docs/PACKETS.md).
#![tactic(auto)]

pub mod blinds;
pub mod records;
pub mod security;
