// What a frame that is read can hold.
use actors::records::{Blinds, Security};
use control::records::{InterfaceMessage, TransmitterMessage};
use sensors::records::{Climate, Meter, Rain};

#[derive(Clone, Copy, PartialEq, Eq, Debug)]
pub enum Record {
    Interface(InterfaceMessage),
    Transmitter(TransmitterMessage),
    Blinds(Blinds),
    Security(Security),
    Climate(Climate),
    Rain(Rain),
    Meter(Meter),
}
