// What comes over the line, and what is read of it.
ghost use Rattle.std.specs.Prelude.{◌≡◌, Some, codes};
ghost use Rattle.tape.specs.Numbers.{signal_of};

use frame::faults::Fault;
use frame::packet::Packet;
use record::records::Record;
use std::error::Error;
use std::fmt;

// A byte, or a pause: 100 milliseconds without a byte.
#[derive(Clone, Copy, PartialEq, Eq, Debug)]
pub enum Signal {
    Byte(u8),
    Pause,
}

// The signal of a signal number: up to 255 that byte, and every larger number is a pause.
impl From<u16> for Signal {
    ghost from_gives = { λ number signal. signal ≡ signal_of number };

    fn from(number: u16) -> Signal {
        match u8::try_from(number) {
            Ok(byte) => Signal::Byte(byte),
            Err(_) => Signal::Pause,
        }
    }
}

// A record or a fault, with the place of its length byte.
#[derive(Clone, Copy, PartialEq, Eq, Debug)]
pub struct Entry {
    pub place: u32,
    pub verdict: Result<Packet<Record>, Fault>,
}

// The tape has as many signals as are counted; one more was not taken.
#[derive(Clone, Copy, PartialEq, Eq, Debug)]
pub struct TapeFull;

impl fmt::Display for TapeFull {
    ghost output = { λ _. Some (codes "the tape has as many signals as are counted") };

    fn fmt<W: fmt::Write>(&self, f: &mut fmt::Formatter<W>) -> fmt::Result {
        f.write_str("the tape has as many signals as are counted")
    }
}

impl Error for TapeFull {}
