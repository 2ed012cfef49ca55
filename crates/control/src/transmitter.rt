// Type 0x02, the transmitter's messages.
ghost use Rattle.std.specs.Prelude.{refl};
ghost use Rattle.control.specs.Transmitter.{transmitter};
ghost use Rattle.control.specs.Laws.{transmitter_law};

use crate::records::TransmitterMessage;
use frame::faults::Fault;
use frame::kind::Kind;
use refusal::output::put;
use refusal::refusals::Refusal;

#[derive(Clone, Copy, PartialEq, Eq, Debug)]
pub struct TransmitterKind;

impl Kind for TransmitterKind {
    const TYPE: u8 = 0x02;

    ghost TYPE = { 0x02 };

    const LENGTH: u8 = 4;

    ghost LENGTH = { 4 };

    type Record = TransmitterMessage;

    ghost model = { transmitter };

    ghost law = { transmitter_law };

    ghost type_is = { refl };

    ghost length_is = { refl };

    fn check(sub: u8, data: &[u8]) -> Result<(), Fault> {
        let [_] = data else {
            return Err(Fault::WrongLength);
        };
        if sub > 1 {
            return Err(Fault::UnknownSubtype);
        }
        Ok(())
    }

    fn read(sub: u8, data: &[u8]) -> Result<TransmitterMessage, Fault> {
        let [message] = data else {
            return Err(Fault::WrongLength);
        };
        Self::check(sub, data)?;
        Ok(TransmitterMessage {
            subtype: sub,
            message: *message,
        })
    }

    fn subtype(record: &TransmitterMessage) -> u8 {
        record.subtype
    }

    fn write(record: &TransmitterMessage, out: &mut [u8]) -> Result<usize, Refusal> {
        put(&[record.message], out)
    }
}
