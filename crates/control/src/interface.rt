// Type 0x01, the interface's messages.
ghost use Rattle.std.specs.Prelude.{refl};
ghost use Rattle.control.specs.Interface.{interface};
ghost use Rattle.control.specs.Laws.{interface_law};

use crate::records::InterfaceMessage;
use frame::faults::Fault;
use frame::kind::Kind;
use refusal::output::put;
use refusal::refusals::Refusal;

#[derive(Clone, Copy, PartialEq, Eq, Debug)]
pub struct InterfaceKind;

impl Kind for InterfaceKind {
    const TYPE: u8 = 0x01;

    ghost TYPE = { 0x01 };

    const LENGTH: u8 = 13;

    ghost LENGTH = { 13 };

    type Record = InterfaceMessage;

    ghost model = { interface };

    ghost law = { interface_law };

    ghost type_is = { refl };

    ghost length_is = { refl };

    fn check(sub: u8, data: &[u8]) -> Result<(), Fault> {
        let [_, _, _, _, _, _, _, _, _, _] = data else {
            return Err(Fault::WrongLength);
        };
        if sub != 0 && sub != 0xFF {
            return Err(Fault::UnknownSubtype);
        }
        Ok(())
    }

    fn read(sub: u8, data: &[u8]) -> Result<InterfaceMessage, Fault> {
        let [command, m1, m2, m3, m4, m5, m6, m7, m8, m9] = data else {
            return Err(Fault::WrongLength);
        };
        Self::check(sub, data)?;
        Ok(InterfaceMessage {
            subtype: sub,
            command: *command,
            messages: [*m1, *m2, *m3, *m4, *m5, *m6, *m7, *m8, *m9],
        })
    }

    fn subtype(record: &InterfaceMessage) -> u8 {
        record.subtype
    }

    fn write(record: &InterfaceMessage, out: &mut [u8]) -> Result<usize, Refusal> {
        let [m1, m2, m3, m4, m5, m6, m7, m8, m9] = record.messages;
        put(&[record.command, m1, m2, m3, m4, m5, m6, m7, m8, m9], out)
    }
}
