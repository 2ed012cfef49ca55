// Type 0x00, the mode that the interface is set to: written to it, and never heard on the air.
ghost use Rattle.std.specs.Prelude.{refl};
ghost use Rattle.control.specs.Mode.{mode};
ghost use Rattle.control.specs.Laws.{mode_law};

use crate::records::SetMode;
use frame::faults::Fault;
use frame::kind::Kind;
use refusal::output::put;
use refusal::refusals::Refusal;

#[derive(Clone, Copy, PartialEq, Eq, Debug)]
pub struct ModeKind;

impl Kind for ModeKind {
    const TYPE: u8 = 0x00;

    ghost TYPE = { 0x00 };

    const LENGTH: u8 = 13;

    ghost LENGTH = { 13 };

    type Record = SetMode;

    ghost model = { mode };

    ghost law = { mode_law };

    ghost type_is = { refl };

    ghost length_is = { refl };

    fn check(sub: u8, data: &[u8]) -> Result<(), Fault> {
        let [command, frequency, z2, msg3, _, _, z6, z7, z8, z9] = data else {
            return Err(Fault::WrongLength);
        };
        if sub != 0 {
            return Err(Fault::UnknownSubtype);
        }
        if *command != 3 {
            return Err(Fault::OutOfRange(4));
        }
        if !matches!(*frequency, 0x50..=0x53 | 0x55..=0x5B) {
            return Err(Fault::OutOfRange(5));
        }
        if *z2 != 0 {
            return Err(Fault::OutOfRange(6));
        }
        // bit 6 is to be 0
        if *msg3 / 64 % 2 != 0 {
            return Err(Fault::OutOfRange(7));
        }
        match [*z6, *z7, *z8, *z9] {
            [0, 0, 0, 0] => Ok(()),
            [0, 0, 0, _] => Err(Fault::OutOfRange(13)),
            [0, 0, _, _] => Err(Fault::OutOfRange(12)),
            [0, _, _, _] => Err(Fault::OutOfRange(11)),
            _ => Err(Fault::OutOfRange(10)),
        }
    }

    fn read(sub: u8, data: &[u8]) -> Result<SetMode, Fault> {
        let [_, frequency, _, msg3, msg4, msg5, _, _, _, _] = data else {
            return Err(Fault::WrongLength);
        };
        Self::check(sub, data)?;
        Ok(SetMode {
            frequency: *frequency,
            msg3: *msg3,
            msg4: *msg4,
            msg5: *msg5,
        })
    }

    fn subtype(_record: &SetMode) -> u8 {
        0
    }

    fn write(record: &SetMode, out: &mut [u8]) -> Result<usize, Refusal> {
        let SetMode {
            frequency,
            msg3,
            msg4,
            msg5,
            ..
        } = *record;
        put(&[3, frequency, 0, msg3, msg4, msg5, 0, 0, 0, 0], out)
    }
}
