// Type 0x19, blinds. The limits of its fields go by the subtype.
ghost use Rattle.std.specs.Prelude.{◌≡◌, refl, nat_le};
ghost use Rattle.frame.specs.Fields.{in_range};
ghost use Rattle.actors.specs.Blinds.{blinds};
ghost use Rattle.actors.specs.Ranges.{id_max, unit_min, unit_max, command_max};
ghost use Rattle.actors.specs.Laws.{blinds_law};

use crate::records::Blinds;
use frame::faults::Fault;
use frame::kind::Kind;
use refusal::output::put;
use refusal::refusals::Refusal;

#[derive(Clone, Copy, PartialEq, Eq, Debug)]
pub struct BlindsKind;

// Whether a subtype has this ID; so with the unit and the command below.
fn has_id(sub: u8, id: u32) -> bool
    ensures { result ≡ in_range 1 id (id_max sub) }
{
    match sub {
        0..=1 => (1..=0xFFFF).contains(&id),
        _ => (1..=0xFF_FFFF).contains(&id),
    }
}

fn has_unit(sub: u8, unit: u8) -> bool
    ensures { result ≡ in_range (unit_min sub) unit (unit_max sub) }
{
    match sub {
        0..=1 => (0x01..=0x10).contains(&unit),
        2..=5 => unit <= 0x01,
        _ => unit <= 0x0F,
    }
}

fn has_command(sub: u8, command: u8) -> bool
    ensures { result ≡ nat_le command (command_max sub) }
{
    match sub {
        0..=1 => command <= 4,
        4 => command <= 7,
        5 => command <= 2,
        _ => command <= 3,
    }
}

impl Kind for BlindsKind {
    const TYPE: u8 = 0x19;

    ghost TYPE = { 0x19 };

    const LENGTH: u8 = 9;

    ghost LENGTH = { 9 };

    type Record = Blinds;

    ghost model = { blinds };

    ghost law = { blinds_law };

    ghost type_is = { refl };

    ghost length_is = { refl };

    fn check(sub: u8, data: &[u8]) -> Result<(), Fault> {
        let [id0, id1, id2, unit, command, tail] = data else {
            return Err(Fault::WrongLength);
        };
        if sub > 7 {
            return Err(Fault::UnknownSubtype);
        }
        let id = u32::from_be_bytes([0, *id0, *id1, *id2]);
        if !has_id(sub, id) {
            return Err(Fault::OutOfRange(4));
        }
        if !has_unit(sub, *unit) {
            return Err(Fault::OutOfRange(7));
        }
        if !has_command(sub, *command) {
            return Err(Fault::OutOfRange(8));
        }
        if *tail % 16 > 9 {
            return Err(Fault::OutOfRange(9));
        }
        Ok(())
    }

    fn read(sub: u8, data: &[u8]) -> Result<Blinds, Fault> {
        let [id0, id1, id2, unit, command, tail] = data else {
            return Err(Fault::WrongLength);
        };
        Self::check(sub, data)?;
        Ok(Blinds {
            subtype: sub,
            id: u32::from_be_bytes([0, *id0, *id1, *id2]),
            unit: *unit,
            command: *command,
            strength: *tail / 16,
            battery: *tail % 16,
        })
    }

    fn subtype(record: &Blinds) -> u8 {
        record.subtype
    }

    fn write(record: &Blinds, out: &mut [u8]) -> Result<usize, Refusal> {
        let [_, id0, id1, id2] = record.id.to_be_bytes();
        put(
            &[
                id0,
                id1,
                id2,
                record.unit,
                record.command,
                record.strength * 16 + record.battery,
            ],
            out,
        )
    }
}
