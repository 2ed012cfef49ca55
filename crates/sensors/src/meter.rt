// Type 0x71, meters that count pulses.
ghost use Rattle.std.specs.Prelude.{refl};
ghost use Rattle.sensors.specs.Meter.{meter};
ghost use Rattle.sensors.specs.Laws.{meter_law};

use crate::records::Meter;
use frame::faults::Fault;
use frame::kind::Kind;
use refusal::output::put;
use refusal::refusals::Refusal;

#[derive(Clone, Copy, PartialEq, Eq, Debug)]
pub struct MeterKind;

impl Kind for MeterKind {
    const TYPE: u8 = 0x71;

    ghost TYPE = { 0x71 };

    const LENGTH: u8 = 10;

    ghost LENGTH = { 10 };

    type Record = Meter;

    ghost model = { meter };

    ghost law = { meter_law };

    ghost type_is = { refl };

    ghost length_is = { refl };

    fn check(sub: u8, data: &[u8]) -> Result<(), Fault> {
        let [_, _, c0, c1, c2, c3, tail] = data else {
            return Err(Fault::WrongLength);
        };
        if sub != 0 {
            return Err(Fault::UnknownSubtype);
        }
        if u32::from_be_bytes([*c0, *c1, *c2, *c3]) > 0x0FFF_FFFF {
            return Err(Fault::OutOfRange(6));
        }
        if *tail % 16 != 0 {
            return Err(Fault::OutOfRange(10));
        }
        Ok(())
    }

    fn read(sub: u8, data: &[u8]) -> Result<Meter, Fault> {
        let [id0, id1, c0, c1, c2, c3, tail] = data else {
            return Err(Fault::WrongLength);
        };
        Self::check(sub, data)?;
        Ok(Meter {
            subtype: sub,
            id: u16::from_be_bytes([*id0, *id1]),
            counter: u32::from_be_bytes([*c0, *c1, *c2, *c3]),
            strength: *tail / 16,
        })
    }

    fn subtype(record: &Meter) -> u8 {
        record.subtype
    }

    fn write(record: &Meter, out: &mut [u8]) -> Result<usize, Refusal> {
        let [id0, id1] = record.id.to_be_bytes();
        let [c0, c1, c2, c3] = record.counter.to_be_bytes();
        put(&[id0, id1, c0, c1, c2, c3, record.strength * 16], out)
    }
}
