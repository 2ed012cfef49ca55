// Type 0x54, temperature, humidity and pressure.
ghost use Rattle.std.specs.Prelude.{◌≡◌, refl, [], ◌∷◌, ◌%◌, ◌≤◌, unsigned_abs};
ghost use Rattle.frame.specs.Fields.{signed, high_byte_of};
ghost use Rattle.sensors.specs.Climate.{climate};
ghost use Rattle.sensors.specs.Laws.{climate_law};

use crate::records::Climate;
use frame::faults::Fault;
use frame::kind::Kind;
use refusal::output::put;
use refusal::refusals::Refusal;

#[derive(Clone, Copy, PartialEq, Eq, Debug)]
pub struct ClimateKind;

// The number of a sign and a size: no two's complement. No `From`: two bytes may be another number as well.
fn from_sign_and_size(hi: u8, lo: u8) -> i16
    ensures { result ≡ signed hi lo }
{
    let size = i16::from_be_bytes([hi % 128, lo]);
    if hi < 128 { size } else { -size }
}

// The sign and the high bits of the size, and its low bits. No `From`: two bytes have no room for the size of -32768.
fn to_sign_and_size(t: i16) -> [u8; 2]
    requires { unsigned_abs t ≤ 0x7FFF }
    ensures { result ≡ high_byte_of t ∷ unsigned_abs t % 256 ∷ [] }
{
    let [hi, lo] = t.unsigned_abs().to_be_bytes();
    if t < 0 { [hi + 128, lo] } else { [hi, lo] }
}

impl Kind for ClimateKind {
    const TYPE: u8 = 0x54;

    ghost TYPE = { 0x54 };

    const LENGTH: u8 = 13;

    ghost LENGTH = { 13 };

    type Record = Climate;

    ghost model = { climate };

    ghost law = { climate_law };

    ghost type_is = { refl };

    ghost length_is = { refl };

    fn check(sub: u8, data: &[u8]) -> Result<(), Fault> {
        let [_, _, t0, t1, humidity, status, _, _, forecast, tail] = data else {
            return Err(Fault::WrongLength);
        };
        if !(1..=2).contains(&sub) {
            return Err(Fault::UnknownSubtype);
        }
        if u16::from_be_bytes([*t0, *t1]) == 0x8000 {
            return Err(Fault::OutOfRange(6));
        }
        if *humidity > 100 {
            return Err(Fault::OutOfRange(8));
        }
        if *status > 3 {
            return Err(Fault::OutOfRange(9));
        }
        if *forecast > 4 {
            return Err(Fault::OutOfRange(12));
        }
        if *tail % 16 > 9 {
            return Err(Fault::OutOfRange(13));
        }
        Ok(())
    }

    fn read(sub: u8, data: &[u8]) -> Result<Climate, Fault> {
        let [id0, id1, t0, t1, humidity, status, p0, p1, forecast, tail] = data else {
            return Err(Fault::WrongLength);
        };
        Self::check(sub, data)?;
        Ok(Climate {
            subtype: sub,
            id: u16::from_be_bytes([*id0, *id1]),
            temperature: from_sign_and_size(*t0, *t1),
            humidity: *humidity,
            humidity_status: *status,
            pressure: u16::from_be_bytes([*p0, *p1]),
            forecast: *forecast,
            strength: *tail / 16,
            battery: *tail % 16,
        })
    }

    fn subtype(record: &Climate) -> u8 {
        record.subtype
    }

    fn write(record: &Climate, out: &mut [u8]) -> Result<usize, Refusal> {
        let [id0, id1] = record.id.to_be_bytes();
        let [t0, t1] = to_sign_and_size(record.temperature);
        let [p0, p1] = record.pressure.to_be_bytes();
        let tail = record.strength * 16 + record.battery;
        put(
            &[
                id0,
                id1,
                t0,
                t1,
                record.humidity,
                record.humidity_status,
                p0,
                p1,
                record.forecast,
                tail,
            ],
            out,
        )
    }
}
