// The kinds whose house records are read back. Their fields are put back into the data of a frame, which the kind reads: so
// what a field may be is said in one place. Only what a frame has no place for is looked at here: the high bytes of the ID,
// and halves of the tail above 15.
ghost use Rattle.std.specs.Prelude.{◌≡◌, ℕ, ◌+◌, ◌*◌, Bool, cond, ◌&&◌, List, ◌∷◌, Ok, Err, is_ok, nat_le, refl};
ghost use Rattle.frame.specs.Frames.{packet};
ghost use Rattle.frame.specs.Model.{checked};
ghost use Rattle.refusal.specs.declared.refusals.Refusal.TheVariants.{NoHouseRecord};
ghost use Rattle.house.specs.House.{house_of, behind, laid};
ghost use Rattle.replay.specs.Back.{given, as_fields, sign_and_size, interface_lawful, transmitter_lawful, blinds_lawful, security_lawful, climate_lawful, rain_lawful, meter_lawful};

use actors::blinds::BlindsKind;
use actors::records::{Blinds, Security};
use actors::security::SecurityKind;
use control::interface::InterfaceKind;
use control::records::{InterfaceMessage, TransmitterMessage};
use control::transmitter::TransmitterKind;
use frame::kind::Kind;
use house::kind::HouseKind;
use record::kinds::ReadKind;
use refusal::refusals::Refusal;
use sensors::climate::ClimateKind;
use sensors::meter::MeterKind;
use sensors::rain::RainKind;
use sensors::records::{Climate, Meter, Rain};

pub(crate) trait StoredKind: HouseKind + ReadKind {
    // Whether a subtype and the fields behind type, subtype and sequence number are a record's.
    ghost lawful: { ℕ → List ℕ → Bool };

    // The record of a subtype and these fields.
    fn read_fields(sub: u8, fields: &[u8]) -> Result<Self::Record, Refusal>
        ensures { as_fields Self.model.sub_of (λ r. behind (Self.fields 0 r)) result ≡ given (lawful sub «fields».now) (sub ∷ «fields».now) };

    ghost same_house: { (seq : ℕ) (r : Self.Record) → house_of (packet seq (Self.case r)) ≡ laid (Self.fields seq r) };
}

// The record of a subtype and the data of a frame.
fn read_data<K: Kind>(sub: u8, data: &[u8]) -> Result<K::Record, Refusal>
    ensures { as_fields K.model.sub_of K.model.bytes result ≡ given (is_ok (checked K.model sub «data».now)) (sub ∷ «data».now) }
{
    K::read(sub, data).map_err(|_| Refusal::NoHouseRecord)
}

// The tail of a frame: the signal strength in its high half, the battery in the low one.
fn tail_of(strength: u8, battery: u8) -> Result<u8, Refusal>
    ensures { result ≡ cond (nat_le strength 15 && nat_le battery 15) (Ok (strength * 16 + battery)) (Err NoHouseRecord) }
{
    if strength > 15 || battery > 15 {
        return Err(Refusal::NoHouseRecord);
    }
    Ok(strength * 16 + battery)
}

impl StoredKind for InterfaceKind {
    ghost lawful = { interface_lawful };

    ghost same_house = { λ seq r. refl };

    fn read_fields(sub: u8, fields: &[u8]) -> Result<InterfaceMessage, Refusal> {
        read_data::<InterfaceKind>(sub, fields)
    }
}

impl StoredKind for TransmitterKind {
    ghost lawful = { transmitter_lawful };

    ghost same_house = { λ seq r. refl };

    fn read_fields(sub: u8, fields: &[u8]) -> Result<TransmitterMessage, Refusal> {
        read_data::<TransmitterKind>(sub, fields)
    }
}

impl StoredKind for BlindsKind {
    ghost lawful = { blinds_lawful };

    ghost same_house = { λ seq r. refl };

    fn read_fields(sub: u8, fields: &[u8]) -> Result<Blinds, Refusal> {
        let [0, id0, id1, id2, unit, command, battery, strength] = fields else {
            return Err(Refusal::NoHouseRecord);
        };
        let tail = tail_of(*strength, *battery)?;
        read_data::<BlindsKind>(sub, &[*id0, *id1, *id2, *unit, *command, tail])
    }
}

impl StoredKind for SecurityKind {
    ghost lawful = { security_lawful };

    ghost same_house = { λ seq r. refl };

    fn read_fields(sub: u8, fields: &[u8]) -> Result<Security, Refusal> {
        let [0, id0, id1, id2, status, battery, strength] = fields else {
            return Err(Refusal::NoHouseRecord);
        };
        let tail = tail_of(*strength, *battery)?;
        read_data::<SecurityKind>(sub, &[*id0, *id1, *id2, *status, tail])
    }
}

// Sign and size of a number in two's complement. 8000 stays as it is: it is no temperature in a frame either, and
// has no place in the way that the sensors write one.
fn sign_and_size(t: u16) -> u16
    ensures { result ≡ sign_and_size t }
{
    if t <= 0x8000 {
        t
    } else {
        0x8000 + t.wrapping_neg()
    }
}

impl StoredKind for ClimateKind {
    ghost lawful = { climate_lawful };

    ghost same_house = { λ seq r. refl };

    fn read_fields(sub: u8, fields: &[u8]) -> Result<Climate, Refusal> {
        let [
            0,
            0,
            id0,
            id1,
            t0,
            t1,
            h0,
            h1,
            p0,
            p1,
            p2,
            battery,
            strength,
        ] = fields
        else {
            return Err(Refusal::NoHouseRecord);
        };
        let [t0, t1] = sign_and_size(u16::from_be_bytes([*t0, *t1])).to_be_bytes();
        let tail = tail_of(*strength, *battery)?;
        read_data::<ClimateKind>(sub, &[*id0, *id1, t0, t1, *h0, *h1, *p0, *p1, *p2, tail])
    }
}

impl StoredKind for RainKind {
    ghost lawful = { rain_lawful };

    ghost same_house = { λ seq r. refl };

    fn read_fields(sub: u8, fields: &[u8]) -> Result<Rain, Refusal> {
        let [0, 0, id0, id1, r0, r1, t0, t1, t2, battery, strength] = fields else {
            return Err(Refusal::NoHouseRecord);
        };
        let tail = tail_of(*strength, *battery)?;
        read_data::<RainKind>(sub, &[*id0, *id1, *r0, *r1, *t0, *t1, *t2, tail])
    }
}

impl StoredKind for MeterKind {
    ghost lawful = { meter_lawful };

    ghost same_house = { λ seq r. refl };

    fn read_fields(sub: u8, fields: &[u8]) -> Result<Meter, Refusal> {
        let [0, 0, id0, id1, c0, c1, c2, c3, strength] = fields else {
            return Err(Refusal::NoHouseRecord);
        };
        let tail = tail_of(*strength, 0)?;
        read_data::<MeterKind>(sub, &[*id0, *id1, *c0, *c1, *c2, *c3, tail])
    }
}
