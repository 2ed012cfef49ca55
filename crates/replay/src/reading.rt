// The packet of a house record, and its frame.
ghost use Rattle.std.specs.Prelude.{◌≡◌, ◌&&◌, ◌==◌, Ok};
ghost use Rattle.frame.specs.declared.packet.Packet.{Packet};
ghost use Rattle.record.specs.declared.records.Record.{Record};
ghost use Rattle.house.specs.House.{house_of};
ghost use Rattle.replay.specs.Back.{given, housed, house_verdict, headed, map_by, is_map, lawful_by, Reframed};

use crate::kinds::StoredKind;
use actors::blinds::BlindsKind;
use actors::security::SecurityKind;
use control::interface::InterfaceKind;
use control::transmitter::TransmitterKind;
use frame::kind::Kind;
use frame::packet::Packet;
use house::kind::HouseKind;
use record::kinds::ReadKind;
use record::records::Record;
use record::writing::write_record;
use refusal::refusals::Refusal;
use sensors::climate::ClimateKind;
use sensors::meter::MeterKind;
use sensors::rain::RainKind;

// A house record in its parts: map, type, subtype and sequence number, and the fields behind them.
#[derive(Drop)]
struct Stored<'a> {
    map: u16,
    kind: u8,
    sub: u8,
    seq: u8,
    fields: &'a [u8],
}

impl<'a> Stored<'a> {
    // Its packet, where its type is that of the kind.
    fn read_as<K: StoredKind>(&self) -> Result<Packet<Record>, Refusal>
        ensures { housed result ≡ given (self.now.map == K.MAP && K.lawful self.now.sub self.now.fields.now) (headed self.now.map K.TYPE self.now.sub self.now.seq self.now.fields.now) }
    {
        if self.map != K::MAP {
            return Err(Refusal::NoHouseRecord);
        }
        let record = K::wrap(K::read_fields(self.sub, self.fields)?);
        Ok(Packet {
            seq: self.seq,
            record,
        })
    }

    // Its packet, read by the kind that has its type.
    fn read(&self) -> Result<Packet<Record>, Refusal>
        ensures { housed result ≡ given (is_map (map_by self.now.kind) self.now.map && lawful_by self.now.kind self.now.sub self.now.fields.now) (headed self.now.map self.now.kind self.now.sub self.now.seq self.now.fields.now) }
    {
        // one arm to a kind: kinds are types, so only a match leads from a number to one
        match self.kind {
            InterfaceKind::TYPE => self.read_as::<InterfaceKind>(),
            TransmitterKind::TYPE => self.read_as::<TransmitterKind>(),
            BlindsKind::TYPE => self.read_as::<BlindsKind>(),
            SecurityKind::TYPE => self.read_as::<SecurityKind>(),
            ClimateKind::TYPE => self.read_as::<ClimateKind>(),
            RainKind::TYPE => self.read_as::<RainKind>(),
            MeterKind::TYPE => self.read_as::<MeterKind>(),
            _ => Err(Refusal::NoHouseRecord),
        }
    }
}

// The packet whose house record this is; refused where it is no packet's.
pub fn read_house(house: &[u8]) -> Result<Packet<Record>, Refusal>
    ensures verdict { housed result ≡ house_verdict house.now }
    ensures reads_back { (p : Packet Record) → house.now ≡ house_of p → result ≡ Ok p }
    ensures writes_back { (p : Packet Record) → result ≡ Ok p → house_of p ≡ house.now }
{
    let [map0, map1, kind, sub, seq, fields @ ..] = house else {
        return Err(Refusal::NoHouseRecord);
    };
    let stored = Stored {
        map: u16::from_be_bytes([*map0, *map1]),
        kind: *kind,
        sub: *sub,
        seq: *seq,
        fields,
    };
    stored.read()
}

// Puts the frame of the packet whose house record this is at the front of the buffer. A house record that is no packet's is
// refused as such even where the buffer is too short.
pub fn house_to_frame(house: &[u8], out: &mut [u8]) -> Result<usize, Refusal>
    ensures { Reframed house.now out.old result out.new }
{
    write_record(&read_house(house)?, out)
}
