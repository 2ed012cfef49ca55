// The house record of a packet.
ghost use Rattle.refusal.specs.Output.{Put};
ghost use Rattle.house.specs.House.{house_of, laid};

use crate::kind::HouseKind;
use actors::blinds::BlindsKind;
use actors::security::SecurityKind;
use control::interface::InterfaceKind;
use control::transmitter::TransmitterKind;
use frame::kind::Kind;
use frame::packet::Packet;
use record::records::Record;
use refusal::refusals::Refusal;
use sensors::climate::ClimateKind;
use sensors::meter::MeterKind;
use sensors::rain::RainKind;

// Puts the house record of a packet of a kind.
fn write_as<K: HouseKind>(seq: u8, record: &K::Record, out: &mut [u8]) -> Result<usize, Refusal>
    ensures { Put (laid (K.fields seq «record».now)) out.old result out.new }
{
    let Some((head, fields)) = out.split_first_chunk_mut::<5>() else {
        return Err(Refusal::OutputTooShort);
    };
    // The fields first, since they may not fit. A slice pattern in place of the split would leave the buffer's bytes unknown.
    let size = K::write_fields(record, fields)?;
    let [map0, map1] = K::MAP.to_be_bytes();
    let sub = K::subtype(record);
    *head = [map0, map1, K::TYPE, sub, seq];
    Ok(5 + size)
}

// Puts the house record of a packet at the front of the buffer.
pub fn write_house(packet: &Packet<Record>, out: &mut [u8]) -> Result<usize, Refusal>
    ensures { Put (house_of packet.now) out.old result out.new }
{
    let seq = packet.seq;
    // one arm to a kind: a generic function would need this very match to find it
    match &packet.record {
        Record::Interface(record) => write_as::<InterfaceKind>(seq, record, out),
        Record::Transmitter(record) => write_as::<TransmitterKind>(seq, record, out),
        Record::Blinds(record) => write_as::<BlindsKind>(seq, record, out),
        Record::Security(record) => write_as::<SecurityKind>(seq, record, out),
        Record::Climate(record) => write_as::<ClimateKind>(seq, record, out),
        Record::Rain(record) => write_as::<RainKind>(seq, record, out),
        Record::Meter(record) => write_as::<MeterKind>(seq, record, out),
    }
}
