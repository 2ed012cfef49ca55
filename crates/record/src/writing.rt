// The frame of a record of any kind.
ghost use Rattle.record.specs.Frames.{frame_of};
ghost use Rattle.refusal.specs.Output.{Put};

use crate::records::Record;
use actors::blinds::BlindsKind;
use actors::security::SecurityKind;
use control::interface::InterfaceKind;
use control::transmitter::TransmitterKind;
use frame::framing::write_frame;
use frame::packet::Packet;
use refusal::refusals::Refusal;
use sensors::climate::ClimateKind;
use sensors::meter::MeterKind;
use sensors::rain::RainKind;

// Puts the frame of a packet at the front of the buffer.
pub fn write_record(packet: &Packet<Record>, out: &mut [u8]) -> Result<usize, Refusal>
    ensures { Put (frame_of packet.now) out.old result out.new }
{
    let seq = packet.seq;
    // one arm to a kind: a generic function would need this very match to find it
    match packet.record {
        Record::Interface(record) => write_frame::<InterfaceKind>(&Packet { seq, record }, out),
        Record::Transmitter(record) => write_frame::<TransmitterKind>(&Packet { seq, record }, out),
        Record::Blinds(record) => write_frame::<BlindsKind>(&Packet { seq, record }, out),
        Record::Security(record) => write_frame::<SecurityKind>(&Packet { seq, record }, out),
        Record::Climate(record) => write_frame::<ClimateKind>(&Packet { seq, record }, out),
        Record::Rain(record) => write_frame::<RainKind>(&Packet { seq, record }, out),
        Record::Meter(record) => write_frame::<MeterKind>(&Packet { seq, record }, out),
    }
}
