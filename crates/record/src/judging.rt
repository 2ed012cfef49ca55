// The verdict on a whole frame of any kind.
ghost use Rattle.std.specs.Prelude.{◌≡◌, Ok};
ghost use Rattle.frame.specs.Frames.{Whole, front_of, judged_whole};
ghost use Rattle.frame.specs.declared.packet.Packet.{Packet};
ghost use Rattle.record.specs.declared.records.Record.{Record};
ghost use Rattle.record.specs.Frames.{frame_of, verdict_of, verdict_whole, told};

use crate::kinds::ReadKind;
use crate::records::Record;
use actors::blinds::BlindsKind;
use actors::security::SecurityKind;
use control::interface::InterfaceKind;
use control::transmitter::TransmitterKind;
use frame::faults::Fault;
use frame::framing::{front, read_frame};
use frame::kind::Kind;
use frame::packet::Packet;
use sensors::climate::ClimateKind;
use sensors::meter::MeterKind;
use sensors::rain::RainKind;

fn judge_as<K: ReadKind>(frame: &[u8]) -> Result<Packet<Record>, Fault>
    requires { Whole frame.now }
    ensures { told result ≡ judged_whole K.Kind.model frame.now }
{
    let p = read_frame::<K>(frame)?;
    Ok(Packet {
        seq: p.seq,
        record: K::wrap(p.record),
    })
}

fn judge_whole(frame: &[u8]) -> Result<Packet<Record>, Fault>
    requires { Whole frame.now }
    ensures { told result ≡ verdict_whole frame.now }
{
    let [len, kind, ..] = frame else {
        return Err(Fault::NoPayload);
    };
    if *len < 4 {
        return Err(Fault::NoPayload);
    }
    // one arm to a kind: kinds are types, so only a match leads from a number to one
    match *kind {
        InterfaceKind::TYPE => judge_as::<InterfaceKind>(frame),
        TransmitterKind::TYPE => judge_as::<TransmitterKind>(frame),
        BlindsKind::TYPE => judge_as::<BlindsKind>(frame),
        SecurityKind::TYPE => judge_as::<SecurityKind>(frame),
        ClimateKind::TYPE => judge_as::<ClimateKind>(frame),
        RainKind::TYPE => judge_as::<RainKind>(frame),
        MeterKind::TYPE => judge_as::<MeterKind>(frame),
        _ => Err(Fault::UnknownType),
    }
}

// What the frame at the front of the bytes says: its record, or its first fault. Bytes that are too few for it are a cut frame.
// A packet's frame gives that packet; and whatever packet is given, its frame is the one that stands there.
pub fn judge(bytes: &[u8]) -> Result<Packet<Record>, Fault>
    ensures verdict { told result ≡ verdict_of bytes.now }
    ensures reads_back { (p : Packet Record) → bytes.now ≡ frame_of p → result ≡ Ok p }
    ensures writes_back { (p : Packet Record) → result ≡ Ok p → front_of bytes.now ≡ Ok (frame_of p) }
{
    judge_whole(front(bytes)?)
}
