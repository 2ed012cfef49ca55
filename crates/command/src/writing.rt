// The frame of a command.
ghost use Rattle.std.specs.Prelude.{◌≡◌, ℕ, length};
ghost use Rattle.command.specs.Commands.{frame_of, type_of};
ghost use Rattle.refusal.specs.Output.{Put};

use crate::commands::Command;
use crate::orders::Order;
use actors::blinds::BlindsKind;
use actors::security::SecurityKind;
use control::mode::ModeKind;
use frame::framing::write_frame;
use frame::kind::Kind;
use frame::packet::Packet;
use refusal::refusals::Refusal;

// one arm to a kind, in all three: a generic function would need this very match to find it
impl Command {
    // Its type number.
    pub fn type_number(&self) -> u8
        ensures { result ≡ type_of self.now }
    {
        match self.order {
            Order::Mode(_) => ModeKind::TYPE,
            Order::Blinds(_) => BlindsKind::TYPE,
            Order::Security(_) => SecurityKind::TYPE,
        }
    }

    // How many bytes its frame has, whatever its sequence number.
    pub fn size(&self) -> usize
        ensures { (seq : ℕ) → result ≡ length (frame_of seq self.now) }
    {
        let length = match self.order {
            Order::Mode(_) => ModeKind::LENGTH,
            Order::Blinds(_) => BlindsKind::LENGTH,
            Order::Security(_) => SecurityKind::LENGTH,
        };
        length as usize + 1
    }

    // Puts its frame under a sequence number at the front of the buffer.
    pub fn write(&self, seq: u8, out: &mut [u8]) -> Result<usize, Refusal>
        ensures { Put (frame_of seq self.now) out.old result out.new }
    {
        match self.order {
            Order::Mode(record) => write_frame::<ModeKind>(&Packet { seq, record }, out),
            Order::Blinds(record) => write_frame::<BlindsKind>(&Packet { seq, record }, out),
            Order::Security(record) => write_frame::<SecurityKind>(&Packet { seq, record }, out),
        }
    }
}
