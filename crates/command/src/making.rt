// One call makes every command.
ghost use Rattle.std.specs.Prelude.{◌≡◌, ◌∷◌, Ok};
ghost use Rattle.command.specs.declared.commands.Command.{Command as Made};
ghost use Rattle.command.specs.Commands.{asked, spelling, told};

use crate::commands::Command;
use crate::kinds::SendKind;
use actors::blinds::BlindsKind;
use actors::security::SecurityKind;
use control::mode::ModeKind;
use frame::kind::Kind;
use refusal::refusals::Refusal;

fn make_as<K: SendKind>(sub: u8, data: &[u8]) -> Result<Command, Refusal>
    ensures { told result ≡ asked K.Kind.model.number sub «data».now }
{
    let record = K::read(sub, data).map_err(|_| Refusal::NoSuchCommand)?;
    if !K::may_send(&record) {
        return Err(Refusal::NoSuchCommand);
    }
    Ok(Command {
        order: K::order(record),
    })
}

impl Command {
    // The command of a packet type, a subtype and the data bytes as they stand in a frame. It is refused exactly when no command
    // has these.
    pub fn make(kind: u8, sub: u8, data: &[u8]) -> Result<Command, Refusal>
        ensures exact { told result ≡ asked kind sub «data».now }
        ensures every { (c : Made) → spelling c ≡ kind ∷ sub ∷ «data».now → result ≡ Ok c }
    {
        // one arm to a kind: kinds are types, so only a match leads from a number to one
        match kind {
            ModeKind::TYPE => make_as::<ModeKind>(sub, data),
            BlindsKind::TYPE => make_as::<BlindsKind>(sub, data),
            SecurityKind::TYPE => make_as::<SecurityKind>(sub, data),
            _ => Err(Refusal::NoSuchCommand),
        }
    }
}
