// The records that commands write.
use actors::records::{Blinds, Security};
use control::records::SetMode;

#[derive(Clone, Copy, PartialEq, Eq, Debug)]
pub enum Order {
    Mode(SetMode),
    Blinds(Blinds),
    Security(Security),
}
