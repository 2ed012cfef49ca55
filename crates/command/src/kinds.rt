// The kinds that are sent, and which of their records may be.
ghost use Rattle.std.specs.Prelude.{◌≡◌, ℕ, List, ◌∷◌, false, refl};
ghost use Rattle.command.specs.declared.orders.Order.{Order};
ghost use Rattle.command.specs.Commands.{spelled_by};
ghost use Rattle.command.specs.Orders.{may_send_order};
ghost use Rattle.command.specs.Sendable.{may_send, passes, sendable};
ghost use Rattle.command.specs.Kinds.{mode_fails, mode_sends, blinds_fails, blinds_sends, security_fails, security_sends};

use crate::orders::Order;
use actors::blinds::BlindsKind;
use actors::records::{Blinds, Security};
use actors::security::SecurityKind;
use control::mode::ModeKind;
use control::records::SetMode;
use frame::kind::Kind;

// A kind that is sent: its records are one case of `Order`. No trait in common with the kinds that are read: Set Mode is not read,
// and the laws here are over what may be sent.
pub(crate) trait SendKind: Kind {
    ghost case: { Self.Record → Order };

    // The record, as one that a command writes. Not `From<Self::Record>`: the laws need a block for each kind anyway.
    fn order(record: Self::Record) -> Order
        ensures { result ≡ case «record» };

    // Whether the record may be sent.
    fn may_send(record: &Self::Record) -> bool
        ensures { result ≡ may_send_order (case «record».now) };

    ghost spells: { (r : Self.Record) → spelled_by (case r) ≡ Self.model.number ∷ Self.model.sub_of r ∷ Self.model.bytes r };

    // what fails the check of the kind is not sent
    ghost fails: { (s : ℕ) (xs : List ℕ) → passes Self.model s xs ≡ false → sendable Self.model.number s xs ≡ false };

    // a record's subtype and data are sent as the record is
    ghost sends: { (r : Self.Record) → sendable Self.model.number (Self.model.sub_of r) (Self.model.bytes r) ≡ may_send_order (case r) };
}

// Whether the status may be sent to a security contact of the subtype.
fn may_send(subtype: u8, status: u8) -> bool
    ensures { result ≡ may_send subtype status }
{
    match subtype {
        0x00 => matches!(status, 0x00..=0x03 | 0x80..=0x83),
        0x01 | 0x05 => matches!(status, 0x04..=0x05 | 0x84..=0x85),
        0x02 => matches!(status, 0x06..=0x0D | 0x10..=0x13 if status != 0x08),
        0x03 | 0x09 => matches!(status, 0x06 | 0x17),
        0x04 | 0x07 => matches!(status, 0x00..=0x02 | 0x80..=0x82 if status % 2 == 0),
        0x08 => matches!(status, 0x06 | 0x08 | 0x09 | 0x0B | 0x0D),
        _ => false,
    }
}

impl SendKind for ModeKind {
    ghost case = { Order.Mode };

    ghost spells = { λ r. refl };

    ghost fails = { mode_fails };

    ghost sends = { mode_sends };

    fn order(mode: SetMode) -> Order {
        Order::Mode(mode)
    }

    fn may_send(_mode: &SetMode) -> bool {
        true
    }
}

impl SendKind for BlindsKind {
    ghost case = { Order.Blinds };

    ghost spells = { λ r. refl };

    ghost fails = { blinds_fails };

    ghost sends = { blinds_sends };

    fn order(blinds: Blinds) -> Order {
        Order::Blinds(blinds)
    }

    fn may_send(blinds: &Blinds) -> bool {
        blinds.strength == 0 && blinds.battery == 0
    }
}

impl SendKind for SecurityKind {
    ghost case = { Order.Security };

    ghost spells = { λ r. refl };

    ghost fails = { security_fails };

    ghost sends = { security_sends };

    fn order(contact: Security) -> Order {
        Order::Security(contact)
    }

    fn may_send(contact: &Security) -> bool {
        contact.strength == 0 && contact.battery == 0 && may_send(contact.subtype, contact.status)
    }
}
