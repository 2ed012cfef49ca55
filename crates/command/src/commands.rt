// A command: a record that may be sent. It has no sequence number; sending gives it one.
ghost use Rattle.std.specs.Prelude.{◌≡◌, true};
ghost use Rattle.command.specs.Orders.{may_send_order};

use crate::orders::Order;

#[derive(Clone, Copy, PartialEq, Eq, Debug)]
pub struct Command {
    pub order: Order,
    ghost ok: { may_send_order order ≡ true },
}
