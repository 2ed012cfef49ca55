// The interface's records, lawful by their type: each ghost field is the range test of `Rattle.control.specs.Ranges`.
// Subtype, message, command and frequency are numbers, not enums: each in range is lawful, named or not (docs/DECISIONS.md).
ghost use Rattle.std.specs.Prelude.{◌≡◌, true};
ghost use Rattle.control.specs.Ranges.{transmitter_ok, interface_ok, mode_ok};

// Type 0x02, a message of the transmitter.
#[derive(Clone, Copy, PartialEq, Eq, Debug)]
pub struct TransmitterMessage {
    pub subtype: u8,
    pub message: u8,
    ghost ok: { transmitter_ok subtype message ≡ true },
}

// Type 0x01, a message of the interface: the command that it answers, and the nine bytes behind it.
#[derive(Clone, Copy, PartialEq, Eq, Debug)]
pub struct InterfaceMessage {
    pub subtype: u8,
    pub command: u8,
    pub messages: [u8; 9],
    ghost ok: { interface_ok subtype command messages ≡ true },
}

// Type 0x00, the mode to set. It has no field for the subtype, which is always 0.
#[derive(Clone, Copy, PartialEq, Eq, Debug)]
pub struct SetMode {
    pub frequency: u8,
    pub msg3: u8,
    pub msg4: u8,
    pub msg5: u8,
    ghost ok: { mode_ok frequency msg3 msg4 msg5 ≡ true },
}
