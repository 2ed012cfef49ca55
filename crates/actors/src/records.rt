// The records of commanded devices, lawful by their type: each ghost field is the range test of `Rattle.actors.specs.Ranges`.
// Subtype, command and status are numbers, not enums: each in range is lawful, named or not (docs/DECISIONS.md).
ghost use Rattle.std.specs.Prelude.{◌≡◌, true};
ghost use Rattle.actors.specs.Ranges.{blinds_ok, security_ok};

// Type 0x19, blinds and what they are told to do.
#[derive(Clone, Copy, PartialEq, Eq, Debug)]
pub struct Blinds {
    pub subtype: u8,
    // three bytes in the frame: std's from_be_bytes and to_be_bytes, with a 0 in front, are one call each way, so no pair of ours
    pub id: u32,
    pub unit: u8,
    pub command: u8,
    // with the battery one byte of the frame; no type of their own, since programs print the fields as they stand
    pub strength: u8,
    pub battery: u8,
    ghost ok: { blinds_ok subtype id unit command strength battery ≡ true },
}

// Type 0x20, a security contact and what it tells.
#[derive(Clone, Copy, PartialEq, Eq, Debug)]
pub struct Security {
    pub subtype: u8,
    // three bytes in the frame
    pub id: u32,
    pub status: u8,
    // as in `Blinds`
    pub strength: u8,
    pub battery: u8,
    ghost ok: { security_ok subtype id status strength battery ≡ true },
}
