// Why a call of the library is refused.
ghost use Rattle.std.specs.Prelude.{◌≡◌};
ghost use Rattle.refusal.specs.Numbers.{number_of};

#[derive(Clone, Copy, PartialEq, Eq, Debug)]
pub enum Refusal {
    // no command has this type, subtype and data
    NoSuchCommand = 11,
    // the caller's buffer has too few places for what is to be written
    OutputTooShort = 16,
    // no packet has these bytes as its house record
    NoHouseRecord = 17,
}

impl Refusal {
    // The number by which the rules name it.
    pub fn number(self) -> u8
        ensures { result ≡ number_of self }
    {
        self as u8
    }
}
