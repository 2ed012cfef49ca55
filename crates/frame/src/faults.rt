// Why a frame or a remnant gives no record.
ghost use Rattle.std.specs.Prelude.{◌≡◌};
ghost use Rattle.frame.specs.Faults.{cause_of, offset_of};

#[derive(Clone, Copy, PartialEq, Eq, Debug)]
pub enum Fault {
    // the length byte is below 4
    NoPayload,
    // a pause ended the frame; so many of its bytes had come
    Cut(u8),
    UnknownType,
    // the length byte is not that of the type
    WrongLength,
    UnknownSubtype,
    // a field is out of range; the offset in the frame of the first byte of the first such field
    OutOfRange(u8),
}

impl Fault {
    // The number by which the rules name the cause.
    pub fn cause(self) -> u8
        ensures { result ≡ cause_of self }
    {
        // no discriminants, as a refusal has: two of the causes carry a value
        match self {
            Fault::NoPayload => 1,
            Fault::Cut(_) => 2,
            Fault::UnknownType => 3,
            Fault::WrongLength => 4,
            Fault::UnknownSubtype => 5,
            Fault::OutOfRange(_) => 6,
        }
    }

    // Where in the frame it lies.
    pub fn offset(self) -> u8
        ensures { result ≡ offset_of self }
    {
        match self {
            Fault::NoPayload => 0,
            Fault::Cut(held) => held,
            Fault::UnknownType => 1,
            Fault::WrongLength => 0,
            Fault::UnknownSubtype => 2,
            Fault::OutOfRange(at) => at,
        }
    }
}
