// The two fixed packets of the start-up: nothing in them can be chosen.
ghost use Rattle.std.specs.Prelude.{◌≡◌};
ghost use Rattle.command.specs.Startup.{Recognised, packet_of};

#[derive(Clone, Copy, PartialEq, Eq, Debug)]
pub enum Startup {
    // puts the interface into the state after power-up
    Reset,
    // asks for the interface's state, under sequence number 1
    GetStatus,
}

pub const RESET: [u8; 14] = [
    0x0D, 0x00, 0x00, 0x00, 0x00, 0x00, 0x00, 0x00, 0x00, 0x00, 0x00, 0x00, 0x00, 0x00,
];

pub const GET_STATUS: [u8; 14] = [
    0x0D, 0x00, 0x00, 0x01, 0x02, 0x00, 0x00, 0x00, 0x00, 0x00, 0x00, 0x00, 0x00, 0x00,
];

impl Startup {
    // The packet, whole.
    pub fn packet(self) -> [u8; 14]
        ensures { result ≡ packet_of self }
    {
        match self {
            Startup::Reset => RESET,
            Startup::GetStatus => GET_STATUS,
        }
    }

    // Which of the two packets the bytes are, compared byte by byte; none where they are neither. The two packets are constants,
    // written whole; there is nothing in them to parse.
    pub fn recognise(bytes: &[u8]) -> Option<Startup>
        ensures { Recognised bytes.now result }
    {
        // tried as one `find` over the two: that needs a proof of what the array hands out, and these two tests need none
        if bytes == RESET.as_slice() {
            return Some(Startup::Reset);
        }
        if bytes == GET_STATUS.as_slice() {
            return Some(Startup::GetStatus);
        }
        None
    }
}
