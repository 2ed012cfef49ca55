// A record of a kind, with the sequence number of its frame.
#[derive(Clone, Copy, PartialEq, Eq, Debug)]
pub struct Packet<R> {
    pub seq: u8,
    pub record: R,
}
