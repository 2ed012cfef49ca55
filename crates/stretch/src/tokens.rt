// What a stretch is made of.

// A part of a stretch, as a part of its bytes, with the place of its length byte. A place has 64 bits, so that it is right
// past the end of 32 bits too. The three have the same two fields, and are no struct with a sort: users match on
// them, and so do the clauses.
#[derive(Clone, Copy, PartialEq, Eq, Debug)]
pub enum Token<'a> {
    // a whole frame that has a payload
    Frame { place: u64, bytes: &'a [u8] },
    // a whole frame that has none: its length byte is below 4
    Empty { place: u64, bytes: &'a [u8] },
    // fewer bytes than their length byte asks for, but at least one
    Remnant { place: u64, bytes: &'a [u8] },
}
