// What a listing in progress holds. Its calls are in `feeding`.
use tape::reader::TapeReader;
use tape::signals::Entry;

pub mod feeding;

#[derive(Drop)]
pub struct Listing {
    reader: TapeReader,
    // the high byte of a signal number whose low byte has not come
    high: Option<u8>,
    // a signal came that the full tape did not take; a flag and no error, since a call of `feed` cannot fail
    over: bool,
}

// How far a listing went on.
#[derive(Clone, Copy, PartialEq, Eq, Debug)]
pub struct Fed {
    // of the input
    pub taken: usize,
    // to the output
    pub written: usize,
}

// One step of a listing: how many bytes it took, and the entry that they complete, if any.
#[derive(Clone, Copy, PartialEq, Eq, Debug)]
struct Advance {
    taken: usize,
    entry: Option<Entry>,
}
