// The theorems on readings, each as the contract of a function.
ghost use Rattle.tape.specs.Laws.{EachTapeHasOneReading, ALongerTapeKeepsTheEntries, PlacesAscend, EachReaderHasATape};

pub fn one_reading()
    ensures { EachTapeHasOneReading }
{}

pub fn entries_stay()
    ensures { ALongerTapeKeepsTheEntries }
{}

pub fn places_ascend()
    ensures { PlacesAscend }
{}

// So what a reader's contract says of every tape that it follows is never empty.
pub fn readers_have_tapes()
    ensures { EachReaderHasATape }
{}
