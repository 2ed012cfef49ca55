// A stream listed piece by piece.
ghost use Rattle.std.specs.Prelude.{◌≡◌, ℕ, ◌<◌, ◌≤◌, List, [], ◌∷◌, ◌++◌, length, drop, IfSome, None};
ghost use Rattle.std.specs.Option.{option_to_list};
ghost use Rattle.refusal.specs.Output.{Put};
ghost use Rattle.tape.specs.declared.signals.Signal.{Signal as Heard};
ghost use Rattle.tape.specs.declared.signals.Entry.{Entry};
ghost use Rattle.tape.specs.Follow.{Follows, model};
ghost use Rattle.tape.specs.Reading.{Reads};
ghost use Rattle.listing.specs.Lines.{lines, closing_of};
ghost use Rattle.listing.specs.Listing.{tape_of, Listens, FedOn, WentOn, Stops};
ghost use Rattle.listing.specs.Steps.{Stepped, Hears, Advances, FedOnce};

use crate::gathering::gather;
use crate::line::{LINE, compose, write_closing};
use crate::listing::{Advance, Fed, Listing};
use refusal::refusals::Refusal;
use tape::reader::TapeReader;
use tape::signals::{Entry, Signal, TapeFull};

// Writes the line of the entry, if there is one, to the front of the buffer.
// tried without `inline`: an entry that is not there is then put into memory for each call
#[inline(always)]
fn write_entry(entry: Option<Entry>, room: &mut [u8; LINE]) -> usize
    ensures counts { result ≡ length (lines (option_to_list entry)) }
    ensures holds { room.new ≡ lines (option_to_list entry) ++ drop result room.old }
    ensures few { result ≤ LINE }
{
    match entry {
        Some(entry) => compose(&entry, room),
        None => 0,
    }
}

impl Listing {
    // The listing of the stream that has no byte.
    pub fn new() -> Listing
        ensures { Listens [] [] result }
    {
        Listing {
            reader: TapeReader::new(),
            high: None,
            over: false,
        }
    }

    // One signal more: the entry that it completes, if any.
    fn step(&mut self, signal: Signal) -> Option<Entry>
        ensures same_half { self.new.high ≡ self.old.high }
        ensures stepped { (t : List Heard) (es : List Entry) → Follows t es (model self.old.reader) → Stepped t es signal result self.old self.new }
    {
        match self.reader.take(signal) {
            Ok(entry) => entry,
            Err(TapeFull) => {
                self.over = true;
                None
            }
        }
    }

    // One byte more.
    fn hear(&mut self, byte: u8) -> Option<Entry>
        ensures { Hears self.old (byte ∷ []) (option_to_list result) self.new }
    {
        let Some(high) = self.high else {
            self.high = Some(byte);
            return None;
        };
        self.high = None;
        self.step(Signal::from(u16::from_be_bytes([high, byte])))
    }

    // Takes a frame that lies whole at the front of the piece at once. Where there is none it takes nothing.
    fn leap(&mut self, piece: &[u8], scratch: &mut [u8; 256]) -> Option<Advance>
        ensures some { IfSome result (Advances self.old piece.now self.new) }
        ensures none { result ≡ None → self.new ≡ self.old }
    {
        let (None, 0) = (self.high, self.reader.begun()) else {
            return None;
        };
        let frame = gather(piece, scratch)?;
        let entry = self.reader.take_frame(frame)?;
        Some(Advance {
            taken: 2 * frame.len(),
            entry: Some(entry),
        })
    }

    // Takes signal numbers one by one, up to the first that completes an entry, to where another frame may begin, or to an odd last
    // byte. A loop of its own, so that what completes nothing, as the pauses of a quiet line, costs little.
    fn pass(&mut self, piece: &[u8]) -> Advance
        requires no_half { self.old.high ≡ None }
        requires some { 2 ≤ length piece.now }
        ensures { Advances self.old piece.now self.new result }
    {
        let mut rest = piece;
        while let [high, low, after @ ..] = rest {
            let entry = self.step(Signal::from(u16::from_be_bytes([*high, *low])));
            rest = after;
            if entry.is_some() || (self.reader.begun() == 0 && matches!(rest, [0, ..])) {
                let taken = piece.len() - rest.len();
                return Advance { taken, entry };
            }
        }
        let taken = piece.len() - rest.len();
        Advance { taken, entry: None }
    }

    // Takes a whole frame, or else signal numbers, or else one byte, and writes the line of the entry that they complete, if any.
    // tried to write it once, behind all three: an entry that is not there is then carried that far, and short pieces take three to
    // four times as long
    fn advance(&mut self, piece: &[u8], scratch: &mut [u8; 256], room: &mut [u8; LINE]) -> Fed
        requires { 0 < length piece.now }
        ensures { FedOnce self.old piece.now room.old self.new room.new result }
    {
        if let Some(Advance { taken, entry }) = self.leap(piece, scratch) {
            let written = write_entry(entry, room);
            return Fed { taken, written };
        }
        match (self.high, piece) {
            (None, [_, _, ..]) => {
                let Advance { taken, entry } = self.pass(piece);
                let written = write_entry(entry, room);
                Fed { taken, written }
            }
            _ => {
                let entry = self.hear(piece[0]);
                let written = write_entry(entry, room);
                Fed { taken: 1, written }
            }
        }
    }

    // Advances, if the buffer has room for a longest line. Else it does nothing.
    fn feed_once(&mut self, piece: &[u8], scratch: &mut [u8; 256], out: &mut [u8]) -> Option<Fed>
        requires { 0 < length piece.now }
        ensures some { IfSome result (FedOnce self.old piece.now out.old self.new out.new) }
        ensures none { result ≡ None → (length out.old < LINE) × (self.new ≡ self.old) × (out.new ≡ out.old) }
    {
        let room = out.first_chunk_mut::<LINE>()?;
        // by name, so that a must-fail edit can turn one of the two
        let Fed { taken, written } = self.advance(piece, scratch, room);
        Some(Fed { taken, written })
    }

    // Goes on with the listing: takes bytes from the front of the piece, and writes the lines that they complete to the front of
    // the buffer, as long as the buffer has room for a longest line.
    pub fn feed(&mut self, piece: &[u8], out: &mut [u8]) -> Fed
        ensures fed { (input : List ℕ) (es : List Entry) → Listens input es self.old → FedOn input piece.now es out.old result out.new self.new }
        ensures went { (input : List ℕ) (es : List Entry) → Listens input es self.old → WentOn input piece.now es out.old result }
        ensures stops { Stops piece.now out.old result }
    {
        // tried in `leap`, where it is used: 0.72 of the speed, since each step then clears it
        let mut scratch = [0; 256];
        let mut rest = piece;
        // counted, since it is told, and no rest of the buffer is left to tell it by
        let mut written = 0;
        while !rest.is_empty() {
            let Some(fed) = self.feed_once(rest, &mut scratch, &mut out[written..]) else {
                break;
            };
            written += fed.written;
            rest = &rest[fed.taken..];
        }
        Fed {
            taken: piece.len() - rest.len(),
            written,
        }
    }

    // Whether more signals came than are counted, so that the listing breaks off.
    pub fn over(&self) -> bool
        ensures { result ≡ self.now.over }
    {
        self.over
    }

    // Puts the closing line at the front of the buffer: the signals of the tape, and the bytes of its frame begun.
    pub fn close(&self, out: &mut [u8]) -> Result<usize, Refusal>
        ensures closes { (input : List ℕ) (es : List Entry) (q : ℕ) (begun : List ℕ) → Listens input es self.now → Reads 0 (tape_of input) es q begun → Put (closing_of (length (tape_of input)) (length begun)) out.old result out.new }
        ensures puts { Put (closing_of (model self.now.reader).signals (model self.now.reader).held) out.old result out.new }
    {
        write_closing(self.reader.signals(), self.reader.begun(), out)
    }
}
