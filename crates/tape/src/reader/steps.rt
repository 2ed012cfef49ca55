// What a reader of a tape does with a signal.
ghost use Rattle.std.specs.Prelude.{◌≡◌, ◌+◌, ◌≤◌, List, [], ◌∷◌, ◌++◌, map, is_some, Some, None, OnErr};
ghost use Rattle.tape.specs.declared.signals.Signal.{Signal as Heard};
ghost use Rattle.tape.specs.declared.signals.Signal.TheVariants.{Byte};
ghost use Rattle.tape.specs.declared.signals.Entry.{Entry as Told};
ghost use Rattle.tape.specs.Follow.{Follows, Took, at_once, model};

use crate::reader::TapeReader;
use crate::signals::{Entry, Signal, TapeFull};
use frame::faults::Fault;
use frame::packet::Packet;
use record::judging::judge;
use record::records::Record;

impl TapeReader {
    // The reader of the tape that has no signal.
    pub fn new() -> TapeReader
        ensures { Follows [] [] (model result) }
    {
        TapeReader {
            begun: [0; 256],
            held: 0,
            place: 0,
            signals: 0,
        }
    }

    // Takes one more signal, whatever the tape was: its reading grows by just what is answered. A full tape takes no more.
    pub fn take(&mut self, signal: Signal) -> Result<Option<Entry>, TapeFull>
        ensures took { (t : List Heard) (es : List Told) → Follows t es (model self.old) → Took t es signal result (model self.new) }
        ensures refused { OnErr result (self.new ≡ self.old) }
    {
        self.signals = self.signals.checked_add(1).ok_or(TapeFull)?;
        match (self.held, signal) {
            (held, Signal::Byte(b)) => {
                self.begun[held as usize] = b;
                if held < self.begun[0] {
                    self.held = held + 1;
                    return Ok(None);
                }
                let verdict = judge(&self.begun[..=held as usize]);
                Ok(Some(self.end(held as u32 + 1, verdict)))
            }
            (0, Signal::Pause) => Ok(None),
            (held, Signal::Pause) => Ok(Some(self.end(held as u32, Err(Fault::Cut(held))))),
        }
    }

    // Takes all bytes of a whole frame at once, which is the same as taking them one by one. Where none begins, where the bytes are
    // no whole frame, or where the tape has no room for them, it takes none.
    pub fn take_frame(&mut self, frame: &[u8]) -> Option<Entry>
        ensures took { (t : List Heard) (es : List Told) (e : Told) → Follows t es (model self.old) → result ≡ Some e → Follows (t ++ map Byte frame.now) (es ++ e ∷ []) (model self.new) }
        ensures takes { is_some result ≡ at_once (model self.old) frame.now }
        ensures same { result ≡ None → self.new ≡ self.old }
    {
        let [len, ..] = frame else {
            return None;
        };
        let size = *len as u32 + 1;
        if self.held != 0 || frame.len() != size as usize {
            return None;
        }
        self.signals = self.signals.checked_add(size)?;
        let verdict = judge(frame);
        Some(self.end(size, verdict))
    }

    // Ends the frame or the remnant at the reader's place, of so many bytes: gives its entry, and then nothing is begun.
    fn end(&mut self, size: u32, verdict: Result<Packet<Record>, Fault>) -> Entry
        requires { self.old.place + size ≤ self.old.signals }
        ensures entry { result ≡ record { place = self.old.place; verdict = verdict } }
        ensures ends { model self.new ≡ record { bytes = self.old.begun; held = 0; place = self.old.place + size; signals = self.old.signals } }
    {
        let place = self.place;
        self.place = place + size;
        self.held = 0;
        Entry { place, verdict }
    }

    // How many signals were taken.
    pub fn signals(&self) -> u32
        ensures { result ≡ (model self.now).signals }
    {
        self.signals
    }

    // How many bytes the frame begun has.
    pub fn begun(&self) -> u8
        ensures { result ≡ (model self.now).held }
    {
        self.held
    }
}
