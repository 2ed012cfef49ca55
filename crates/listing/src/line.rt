// The lines of a listing. Not by `Display` and `write!`: no clause says that these succeed, and a line cannot fail.
ghost use Rattle.std.specs.Prelude.{◌≡◌, ◌+◌, ◌≤◌, ◌++◌, length, drop};
ghost use Rattle.refusal.specs.Output.{Put};
ghost use Rattle.listing.specs.Lines.{line_of, closing_of};

use crate::text::Pen;
use frame::faults::Fault;
use frame::packet::Packet;
use house::writing::write_house;
use record::records::Record;
use refusal::output::put;
use refusal::refusals::Refusal;
use tape::signals::Entry;

// The longest line has so many bytes: a place of ten digits, ` R `, a house record of 18 bytes in hexadecimal, and the newline.
pub const LINE: usize = 50;

// The longest verdict: ` R ` and the house record.
const VERDICT: usize = 39;

impl Pen<'_> {
    ghost use Rattle.listing.specs.Lines.{record_part, fault_part, verdict_part};
    ghost use Rattle.listing.specs.Pens.{Writes};

    fn append_record(&mut self, packet: &Packet<Record>)
        requires { self.old.len + VERDICT ≤ LINE }
        ensures writes { Writes self.old (record_part packet.now) self.new }
        ensures few { self.new.len ≤ self.old.len + VERDICT }
    {
        self.append(b" R ");
        let mut house = [0; 18];
        // 18 bytes hold every house record
        if let Ok(size) = write_house(packet, &mut house) {
            self.append_hex(&house[..size]);
        }
    }

    fn append_fault(&mut self, fault: Fault)
        requires { self.old.len + VERDICT ≤ LINE }
        ensures writes { Writes self.old (fault_part fault) self.new }
        ensures few { self.new.len ≤ self.old.len + VERDICT }
    {
        self.append(b" F ");
        self.append_decimal(fault.cause() as u32);
        self.append(b" ");
        self.append_decimal(fault.offset() as u32);
    }

    fn append_verdict(&mut self, verdict: &Result<Packet<Record>, Fault>)
        requires { self.old.len + VERDICT ≤ LINE }
        ensures writes { Writes self.old (verdict_part verdict.now) self.new }
        ensures few { self.new.len ≤ self.old.len + VERDICT }
    {
        match verdict {
            Ok(packet) => self.append_record(packet),
            Err(fault) => self.append_fault(*fault),
        }
    }
}

// Writes the line of an entry to the front of a buffer that has room for the longest.
pub(crate) fn compose(entry: &Entry, out: &mut [u8; LINE]) -> usize
    ensures counts { result ≡ length (line_of entry.now) }
    ensures holds { out.new ≡ line_of entry.now ++ drop result out.old }
    ensures few { result ≤ LINE }
{
    let mut pen = Pen::new(out);
    pen.append_decimal(entry.place);
    pen.append_verdict(&entry.verdict);
    pen.append(b"\n");
    pen.len()
}

// Puts the line of an entry at the front of the buffer.
pub fn write_line(entry: &Entry, out: &mut [u8]) -> Result<usize, Refusal>
    ensures { Put (line_of entry.now) out.old result out.new }
{
    let mut line = [0; LINE];
    let size = compose(entry, &mut line);
    put(&line[..size], out)
}

// Puts the closing line, of so many signals and so many bytes of the frame begun, at the front of the buffer.
pub fn write_closing(signals: u32, begun: u8, out: &mut [u8]) -> Result<usize, Refusal>
    ensures { Put (closing_of signals begun) out.old result out.new }
{
    let mut closing = [0; LINE];
    let mut pen = Pen::new(&mut closing);
    pen.append(b"E ");
    pen.append_decimal(signals);
    pen.append(b" ");
    pen.append_decimal(begun as u32);
    pen.append(b"\n");
    let size = pen.len();
    put(&closing[..size], out)
}
