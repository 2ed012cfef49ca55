// What every packet kind is to show. Its data are the bytes behind the four of the header.
ghost use Rattle.std.specs.Prelude.{◌≡◌, ℕ, ◌+◌};
ghost use Rattle.frame.specs.Model.{Model, Law, checked, accepted, said};
ghost use Rattle.refusal.specs.Output.{Put};

use crate::faults::Fault;
use refusal::refusals::Refusal;

// `sub` and `data` are two parameters: in a frame the sequence number stands between them.
pub trait Kind {
    // A clause cannot name a constant, so a ghost member of its name stands beside each; the check proves the two equal.
    const TYPE: u8;

    ghost TYPE: { ℕ };

    const LENGTH: u8;

    ghost LENGTH: { ℕ };

    type Record: Copy;

    ghost model: { Model Self.Record };

    // Whether a subtype and data are a record's, or else the first fault. A check, a reading and a writing are each kind's own,
    // since users call the one without the other; so each takes the data apart.
    fn check(sub: u8, data: &[u8]) -> Result<(), Fault>
        ensures { result ≡ checked model sub «data».now };

    // The record of a subtype and data, or the first fault.
    fn read(sub: u8, data: &[u8]) -> Result<Self::Record, Fault>
        ensures { said model result ≡ accepted model sub «data».now };

    fn subtype(record: &Self::Record) -> u8
        ensures { result ≡ model.sub_of «record».now };

    // Puts the data of a record at the front of the buffer.
    fn write(record: &Self::Record, out: &mut [u8]) -> Result<usize, Refusal>
        ensures { Put (model.bytes «record».now) out.old result out.new };

    ghost law: { Law model };

    // The two constants are those of the model.
    ghost type_is: { TYPE ≡ model.number };

    ghost length_is: { LENGTH ≡ model.size + 3 };
}
