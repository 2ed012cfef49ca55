// What a packet kind shows for its house record: the map, and the fields behind type, subtype and sequence number.
ghost use Rattle.std.specs.Prelude.{◌≡◌, ℕ, List, ◌∷◌, ◌++◌};
ghost use Rattle.refusal.specs.Output.{Put};
ghost use Rattle.house.specs.House.{Field, two, behind, laid};

use frame::kind::Kind;
use refusal::refusals::Refusal;

pub trait HouseKind: Kind {
    // Which fields the kind has: bit n is the field n of docs/HOUSE.md.
    const MAP: u16;

    ghost MAP: { ℕ };

    // All its fields, by the sequence number and the record.
    ghost fields: { ℕ → Self.Record → List Field };

    // Puts the fields behind type, subtype and sequence number at the front of the buffer.
    fn write_fields(record: &Self::Record, out: &mut [u8]) -> Result<usize, Refusal>
        ensures { Put (behind (fields 0 «record».now)) out.old result out.new };

    ghost laid_so: { (seq : ℕ) (r : Self.Record) → laid (fields seq r) ≡ two MAP ++ (Self.TYPE ∷ Self.model.sub_of r ∷ seq ∷ behind (fields 0 r)) };
}
