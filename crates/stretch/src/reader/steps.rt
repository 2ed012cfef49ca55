// What a reader of a stored stretch hands out.
ghost use Rattle.std.specs.Prelude.{◌≡◌, length};
ghost use Rattle.std.specs.Iterator.{at_most};
ghost use Rattle.stretch.specs.Tokens.{part, view, whole};
ghost use Rattle.stretch.specs.Handed.{Handed, model, standing};

use crate::reader::Stretch;
use crate::tokens::Token;

// The token of a whole frame whose length byte is this.
fn token<'a>(len: u8, place: u64, bytes: &'a [u8]) -> Token<'a>
    ensures { part result ≡ whole len place bytes.now }
{
    if len < 4 {
        Token::Empty { place, bytes }
    } else {
        Token::Frame { place, bytes }
    }
}

impl<'a> Stretch<'a> {
    // The reader of a stretch whose first byte has this place.
    pub fn new(bytes: &'a [u8], place: u32) -> Stretch<'a>
        ensures { model result ≡ standing place bytes.now }
    {
        Stretch {
            rest: bytes,
            place: place as u64,
        }
    }
}

// The tokens, the earliest first; none where no byte is left.
impl<'a> Iterator for Stretch<'a> {
    type Item = Token<'a>;

    ghost next_gives = { λ old next new. Handed (model old) (view next) (model new) };

    ghost remaining = { λ left. at_most (length left.rest.now) };

    fn next(&mut self) -> Option<Token<'a>> {
        let rest = self.rest;
        let place = self.place;
        let len = *rest.first()?;
        let size = len as usize + 1;
        let Some((bytes, after)) = rest.split_at_checked(size) else {
            self.rest = &[];
            self.place = place + rest.len() as u64;
            return Some(Token::Remnant { place, bytes: rest });
        };
        self.rest = after;
        self.place = place + size as u64;
        Some(token(len, place, bytes))
    }
}
