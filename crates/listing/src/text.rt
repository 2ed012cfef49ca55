// A line that is being written.
ghost use Rattle.std.specs.Prelude.{◌≡◌, ℕ, ◌+◌, ◌*◌, ◌^◌, ◌<◌, ◌≤◌, List, [], ◌∷◌, length, decimal};
ghost use Rattle.listing.specs.Text.{hex, decimal_of, Grown, Spelled};

use crate::line::LINE;

// The capital hexadecimal digits of every byte, two and two.
// tried sixteen digits, with two look-ups for each byte: 0.91 to 0.93 of the speed of a lister written by hand, under the 0.93 to 0.97
// that listings had before
const DIGITS: [u8; 512] = *b"\
    000102030405060708090A0B0C0D0E0F101112131415161718191A1B1C1D1E1F\
    202122232425262728292A2B2C2D2E2F303132333435363738393A3B3C3D3E3F\
    404142434445464748494A4B4C4D4E4F505152535455565758595A5B5C5D5E5F\
    606162636465666768696A6B6C6D6E6F707172737475767778797A7B7C7D7E7F\
    808182838485868788898A8B8C8D8E8F909192939495969798999A9B9C9D9E9F\
    A0A1A2A3A4A5A6A7A8A9AAABACADAEAFB0B1B2B3B4B5B6B7B8B9BABBBCBDBEBF\
    C0C1C2C3C4C5C6C7C8C9CACBCCCDCECFD0D1D2D3D4D5D6D7D8D9DADBDCDDDEDF\
    E0E1E2E3E4E5E6E7E8E9EAEBECEDEEEFF0F1F2F3F4F5F6F7F8F9FAFBFCFDFEFF";

// The decimal digits of every number below a hundred, two and two.
const DECIMALS: [u8; 200] = *b"\
    0001020304050607080910111213141516171819\
    2021222324252627282930313233343536373839\
    4041424344454647484950515253545556575859\
    6061626364656667686970717273747576777879\
    8081828384858687888990919293949596979899";

// A pen writes a line into a buffer that has room for the longest.
// tried as an array of its own, seen as a list by an impl Model, and copied once it is whole: 0.66 to 0.80 of that speed.
// Each method asks for room of its own: with `len ≤ LINE` as a ghost field the borrow checker
// lends nothing out of the struct.
#[derive(Drop)]
pub(crate) struct Pen<'a> {
    out: &'a mut [u8; LINE],
    // so many bytes of it are written
    len: usize,
}

// How many digits a number has.
fn digit_count(n: u32) -> usize
    ensures count { result ≡ length (decimal n) }
    ensures some { 1 ≤ result }
    ensures few { result ≤ 10 }
{
    match n {
        0..=9 => 1,
        10..=99 => 2,
        100..=999 => 3,
        1_000..=9_999 => 4,
        10_000..=99_999 => 5,
        100_000..=999_999 => 6,
        1_000_000..=9_999_999 => 7,
        10_000_000..=99_999_999 => 8,
        100_000_000..=999_999_999 => 9,
        _ => 10,
    }
}

// The digit at an index of the table.
fn decimal_at(index: usize) -> u8
    requires { index < 200 }
    ensures { result ≡ decimal_of index }
{
    DECIMALS[index]
}

// What is left to be written of a number's digits, and the place of the last of them.
struct Left {
    rest: u32,
    place: usize,
}

// Writes the digits of a number from a place down, two at a time, as long as three are left.
fn spell_pairs(out: &mut [u8], place: usize, n: u32) -> Left
    requires room { length (decimal n) ≤ place + 1 }
    requires within { place < length out.old }
    ensures spells { (before : List ℕ) (at m end : ℕ) → m < 2 ^ 32 → Spelled before at m end n place out.old → Spelled before at m end result.rest result.place out.new }
    ensures few { result.rest < 100 }
    ensures room { length (decimal result.rest) ≤ result.place + 1 }
    ensures within { result.place < length out.old }
{
    let mut rest = n;
    let mut place = place;
    while rest >= 100 {
        let index = 2 * (rest % 100) as usize;
        out[place] = decimal_at(index + 1);
        out[place - 1] = decimal_at(index);
        rest /= 100;
        place -= 2;
    }
    Left { rest, place }
}

// Writes the digits of a number from a place on, and tells the place behind them.
// tried `itoa::write_digits` and `ilog10`: a must-fail edit can then plant a wrong digit or count only by a branch or a store
// behind the call, with which the check refuses right ones as well
fn spell_decimal(out: &mut [u8], at: usize, n: u32) -> usize
    requires { at + 10 ≤ length out.old }
    ensures text { Grown out.old at (decimal n) out.new result }
    ensures few { result ≤ at + 10 }
{
    let end = at + digit_count(n);
    let Left { rest, place } = spell_pairs(out, end - 1, n);
    if rest < 10 {
        out[place] = b'0' + rest as u8;
        return end;
    }
    out[place] = b'0' + (rest % 10) as u8;
    out[place - 1] = b'0' + (rest / 10) as u8;
    end
}

// The two digits of a byte in hexadecimal.
fn hex_pair(b: u8) -> [u8; 2]
    ensures { result ≡ hex (b ∷ []) }
{
    let at = 2 * b as usize;
    [DIGITS[at], DIGITS[at + 1]]
}

impl<'a> Pen<'a> {
    ghost use Rattle.listing.specs.Pens.{Writes};

    pub(crate) fn new(out: &'a mut [u8; LINE]) -> Pen<'a>
        ensures same_reference { result.out.ghost_name ≡ out.entry.ghost_name }
        ensures held { result.out.now ≡ out.old }
        ensures none { result.len ≡ 0 }
    {
        Pen { out, len: 0 }
    }

    pub(crate) fn len(&self) -> usize
        ensures { result ≡ self.now.len }
    {
        self.len
    }

    pub(crate) fn append(&mut self, more: &[u8])
        requires { self.old.len + length more.now ≤ LINE }
        ensures { Writes self.old more.now self.new }
    {
        let end = self.len + more.len();
        // tried `self.out[..]` at once: the borrow checker takes no part of what lies behind a field
        let out = &mut *self.out;
        out[self.len..end].copy_from_slice(more);
        self.len = end;
    }

    pub(crate) fn append_decimal(&mut self, n: u32)
        requires { self.old.len + 10 ≤ LINE }
        ensures writes { Writes self.old (decimal n) self.new }
        ensures few { self.new.len ≤ self.old.len + 10 }
    {
        let at = self.len;
        self.len = spell_decimal(self.out, at, n);
    }

    pub(crate) fn append_hex(&mut self, more: &[u8])
        requires { self.old.len + 2 * length more.now ≤ LINE }
        ensures writes { Writes self.old (hex more.now) self.new }
        ensures few { self.new.len ≤ self.old.len + 2 * length more.now }
    {
        for b in more {
            // by name, so that a must-fail edit can turn one of the two
            let [high, low] = hex_pair(*b);
            self.append(&[high, low]);
        }
    }
}
