// Stored stretches and the tokens that they hand out. In a text a byte is two hexadecimal digits.
use crate::helps::bytes;
use std::alloc::Global;
use std::process::Abort;
use std::test::Fail;
use stretch::reader::Stretch;
use stretch::tokens::Token;

// The sort of a token by its letter, its place, and its bytes: a row of the table is one line so, and six as a `Token`.
fn told<'a>(token: Token<'a>) -> (u8, u64, &'a [u8]) {
    match token {
        Token::Frame { place, bytes } => (b'F', place, bytes),
        Token::Empty { place, bytes } => (b'E', place, bytes),
        Token::Remnant { place, bytes } => (b'R', place, bytes),
    }
}

// A token as it is told, with its bytes as a text.
type Part = (u8, u64, &'static str);

// The stretch hands out these tokens and no more, and their bytes, one behind the other, are the stretch.
fn hands(
    rt: &impl Abort,
    heap: Global,
    given: &[u8],
    place: u32,
    parts: &[Part],
) -> Result<(), Fail> {
    let mut reader = Stretch::new(given, place);
    let mut joined = Vec::new(heap);
    for (sort, place, text) in parts {
        let (found, at, part) = told(reader.next().ok_or("too few tokens")?);
        assert_eq!(rt; (found, at), (*sort, *place), "{given:?}");
        assert_eq!(rt; part, bytes(rt, heap, *text)?.as_slice(), "{given:?}");
        joined.extend_from_slice(part)?;
    }
    assert!(rt; reader.next().is_none(), "{given:?}");
    assert!(rt; reader.next().is_none(), "{given:?}");
    assert_eq!(rt; joined.as_slice(), given);
    Ok(())
}

// A stretch, the place of its first byte, and its tokens.
type Case = (&'static str, u32, &'static [Part]);

static STRETCHES: [Case; 16] = [
    ("", 0, &[]),
    ("", 4_294_967_295, &[]),
    ("00", 0, &[(b'E', 0, "00")]),
    ("00", 4_294_967_295, &[(b'E', 4_294_967_295, "00")]),
    ("01", 7, &[(b'R', 7, "01")]),
    ("FF", 4_294_967_295, &[(b'R', 4_294_967_295, "FF")]),
    ("03 AA BB", 0, &[(b'R', 0, "03 AA BB")]),
    ("03 AA BB CC", 0, &[(b'E', 0, "03 AA BB CC")]),
    ("04 AA BB CC", 0, &[(b'R', 0, "04 AA BB CC")]),
    ("04 AA BB CC DD", 0, &[(b'F', 0, "04 AA BB CC DD")]),
    (
        "04 AA BB CC DD 04",
        7,
        &[(b'F', 7, "04 AA BB CC DD"), (b'R', 12, "04")],
    ),
    (
        "00 00 01 00 01",
        0,
        &[
            (b'E', 0, "00"),
            (b'E', 1, "00"),
            (b'E', 2, "01 00"),
            (b'R', 4, "01"),
        ],
    ),
    (
        "04 02 01 01 00 02 AA BB 09 19",
        7,
        &[
            (b'F', 7, "04 02 01 01 00"),
            (b'E', 12, "02 AA BB"),
            (b'R', 15, "09 19"),
        ],
    ),
    (
        "04 02 01 01 00 02 AA BB 09 19",
        4_294_967_295,
        &[
            (b'F', 4_294_967_295, "04 02 01 01 00"),
            (b'E', 4_294_967_300, "02 AA BB"),
            (b'R', 4_294_967_303, "09 19"),
        ],
    ),
    (
        "04 02 01 01 00 08 20 00 4D D3 DC 54 00 89",
        0,
        &[
            (b'F', 0, "04 02 01 01 00"),
            (b'F', 5, "08 20 00 4D D3 DC 54 00 89"),
        ],
    ),
    (
        "09 19 04 02 01 01 00",
        0,
        &[(b'R', 0, "09 19 04 02 01 01 00")],
    ),
];

#[test]
fn stretches(rt: HostRuntime) -> Result<(), Fail> {
    for &(text, place, parts) in &STRETCHES {
        hands(
            &rt,
            rt.alloc(),
            &bytes(&rt, rt.alloc(), text)?,
            place,
            parts,
        )?;
    }
    Ok(())
}
