// Listings: the text does not hang on how the stream is cut into pieces, nor on the buffer.
use crate::helps::{bytes, numbers, unwritten, written};
use frame::faults::Fault;
use listing::line::{write_closing, write_line};
use listing::listing::Listing;
use record::judging::judge;
use std::alloc::Global;
use std::process::Abort;
use std::test::Fail;
use tape::signals::Entry;

// The stream of some signals: two bytes each.
fn stream(rt: &impl Abort, heap: Global, text: &str) -> Result<Vec<u8>, Fail> {
    let mut all = Vec::new(heap);
    for number in numbers(rt, heap, text)?.iter() {
        all.extend_from_slice(&number.to_be_bytes())?;
    }
    Ok(all)
}

// Feeds all of a piece, with as many calls as it takes, and keeps what is written.
fn feed(
    rt: &impl Abort,
    listing: &mut Listing,
    piece: &[u8],
    out: &mut [u8],
    text: &mut Vec<u8>,
) -> Result<(), Fail> {
    let mut rest = piece;
    while !rest.is_empty() {
        let fed = listing.feed(rest, out);
        assert!(rt; fed.taken > 0);
        rest = rest.get(fed.taken..).ok_or("too much taken")?;
        text.extend_from_slice(out.get(0..fed.written).ok_or("too much written")?)?;
    }
    Ok(())
}

// The listing of an input that comes in pieces of a size, through a buffer of a size.
fn listed(
    rt: &impl Abort,
    heap: Global,
    input: &[u8],
    size: usize,
    room: usize,
) -> Result<Vec<u8>, Fail> {
    let mut listing = Listing::new();
    let mut out = vec![in heap; 0; room]?;
    let mut text = Vec::new(heap);
    assert!(rt; size > 0);
    for piece in input.chunks(size) {
        feed(rt, &mut listing, piece, &mut out, &mut text)?;
    }
    assert!(rt; !listing.over());
    let closing = listing.close(&mut out)?;
    text.extend_from_slice(out.get(0..closing).ok_or("too much written")?)?;
    Ok(text)
}

fn lists_in(
    rt: &impl Abort,
    heap: Global,
    input: &[u8],
    size: usize,
    text: &str,
) -> Result<(), Fail> {
    for room in [50, 51, 4096] {
        let said = listed(rt, heap, input, size, room)?;
        assert_eq!(rt;
            std::str::from_utf8(&said)?,
            text,
            "pieces of {size}, a buffer of {room}"
        );
    }
    Ok(())
}

fn lists(rt: &impl Abort, heap: Global, input: &[u8], text: &str) -> Result<(), Fail> {
    for size in [1, 2, 3, 4, 5, 6, 7, 4096] {
        lists_in(rt, heap, input, size, text)?;
    }
    Ok(())
}

// Signals, a last byte that is no signal number, and the listing.
static LISTED: [(&'static str, &'static str, &'static str); 12] = [
    ("", "", "E 0 0\n"),
    ("", "00", "E 0 0\n"),
    ("", "FF", "E 0 0\n"),
    ("#", "", "E 1 0\n"),
    ("| #", "01", "E 2 0\n"),
    ("04", "", "E 1 1\n"),
    ("00", "00", "0 F 1 0\nE 1 0\n"),
    (
        "04 02 01 01 00 | 02 AA BB",
        "",
        "0 R 000902010100\n5 F 1 0\nE 9 0\n",
    ),
    (
        "04 02 01 01 00 # 02 AA BB",
        "00",
        "0 R 000902010100\n5 F 1 0\nE 9 0\n",
    ),
    ("09 19 #", "", "0 F 2 2\nE 3 0\n"),
    (
        "01 AA 09 19 | 04 03 00 00 00 05 02 01 00 00 00 04 02 02 00 00 0D 54 02 0E E9 00 00 C9 65 02 03 E7 04 39 0D 54 02 0E E9 00 00 C9 27 02 03 E7 04 39 0A 71 00 37 08 F8 00 8A 64 67 71 04 02",
        "04",
        "0 F 1 0\n2 F 2 2\n4 F 3 1\n9 F 4 0\n15 F 5 2\n20 F 6 8\n34 R 187354020E0000E90000C9270203E7040903\n48 F 6 10\nE 62 2\n",
    ),
    (
        "0D 01 FF 02 41 53 3E 00 0C 2F 01 00 00 00 09 19 04 06 00 A2 1B 01 02 80 # 08 20 00 4D D3 DC 54 00 89 0B 55 02 17 B6 00 00 00 00 4D 3C 69 0A 71 00 37 08 F8 00 8A 64 67 70",
        "",
        "0 R 200101FF0241533E000C2F01000000\n14 R 180F1904060000A21B01020008\n24 R 180B20004D00D3DC54000908\n33 R 18835502170000B6000000004D3C0906\n45 R 1403710037000008F8008A646707\nE 57 0\n",
    ),
];

#[test]
fn streams(rt: HostRuntime) -> Result<(), Fail> {
    for &(signals, odd, text) in &LISTED {
        let mut input = stream(&rt, rt.alloc(), signals)?;
        input.extend_from_slice(&bytes(&rt, rt.alloc(), odd)?)?;
        lists(&rt, rt.alloc(), &input, text)?;
    }
    Ok(())
}

// A frame of 256 bytes, and one that is cut behind 255.
#[test]
fn longest(rt: HostRuntime) -> Result<(), Fail> {
    let mut input = [0, 255].repeat(rt.alloc(), 511)?;
    lists(&rt, rt.alloc(), &input, "0 F 3 1\nE 511 255\n")?;
    input.extend_from_slice(&[1, 0])?;
    lists(&rt, rt.alloc(), &input, "0 F 3 1\n256 F 2 255\nE 512 0\n")
}

// With room for less than a longest line nothing is taken.
#[test]
fn no_room(rt: HostRuntime) -> Result<(), Fail> {
    let input = stream(&rt, rt.alloc(), "00 00 00")?;
    let mut listing = Listing::new();
    for room in [0, 1, 49] {
        let mut out = unwritten(rt.alloc(), room)?;
        let fed = listing.feed(&input, &mut out);
        assert_eq!(rt; (fed.taken, fed.written), (0, 0));
        assert_eq!(rt; out, unwritten(rt.alloc(), room)?);
    }
    written(&rt, rt.alloc(), |out| listing.close(out), b"E 0 0\n")
}

// A line in every buffer: the closing line, and the longest and the shortest of the others.
#[test]
fn lines(rt: HostRuntime) -> Result<(), Fail> {
    let mut listing = Listing::new();
    let fed = listing.feed(
        &stream(&rt, rt.alloc(), "| 00 | 04 02 01 01")?,
        &mut [0; 100],
    );
    assert_eq!(rt; (fed.taken, fed.written), (14, 8));
    written(&rt, rt.alloc(), |out| listing.close(out), b"E 7 4\n")?;
    let mut out = [0; 18];
    assert_eq!(rt; write_closing(4_294_967_295, 255, &mut out)?, 17);
    assert_eq!(rt; out, *b"E 4294967295 255\n\0");
    let verdict = judge(&bytes(&rt, rt.alloc(), "0D 54 02 0E E9 00 00 C9 27 02 03 E7 04 39")?);
    let place = 4_294_967_295;
    let longest = Entry { place, verdict };
    written(
        &rt,
        rt.alloc(),
        |out| write_line(&longest, out),
        b"4294967295 R 187354020E0000E90000C9270203E7040903\n",
    )?;
    let shortest = Entry {
        place: 0,
        verdict: Err(Fault::NoPayload),
    };
    written(
        &rt,
        rt.alloc(),
        |out| write_line(&shortest, out),
        b"0 F 1 0\n",
    )
}
