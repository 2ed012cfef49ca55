// Set Mode at the limits of its fields. No frame that is received is read so.
use crate::helps::{bytes, changed, told, written};
use control::mode::ModeKind;
use frame::framing::{read_frame, write_frame};
use frame::kind::Kind;
use std::alloc::Global;
use std::process::Abort;
use std::test::Fail;

// A record is written back to all of the bytes.
// As in frames.rt, but for the kind that reads and writes.
fn judged(rt: &impl Abort, heap: Global, frame: &[u8]) -> Result<(u8, u8), Fail> {
    let verdict = read_frame::<ModeKind>(frame);
    if let Ok(packet) = &verdict {
        written(rt, heap, |out| write_frame::<ModeKind>(packet, out), frame)?;
    }
    Ok(told(&verdict))
}

// What the check says of a whole frame's subtype and data alone.
fn checked(frame: &[u8]) -> Result<(u8, u8), Fail> {
    let [_, _, sub, _, data @ ..] = frame else {
        return Err(Fail::new("no header"));
    };
    Ok(told(&ModeKind::check(*sub, data)))
}

static CHANGES: [(usize, &'static str, u8, u8); 33] = [
    (0, "", 0, 0),
    (2, "01", 5, 2),
    (2, "FF", 5, 2),
    (3, "FF", 0, 0),
    (4, "02", 6, 4),
    (4, "04", 6, 4),
    (5, "4F", 6, 5),
    (5, "50", 0, 0),
    (5, "53", 0, 0),
    (5, "54", 6, 5),
    (5, "55", 0, 0),
    (5, "5B", 0, 0),
    (5, "5C", 6, 5),
    (6, "01", 6, 6),
    (7, "00", 0, 0),
    (7, "3F", 0, 0),
    (7, "40", 6, 7),
    (7, "BF", 0, 0),
    (7, "FF", 6, 7),
    (8, "00 00", 0, 0),
    (8, "FF FF", 0, 0),
    (10, "01", 6, 10),
    (11, "01", 6, 11),
    (12, "01", 6, 12),
    (13, "01", 6, 13),
    (2, "01 00 00 00 01 40 00 00 01 01 01 01", 5, 2),
    (4, "00 00 01 40 00 00 01 01 01 01", 6, 4),
    (5, "00 01 40 00 00 01 01 01 01", 6, 5),
    (6, "01 40 00 00 01 01 01 01", 6, 6),
    (7, "40 00 00 01 01 01 01", 6, 7),
    (10, "01 01 01 01", 6, 10),
    (11, "01 01 01", 6, 11),
    (12, "01 01", 6, 12),
];

#[test]
fn fields(rt: HostRuntime) -> Result<(), Fail> {
    let base = bytes(&rt, rt.alloc(), "0D 00 00 00 03 53 00 80 08 27 00 00 00 00")?;
    for &(at, patch, cause, offset) in &CHANGES {
        let frame = changed(rt.alloc(), &base, at, &bytes(&rt, rt.alloc(), patch)?)?;
        assert_eq!(rt;
            judged(&rt, rt.alloc(), &frame)?,
            (cause, offset),
            "{frame:?}"
        );
        assert_eq!(rt; checked(&frame)?, (cause, offset), "{frame:?}");
    }
    Ok(())
}

static GIVEN: [(&'static str, u8, u8); 9] = [
    ("", 2, 0),
    ("0D 00 00 00 03 53 00 80 08 27 00 00 00", 2, 13),
    ("03 00 00 00", 1, 0),
    ("04 00 00 00 03", 4, 0),
    ("0C 00 00 00 03 53 00 80 08 27 00 00 00", 4, 0),
    ("0E 00 00 00 03 53 00 80 08 27 00 00 00 00 00", 4, 0),
    ("0E 00 01 00 03 53 00 80 08 27 00 00 00 00 00", 4, 0),
    ("0D 01 00 00 03 53 00 80 08 27 00 00 00 00", 3, 1),
    ("0C 01 00 00 03 53 00 80 08 27 00 00 00", 3, 1),
];

#[test]
fn headers(rt: HostRuntime) -> Result<(), Fail> {
    for &(text, cause, offset) in &GIVEN {
        let frame = bytes(&rt, rt.alloc(), text)?;
        assert_eq!(rt;
            judged(&rt, rt.alloc(), &frame)?,
            (cause, offset),
            "{}",
            text
        );
    }
    Ok(())
}
