// What may be sent: every status to every subtype, and the limits of the other commands.
use crate::helps::{bytes, written};
use command::commands::Command;
use std::alloc::Global;
use std::process::Abort;
use std::test::Fail;

// The status that may be sent to a security contact, by its subtype.
static STATUSES: [(u8, &'static str); 11] = [
    (0x00, "00 01 02 03 80 81 82 83"),
    (0x01, "04 05 84 85"),
    (0x02, "06 07 09 0A 0B 0C 0D 10 11 12 13"),
    (0x03, "06 17"),
    (0x04, "00 02 80 82"),
    (0x05, "04 05 84 85"),
    (0x06, ""),
    (0x07, "00 02 80 82"),
    (0x08, "06 08 09 0B 0D"),
    (0x09, "06 17"),
    (0x0A, ""),
];

// Of all statuses, those of the text may be sent to a subtype.
fn sends(rt: &impl Abort, heap: Global, sub: u8, text: &'static str) -> Result<(), Fail> {
    let sendable = bytes(rt, heap, text)?;
    for status in 0..=255u8 {
        let made = Command::make(0x20, sub, &[1, 2, 3, status, 0]);
        assert_eq!(rt; made.is_ok(), sendable.contains(&status), "{}", text);
    }
    Ok(())
}

#[test]
fn statuses(rt: HostRuntime) -> Result<(), Fail> {
    for &(sub, text) in &STATUSES {
        sends(&rt, rt.alloc(), sub, text)?;
    }
    Ok(())
}

// Type, subtype and data, and the frame under sequence number 7; no frame where they are refused.
static ASKED: [(u8, u8, &'static str, &'static str); 26] = [
    (
        0x00,
        0x00,
        "03 53 00 80 08 27 00 00 00 00",
        "0D 00 00 07 03 53 00 80 08 27 00 00 00 00",
    ),
    (
        0x00,
        0x00,
        "03 50 00 BF FF FF 00 00 00 00",
        "0D 00 00 07 03 50 00 BF FF FF 00 00 00 00",
    ),
    (
        0x00,
        0x00,
        "03 5B 00 00 00 00 00 00 00 00",
        "0D 00 00 07 03 5B 00 00 00 00 00 00 00 00",
    ),
    (0x00, 0x00, "03 4F 00 80 08 27 00 00 00 00", ""),
    (0x00, 0x00, "03 54 00 80 08 27 00 00 00 00", ""),
    (0x00, 0x00, "03 5C 00 80 08 27 00 00 00 00", ""),
    (0x00, 0x00, "03 53 00 40 08 27 00 00 00 00", ""),
    (0x00, 0x00, "03 53 00 80 08 27 00 00 00 01", ""),
    (0x00, 0x00, "03 53 01 80 08 27 00 00 00 00", ""),
    (0x00, 0x00, "02 00 00 00 00 00 00 00 00 00", ""),
    (0x00, 0x01, "03 53 00 80 08 27 00 00 00 00", ""),
    (0x00, 0x00, "03 53 00 80 08 27 00 00 00", ""),
    (
        0x19,
        0x00,
        "00 FF FF 10 04 00",
        "09 19 00 07 00 FF FF 10 04 00",
    ),
    (
        0x19,
        0x07,
        "FF FF FF 0F 03 00",
        "09 19 07 07 FF FF FF 0F 03 00",
    ),
    (0x19, 0x00, "01 00 00 10 04 00", ""),
    (0x19, 0x00, "00 00 00 10 04 00", ""),
    (0x19, 0x00, "00 FF FF 11 04 00", ""),
    (0x19, 0x00, "00 FF FF 10 05 00", ""),
    (0x19, 0x00, "00 FF FF 10 04 01", ""),
    (0x19, 0x00, "00 FF FF 10 04 10", ""),
    (0x19, 0x08, "00 FF FF 10 04 00", ""),
    (0x20, 0x03, "FF FF FF 17 00", "08 20 03 07 FF FF FF 17 00"),
    (0x20, 0x03, "FF FF FF 17 01", ""),
    (0x20, 0x03, "FF FF FF 17", ""),
    (0x20, 0x0A, "FF FF FF 06 00", ""),
    (0x02, 0x01, "00", ""),
];

#[test]
fn limits(rt: HostRuntime) -> Result<(), Fail> {
    for &(kind, sub, data, frame) in &ASKED {
        let frame = bytes(&rt, rt.alloc(), frame)?;
        match Command::make(kind, sub, &bytes(&rt, rt.alloc(), data)?) {
            Err(refusal) => {
                assert_eq!(rt; refusal.number(), 11);
                assert!(rt; frame.is_empty(), "{}", data);
            }
            Ok(command) => {
                assert_eq!(rt; command.size(), frame.len());
                assert_eq!(rt; command.type_number(), kind);
                written(&rt, rt.alloc(), |out| command.write(7, out), &frame)?;
            }
        }
    }
    Ok(())
}
