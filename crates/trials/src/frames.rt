// Frames at the limits of every field: which are records, and what is wrong with the others.
use crate::helps::{bytes, changed, told, written};
use frame::framing::front;
use frame::packet::Packet;
use record::judging::judge;
use record::records::Record;
use record::writing::write_record;
use std::alloc::Global;
use std::process::Abort;
use std::test::Fail;

// A record is written back to the bytes of its frame.
fn judged(rt: &impl Abort, heap: Global, given: &[u8]) -> Result<(u8, u8), Fail> {
    let verdict = judge(given);
    if let Ok(packet) = &verdict {
        written(rt, heap, |out| write_record(packet, out), front(given)?)?;
    }
    Ok(told(&verdict))
}

// Every front of a frame is cut, with as many bytes as it has.
fn cuts(rt: &impl Abort, heap: Global, frame: &[u8]) -> Result<(), Fail> {
    for held in 0..frame.len() {
        let front = frame.get(0..held).ok_or("beyond the frame")?;
        let (cause, offset) = judged(rt, heap, front)?;
        assert_eq!(rt; (cause, usize::from(offset)), (2, held));
    }
    Ok(())
}

// A change of a frame: the bytes put at an offset, and the cause and offset of the fault that this makes, or 0 and 0.
type Case = (usize, &'static str, u8, u8);

fn run(rt: &impl Abort, heap: Global, base: &str, cases: &[Case]) -> Result<(), Fail> {
    let base = bytes(rt, heap, base)?;
    cuts(rt, heap, &base)?;
    for (at, patch, cause, offset) in cases {
        let patch = bytes(rt, heap, *patch)?;
        let frame = changed(heap, &base, *at, &patch)?;
        assert_eq!(rt; judged(rt, heap, &frame)?, (*cause, *offset), "{frame:?}");
    }
    Ok(())
}

static INTERFACE_CASES: [Case; 13] = [
    (0, "", 0, 0),
    (0, "03", 1, 0),
    (0, "0C", 4, 0),
    (0, "0C 01 01", 4, 0),
    (0, "0E", 2, 14),
    (1, "00", 3, 1),
    (2, "00", 0, 0),
    (2, "01", 5, 2),
    (2, "FE", 5, 2),
    (3, "00", 0, 0),
    (3, "FF", 0, 0),
    (4, "00 00 00 00 00 00 00 00 00 00", 0, 0),
    (4, "FF FF FF FF FF FF FF FF FF FF", 0, 0),
];

#[test]
fn interface(rt: HostRuntime) -> Result<(), Fail> {
    run(
        &rt,
        rt.alloc(),
        "0D 01 FF 02 41 53 3E 00 0C 2F 01 00 00 00",
        &INTERFACE_CASES,
    )
}

static TRANSMITTER_CASES: [Case; 12] = [
    (0, "", 0, 0),
    (0, "03", 1, 0),
    (0, "05", 2, 5),
    (1, "03", 3, 1),
    (2, "00", 0, 0),
    (2, "02", 5, 2),
    (2, "FF", 5, 2),
    (3, "00", 0, 0),
    (3, "FF", 0, 0),
    (4, "03", 0, 0),
    (4, "04", 0, 0),
    (4, "FF", 0, 0),
];

#[test]
fn transmitter(rt: HostRuntime) -> Result<(), Fail> {
    run(&rt, rt.alloc(), "04 02 01 01 00", &TRANSMITTER_CASES)
}

static SECURITY_CASES: [Case; 30] = [
    (0, "", 0, 0),
    (0, "07", 4, 0),
    (0, "09", 2, 9),
    (1, "21", 3, 1),
    (2, "09", 0, 0),
    (2, "0A", 5, 2),
    (2, "FF", 5, 2),
    (3, "00", 0, 0),
    (3, "FF", 0, 0),
    (4, "00 00 00", 0, 0),
    (4, "FF FF FF", 0, 0),
    (7, "0D", 0, 0),
    (7, "0E", 6, 7),
    (7, "0F", 6, 7),
    (7, "10", 0, 0),
    (7, "17", 0, 0),
    (7, "18", 6, 7),
    (7, "7F", 6, 7),
    (7, "80", 0, 0),
    (7, "85", 0, 0),
    (7, "86", 6, 7),
    (7, "FF", 6, 7),
    (8, "00", 0, 0),
    (8, "09", 0, 0),
    (8, "0A", 6, 8),
    (8, "8F", 6, 8),
    (8, "F9", 0, 0),
    (8, "FA", 6, 8),
    (7, "0E FF", 6, 7),
    (2, "0A 4D D3 DC 54 0E FF", 5, 2),
];

#[test]
fn security(rt: HostRuntime) -> Result<(), Fail> {
    run(
        &rt,
        rt.alloc(),
        "08 20 00 4D D3 DC 54 00 89",
        &SECURITY_CASES,
    )
}

static CLIMATE_CASES: [Case; 40] = [
    (0, "", 0, 0),
    (0, "0C", 4, 0),
    (0, "0E", 2, 14),
    (1, "53", 3, 1),
    (2, "00", 5, 2),
    (2, "01", 0, 0),
    (2, "03", 5, 2),
    (2, "FF", 5, 2),
    (3, "00", 0, 0),
    (3, "FF", 0, 0),
    (4, "00 00", 0, 0),
    (4, "FF FF", 0, 0),
    (6, "00 00", 0, 0),
    (6, "7F FF", 0, 0),
    (6, "80 00", 6, 6),
    (6, "80 01", 0, 0),
    (6, "81 00", 0, 0),
    (6, "FF FF", 0, 0),
    (8, "00", 0, 0),
    (8, "64", 0, 0),
    (8, "65", 6, 8),
    (8, "FF", 6, 8),
    (9, "00", 0, 0),
    (9, "03", 0, 0),
    (9, "04", 6, 9),
    (9, "FF", 6, 9),
    (10, "00 00", 0, 0),
    (10, "FF FF", 0, 0),
    (12, "00", 0, 0),
    (12, "05", 6, 12),
    (12, "FF", 6, 12),
    (13, "00", 0, 0),
    (13, "3A", 6, 13),
    (13, "3F", 6, 13),
    (13, "F9", 0, 0),
    (13, "FA", 6, 13),
    (6, "80 00 65 04 03 E7 05 3A", 6, 6),
    (8, "65 04 03 E7 05 3A", 6, 8),
    (9, "04 03 E7 05 3A", 6, 9),
    (12, "05 3A", 6, 12),
];

#[test]
fn climate(rt: HostRuntime) -> Result<(), Fail> {
    run(
        &rt,
        rt.alloc(),
        "0D 54 02 0E E9 00 00 C9 27 02 03 E7 04 39",
        &CLIMATE_CASES,
    )
}

static RAIN_CASES: [Case; 18] = [
    (0, "", 0, 0),
    (0, "0A", 4, 0),
    (0, "0C", 2, 12),
    (1, "56", 3, 1),
    (2, "00", 5, 2),
    (2, "01", 0, 0),
    (2, "06", 0, 0),
    (2, "07", 5, 2),
    (2, "FF", 5, 2),
    (3, "00", 0, 0),
    (3, "FF", 0, 0),
    (4, "00 00 00 00 00 00 00", 0, 0),
    (4, "FF FF FF FF FF FF FF", 0, 0),
    (11, "00", 0, 0),
    (11, "6A", 6, 11),
    (11, "6F", 6, 11),
    (11, "F9", 0, 0),
    (11, "FA", 6, 11),
];

#[test]
fn rain(rt: HostRuntime) -> Result<(), Fail> {
    run(
        &rt,
        rt.alloc(),
        "0B 55 02 17 B6 00 00 00 00 4D 3C 69",
        &RAIN_CASES,
    )
}

static METER_CASES: [Case; 20] = [
    (0, "", 0, 0),
    (0, "09", 4, 0),
    (0, "0B", 2, 11),
    (1, "72", 3, 1),
    (2, "01", 5, 2),
    (2, "FF", 5, 2),
    (3, "00", 0, 0),
    (3, "FF", 0, 0),
    (4, "00 00", 0, 0),
    (4, "FF FF", 0, 0),
    (6, "00 00 00 00", 0, 0),
    (6, "0F FF FF FF", 0, 0),
    (6, "10 00 00 00", 6, 6),
    (6, "FF FF FF FF", 6, 6),
    (10, "00", 0, 0),
    (10, "71", 6, 10),
    (10, "78", 6, 10),
    (10, "7F", 6, 10),
    (10, "F0", 0, 0),
    (6, "10 00 00 00 71", 6, 6),
];

#[test]
fn meter(rt: HostRuntime) -> Result<(), Fail> {
    run(
        &rt,
        rt.alloc(),
        "0A 71 00 37 08 F8 00 8A 64 67 70",
        &METER_CASES,
    )
}

static BLINDS_CASES: [Case; 110] = [
    (0, "", 0, 0),
    (0, "08", 4, 0),
    (0, "0A", 2, 10),
    (1, "1A", 3, 1),
    (2, "08", 5, 2),
    (2, "FF", 5, 2),
    (3, "00", 0, 0),
    (3, "FF", 0, 0),
    (2, "00 06 000001 01 00 00", 0, 0),
    (2, "00 06 00FFFF 10 04 F9", 0, 0),
    (2, "00 06 000000 01 00 00", 6, 4),
    (2, "00 06 010000 01 00 00", 6, 4),
    (2, "00 06 FFFFFF 01 00 00", 6, 4),
    (2, "00 06 000001 00 00 00", 6, 7),
    (2, "00 06 000001 11 00 00", 6, 7),
    (2, "00 06 000001 FF 00 00", 6, 7),
    (2, "00 06 000001 01 05 00", 6, 8),
    (2, "00 06 000001 01 FF 00", 6, 8),
    (2, "00 06 000001 01 00 0A", 6, 9),
    (2, "00 06 000000 FF FF FF", 6, 4),
    (2, "00 06 00FFFF FF FF FF", 6, 7),
    (2, "00 06 00FFFF 10 FF FF", 6, 8),
    (2, "00 06 00FFFF 10 04 FF", 6, 9),
    (2, "01 06 000001 01 00 00", 0, 0),
    (2, "01 06 00FFFF 10 04 F9", 0, 0),
    (2, "01 06 000000 01 00 00", 6, 4),
    (2, "01 06 010000 01 00 00", 6, 4),
    (2, "01 06 FFFFFF 01 00 00", 6, 4),
    (2, "01 06 000001 00 00 00", 6, 7),
    (2, "01 06 000001 11 00 00", 6, 7),
    (2, "01 06 000001 FF 00 00", 6, 7),
    (2, "01 06 000001 01 05 00", 6, 8),
    (2, "01 06 000001 01 FF 00", 6, 8),
    (2, "01 06 000001 01 00 0A", 6, 9),
    (2, "01 06 000000 FF FF FF", 6, 4),
    (2, "01 06 00FFFF FF FF FF", 6, 7),
    (2, "01 06 00FFFF 10 FF FF", 6, 8),
    (2, "01 06 00FFFF 10 04 FF", 6, 9),
    (2, "02 06 000001 00 00 00", 0, 0),
    (2, "02 06 FFFFFF 01 03 F9", 0, 0),
    (2, "02 06 000000 00 00 00", 6, 4),
    (2, "02 06 000001 02 00 00", 6, 7),
    (2, "02 06 000001 FF 00 00", 6, 7),
    (2, "02 06 000001 00 04 00", 6, 8),
    (2, "02 06 000001 00 FF 00", 6, 8),
    (2, "02 06 000001 00 00 0A", 6, 9),
    (2, "02 06 000000 FF FF FF", 6, 4),
    (2, "02 06 FFFFFF FF FF FF", 6, 7),
    (2, "02 06 FFFFFF 01 FF FF", 6, 8),
    (2, "02 06 FFFFFF 01 03 FF", 6, 9),
    (2, "03 06 000001 00 00 00", 0, 0),
    (2, "03 06 FFFFFF 01 03 F9", 0, 0),
    (2, "03 06 000000 00 00 00", 6, 4),
    (2, "03 06 000001 02 00 00", 6, 7),
    (2, "03 06 000001 FF 00 00", 6, 7),
    (2, "03 06 000001 00 04 00", 6, 8),
    (2, "03 06 000001 00 FF 00", 6, 8),
    (2, "03 06 000001 00 00 0A", 6, 9),
    (2, "03 06 000000 FF FF FF", 6, 4),
    (2, "03 06 FFFFFF FF FF FF", 6, 7),
    (2, "03 06 FFFFFF 01 FF FF", 6, 8),
    (2, "03 06 FFFFFF 01 03 FF", 6, 9),
    (2, "04 06 000001 00 00 00", 0, 0),
    (2, "04 06 FFFFFF 01 07 F9", 0, 0),
    (2, "04 06 000000 00 00 00", 6, 4),
    (2, "04 06 000001 02 00 00", 6, 7),
    (2, "04 06 000001 FF 00 00", 6, 7),
    (2, "04 06 000001 00 08 00", 6, 8),
    (2, "04 06 000001 00 FF 00", 6, 8),
    (2, "04 06 000001 00 00 0A", 6, 9),
    (2, "04 06 000000 FF FF FF", 6, 4),
    (2, "04 06 FFFFFF FF FF FF", 6, 7),
    (2, "04 06 FFFFFF 01 FF FF", 6, 8),
    (2, "04 06 FFFFFF 01 07 FF", 6, 9),
    (2, "05 06 000001 00 00 00", 0, 0),
    (2, "05 06 FFFFFF 01 02 F9", 0, 0),
    (2, "05 06 000000 00 00 00", 6, 4),
    (2, "05 06 000001 02 00 00", 6, 7),
    (2, "05 06 000001 FF 00 00", 6, 7),
    (2, "05 06 000001 00 03 00", 6, 8),
    (2, "05 06 000001 00 FF 00", 6, 8),
    (2, "05 06 000001 00 00 0A", 6, 9),
    (2, "05 06 000000 FF FF FF", 6, 4),
    (2, "05 06 FFFFFF FF FF FF", 6, 7),
    (2, "05 06 FFFFFF 01 FF FF", 6, 8),
    (2, "05 06 FFFFFF 01 02 FF", 6, 9),
    (2, "06 06 000001 00 00 00", 0, 0),
    (2, "06 06 FFFFFF 0F 03 F9", 0, 0),
    (2, "06 06 000000 00 00 00", 6, 4),
    (2, "06 06 000001 10 00 00", 6, 7),
    (2, "06 06 000001 FF 00 00", 6, 7),
    (2, "06 06 000001 00 04 00", 6, 8),
    (2, "06 06 000001 00 FF 00", 6, 8),
    (2, "06 06 000001 00 00 0A", 6, 9),
    (2, "06 06 000000 FF FF FF", 6, 4),
    (2, "06 06 FFFFFF FF FF FF", 6, 7),
    (2, "06 06 FFFFFF 0F FF FF", 6, 8),
    (2, "06 06 FFFFFF 0F 03 FF", 6, 9),
    (2, "07 06 000001 00 00 00", 0, 0),
    (2, "07 06 FFFFFF 0F 03 F9", 0, 0),
    (2, "07 06 000000 00 00 00", 6, 4),
    (2, "07 06 000001 10 00 00", 6, 7),
    (2, "07 06 000001 FF 00 00", 6, 7),
    (2, "07 06 000001 00 04 00", 6, 8),
    (2, "07 06 000001 00 FF 00", 6, 8),
    (2, "07 06 000001 00 00 0A", 6, 9),
    (2, "07 06 000000 FF FF FF", 6, 4),
    (2, "07 06 FFFFFF FF FF FF", 6, 7),
    (2, "07 06 FFFFFF 0F FF FF", 6, 8),
    (2, "07 06 FFFFFF 0F 03 FF", 6, 9),
];

#[test]
fn blinds(rt: HostRuntime) -> Result<(), Fail> {
    run(
        &rt,
        rt.alloc(),
        "09 19 04 06 00 A2 1B 01 02 80",
        &BLINDS_CASES,
    )
}

// Bytes, and the cause and offset of the frame at their front.
static GIVEN: [(&'static str, u8, u8); 34] = [
    ("", 2, 0),
    ("00", 1, 0),
    ("00 04 02", 1, 0),
    ("01", 2, 1),
    ("01 AA", 1, 0),
    ("02 AA", 2, 2),
    ("02 AA BB", 1, 0),
    ("03 AA", 2, 2),
    ("03 AA BB", 2, 3),
    ("03 AA BB CC", 1, 0),
    ("03 54 02 0E E9 00", 1, 0),
    ("04", 2, 1),
    ("04 02 01 01", 2, 4),
    ("04 02 01 01 00 FF", 0, 0),
    ("04 02 01 01 00 04 02 02 00 00", 0, 0),
    ("04 02 02 01 00 04 02 01 01 00", 5, 2),
    ("09 19", 2, 2),
    ("0D", 2, 1),
    ("04 00 00 00 00", 3, 1),
    ("04 03 00 00 00", 3, 1),
    ("04 18 00 00 00", 3, 1),
    ("04 FF 00 00 00", 3, 1),
    ("04 01 00 00 00", 4, 0),
    ("04 19 00 00 00", 4, 0),
    ("04 20 00 00 00", 4, 0),
    ("04 54 00 00 00", 4, 0),
    ("04 55 00 00 00", 4, 0),
    ("04 71 00 00 00", 4, 0),
    ("0D 00 00 00 03 53 00 80 08 27 00 00 00 00", 3, 1),
    ("05 02 01 00 00 00", 4, 0),
    ("05 02 07 00 00 00", 4, 0),
    ("05 03 07 00 00 00", 3, 1),
    ("04 02 02 00 00", 5, 2),
    ("FF 02 01 01 00", 2, 5),
];

#[test]
fn wholes(rt: HostRuntime) -> Result<(), Fail> {
    for &(text, cause, offset) in &GIVEN {
        let given = bytes(&rt, rt.alloc(), text)?;
        assert_eq!(rt;
            judged(&rt, rt.alloc(), &given)?,
            (cause, offset),
            "{}",
            text
        );
    }
    Ok(())
}

// The longest frame: a type that is not known, and one that is.
#[test]
fn longest(rt: HostRuntime) -> Result<(), Fail> {
    let unknown = vec![in rt.alloc(); 0xFF; 256]?;
    cuts(&rt, rt.alloc(), &unknown)?;
    assert_eq!(rt; judged(&rt, rt.alloc(), &unknown)?, (3, 1));
    let known = changed(rt.alloc(), &unknown, 1, &[0x54])?;
    assert_eq!(rt; judged(&rt, rt.alloc(), &known)?, (4, 0));
    Ok(())
}

// A temperature is sign and size.
static DEGREES: [(&'static str, i16); 8] = [
    ("00 00", 0),
    ("00 01", 1),
    ("00 C9", 201),
    ("7F FF", 32_767),
    ("80 01", -1),
    ("80 C9", -201),
    ("81 00", -256),
    ("FF FF", -32_767),
];

#[test]
fn temperatures(rt: HostRuntime) -> Result<(), Fail> {
    let base = bytes(&rt, rt.alloc(), "0D 54 02 0E E9 00 00 C9 27 02 03 E7 04 39")?;
    for &(text, degrees) in &DEGREES {
        let frame = changed(rt.alloc(), &base, 6, &bytes(&rt, rt.alloc(), text)?)?;
        let Ok(
            Packet {
                record: Record::Climate(climate),
                ..
            },
        ) = judge(&frame)
        else {
            return Err(Fail::new(text));
        };
        assert_eq!(rt; climate.temperature, degrees);
    }
    Ok(())
}
