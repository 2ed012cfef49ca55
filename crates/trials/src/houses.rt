// House records.
use crate::helps::{bytes, unwritten, written};
use house::writing::write_house;
use record::judging::judge;
use replay::reading::{house_to_frame, read_house};
use std::alloc::Global;
use std::process::Abort;
use std::test::Fail;

// Frames, and their house records.
static PAIRS: [(&'static str, &'static str); 17] = [
    (
        "0D 54 02 0E E9 00 00 C9 27 02 03 E7 04 39",
        "1873 54020E 0000E900 00C9 2702 03E704 09 03",
    ),
    (
        "0D 54 01 FF FF FF 80 01 64 03 FF FF 00 F0",
        "1873 5401FF 0000FFFF FFFF 6403 FFFF00 00 0F",
    ),
    (
        "0D 54 01 00 00 00 FF FF 00 00 00 00 00 00",
        "1873 540100 00000000 8001 0000 000000 00 00",
    ),
    (
        "0D 54 01 00 00 00 7F FF 00 00 00 00 00 00",
        "1873 540100 00000000 7FFF 0000 000000 00 00",
    ),
    (
        "0D 54 01 00 00 00 81 00 00 00 00 00 00 00",
        "1873 540100 00000000 FF00 0000 000000 00 00",
    ),
    (
        "0D 01 FF 02 41 53 3E 00 0C 2F 01 00 00 00",
        "2001 01FF02 41533E000C2F01000000",
    ),
    (
        "0D 01 00 FF 01 02 03 04 05 06 07 08 09 0A",
        "2001 0100FF 0102030405060708090A",
    ),
    ("04 02 01 01 00", "0009 020101 00"),
    ("04 02 00 FF FF", "0009 0200FF FF"),
    (
        "09 19 04 06 00 A2 1B 01 02 80",
        "180F 190406 0000A21B 01 02 00 08",
    ),
    (
        "09 19 07 FF FF FF FF 0F 03 F9",
        "180F 1907FF 00FFFFFF 0F 03 09 0F",
    ),
    (
        "08 20 00 4D D3 DC 54 00 89",
        "180B 20004D 00D3DC54 00 09 08",
    ),
    (
        "08 20 09 FF FF FF FF 85 F0",
        "180B 2009FF 00FFFFFF 85 00 0F",
    ),
    (
        "0B 55 02 17 B6 00 00 00 00 4D 3C 69",
        "1883 550217 0000B600 0000004D3C 09 06",
    ),
    (
        "0B 55 06 FF 01 02 03 04 05 06 07 F0",
        "1883 5506FF 00000102 0304050607 00 0F",
    ),
    (
        "0A 71 00 37 08 F8 00 8A 64 67 70",
        "1403 710037 000008F8 008A6467 07",
    ),
    (
        "0A 71 00 FF FF FF 0F FF FF FF F0",
        "1403 7100FF 0000FFFF 0FFFFFFF 0F",
    ),
];

// No house records.
static WRONG: [(&'static str, &'static str); 30] = [
    ("nothing", ""),
    ("one byte", "18"),
    ("a map and no more", "0009"),
    ("no sequence number", "0009 0201"),
    ("no fields", "0009 020101"),
    ("no map", "0000 020101 00"),
    ("a map of no kind", "0008 020101 00"),
    ("a bit more in the map", "8009 020101 00"),
    ("the map's bytes turned", "0900 020101 00"),
    (
        "the map of type 20 for type 19",
        "180B 190406 0000A21B 01 02 00 08",
    ),
    (
        "the map of type 19 for type 20",
        "180F 20004D 00D3DC54 00 09 08",
    ),
    (
        "the map of type 01 for type 02",
        "2001 02FF02 41533E000C2F01000000",
    ),
    ("an unknown type", "0009 030101 00"),
    (
        "type 00, which is never received",
        "2001 000002 03530000000000000000",
    ),
    ("one byte short", "180F 190406 0000A21B 01 02 00"),
    ("one byte long", "0009 020101 00 00"),
    ("a subtype of type 01", "2001 010102 41533E000C2F01000000"),
    ("a subtype of type 02", "0009 020201 00"),
    ("a subtype of type 71", "1403 710137 000008F8 008A6467 07"),
    (
        "a fourth byte of an ID of three",
        "180F 190406 0100A21B 01 02 00 08",
    ),
    (
        "a third byte of an ID of two",
        "1403 710037 000108F8 008A6467 07",
    ),
    (
        "an ID of blinds that is 0",
        "180F 190406 00000000 01 02 00 08",
    ),
    ("battery 10", "180F 190406 0000A21B 01 02 0A 08"),
    ("battery 16", "180F 190406 0000A21B 01 02 10 08"),
    ("signal strength 16", "180F 190406 0000A21B 01 02 00 10"),
    (
        "a status that no contact has",
        "180B 20004D 00D3DC54 0E 09 08",
    ),
    (
        "temperature 8000",
        "1873 54020E 0000E900 8000 2702 03E704 09 03",
    ),
    (
        "humidity 101",
        "1873 54020E 0000E900 00C9 6502 03E704 09 03",
    ),
    ("forecast 5", "1873 54020E 0000E900 00C9 2702 03E705 09 03"),
    ("a counter of 29 bits", "1403 710037 000008F8 108A6467 07"),
];

fn there_and_back(
    rt: &impl Abort,
    heap: Global,
    frame: &'static str,
    house: &'static str,
) -> Result<(), Fail> {
    let sent = bytes(rt, heap, frame)?;
    let stored = bytes(rt, heap, house)?;
    let Ok(packet) = judge(&sent) else {
        return Err(Fail::new(frame));
    };
    let Ok(again) = read_house(&stored) else {
        return Err(Fail::new(house));
    };
    assert!(rt; again == packet, "{}", house);
    written(rt, heap, |out| house_to_frame(&stored, out), &sent)
}

#[test]
fn examples(rt: HostRuntime) -> Result<(), Fail> {
    for &(frame, house) in &PAIRS {
        let Ok(packet) = judge(&bytes(&rt, rt.alloc(), frame)?) else {
            return Err(Fail::new(frame));
        };
        let house = bytes(&rt, rt.alloc(), house)?;
        written(&rt, rt.alloc(), |out| write_house(&packet, out), &house)?;
    }
    Ok(())
}

#[test]
fn returns(rt: HostRuntime) -> Result<(), Fail> {
    for &(frame, house) in &PAIRS {
        there_and_back(&rt, rt.alloc(), frame, house)?;
    }
    Ok(())
}

// Refused as no house record, also where there is no place for a frame, and nothing is written.
fn refused(rt: &impl Abort, heap: Global, why: &'static str, house: &str) -> Result<(), Fail> {
    let house = bytes(rt, heap, house)?;
    let Err(refusal) = read_house(&house) else {
        return Err(Fail::new(why));
    };
    assert_eq!(rt; refusal.number(), 17, "{}", why);
    for room in 0..16 {
        let mut out = unwritten(heap, room)?;
        let Err(refusal) = house_to_frame(&house, &mut out) else {
            return Err(Fail::new(why));
        };
        assert_eq!(rt; refusal.number(), 17, "{}", why);
        assert_eq!(rt; out, unwritten(heap, room)?, "{}", why);
    }
    Ok(())
}

#[test]
fn refusals(rt: HostRuntime) -> Result<(), Fail> {
    for &(why, house) in &WRONG {
        refused(&rt, rt.alloc(), why, house)?;
    }
    Ok(())
}
