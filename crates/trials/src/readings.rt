// Tapes and their readings. In a tape's text a byte is two hexadecimal digits, and `|` and `#` are pauses.
use crate::helps::{bytes, numbers};
use record::writing::write_record;
use std::alloc::Global;
use std::process::Abort;
use std::test::Fail;
use tape::reader::TapeReader;
use tape::signals::{Entry, Signal, TapeFull};

// The place, the cause and the offset of an entry. A record has cause and offset 0: the rules number causes from 1.
type Told = (u32, u8, u8);

// What an entry says. The frame of a record has to stand at its place on the tape.
fn told(rt: &impl Abort, entry: &Entry, heard: &[u8]) -> Result<Told, Fail> {
    match entry.verdict {
        Err(fault) => Ok((entry.place, fault.cause(), fault.offset())),
        Ok(packet) => {
            let mut frame = [0; 14];
            let size = write_record(&packet, &mut frame)?;
            let there = heard.get(entry.place as usize..).ok_or("no such place")?;
            assert_eq!(rt; there, frame.get(0..size).ok_or("too long")?);
            Ok((entry.place, 0, 0))
        }
    }
}

// The reading of a tape, with the bytes of its frame begun and the signals taken.
fn read(rt: &impl Abort, heap: Global, tape: &[u16]) -> Result<(Vec<Told>, u8, u32), Fail> {
    let mut reader = TapeReader::new();
    let mut heard = Vec::new(heap);
    let mut entries = Vec::new(heap);
    for number in tape {
        let signal = Signal::from(*number);
        if let Signal::Byte(byte) = signal {
            heard.push(byte)?;
        }
        if let Some(entry) = reader.take(signal)? {
            entries.push(told(rt, &entry, &heard)?)?;
        }
    }
    Ok((entries, reader.begun(), reader.signals()))
}

fn reads(
    rt: &impl Abort,
    heap: Global,
    tape: &[u16],
    entries: &[Told],
    begun: u8,
) -> Result<(), Fail> {
    let (said, held, signals) = read(rt, heap, tape)?;
    assert_eq!(rt; said.as_slice(), entries, "{tape:?}");
    assert_eq!(rt; held, begun, "{tape:?}");
    assert_eq!(rt; signals as usize, tape.len());
    Ok(())
}

// A tape, its reading and the bytes of its frame begun.
type Case = (&'static str, &'static [Told], u8);

static TOLD_TAPES: [Case; 21] = [
    ("", &[], 0),
    ("|", &[], 0),
    ("| # | #", &[], 0),
    ("04 02 01 01 00 | 02 AA BB", &[(0, 0, 0), (5, 1, 0)], 0),
    ("09 19", &[], 2),
    ("09 19 |", &[(0, 2, 2)], 0),
    ("09 19 #", &[(0, 2, 2)], 0),
    ("09 19 | | #", &[(0, 2, 2)], 0),
    ("00 | | 01 00 04", &[(0, 1, 0), (1, 1, 0)], 1),
    (
        "00 01 AA 02 AA BB 03 AA BB CC",
        &[(0, 1, 0), (1, 1, 0), (3, 1, 0), (6, 1, 0)],
        0,
    ),
    (
        "01 | 02 AA | 03 AA BB | 00 |",
        &[(0, 2, 1), (1, 2, 2), (3, 2, 3), (6, 1, 0)],
        0,
    ),
    ("00 00 00", &[(0, 1, 0), (1, 1, 0), (2, 1, 0)], 0),
    ("03 04 02 01 04 02 01 01 00", &[(0, 1, 0), (4, 0, 0)], 0),
    ("04 02 01 01 00 04 02 01 02 00", &[(0, 0, 0), (5, 0, 0)], 0),
    (
        "04 02 01 01 00 08 20 00 4D D3 DC 54 00 89 09",
        &[(0, 0, 0), (5, 0, 0)],
        1,
    ),
    ("04 02 01 | 01 00", &[(0, 2, 3), (3, 1, 0)], 0),
    ("04 02 01 | 04 02 01 01 00", &[(0, 2, 3), (3, 0, 0)], 0),
    (
        "| 04 02 01 01 00 # # 04 02 01 02 00 |",
        &[(0, 0, 0), (5, 0, 0)],
        0,
    ),
    (
        "04 02 02 01 00 04 03 00 00 00 05 02 01 00 00 00",
        &[(0, 5, 2), (5, 3, 1), (10, 4, 0)],
        0,
    ),
    (
        "09 19 00 06 00 00 00 01 02 80 04 02 01 01 00",
        &[(0, 6, 4), (10, 0, 0)],
        0,
    ),
    ("FF 04 02 01 01 00 | 00", &[(0, 2, 6), (6, 1, 0)], 0),
];

#[test]
fn tapes(rt: HostRuntime) -> Result<(), Fail> {
    for &(text, entries, begun) in &TOLD_TAPES {
        reads(
            &rt,
            rt.alloc(),
            &numbers(&rt, rt.alloc(), text)?,
            entries,
            begun,
        )?;
    }
    Ok(())
}

// The longest frame, cut by a pause or by the tape's end behind each number of its bytes.
#[test]
fn cuts(rt: HostRuntime) -> Result<(), Fail> {
    let whole = vec![in rt.alloc(); 255u16; 256]?;
    reads(&rt, rt.alloc(), &whole, &[(0, 3, 1)], 0)?;
    for held in 1..=255u8 {
        let mut tape = vec![in rt.alloc(); 255u16; usize::from(held)]?;
        reads(&rt, rt.alloc(), &tape, &[], held)?;
        tape.push(256)?;
        tape.push(0)?;
        reads(
            &rt,
            rt.alloc(),
            &tape,
            &[(0, 2, held), (u32::from(held), 1, 0)],
            0,
        )?;
    }
    Ok(())
}

// A tape whose reader has taken some signals.
fn started(rt: &impl Abort, heap: Global, text: &str) -> Result<TapeReader, Fail> {
    let mut reader = TapeReader::new();
    for number in numbers(rt, heap, text)?.iter() {
        reader.take(Signal::from(*number))?;
    }
    Ok(reader)
}

// What the last of some bytes gives where they are taken one by one.
fn last(reader: &mut TapeReader, frame: &[u8]) -> Result<Option<Entry>, TapeFull> {
    let mut said = None;
    for byte in frame {
        said = reader.take(Signal::Byte(*byte))?;
    }
    Ok(said)
}

// What came before, the bytes given at once, and whether they are taken. Where they are, all is as if taken one by one; else the
// reader is as it was.
static AT_ONCE: [(&'static str, &'static str, bool); 14] = [
    ("", "04 02 01 01 00", true),
    ("09 19 |", "04 02 01 01 00", true),
    (
        "04 02 01 01 00",
        "0D 54 02 0E E9 00 00 C9 27 02 03 E7 04 39",
        true,
    ),
    ("00", "0D 54 02 0E E9 00 00 C9 65 02 03 E7 04 39", true),
    ("| #", "00", true),
    ("", "03 AA BB CC", true),
    ("01 02", "04 00 00 00 00", true),
    ("", "", false),
    ("", "04", false),
    ("", "04 02 01 01", false),
    ("", "04 02 01 01 00 00", false),
    ("", "00 00", false),
    ("01", "04 02 01 01 00", false),
    ("04 02 01 01", "00", false),
];

#[test]
fn frames(rt: HostRuntime) -> Result<(), Fail> {
    for &(before, text, taken) in &AT_ONCE {
        let frame = bytes(&rt, rt.alloc(), text)?;
        let mut reader = started(&rt, rt.alloc(), before)?;
        let mut slow = started(&rt, rt.alloc(), before)?;
        match reader.take_frame(&frame) {
            None => assert!(rt; !taken, "{}", text),
            Some(entry) => {
                assert!(rt; taken, "{}", text);
                assert_eq!(rt; last(&mut slow, &frame)?, Some(entry));
            }
        }
        assert_eq!(rt;
            (reader.signals(), reader.begun()),
            (slow.signals(), slow.begun()),
            "{}",
            text
        );
    }
    Ok(())
}
