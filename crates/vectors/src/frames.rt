// Frames that are received.
use crate::shown::{UNWRITTEN, hex, written};
use frame::packet::Packet;
use house::writing::write_house;
use record::judging::judge;
use record::records::Record;
use record::writing::write_record;
use std::alloc::{AllocError, Global};

static FRAMES: [&'static [u8]; 22] = [
    // worked examples of the protocol: wrong command, Raex, Media Mount, door contact, weather station, rain gauge, meter
    b"\x0D\x01\xFF\x02\x41\x53\x3E\x00\x0C\x2F\x01\x00\x00\x00",
    b"\x09\x19\x04\x06\x00\xA2\x1B\x01\x02\x80",
    b"\x09\x19\x05\x02\x1A\x62\x80\x01\x00\x00",
    b"\x08\x20\x00\x4D\xD3\xDC\x54\x00\x89",
    b"\x0D\x54\x02\x0E\xE9\x00\x00\xC9\x27\x02\x03\xE7\x04\x39",
    b"\x0B\x55\x02\x17\xB6\x00\x00\x00\x00\x4D\x3C\x69",
    b"\x0A\x71\x00\x37\x08\xF8\x00\x8A\x64\x67\x70",
    // replies of the interface and of the transmitter
    b"\x0D\x01\x00\x01\x02\x53\x3E\x00\x0C\x2F\x01\x00\x00\x00",
    b"\x04\x02\x01\x01\x00",
    // humidity 100 and 101
    b"\x0D\x54\x02\x0E\xE9\x00\x00\xC9\x64\x02\x03\xE7\x04\x39",
    b"\x0D\x54\x02\x0E\xE9\x00\x00\xC9\x65\x02\x03\xE7\x04\x39",
    // temperatures 80 01, FF FF and 80 00
    b"\x0D\x54\x02\x0E\xE9\x00\x80\x01\x27\x02\x03\xE7\x04\x39",
    b"\x0D\x54\x02\x0E\xE9\x00\xFF\xFF\x27\x02\x03\xE7\x04\x39",
    b"\x0D\x54\x02\x0E\xE9\x00\x80\x00\x27\x02\x03\xE7\x04\x39",
    // every cause
    b"\x03\xAA\xBB\xCC",
    b"\x00",
    b"\x09\x19",
    b"\x04\x03\x00\x00\x00",
    b"\x0D\x00\x00\x00\x03\x53\x00\x80\x08\x27\x00\x00\x00\x00",
    b"\x05\x02\x01\x00\x00\x00",
    b"\x04\x02\x02\x00\x00",
    b"\x08\x20\x00\x4D\xD3\xDC\x54\x00\x8A",
];

// A packet, its house record, and the frame that is written of it.
fn read(heap: Global, packet: &Packet<Record>) -> Result<String, AllocError> {
    let mut buffer = [UNWRITTEN; 18];
    let told = write_house(packet, &mut buffer);
    let house = written(heap, told, &buffer)?;
    let mut buffer = [UNWRITTEN; 14];
    let told = write_record(packet, &mut buffer);
    let frame = written(heap, told, &buffer)?;
    let (number, record) = (packet.seq, packet.record);
    format!(in heap; "number {number}, {record:?}, house record {house}, frame {frame}")
}

fn judged(heap: Global, frame: &[u8]) -> Result<String, AllocError> {
    match judge(frame) {
        Ok(packet) => read(heap, &packet),
        Err(fault) => {
            let (cause, offset) = (fault.cause(), fault.offset());
            format!(in heap; "fault of cause {cause}, offset {offset}")
        }
    }
}

// How many were tried.
pub fn run(rt: &HostRuntime) -> anyhow::Result<usize> {
    for frame in &FRAMES {
        let tried = hex(rt.alloc(), frame)?;
        let came = judged(rt.alloc(), frame)?;
        println!(rt; "frame {tried}: {came}")?;
    }
    Ok(FRAMES.len())
}
