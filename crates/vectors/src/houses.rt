// House records back to frames.
use crate::shown::{UNWRITTEN, hex, written};
use replay::reading::house_to_frame;

// House records, and how many places the buffer has.
static HOUSES: [(&'static [u8], usize); 19] = [
    // one of each kind
    (
        b"\x20\x01\x01\xFF\x02\x41\x53\x3E\x00\x0C\x2F\x01\x00\x00\x00",
        14,
    ),
    (b"\x00\x09\x02\x01\x01\x00", 14),
    (b"\x18\x0F\x19\x04\x06\x00\x00\xA2\x1B\x01\x02\x00\x08", 14),
    (b"\x18\x0B\x20\x00\x4D\x00\xD3\xDC\x54\x00\x09\x08", 14),
    (
        b"\x18\x73\x54\x02\x0E\x00\x00\xE9\x00\x00\xC9\x27\x02\x03\xE7\x04\x09\x03",
        14,
    ),
    (
        b"\x18\x83\x55\x02\x17\x00\x00\xB6\x00\x00\x00\x00\x4D\x3C\x09\x06",
        14,
    ),
    (
        b"\x14\x03\x71\x00\x37\x00\x00\x08\xF8\x00\x8A\x64\x67\x07",
        14,
    ),
    // temperatures FFFF, 8001 and 8000
    (
        b"\x18\x73\x54\x02\x0E\x00\x00\xE9\x00\xFF\xFF\x27\x02\x03\xE7\x04\x09\x03",
        14,
    ),
    (
        b"\x18\x73\x54\x02\x0E\x00\x00\xE9\x00\x80\x01\x27\x02\x03\xE7\x04\x09\x03",
        14,
    ),
    (
        b"\x18\x73\x54\x02\x0E\x00\x00\xE9\x00\x80\x00\x27\x02\x03\xE7\x04\x09\x03",
        14,
    ),
    // one place too few; and no place, where the house record is wrong too
    (b"\x00\x09\x02\x01\x01\x00", 4),
    (b"\x00\x0A\x02\x01\x01\x00", 0),
    // the map of another type, a byte too few, a byte too many
    (b"\x18\x0F\x20\x00\x4D\x00\xD3\xDC\x54\x00\x09\x08", 14),
    (b"\x00\x09\x02\x01\x01", 14),
    (b"\x00\x09\x02\x01\x01\x00\x00", 14),
    // an ID of four bytes, a battery of 10, a signal strength of 16, a type without house record
    (b"\x18\x0F\x19\x04\x06\x01\x00\xA2\x1B\x01\x02\x00\x08", 14),
    (b"\x18\x0B\x20\x00\x4D\x00\xD3\xDC\x54\x00\x0A\x08", 14),
    (b"\x18\x0B\x20\x00\x4D\x00\xD3\xDC\x54\x00\x09\x10", 14),
    (
        b"\x20\x01\x00\x00\x00\x03\x53\x00\x80\x08\x27\x00\x00\x00\x00",
        14,
    ),
];

// How many were tried.
pub fn run(rt: &HostRuntime) -> anyhow::Result<usize> {
    for &(house, places) in &HOUSES {
        let mut buffer = vec![in rt.alloc(); UNWRITTEN; places]?;
        let told = house_to_frame(house, &mut buffer);
        let tried = hex(rt.alloc(), house)?;
        let came = written(rt.alloc(), told, &buffer)?;
        println!(rt; "house record {tried} into {places} places: {came}")?;
    }
    Ok(HOUSES.len())
}
