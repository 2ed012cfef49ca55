// What may be sent.
use crate::shown::{UNWRITTEN, hex, written};
use command::commands::Command;
use command::startup::Startup;
use refusal::refusals::Refusal;
use std::alloc::{AllocError, Global};

// Type, subtype and data, the sequence number to send it under, and how many places the buffer has: a row of the table is one
// line so, and seven with the names of a struct's fields.
static ASKED: [(u8, u8, &'static [u8], u8, usize); 16] = [
    // the worked examples of the protocol: Set Mode, and Media Mount's blinds
    (
        0x00,
        0x00,
        b"\x03\x53\x00\x80\x08\x27\x00\x00\x00\x00",
        0,
        14,
    ),
    (0x19, 0x05, b"\x1A\x62\x80\x01\x00\x00", 2, 14),
    // a contact's panic, and one place too few for it
    (0x20, 0x02, b"\x01\x02\x03\x06\x00", 255, 9),
    (0x20, 0x02, b"\x01\x02\x03\x06\x00", 255, 8),
    // a status that is read and not sent, and a subtype that is sent none
    (0x20, 0x02, b"\x01\x02\x03\x08\x00", 3, 14),
    (0x20, 0x06, b"\x01\x02\x03\x06\x00", 3, 14),
    // tails
    (0x19, 0x05, b"\x1A\x62\x80\x01\x00\x80", 3, 14),
    (0x20, 0x02, b"\x01\x02\x03\x06\x09", 3, 14),
    // a data byte too few, and one too many
    (0x19, 0x05, b"\x1A\x62\x80\x01\x00", 3, 14),
    (0x19, 0x05, b"\x1A\x62\x80\x01\x00\x00\x00", 3, 14),
    // a frequency, bit 6 of msg3, and another interface command
    (
        0x00,
        0x00,
        b"\x03\x54\x00\x80\x08\x27\x00\x00\x00\x00",
        3,
        14,
    ),
    (
        0x00,
        0x00,
        b"\x03\x53\x00\xC0\x08\x27\x00\x00\x00\x00",
        3,
        14,
    ),
    (
        0x00,
        0x00,
        b"\x02\x00\x00\x00\x00\x00\x00\x00\x00\x00",
        3,
        14,
    ),
    // a subtype, a field, and types that are read and not sent
    (0x19, 0x08, b"\x1A\x62\x80\x01\x00\x00", 3, 14),
    (0x19, 0x05, b"\x1A\x62\x80\x01\x03\x00", 3, 14),
    (0x71, 0x00, b"\x08\xF8\x00\x8A\x64\x67\x70", 3, 14),
];

// A command, its size, and its frame under a number in a buffer of so many places.
fn made(heap: Global, command: &Command, seq: u8, places: usize) -> Result<String, AllocError> {
    let size = command.size();
    let kind = command.type_number();
    let mut buffer = vec![in heap; UNWRITTEN; places]?;
    let told = command.write(seq, &mut buffer);
    let frame = written(heap, told, &buffer)?;
    format!(in heap;
        "{command:?}, type {kind:02X}, size {size}, under {seq} into {places} places: {frame}"
    )
}

fn asked(
    heap: Global,
    command: Result<Command, Refusal>,
    seq: u8,
    places: usize,
) -> Result<String, AllocError> {
    match command {
        Ok(command) => made(heap, &command, seq, places),
        Err(refusal) => {
            let number = refusal.number();
            format!(in heap; "refused {number}")
        }
    }
}

// The two packets of the start-up, and what only looks like one.
fn startups(rt: &HostRuntime) -> anyhow::Result<usize> {
    let reset = Startup::Reset.packet();
    let status = Startup::GetStatus.packet();
    let tried: [&[u8]; 3] = [&reset, &status, &reset[0..13]];
    for bytes in tried {
        let text = hex(rt.alloc(), bytes)?;
        let which = Startup::recognise(bytes);
        println!(rt; "start-up {text}: {which:?}")?;
    }
    Ok(tried.len())
}

// How many were tried.
pub fn run(rt: &HostRuntime) -> anyhow::Result<usize> {
    for &(kind, sub, data, seq, places) in &ASKED {
        let tried = hex(rt.alloc(), data)?;
        let came = asked(rt.alloc(), Command::make(kind, sub, data), seq, places)?;
        println!(rt; "command {kind:02X} {sub:02X} {tried}: {came}")?;
    }
    let startups = startups(rt)?;
    Ok(startups.saturating_add(ASKED.len()))
}
