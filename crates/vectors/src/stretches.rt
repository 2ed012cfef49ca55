// Stored stretches, handed out in place.
use crate::shown::hex;
use std::alloc::{AllocError, Global};
use stretch::reader::Stretch;
use stretch::tokens::Token;

// A stretch, and the place of its first byte.
static STRETCHES: [(&'static [u8], u32); 4] = [
    (b"", 0),
    (b"\x04\x02\x01\x01\x00\x02\xAA\xBB\x09\x19", 7),
    (b"\x00\x00\x01\xAA\x03\xAA\xBB\xCC\x04", 0),
    // places that pass 32 bits
    (b"\x00\x04\x02\x01\x01\x00\x09", 4294967295),
];

fn token(heap: Global, token: Token) -> Result<String, AllocError> {
    let (sort, place, bytes) = match token {
        Token::Frame { place, bytes } => ("Frame", place, bytes),
        Token::Empty { place, bytes } => ("Empty", place, bytes),
        Token::Remnant { place, bytes } => ("Remnant", place, bytes),
    };
    let text = hex(heap, bytes)?;
    format!(in heap; " {sort} {place} {text}")
}

fn tokens(heap: Global, bytes: &[u8], place: u32) -> Result<String, AllocError> {
    let mut text = String::new(heap);
    for next in Stretch::new(bytes, place) {
        text.push_str(&token(heap, next)?)?;
    }
    Ok(text)
}

// How many were tried.
pub fn run(rt: &HostRuntime) -> anyhow::Result<usize> {
    for &(bytes, place) in &STRETCHES {
        let tried = hex(rt.alloc(), bytes)?;
        let came = tokens(rt.alloc(), bytes, place)?;
        println!(rt; "stretch {tried} at {place}:{came}")?;
    }
    Ok(STRETCHES.len())
}
