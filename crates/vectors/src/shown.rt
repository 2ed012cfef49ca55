// Bytes and answers as text.
use refusal::refusals::Refusal;
use std::alloc::{AllocError, Global};

// The bytes in capital hexadecimal.
pub fn hex(heap: Global, bytes: &[u8]) -> Result<String, AllocError> {
    let mut text = String::new(heap);
    for byte in bytes {
        write!(text, "{byte:02X}")?;
    }
    Ok(text)
}

// What every place of a buffer holds at first, so that a refusal that wrote something shows.
pub const UNWRITTEN: u8 = 0xA5;

// What was written into a buffer, or why nothing was, and then whether the buffer is as it was.
pub fn written(
    heap: Global,
    told: Result<usize, Refusal>,
    buffer: &[u8],
) -> Result<String, AllocError> {
    match told {
        Ok(size) => hex(heap, buffer.get(0..size).unwrap_or(&[])),
        Err(refusal) => {
            let number = refusal.number();
            let untouched = buffer.iter().all(|&byte| byte == UNWRITTEN);
            let state = if untouched { "as it was" } else { "changed" };
            format!(in heap; "refused {number}, buffer {state}")
        }
    }
}
