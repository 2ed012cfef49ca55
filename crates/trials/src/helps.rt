// What the trials share: bytes out of their text, and what is asked of every call that writes into a buffer.
use frame::faults::Fault;
use refusal::refusals::Refusal;
use std::alloc::Global;
use std::process::Abort;
use std::test::Fail;

// What no written byte is known to be, so that it shows which bytes of a buffer are as they were.
const OLD: u8 = 0xA5;

// Small letters are no digits.
fn digit(letter: u8) -> Option<u32> {
    char::from(letter)
        .to_digit(16)
        .filter(|_| !letter.is_ascii_lowercase())
}

// The signal numbers of a text: a byte is two hexadecimal digits, `|` is 256 and `#` is 65,535. Spaces mean nothing.
pub fn numbers(rt: &impl Abort, heap: Global, text: &str) -> Result<Vec<u16>, Fail> {
    let mut all = Vec::new(heap);
    let mut high = None;
    for letter in text.as_bytes() {
        match *letter {
            b' ' => {}
            b'|' => all.push(256)?,
            b'#' => all.push(65_535)?,
            other => {
                let low = digit(other).ok_or("no digit")?;
                match high {
                    None => high = Some(low),
                    Some(first) => {
                        all.push(u16::try_from(first.wrapping_mul(16).wrapping_add(low))?)?;
                        high = None;
                    }
                }
            }
        }
    }
    assert!(rt; high.is_none());
    Ok(all)
}

// The bytes of a text that has no pause.
pub fn bytes(rt: &impl Abort, heap: Global, text: &str) -> Result<Vec<u8>, Fail> {
    numbers(rt, heap, text)?
        .iter()
        .map(|&number| u8::try_from(number).map_err(Fail::from))
        .try_collect(heap)
}

// The bytes with others put in the place of some.
pub fn changed(heap: Global, base: &[u8], at: usize, patch: &[u8]) -> Result<Vec<u8>, Fail> {
    let mut all = Vec::new(heap);
    all.extend_from_slice(base.get(0..at).ok_or("beyond the frame")?)?;
    all.extend_from_slice(patch)?;
    all.extend_from_slice(base.get(all.len()..).ok_or("beyond the frame")?)?;
    Ok(all)
}

// A buffer of so many places, before anything is written into it.
pub fn unwritten(heap: Global, room: usize) -> Result<Vec<u8>, Fail> {
    Ok(vec![in heap; OLD; room]?)
}

fn written_in<W: Fn(&mut [u8]) -> Result<usize, Refusal>>(
    rt: &impl Abort,
    heap: Global,
    write: &W,
    text: &[u8],
    room: usize,
) -> Result<(), Fail>
    requires { W.IsAlwaysCallable write.now }
{
    let old = unwritten(heap, room)?;
    let mut out = unwritten(heap, room)?;
    match write(&mut out) {
        Ok(size) => {
            assert_eq!(rt; size, text.len(), "{text:?}, a buffer of {room}");
            assert_eq!(rt;
                out,
                changed(heap, &old, 0, text)?,
                "{text:?}, a buffer of {room}"
            );
            Ok(())
        }
        // by its number, here and in the other trials: so the numbers of docs/REFUSALS.md are tried too
        Err(refusal) => {
            assert_eq!(rt; refusal.number(), 16, "{text:?}, a buffer of {room}");
            assert!(rt; room < text.len(), "{text:?}, a buffer of {room}");
            assert_eq!(rt; out, old, "{text:?}, a buffer of {room}");
            Ok(())
        }
    }
}

// Into every buffer from none to three places more than are needed: written where it fits, refused with 16 where it does not, and
// nothing else changed.
pub fn written<W: Fn(&mut [u8]) -> Result<usize, Refusal>>(
    rt: &impl Abort,
    heap: Global,
    write: W,
    text: &[u8],
) -> Result<(), Fail>
    requires { W.IsAlwaysCallable write }
{
    for room in 0..text.len().saturating_add(4) {
        written_in(rt, heap, &write, text, room)?;
    }
    Ok(())
}

// The cause and offset of a fault. A row says 0 0 where there is none, which no fault has: so a row is one line.
pub fn told<T>(verdict: &Result<T, Fault>) -> (u8, u8) {
    match verdict {
        Ok(_) => (0, 0),
        Err(fault) => (fault.cause(), fault.offset()),
    }
}
