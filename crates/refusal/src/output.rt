// Bytes put at the front of a buffer that the caller lends.
ghost use Rattle.refusal.specs.Output.{Put};

use crate::refusals::Refusal;

// Puts the bytes at the front of the buffer and tells how many; refused where the buffer is shorter, and then nothing is written.
pub fn put(bytes: &[u8], out: &mut [u8]) -> Result<usize, Refusal>
    ensures { Put bytes.now out.old result out.new }
{
    let size = bytes.len();
    // tried `get_mut`: the check then knows nothing of the buffer, and of `split_at_mut_checked` only by an answer
    if out.len() < size {
        return Err(Refusal::OutputTooShort);
    }
    out[0..size].copy_from_slice(bytes);
    Ok(size)
}
