// Frames that lie whole, with no pause in them, at the front of a stream of signal numbers.
ghost use Rattle.std.specs.Prelude.{IfSome};
ghost use Rattle.listing.specs.Gathered.{Gathered};

// The bytes of such a frame, if there is one, gathered in the buffer.
pub(crate) fn gather<'a>(numbers: &[u8], frame: &'a mut [u8; 256]) -> Option<&'a [u8]>
    ensures { IfSome result (λ f. Gathered numbers.now f.now) }
{
    let (pairs, _) = numbers.as_chunks::<2>();
    let [[0, len], ..] = pairs else {
        return None;
    };
    let size = *len as usize + 1;
    let pairs = pairs.get(..size)?;
    // one pass over the pairs: `any` before it would be a second one
    let mut highs = 0;
    // tried over `frame.iter_mut().zip(pairs)`: no invariant can name what it leaves in the buffer
    for (i, [high, low]) in pairs.iter().enumerate() {
        highs |= *high;
        frame[i] = *low;
    }
    if highs != 0 {
        return None;
    }
    Some(&frame[..size])
}
