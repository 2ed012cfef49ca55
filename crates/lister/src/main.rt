// Lists a stream of signal numbers from standard input (docs/LISTER.md).
#![tactic(auto)]

ghost use Rattle.std.specs.Prelude.{◌≤◌, length};

use anyhow::anyhow;
use listing::listing::{Fed, Listing};
use std::io::{Read, Write};
use std::{env, io};

const INPUT: usize = 65536;

// holds the lines of most pieces, so that one write does for each
const OUTPUT: usize = 131072;

const HELP: &str = "\
usage: lister < STREAM

Lists the reading of a captured stream, a line to each entry. The stream is a
sequence of signal numbers, two bytes each, the high byte first: 0 to 255 is
that byte, and every larger number is a pause. An odd last byte is dropped.

  PLACE R RECORD        a record, as its house record in hexadecimal
  PLACE F CAUSE OFFSET  a fault
  E SIGNALS BEGUN       the end: signals read, bytes of the frame begun

A place is the number of bytes, pauses not counted, before a frame's first.
At most 4294967295 signals are listed.
";

// Lists one piece of the stream, as many lines at a time as the buffer holds.
fn pass<W: Write>(
    listing: &mut Listing,
    piece: &[u8],
    output: &mut [u8],
    to: &mut W,
) -> io::Result<()>
    requires { 50 ≤ length output.old }
{
    let mut rest = piece;
    while !rest.is_empty() {
        let Fed { taken, written } = listing.feed(rest, output);
        to.write_all(&output[..written])?;
        rest = &rest[taken..];
    }
    Ok(())
}

// Moves the stream through a listing: what is read goes in, and what comes out is written.
fn list(rt: &HostRuntime) -> anyhow::Result<()> {
    let mut input = vec![in rt.alloc(); 0u8; INPUT]?;
    let mut output = vec![in rt.alloc(); 0u8; OUTPUT]?;
    let mut stdin = rt.stdin();
    let mut stdout = rt.stdout();
    let mut listing = Listing::new();
    // a count: a loop that may never end would need the right to wait, which no program here has
    for _ in 0..u64::MAX {
        let size = stdin.read(&mut input)?;
        if size == 0 {
            break;
        }
        pass(&mut listing, &input[..size], &mut output, &mut stdout)?;
        if listing.over() {
            return Err(anyhow!("more than 4294967295 signals: listed as far as these"));
        }
    }
    // tried `map_err` with `?`: the bound of the slice stays open
    let Ok(size) = listing.close(&mut output) else {
        return Err(anyhow!("no room for the closing line"));
    };
    stdout.write_all(&output[..size])?;
    stdout.flush()?;
    Ok(())
}

fn run(rt: &HostRuntime) -> anyhow::Result<()> {
    let mut args = env::args(rt)?;
    let _ = args.next();
    let Some(word) = args.next() else {
        return list(rt);
    };
    if word.as_str() == "--help" && args.next().is_none() {
        rt.print(HELP)?;
        return Ok(());
    }
    Err(anyhow!("usage: lister < STREAM (lister --help says more)"))
}

fn main(rt: HostRuntime) -> anyhow::Result<()> {
    run(&rt)
}
