//! Shows and checks each stream of the input, and compares what comes of it where its bytes are
//! given in pieces of 1, 2, 3, 7 and 64 bytes. A stream stands in the input as its length in 4
//! bytes, and then its bytes.
#![tactic(auto)]

mod given;
mod reader;
mod said;

use omci_core::NoMemory;
use said::{Said, said_by_calls, said_of};
use std::alloc::Global;
use std::io::{self, Read, Write};

/// So many bytes a piece has at most.
const PIECES: [usize; 5] = [1, 2, 3, 7, 64];

fn main(rt: HostRuntime) -> io::Result<()> {
    let mut input = Vec::new(rt.alloc());
    rt.reader().read_to_end(&mut input)?;
    let mut out = Vec::new(rt.alloc());
    if say_all(rt.alloc(), &input, &mut out).is_err() {
        return println!(rt; "no memory");
    }
    io::writer(&rt).write_all(&out)
}

// Says what comes of each stream, one after the other.
fn say_all(alloc: Global, input: &[u8], out: &mut Vec<u8>) -> Result<(), NoMemory> {
    let mut rest = input;
    for _ in 0..input.len() {
        let Some((length, after)) = rest.split_first_chunk::<4>() else {
            break;
        };
        let length = (u32::from_be_bytes(*length) as usize).min(after.len());
        let (stream, after) = after.split_at(length);
        say_one(alloc, stream, out)?;
        rest = after;
    }
    Ok(())
}

// Says what comes of a stream, and that the same comes of it in pieces.
fn say_one(alloc: Global, stream: &[u8], out: &mut Vec<u8>) -> Result<(), NoMemory> {
    let whole = said_of(alloc, stream, stream.len())?;
    out.extend_from_slice(&whole.shown)?;
    out.extend_from_slice(&whole.checked)?;
    for most in PIECES {
        let pieces = said_of(alloc, stream, most)?;
        if pieces != whole {
            out.extend_from_slice(b"another result in pieces\n")?;
        }
        let called = said_by_calls(alloc, stream, most)?;
        if called != whole.shown {
            out.extend_from_slice(b"another result of calls\n")?;
        }
    }
    Ok(())
}
