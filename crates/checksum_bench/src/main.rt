//! Takes the check value of 16 MiB as many times as the first word says, one after the other, and
//! prints the value of all of them together.
#![tactic(auto)]

use aal5_crc::Crc;
use std::io;

/// The bytes of one pass.
const LENGTH: usize = 0x0100_0000;

fn main(rt: HostRuntime) -> io::Result<()> {
    let mut bytes = vec![in rt.alloc(); 0u8; LENGTH]?;
    for (place, byte) in bytes.iter_mut().enumerate() {
        *byte = pattern(place);
    }
    let mut crc = Crc::new();
    for _ in 0..passes(&rt)? {
        crc.add(&bytes);
    }
    println!(rt; "{:08x}", crc.value())
}

// How many passes the first word asks for: one where there is no such number.
fn passes<R: std::rt::Env + AllocGlobal>(rt: &R) -> io::Result<u16> {
    let mut words = std::env::args(rt)?;
    let _program = words.next();
    let Some(word) = words.next() else {
        return Ok(1)
    };
    Ok(word.as_str().parse().unwrap_or(1))
}

// The byte of the pattern at a place: the three low bytes of the place, added without carry.
fn pattern(place: usize) -> u8 {
    ((place ^ (place >> 8) ^ (place >> 16)) & 0xff) as u8
}
