//! A unit by the lines of the input: a packet, or what the unit notices by itself, on each line,
//! and the answer that is wanted. It writes each line that has another answer, and how many there
//! were.
#![tactic(auto)]

mod texts;
mod unit;

use case_lines::judge;
use std::io::{self, Read, Write};
use unit::Unit;

fn main(rt: HostRuntime) -> io::Result<()> {
    let mut input = Vec::new(rt.alloc());
    rt.reader().read_to_end(&mut input)?;
    let mut unit = Unit::new(rt.alloc());
    match judge(rt.alloc(), &mut unit, &input) {
        Ok(said) => io::writer(&rt).write_all(said.as_bytes()),
        Err(_) => println!(rt; "no memory"),
    }
}
