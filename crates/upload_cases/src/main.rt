//! Uploads by the lines of the input: a call of `mib_upload` on each line, and the answer that is
//! wanted. It writes each line that has another answer, and how many there were.
#![tactic(auto)]

mod calls;
mod manager;
mod unit;
mod words;

use calls::Calls;
use case_lines::judge;
use std::io::{self, Read, Write};

fn main(rt: HostRuntime) -> io::Result<()> {
    let mut input = Vec::new(rt.alloc());
    rt.reader().read_to_end(&mut input)?;
    let mut calls = Calls::new(rt.alloc());
    match judge(rt.alloc(), &mut calls, &input) {
        Ok(said) => io::writer(&rt).write_all(said.as_bytes()),
        Err(_) => println!(rt; "no memory"),
    }
}
