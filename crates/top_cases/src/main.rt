//! Calls of the top call over memory by the lines of the input, each with the answer that is wanted.
//! It writes each line that has another answer, and how many there were.
#![tactic(auto)]

mod call;
mod ends;
mod outside;
mod sink;
mod spelling;

use case_lines::judge;
use ends::Ends;
use std::io::{self, Read, Write};

fn main(rt: HostRuntime) -> io::Result<()> {
    let mut input = Vec::new(rt.alloc());
    rt.reader().read_to_end(&mut input)?;
    let Ok(mut ends) = Ends::new(rt.alloc()) else {
        return println!(rt; "no memory");
    };
    match judge(rt.alloc(), &mut ends, &input) {
        Ok(said) => io::writer(&rt).write_all(said.as_bytes()),
        Err(_) => println!(rt; "no memory"),
    }
}
