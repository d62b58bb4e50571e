//! Windows of a software download, lanes, kept replies and the link by the lines of the input: a
//! call of `download_window`, `olt_lanes`, `retry_cache` or `link_lanes` on each line, and the
//! answer that is wanted. It writes each line that has another answer, and how many there were.
#![tactic(auto)]

mod calls;
mod image;
mod inbox;
mod kept;
mod lane;
mod link;
mod words;

use calls::Calls;
use case_lines::judge;
use std::io::{self, Read, Write};

fn main(rt: HostRuntime) -> io::Result<()> {
    let mut input = Vec::new(rt.alloc());
    rt.reader().read_to_end(&mut input)?;
    let Ok(mut calls) = Calls::new(rt.alloc()) else {
        return println!(rt; "no memory");
    };
    match judge(rt.alloc(), &mut calls, &input) {
        Ok(said) => io::writer(&rt).write_all(said.as_bytes()),
        Err(_) => println!(rt; "no memory"),
    }
}
