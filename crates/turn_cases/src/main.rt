//! Links, and ends that run alone over a link in memory, by the lines of the input: a call of
//! `omci_link`, `olt_turns` or `unit_turns` on each line, and the answer that is wanted. It writes
//! each line that has another answer, and how many there were.
#![tactic(auto)]

mod calls;
mod ends;
mod memory;
mod udp;
mod wire;
mod words;

use calls::Calls;
use case_lines::judge;
use omci_link::UdpLink;
use std::io::{self, Read, Write};

fn main(rt: HostRuntime) -> io::Result<()> {
    let mut input = Vec::new(rt.alloc());
    rt.reader().read_to_end(&mut input)?;
    let unit = UdpLink::new(rt.clone()?);
    let manager = UdpLink::new(rt.clone()?);
    let mut calls = Calls::new(rt.alloc(), unit, manager);
    match judge(rt.alloc(), &mut calls, &input) {
        Ok(said) => io::writer(&rt).write_all(said.as_bytes()),
        Err(_) => println!(rt; "no memory"),
    }
}
