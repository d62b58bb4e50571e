//! Image slots and the unit's store by the lines of the input: a call of `image_slots` or
//! `image_store` on each line, and the answer that is wanted. It writes each line that has another
//! answer, and how many there were.
#![tactic(auto)]

mod calls;
mod cuts;
mod held;
mod said;
mod slots;
mod store;

use calls::Calls;
use case_lines::judge;
use slot_disk::FileDisk;
use std::io::{self, Read, Write};

fn main(rt: HostRuntime) -> io::Result<()> {
    let mut input = Vec::new(rt.alloc());
    rt.reader().read_to_end(&mut input)?;
    let mut calls = Calls::new(rt.alloc(), rt.clone()?, FileDisk::new(rt.clone()?));
    match judge(rt.alloc(), &mut calls, &input) {
        Ok(said) => io::writer(&rt).write_all(said.as_bytes()),
        Err(_) => println!(rt; "no memory"),
    }
}
