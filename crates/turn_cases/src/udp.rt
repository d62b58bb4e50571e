//! Two links over UDP that talk to each other.

use crate::memory::any_answer;
use crate::words::say;
use case_lines::NoMemory;
use omci_link::{Link, UdpLink};
use std::alloc::Global;
use std::net::Net;

/// Addresses on loopback; one that another process holds is passed over.
const ADDRESSES: [&str; 4] = [
    "127.0.0.1:48317",
    "127.0.0.1:49723",
    "127.0.0.1:51839",
    "127.0.0.1:53951",
];

/// Both ends, and the place of the address at which the unit's listened last.
#[derive(Drop)]
pub(crate) struct Pair<R: Net + Clone + Drop> {
    alloc: Global,
    unit: UdpLink<R>,
    manager: UdpLink<R>,
    at: usize,
}

impl<R: Net + Clone + Drop> Pair<R> {
    pub(crate) fn new(alloc: Global, unit: UdpLink<R>, manager: UdpLink<R>) -> Pair<R> {
        Pair {
            alloc,
            unit,
            manager,
            at: 0,
        }
    }

    /// The unit listens at the first of the addresses that is free.
    fn listen(&mut self) -> bool {
        for place in 0..ADDRESSES.len() {
            if self.unit.attach(ADDRESSES[place].as_bytes(), true).is_ok() {
                self.at = place;
                return true;
            }
        }
        false
    }

    /// The manager calls the address at which the unit listens.
    fn call(&mut self) -> bool {
        match ADDRESSES.get(self.at) {
            Some(address) => self.manager.attach(address.as_bytes(), false).is_ok(),
            None => false,
        }
    }

    fn reached(&self, is_reached: bool) -> Result<String, NoMemory> {
        say(self.alloc, if is_reached { "done" } else { "fault" })
    }

    /// The answer to the call that the words name.
    pub(crate) fn answer(&mut self, words: &[&str]) -> Result<String, NoMemory> {
        match *words {
            ["listen"] => {
                let is_reached = self.listen();
                self.reached(is_reached)
            }
            ["call"] => {
                let is_reached = self.call();
                self.reached(is_reached)
            }
            ["unit", ref call @ ..] => any_answer(self.alloc, &mut self.unit, call),
            ["manager", ref call @ ..] => any_answer(self.alloc, &mut self.manager, call),
            _ => say(self.alloc, "no such call"),
        }
    }
}
