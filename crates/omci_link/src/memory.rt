//! A link in memory, whose failing calls are chosen when it is made.

ghost use Rattle.std.specs.Prelude.{◌≡◌, ◌↔◌, ◌<◌, ◌≤◌, [], ◌∷◌, ◌++◌, nat_le, map, length};
ghost use Rattle.std.specs.Prelude.{slice_get, Some, MatchResult, IfOk, OnErr, IsErr, IsTrue};
ghost use Rattle.omci_core.specs.Causes.{HasCause};
ghost use Rattle.turn_spec.specs.Arrivals.{next_arrival, later_arrivals};
ghost use Rattle.omci_link.specs.Arrivals.{arrived, HasPacketBound, IsFirst};
ghost use Rattle.omci_link.specs.Arrivals.{left_after, sent_after};
ghost use Rattle.omci_link.specs.Memory.{arrival_of, call_fails, send_fails, after_call};
ghost use Rattle.omci_link.specs.Memory.{after_fault, link_failed, link_took, link_sent};

use crate::arrival::{Arrival, MemArrival};
use crate::link::Link;
use omci_core::{Failed, MAX_PACKET_BYTES, NoMemory, Packet, put_at};
use std::alloc::Global;
use std::marker::Model;

/// A link in memory: it gives these arrivals and then its end, and has room for so many packets
/// that are sent. Its calls are counted from 1, those of all methods together; one fails where the
/// list of fails names it, and one of `send` also where no room is left. Once it was made, no call
/// of it takes memory.
#[derive(Debug, Drop)]
pub struct MemLink {
    arrivals: Vec<MemArrival>,
    place: usize,
    packets: Vec<Packet>,
    count: usize,
    fails: Vec<u64>,
    calls: u64,
    faults: u64,
}

impl Model for MemLink {
    ghost use Rattle.std.specs.Prelude.{◌≤◌, length, map, drop, take};
    ghost use Rattle.omci_link.specs.Memory.{LinkState, arrival_of};

    ghost Value = { LinkState };

    ghost view = { λ m. record {
      left = map arrival_of (drop m.place m.arrivals.items);
      sent = take m.count m.packets.items;
      room = length m.packets.items;
      calls = m.calls;
      fails = m.fails.items;
      faults = m.faults;
    } };

    ghost invariant = { λ m. (m.place ≤ length m.arrivals.items)
        × (m.count ≤ length m.packets.items) };
}

impl MemLink {
    /// A link that gives these arrivals, has room for `room` packets that are sent and fails at
    /// these calls. `NoMemory` where there is no memory for the room.
    pub fn new(
        alloc: Global,
        arrivals: Vec<MemArrival>,
        room: usize,
        fails: Vec<u64>,
    ) -> Result<MemLink, NoMemory>
        ensures left { IfOk result (λ link. link.left ≡ map arrival_of arrivals.items) }
        ensures sent { IfOk result (λ link. link.sent ≡ []) }
        ensures room { IfOk result (λ link. link.room ≡ room) }
        ensures calls { IfOk result (λ link. link.calls ≡ 0) }
        ensures fails { IfOk result (λ link. link.fails ≡ fails.items) }
        ensures faults { IfOk result (λ link. link.faults ≡ 0) }
    {
        let packets = empty_packets(alloc, room)?;
        Ok(MemLink {
            arrivals,
            place: 0,
            packets,
            count: 0,
            fails,
            calls: 0,
            faults: 0,
        })
    }

    /// How many packets were sent.
    pub fn sent(&self) -> usize
        ensures value { result ≡ length self.now.sent }
    {
        self.count
    }

    /// The packet that was sent at this place, counted from 0.
    pub fn sent_packet(&self, place: usize) -> &Packet
        requires { place < length self.now.sent }
        ensures value { slice_get self.now.sent place ≡ Some result.now }
    {
        &self.packets[place]
    }

    // Counts a call, and answers whether the list of fails names it.
    fn count_call(&mut self) -> bool
        ensures named { result ≡ call_fails self.old }
        ensures state { self.new ≡ after_call self.old }
    {
        self.calls = self.calls.saturating_add(1);
        self.fails.contains(&self.calls)
    }

    // Counts a fault.
    fn count_fault(&mut self)
        ensures state { self.new ≡ after_fault self.old }
        ensures later { self.old.faults ≤ self.new.faults }
    {
        self.faults = self.faults.saturating_add(1);
    }

    // Whether there is no room for a packet.
    fn is_full(&self) -> bool
        ensures full { result ≡ nat_le self.now.room (length self.now.sent) }
    {
        self.count == self.packets.len()
    }

    // Takes the first arrival left.
    fn take(&mut self, into: &mut [u8]) -> Arrival
        requires { MAX_PACKET_BYTES ≤ length into.old }
        ensures bound { HasPacketBound result }
        ensures first { arrived result into.new ≡ next_arrival self.old.left }
        ensures state { self.new ≡ record self.old { left = later_arrivals self.old.left } }
    {
        if self.place == self.arrivals.len() {
            return Arrival::Closed;
        }
        let answer = put_arrival(&self.arrivals[self.place], into);
        self.place += 1;
        answer
    }

    // Adds a packet of these bytes to those sent.
    fn keep(&mut self, bytes: &[u8])
        requires short { length bytes.now ≤ MAX_PACKET_BYTES }
        requires room { length self.old.sent < self.old.room }
        ensures state { self.new ≡ record self.old { sent = self.old.sent ++ bytes.now ∷ [] } }
    {
        self.packets[self.count].put(bytes);
        self.count += 1;
    }
}

// So many packets of no bytes.
fn empty_packets(alloc: Global, count: usize) -> Result<Vec<Packet>, NoMemory>
    ensures count { IfOk result (λ packets. length packets.items ≡ count) }
{
    let mut packets = Vec::new(alloc);
    while packets.len() < count {
        packets.push(Packet::new())?;
    }
    Ok(packets)
}

// What a link answers for what is to come, once its packet stands at the buffer's front.
fn put_arrival(arrival: &MemArrival, into: &mut [u8]) -> Arrival
    requires { MAX_PACKET_BYTES ≤ length into.old }
    ensures bound { HasPacketBound result }
    ensures arrival { arrived result into.new ≡ arrival_of arrival.now }
{
    match arrival {
        MemArrival::Packet(packet) => {
            put_at(into, 0, packet.bytes());
            Arrival::Packet(packet.len())
        }
        MemArrival::Quiet => Arrival::Quiet,
        MemArrival::Closed => Arrival::Closed,
    }
}

impl Link for MemLink {
    ghost left = { λ m. Some m.left };

    ghost sent = { λ m. Some m.sent };

    ghost faults = { λ m. m.faults };

    fn attach(&mut self, address: &[u8], listens: bool) -> Result<(), Failed>
        ensures left { Some self.new.left ≡ Some self.old.left }
        ensures sent { Some self.new.sent ≡ Some self.old.sent }
        ensures cause { HasCause self.old.faults self.new.faults result }
        ensures fault { IsErr result ↔ IsTrue (call_fails self.old) }
        ensures after { MatchResult result (λ _. self.new ≡ after_call self.old)
            (λ _. self.new ≡ link_failed self.old) }
    {
        if self.count_call() {
            self.count_fault();
            return Err(Failed);
        }
        Ok(())
    }

    fn next(&mut self, into: &mut [u8]) -> Result<Arrival, Failed>
        requires { MAX_PACKET_BYTES ≤ length into.old }
        ensures bound { IfOk result (λ answer. HasPacketBound answer) }
        ensures first { IfOk result
            (λ answer. IsFirst (Some self.old.left) (arrived answer into.new)) }
        ensures left { MatchResult result
            (λ _. Some self.new.left ≡ left_after (Some self.old.left))
            (λ _. Some self.new.left ≡ Some self.old.left) }
        ensures sent { Some self.new.sent ≡ Some self.old.sent }
        ensures cause { HasCause self.old.faults self.new.faults result }
        ensures fault { IsErr result ↔ IsTrue (call_fails self.old) }
        ensures untouched { OnErr result (into.new ≡ into.old) }
        ensures after { MatchResult result (λ _. self.new ≡ link_took self.old)
            (λ _. self.new ≡ link_failed self.old) }
    {
        if self.count_call() {
            self.count_fault();
            return Err(Failed);
        }
        Ok(self.take(into))
    }

    fn send(&mut self, bytes: &[u8]) -> Result<(), Failed>
        requires { length bytes.now ≤ MAX_PACKET_BYTES }
        ensures left { Some self.new.left ≡ Some self.old.left }
        ensures sent { MatchResult result
            (λ _. Some self.new.sent ≡ sent_after bytes.now (Some self.old.sent))
            (λ _. Some self.new.sent ≡ Some self.old.sent) }
        ensures cause { HasCause self.old.faults self.new.faults result }
        ensures fault { IsErr result ↔ IsTrue (send_fails self.old) }
        ensures after { MatchResult result (λ _. self.new ≡ link_sent bytes.now self.old)
            (λ _. self.new ≡ link_failed self.old) }
    {
        if self.count_call() || self.is_full() {
            self.count_fault();
            return Err(Failed);
        }
        self.keep(bytes);
        Ok(())
    }
}
