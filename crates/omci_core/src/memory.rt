//! Sources and sinks in memory, whose failing calls are chosen when they are made.

ghost use Rattle.std.specs.Prelude.{◌≡◌, ◌↔◌, ◌+◌, ◌-◌, ◌<◌, ◌≤◌, ◌++◌, [], min, length, take, drop, Some, MatchResult, IfOk, OnErr, IsErr, IsTrue};
ghost use Rattle.std.specs.Io.{ReadsAtMost, WritesAtMost};
ghost use Rattle.std.specs.Io.KnownBytes.{ReadConsumes, WriteAppends};
ghost use Rattle.omci_core.specs.Causes.{HasCause};
ghost use Rattle.omci_core.specs.Memory.{source_fails, source_taken, source_failed, sink_fails, sink_wrote, sink_failed};

use crate::arrays::put_at;
use crate::errors::{Failed, NoMemory};
use crate::outside::{Sink, Source};
use std::alloc::Global;
use std::marker::Model;

/// A source over bytes in memory. Its calls are counted from 1, and those that the list of fails
/// names fail.
#[derive(Debug, Drop)]
pub struct MemSource {
    bytes: Vec<u8>,
    place: usize,
    fails: Vec<u64>,
    calls: u64,
    faults: u64,
}

impl Model for MemSource {
    ghost use Rattle.std.specs.Prelude.{◌≤◌, length, drop};
    ghost use Rattle.omci_core.specs.Memory.{SourceState};

    ghost Value = { SourceState };

    ghost view = { λ s. record {
      left = drop s.place s.bytes.items;
      calls = s.calls;
      fails = s.fails.items;
      faults = s.faults;
    } };

    ghost invariant = { λ s. s.place ≤ length s.bytes.items };
}

impl MemSource {
    /// A source that gives these bytes and fails at these calls.
    pub fn new(bytes: Vec<u8>, fails: Vec<u64>) -> MemSource
        ensures left { result.left ≡ bytes.items }
        ensures calls { result.calls ≡ 0 }
        ensures fails { result.fails ≡ fails.items }
        ensures faults { result.faults ≡ 0 }
    {
        MemSource {
            bytes,
            place: 0,
            fails,
            calls: 0,
            faults: 0,
        }
    }
}

impl Source for MemSource {
    ghost left = { λ s. Some s.left };

    ghost faults = { λ s. s.faults };

    fn read(&mut self, into: &mut [u8]) -> Result<usize, Failed>
        ensures bound { ReadsAtMost result into.new }
        ensures bytes { ReadConsumes (Some self.old.left) (Some self.new.left) result into.new }
        ensures cause { HasCause self.old.faults self.new.faults result }
        ensures fault { IsErr result ↔ IsTrue (source_fails self.old) }
        ensures count { IfOk result (λ n. n ≡ min (length self.old.left) (length into.old)) }
        ensures copied { IfOk result (λ n. into.new ≡ take n self.old.left ++ drop n into.old) }
        ensures untouched { OnErr result (into.new ≡ into.old) }
        ensures after { MatchResult result (λ n. self.new ≡ source_taken n self.old)
            (λ _. self.new ≡ source_failed self.old) }
    {
        self.calls = self.calls.saturating_add(1);
        if self.fails.contains(&self.calls) {
            self.faults = self.faults.saturating_add(1);
            return Err(Failed);
        }
        let count = copy_out(&self.bytes, self.place, into);
        self.place += count;
        Ok(count)
    }
}

/// Copies the bytes of `from` from the place `at` on, as many as there is room for, and answers how
/// many.
fn copy_out(from: &[u8], at: usize, into: &mut [u8]) -> usize
    requires { at ≤ length from.now }
    ensures count { result ≡ min (length from.now - at) (length into.old) }
    ensures rest { drop at from.now ≡ take result into.new ++ drop (at + result) from.now }
    ensures copied { into.new ≡ take result (drop at from.now) ++ drop result into.old }
{
    copy_front(&from[at..], into)
}

/// Copies as much of the front of `from` as there is room for, and answers how many bytes.
fn copy_front(from: &[u8], into: &mut [u8]) -> usize
    ensures count { result ≡ min (length from.now) (length into.old) }
    ensures front { take result into.new ≡ take result from.now }
    ensures copied { into.new ≡ take result from.now ++ drop result into.old }
{
    let count = from.len().min(into.len());
    put_at(into, 0, &from[..count]);
    count
}

/// A sink in memory with room for so many bytes. Its calls are counted from 1; one fails where the
/// list of fails names it or where no room is left.
#[derive(Debug, Drop)]
pub struct MemSink {
    bytes: Vec<u8>,
    place: usize,
    fails: Vec<u64>,
    calls: u64,
    faults: u64,
}

impl Model for MemSink {
    ghost use Rattle.std.specs.Prelude.{◌≤◌, length, take};
    ghost use Rattle.omci_core.specs.Memory.{SinkState};

    ghost Value = { SinkState };

    ghost view = { λ s. record {
      written = take s.place s.bytes.items;
      room = length s.bytes.items;
      calls = s.calls;
      fails = s.fails.items;
      faults = s.faults;
    } };

    ghost invariant = { λ s. s.place ≤ length s.bytes.items };
}

impl MemSink {
    /// A sink with room for `room` bytes that fails at these calls. `NoMemory` where there is no
    /// memory for the room.
    pub fn new(alloc: Global, room: usize, fails: Vec<u64>) -> Result<MemSink, NoMemory>
        ensures written { IfOk result (λ sink. sink.written ≡ []) }
        ensures room { IfOk result (λ sink. sink.room ≡ room) }
        ensures calls { IfOk result (λ sink. sink.calls ≡ 0) }
        ensures fails { IfOk result (λ sink. sink.fails ≡ fails.items) }
        ensures faults { IfOk result (λ sink. sink.faults ≡ 0) }
    {
        let bytes = vec![in alloc; 0u8; room]?;
        Ok(MemSink {
            bytes,
            place: 0,
            fails,
            calls: 0,
            faults: 0,
        })
    }

    /// The bytes that were written.
    pub fn bytes(&self) -> &[u8]
        ensures value { result.now ≡ self.now.written }
        ensures bound { length self.now.written ≤ self.now.room }
    {
        &self.bytes[..self.place]
    }
}

impl Sink for MemSink {
    ghost written = { λ s. Some s.written };

    ghost faults = { λ s. s.faults };

    fn write(&mut self, from: &[u8]) -> Result<usize, Failed>
        ensures bound { WritesAtMost result from.now }
        ensures some { 0 < length from.now → IfOk result (λ n. 0 < n) }
        ensures bytes { WriteAppends (Some self.old.written) (Some self.new.written) result
            from.now }
        ensures cause { HasCause self.old.faults self.new.faults result }
        ensures fault { IsErr result ↔ IsTrue (sink_fails self.old) }
        ensures count { IfOk result
            (λ n. n ≡ min (length from.now) (self.old.room - length self.old.written)) }
        ensures after { MatchResult result (λ n. self.new ≡ sink_wrote (take n from.now) self.old)
            (λ _. self.new ≡ sink_failed self.old) }
    {
        self.calls = self.calls.saturating_add(1);
        if self.fails.contains(&self.calls) || self.place == self.bytes.len() {
            self.faults = self.faults.saturating_add(1);
            return Err(Failed);
        }
        let count = copy_in(from, &mut self.bytes, self.place);
        self.place += count;
        Ok(count)
    }
}

/// Copies as much of the front of `from` as there is room for from the place `at` on, and answers
/// how many bytes.
fn copy_in(from: &[u8], into: &mut [u8], at: usize) -> usize
    requires { at ≤ length into.old }
    ensures count { result ≡ min (length from.now) (length into.old - at) }
    ensures front { take (at + result) into.new ≡ take at into.old ++ take result from.now }
    ensures len { length into.new ≡ length into.old }
{
    let count = from.len().min(into.len() - at);
    put_at(into, at, &from[..count]);
    count
}
