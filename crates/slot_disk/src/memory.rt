//! A disk in memory, whose power can be cut at each call.
ghost use Rattle.std.specs.Prelude.{◌≡◌, ℕ, ◌+◌, ◌≤◌, ◌<◌, if◌then◌else◌, set, List, [], ◌∷◌, ◌++◌};
ghost use Rattle.std.specs.Prelude.{Bool, true, false, length, take, drop, replicate, nat_le};
ghost use Rattle.std.specs.Prelude.{Option, Some, IfOk};
ghost use Rattle.slot_spec.specs.Rig.{with_bytes, power_restored};
ghost use Rattle.slot_disk.specs.Memory.{MayLeave, rig_of, after_step, after_fault, after_begin};
ghost use Rattle.slot_disk.specs.Memory.{after_finish, after_sync, with_marks, with_byte};
ghost use Rattle.slot_disk.specs.Memory.{zero_disk, after_restore, cut_by};

use crate::disk::{Disk, Rig};
use crate::trap::{is_met, meets_fuse, one_call_nearer, pick, without_spent_fuse};
use omci_core::{Failed, NoMemory};
use slot_spec::{Pick, Trap};
use std::alloc::Global;
use std::marker::Model;

/// A disk in memory, of a fixed length. The power can be cut at a call, and a call can be made to
/// fail; a write that ends past the disk fails. Once it was made, no call of it takes memory.
#[derive(Drop)]
pub struct MemDisk {
    bytes: Vec<u8>,
    settled: Vec<u8>,
    newest: Vec<u8>,
    dirty: Vec<bool>,
    trap: Trap,
    faults: u64,
}

impl Model for MemDisk {
    ghost use Rattle.slot_disk.specs.Memory.{MemState, IsDisk};

    ghost Value = { MemState };

    ghost view = { λ m. record {
      bytes = m.bytes.items;
      settled = m.settled.items;
      newest = m.newest.items;
      dirty = m.dirty.items;
      trap = m.trap;
      faults = m.faults;
    } };

    ghost invariant = { λ m. IsDisk
        (record {
          bytes = m.bytes.items;
          settled = m.settled.items;
          newest = m.newest.items;
          dirty = m.dirty.items;
          trap = m.trap;
          faults = m.faults;
        }) };
}

impl MemDisk {
    // The trap comes one call nearer.
    fn step(&mut self)
        ensures state { self.new ≡ after_step self.old }
    {
        self.trap = one_call_nearer(self.trap);
    }

    fn count_fault(&mut self)
        ensures state { self.new ≡ after_fault self.old }
    {
        self.faults = self.faults.saturating_add(1);
    }

    // A write begins: a cut may leave its bytes, and a read still gives those that were there.
    fn begin(&mut self, at: usize, from: &[u8])
        requires within { at + length from.now ≤ length self.old.bytes }
        ensures state { self.new ≡ after_begin at from.now self.old }
    {
        overwrite(&mut self.newest, at, from);
        mark(&mut self.dirty, at, from.len());
    }

    // A read gives the bytes of a write that has begun.
    fn finish(&mut self, at: usize, from: &[u8])
        requires within { at + length from.now ≤ length self.old.bytes }
        requires dirty { take (length from.now) (drop at self.old.dirty)
            ≡ replicate (length from.now) true }
        ensures state { self.new ≡ after_finish at from.now self.old }
    {
        overwrite(&mut self.bytes, at, from);
    }

    // All bytes are those that a read gives.
    fn settle(&mut self)
        ensures state { self.new ≡ after_sync self.old }
    {
        self.settled.copy_from_slice(&self.bytes);
        self.newest.copy_from_slice(&self.bytes);
        self.dirty.fill(false);
    }

    // All bytes are those that a cut leaves, with nothing pending.
    fn take_cut(&mut self)
        ensures state { self.new ≡ after_restore self.old }
    {
        cut(
            &mut self.bytes,
            &self.settled,
            &self.newest,
            &self.dirty,
            pick(self.trap),
        );
        self.settled.copy_from_slice(&self.bytes);
        self.newest.copy_from_slice(&self.bytes);
        self.dirty.fill(false);
        self.trap = without_spent_fuse(self.trap);
    }

    // The range of so many bytes lies within the disk.
    fn holds(&self, at: u64, count: usize) -> bool
        ensures inside { result ≡ nat_le (at + count) (length self.now.bytes) }
    {
        let size = self.bytes.len() as u64;
        at <= size && count as u64 <= size - at
    }
}

// Puts bytes in the place of others.
fn overwrite(items: &mut Vec<u8>, at: usize, from: &[u8])
    requires within { at + length from.now ≤ length items.old.items }
    ensures bytes { items.new.items ≡ with_bytes at from.now items.old.items }
{
    items[at..at + from.len()].copy_from_slice(from);
}

// Marks places as written.
fn mark(items: &mut Vec<bool>, at: usize, count: usize)
    requires within { at + count ≤ length items.old.items }
    ensures marks { items.new.items ≡ with_marks at count items.old.items }
{
    items[at..at + count].fill(true);
}

#[tactic(auto, unfolding(slot_spec::specs::Rig::after_calls, slot_spec::specs::Rig::calls_fail))]
impl Disk for MemDisk {
    ghost use Rattle.slot_disk.specs.Memory.{cut_counts_of, leaves_seen_of, rig_reads_of};

    ghost seen = { λ m. Some m.bytes };

    ghost may_leave = { MayLeave };

    ghost left_since = { λ m time image. MayLeave m image };

    ghost clock = { λ m. 0 };

    ghost rig = { λ m. Some (rig_of m) };

    ghost faults = { λ m. m.faults };

    ghost rig_reads = { rig_reads_of };

    ghost cut_counts = { cut_counts_of };

    ghost leaves_seen = { leaves_seen_of };

    ghost counts_now = { λ m time image le now. now };

    ghost only_now = { λ m image left. left };

    fn attach(&mut self, name: &[u8]) -> Result<u64, Failed> {
        let stops = is_met(self.trap);
        self.step();
        if stops {
            self.count_fault();
            return Err(Failed);
        }
        Ok(self.bytes.len() as u64)
    }

    fn read_at(&mut self, at: u64, into: &mut [u8]) -> Result<(), Failed> {
        let stops = is_met(self.trap);
        self.step();
        if stops || !self.holds(at, into.len()) {
            self.count_fault();
            return Err(Failed);
        }
        let at = at as usize;
        into.copy_from_slice(&self.bytes[at..at + into.len()]);
        Ok(())
    }

    fn write_at(&mut self, at: u64, from: &[u8]) -> Result<(), Failed> {
        let stops = is_met(self.trap);
        let fuse = meets_fuse(self.trap);
        self.step();
        if !self.holds(at, from.len()) {
            self.count_fault();
            return Err(Failed);
        }
        if !stops {
            self.begin(at as usize, from);
            self.finish(at as usize, from);
            return Ok(());
        }
        if fuse {
            self.begin(at as usize, from);
            self.count_fault();
            return Err(Failed);
        }
        self.count_fault();
        Err(Failed)
    }

    fn sync(&mut self) -> Result<(), Failed> {
        let stops = is_met(self.trap);
        self.step();
        if stops {
            self.count_fault();
            return Err(Failed);
        }
        self.settle();
        Ok(())
    }
}

impl Rig for MemDisk {
    ghost use Rattle.std.specs.Prelude.{refl};

    ghost tells = { λ disk. refl };

    fn rig(&mut self, trap: Trap) {
        match trap {
            Trap::Fuse { call, pick } => self.fuse(call, pick),
            Trap::Fail { call } => self.fail_at(call),
            Trap::Clear => self.disarm(),
        }
    }
}

impl MemDisk {
    /// A disk of zeros. `NoMemory` where there is no room for it.
    pub fn new(alloc: Global, length: u64) -> Result<MemDisk, NoMemory>
        ensures state { IfOk result (λ disk. disk ≡ zero_disk length) }
    {
        let size = match usize::try_from(length) {
            Ok(size) => size,
            Err(_) => return Err(NoMemory),
        };
        let bytes = vec![in alloc; 0u8; size]?;
        let settled = vec![in alloc; 0u8; size]?;
        let newest = vec![in alloc; 0u8; size]?;
        let dirty = vec![in alloc; false; size]?;
        Ok(MemDisk {
            bytes,
            settled,
            newest,
            dirty,
            trap: Trap::Clear,
            faults: 0,
        })
    }

    /// Stops the power at this call from now on.
    pub fn fuse(&mut self, call: u64, pick: Pick)
        requires counted { 1 ≤ call }
        ensures state { self.new ≡ record self.old { trap = Trap.Fuse call pick } }
    {
        self.trap = Trap::Fuse { call, pick };
    }

    /// Makes this call fail, counted from now on.
    pub fn fail_at(&mut self, call: u64)
        requires counted { 1 ≤ call }
        ensures state { self.new ≡ record self.old { trap = Trap.Fail call } }
    {
        self.trap = Trap::Fail { call };
    }

    /// The power comes back: each byte that was written since the last sync is as the fuse's pick
    /// says, or new where there is no fuse. A cut then leaves what a read gives. A fuse that was
    /// reached is taken away; any other trap stays.
    pub fn restore(&mut self)
        ensures state { self.new ≡ after_restore self.old }
        ensures rig { rig_of self.new ≡ power_restored (rig_of self.old) }
        ensures left { (image : List ℕ) → MayLeave self.new image → MayLeave self.old image }
    {
        self.take_cut();
    }

    /// Takes the trap away.
    pub fn disarm(&mut self)
        ensures state { self.new ≡ record self.old { trap = Trap.Clear } }
    {
        self.trap = Trap::Clear;
    }
}

// The bytes that a cut with this pick leaves.
fn cut(bytes: &mut Vec<u8>, settled: &Vec<u8>, newest: &Vec<u8>, marks: &Vec<bool>, pick: Pick)
    requires settled { length settled.now.items ≡ length bytes.old.items }
    requires newest { length newest.now.items ≡ length bytes.old.items }
    requires marks { length marks.now.items ≡ length bytes.old.items }
    ensures cut { bytes.new.items ≡ cut_by settled.now.items newest.now.items marks.now.items pick }
    ensures len { length bytes.new.items ≡ length bytes.old.items }
{
    match pick {
        Pick::Old => bytes.copy_from_slice(settled),
        Pick::New => bytes.copy_from_slice(newest),
        Pick::Byte(byte) => {
            bytes.copy_from_slice(settled);
            fill_marked(bytes, marks, byte);
        }
    }
}

// This byte stands in each marked place.
fn fill_marked(bytes: &mut Vec<u8>, marks: &Vec<bool>, byte: u8)
    requires marks { length marks.now.items ≡ length bytes.old.items }
    ensures bytes { bytes.new.items ≡ with_byte byte marks.now.items bytes.old.items }
    ensures len { length bytes.new.items ≡ length bytes.old.items }
{
    for place in 0..marks.len() {
        put_if(bytes, place, marks[place], byte);
    }
}

fn put_if(bytes: &mut Vec<u8>, place: usize, marked: bool, byte: u8)
    requires within { place < length bytes.old.items }
    ensures put { bytes.new.items
        ≡ (if marked then set bytes.old.items place byte else bytes.old.items) }
    ensures len { length bytes.new.items ≡ length bytes.old.items }
{
    if marked {
        bytes[place] = byte;
    }
}
