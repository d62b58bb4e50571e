//! The turns of a unit that runs.

ghost use Rattle.std.specs.Prelude.{◌≡◌, ◌≤◌, ◌+◌, ℕ, Bool, List, [], length, IfOk, Option, Some};
ghost use Rattle.slot_spec.specs.Slots.{SlotPair};
ghost use Rattle.slot_spec.specs.Layout.{StandsAt};
ghost use Rattle.slot_spec.specs.Crash.{HasLength};
ghost use Rattle.unit_spec.specs.Onu.{Onu};
ghost use Rattle.image_store.specs.declared.state.State.{State as Form};
ghost use Rattle.image_store.specs.Stands.{state_disk};
ghost use Rattle.image_store.specs.Counts.{store_faults};
ghost use Rattle.image_store.specs.Starts.{IsUnit};
ghost use Rattle.onu_agent.specs.State.{AgentStands};
ghost use Rattle.onu_agent.specs.Starts.{given_back};
ghost use Rattle.turn_spec.specs.Arrivals.{Arrival as Given, Came, Quiet};
ghost use Rattle.turn_spec.specs.UnitTurns.{Turn, slots_found};
ghost use Rattle.unit_turns.specs.Running.{UnitRuns, Shown, Before, TookOne};
ghost use Rattle.unit_turns.specs.Ending.{StartComes, StartCausedBy, StartsBare, refusal_status};
ghost use Rattle.unit_turns.specs.Ending.{TurnEnds, TurnCausedBy, RunEnds, CausedBy};
ghost use Rattle.unit_turns.specs.Ending.{DiskCounts, DiskCausedBy};

use crate::ending::{UnitEnd, UnitStatus};
use crate::packets::{PacketFault, answer};
use crate::starting::write_start;
use omci_core::{Boot, MAX_PACKET_BYTES, Sink};
use omci_link::{Arrival, Link};
use onu_agent::{Agent, StartRefusal};
use slot_disk::Disk;
use std::alloc::Global;
use trace_lines::RunFault;

/// A unit that runs: its agent, how many bytes its disk has, and how many lives it has had.
#[derive(Drop)]
pub struct Running<D: Disk> {
    pub agent: Agent<D>,
    pub size: u64,
    pub life: u64,
}

/// The end of a run in which the unit still ran.
pub fn end_of<D: Disk>(status: UnitStatus, unit: Running<D>) -> UnitEnd<D>
    ensures status { result.status ≡ status }
    ensures disk { (state : Form D) → unit.agent.unit.images.state ≡ Some state
        → result.disk ≡ state_disk state }
    ensures count { D.faults result.disk ≡ store_faults D.faults unit.agent.unit.images }
{
    UnitEnd {
        status,
        disk: unit.agent.stop(),
    }
}

/// The end of a run whose unit didn't start.
fn refused<D: Disk>(refusal: StartRefusal<D>) -> UnitEnd<D>
    ensures status { result.status ≡ refusal_status refusal }
    ensures disk { result.disk ≡ given_back refusal }
{
    match refusal {
        StartRefusal::NoUnit { disk, .. } => UnitEnd {
            status: UnitStatus::NoUnit,
            disk,
        },
        StartRefusal::Fault { disk } => UnitEnd {
            status: UnitStatus::DiskFault,
            disk,
        },
        StartRefusal::NoImage { disk, .. } => UnitEnd {
            status: UnitStatus::NoUnit,
            disk,
        },
        StartRefusal::NoMemory { disk } => UnitEnd {
            status: UnitStatus::NoMemory,
            disk,
        },
    }
}

/// Starts the unit on a disk of so many bytes, and writes the line of it.
pub fn start<K: Sink, D: Disk>(
    alloc: Global,
    disk: D,
    size: u64,
    boot: Boot,
    turn: u64,
    life: u64,
    sink: &mut K,
) -> Result<Running<D>, UnitEnd<D>>
    ensures comes { (room : ℕ) (s : SlotPair) (bytes : List ℕ) → D.seen disk ≡ Some bytes
        → size ≡ length bytes → StandsAt room bytes s
        → StartComes D.seen D.may_leave D.clock D.left_since D.rig D.faults result room size turn
        life boot s disk (K.written sink.old) (K.written sink.new) }
    ensures bare { (bytes : List ℕ) → D.seen disk ≡ Some bytes → ¬ IsUnit size bytes
        → StartsBare result × (sink.new ≡ sink.old) }
    ensures lives { IfOk result (λ unit. unit.life ≡ life) }
    ensures cause { StartCausedBy result (K.faults sink.old) (K.faults sink.new) }
    ensures count { DiskCounts D.faults result (D.faults disk) }
{
    let agent = match Agent::start(alloc, disk, size, boot) {
        Ok(agent) => agent,
        Err(refusal) => return Err(refused(refusal)),
    };
    let unit = Running { agent, size, life };
    match write_start(alloc, turn, life, unit.agent.software(), sink) {
        Ok(()) => Ok(unit),
        Err(RunFault::Write) => Err(end_of(UnitStatus::WriteFault, unit)),
        Err(RunFault::NoMemory) => Err(end_of(UnitStatus::NoMemory, unit)),
    }
}

/// A packet comes.
fn packet<D: Disk, L: Link>(
    unit: Running<D>,
    bytes: &[u8],
    link: &mut L,
) -> Result<Running<D>, UnitEnd<D>>
    ensures ends { (room limit turn : ℕ) (s0 : SlotPair) (mounted : D) (turns : List Turn)
        (left0 left : Option (List Given)) (sent0 : Option (List (List ℕ)))
        (written0 written : Option (List ℕ))
        → Before D.seen D.may_leave D.clock D.left_since D.faults room s0 limit mounted unit.agent
        unit.size unit.life turn turns left0 left sent0 (L.sent link.old) written0 written
        → TookOne (Came bytes.now) left (L.left link.old)
        → TurnEnds D.seen D.may_leave D.clock D.left_since D.faults result room s0 limit mounted
        turns left0 (L.left link.new) sent0 (L.sent link.new) written0 written }
    ensures lives { IfOk result (λ next. next.life ≡ unit.life) }
    ensures cause { TurnCausedBy result (L.faults link.old) (L.faults link.new) 0 0 }
    ensures count { DiskCounts D.faults result (store_faults D.faults unit.agent.unit.images) }
{
    let mut unit = unit;
    match answer(&mut unit.agent, bytes, link) {
        Ok(()) => Ok(unit),
        Err(PacketFault::NoMemory) => Err(end_of(UnitStatus::NoMemory, unit)),
        Err(PacketFault::Link) => Err(end_of(UnitStatus::LinkFault, unit)),
    }
}

/// A second passes without a packet. A unit that is leaving then starts again.
fn second<K: Sink, D: Disk>(
    alloc: Global,
    turn: u64,
    unit: Running<D>,
    sink: &mut K,
) -> Result<Running<D>, UnitEnd<D>>
    requires lives { unit.life ≤ turn }
    requires few { turn ≤ 4294967295 }
    ensures ends { (room limit : ℕ) (s0 : SlotPair) (mounted : D) (turns : List Turn)
        (left0 left now : Option (List Given)) (sent0 sent : Option (List (List ℕ)))
        (written0 : Option (List ℕ))
        → Before D.seen D.may_leave D.clock D.left_since D.faults room s0 limit mounted unit.agent
        unit.size unit.life turn turns left0 left sent0 sent written0 (K.written sink.old)
        → TookOne Quiet left now
        → TurnEnds D.seen D.may_leave D.clock D.left_since D.faults result room s0 limit mounted
        turns left0 now sent0 sent written0 (K.written sink.new) }
    ensures lives { IfOk result (λ next. next.life ≤ turn + 1) }
    ensures cause { TurnCausedBy result 0 0 (K.faults sink.old) (K.faults sink.new) }
    ensures count { DiskCounts D.faults result (store_faults D.faults unit.agent.unit.images) }
{
    let mut unit = unit;
    unit.agent.tick();
    match unit.agent.leaving() {
        None => Ok(unit),
        Some(boot) => again(alloc, turn, boot, unit, sink),
    }
}

/// The unit was leaving: it starts again so, in its next life.
fn again<K: Sink, D: Disk>(
    alloc: Global,
    turn: u64,
    boot: Boot,
    unit: Running<D>,
    sink: &mut K,
) -> Result<Running<D>, UnitEnd<D>>
    requires lives { unit.life ≤ turn }
    requires few { turn ≤ 4294967295 }
    ensures comes { (u : Onu) (stands : AgentStands D.seen D.may_leave unit.agent u)
        → HasLength D.may_leave unit.size (state_disk stands.stands.images.state)
        → (made : Bool) × StartComes D.seen D.may_leave D.clock D.left_since D.rig D.faults result
        u.room unit.size turn (unit.life + 1) boot (slots_found made u.store)
        (state_disk stands.stands.images.state) (K.written sink.old) (K.written sink.new) }
    ensures lives { IfOk result (λ next. next.life ≡ unit.life + 1) }
    ensures cause { StartCausedBy result (K.faults sink.old) (K.faults sink.new) }
    ensures count { DiskCounts D.faults result (store_faults D.faults unit.agent.unit.images) }
{
    let size = unit.size;
    let life = unit.life + 1;
    let disk = unit.agent.stop();
    start(alloc, disk, size, boot, turn, life, sink)
}

/// A buffer for the packets that come.
fn new_buffer() -> [u8; MAX_PACKET_BYTES]
    ensures wide { length result ≡ MAX_PACKET_BYTES }
{
    [0; MAX_PACKET_BYTES]
}

/// The next turn, which has that number: what the link gives comes to the unit.
fn next_turn<K: Sink, D: Disk, L: Link>(
    alloc: Global,
    turn: u64,
    unit: Running<D>,
    sink: &mut K,
    link: &mut L,
) -> Result<Running<D>, UnitEnd<D>>
    requires lives { unit.life ≤ turn }
    requires few { turn ≤ 4294967295 }
    ensures ends { (room limit : ℕ) (s0 : SlotPair) (mounted : D) (turns : List Turn)
        (left0 : Option (List Given)) (sent0 : Option (List (List ℕ)))
        (written0 : Option (List ℕ))
        → Before D.seen D.may_leave D.clock D.left_since D.faults room s0 limit mounted unit.agent
        unit.size unit.life turn turns left0 (L.left link.old) sent0 (L.sent link.old) written0
        (K.written sink.old)
        → TurnEnds D.seen D.may_leave D.clock D.left_since D.faults result room s0 limit mounted
        turns left0 (L.left link.new) sent0 (L.sent link.new) written0 (K.written sink.new) }
    ensures lives { IfOk result (λ next. next.life ≤ turn + 1) }
    ensures cause { TurnCausedBy result (L.faults link.old) (L.faults link.new)
        (K.faults sink.old) (K.faults sink.new) }
    ensures count { DiskCounts D.faults result (store_faults D.faults unit.agent.unit.images) }
{
    let mut buffer = new_buffer();
    match link.next(&mut buffer) {
        Err(_) => Err(end_of(UnitStatus::LinkFault, unit)),
        Ok(Arrival::Packet(count)) => packet(unit, &buffer[..count], link),
        Ok(Arrival::Quiet) => second(alloc, turn, unit, sink),
        Ok(Arrival::Closed) => Err(end_of(UnitStatus::Done, unit)),
    }
}

/// Takes so many turns at most, and fewer where the link is closed or the run breaks off.
pub fn run_turns<K: Sink, D: Disk, L: Link>(
    alloc: Global,
    turns: u32,
    unit: Running<D>,
    sink: &mut K,
    link: &mut L,
) -> UnitEnd<D>
    requires first { unit.life ≡ 1 }
    ensures ends { (room : ℕ) (s0 : SlotPair) (mounted : D) (left0 : Option (List Given))
        (sent0 : Option (List (List ℕ))) (written0 : Option (List ℕ))
        → UnitRuns D.seen D.may_leave D.clock D.left_since D.faults room s0 turns mounted
        unit.agent unit.size unit.life []
        → Shown room s0 [] [] [] [] left0 (L.left link.old) sent0 (L.sent link.old) written0
        (K.written sink.old)
        → RunEnds D.seen D.may_leave D.clock D.left_since D.faults result.status room s0 turns
        mounted result.disk left0 (L.left link.new) sent0 (L.sent link.new) written0
        (K.written sink.new) }
    ensures cause { CausedBy result.status (L.faults link.old) (L.faults link.new)
        (K.faults sink.old) (K.faults sink.new) }
    ensures count { DiskCausedBy result.status (store_faults D.faults unit.agent.unit.images)
        (D.faults result.disk) }
{
    let mut unit = unit;
    for turn in 0..turns {
        match next_turn(alloc, turn as u64 + 1, unit, sink, link) {
            Ok(next) => unit = next,
            Err(end) => return end,
        }
    }
    end_of(UnitStatus::Done, unit)
}
