//! The whole drill, and its one line.

ghost use Rattle.std.specs.Prelude.{◌≡◌, ◌+◌, ◌<◌, ◌^◌, ◌++◌, List, OnOk, OnErr, IfOk, IfErr, codes};
ghost use Rattle.std.specs.Io.KnownBytes.{Appends};
ghost use Rattle.script_spec.specs.Script.{Action};
ghost use Rattle.world_spec.specs.Nodes.{first_nodes};
ghost use Rattle.link_replay.specs.Seen.{WorldStands};
ghost use Rattle.whole_writes.specs.Writing.{WritesFront};
ghost use Rattle.trace_lines.specs.Writing.{EndsRun};
ghost use Rattle.drill_spec.specs.declared.TheConstants.{STEPS};
ghost use Rattle.drill_spec.specs.Drill.{drill_header, state_after, step_lines, lines_after, lines_until};
ghost use Rattle.drill_spec.specs.Summary.{number_text, counts_text, drill_nodes, drill_summary};
ghost use Rattle.drill_run.specs.Drilled.{Drilled, DrilledSome};

use crate::events::Events;
use crate::runs::{Runs, first_header};
use crate::steps::{push_after, push_first, push_step};
use crate::tally::Tally;
use drill_spec::{Counts, STEPS};
use link_replay::World;
use omci_contents::{push_bytes, push_number};
use omci_core::{NoMemory, Sink};
use std::alloc::Global;
use trace_lines::RunFault;
use whole_writes::write_all;

// Appends a number after a word.
fn push_number_after(out: &mut Vec<u8>, word: &[u8], number: u64) -> Result<(), NoMemory>
    ensures text { OnOk result (out.new.items ≡ out.old.items ++ number_text word.now number) }
{
    push_bytes(out, word)?;
    push_number(out, number)
}

// Appends the line of a drill with that number and so many events, whose trace has these counts.
#[tactic(auto, unfolding(drill_spec::specs::Summary::counts_text))]
fn push_counts(out: &mut Vec<u8>, number: u32, events: u64, counts: Counts) -> Result<(), NoMemory>
    ensures text { OnOk result (out.new.items ≡ out.old.items ++ counts_text number events counts) }
{
    push_number_after(out, b"drill ", u64::from(number))?;
    push_number_after(out, b" events ", events)?;
    push_number_after(out, b" sent ", counts.sent)?;
    push_number_after(out, b" carried ", counts.carried)?;
    push_number_after(out, b" kept ", counts.kept)?;
    push_number_after(out, b" took ", counts.took)?;
    push_number_after(out, b" synced ", counts.synced)?;
    push_number_after(out, b" refused ", counts.refused)?;
    push_bytes(out, b"\n")
}

// Runs the lines of the step after so many steps, before which that is the state of the draws, and
// answers the state after it.
fn run_step(
    steps: u64,
    state: u32,
    events: &mut Events,
    runs: &mut Runs,
    world: &mut World,
) -> Result<u32, NoMemory>
    requires some { steps < STEPS }
    requires few { DrilledSome (2 ^ 32) world.old runs.old.tally }
    ensures drilled { OnOk result ((done : List Action) → Drilled done world.old runs.old.tally
        → Drilled (done ++ (step_lines state ++ lines_after (steps + 1)))
        world.new runs.new.tally) }
    ensures state { IfOk result (λ after. after ≡ state_after (state_after state)) }
{
    events.clear();
    let after = push_step(state, events)?;
    push_after(steps + 1, events)?;
    runs.run(events, world)?;
    Ok(after)
}

// Runs all lines of the drill with that number on a world that has just started, and answers what
// was counted of their trace.
fn run_all(alloc: Global, number: u32, world: &mut World) -> Result<Tally, NoMemory>
    requires first { WorldStands world.old (first_nodes drill_header) }
    ensures drilled { IfOk result (λ tally. Drilled (lines_until number STEPS) world.new tally) }
{
    let mut runs = Runs::new(alloc, world)?;
    let mut events = Events::new(alloc);
    push_first(&mut events)?;
    runs.run(&events, world)?;
    let mut state = number;
    for steps in 0..STEPS {
        state = run_step(steps, state, &mut events, &mut runs, world)?;
    }
    Ok(runs.tally)
}

// Runs all lines of the drill with that number on a world that has just started, and makes the line
// that sums their trace up.
fn sum_up(alloc: Global, number: u32, world: &mut World) -> Result<Vec<u8>, NoMemory>
    requires first { WorldStands world.old (first_nodes drill_header) }
    ensures ended { OnOk result (WorldStands world.new (drill_nodes number)) }
    ensures text { IfOk result (λ line. line.items ≡ drill_summary number) }
{
    let tally = run_all(alloc, number, world)?;
    let mut line = Vec::new(alloc);
    push_counts(&mut line, number, world.events(), tally.counts())?;
    Ok(line)
}

// Runs all lines of the drill with that number on a world that has just started, and writes the
// line that sums their trace up.
fn write_summary<K: Sink>(
    alloc: Global,
    number: u32,
    world: &mut World,
    sink: &mut K,
) -> Result<(), RunFault>
    requires first { WorldStands world.old (first_nodes drill_header) }
    ensures ended { OnOk result (WorldStands world.new (drill_nodes number)) }
    ensures told { OnOk result
        (Appends (K.written sink.old) (K.written sink.new) (drill_summary number)) }
    ensures kept { OnOk result (K.faults sink.new ≡ K.faults sink.old) }
    ensures front { OnErr result
        (WritesFront (drill_summary number) (K.written sink.old) (K.written sink.new)) }
    ensures cause { IfErr result (λ e. EndsRun e (K.faults sink.old) (K.faults sink.new)) }
{
    let line = sum_up(alloc, number, world)?;
    write_all(sink, &line)?;
    Ok(())
}

// A world that the drill's header has just started.
fn first_world(alloc: Global) -> Result<World, NoMemory>
    ensures first { IfOk result (λ world. WorldStands world (first_nodes drill_header)) }
{
    let header = first_header(alloc)?;
    World::new(alloc, &header)
}

/// Runs the drill with this number over both ends, writes the one line that sums its trace up, and
/// gives the world that ran it. `NoMemory` where memory ran out; `Write` where the sink failed, and
/// then a front of the line was written.
pub fn drill<K: Sink>(alloc: Global, number: u32, sink: &mut K) -> Result<World, RunFault>
    ensures ended { IfOk result (λ world. WorldStands world (drill_nodes number)) }
    ensures told { OnOk result
        (Appends (K.written sink.old) (K.written sink.new) (drill_summary number)) }
    ensures kept { OnOk result (K.faults sink.new ≡ K.faults sink.old) }
    ensures front { OnErr result
        (WritesFront (drill_summary number) (K.written sink.old) (K.written sink.new)) }
    ensures cause { IfErr result (λ e. EndsRun e (K.faults sink.old) (K.faults sink.new)) }
{
    let mut world = first_world(alloc)?;
    write_summary(alloc, number, &mut world, sink)?;
    Ok(world)
}
