//! The command `replay`: a script is read whole and run, and its trace is written.

ghost use Rattle.std.specs.Prelude.{◌≡◌, ◌≢◌, ◌++◌, Some, None, OnOk, OnErr, IfOk, IfErr};
ghost use Rattle.std.specs.Io.KnownBytes.{Appends};
ghost use Rattle.world_spec.specs.Nodes.{first_nodes};
ghost use Rattle.world_spec.specs.Trace.{trace};
ghost use Rattle.link_replay.specs.Seen.{WorldStands};
ghost use Rattle.whole_writes.specs.Writing.{WritesFront};
ghost use Rattle.trace_lines.specs.Writing.{EndsRun};
ghost use Rattle.omci_top.specs.Texts.{input_text};
ghost use Rattle.omci_top.specs.Answers.{Ran, Told, Ends, AnswersReplay, StandsAfter};

use crate::status::Status;
use crate::streams::{InputFault, read_whole};
use audit_laws::audits_are_snapshots;
use boot_laws::every_life_boots;
use downloaded_laws::downloads_are_what_was_checked;
use link_replay::World;
use omci_contents::{push_bytes, push_number};
use omci_core::{NoMemory, Sink, Source};
use replay_script::{Script, ScriptRefusal, read};
use resync_laws::copies_are_snapshots;
use std::alloc::Global;
use step_laws::copies_keep_step;
use trace_lines::RunFault;
use whole_writes::write_all;
use world_laws::commands_act_once;

/// How a run of both ends over a script ended: the world that ran its events comes with `Done`
/// alone.
#[derive(Drop)]
pub struct Replayed {
    pub status: Status,
    pub world: Option<World>,
}

/// A run that ended with no world.
pub(crate) fn without_world(status: Status) -> Replayed
    ensures status { result.status ≡ status }
    ensures no_world { result.world ≡ None }
{
    Replayed {
        status,
        world: None,
    }
}

/// Appends the one line of an input that is refused.
#[tactic(auto, unfolding(crate::specs::Texts::input_text))]
fn push_input(out: &mut Vec<u8>, place: u64, reason: u8) -> Result<(), NoMemory>
    ensures text { OnOk result (out.new.items ≡ out.old.items ++ input_text place reason) }
{
    push_bytes(out, b"input ")?;
    push_number(out, place)?;
    push_bytes(out, b" ")?;
    push_number(out, reason as u64)?;
    push_bytes(out, b"\n")
}

/// Writes the one line of an input that is refused.
fn refuse<K: Sink>(alloc: Global, place: u64, reason: u8, sink: &mut K) -> Result<(), RunFault>
    ensures told { OnOk result
        (Appends (K.written sink.old) (K.written sink.new) (input_text place reason)) }
    ensures kept { OnOk result (K.faults sink.new ≡ K.faults sink.old) }
    ensures front { OnErr result
        (WritesFront (input_text place reason) (K.written sink.old) (K.written sink.new)) }
    ensures cause { IfErr result (λ e. EndsRun e (K.faults sink.old) (K.faults sink.new)) }
{
    let mut line = Vec::new(alloc);
    push_input(&mut line, place, reason)?;
    write_all(sink, &line)?;
    Ok(())
}

/// Runs a script over a world that was made for it, and writes its trace.
fn run_over<K: Sink>(world: &mut World, script: &Script, sink: &mut K) -> Status
    requires begun { WorldStands world.old (first_nodes script.now.header) }
    ensures ended { result ≡ Status.Done → StandsAfter script.now (Some world.new) }
    ensures ran { Ran result (trace script.now)
        (K.written sink.old) (K.written sink.new) (K.faults sink.old) (K.faults sink.new) }
{
    match world.run(script, sink) {
        Ok(()) => Status::Done,
        Err(RunFault::NoMemory) => Status::NoMemory,
        Err(RunFault::Write) => Status::WriteFault,
    }
}

/// The world of a run that was done; the world of another run is let go.
fn world_where_done(status: Status, world: World) -> Option<World>
    ensures done { status ≡ Status.Done → result ≡ Some world }
    ensures otherwise { status ≢ Status.Done → result ≡ None }
{
    match status {
        Status::Done => Some(world),
        _ => None,
    }
}

/// Runs a script over both ends, writes its trace, and gives the world that ran it.
fn run_script<K: Sink>(alloc: Global, script: &Script, sink: &mut K) -> Replayed
    ensures ended { result.status ≡ Status.Done → StandsAfter script.now result.world }
    ensures no_world { result.status ≢ Status.Done → result.world ≡ None }
    ensures ran { Ran result.status (trace script.now)
        (K.written sink.old) (K.written sink.new) (K.faults sink.old) (K.faults sink.new) }
{
    match World::new(alloc, script.header()) {
        Ok(mut world) => {
            let status = run_over(&mut world, script, sink);
            Replayed {
                status,
                world: world_where_done(status, world),
            }
        }
        Err(NoMemory) => without_world(Status::NoMemory),
    }
}

/// Says where the input's first fault stands.
pub(crate) fn tell_fault<K: Sink>(alloc: Global, place: u64, reason: u8, sink: &mut K) -> Status
    ensures ran { Told result place reason
        (K.written sink.old) (K.written sink.new) (K.faults sink.old) (K.faults sink.new) }
{
    match refuse(alloc, place, reason, sink) {
        Ok(()) => Status::Input { place, reason },
        Err(RunFault::NoMemory) => Status::NoMemory,
        Err(RunFault::Write) => Status::WriteFault,
    }
}

/// Runs the script that these bytes spell, or says what is wrong with them.
fn answer<K: Sink>(alloc: Global, input: Vec<u8>, sink: &mut K) -> Replayed
    ensures no_world { result.status ≢ Status.Done → result.world ≡ None }
    ensures ends { Ends result.status result.world input.items
        (K.written sink.old) (K.written sink.new) (K.faults sink.old) (K.faults sink.new) }
{
    match read(alloc, &input) {
        Ok(script) => {
            drop(input);
            run_script(alloc, &script, sink)
        }
        Err(ScriptRefusal::Fault { line, reason }) => {
            without_world(tell_fault(alloc, line, reason, sink))
        }
        Err(ScriptRefusal::NoMemory) => without_world(Status::NoMemory),
    }
}

/// Reads a script whole, runs it, and writes its trace.
pub fn replay<S: Source, K: Sink>(alloc: Global, source: &mut S, sink: &mut K) -> Replayed
    ensures answers { AnswersReplay result.status result.world
        (S.left source.old) (S.left source.new) (K.written sink.old) (K.written sink.new)
        (S.faults source.old) (S.faults source.new) (K.faults sink.old) (K.faults sink.new) }
    ensures no_world { result.status ≢ Status.Done → result.world ≡ None }
    ensures read_fault { result.status ≡ Status.ReadFault → sink.new ≡ sink.old }
    ensures too_long { result.status ≡ Status.TooLong → sink.new ≡ sink.old }
{
    commands_act_once();
    copies_are_snapshots();
    copies_keep_step();
    audits_are_snapshots();
    downloads_are_what_was_checked();
    every_life_boots();
    match read_whole(alloc, source) {
        Ok(input) => answer(alloc, input, sink),
        Err(InputFault::Read) => without_world(Status::ReadFault),
        Err(InputFault::TooLong) => without_world(Status::TooLong),
        Err(InputFault::NoMemory) => without_world(Status::NoMemory),
    }
}
