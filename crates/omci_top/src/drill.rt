//! The command `drill`: a script is made from a number and run, and one line sums its trace up.

ghost use Rattle.std.specs.Prelude.{◌≡◌, ◌≢◌, None};
ghost use Rattle.omci_top.specs.Drills.{AnswersDrill};

use crate::replay::{Replayed, without_world};
use crate::status::Status;
use omci_core::Sink;
use std::alloc::Global;
use trace_lines::RunFault;

/// Runs the drill of this number over both ends, and writes its line.
pub fn drill<K: Sink>(alloc: Global, seed: u32, sink: &mut K) -> Replayed
    ensures answers { AnswersDrill result.status result.world seed
        (K.written sink.old) (K.written sink.new) (K.faults sink.old) (K.faults sink.new) }
    ensures no_world { result.status ≢ Status.Done → result.world ≡ None }
{
    match drill_run::drill(alloc, seed, sink) {
        Ok(world) => Replayed {
            status: Status::Done,
            world: Some(world),
        },
        Err(RunFault::NoMemory) => without_world(Status::NoMemory),
        Err(RunFault::Write) => without_world(Status::WriteFault),
    }
}
