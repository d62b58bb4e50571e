//! A start of the unit, with its line.

ghost use Rattle.world_spec.specs.declared.Effect.TheVariants as effect;
ghost use Rattle.world_spec.specs.Trace.{line_text};
ghost use Rattle.unit_turns.specs.Taking.{WritesLine};

use omci_core::{Sink, Software};
use std::alloc::Global;
use trace_lines::{Lines, RunFault, push_line};
use whole_writes::write_all;
use world_spec::Effect;

/// Writes the line of a unit that starts in a turn, in its so manieth life.
pub fn write_start<K: Sink>(
    alloc: Global,
    turn: u64,
    life: u64,
    software: Software,
    sink: &mut K,
) -> Result<(), RunFault>
    ensures written { WritesLine (line_text turn (effect.UnitStarted life software)) result
        (K.written sink.old) (K.written sink.new) (K.faults sink.old) (K.faults sink.new) }
{
    let mut lines = Lines::new(alloc);
    match push_line(&mut lines, turn, &Effect::UnitStarted { life, software }) {
        Err(_) => return Err(RunFault::NoMemory),
        Ok(()) => {}
    }
    match write_all(sink, lines.bytes()) {
        Err(_) => Err(RunFault::Write),
        Ok(()) => Ok(()),
    }
}
