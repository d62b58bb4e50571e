//! The commands `meter` and `capture`: a text is read whole, and what is made of it is
//! written.

ghost use Rattle.std.specs.Prelude.{◌≡◌};
ghost use Rattle.line_words.specs.Answers.{GivesScript};
ghost use Rattle.omci_top.specs.Answers.{Ran};
ghost use Rattle.omci_top.specs.Filters.{filtered, FilterEnds, AnswersFilter};

use crate::replay::tell_fault;
use crate::status::Status;
use crate::streams::{InputFault, read_whole};
use command_lines::Filter;
use line_words::ScriptRefusal;
use omci_core::{Failed, Sink, Source};
use std::alloc::Global;
use whole_writes::write_all;

/// What a filter makes of an input: its whole output, or the input's first fault.
fn made(alloc: Global, filter: Filter, input: &[u8]) -> Result<Vec<u8>, ScriptRefusal>
    ensures value { GivesScript (λ text. text.items) result (filtered filter input.now) }
{
    match filter {
        Filter::Meter => meter_run::answer(alloc, input),
        Filter::Capture => capture_run::answer(alloc, input),
    }
}

/// Writes a whole text.
fn write_text<K: Sink>(text: &[u8], sink: &mut K) -> Status
    ensures ran { Ran result text.now
        (K.written sink.old) (K.written sink.new) (K.faults sink.old) (K.faults sink.new) }
{
    match write_all(sink, text) {
        Ok(()) => Status::Done,
        Err(Failed) => Status::WriteFault,
    }
}

/// Writes what a filter makes of these bytes, or what is wrong with them.
fn answer<K: Sink>(alloc: Global, filter: Filter, input: Vec<u8>, sink: &mut K) -> Status
    ensures ends { FilterEnds result filter input.items
        (K.written sink.old) (K.written sink.new) (K.faults sink.old) (K.faults sink.new) }
{
    match made(alloc, filter, &input) {
        Ok(text) => write_text(&text, sink),
        Err(ScriptRefusal::Fault { line, reason }) => tell_fault(alloc, line, reason, sink),
        Err(ScriptRefusal::NoMemory) => Status::NoMemory,
    }
}

/// Reads a text whole, and writes what the filter makes of it.
pub fn filter<S: Source, K: Sink>(
    alloc: Global,
    filter: Filter,
    source: &mut S,
    sink: &mut K,
) -> Status
    ensures answers { AnswersFilter result filter
        (S.left source.old) (S.left source.new) (K.written sink.old) (K.written sink.new)
        (S.faults source.old) (S.faults source.new) (K.faults sink.old) (K.faults sink.new) }
    ensures read_fault { result ≡ Status.ReadFault → sink.new ≡ sink.old }
    ensures too_long { result ≡ Status.TooLong → sink.new ≡ sink.old }
{
    match read_whole(alloc, source) {
        Ok(input) => answer(alloc, filter, input, sink),
        Err(InputFault::Read) => Status::ReadFault,
        Err(InputFault::TooLong) => Status::TooLong,
        Err(InputFault::NoMemory) => Status::NoMemory,
    }
}
