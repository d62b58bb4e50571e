//! The commands `show` and `check`: a stream of frames is read, and what it says is written.

ghost use Rattle.std.specs.Prelude.{◌≡◌, OnOk, OnErr, IfErr};
ghost use Rattle.std.specs.Io.KnownBytes.{Appends};
ghost use Rattle.whole_writes.specs.Writing.{WritesFront};
ghost use Rattle.trace_lines.specs.Writing.{EndsRun};
ghost use Rattle.show_spec.specs.Shown.{count_text};
ghost use Rattle.omci_top.specs.Answers.{Ran};
ghost use Rattle.omci_top.specs.Shows.{AnswersShow, AnswersCheck};

use crate::replay::tell_fault;
use crate::status::Status;
use crate::streams::LARGEST_INPUT;
use omci_core::{Sink, Source};
use std::alloc::Global;
use stream_show::{Counts, StreamEnd, push_count_text};
use trace_lines::RunFault;
use whole_writes::write_all;

/// Writes the text of each frame of a stream, and says where its first fault is.
pub fn show<S: Source, K: Sink>(alloc: Global, source: &mut S, sink: &mut K) -> Status
    ensures answers { AnswersShow result
        (S.left source.old) (S.left source.new) (K.written sink.old) (K.written sink.new)
        (S.faults source.old) (S.faults source.new) (K.faults sink.old) (K.faults sink.new) }
{
    match stream_show::show(alloc, source, sink, LARGEST_INPUT) {
        Ok(()) => Status::Done,
        Err(StreamEnd::Refused { place, reason }) => tell_fault(alloc, place, reason, sink),
        Err(StreamEnd::Read) => Status::ReadFault,
        Err(StreamEnd::Write) => Status::WriteFault,
        Err(StreamEnd::TooLong) => Status::TooLong,
        Err(StreamEnd::NoMemory) => Status::NoMemory,
    }
}

/// Writes the line of a stream in which no frame is refused.
fn write_counts<K: Sink>(alloc: Global, counts: Counts, sink: &mut K) -> Result<(), RunFault>
    ensures told { OnOk result (Appends (K.written sink.old) (K.written sink.new)
        (count_text counts.frames counts.unknown)) }
    ensures kept { OnOk result (K.faults sink.new ≡ K.faults sink.old) }
    ensures front { OnErr result (WritesFront (count_text counts.frames counts.unknown)
        (K.written sink.old) (K.written sink.new)) }
    ensures cause { IfErr result (λ e. EndsRun e (K.faults sink.old) (K.faults sink.new)) }
{
    let mut line = Vec::new(alloc);
    push_count_text(&mut line, counts)?;
    write_all(sink, &line)?;
    Ok(())
}

/// Says how many frames a stream has.
fn tell_counts<K: Sink>(alloc: Global, counts: Counts, sink: &mut K) -> Status
    ensures ran { Ran result (count_text counts.frames counts.unknown)
        (K.written sink.old) (K.written sink.new) (K.faults sink.old) (K.faults sink.new) }
{
    match write_counts(alloc, counts, sink) {
        Ok(()) => Status::Done,
        Err(RunFault::NoMemory) => Status::NoMemory,
        Err(RunFault::Write) => Status::WriteFault,
    }
}

/// Counts the frames of a stream, or says where its first fault is.
pub fn check<S: Source, K: Sink>(alloc: Global, source: &mut S, sink: &mut K) -> Status
    ensures answers { AnswersCheck result
        (S.left source.old) (S.left source.new) (K.written sink.old) (K.written sink.new)
        (S.faults source.old) (S.faults source.new) (K.faults sink.old) (K.faults sink.new) }
    ensures read_fault { result ≡ Status.ReadFault → sink.new ≡ sink.old }
    ensures too_long { result ≡ Status.TooLong → sink.new ≡ sink.old }
{
    match stream_show::check(alloc, source, LARGEST_INPUT) {
        Ok(counts) => tell_counts(alloc, counts, sink),
        Err(StreamEnd::Refused { place, reason }) => tell_fault(alloc, place, reason, sink),
        Err(StreamEnd::Read) => Status::ReadFault,
        Err(StreamEnd::Write) => Status::WriteFault,
        Err(StreamEnd::TooLong) => Status::TooLong,
        Err(StreamEnd::NoMemory) => Status::NoMemory,
    }
}
