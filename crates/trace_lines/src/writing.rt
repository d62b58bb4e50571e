//! Lines that are gathered and written to a sink, and what ends a run before its end.

ghost use Rattle.std.specs.Prelude.{◌≡◌, OnOk, OnErr};
ghost use Rattle.omci_core.specs.Causes.{Rose};
ghost use Rattle.whole_writes.specs.Writing.{WritesFront, BreaksOff};
ghost use Rattle.trace_lines.specs.Writing.{WritesSome};

use crate::lines::Lines;
use omci_core::{Failed, NoMemory, Sink};
use std::alloc::AllocError;
use whole_writes::write_all;

/// So many bytes of lines are gathered before they are written.
const PIECE_BYTES: usize = 65_536;

/// Why a run ended before its end.
#[derive(Clone, Copy, Debug, PartialEq, Eq)]
pub enum RunFault {
    /// There was not enough memory.
    NoMemory,
    /// The sink failed.
    Write,
}

impl From<NoMemory> for RunFault {
    ghost use Rattle.std.specs.Prelude.{◌≡◌};
    ghost use Rattle.trace_lines.specs.declared.writing.RunFault.TheVariants as fault;

    ghost from_gives = { λ _ e. e ≡ fault.NoMemory };

    fn from(_error: NoMemory) -> RunFault {
        RunFault::NoMemory
    }
}

impl From<AllocError> for RunFault {
    ghost use Rattle.std.specs.Prelude.{◌≡◌};
    ghost use Rattle.trace_lines.specs.declared.writing.RunFault.TheVariants as fault;

    ghost from_gives = { λ _ e. e ≡ fault.NoMemory };

    fn from(_error: AllocError) -> RunFault {
        RunFault::NoMemory
    }
}

impl From<Failed> for RunFault {
    ghost use Rattle.std.specs.Prelude.{◌≡◌};
    ghost use Rattle.trace_lines.specs.declared.writing.RunFault.TheVariants as fault;

    ghost from_gives = { λ _ e. e ≡ fault.Write };

    fn from(_error: Failed) -> RunFault {
        RunFault::Write
    }
}

/// Writes the gathered lines where they are enough for a piece.
pub fn write_piece<K: Sink>(lines: &mut Lines, sink: &mut K) -> Result<(), Failed>
    ensures written { OnOk result (WritesSome lines.old (K.written sink.old) (K.written sink.new)
        lines.new) }
    ensures kept { OnOk result (K.faults sink.new ≡ K.faults sink.old) }
    ensures front { OnErr result (WritesFront lines.old (K.written sink.old) (K.written sink.new)) }
    ensures cause { OnErr result (Rose (K.faults sink.old) (K.faults sink.new)) }
{
    if lines.bytes().len() >= PIECE_BYTES {
        write_all(sink, lines.bytes())?;
        lines.clear();
    }
    Ok(())
}
