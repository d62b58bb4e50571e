//! Sources and sinks over the readers and writers of std.

ghost use Rattle.std.specs.Prelude.{◌≡◌};

use crate::errors::Failed;
use crate::outside::{Sink, Source};
use std::io::{Read, Write};
use std::marker::Model;

/// A source over a reader of std. Each error of the reader is a fault; at its last value the count
/// stays.
#[derive(Drop)]
pub struct StdSource<R> {
    reader: R,
    faults: u64,
}

impl<R> Model for StdSource<R> {
    ghost use Rattle.omci_core.specs.Adapters.{Adapter};

    ghost Value = { Adapter R };

    ghost view = { λ s. record { inner = s.reader; faults = s.faults } };
}

impl<R> StdSource<R> {
    /// A source over this reader, with no faults so far.
    pub fn new(reader: R) -> StdSource<R>
        ensures reader { result.inner ≡ reader }
        ensures faults { result.faults ≡ 0 }
    {
        StdSource { reader, faults: 0 }
    }
}

impl<R: Read> Source for StdSource<R> {
    ghost left = { λ s. R.remaining s.inner };

    ghost faults = { λ s. s.faults };

    fn read(&mut self, into: &mut [u8]) -> Result<usize, Failed> {
        match self.reader.read(into) {
            Ok(count) => Ok(count),
            Err(_) => {
                self.faults = self.faults.saturating_add(1);
                Err(Failed)
            }
        }
    }
}

/// A sink over a writer of std. Each error of the writer is a fault, and so is a write that takes
/// no byte of a piece that isn't empty; at its last value the count stays.
#[derive(Drop)]
pub struct StdSink<W> {
    writer: W,
    faults: u64,
}

impl<W> Model for StdSink<W> {
    ghost use Rattle.omci_core.specs.Adapters.{Adapter};

    ghost Value = { Adapter W };

    ghost view = { λ s. record { inner = s.writer; faults = s.faults } };
}

impl<W> StdSink<W> {
    /// A sink over this writer, with no faults so far.
    pub fn new(writer: W) -> StdSink<W>
        ensures writer { result.inner ≡ writer }
        ensures faults { result.faults ≡ 0 }
    {
        StdSink { writer, faults: 0 }
    }
}

impl<W: Write> Sink for StdSink<W> {
    ghost written = { λ s. W.contents s.inner };

    ghost faults = { λ s. s.faults };

    fn write(&mut self, from: &[u8]) -> Result<usize, Failed> {
        match self.writer.write(from) {
            Ok(count) if count > 0 || from.is_empty() => Ok(count),
            _ => {
                self.faults = self.faults.saturating_add(1);
                Err(Failed)
            }
        }
    }
}
