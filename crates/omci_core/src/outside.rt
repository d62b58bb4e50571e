//! The outside as its users see it: sources of bytes and sinks for bytes, each with a count of its
//! faults.

ghost use Rattle.std.specs.Prelude.{ℕ, ◌<◌, List, Option, IfOk, length};
ghost use Rattle.std.specs.Io.{ReadsAtMost, WritesAtMost};
ghost use Rattle.std.specs.Io.KnownBytes.{ReadConsumes, WriteAppends};
ghost use Rattle.omci_core.specs.Causes.{HasCause};

use crate::errors::Failed;

/// What bytes are read from. A source has a count of its faults, which never falls.
pub trait Source {
    // The bytes that reads will give from here on, where they are known.
    ghost left: { Self → Option (List ℕ) };

    // How many faults the source has had.
    ghost faults: { Self → ℕ };

    /// Reads bytes into the front of the buffer and answers how many: 0 for a buffer that isn't
    /// empty is the end. `Failed` comes only with a fault that the source has counted, and takes
    /// nothing.
    fn read(&mut self, into: &mut [u8]) -> Result<usize, Failed>
        ensures bound { ReadsAtMost result into.new }
        ensures bytes { ReadConsumes (left self.old) (left self.new) result into.new }
        ensures cause { HasCause (faults self.old) (faults self.new) result };
}

/// What bytes are written to. A sink has a count of its faults, which never falls.
pub trait Sink {
    // The bytes that were written so far, where they are known.
    ghost written: { Self → Option (List ℕ) };

    // How many faults the sink has had.
    ghost faults: { Self → ℕ };

    /// Writes bytes of the front of the piece and answers how many: at least one of a piece that
    /// isn't empty. `Failed` comes only with a fault that the sink has counted, and adds nothing.
    fn write(&mut self, from: &[u8]) -> Result<usize, Failed>
        ensures bound { WritesAtMost result from.now }
        ensures some { 0 < length from.now → IfOk result (λ n. 0 < n) }
        ensures bytes { WriteAppends (written self.old) (written self.new) result from.now }
        ensures cause { HasCause (faults self.old) (faults self.new) result };
}
