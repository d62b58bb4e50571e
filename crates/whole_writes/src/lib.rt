//! Writing a whole text to a sink, which may take it in parts.
#![tactic(auto)]

ghost use Rattle.std.specs.Prelude.{◌≡◌, OnOk, OnErr};
ghost use Rattle.std.specs.Io.KnownBytes.{Appends};
ghost use Rattle.whole_writes.specs.Writing.{BreaksOff};

use omci_core::{Failed, Sink};

/// Writes all of the bytes to the sink, which may take them in parts. `Failed` where the sink
/// fails; then a front of them was written.
pub fn write_all<K: Sink>(sink: &mut K, bytes: &[u8]) -> Result<(), Failed>
    ensures whole { OnOk result (Appends (K.written sink.old) (K.written sink.new) bytes.now) }
    ensures kept { OnOk result (K.faults sink.new ≡ K.faults sink.old) }
    ensures broken { OnErr result (BreaksOff bytes.now
        (K.written sink.old) (K.written sink.new) (K.faults sink.old) (K.faults sink.new)) }
{
    let mut place = 0;
    while place < bytes.len() {
        place += sink.write(&bytes[place..])?;
    }
    Ok(())
}
