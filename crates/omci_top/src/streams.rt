//! Reading a source to its end, and writing to a sink, within the limits of the top call.

ghost use Rattle.std.specs.Prelude.{◌≡◌, ◌<◌, length, vec_len, IfOk, IfErr, OnOk, OnErr};
ghost use Rattle.omci_top.specs.Streams.{ReadsWhole, EndsReading};

use omci_core::{Failed, Source};
use std::alloc::{AllocError, Global};

/// The most bytes that an input may have.
pub const LARGEST_INPUT: usize = 16_777_216;

/// How many bytes are read at a time.
const PIECE_BYTES: usize = 65_536;

/// How many bytes there is room for at first, so that shorter inputs are never moved.
const FIRST_ROOM: usize = 1_048_576;

/// Why a source was not read to its end.
#[derive(Clone, Copy, Debug, PartialEq, Eq)]
pub enum InputFault {
    /// A read failed.
    Read,
    /// There are more than 16,777,216 bytes.
    TooLong,
    /// There was no memory for the bytes.
    NoMemory,
}

impl From<AllocError> for InputFault {
    ghost use Rattle.omci_top.specs.declared.streams.InputFault.TheVariants.{NoMemory};

    ghost from_gives = { λ _ e. e ≡ NoMemory };

    fn from(_error: AllocError) -> InputFault {
        InputFault::NoMemory
    }
}

/// Reads the source to its end, 64 KiB at a time.
pub fn read_whole<S: Source>(alloc: Global, source: &mut S) -> Result<Vec<u8>, InputFault>
    ensures whole { IfOk result (λ bytes.
        ReadsWhole LARGEST_INPUT (S.left source.old) (S.left source.new) bytes.items) }
    ensures kept { OnOk result (S.faults source.new ≡ S.faults source.old) }
    ensures end { IfErr result (EndsReading LARGEST_INPUT
        (S.left source.old) (S.left source.new) (S.faults source.old) (S.faults source.new)) }
{
    let mut piece = zeros(alloc, PIECE_BYTES)?;
    read_by(alloc, source, &mut piece)
}

/// So many zeros.
fn zeros(alloc: Global, count: usize) -> Result<Vec<u8>, AllocError>
    ensures len { IfOk result (λ made. vec_len made ≡ count) }
{
    vec![in alloc; 0u8; count]
}

/// Reads the source to its end through this piece.
fn read_by<S: Source>(
    alloc: Global,
    source: &mut S,
    piece: &mut [u8],
) -> Result<Vec<u8>, InputFault>
    requires { 0 < length piece.old }
    ensures whole { IfOk result (λ bytes.
        ReadsWhole LARGEST_INPUT (S.left source.old) (S.left source.new) bytes.items) }
    ensures kept { OnOk result (S.faults source.new ≡ S.faults source.old) }
    ensures end { IfErr result (EndsReading LARGEST_INPUT
        (S.left source.old) (S.left source.new) (S.faults source.old) (S.faults source.new)) }
{
    let mut bytes = Vec::with_capacity(alloc, FIRST_ROOM)?;
    loop {
        match source.read(piece) {
            Err(Failed) => return Err(InputFault::Read),
            Ok(0) => return Ok(bytes),
            Ok(count) => {
                if count > LARGEST_INPUT - bytes.len() {
                    return Err(InputFault::TooLong);
                }
                bytes.extend_from_slice(&piece[..count])?;
            }
        }
    }
}
