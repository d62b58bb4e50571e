//! What ends the reading of a stream before its end.

use omci_core::{Failed, NoMemory};
use std::alloc::AllocError;

/// Why a stream was not read to its end.
#[derive(Clone, Copy, Debug, PartialEq, Eq)]
pub enum StreamEnd {
    /// The stream is refused.
    Refused {
        /// The place in the stream, from 0, of the first byte of the frame that is refused.
        place: u64,
        /// Why.
        reason: u8,
    },
    /// The source failed.
    Read,
    /// The sink failed.
    Write,
    /// There are more bytes than the limit.
    TooLong,
    /// There was not enough memory.
    NoMemory,
}

impl From<NoMemory> for StreamEnd {
    ghost use Rattle.std.specs.Prelude.{◌≡◌};
    ghost use Rattle.stream_show.specs.declared.ends.StreamEnd.TheVariants as end;

    ghost from_gives = { λ _ e. e ≡ end.NoMemory };

    fn from(_error: NoMemory) -> StreamEnd {
        StreamEnd::NoMemory
    }
}

impl From<AllocError> for StreamEnd {
    ghost use Rattle.std.specs.Prelude.{◌≡◌};
    ghost use Rattle.stream_show.specs.declared.ends.StreamEnd.TheVariants as end;

    ghost from_gives = { λ _ e. e ≡ end.NoMemory };

    fn from(_error: AllocError) -> StreamEnd {
        StreamEnd::NoMemory
    }
}
