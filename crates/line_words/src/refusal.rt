//! Why bytes, and why one line, were not read.

ghost use Rattle.std.specs.Prelude.{◌≡◌};
ghost use Rattle.line_words.specs.declared.refusal.ScriptRefusal.TheVariants.{NoMemory};

use script_spec::{HEX_FAULT, NOISE_FAULT, NUMBER_FAULT, WORD_FAULT};
use std::alloc::AllocFailed;
use thiserror::Error;

/// Why bytes were not read as a script, as orders, or as another text of lines.
#[derive(Clone, Copy, Debug, PartialEq, Eq, Error)]
pub enum ScriptRefusal {
    /// The first fault: the line's number, from 1, and the reason. 1 is an unknown word, a missing
    /// word or one too many; 2 a number that is malformed or out of range; 3 hex that is malformed
    /// or of a length that isn't allowed; 4 a header that is missing or has any fault; 5 noise that
    /// decodes as a frame of either message set.
    #[error("line {line}: reason {reason}")]
    Fault { line: u64, reason: u8 },
    /// There was no memory for what the bytes say.
    #[error("out of memory")]
    NoMemory,
}

impl<T: Drop> From<AllocFailed<T>> for ScriptRefusal {
    ghost from_gives = { λ _ e. e ≡ NoMemory };

    fn from(_error: AllocFailed<T>) -> ScriptRefusal {
        ScriptRefusal::NoMemory
    }
}

/// Why a line was not read: the reason of its fault, or want of memory.
#[derive(Clone, Copy, Debug, PartialEq, Eq)]
pub enum LineRefusal {
    /// The reason of the line's first fault.
    Reason(u8),
    /// There was no memory for what the line says.
    NoMemory,
}

impl LineRefusal {
    /// A word that is unknown, missing or one too many.
    pub const WORD: LineRefusal = LineRefusal::Reason(WORD_FAULT);
    /// A number that is malformed or out of range.
    pub const NUMBER: LineRefusal = LineRefusal::Reason(NUMBER_FAULT);
    /// Hex that is malformed or of a length that isn't allowed.
    pub const HEX: LineRefusal = LineRefusal::Reason(HEX_FAULT);
    /// Noise that decodes as a frame of either message set.
    pub const NOISE: LineRefusal = LineRefusal::Reason(NOISE_FAULT);
}
