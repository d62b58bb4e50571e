//! The first bytes of a word.

ghost use Rattle.std.specs.Prelude.{◌≡◌, ◌+◌, ◌<◌, ◌++◌, [], ◌∷◌, length, take};
ghost use Rattle.std.specs.Str.{bytes_eq};
ghost use Rattle.drill_run.specs.Tallied.{word_with};

use std::marker::Model;

/// So many bytes of a word are kept: one more than the longest word of a kind that is counted has.
pub(crate) const WORD_BYTES: usize = 8;

/// The first bytes of a word, 8 at most. Contracts see them as a list.
#[derive(Drop)]
pub(crate) struct Word {
    bytes: [u8; WORD_BYTES],
    len: usize,
}

impl Model for Word {
    ghost use Rattle.std.specs.Prelude.{◌≡◌, ◌≤◌, List, ℕ, length, take};
    ghost use Rattle.drill_run.specs.declared.word.TheConstants.{WORD_BYTES};

    ghost Value = { List ℕ };

    ghost view = { λ w. take w.len w.bytes };

    ghost invariant = { λ w. (w.len ≤ WORD_BYTES) × (length w.bytes ≡ WORD_BYTES) };
}

// Puts a byte at a place.
fn put_byte(bytes: &mut [u8], at: usize, byte: u8)
    requires within { at < length bytes.old }
    ensures front { take (at + 1) bytes.new ≡ take at bytes.old ++ (byte ∷ []) }
    ensures kept { length bytes.new ≡ length bytes.old }
{
    bytes[at] = byte;
}

impl Word {
    /// No byte.
    pub(crate) fn new() -> Word
        ensures empty { result ≡ [] }
    {
        Word {
            bytes: [0; WORD_BYTES],
            len: 0,
        }
    }

    /// The bytes.
    pub(crate) fn bytes(&self) -> &[u8]
        ensures value { result.now ≡ self.now }
    {
        &self.bytes[..self.len]
    }

    /// Drops all bytes.
    pub(crate) fn clear(&mut self)
        ensures empty { self.new ≡ [] }
    {
        self.len = 0;
    }

    /// Adds a byte, where there is room for one.
    #[tactic(auto, unfolding(crate::specs::Tallied::word_with))]
    pub(crate) fn push(&mut self, byte: u8)
        ensures value { self.new ≡ word_with byte self.old }
    {
        if self.len < WORD_BYTES {
            put_byte(&mut self.bytes, self.len, byte);
            self.len += 1;
        }
    }

    /// Whether these are the bytes of that word.
    pub(crate) fn is(&self, word: &[u8]) -> bool
        ensures value { result ≡ bytes_eq self.now word.now }
    {
        self.bytes() == word
    }
}
