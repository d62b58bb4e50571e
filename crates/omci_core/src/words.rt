//! Lists of byte strings.

ghost use Rattle.std.specs.Prelude.{◌≡◌, ◌==◌, ◌<◌, [], ◌∷◌, ◌++◌, length, OnOk, OnErr, slice_get};

use crate::bytes::Bytes;
use crate::errors::NoMemory;
use std::alloc::Global;
use std::marker::Model;

/// A list of byte strings, as the words of a command line. Contracts see a list of lists of bytes.
#[derive(Debug, Drop)]
pub struct Words {
    words: Vec<Bytes>,
}

impl Model for Words {
    ghost use Rattle.std.specs.Prelude.{ℕ, List};

    ghost Value = { List (List ℕ) };

    ghost view = { λ w. w.words.items };
}

impl Words {
    /// No words.
    pub fn new(alloc: Global) -> Words
        ensures empty { result ≡ [] }
    {
        Words {
            words: Vec::new(alloc),
        }
    }

    /// Adds a copy of the word at the end. `NoMemory` where there is no room for it; the list is
    /// then as it was.
    pub fn push(&mut self, word: &[u8]) -> Result<(), NoMemory>
        ensures ok { OnOk result (self.new ≡ self.old ++ word.now ∷ []) }
        ensures err { OnErr result (self.new ≡ self.old) }
    {
        let copy = Bytes::of(*self.words.allocator(), word)?;
        self.words.push(copy)?;
        Ok(())
    }

    /// How many words there are.
    pub fn len(&self) -> usize
        ensures value { result ≡ length self.now }
    {
        self.words.len()
    }

    /// Whether there is no word.
    pub fn is_empty(&self) -> bool
        ensures value { result ≡ (length self.now == 0) }
    {
        self.words.is_empty()
    }

    /// The word at this place, counted from 0.
    pub fn word(&self, place: usize) -> &[u8]
        requires { place < length self.now }
        ensures value { slice_get self.now place ≡ Some result.now }
    {
        self.words[place].bytes()
    }
}
