//! The lines of a trace, counted by their words.

ghost use Rattle.std.specs.Prelude.{◌≡◌, ◌+◌, OnOk, IfOk};
ghost use Rattle.drill_spec.specs.Summary.{one_if};
ghost use Rattle.drill_run.specs.Tallied.{no_tally, no_counts, line_counted, byte_tallied, text_tallied};

use crate::place::Place;
use crate::word::Word;
use drill_spec::Counts;
use omci_core::NoMemory;
use std::marker::Model;

/// The counts of the lines that came, and what is known of the line that hasn't ended yet.
/// Contracts see all of it.
#[derive(Drop)]
pub(crate) struct Tally {
    place: Place,
    word: Word,
    counts: Counts,
}

impl Model for Tally {
    ghost use Rattle.drill_run.specs.Tallied.{Tallied};

    ghost Value = { Tallied };

    ghost view = { λ t. record { place = t.place; word = t.word; counts = t.counts } };
}

// One more where a line counts. A count that can't grow is refused as if memory had run out: no
// trace is so long.
fn counted(count: u64, counts: bool) -> Result<u64, NoMemory>
    ensures value { IfOk result (λ now. now ≡ count + one_if counts) }
{
    if !counts {
        return Ok(count);
    }
    match count.checked_add(1) {
        Some(now) => Ok(now),
        None => Err(NoMemory),
    }
}

// The counts with one line more, which has that word.
#[tactic(auto, unfolding(crate::specs::Tallied::line_counted))]
fn with_line(counts: Counts, word: &Word) -> Result<Counts, NoMemory>
    ensures value { IfOk result (λ now. now ≡ line_counted word.now counts) }
{
    Ok(Counts {
        sent: counted(counts.sent, word.is(b"sent"))?,
        carried: counted(counts.carried, word.is(b"carried"))?,
        kept: counted(counts.kept, word.is(b"kept"))?,
        took: counted(counts.took, word.is(b"took"))?,
        synced: counted(counts.synced, word.is(b"synced"))?,
        refused: counted(counts.refused, word.is(b"refused"))?,
    })
}

impl Tally {
    /// No line, and no byte of one.
    pub(crate) fn new() -> Tally
        ensures empty { result ≡ no_tally }
    {
        Tally {
            place: Place::Number,
            word: Word::new(),
            counts: Counts {
                sent: 0,
                carried: 0,
                kept: 0,
                took: 0,
                synced: 0,
                refused: 0,
            },
        }
    }

    /// How many lines were of which kind.
    pub(crate) fn counts(&self) -> Counts
        ensures value { result ≡ self.now.counts }
    {
        self.counts
    }

    /// Counts the bytes of a text, which may begin and end within a line.
    pub(crate) fn add(&mut self, text: &[u8]) -> Result<(), NoMemory>
        ensures after { OnOk result (self.new ≡ text_tallied text.now self.old) }
    {
        for byte in text {
            self.byte(*byte)?;
        }
        Ok(())
    }

    // Counts a byte.
    #[tactic(auto, unfolding(crate::specs::Tallied::byte_tallied))]
    fn byte(&mut self, byte: u8) -> Result<(), NoMemory>
        ensures after { OnOk result (self.new ≡ byte_tallied byte self.old) }
    {
        if byte == b'\n' {
            self.counts = with_line(self.counts, &self.word)?;
            self.word.clear();
            self.place = Place::Number;
        } else if byte == b' ' {
            self.place = self.place.after_space();
        } else if self.place == Place::Word {
            self.word.push(byte);
        }
        Ok(())
    }
}
