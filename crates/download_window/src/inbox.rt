//! The unit's side: the sections of a window as they come.

ghost use Rattle.std.specs.Prelude.{◌≡◌, ℕ, ◌+◌, ◌*◌, ◌<◌, ◌≤◌, ◌++◌, length, List};
ghost use Rattle.window_spec.specs.declared.TheConstants.{SECTION_BYTES, MAX_WINDOW_BYTES};
ghost use Rattle.message_spec.specs.declared.TheConstants.{MAX_WINDOW};
ghost use Rattle.window_spec.specs.Incoming.{section, tci_after, fit, no_window};
ghost use Rattle.window_spec.specs.Incoming.{after_section, answer_by, answer};

use omci_core::{FIRST_HIGH_TCI, LAST_NUMBER, put_at};
use std::marker::Model;
use window_spec::{Arrived, Fit, MAX_WINDOW, MAX_WINDOW_BYTES, SECTION_BYTES};

/// The sections of a window that have come so far, one after the other. A unit holds it beside a
/// running download; [`section`](Inbox::section) and [`clear`](Inbox::clear) change it. Contracts
/// see how many sections there are, the TCI of the last one, and their bytes. No call takes memory.
#[derive(Drop)]
pub struct Inbox {
    bytes: [u8; MAX_WINDOW_BYTES],
    sections: u16,
    tci: u16,
}

impl Model for Inbox {
    ghost use Rattle.std.specs.Prelude.{◌≤◌, ◌*◌, take};
    ghost use Rattle.message_spec.specs.declared.TheConstants.{MAX_WINDOW};
    ghost use Rattle.window_spec.specs.declared.TheConstants.{SECTION_BYTES};
    ghost use Rattle.window_spec.specs.Incoming.{Window};

    ghost Value = { Window };

    ghost view = { λ i. record {
      sections = i.sections;
      tci = i.tci;
      bytes = take (SECTION_BYTES * i.sections) i.bytes;
    } };

    ghost invariant = { λ i. i.sections ≤ MAX_WINDOW };
}

/// The TCI after this one: the number after in the same priority.
fn tci_after(tci: u16) -> u16
    ensures value { result ≡ tci_after tci }
{
    if tci % FIRST_HIGH_TCI == LAST_NUMBER {
        tci - LAST_NUMBER + 1
    } else {
        tci + 1
    }
}

/// What becomes of a section that fits so, with so many sections held after it.
fn answer(fit: Fit, last: bool, sections: u16) -> Arrived
    ensures value { result ≡ answer_by fit last sections }
{
    match (fit, last) {
        (Fit::Apart, false) => Arrived::Ignored,
        (Fit::Apart, true) => Arrived::Broken,
        (_, false) => Arrived::Held,
        (_, true) => Arrived::Whole { sections },
    }
}

impl Inbox {
    /// Nothing is held.
    pub fn new() -> Inbox
        ensures empty { result ≡ no_window }
    {
        Inbox {
            bytes: [0; MAX_WINDOW_BYTES],
            sections: 0,
            tci: 0,
        }
    }

    /// Lets go of what is held.
    pub fn clear(&mut self)
        ensures empty { self.new ≡ no_window }
    {
        self.sections = 0;
        self.tci = 0;
    }

    /// Takes a section that came under this TCI. Number 0 begins a window, in place of what is
    /// held. A number that is the count of the held sections, under the TCI of the last of them or
    /// the TCI after it, extends the window. Any other section leaves what is held.
    ///
    /// `last` says that the section has AR and so ends its window: the window is `Whole` exactly
    /// where this section began or extended it, and `Broken` else. A section without AR is `Held`
    /// where it began or extended the window, and `Ignored` else.
    #[tactic(auto, unfolding(window_spec::specs::Incoming::after_section, window_spec::specs::Incoming::answer))]
    pub fn section(
        &mut self,
        tci: u16,
        number: u8,
        bytes: &[u8; SECTION_BYTES],
        last: bool,
    ) -> Arrived
        ensures window { self.new ≡ after_section (section tci number bytes.now) self.old }
        ensures answer { result ≡ answer (section tci number bytes.now) last self.old }
    {
        let fit = self.fit(tci, number);
        match fit {
            Fit::Begins => {
                self.clear();
                self.add(tci, bytes);
            }
            Fit::Extends => self.add(tci, bytes),
            Fit::Apart => {}
        }
        answer(fit, last, self.sections)
    }

    /// The bytes of the held sections, one after the other.
    pub fn window(&self) -> &[u8]
        ensures value { result.now ≡ self.now.bytes }
        ensures length { length self.now.bytes ≡ SECTION_BYTES * self.now.sections }
        ensures most { self.now.sections ≤ MAX_WINDOW }
    {
        &self.bytes[..SECTION_BYTES * usize::from(self.sections)]
    }

    /// How a section fits what is held.
    #[tactic(auto, unfolding(window_spec::specs::Incoming::fit))]
    fn fit(&self, tci: u16, number: u8) -> Fit
        ensures value { (bytes : List ℕ) → result ≡ fit (section tci number bytes) self.now }
        ensures room { result ≡ Fit.Extends → self.now.sections < MAX_WINDOW }
    {
        if number == 0 {
            Fit::Begins
        } else if u16::from(number) == self.sections
            && (tci == self.tci || tci == tci_after(self.tci))
        {
            Fit::Extends
        } else {
            Fit::Apart
        }
    }

    /// Adds a section after those that are held.
    fn add(&mut self, tci: u16, bytes: &[u8; SECTION_BYTES])
        requires room { self.old.sections < MAX_WINDOW }
        ensures sections { self.new.sections ≡ self.old.sections + 1 }
        ensures tci { self.new.tci ≡ tci }
        ensures bytes { self.new.bytes ≡ self.old.bytes ++ bytes.now }
    {
        put_at(
            &mut self.bytes,
            SECTION_BYTES * usize::from(self.sections),
            bytes,
        );
        self.sections += 1;
        self.tci = tci;
    }
}
