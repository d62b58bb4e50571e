//! The database that the unit put by for an upload, and for how long it is kept.

ghost use Rattle.std.specs.Prelude.{◌≡◌, ◌+◌, false, length, nat_le, IfOk};
ghost use Rattle.mib_spec.specs.Database.{counter};
ghost use Rattle.upload_spec.specs.Pieces.{pieces, piece_at, without_makers};
ghost use Rattle.unit_spec.specs.declared.TheConstants.{SNAPSHOT_SECONDS};
ghost use Rattle.unit_spec.specs.declared.Note.TheVariants as note;
ghost use Rattle.unit_spec.specs.Onu.{or_zeros};

use mib_store::Mib;
use mib_upload::Snapshot;
use omci_core::NoMemory;
use std::alloc::Global;
use std::marker::Model;
use unit_spec::{Note, SNAPSHOT_SECONDS};

/// The database that the unit put by for an upload. The agent holds it; a get for a piece and a
/// second change it.
#[derive(Drop)]
pub struct Upload {
    snapshot: Snapshot,
    /// The seconds since it was put by, or last asked for a piece.
    age: u8,
}

impl Model for Upload {
    ghost use Rattle.unit_spec.specs.Onu as unit;

    ghost Value = { unit.Snapshot };

    ghost view = { λ u. record { database = u.snapshot; age = u.age } };
}

impl Upload {
    /// The database is put by.
    pub fn of(alloc: Global, mib: &Mib) -> Result<Upload, NoMemory>
        ensures value { IfOk result (λ u. u ≡ record { database = mib.now; age = 0 }) }
    {
        Ok(Upload {
            snapshot: Snapshot::of(alloc, mib)?,
            age: 0,
        })
    }

    /// How many pieces it has.
    pub fn count(&self) -> u16
        ensures value { result ≡ length (pieces (without_makers self.now.database)) }
    {
        self.snapshot.count()
    }

    /// What is told of it.
    pub fn note(&self) -> Note
        ensures value { result
            ≡ note.Snapshot (length self.now.database) (counter self.now.database) }
    {
        Note::Snapshot {
            entities: self.snapshot.entities(),
            counter: self.snapshot.counter(),
        }
    }

    /// The piece of that number, or zeros where there is none. Its age begins anew.
    pub fn piece(&mut self, number: u16) -> [u8; 32]
        ensures value { result ≡ or_zeros (piece_at number (without_makers self.old.database)) }
        ensures fresh { self.new ≡ record self.old { age = 0 } }
    {
        self.age = 0;
        match self.snapshot.piece(number) {
            Some(piece) => piece,
            None => [0; 32],
        }
    }

    /// Whether its time is over with the next second.
    pub fn is_over(&self) -> bool
        ensures value { result ≡ nat_le SNAPSHOT_SECONDS (self.now.age + 1) }
    {
        self.age >= SNAPSHOT_SECONDS - 1
    }

    /// It is a second older. Its time may not be over with that second.
    pub fn grow_older(&mut self)
        requires { nat_le SNAPSHOT_SECONDS (self.old.age + 1) ≡ false }
        ensures older { self.new ≡ record self.old { age = self.old.age + 1 } }
    {
        self.age += 1;
    }
}
