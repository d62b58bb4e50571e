//! The unit's snapshot of its database.

ghost use Rattle.std.specs.Prelude.{◌≡◌, IfOk, length};
ghost use Rattle.mib_spec.specs.Database.{counter};
ghost use Rattle.upload_spec.specs.Pieces.{pieces, piece_at, without_makers};

use crate::groups::group_count;
use crate::taken::{Taken, piece_among, take_entity};
use mib_store::{Mib, NoMemory};
use std::alloc::Global;
use std::marker::Model;
use upload_spec::PIECE_BYTES;

/// A copy of the unit's database, taken when an upload is carried out, and the pieces in which it
/// goes to the manager. The unit holds it until it has aged; no call but `of` takes memory, and
/// none changes it.
#[derive(Drop)]
pub struct Snapshot {
    entries: Vec<Taken>,
    count: u16,
    counter: u8,
}

impl Model for Snapshot {
    ghost use Rattle.mib_spec.specs.Database.{Database};
    ghost use Rattle.mib_upload.specs.Snapshots.{database_of, IsSnapshot};

    ghost Value = { Database };

    ghost view = { λ s. database_of s.entries.items };

    ghost invariant = { λ s. IsSnapshot s.entries.items s.count s.counter };
}

impl Snapshot {
    /// Copies the database.
    pub fn of(alloc: Global, mib: &Mib) -> Result<Snapshot, NoMemory>
        ensures { IfOk result (λ snapshot. snapshot ≡ mib.now) }
    {
        let mut entries = Vec::new(alloc);
        let mut count = 0;
        for place in 0..mib.len() {
            let taken = take_entity(mib, place, count);
            entries.push(taken)?;
            count += group_count(taken.entity.class);
        }
        Ok(Snapshot {
            entries,
            count,
            counter: mib.counter(),
        })
    }

    /// How many pieces there are.
    pub fn count(&self) -> u16
        ensures { result ≡ length (pieces (without_makers self.now)) }
    {
        self.count
    }

    /// How many entities there are.
    pub fn entities(&self) -> u16
        ensures { result ≡ length self.now }
    {
        self.entries.len() as u16
    }

    /// The counter of the database, MIB data sync.
    pub fn counter(&self) -> u8
        ensures { result ≡ counter self.now }
    {
        self.counter
    }

    /// The piece of this number, counted from 0: class, instance, mask and values, with zeros after
    /// them. None exactly where the number is `count` or more.
    pub fn piece(&self, number: u16) -> Option<[u8; PIECE_BYTES]>
        ensures { result ≡ piece_at number (without_makers self.now) }
    {
        piece_among(self.entries.as_slice(), number)
    }
}
