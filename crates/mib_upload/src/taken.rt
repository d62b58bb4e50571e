//! What a snapshot has of an entity, and the pieces of it.

ghost use Rattle.std.specs.Prelude.{◌≡◌, ◌+◌, ◌<◌, [], MatchOption, length, slice_get};
ghost use Rattle.std.specs.Prelude.{slice_index_or};
ghost use Rattle.omci_types.specs.declared.EntityId.{EntityId};
ghost use Rattle.mib_spec.specs.Database.{Managed};
ghost use Rattle.upload_spec.specs.Pieces.{pieces_of, piece_at, without_makers};
ghost use Rattle.mib_upload.specs.Snapshots.{database_of, taken_as, AreNumbered, IsHolder};
ghost use Rattle.mib_store.specs.Entries.{values_in};

use crate::groups::group_at;
use crate::pieces::{piece_of, put};
use class_spec::WIDEST_CLASS;
use mib_store::Mib;
use omci_types::EntityId;
use upload_spec::PIECE_BYTES;

/// An entity of a snapshot.
#[derive(Clone, Copy, Debug)]
pub(crate) struct Taken {
    pub(crate) entity: EntityId,
    /// The number of its first piece.
    pub(crate) first: u16,
    /// The values of its attributes one after the other, with zeros after them.
    pub(crate) values: [u8; WIDEST_CLASS],
}

/// The entity in this place of the database, whose first piece has this number.
pub(crate) fn take_entity(mib: &Mib, place: usize, first: u16) -> Taken
    requires { place < length mib.now }
    ensures first { result.first ≡ first }
    ensures wide { length result.values ≡ WIDEST_CLASS }
    ensures held { (other : EntityId × Managed)
        → slice_index_or mib.now place other ≡ taken_as result }
{
    let mut values = [0; WIDEST_CLASS];
    put(mib.values(place), &mut values, 0);
    Taken {
        entity: mib.entity(place),
        first,
        values,
    }
}

/// The piece of this number, counted from 0 over all entities.
pub(crate) fn piece_among(entries: &[Taken], number: u16) -> Option<[u8; PIECE_BYTES]>
    requires { AreNumbered 0 entries.now }
    ensures { result ≡ piece_at number (without_makers (database_of entries.now)) }
{
    match holder(entries, number) {
        Some(at) => {
            let taken = &entries[at];
            piece_in(taken.entity, &taken.values, number - taken.first)
        }
        None => None,
    }
}

/// The place of the last entity whose first piece isn't after this number.
fn holder(entries: &[Taken], number: u16) -> Option<usize>
    requires { AreNumbered 0 entries.now }
    ensures { MatchOption result (entries.now ≡ []) (IsHolder entries.now number) }
{
    match entries.binary_search_by_key(&number, |taken| taken.first) {
        Ok(at) => Some(at),
        Err(at) => place_before(at),
    }
}

/// The place before this one, where there is one.
fn place_before(at: usize) -> Option<usize>
    ensures { MatchOption result (at ≡ 0) (λ place. place + 1 ≡ at) }
{
    if at == 0 { None } else { Some(at - 1) }
}

/// The piece of this number, counted from 0 over the entity's own.
fn piece_in(entity: EntityId, values: &[u8; WIDEST_CLASS], number: u16) -> Option<[u8; PIECE_BYTES]>
    ensures { result ≡ slice_get (pieces_of entity (values_in entity.class values.now)) number }
{
    match group_at(entity.class, number) {
        Some(group) => Some(piece_of(entity, &group, values)),
        None => None,
    }
}
