//! Rows of a snapshot as bytes: how one is made of an entity's bitmap, and what one says.

ghost use Rattle.std.specs.Prelude.{◌≡◌};
ghost use Rattle.alarm_spec.specs.Alarms.{row_of, entity_in, bitmap_in};

use alarm_spec::{BITMAP_BYTES, ROW_BYTES};
use omci_core::put_at;
use omci_types::EntityId;

/// The row of an entity: class, instance and bitmap.
pub(crate) fn row_of(entity: EntityId, bitmap: &[u8; BITMAP_BYTES]) -> [u8; ROW_BYTES]
    ensures { result ≡ row_of (entity, bitmap.now) }
{
    let mut row = [0; ROW_BYTES];
    put_at(&mut row, 0, &entity.class.to_be_bytes());
    put_at(&mut row, 2, &entity.instance.to_be_bytes());
    put_at(&mut row, 4, bitmap);
    row
}

/// The entity of a row.
pub(crate) fn entity_in(row: &[u8; ROW_BYTES]) -> EntityId
    ensures { result ≡ entity_in row.now }
{
    EntityId {
        class: u16::from_be_bytes([row[0], row[1]]),
        instance: u16::from_be_bytes([row[2], row[3]]),
    }
}

/// The bitmap of a row.
pub(crate) fn bitmap_in(row: &[u8; ROW_BYTES]) -> [u8; BITMAP_BYTES]
    ensures { result ≡ bitmap_in row.now }
{
    let mut bitmap = [0; BITMAP_BYTES];
    bitmap.copy_from_slice(&row[4..]);
    bitmap
}
