//! Pieces as bytes: how one is made of an entity's values, and what one says.

ghost use Rattle.std.specs.Prelude.{◌≡◌, ◌+◌, ◌≤◌, ◌++◌, length, take, drop};
ghost use Rattle.std.specs.Int.{to_be_bytes, w16};
ghost use Rattle.upload_spec.specs.Pieces.{entity_in, mask_in, bytes_in};
ghost use Rattle.mib_upload.specs.Groups.{piece_by};

use crate::groups::Group;
use class_spec::WIDEST_CLASS;
use omci_attributes::Mask;
use omci_types::EntityId;
use upload_spec::{PIECE_BYTES, PIECE_ROOM};

/// The entity of a piece.
pub(crate) fn entity_in(piece: &[u8; PIECE_BYTES]) -> EntityId
    ensures { result ≡ entity_in piece.now }
{
    EntityId {
        class: u16::from_be_bytes([piece[0], piece[1]]),
        instance: u16::from_be_bytes([piece[2], piece[3]]),
    }
}

/// The mask of a piece.
pub(crate) fn mask_in(piece: &[u8; PIECE_BYTES]) -> Mask
    ensures { result.0 ≡ mask_in piece.now }
{
    Mask(u16::from_be_bytes([piece[4], piece[5]]))
}

/// The bytes of the values of a piece.
pub(crate) fn bytes_in(piece: &[u8; PIECE_BYTES]) -> [u8; PIECE_ROOM]
    ensures { result ≡ bytes_in piece.now }
{
    let mut bytes = [0; PIECE_ROOM];
    bytes.copy_from_slice(&piece[6..]);
    bytes
}

/// The piece of an entity that carries this group of its values.
pub(crate) fn piece_of(
    entity: EntityId,
    group: &Group,
    values: &[u8; WIDEST_CLASS],
) -> [u8; PIECE_BYTES]
    requires { group.now.width ≤ PIECE_ROOM }
    ensures { result ≡ piece_by entity values.now group.now }
{
    let mut piece = [0; PIECE_BYTES];
    put_number(entity.class, &mut piece, 0);
    put_number(entity.instance, &mut piece, 2);
    put_number(group.mask, &mut piece, 4);
    put(cut(values, group.start, group.width), &mut piece, 6);
    piece
}

/// The bytes from this place on, as many as there are up to the width.
pub(crate) fn cut(bytes: &[u8], from: usize, width: usize) -> &[u8]
    ensures { result.now ≡ take width (drop from bytes.now) }
{
    let rest = if from < bytes.len() {
        &bytes[from..]
    } else {
        &[]
    };
    if width < rest.len() {
        &rest[..width]
    } else {
        rest
    }
}

/// Puts the two bytes of the number there.
fn put_number(number: u16, into: &mut [u8], at: usize)
    requires { at + 2 ≤ length into.old }
    ensures front { take (at + 2) into.new ≡ take at into.old ++ to_be_bytes w16 number }
    ensures back { drop (at + 2) into.new ≡ drop (at + 2) into.old }
{
    put(&number.to_be_bytes(), into, at);
}

/// Puts the bytes there.
pub(crate) fn put(bytes: &[u8], into: &mut [u8], at: usize)
    requires { at + length bytes.now ≤ length into.old }
    ensures front { take (at + length bytes.now) into.new ≡ take at into.old ++ bytes.now }
    ensures back { drop (at + length bytes.now) into.new
        ≡ drop (at + length bytes.now) into.old }
{
    into[at..at + bytes.len()].copy_from_slice(bytes);
}
