//! Lists that an extended frame holds: pieces of the database, and rows of the alarm table.

ghost use Rattle.std.specs.Prelude.{◌≡◌, ◌==◌, ◌<◌, [], ◌∷◌, ◌++◌, length, Some, OnOk, OnErr, slice_get};
ghost use Rattle.std.specs.Option.{option_map};
ghost use Rattle.extended_spec.specs.Layouts.{Piece, AlarmRow};

use extended_spec::BITMAP_BYTES;
use omci_core::{Bytes, NoMemory};
use omci_types::EntityId;
use std::alloc::Global;
use std::marker::Model;

/// A piece of the database.
#[derive(Debug, Drop)]
pub(crate) struct PieceEntry {
    entity: EntityId,
    mask: u16,
    values: Bytes,
}

impl Model for PieceEntry {
    ghost use Rattle.extended_spec.specs.Layouts.{Piece};

    ghost Value = { Piece };

    ghost view = { λ p. record { entity = p.entity; mask = p.mask; values = p.values } };
}

impl PieceEntry {
    // The entity.
    pub(crate) fn entity(&self) -> EntityId
        ensures value { result ≡ self.now.entity }
    {
        self.entity
    }

    // The attributes whose values are there.
    pub(crate) fn mask(&self) -> u16
        ensures value { result ≡ self.now.mask }
    {
        self.mask
    }

    // The values, one after the other.
    pub(crate) fn values(&self) -> &[u8]
        ensures value { result.now ≡ self.now.values }
    {
        self.values.bytes()
    }
}

/// A list of pieces of the database: of each its entity, a mask of attributes, and their values one
/// after the other. Contracts see the list.
#[derive(Debug, Drop)]
pub struct Pieces {
    pieces: Vec<PieceEntry>,
}

impl Model for Pieces {
    ghost use Rattle.std.specs.Prelude.{List};
    ghost use Rattle.extended_spec.specs.Layouts.{Piece};

    ghost Value = { List Piece };

    ghost view = { λ p. p.pieces.items };
}

impl Pieces {
    /// No pieces.
    pub fn new(alloc: Global) -> Pieces
        ensures empty { result ≡ [] }
    {
        Pieces {
            pieces: Vec::new(alloc),
        }
    }

    /// Adds a piece at the end, with a copy of the values. `NoMemory` where there is no room for
    /// it; the list is then as it was.
    pub fn push(&mut self, entity: EntityId, mask: u16, values: &[u8]) -> Result<(), NoMemory>
        ensures ok { OnOk result (self.new
            ≡ self.old ++ (record { entity = entity; mask = mask; values = values.now }) ∷ []) }
        ensures err { OnErr result (self.new ≡ self.old) }
    {
        let values = Bytes::of(*self.pieces.allocator(), values)?;
        let piece = PieceEntry {
            entity,
            mask,
            values,
        };
        self.pieces.push(piece)?;
        Ok(())
    }

    /// How many pieces there are.
    pub fn len(&self) -> usize
        ensures value { result ≡ length self.now }
    {
        self.pieces.len()
    }

    /// Whether there is no piece.
    pub fn is_empty(&self) -> bool
        ensures value { result ≡ (length self.now == 0) }
    {
        self.pieces.is_empty()
    }

    // The piece at this place, counted from 0.
    pub(crate) fn piece(&self, place: usize) -> &PieceEntry
        requires { place < length self.now }
        ensures value { slice_get self.now place ≡ Some result.now }
    {
        &self.pieces[place]
    }

    /// The entity of the piece at this place, counted from 0.
    pub fn entity(&self, place: usize) -> EntityId
        requires { place < length self.now }
        ensures value { option_map (λ (piece : Piece). piece.entity) (slice_get self.now place)
            ≡ Some result }
    {
        self.piece(place).entity()
    }

    /// The mask of the piece at this place, counted from 0. Attribute 1 is the highest bit.
    pub fn mask(&self, place: usize) -> u16
        requires { place < length self.now }
        ensures value { option_map (λ (piece : Piece). piece.mask) (slice_get self.now place)
            ≡ Some result }
    {
        self.piece(place).mask()
    }

    /// The values of the piece at this place, counted from 0.
    pub fn values(&self, place: usize) -> &[u8]
        requires { place < length self.now }
        ensures value { option_map (λ (piece : Piece). piece.values) (slice_get self.now place)
            ≡ Some result.now }
    {
        self.piece(place).values()
    }
}

/// A row of the alarm table.
#[derive(Debug, Drop)]
pub(crate) struct RowEntry {
    entity: EntityId,
    bitmap: [u8; BITMAP_BYTES],
}

impl Model for RowEntry {
    ghost use Rattle.extended_spec.specs.Layouts.{AlarmRow};

    ghost Value = { AlarmRow };

    ghost view = { λ r. record { entity = r.entity; bitmap = r.bitmap } };
}

impl RowEntry {
    // The entity and its bitmap.
    pub(crate) fn both(&self) -> (EntityId, [u8; BITMAP_BYTES])
        ensures entity { result.0 ≡ self.now.entity }
        ensures bitmap { result.1 ≡ self.now.bitmap }
        ensures width { length self.now.bitmap ≡ BITMAP_BYTES }
    {
        (self.entity, self.bitmap)
    }
}

/// A list of rows of the alarm table: of each its entity and bitmap. Contracts see the list.
#[derive(Debug, Drop)]
pub struct Rows {
    rows: Vec<RowEntry>,
}

impl Model for Rows {
    ghost use Rattle.std.specs.Prelude.{List};
    ghost use Rattle.extended_spec.specs.Layouts.{AlarmRow};

    ghost Value = { List AlarmRow };

    ghost view = { λ r. r.rows.items };
}

impl Rows {
    /// No rows.
    pub fn new(alloc: Global) -> Rows
        ensures empty { result ≡ [] }
    {
        Rows {
            rows: Vec::new(alloc),
        }
    }

    /// Adds a row at the end. `NoMemory` where there is no room for it; the list is then as it was.
    pub fn push(&mut self, entity: EntityId, bitmap: [u8; BITMAP_BYTES]) -> Result<(), NoMemory>
        ensures ok { OnOk result (self.new
            ≡ self.old ++ (record { entity = entity; bitmap = bitmap }) ∷ []) }
        ensures err { OnErr result (self.new ≡ self.old) }
    {
        self.rows.push(RowEntry { entity, bitmap })?;
        Ok(())
    }

    /// How many rows there are.
    pub fn len(&self) -> usize
        ensures value { result ≡ length self.now }
    {
        self.rows.len()
    }

    /// Whether there is no row.
    pub fn is_empty(&self) -> bool
        ensures value { result ≡ (length self.now == 0) }
    {
        self.rows.is_empty()
    }

    // The row at this place, counted from 0.
    pub(crate) fn entry(&self, place: usize) -> &RowEntry
        requires { place < length self.now }
        ensures value { slice_get self.now place ≡ Some result.now }
    {
        &self.rows[place]
    }

    /// The entity and the bitmap of the row at this place, counted from 0.
    pub fn row(&self, place: usize) -> (EntityId, [u8; BITMAP_BYTES])
        requires { place < length self.now }
        ensures entity { option_map (λ (row : AlarmRow). row.entity) (slice_get self.now place)
            ≡ Some result.0 }
        ensures bitmap { option_map (λ (row : AlarmRow). row.bitmap) (slice_get self.now place)
            ≡ Some result.1 }
    {
        self.entry(place).both()
    }
}
