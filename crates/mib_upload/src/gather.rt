//! The gathering of pieces.

ghost use Rattle.std.specs.Prelude.{◌≡◌, [], None, IsSome, IfOk, OnOk, OnErr, IfErr};
ghost use Rattle.upload_spec.specs.Copies.{with_piece, piece_fault, copied_counter};
ghost use Rattle.mib_store.specs.Entries.{IsAscending};
ghost use Rattle.mib_upload.specs.Parts.{keys_of};
ghost use Rattle.mib_upload.specs.Joins.{Joins, IsFault};

use crate::copy::MibCopy;
use crate::part::{Chosen, Part, first_repeated, overlay};
use crate::parts::{has_counter, part_of, put_part};
use crate::pieces::{bytes_in, entity_in, mask_in};
use entity_classes::class;
use omci_attributes::width;
use omci_types::EntityId;
use placed_list::PlacedList;
use std::alloc::Global;
use std::marker::Model;
use thiserror::Error;
use upload_spec::{PIECE_BYTES, PIECE_ROOM};

/// Why a piece was not added. The first fault that holds, in this order; the gathering is
/// unchanged.
#[derive(Clone, Copy, Debug, PartialEq, Eq, Error)]
pub enum GatherFault {
    /// All of its bytes are zero: the unit has no such piece.
    #[error("empty piece")]
    Empty,
    /// Its class isn't in the class table.
    #[error("unknown class {class}")]
    ClassUnknown { class: u16 },
    /// The known attributes of its mask need more bytes than a piece carries.
    #[error("piece too short for its mask")]
    Truncated { entity: EntityId },
    /// An earlier piece gave this attribute; it is the least such.
    #[error("attribute {attribute} given again")]
    Repeated { entity: EntityId, attribute: u8 },
    /// There was no memory for the piece.
    #[error("out of memory")]
    NoMemory,
}

/// No piece gave attribute 1 of ONU data.
#[derive(Clone, Copy, Debug, PartialEq, Eq)]
pub struct Missing;

/// The pieces of an upload that the manager has so far, joined. The manager holds it while it
/// resynchronises; `add` alone changes it and takes memory.
#[derive(Drop)]
pub struct Gather {
    parts: PlacedList<Part>,
    expected: u16,
}

impl Model for Gather {
    ghost use Rattle.mib_upload.specs.Parts.{Gathering, copy_of, IsParts};

    ghost Value = { Gathering };

    ghost view = { λ g. record { copy = copy_of g.parts; expected = g.expected } };

    ghost invariant = { λ g. IsParts g.parts };
}

impl Gather {
    ghost use Rattle.mib_upload.specs.Faults.{fault_as};

    /// No piece yet, of so many.
    pub fn new(alloc: Global, expected: u16) -> Gather
        ensures { result ≡ record { copy = []; expected = expected } }
    {
        Gather {
            parts: PlacedList::new(alloc),
            expected,
        }
    }

    /// How many pieces the unit has announced.
    pub fn expected(&self) -> u16
        ensures { result ≡ self.now.expected }
    {
        self.expected
    }

    /// Joins a piece: class, instance, mask and values. Bits of the mask past the class's last
    /// attribute are passed over with their bytes.
    pub fn add(&mut self, piece: &[u8; PIECE_BYTES]) -> Result<(), GatherFault>
        ensures good { OnOk result (piece_fault piece.now self.old.copy ≡ None) }
        ensures joined { OnOk result
            (self.new ≡ record self.old { copy = with_piece piece.now self.old.copy }) }
        ensures fault { IfErr result
            (λ fault. fault ≡ fault_as (piece_fault piece.now self.old.copy)) }
        ensures kept { OnErr result (self.new ≡ self.old) }
    {
        let part = match part_with(&self.parts, piece) {
            Ok(part) => part,
            Err(fault) => return Err(fault),
        };
        if put_part(&mut self.parts, part).is_err() {
            return Err(GatherFault::NoMemory);
        }
        Ok(())
    }

    /// The copy that the pieces make. `Missing` exactly where no piece gave attribute 1 of ONU
    /// data.
    pub fn finish(self) -> Result<MibCopy, Missing>
        ensures copy { IfOk result (λ copy. copy ≡ self.copy) }
        ensures counted { OnOk result (IsSome (copied_counter self.copy)) }
        ensures missing { OnErr result (copied_counter self.copy ≡ None) }
    {
        let Gather { parts, expected: _ } = self;
        if has_counter(&parts) {
            Ok(MibCopy::of(parts))
        } else {
            Err(Missing)
        }
    }
}

/// The part of the piece's entity with the piece joined to it, or the piece's first fault.
fn part_with(parts: &PlacedList<Part>, piece: &[u8; PIECE_BYTES]) -> Result<Part, GatherFault>
    requires { IsAscending (keys_of parts.now) }
    ensures joins { IfOk result (Joins parts.now piece.now) }
    ensures fault { IfErr result (IsFault parts.now piece.now) }
{
    if *piece == [0; PIECE_BYTES] {
        return Err(GatherFault::Empty);
    }
    let entity = entity_in(piece);
    let Some(class) = class(entity.class) else {
        return Err(GatherFault::ClassUnknown {
            class: entity.class,
        });
    };
    let mask = mask_in(piece);
    if width(&class, mask) > PIECE_ROOM {
        return Err(GatherFault::Truncated { entity });
    }
    let old = part_of(parts, entity);
    if let Some(attribute) = first_repeated(&class, mask, &old) {
        return Err(GatherFault::Repeated { entity, attribute });
    }
    let given = bytes_in(piece);
    Ok(overlay(&class, &old, Chosen::Named(mask), &given))
}
