//! What a mask selects of a class, and where the selected values stand.

ghost use Rattle.std.specs.Prelude.{◌≡◌, ◌+◌, ◌<◌, ◌≤◌, length, drop};
ghost use Rattle.class_spec.specs.Masks.{mask_where, width_where, known_mask, unknown_mask};
ghost use Rattle.class_spec.specs.Masks.{fixed_mask, width_of, place_of};
ghost use Rattle.entity_classes.specs.Rule.{IsRow};
ghost use Rattle.omci_attributes.specs.Placed.{is_selected, is_fixed, placed};

use crate::mask::{Mask, bit};
use bitflags::Flags;
use entity_classes::{Access, Class};

/// Why a value has no place among the selected values.
#[derive(Clone, Copy, Debug, PartialEq, Eq)]
pub enum MaskFault {
    /// The class has no such attribute, or the mask doesn't name it.
    Unknown { mask: Mask },
    /// The value ends after the room, counted in bytes.
    DoesNotFit { need: usize, room: usize },
}

/// What a mask selects of a class.
#[derive(Clone, Copy, Debug, PartialEq, Eq)]
pub struct Selection {
    /// The named attributes that the class has.
    pub known: Mask,
    /// Those that it doesn't have.
    pub unknown: Mask,
    /// Those that it has and that may not be written.
    pub fixed: Mask,
    /// The bytes of the values of the known ones together.
    pub width: usize,
}

/// What the mask selects of the class, by one pass over its attributes. It takes no memory.
pub fn select(class: &Class, mask: Mask) -> Selection
    ensures known { result.known.0 ≡ known_mask class.now mask.0 }
    ensures unknown { result.unknown.0 ≡ unknown_mask class.now mask.0 }
    ensures fixed { result.fixed.0 ≡ fixed_mask class.now mask.0 }
    ensures width { result.width ≡ width_of class.now mask.0 }
{
    let mut known = 0;
    let mut fixed = 0;
    let mut width = 0;
    for place in 0..class.count() {
        let part = part(class, mask, place);
        known += part.known;
        fixed += part.fixed;
        width += part.width;
    }
    Selection {
        known: Mask(known),
        unknown: Mask(mask.0 - known),
        fixed: Mask(fixed),
        width,
    }
}

/// Of the attributes that the mask names, those that the class has.
pub fn known(class: &Class, mask: Mask) -> Mask
    ensures { result.0 ≡ known_mask class.now mask.0 }
{
    select(class, mask).known
}

/// The bytes of the values of the named attributes that the class has.
pub fn width(class: &Class, mask: Mask) -> usize
    ensures { result ≡ width_of class.now mask.0 }
{
    select(class, mask).width
}

/// Where the attribute's value begins among the values of the named attributes, which stand one
/// after the other in attribute order. The first fault that holds: `Unknown` exactly where the
/// class has no attribute of this number or the mask doesn't name it, and `DoesNotFit` exactly
/// where the value ends after the room, in bytes.
pub fn place(class: &Class, mask: Mask, number: u8, room: usize) -> Result<usize, MaskFault>
    ensures { result ≡ placed class.now mask number room }
{
    let Some(attribute) = class.attribute(number) else {
        return Err(MaskFault::Unknown { mask });
    };
    if !mask.has(number) {
        return Err(MaskFault::Unknown { mask });
    }
    let place = before(class, mask, number);
    let need = place + attribute.width as usize;
    if need > room {
        return Err(MaskFault::DoesNotFit { need, room });
    }
    Ok(place)
}

/// The bytes of the named values before this attribute's.
fn before(class: &Class, mask: Mask, number: u8) -> usize
    requires from_one { 1 ≤ number }
    requires there { number ≤ length class.now.attributes }
    requires rule { IsRow class.now }
    ensures sum { result ≡ place_of class.now mask.0 number }
    ensures bound { result ≤ 45 }
{
    let mut place = 0;
    for earlier in 0..number - 1 {
        place += part(class, mask, earlier).width;
    }
    place
}

/// What one attribute adds to a selection.
#[derive(Clone, Copy)]
struct Share {
    known: u16,
    fixed: u16,
    width: usize,
}

/// What the attribute in this place, from 0 on, adds.
fn part(class: &Class, mask: Mask, place: u8) -> Share
    requires there { place < length class.now.attributes }
    requires rule { IsRow class.now }
    ensures known { mask_where (is_selected mask) (drop place class.now.attributes)
        ≡ result.known + mask_where (is_selected mask) (drop (place + 1) class.now.attributes) }
    ensures fixed { mask_where (is_fixed mask) (drop place class.now.attributes)
        ≡ result.fixed + mask_where (is_fixed mask) (drop (place + 1) class.now.attributes) }
    ensures width { width_where (is_selected mask) (drop place class.now.attributes)
        ≡ result.width + width_where (is_selected mask) (drop (place + 1) class.now.attributes) }
{
    let none = Share {
        known: 0,
        fixed: 0,
        width: 0,
    };
    let Some(attribute) = class.attribute(place + 1) else {
        return none;
    };
    if !mask.has(attribute.number) {
        return none;
    }
    let known = bit(attribute.number);
    let width = attribute.width as usize;
    if attribute.access.contains(Access::WRITE) {
        return Share {
            known,
            fixed: 0,
            width,
        };
    }
    Share {
        known,
        fixed: known,
        width,
    }
}
