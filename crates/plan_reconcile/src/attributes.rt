//! The attributes of a class, one after the other.

ghost use Rattle.std.specs.Prelude.{◌≡◌, ◌<◌, ◌≤◌, length, if◌then◌else◌};
ghost use Rattle.class_spec.specs.Masks.{bit_of};
ghost use Rattle.entity_classes.specs.Rule.{IsRow};
ghost use Rattle.mib_spec.specs.Database.{is_by_unit};
ghost use Rattle.mib_spec.specs.Requests.{is_unit_made};
ghost use Rattle.plan_reconcile.specs.Turns.{IsPart};

use bitflags::Flags;
use entity_classes::{Access, Class, Maker, class};
use omci_attributes::Mask;

/// An attribute: its bit in a mask, its width in bytes, whether a create sets it, and which of two
/// masks name it.
#[derive(Clone, Copy)]
pub(crate) struct Part {
    pub(crate) bit: u16,
    pub(crate) width: usize,
    pub(crate) created: bool,
    pub(crate) named: bool,
    pub(crate) held: bool,
}

/// The attribute in this place, from 0 on.
pub(crate) fn part_at(class: &Class, place: u8, named: Mask, held: Mask) -> Part
    requires there { place < length class.now.attributes }
    requires rule { IsRow class.now }
    ensures { IsPart class.now.attributes place named.0 held.0 result }
{
    let Some(attribute) = class.attribute(place + 1) else {
        unreachable!();
    };
    Part {
        bit: bit(attribute.number),
        width: attribute.width as usize,
        created: attribute.access.contains(Access::SET_BY_CREATE),
        named: named.has(attribute.number),
        held: held.has(attribute.number),
    }
}

/// The mask that names the attribute of this number alone.
fn bit(number: u8) -> u16
    requires from_one { 1 ≤ number }
    requires to_sixteen { number ≤ 16 }
    ensures { result ≡ bit_of number }
{
    1 << (16 - number)
}

/// The width where it counts, else 0.
pub(crate) fn if_so(counts: bool, width: usize) -> usize
    ensures { result ≡ (if counts then width else 0) }
{
    if counts { width } else { 0 }
}

/// Whether the unit makes the instances of the class of this number.
pub(crate) fn is_unit_made(number: u16) -> bool
    ensures { result ≡ is_unit_made number }
{
    match class(number) {
        Some(class) => is_by_unit(&class),
        None => false,
    }
}

fn is_by_unit(class: &Class) -> bool
    ensures { result ≡ is_by_unit class.now.maker }
{
    match class.maker() {
        Maker::Unit => true,
        Maker::Manager => false,
    }
}
