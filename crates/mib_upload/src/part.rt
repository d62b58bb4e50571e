//! What the copy has of an entity.

ghost use Rattle.std.specs.Prelude.{◌≡◌, ◌+◌, ◌<◌, ◌≤◌, ◌∷◌, [], ◌++◌, true, false, length, drop};
ghost use Rattle.std.specs.Prelude.{if◌then◌else◌, ◌||◌, ◌&&◌, Some};
ghost use Rattle.class_spec.specs.Classes.{Attribute as Listed, class_row};
ghost use Rattle.class_spec.specs.Masks.{has, mask_where, width_where};
ghost use Rattle.entity_classes.specs.Rule.{IsRow, attribute_of};
ghost use Rattle.upload_spec.specs.Pieces.{values_named};
ghost use Rattle.upload_spec.specs.Copies.{first_repeated};
ghost use Rattle.mib_upload.specs.Merged.{picks, picks_or, value_of, merged_values, IsStep};

use crate::groups::{attribute_at, bit};
use crate::pieces::{cut, put};
use bitflags::Flags;
use class_spec::WIDEST_CLASS;
use entity_classes::{Access, Attribute, Class};
use omci_attributes::Mask;
use omci_types::EntityId;

/// The bytes of the values of a part.
pub(crate) const ROOM: usize = WIDEST_CLASS;

/// An entity of the copy: the attributes that it has a value of, and these values one after the
/// other in attribute order, with zeros after them.
#[derive(Clone, Copy, Debug)]
pub(crate) struct Part {
    pub(crate) entity: EntityId,
    pub(crate) mask: Mask,
    pub(crate) values: [u8; ROOM],
}

/// Which attributes of a class have new values.
#[derive(Clone, Copy, Debug)]
pub(crate) enum Chosen {
    /// Those that a create sets.
    Created,
    /// Those that a mask names.
    Named(Mask),
}

/// The part with the chosen values, cut from the given bytes, in place of those that it had.
pub(crate) fn overlay(class: &Class, old: &Part, chosen: Chosen, given: &[u8]) -> Part
    requires { width_where (picks chosen) class.now.attributes ≤ length given.now }
    ensures entity { result.entity ≡ old.now.entity }
    ensures mask { result.mask.0
        ≡ mask_where (picks_or chosen old.now.mask.0) class.now.attributes }
    ensures values { values_named class.now.attributes result.mask.0 result.values
        ≡ merged_values (picks chosen) class.now.attributes given.now
        old.now.mask.0 old.now.values }
{
    let (mask, values) = merge(class, chosen, given, old.mask, &old.values);
    Part {
        entity: old.entity,
        mask,
        values,
    }
}

/// The chosen values, cut from the given bytes, and of the other attributes the values that the
/// mask names, cut from the old bytes: the mask of both, and their bytes.
fn merge(
    class: &Class,
    chosen: Chosen,
    given: &[u8],
    held: Mask,
    old: &[u8; ROOM],
) -> (Mask, [u8; ROOM])
    requires { width_where (picks chosen) class.now.attributes ≤ length given.now }
    ensures mask { result.0.0 ≡ mask_where (picks_or chosen held.0) class.now.attributes }
    ensures values { values_named class.now.attributes result.0.0 result.1
        ≡ merged_values (picks chosen) class.now.attributes given.now held.0 old.now }
{
    let mut values = [0; ROOM];
    let mut mask = 0;
    let (mut to, mut from, mut from_old) = (0, 0, 0);
    for place in 0..class.count() {
        let step = step_at(class, chosen, held, place);
        let value = value_of(&step, given, from, old, from_old);
        put(value, &mut values, to);
        mask += bit_if_so(is_there(&step), step.bit);
        to += if_so(is_there(&step), step.width);
        from += if_so(step.picked, step.width);
        from_old += if_so(step.had, step.width);
    }
    (Mask(mask), values)
}

/// An attribute's bit in a mask, its width, whether it has a new value, and whether it had one.
#[derive(Clone, Copy)]
struct Step {
    bit: u16,
    width: usize,
    picked: bool,
    had: bool,
}

/// The attribute in this place, from 0 on.
fn step_at(class: &Class, chosen: Chosen, old: Mask, place: u8) -> Step
    requires there { place < length class.now.attributes }
    requires rule { IsRow class.now }
    ensures { IsStep class.now.attributes (picks chosen) old.0 place result }
{
    let attribute = attribute_at(class, place);
    Step {
        bit: bit(attribute.number),
        width: attribute.width as usize,
        picked: is_picked(chosen, &attribute),
        had: old.has(attribute.number),
    }
}

fn is_picked(chosen: Chosen, attribute: &Attribute) -> bool
    requires from_one { 1 ≤ attribute.now.number }
    requires to_sixteen { attribute.now.number ≤ 16 }
    ensures { (one : Listed) → attribute.now ≡ attribute_of one → result ≡ picks chosen one }
{
    match chosen {
        Chosen::Created => attribute.access.contains(Access::SET_BY_CREATE),
        Chosen::Named(mask) => mask.has(attribute.number),
    }
}

/// The attribute's new value, or else the one that it had, or else nothing.
fn value_of<'a>(
    step: &Step,
    given: &'a [u8],
    from: usize,
    old: &'a [u8; ROOM],
    from_old: usize,
) -> &'a [u8]
    ensures { result.now ≡ value_of step.now.picked step.now.had step.now.width
        (drop from given.now) (drop from_old old.now) }
{
    if step.picked {
        return cut(given, from, step.width);
    }
    if step.had {
        return cut(old, from_old, step.width);
    }
    &[]
}

/// Whether the attribute has a value.
fn is_there(step: &Step) -> bool
    ensures { result ≡ (step.now.picked || step.now.had) }
{
    step.picked || step.had
}

fn if_so(passes: bool, width: usize) -> usize
    ensures { result ≡ (if passes then width else 0) }
{
    if passes { width } else { 0 }
}

fn bit_if_so(passes: bool, bit: u16) -> u16
    ensures { result ≡ (if passes then bit else 0) }
{
    if passes { bit } else { 0 }
}

/// The least attribute that the mask names and the part has already.
pub(crate) fn first_repeated(class: &Class, mask: Mask, old: &Part) -> Option<u8>
    ensures { result ≡ first_repeated class.now.attributes mask.0
        (values_named class.now.attributes old.now.mask.0 old.now.values) }
{
    for place in 0..class.count() {
        let number = attribute_at(class, place).number;
        if is_in_both(mask, old.mask, number) {
            return Some(number);
        }
    }
    None
}

/// Whether both masks name the attribute.
fn is_in_both(mask: Mask, other: Mask, number: u8) -> bool
    requires from_one { 1 ≤ number }
    requires to_sixteen { number ≤ 16 }
    ensures { result ≡ (has mask.0 number && has other.0 number) }
{
    mask.has(number) && other.has(number)
}
