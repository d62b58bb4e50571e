//! The values of an entity as bytes that stand one after the other.

ghost use Rattle.std.specs.Prelude.{◌≡◌, ◌+◌, ◌<◌, ◌≤◌, ◌++◌, true, false, length, take, drop};
ghost use Rattle.std.specs.Prelude.{if◌then◌else◌};
ghost use Rattle.class_spec.specs.Classes.{Attribute as Listed};
ghost use Rattle.class_spec.specs.Masks.{width_where};
ghost use Rattle.entity_classes.specs.Rule.{IsRow, attribute_of};
ghost use Rattle.frame_spec.specs.Widths.{filled};
ghost use Rattle.mib_store.specs.Layout.{picks, chosen_bytes, with_chosen};
ghost use Rattle.mib_store.specs.Step.{IsStep};

use crate::entry::ROOM;
use bitflags::Flags;
use class_spec::GET_ROOM;
use entity_classes::{Access, Attribute, Class};
use omci_attributes::Mask;

/// Which attributes of a class a call is about.
#[derive(Clone, Copy, Debug)]
pub(crate) enum Chosen {
    /// Those that a create sets.
    Created,
    /// Those that a mask names.
    Named(Mask),
    /// The one of this number.
    Only(u8),
}

/// The values with the chosen ones cut from the given bytes, one after the other.
pub(crate) fn with_chosen(
    class: &Class,
    chosen: Chosen,
    given: &[u8],
    values: &[u8; ROOM],
) -> [u8; ROOM]
    requires { width_where (picks chosen) class.now.attributes ≤ length given.now }
    ensures { result ≡ with_chosen (picks chosen) class.now.attributes given.now values.now }
{
    let mut after = *values;
    let mut at = 0;
    let mut from = 0;
    for place in 0..class.count() {
        let step = step_at(class, chosen, place);
        from += put_if(step.picked, part(given, from, step.width), &mut after, at);
        at += step.width;
    }
    after
}

/// The chosen values, one after the other, and zeros after them.
pub(crate) fn gather(class: &Class, chosen: Chosen, values: &[u8; ROOM]) -> [u8; GET_ROOM]
    requires { width_where (picks chosen) class.now.attributes ≤ GET_ROOM }
    ensures { result
        ≡ filled GET_ROOM (chosen_bytes (picks chosen) class.now.attributes values.now) }
{
    let mut into = [0; GET_ROOM];
    let mut from = 0;
    let mut to = 0;
    for place in 0..class.count() {
        let step = step_at(class, chosen, place);
        to += put_if(step.picked, part(values, from, step.width), &mut into, to);
        from += step.width;
    }
    into
}

/// An attribute's width, and whether a call is about it.
#[derive(Clone, Copy)]
struct Step {
    picked: bool,
    width: usize,
}

/// The attribute in this place, from 0 on.
fn step_at(class: &Class, chosen: Chosen, place: u8) -> Step
    requires there { place < length class.now.attributes }
    requires rule { IsRow class.now }
    ensures { IsStep class.now.attributes (picks chosen) place result }
{
    let Some(attribute) = class.attribute(place + 1) else {
        unreachable!();
    };
    Step {
        picked: is_picked(chosen, &attribute),
        width: attribute.width as usize,
    }
}

fn is_picked(chosen: Chosen, attribute: &Attribute) -> bool
    requires from_one { 1 ≤ attribute.now.number }
    requires to_sixteen { attribute.now.number ≤ 16 }
    ensures { (one : Listed) → attribute.now ≡ attribute_of one → result ≡ picks chosen one }
{
    match chosen {
        Chosen::Created => attribute.access.contains(Access::SET_BY_CREATE),
        Chosen::Named(mask) => mask.has(attribute.number),
        Chosen::Only(number) => attribute.number == number,
    }
}

/// The bytes from this place on, as many as there are up to the width.
fn part(bytes: &[u8], from: usize, width: usize) -> &[u8]
    ensures { result.now ≡ take width (drop from bytes.now) }
{
    let rest = if from < bytes.len() {
        &bytes[from..]
    } else {
        &[]
    };
    if width < rest.len() {
        &rest[..width]
    } else {
        rest
    }
}

/// Puts the bytes there where they are picked, and answers how many it has put.
fn put_if(picked: bool, bytes: &[u8], into: &mut [u8], at: usize) -> usize
    requires { picked ≡ true → at + length bytes.now ≤ length into.old }
    ensures count { result ≡ (if picked then length bytes.now else 0) }
    ensures off { picked ≡ false → into.new ≡ into.old }
    ensures front { picked ≡ true
        → take (at + length bytes.now) into.new ≡ take at into.old ++ bytes.now }
    ensures back { picked ≡ true
        → drop (at + length bytes.now) into.new ≡ drop (at + length bytes.now) into.old }
{
    if !picked {
        return 0;
    }
    put(bytes, into, at);
    bytes.len()
}

/// Puts the bytes there.
pub(crate) fn put(bytes: &[u8], into: &mut [u8], at: usize)
    requires { at + length bytes.now ≤ length into.old }
    ensures front { take (at + length bytes.now) into.new ≡ take at into.old ++ bytes.now }
    ensures back { drop (at + length bytes.now) into.new
        ≡ drop (at + length bytes.now) into.old }
{
    into[at..at + bytes.len()].copy_from_slice(bytes);
}

/// The first bytes of the values, so many.
pub(crate) fn front(values: &[u8; ROOM], width: usize) -> &[u8]
    requires { width ≤ ROOM }
    ensures bytes { result.now ≡ take width values.now }
    ensures len { length result.now ≡ width }
{
    &values[..width]
}
