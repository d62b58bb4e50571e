//! The groups into which the attributes of a class are cut, one for each piece.

ghost use Rattle.std.specs.Prelude.{◌≡◌, ◌+◌, ◌-◌, ◌<◌, ◌≤◌, ◌^◌, [], length, IfSome, slice_get};
ghost use Rattle.std.specs.Prelude.{◌==◌, ◌&&◌, not, if◌then◌else◌};
ghost use Rattle.class_spec.specs.Masks.{bit_of};
ghost use Rattle.entity_classes.specs.Rule.{IsRow};
ghost use Rattle.upload_spec.specs.Copies.{attributes_of};
ghost use Rattle.mib_upload.specs.Groups.{groups_of, has_room, group_with, IsListed};

use class_spec::WIDEST_CLASS;
use entity_classes::{Attribute, Class, class};
use upload_spec::PIECE_ROOM;

/// The attributes that one piece carries: where their values begin among those of the entity, how
/// many bytes these have, and the mask that names them.
#[derive(Clone, Copy, Debug)]
pub(crate) struct Group {
    pub(crate) start: usize,
    pub(crate) width: usize,
    pub(crate) mask: u16,
}

/// The group before the first attribute.
const NO_GROUP: Group = Group {
    start: 0,
    width: 0,
    mask: 0,
};

/// How many groups the class has: one or two.
pub(crate) fn group_count(number: u16) -> u16
    ensures count { result ≡ length (groups_of (attributes_of number)) }
    ensures few { result ≤ 2 }
{
    match class(number) {
        Some(class) => count_in(&class),
        None => 1,
    }
}

/// The group of this place, counted from 0. None exactly where the class has no more.
pub(crate) fn group_at(number: u16, place: u16) -> Option<Group>
    ensures group { result ≡ slice_get (groups_of (attributes_of number)) place }
    ensures room { IfSome result (λ group. group.width ≤ PIECE_ROOM) }
{
    match class(number) {
        Some(class) => group_in(&class, place),
        None => only_group(place),
    }
}

fn count_in(class: &Class) -> u16
    ensures { result ≡ length (groups_of class.now.attributes) }
{
    let mut group = NO_GROUP;
    let mut count = 1;
    for place in 0..class.count() {
        let attribute = attribute_at(class, place);
        let fits = has_room(&group, &attribute);
        group = group_with(fits, &group, &attribute);
        count += one_unless(fits);
    }
    count
}

fn group_in(class: &Class, number: u16) -> Option<Group>
    ensures group { result ≡ slice_get (groups_of class.now.attributes) number }
    ensures room { IfSome result (λ group. group.width ≤ PIECE_ROOM) }
{
    let mut group = NO_GROUP;
    let mut left = number;
    for place in 0..class.count() {
        let attribute = attribute_at(class, place);
        let fits = has_room(&group, &attribute);
        if ends_here(fits, left) {
            return Some(group);
        }
        group = group_with(fits, &group, &attribute);
        left -= one_unless(fits);
    }
    if left == 0 { Some(group) } else { None }
}

/// The one group of a class without attributes.
fn only_group(place: u16) -> Option<Group>
    ensures group { result ≡ slice_get (groups_of []) place }
    ensures room { IfSome result (λ group. group.width ≤ PIECE_ROOM) }
{
    if place == 0 { Some(NO_GROUP) } else { None }
}

/// The attribute in this place, from 0 on.
pub(crate) fn attribute_at(class: &Class, place: u8) -> Attribute
    requires there { place < length class.now.attributes }
    requires rule { IsRow class.now }
    ensures { IsListed class.now.attributes place result }
{
    let Some(attribute) = class.attribute(place + 1) else {
        unreachable!();
    };
    attribute
}

/// How many groups end before the next attribute.
fn one_unless(fits: bool) -> u16
    ensures { result ≡ (if fits then 0 else 1) }
{
    if fits { 0 } else { 1 }
}

/// Whether the group that is looked for ends before the next attribute.
fn ends_here(fits: bool, left: u16) -> bool
    ensures { result ≡ (not fits && (left == 0)) }
{
    !fits && left == 0
}

/// Whether the value goes into the group.
fn has_room(group: &Group, attribute: &Attribute) -> bool
    requires { group.now.width ≤ PIECE_ROOM }
    ensures { result ≡ has_room group.now attribute.now }
{
    group.width + attribute.width as usize <= PIECE_ROOM
}

/// The group with the attribute more, where it fits, or else the one that begins with it.
fn group_with(fits: bool, group: &Group, attribute: &Attribute) -> Group
    requires from_one { 1 ≤ attribute.now.number }
    requires to_sixteen { attribute.now.number ≤ 16 }
    requires bytes { group.now.start + group.now.width + attribute.now.width ≤ WIDEST_CLASS }
    requires mask { group.now.mask + 2 ^ (17 - attribute.now.number) ≤ 2 ^ 16 }
    ensures { result ≡ group_with fits group.now attribute.now }
{
    let width = attribute.width as usize;
    if fits {
        Group {
            start: group.start,
            width: group.width + width,
            mask: group.mask + bit(attribute.number),
        }
    } else {
        Group {
            start: group.start + group.width,
            width,
            mask: bit(attribute.number),
        }
    }
}

/// The mask that names the attribute of this number alone.
pub(crate) fn bit(number: u8) -> u16
    requires from_one { 1 ≤ number }
    requires to_sixteen { number ≤ 16 }
    ensures { result ≡ bit_of number }
{
    1 << (16 - number)
}
