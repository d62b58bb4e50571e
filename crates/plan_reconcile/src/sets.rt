//! The sets of an entity: its named attributes that still differ, put greedily into requests.

ghost use Rattle.std.specs.Prelude.{◌≡◌, ◌+◌, ◌<◌, ◌≤◌, ◌^◌, ◌++◌, ◌&&◌, not, ℕ, List, OnOk, IfOk, Some, length};
ghost use Rattle.frame_spec.specs.Widths.{filled};
ghost use Rattle.class_spec.specs.Classes.{class_row};
ghost use Rattle.entity_classes.specs.Rule.{IsRow};
ghost use Rattle.plan_spec.specs.Steps.{sets};
ghost use Rattle.plan_reconcile.specs.Items.{item_as};
ghost use Rattle.plan_reconcile.specs.Made.{steps_of};
ghost use Rattle.plan_reconcile.specs.Turns.{held_from, has_already, flushed, Adds};

use crate::attributes::{Part, if_so, part_at};
use crate::bytes::{cut, put, zeros};
use crate::items::Item;
use crate::steps::PlanStep;
use class_spec::SET_ROOM;
use entity_classes::Class;
use omci_attributes::Mask;
use omci_core::NoMemory;
use omci_types::EntityId;

/// What stands of an entity before its sets: what the copy has of it, or what its create gave.
#[derive(Clone, Copy)]
pub(crate) struct Standing<'a> {
    pub(crate) is_new: bool,
    pub(crate) mask: Mask,
    pub(crate) values: &'a [u8],
}

/// The attributes of a set that isn't full yet, with zeros after their values.
#[derive(Clone, Copy)]
struct Group {
    mask: u16,
    values: [u8; SET_ROOM],
    width: usize,
}

const NO_GROUP: Group = Group {
    mask: 0,
    values: [0; SET_ROOM],
    width: 0,
};

/// Appends the sets of a wanted entity.
pub(crate) fn push_sets(
    class: &Class,
    item: &Item,
    standing: Standing<'_>,
    steps: &mut Vec<PlanStep>,
) -> Result<(), NoMemory>
    requires row { class_row item.now.entity.class ≡ Some class.now }
    requires rule { IsRow class.now }
    ensures { OnOk result (steps_of steps.new.items ≡ steps_of steps.old.items
        ++ sets item.now.entity (held_from standing.entry class.now.attributes 0) (item_as item.now).1) }
{
    let mut group = NO_GROUP;
    let (mut from, mut from_held) = (0, 0);
    for place in 0..class.count() {
        let part = part_at(class, place, item.mask, standing.mask);
        let value = cut(&item.values, from, part.width);
        let differs = differs(&part, standing, from_held, value);
        group = add_if(differs, item.entity, group, part.bit, value, steps)?;
        from += if_so(part.named, part.width);
        from_held += if_so(part.held, part.width);
    }
    flush(item.entity, &group, steps)?;
    Ok(())
}

/// Whether the attribute is named and hasn't its wanted value already.
fn differs(part: &Part, standing: Standing<'_>, from: usize, value: &[u8]) -> bool
    requires { part.now.width ≤ 25 }
    ensures { result ≡ (part.now.named
        && not (has_already standing.entry part.now from value.now)) }
{
    part.named && !has_already(part, standing, from, value)
}

/// Whether the attribute has the value: in the copy, or in a new entity, where an attribute that a
/// create sets has its value and any other is zero.
fn has_already(part: &Part, standing: Standing<'_>, from: usize, value: &[u8]) -> bool
    requires { part.now.width ≤ 25 }
    ensures { result ≡ has_already standing.entry part.now from value.now }
{
    if standing.is_new {
        part.created || *zeros(part.width) == *value
    } else {
        part.held && *cut(standing.values, from, part.width) == *value
    }
}

/// The group with a value more, where it differs. Where the group has no room for it, a set of it is
/// appended first, and the value begins a group of its own.
fn add_if(
    differs: bool,
    entity: EntityId,
    group: Group,
    bit: u16,
    value: &[u8],
    steps: &mut Vec<PlanStep>,
) -> Result<Group, NoMemory>
    requires value { length value.now ≤ 25 }
    requires width { group.width ≤ SET_ROOM }
    requires mask { group.mask + bit < 2 ^ 16 }
    ensures { IfOk result
        (Adds differs entity group bit value.now steps.old.items steps.new.items) }
{
    if !differs {
        return Ok(group);
    }
    if group.width + value.len() <= SET_ROOM {
        return Ok(with_value(group, bit, value));
    }
    flush(entity, &group, steps)?;
    Ok(with_value(NO_GROUP, bit, value))
}

/// The group with a value that has room in it.
fn with_value(group: Group, bit: u16, value: &[u8]) -> Group
    requires room { group.width + length value.now ≤ SET_ROOM }
    requires mask { group.mask + bit < 2 ^ 16 }
    ensures mask { result.mask ≡ group.mask + bit }
    ensures width { result.width ≡ group.width + length value.now }
    ensures values { (before : List ℕ) → length before ≡ group.width
        → group.values ≡ filled SET_ROOM before
        → result.values ≡ filled SET_ROOM (before ++ value.now) }
{
    let mut values = group.values;
    put(value, &mut values, group.width);
    Group {
        mask: group.mask + bit,
        values,
        width: group.width + value.len(),
    }
}

/// Appends a set of the group, where it has an attribute.
fn flush(entity: EntityId, group: &Group, steps: &mut Vec<PlanStep>) -> Result<(), NoMemory>
    ensures { OnOk result (steps_of steps.new.items
        ≡ steps_of steps.old.items ++ flushed entity group.now) }
{
    if group.mask == 0 {
        return Ok(());
    }
    steps.push(PlanStep::Set {
        entity,
        mask: Mask(group.mask),
        values: group.values,
    })?;
    Ok(())
}
