//! How a plan is made.

ghost use Rattle.std.specs.Prelude.{◌≡◌, ◌++◌, OnOk, IfOk, IfErr, Ok, true, [], ◌∷◌, if◌then◌else◌};
ghost use Rattle.mib_store.specs.Entries.{IsAscending};
ghost use Rattle.mib_spec.specs.Requests.{is_class};
ghost use Rattle.plan_spec.specs.Steps.{planned, steps, deletes, entity_steps, told_of, Delete};
ghost use Rattle.plan_reconcile.specs.Items.{AreItems, IsItem, item_as, wanted_of};
ghost use Rattle.plan_reconcile.specs.Made.{steps_of};
ghost use Rattle.plan_reconcile.specs.Matched.{place_from, places_of, staying};
ghost use Rattle.plan_reconcile.specs.Answers.{Refuses};

use crate::creates::create_of;
use crate::items::{Item, item_at};
use crate::matches::{count_new, match_up};
use crate::sets::{Standing, push_sets};
use crate::steps::{Plan, PlanStep};
use crate::wanted::Wanted;
use entity_classes::class;
use mib_spec::MOST_ENTITIES;
use mib_upload::MibCopy;
use omci_attributes::Mask;
use omci_core::NoMemory;
use omci_types::EntityId;
use placed_list::PlacedList;
use std::alloc::Global;

/// Why there is no plan. The first reason that holds, in this order.
#[derive(Clone, Copy, Debug, PartialEq, Eq)]
pub enum PlanRefusal {
    /// This entity is wanted and only the unit can make it, and the copy doesn't have it; it is the
    /// least such.
    NotMade { entity: EntityId },
    /// So many entities would stand, more than a database has.
    TooMany { count: usize },
    /// There was no memory for the plan.
    NoMemory,
}

/// The plan from what the copy has to what is wanted: the copy's entities of classes made by the
/// manager that aren't wanted are deleted in ascending order; then, for each wanted entity in
/// ascending order, it is created where it is new, and its named attributes that still differ are
/// put in attribute order into as few sets as one after the other fill.
pub fn plan(alloc: Global, have: &MibCopy, want: &Wanted) -> Result<Plan, PlanRefusal>
    ensures steps { IfOk result (λ plan. planned have.now want.now ≡ Ok plan) }
    ensures refused { IfErr result (Refuses (planned have.now want.now)) }
{
    let items = want.items();
    let Ok(matches) = match_up(alloc, have, items) else {
        return Err(PlanRefusal::NoMemory);
    };
    let new = match count_new(items, &matches.places) {
        Ok(new) => new,
        Err(entity) => return Err(PlanRefusal::NotMade { entity }),
    };
    let count = matches.count.saturating_add(new);
    if count > MOST_ENTITIES {
        return Err(PlanRefusal::TooMany { count });
    }
    match all_steps(alloc, have, items, &matches.places, &matches.stays) {
        Ok(steps) => Ok(Plan::of(steps)),
        Err(NoMemory) => Err(PlanRefusal::NoMemory),
    }
}

/// The steps of the plan.
fn all_steps(
    alloc: Global,
    have: &MibCopy,
    want: &PlacedList<Item>,
    places: &[Option<usize>],
    stays: &[bool],
) -> Result<Vec<PlanStep>, NoMemory>
    requires places { places.now ≡ places_of have.now want.now }
    requires stays { stays.now ≡ staying want.now have.now }
    requires each { AreItems want.now }
    ensures { IfOk result
        (λ made. steps_of made.items ≡ steps have.now (wanted_of want.now)) }
{
    let mut steps = Vec::new(alloc);
    push_deletes(have, want, stays, &mut steps)?;
    for at in 0..want.len() {
        push_entity(have, item_at(want, at), places[at], &mut steps)?;
    }
    Ok(steps)
}

/// Appends the deletes of the entities that don't stay.
fn push_deletes(
    have: &MibCopy,
    want: &PlacedList<Item>,
    stays: &[bool],
    steps: &mut Vec<PlanStep>,
) -> Result<(), NoMemory>
    requires { stays.now ≡ staying want.now have.now }
    ensures { OnOk result (steps_of steps.new.items
        ≡ steps_of steps.old.items ++ deletes have.now (wanted_of want.now)) }
{
    for place in 0..have.len() {
        push_unless(stays[place], have.entry(place).entity, steps)?;
    }
    Ok(())
}

/// Appends the delete of the entity, unless it stays.
fn push_unless(stays: bool, entity: EntityId, steps: &mut Vec<PlanStep>) -> Result<(), NoMemory>
    ensures { OnOk result (steps_of steps.new.items
        ≡ steps_of steps.old.items ++ (if stays then [] else Delete entity ∷ [])) }
{
    if stays {
        return Ok(());
    }
    steps.push(PlanStep::Delete { entity })?;
    Ok(())
}

/// Appends the steps of a wanted entity, which stands in this place of the copy or is new.
fn push_entity(
    have: &MibCopy,
    item: &Item,
    place: Option<usize>,
    steps: &mut Vec<PlanStep>,
) -> Result<(), NoMemory>
    requires place { place ≡ place_from item.now.entity 0 have.now }
    requires known { is_class item.now.entity.class ≡ true }
    ensures { OnOk result (steps_of steps.new.items ≡ steps_of steps.old.items
        ++ entity_steps (told_of item.now.entity have.now) (item_as item.now)) }
{
    let Some(class) = class(item.entity.class) else {
        return Ok(());
    };
    match place {
        Some(place) => {
            let entry = have.entry(place);
            let standing = Standing {
                is_new: false,
                mask: entry.mask,
                values: entry.values,
            };
            push_sets(&class, item, standing, steps)?;
            Ok(())
        }
        None => {
            steps.push(create_of(&class, item))?;
            let standing = Standing {
                is_new: true,
                mask: Mask(0),
                values: &[],
            };
            push_sets(&class, item, standing, steps)?;
            Ok(())
        }
    }
}
