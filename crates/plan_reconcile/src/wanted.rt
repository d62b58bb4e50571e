//! What is wanted of a database.

ghost use Rattle.std.specs.Prelude.{◌≡◌, ◌+◌, ◌≤◌, false, [], None, IfOk, IfErr, OnOk, OnErr, MatchOption};
ghost use Rattle.std.specs.Prelude.{length};
ghost use Rattle.frame_spec.specs.Widths.{filled};
ghost use Rattle.mib_store.specs.Entries.{IsAscending};
ghost use Rattle.plan_spec.specs.Wanting.{wanted_fault, with_wanted, is_wantable};
ghost use Rattle.plan_reconcile.specs.Items.{keys_of, IsWantable};
ghost use Rattle.plan_reconcile.specs.Faults.{Admits, IsFault};

use crate::bytes::put;
use crate::items::{Item, ROOM, find};
use class_spec::ONU_DATA;
use entity_classes::{Class, class};
use omci_attributes::{Mask, select};
use omci_types::EntityId;
use placed_list::PlacedList;
use std::alloc::Global;
use std::marker::Model;

/// Why something wanted was not added. The first fault that holds, in this order; nothing has
/// changed.
#[derive(Clone, Copy, Debug, PartialEq, Eq)]
pub enum WantFault {
    /// The class isn't in the class table, or is ONU data.
    ClassUnknown,
    /// Of the named attributes, those that the class doesn't have or that may not be written.
    NotWritable { mask: Mask },
    /// The named attributes need so many bytes, and there are others.
    Width { need: usize, have: usize },
    /// The entity was added before.
    Repeated,
    /// There was no memory for the entity.
    NoMemory,
}

/// What is wanted of a unit's database: entities, and values of their attributes that may be
/// written. Whoever plans holds it; `add` alone changes it and takes memory. At most 65,536
/// entities have room.
#[derive(Drop)]
pub struct Wanted {
    items: PlacedList<Item>,
}

impl Model for Wanted {
    ghost use Rattle.upload_spec.specs.Pieces.{Copy};
    ghost use Rattle.plan_reconcile.specs.Items.{wanted_of, IsWanted};

    ghost Value = { Copy };

    ghost view = { λ w. wanted_of w.items };

    ghost invariant = { λ w. IsWanted w.items };
}

impl Wanted {
    ghost use Rattle.plan_reconcile.specs.Items.{wanted_of, IsWanted};
    ghost use Rattle.plan_reconcile.specs.Faults.{want_fault_as};

    /// Nothing is wanted yet.
    pub fn new(alloc: Global) -> Wanted
        ensures { result ≡ [] }
    {
        Wanted {
            items: PlacedList::new(alloc),
        }
    }

    /// The wanted entities, in ascending order.
    pub(crate) fn items(&self) -> &PlacedList<Item>
        ensures seen { wanted_of result.now ≡ self.now }
        ensures rule { IsWanted result.now }
    {
        &self.items
    }

    /// Wants the entity, and the values of the attributes that the mask names, one after the other
    /// in attribute order. After a fault nothing has changed.
    pub fn add(&mut self, entity: EntityId, mask: Mask, values: &[u8]) -> Result<(), WantFault>
        ensures good { OnOk result (wanted_fault entity mask.0 values.now self.old ≡ None) }
        ensures added { OnOk result
            (self.new ≡ with_wanted entity mask.0 values.now self.old) }
        ensures fault { IfErr result
            (λ fault. fault ≡ want_fault_as (wanted_fault entity mask.0 values.now self.old)) }
        ensures kept { OnErr result (self.new ≡ self.old) }
    {
        let at = admit(&self.items, entity, mask, values)?;
        let Ok(()) = self.items.insert(at, item_of(entity, mask, values)) else {
            return Err(WantFault::NoMemory);
        };
        Ok(())
    }
}

/// The place where the entity goes, or its first fault.
fn admit(
    items: &PlacedList<Item>,
    entity: EntityId,
    mask: Mask,
    values: &[u8],
) -> Result<usize, WantFault>
    requires { IsAscending (keys_of items.now) }
    ensures admitted { IfOk result (Admits items.now entity mask values.now) }
    ensures fault { IfErr result (IsFault items.now entity mask values.now) }
{
    let Some(class) = wantable_class(entity.class) else {
        return Err(WantFault::ClassUnknown);
    };
    let selection = select(&class, mask);
    let not_writable = sum(mask.0, selection.unknown.0, selection.fixed.0);
    if not_writable != 0 {
        return Err(WantFault::NotWritable {
            mask: Mask(not_writable),
        });
    }
    if values.len() != selection.width {
        return Err(WantFault::Width {
            need: selection.width,
            have: values.len(),
        });
    }
    match find(items, entity) {
        Ok(_) => Err(WantFault::Repeated),
        Err(at) => Ok(at),
    }
}

/// The class of this number, where its entities may be wanted.
fn wantable_class(number: u16) -> Option<Class>
    ensures { MatchOption result (is_wantable number ≡ false) (IsWantable number) }
{
    if number == ONU_DATA.class {
        return None;
    }
    class(number)
}

/// The mask of both parts of a mask.
fn sum(mask: u16, one: u16, other: u16) -> u16
    requires { one + other ≤ mask }
    ensures { result ≡ one + other }
{
    one + other
}

/// The item of an entity.
fn item_of(entity: EntityId, mask: Mask, given: &[u8]) -> Item
    requires { length given.now ≤ ROOM }
    ensures { result ≡ record {
      entity = entity;
      mask = mask;
      values = filled ROOM given.now;
    } }
{
    let mut values = [0; ROOM];
    put(given, &mut values, 0);
    Item {
        entity,
        mask,
        values,
    }
}
