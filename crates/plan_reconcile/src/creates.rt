//! The create of a new entity.

ghost use Rattle.std.specs.Prelude.{◌≡◌, ◌≤◌, Some, replicate, take, drop, if◌then◌else◌};
ghost use Rattle.class_spec.specs.Classes.{class_row};
ghost use Rattle.entity_classes.specs.Rule.{IsRow};
ghost use Rattle.plan_spec.specs.Steps.{create_of};
ghost use Rattle.plan_reconcile.specs.Items.{item_as};
ghost use Rattle.plan_reconcile.specs.Made.{step_as, made_bytes};
ghost use Rattle.frame_spec.specs.Widths.{filled};

use crate::attributes::{Part, if_so, part_at};
use crate::bytes::{cut, put_if, zeros};
use crate::items::{Item, ROOM};
use crate::steps::PlanStep;
use class_spec::CREATE_ROOM;
use entity_classes::Class;
use omci_attributes::Mask;

/// The create of a wanted entity.
pub(crate) fn create_of(class: &Class, item: &Item) -> PlanStep
    requires row { class_row item.now.entity.class ≡ Some class.now }
    requires rule { IsRow class.now }
    ensures { step_as result ≡ create_of item.now.entity (item_as item.now).1 }
{
    PlanStep::Create {
        entity: item.entity,
        values: create_values(class, item.mask, &item.values),
    }
}

/// The values of the attributes that a create sets: those that the mask names, and zeros for the
/// others.
fn create_values(class: &Class, mask: Mask, values: &[u8; ROOM]) -> [u8; CREATE_ROOM]
    requires { IsRow class.now }
    ensures { result ≡ filled CREATE_ROOM (made_bytes class.now.attributes mask.0 values.now) }
{
    let mut created = [0; CREATE_ROOM];
    let (mut to, mut from) = (0, 0);
    for place in 0..class.count() {
        let part = part_at(class, place, mask, Mask(0));
        let value = value_of(&part, values, from);
        put_if(part.created, value, &mut created, to);
        to += if_so(part.created, part.width);
        from += if_so(part.named, part.width);
    }
    created
}

/// The value that is named, and zeros where none is.
fn value_of<'a>(part: &Part, values: &'a [u8; ROOM], from: usize) -> &'a [u8]
    requires { part.now.width ≤ 25 }
    ensures { result.now ≡ (if part.now.named then take part.now.width (drop from values.now)
        else replicate part.now.width 0) }
{
    if part.named {
        cut(values, from, part.width)
    } else {
        zeros(part.width)
    }
}
