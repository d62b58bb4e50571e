//! The steps of a plan.

ghost use Rattle.std.specs.Prelude.{◌≡◌, ◌<◌, ◌==◌, length, slice_index_or};

use class_spec::{CREATE_ROOM, SET_ROOM};
use omci_attributes::Mask;
use omci_types::EntityId;
use std::marker::Model;

/// A step of a plan: a request that the unit answers by the code 0 when the steps before it were
/// carried out.
#[derive(Clone, Copy, Debug, PartialEq, Eq)]
pub enum PlanStep {
    /// The entity is deleted.
    Delete {
        entity: EntityId,
    },
    /// The entity is created, with the values of the attributes that a create sets one after the
    /// other in attribute order, and zeros after them.
    Create {
        entity: EntityId,
        values: [u8; CREATE_ROOM],
    },
    /// The named attributes are set, with their values one after the other in attribute order, and
    /// zeros after them.
    Set {
        entity: EntityId,
        mask: Mask,
        values: [u8; SET_ROOM],
    },
}

/// The steps that lead a database to the one that is wanted. `plan` makes it, and nothing changes
/// it.
#[derive(Drop)]
pub struct Plan {
    steps: Vec<PlanStep>,
}

impl Model for Plan {
    ghost use Rattle.std.specs.Prelude.{List};
    ghost use Rattle.plan_spec.specs.Steps.{Step};
    ghost use Rattle.plan_reconcile.specs.Made.{steps_of};

    ghost Value = { List Step };

    ghost view = { λ p. steps_of p.steps.items };
}

impl Plan {
    ghost use Rattle.plan_spec.specs.Steps.{Step};
    ghost use Rattle.plan_reconcile.specs.Made.{step_as, steps_of};

    pub(crate) fn of(steps: Vec<PlanStep>) -> Plan
        ensures { result ≡ steps_of steps.items }
    {
        Plan { steps }
    }

    /// How many steps there are.
    pub fn len(&self) -> usize
        ensures { result ≡ length self.now }
    {
        self.steps.len()
    }

    /// Whether nothing has to be done.
    pub fn is_empty(&self) -> bool
        ensures { result ≡ (length self.now == 0) }
    {
        self.steps.is_empty()
    }

    /// The step in this place, counted from 0 in the order in which they are carried out.
    pub fn step(&self, place: usize) -> &PlanStep
        requires { place < length self.now }
        ensures { (other : Step) → step_as result.now ≡ slice_index_or self.now place other }
    {
        &self.steps[place]
    }
}
