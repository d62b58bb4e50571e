//! The plan that leads a unit's database to the one that is wanted: from a manager's copy of what
//! is there and the entities that are wanted to the deletes, creates and sets between them.
#![tactic(auto)]

mod attributes;
mod bytes;
mod creates;
mod items;
mod matches;
mod reconcile;
mod sets;
mod steps;
mod wanted;

pub use reconcile::{PlanRefusal, plan};
pub use steps::{Plan, PlanStep};
pub use wanted::{WantFault, Wanted};
