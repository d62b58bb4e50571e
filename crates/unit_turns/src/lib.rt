//! The unit that runs alone: it listens on a link, answers each packet, counts the seconds without
//! one, starts again where it leaves, and writes the line of each of its starts.
#![tactic(auto)]

mod ending;
mod packets;
mod running;
mod starting;
mod unit;

pub use ending::{UnitEnd, UnitStatus};
pub use unit::run_unit;
