//! Both ends over a simulated link: a world runs the events of a script one after the other, and
//! appends the lines of the trace.
#![tactic(auto)]

mod delivering;
mod machine;
mod unit;
mod world;

pub use trace_lines::{Lines, RunFault};
pub use world::World;
