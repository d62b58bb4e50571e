//! The drill: the lines of a long script are made one step after the other and run on a world, the
//! lines of its trace are counted, and one line tells their numbers. The script is never held
//! whole.
#![tactic(auto)]

mod drilling;
mod events;
mod place;
mod runs;
mod steps;
mod tally;
mod word;

pub use drilling::drill;
