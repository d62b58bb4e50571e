//! The history of a run: what became of each command, and what else the laws speak of. Plain
//! definitions alone.
#![tactic(auto)]
