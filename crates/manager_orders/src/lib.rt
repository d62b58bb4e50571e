//! What a line of orders, or of a script, asks of the manager, and its asking.
#![tactic(auto)]

mod asked;
mod asking;

pub use asked::{Asked, asked_by};
pub use asking::ask;
