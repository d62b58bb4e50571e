//! The manager in its seat: it takes orders and what a link gives, turn by turn, sends its packets
//! over the link, and makes the lines of what it does.
#![tactic(auto)]

mod fault;
mod seat;

pub use fault::OltFault;
pub use seat::{Room, Seat};
