//! The unit's database: a table of the entities with the bytes of their attributes, and an index in
//! ascending order.
#![tactic(auto)]

mod admit;
mod answers;
mod entry;
mod first;
mod layout;
mod mib;
mod requests;
mod search;
mod table;

pub use answers::{GetAnswer, SetAnswer};
pub use mib::Mib;
pub use mib_spec::Sensed;
pub use omci_attributes::Mask;
pub use omci_core::NoMemory;
pub use requests::is_counter_set;
pub use search::place_between;
