//! The transaction correlation identifier of ITU-T G.988, clause 11.2.2: which priority it is of,
//! and which numbers the commands of a priority have. Definitions alone.
#![tactic(auto)]

pub use frame_spec::{FIRST_HIGH_TCI, LAST_NUMBER};
