//! The manager's state (the OLT end of ITU-T G.988) and its jobs: how a resynchronisation of its
//! copy, an audit of its table and a download of an image begin, go on and end.
#![tactic(auto)]

mod audit;
mod copying;
mod jobs;
mod olt;
mod replies;
mod resync;
mod stage;
mod upgrade;

pub use olt::Olt;
pub use replies::response_of;
pub use stage::{Order, Stage};
pub use upgrade::{image_entity, start_command};
