//! The unit (the ONU end of ITU-T G.988): it carries requests out on its database, gives the kept
//! reply to a request that comes again, uploads its database piece by piece and its alarms row by
//! row, takes software images over, and tells of what it notices by itself.
#![tactic(auto)]

mod agent;
mod alarms;
mod audit;
mod deed;
mod desk;
mod images;
mod notices;
mod requests;
mod store;
mod unit;
mod upload;

pub use agent::{Agent, StartRefusal};
pub use alarm_spec::BITMAP_BYTES;
pub use slot_disk::{Disk, Rig, Trap};
pub use unit_spec::{Did, Note, Noticed};
