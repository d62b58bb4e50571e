//! One lane of the manager: a command that waits for its reply, when it is sent again, and when it
//! is given up (ITU-T G.988, clause 11.2.2).
#![tactic(auto)]

mod command;
mod lane;

pub use command::{Command, is_change};
pub use lane::Lane;
pub use lane_spec::{LaneTick, Purpose};
pub use message_spec::Request;
pub use omci_core::{EntityId, NoMemory, Packets, Priority, Words};
pub use omci_frames::Frame;
