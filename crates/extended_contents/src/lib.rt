//! What extended frames say in this project's profile of ITU-T G.988: their messages, read from
//! contents and written as contents, the lists that they hold, and what contents need.
#![tactic(auto)]

mod fields;
mod lists;
mod long_frame;
mod message;
mod needs;
mod reading;
mod room;
mod writing;

pub use extended_spec::{LongFault, MAX_LONG_CONTENTS};
pub use lists::{Pieces, Rows};
pub use long_frame::LongFrame;
pub use message::{LongMessage, LongNotice, LongRequest, LongResponse};
pub use needs::need;
pub use reading::{kind_at, read_long};
pub use room::fits_long_frame;
pub use writing::{has_valid_long_window, write_long};
