//! The commands `show` and `check` over a source: a stream of frames of both message sets is read
//! in pieces of 64 KiB, and the text of each frame is written, or the frames are counted.
#![tactic(auto)]

mod buffer;
mod counting;
mod ends;
mod pieces;
mod showing;

pub use counting::{Counts, check, push_count_text};
pub use ends::StreamEnd;
pub use showing::show;
