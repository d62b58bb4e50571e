//! The lines of a trace: the text of each effect and each report of the manager, appended whole,
//! and their writing to a sink in pieces.
#![tactic(auto)]

mod lines;
mod reports;
mod texts;
mod writing;

pub use lines::Lines;
pub use reports::push_reports;
pub use texts::{push_carried_line, push_line, push_sent_line};
pub use writing::{RunFault, write_piece};
