//! Alarms of both ends: the unit's log, which tells each change under a number, its snapshots, and
//! the manager's table, which follows the notices and is read anew by an audit.
#![tactic(auto)]

mod log;
mod row;
mod rows;
mod table;

pub use alarm_spec::{BITMAP_BYTES, ROW_BYTES, TakenAlarm};
pub use log::{AlarmLog, AlarmSnapshot};
pub use message_spec::Notice;
pub use omci_core::NoMemory;
pub use table::{AlarmTable, RowFault};
