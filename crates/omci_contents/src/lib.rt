//! Message contents and message text of OMCI (ITU-T G.988, clause 11.2 and annex A, baseline
//! message set): a frame is read as a message, a message is written as a frame, and a frame has a
//! text of one line.
#![tactic(auto)]

mod append;
mod fields;
mod kinds;
mod reading;
mod short_text;
mod texts;
mod writing;

pub use append::{push_bytes, push_hex, push_number, push_tci};
pub use kinds::{read_kind, write_kind};
pub use message_spec::{Action, ContentsFault, Kind, Message, Notice, Request, Response};
pub use omci_types::{Code, EntityId, Frame};
pub use reading::read_message;
pub use short_text::{FRAME_TEXT_BYTES, NUMBER_BYTES, SHORT_TEXT_BYTES, ShortText};
pub use texts::{push_contents_text, push_kind_text, push_text, text};
pub use writing::{has_valid_window, write_message};
