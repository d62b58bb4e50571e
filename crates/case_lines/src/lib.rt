//! Tests as lines of text: a call on each line and, after ` = `, the answer that is wanted. A program
//! that makes one crate's calls is a `Cases`; `judge` goes over the lines of its input.
//!
//! Empty lines and lines that begin with `#` are passed over. A line without ` =` wants an empty
//! answer. Answers are compared without the spaces around them.
#![tactic(auto)]

mod digits;
mod lines;

pub use digits::{array_of, bytes_of, hex_of, short_hex_of, u8_of, u16_of, u32_of, u64_of};
pub use lines::{Cases, judge};
pub use omci_core::NoMemory;
