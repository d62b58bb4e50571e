//! Texts of lines: which lines are passed over, the words of a line, and the names, numbers and
//! bytes that words stand for, each as the definitions of scripts have it.
#![tactic(auto)]

mod few_bytes;
mod lines;
mod refusal;
mod words;

pub use few_bytes::FewBytes;
pub use lines::{FirstLine, header_line, is_passed_over, next_line};
pub use refusal::{LineRefusal, ScriptRefusal};
pub use words::LineWords;
