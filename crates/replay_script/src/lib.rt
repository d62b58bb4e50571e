//! Scripts and orders: a header and events, as text. `read` and `read_orders` take the bytes apart,
//! or answer the first fault by its line and its reason; `print` writes a script's canonical text.
#![tactic(auto)]

mod events;
mod orders;
mod printing;
mod reading;
mod script;

pub use line_words::{FewBytes, ScriptRefusal};
pub use orders::Orders;
pub use printing::print;
pub use reading::{read, read_orders};
pub use script::{Event, Header, Script};
pub use slot_spec::Pick as CutPick;
