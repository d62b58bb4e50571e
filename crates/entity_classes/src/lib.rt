//! The managed entity classes of this profile (ITU-T G.988, clause 9): who makes each, and its
//! attributes with their widths and access.
#![tactic(auto)]

mod access;
mod classes;
mod kinds;
mod lookup;

pub use access::Access;
pub use class_spec::Maker;
pub use classes::{Attribute, Class};
pub use lookup::class;
