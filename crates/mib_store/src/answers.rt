//! What a set and a get answer.

use class_spec::GET_ROOM;
use omci_attributes::Mask;
use omci_types::Code;

/// The answer of `Mib::set`. The masks are zero but with the code 9.
#[derive(Clone, Copy, Debug, PartialEq, Eq)]
pub struct SetAnswer {
    /// Whether the values were stored, or why not.
    pub code: Code,
    /// The named attributes that the class doesn't have.
    pub unsupported: Mask,
    /// Those that may not be written.
    pub failed: Mask,
}

/// The answer of `Mib::get`. Mask and values are zero but with the codes 0 and 9.
#[derive(Clone, Copy, Debug, PartialEq, Eq)]
pub struct GetAnswer {
    /// Whether values were found, or why not.
    pub code: Code,
    /// The named attributes that the class has.
    pub mask: Mask,
    /// Their values, one after the other in attribute order, and zeros after them.
    pub values: [u8; GET_ROOM],
    /// The named attributes that the class doesn't have, with the code 9.
    pub unsupported: Mask,
}
