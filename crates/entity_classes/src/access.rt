//! What may be done to an attribute.

ghost use Rattle.std.specs.Prelude.{⊤, [], ◌∷◌, codes};

use bitflags::{Flag, Flags, bitflag_items};

/// The rights of a manager on an attribute (ITU-T G.988, clause 9): read, write, set by create.
/// Each attribute may be read.
#[derive(Clone, Copy, Debug, PartialEq, Eq)]
pub struct Access(u8);

bitflag_items! {
    impl Access: u8 {
        const READ = 1;
        const WRITE = 2;
        const SET_BY_CREATE = 4;
    }
}

impl Flags for Access {
    type Bits = u8;

    ghost exact = { ⊤ };

    ghost table = { (codes "READ", 1) ∷ (codes "WRITE", 2) ∷ (codes "SET_BY_CREATE", 4) ∷ [] };

    ghost set_of = { λ access. access.0 };

    fn flags<'a>() -> &'a [Flag<Access>] {
        Access::FLAGS
    }

    fn bits(&self) -> u8 {
        self.0
    }

    fn from_bits_retain(bits: u8) -> Access {
        Access(bits)
    }
}

/// An attribute that may only be read.
pub(crate) const R: Access = Access(1);

/// An attribute that may be written.
pub(crate) const W: Access = Access(3);

/// An attribute that may be written and is set by create.
pub(crate) const C: Access = Access(7);
