//! What ends a run before its end.

use omci_core::NoMemory;

/// Why a run ended before its end.
#[derive(Clone, Copy, Debug, PartialEq, Eq)]
pub enum OltFault {
    /// There was not enough memory.
    NoMemory,
    /// The link failed.
    Link,
    /// The sink failed.
    Write,
}

impl From<NoMemory> for OltFault {
    ghost use Rattle.std.specs.Prelude.{◌≡◌};
    ghost use Rattle.olt_seat.specs.declared.fault.OltFault.TheVariants as fault;

    ghost from_gives = { λ _ e. e ≡ fault.NoMemory };

    fn from(_error: NoMemory) -> OltFault {
        OltFault::NoMemory
    }
}
