//! The trap of a disk in memory, call by call.
ghost use Rattle.std.specs.Prelude.{◌≡◌};
ghost use Rattle.slot_spec.specs.Rig.{trap_is_met, trap_after, fuse_is_met, trap_after_restore};
ghost use Rattle.slot_spec.specs.Rig.{pick_of};

use slot_spec::{Pick, Trap};

// Whether the next call meets the trap.
pub fn is_met(trap: Trap) -> bool
    ensures met { result ≡ trap_is_met trap }
{
    match trap {
        Trap::Fuse { call, .. } => call <= 1,
        Trap::Fail { call } => call <= 1,
        Trap::Clear => false,
    }
}

// Whether the next call is the one at which a fuse stops the power.
pub fn meets_fuse(trap: Trap) -> bool
    ensures met { result ≡ fuse_is_met trap }
{
    match trap {
        Trap::Fuse { call, .. } => call == 1,
        _ => false,
    }
}

// The trap after one more call.
pub fn one_call_nearer(trap: Trap) -> Trap
    ensures after { result ≡ trap_after trap }
{
    match trap {
        Trap::Fuse { call, pick } => Trap::Fuse {
            call: call.saturating_sub(1),
            pick,
        },
        Trap::Fail { call } => {
            if call <= 1 {
                Trap::Clear
            } else {
                Trap::Fail { call: call - 1 }
            }
        }
        Trap::Clear => Trap::Clear,
    }
}

// The trap once the power is back: a fuse that was reached is spent.
pub fn without_spent_fuse(trap: Trap) -> Trap
    ensures after { result ≡ trap_after_restore trap }
{
    match trap {
        Trap::Fuse { call: 0, .. } => Trap::Clear,
        other => other,
    }
}

// What a cut gives to the bytes that were written: the fuse's pick, and the new bytes where there
// is no fuse.
pub fn pick(trap: Trap) -> Pick
    ensures pick { result ≡ pick_of trap }
{
    match trap {
        Trap::Fuse { pick, .. } => pick,
        _ => Pick::New,
    }
}
