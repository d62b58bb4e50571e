//! The trait of a link: its calls, and what they mean where it tells.

ghost use Rattle.std.specs.Prelude.{◌≡◌, ℕ, ◌≤◌, List, length, Option, IfOk, MatchResult};
ghost use Rattle.omci_core.specs.Causes.{HasCause};
ghost use Rattle.turn_spec.specs.Arrivals.{Arrival};
ghost use Rattle.omci_link.specs.Arrivals.{arrived, HasPacketBound, IsFirst};
ghost use Rattle.omci_link.specs.Arrivals.{left_after, sent_after};

use crate::arrival::Arrival;
use omci_core::{Failed, MAX_PACKET_BYTES};

/// What packets come on and go out by. A link has a count of its faults, which never falls.
///
/// Where a link tells the arrivals left and the packets sent, its calls have the meanings below. A
/// link that tells nothing, as one over a socket does, meets the clauses by its count of faults
/// alone. A call that failed takes no arrival and sends no packet.
pub trait Link {
    // The arrivals that are left: what calls of `next` will answer from here on, where it is told.
    // After the last of them the link is closed.
    ghost left: { Self → Option (List Arrival) };

    // The packets that were sent so far, where they are told.
    ghost sent: { Self → Option (List (List ℕ)) };

    // How many faults the link has had.
    ghost faults: { Self → ℕ };

    /// Goes to the address: an end that listens takes packets there, an end that doesn't calls it.
    /// It takes no arrival and sends no packet.
    fn attach(&mut self, address: &[u8], listens: bool) -> Result<(), Failed>
        ensures left { left self.new ≡ left self.old }
        ensures sent { sent self.new ≡ sent self.old }
        ensures cause { HasCause (faults self.old) (faults self.new) result };

    /// Takes the first arrival left and answers it, or `Closed` where none is left. The bytes of a
    /// packet, at most 1,980, stand at the buffer's front.
    fn next(&mut self, into: &mut [u8]) -> Result<Arrival, Failed>
        requires { MAX_PACKET_BYTES ≤ length into.old }
        ensures bound { IfOk result (λ answer. HasPacketBound answer) }
        ensures first { IfOk result (λ answer. IsFirst (left self.old) (arrived answer into.new)) }
        ensures left { MatchResult result (λ _. left self.new ≡ left_after (left self.old))
            (λ _. left self.new ≡ left self.old) }
        ensures sent { sent self.new ≡ sent self.old }
        ensures cause { HasCause (faults self.old) (faults self.new) result };

    /// Sends a packet of these bytes, at most 1,980.
    fn send(&mut self, bytes: &[u8]) -> Result<(), Failed>
        requires { length bytes.now ≤ MAX_PACKET_BYTES }
        ensures left { left self.new ≡ left self.old }
        ensures sent { MatchResult result
            (λ _. sent self.new ≡ sent_after bytes.now (sent self.old))
            (λ _. sent self.new ≡ sent self.old) }
        ensures cause { HasCause (faults self.old) (faults self.new) result };
}
