//! A packet comes to the unit, and its reply goes out.

ghost use Rattle.std.specs.Prelude.{◌≡◌, MatchResult};
ghost use Rattle.omci_core.specs.Causes.{HasCause};
ghost use Rattle.unit_spec.specs.Onu.{Onu};
ghost use Rattle.image_store.specs.Counts.{Counted, store_faults};
ghost use Rattle.onu_agent.specs.State.{AgentStands};
ghost use Rattle.turn_spec.specs.UnitTurns.{reply_of};
ghost use Rattle.unit_turns.specs.Taking.{sent_more, Answers, SendsOrFails};

use omci_core::{Failed, Packet};
use omci_link::Link;
use onu_agent::Agent;
use slot_disk::Disk;
use unit_spec::Did;

/// Why the turn of a packet ends the run.
#[derive(Clone, Copy, Debug, PartialEq, Eq)]
pub enum PacketFault {
    /// There was not enough memory for what the packet asks.
    NoMemory,
    /// The reply couldn't be sent.
    Link,
}

/// Sends the reply, where the unit has one.
fn send_reply<L: Link>(did: Did, reply: &Packet, link: &mut L) -> Result<(), Failed>
    ensures left { L.left link.new ≡ L.left link.old }
    ensures sent { MatchResult result
        (λ _. L.sent link.new ≡ sent_more (reply_of did reply.now) (L.sent link.old))
        (λ _. L.sent link.new ≡ L.sent link.old) }
    ensures cause { HasCause (L.faults link.old) (L.faults link.new) result }
{
    match did {
        Did::Dropped => Ok(()),
        Did::Held => Ok(()),
        Did::Kept => link.send(reply.bytes()),
        Did::Carried { .. } => link.send(reply.bytes()),
    }
}

/// Hands a packet to the unit, and sends its reply.
pub fn answer<D: Disk, L: Link>(
    agent: &mut Agent<D>,
    bytes: &[u8],
    link: &mut L,
) -> Result<(), PacketFault>
    ensures answers { (u : Onu) → AgentStands D.seen D.may_leave agent.old u
        → Answers D.seen D.may_leave D.clock D.left_since D.rig D.faults agent.old agent.new result
        (L.sent link.old) (L.sent link.new) bytes.now u }
    ensures left { L.left link.new ≡ L.left link.old }
    ensures cause { SendsOrFails result (L.faults link.old) (L.faults link.new) }
    ensures count { Counted (store_faults D.faults agent.old.unit.images)
        (store_faults D.faults agent.new.unit.images) }
{
    let mut reply = Packet::new();
    match agent.packet(bytes, &mut reply) {
        Err(_) => Err(PacketFault::NoMemory),
        Ok(did) => match send_reply(did, &reply, link) {
            Err(_) => Err(PacketFault::Link),
            Ok(()) => Ok(()),
        },
    }
}
