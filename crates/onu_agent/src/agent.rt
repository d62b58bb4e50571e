//! The agent: the unit as its callers hold it.

ghost use Rattle.std.specs.Prelude.{◌≡◌, ◌≢◌, ◌≤◌, ◌<◌, ◌⊎◌, ℕ, List, length, true, false};
ghost use Rattle.std.specs.Prelude.{replicate};
ghost use Rattle.std.specs.Prelude.{Ok, Err, Some, IfOk, OnOk, IfErr, OnErr, MatchResult};
ghost use Rattle.slot_spec.specs.Slots.{SlotPair};
ghost use Rattle.slot_spec.specs.Layout.{StandsAt};
ghost use Rattle.slot_spec.specs.Crash.{HasLength};
ghost use Rattle.slot_spec.specs.Rig.{IsTrap, Rigged};
ghost use Rattle.slot_spec.specs.declared.Trap.TheVariants.{Clear};
ghost use Rattle.store_spec.specs.State.{software_of};
ghost use Rattle.unit_spec.specs.declared.Did.TheVariants as did;
ghost use Rattle.unit_spec.specs.declared.Noticed.TheVariants as noticed;
ghost use Rattle.unit_spec.specs.Noticing.{onu_sensed, onu_alarmed, alarm_takes};
ghost use Rattle.unit_spec.specs.Onu.{Onu, onu_started, onu_ticked, takes_memory};
ghost use Rattle.image_store.specs.declared.state.State.{State as Form};
ghost use Rattle.image_store.specs.Stands.{state_disk};
ghost use Rattle.image_store.specs.Carries.{Caused, HasNoTrap};
ghost use Rattle.image_store.specs.Counts.{StoreCounts, store_faults};
ghost use Rattle.image_store.specs.Starts.{Started, IsUnit};
ghost use Rattle.onu_agent.specs.declared.agent.StartRefusal.TheVariants.{NoUnit};
ghost use Rattle.onu_agent.specs.State.{AgentStands, Tells};
ghost use Rattle.onu_agent.specs.Received.{Received};
ghost use Rattle.onu_agent.specs.Starts.{not_mounted, given_back, is_fault, IsFaultOrMemory};
ghost use Rattle.onu_agent.specs.Starts.{StartRefused};
ghost use Rattle.frame_spec.specs.declared.TheConstants.{FRAME_BYTES};
ghost use Rattle.slot_spec.specs.declared.TheConstants.{HEADER_BYTES};

use crate::desk::Desk;
use crate::unit::Unit;
use alarm_spec::BITMAP_BYTES;
use image_store::{MountRefusal, Store as Images};
use omci_core::{Boot, EntityId, NoMemory, Packet, Software};
use slot_disk::{Disk, Rig, Trap};
use std::alloc::Global;
use std::marker::Model;
use unit_spec::{Did, Noticed};

/// The unit, which owns the disk of its software images. Its owner hands it the packets that come,
/// what it measures and its alarms, sends its replies and notices, and tells it each second that
/// passes. [`packet`](Agent::packet), [`sense`](Agent::sense), [`alarm`](Agent::alarm) and
/// [`tick`](Agent::tick) change it. Where it leaves, its owner stops it with the next second, and
/// starts it again.
#[derive(Drop)]
pub struct Agent<D: Disk> {
    spent: bool,
    unit: Unit<D>,
}

/// Why a unit did not start. The disk is given back.
#[derive(Drop)]
pub enum StartRefusal<D: Disk> {
    /// It isn't a disk of slots, as in [`MountRefusal::NoUnit`].
    NoUnit {
        disk: D,
        length: u64,
        magic: [u8; 8],
        room: u32,
    },
    /// A device call failed.
    Fault {
        disk: D,
    },
    /// The committed slot has no image.
    NoImage {
        disk: D,
        slot: u8,
        gate: u8,
        size: u32,
    },
    /// There was no memory for the unit.
    NoMemory {
        disk: D,
    },
}

impl<D: Disk> Model for Agent<D> {
    ghost use Rattle.onu_agent.specs.State.{State};

    ghost Value = { State D };

    ghost view = { λ a. record { spent = a.spent; unit = a.unit } };
}

/// A unit doesn't start where its disk isn't mounted.
fn not_mounted<D: Disk>(refusal: MountRefusal<D>) -> StartRefusal<D>
    ensures value { result ≡ not_mounted refusal }
{
    match refusal {
        MountRefusal::NoUnit {
            disk,
            length,
            magic,
            room,
        } => StartRefusal::NoUnit {
            disk,
            length,
            magic,
            room,
        },
        MountRefusal::Fault { disk } => StartRefusal::Fault { disk },
        MountRefusal::NoImage {
            disk,
            slot,
            gate,
            size,
        } => StartRefusal::NoImage {
            disk,
            slot,
            gate,
            size,
        },
    }
}

impl<D: Disk> Agent<D> {
    /// Starts the unit on a disk of so many bytes: the first database, and nothing kept (ITU-T
    /// G.988, clause 9.1.1). The active slot is the activated one where that has an image, and else
    /// the committed one.
    pub fn start(alloc: Global, disk: D, size: u64, boot: Boot) -> Result<Agent<D>, StartRefusal<D>>
        ensures stands { (room : ℕ) (s : SlotPair) (bytes : List ℕ) → D.seen disk ≡ Some bytes
            → size ≡ length bytes → StandsAt room bytes s
            → MatchResult result (λ agent. AgentStands D.seen D.may_leave agent
            (onu_started boot room s)) IsFaultOrMemory }
        ensures disk { MatchResult result (λ agent. (state : Form D)
            → agent.unit.images.state ≡ Some state
            → Started D.seen D.may_leave D.clock D.left_since D.rig D.faults size disk
            (state_disk state) false)
            (λ refusal. Started D.seen D.may_leave D.clock D.left_since D.rig D.faults size disk
            (given_back refusal) (is_fault refusal)) }
        ensures length { (bytes : List ℕ) → D.seen disk ≡ Some bytes
            → IfOk result (λ agent. (state : Form D) → agent.unit.images.state ≡ Some state
            → HasLength D.may_leave (length bytes) (state_disk state)) }
        ensures short { size < HEADER_BYTES → result ≡ Err (NoUnit disk size (replicate 8 0) 0) }
        ensures found { (bytes : List ℕ) → D.seen disk ≡ Some bytes
            → OnOk result (IsUnit size bytes) }
        ensures refused { (bytes : List ℕ) → D.seen disk ≡ Some bytes → HEADER_BYTES ≤ size
            → IfErr result (StartRefused size bytes) }
        ensures clear { (r : Rigged) → D.rig disk ≡ Some r → r.trap ≡ Clear
            → size ≡ length r.bytes → MatchResult result (λ agent. (state : Form D)
            → agent.unit.images.state ≡ Some state → HasNoTrap (D.rig (state_disk state)))
            (λ refusal. is_fault refusal ≡ false) }
        ensures sound { IfOk result (λ agent. agent.spent ≡ false) }
        ensures count { MatchResult result
            (λ agent. store_faults D.faults agent.unit.images ≡ D.faults disk)
            (λ refusal. Caused (is_fault refusal) (D.faults disk)
            (D.faults (given_back refusal))) }
    {
        let images = match Images::start(disk, size, boot) {
            Ok(images) => images,
            Err(refusal) => return Err(not_mounted(refusal)),
        };
        match Desk::start(alloc, images.software()) {
            Ok(desk) => Ok(Agent {
                spent: false,
                unit: Unit::start(desk, images),
            }),
            Err(NoMemory) => Err(StartRefusal::NoMemory {
                disk: images.unmount(),
            }),
        }
    }

    /// Takes a packet from the link. `out` is the reply, 48 bytes, where the packet was carried out
    /// or its reply was kept, and else empty.
    ///
    /// Memory is taken only by a create that makes an entity, by an upload and by a get of all
    /// alarms, where no kept reply answers it and the unit doesn't leave. Where it runs out, the
    /// agent is spent: this and each later call answers `NoMemory`.
    pub fn packet(&mut self, bytes: &[u8], out: &mut Packet) -> Result<Did, NoMemory>
        ensures received { (u : Onu) → AgentStands D.seen D.may_leave self.old u → IfOk result (λ d.
            Received D.seen D.may_leave D.clock D.left_since D.rig D.faults self.old.unit
            self.new.unit d out.new bytes.now u) }
        ensures sound { OnOk result (self.new.spent ≡ false) }
        ensures whole { IfOk result (λ d. d ≢ did.Dropped → d ≢ did.Held
            → length out.new ≡ FRAME_BYTES) }
        ensures memory { (u : Onu) → AgentStands D.seen D.may_leave self.old u
            → OnErr result (takes_memory bytes.now u ≡ true) }
        ensures spent { self.old.spent ≡ true → OnOk result ⊥ }
        ensures spends { OnErr result (self.new.spent ≡ true) }
        ensures images { OnErr result (self.new.unit.images ≡ self.old.unit.images) }
        ensures count { StoreCounts D.faults self.old.unit.images self.new.unit.images }
    {
        if self.spent {
            out.clear();
            return Err(NoMemory);
        }
        let done = self.unit.packet(bytes, out);
        self.spent = done.is_err();
        done
    }

    /// The unit measured this value of the entity's attribute. Where that changes what it holds,
    /// `out` is the notice of it (attribute value change, ITU-T G.988, annex A), 48 bytes, and else
    /// empty. A unit that leaves takes none. Takes no memory; a spent agent answers `NoMemory`.
    pub fn sense(
        &mut self,
        entity: EntityId,
        number: u8,
        value: &[u8],
        out: &mut Packet,
    ) -> Result<Noticed, NoMemory>
        ensures sensed { (u : Onu) → AgentStands D.seen D.may_leave self.old u → IfOk result (λ n.
            Tells D.seen D.may_leave self.new.unit n out.new
            (onu_sensed entity number value.now u)) }
        ensures sound { OnOk result (self.new.spent ≡ false) }
        ensures whole { IfOk result (λ n. n ≡ noticed.Sent → length out.new ≡ FRAME_BYTES) }
        ensures memory { OnErr result (self.old.spent ≡ true) }
        ensures spent { self.old.spent ≡ true → OnOk result ⊥ }
        ensures spends { OnErr result (self.new.spent ≡ true) }
        ensures images { self.new.unit.images ≡ self.old.unit.images }
    {
        if self.spent {
            out.clear();
            return Err(NoMemory);
        }
        Ok(self.unit.sense(entity, number, value, out))
    }

    /// The entity's alarms are these from now on, alarm 0 by the highest bit of the first byte.
    /// Where that changes them, `out` is the notice of it (alarm, ITU-T G.988, annex A), 48 bytes,
    /// and else empty. A unit that leaves takes none.
    ///
    /// Memory is taken only where an entity has its first alarm. Where it runs out, the agent is
    /// spent: this and each later call answers `NoMemory`.
    pub fn alarm(
        &mut self,
        entity: EntityId,
        bitmap: [u8; BITMAP_BYTES],
        out: &mut Packet,
    ) -> Result<Noticed, NoMemory>
        ensures alarmed { (u : Onu) → AgentStands D.seen D.may_leave self.old u → IfOk result (λ n.
            Tells D.seen D.may_leave self.new.unit n out.new (onu_alarmed entity bitmap u)) }
        ensures sound { OnOk result (self.new.spent ≡ false) }
        ensures whole { IfOk result (λ n. n ≡ noticed.Sent → length out.new ≡ FRAME_BYTES) }
        ensures memory { (u : Onu) → AgentStands D.seen D.may_leave self.old u
            → OnErr result (alarm_takes entity bitmap u ≡ true) }
        ensures spent { self.old.spent ≡ true → OnOk result ⊥ }
        ensures spends { OnErr result (self.new.spent ≡ true) }
        ensures images { self.new.unit.images ≡ self.old.unit.images }
    {
        if self.spent {
            out.clear();
            return Err(NoMemory);
        }
        let done = self.unit.alarm(entity, bitmap, out);
        self.spent = done.is_err();
        done
    }

    /// How many entities have an alarm: at most the seven that may have one. Takes no memory.
    pub fn alarms(&self) -> usize
        ensures count { result ≡ length self.now.unit.desk.log.alarms }
        ensures most { result ≤ 7 }
    {
        self.unit.alarms()
    }

    /// A second passes. What was put by for an upload, or for an audit of the alarms, is dropped 60
    /// seconds after it was put by or last asked for (ITU-T G.988, clause 9.1.3). Takes no memory.
    /// Of a spent agent nothing more is said.
    pub fn tick(&mut self)
        ensures ticked { (u : Onu) → AgentStands D.seen D.may_leave self.old u
            → AgentStands D.seen D.may_leave self.new (onu_ticked u) }
        ensures spent { self.new.spent ≡ self.old.spent }
        ensures images { self.new.unit.images ≡ self.old.unit.images }
        ensures leaving { self.new.unit.leaving ≡ self.old.unit.leaving }
    {
        self.unit.tick();
    }

    /// How the unit starts again, where it leaves. `None` exactly where it doesn't.
    pub fn leaving(&self) -> Option<Boot>
        ensures value { result ≡ self.now.unit.leaving }
    {
        self.unit.leaving()
    }

    /// The software images. Where a device call failed they are as they were before that request.
    pub fn software(&self) -> Software
        ensures shows { (u : Onu) → AgentStands D.seen D.may_leave self.now u
            → result ≡ software_of u.store }
    {
        self.unit.software()
    }

    /// Gives the disk back. A download that runs leaves its slot without an image. Takes no memory.
    pub fn stop(self) -> D
        ensures disk { (state : Form D) → self.unit.images.state ≡ Some state
            → result ≡ state_disk state }
        ensures count { D.faults result ≡ store_faults D.faults self.unit.images }
    {
        self.unit.stop()
    }
}

impl<D: Rig> Agent<D> {
    /// Passes a trap to the disk, and changes nothing else.
    pub fn rig(&mut self, trap: Trap)
        requires trap { IsTrap trap }
        ensures stands { (u : Onu) → AgentStands D.seen D.may_leave self.old u
            → AgentStands D.seen D.may_leave self.new u }
        ensures trap { (old new : Form D) (r : Rigged) → self.old.unit.images.state ≡ Some old
            → self.new.unit.images.state ≡ Some new → D.rig (state_disk old) ≡ Some r
            → D.rig (state_disk new) ≡ Some (record r { trap = trap }) }
        ensures same { self.new ≡ record self.old {
          unit = record self.old.unit {
            images = record self.old.unit.images { state = self.new.unit.images.state };
          };
        } }
        ensures count { store_faults D.faults self.new.unit.images
            ≡ store_faults D.faults self.old.unit.images }
    {
        self.unit.rig(trap);
    }
}
