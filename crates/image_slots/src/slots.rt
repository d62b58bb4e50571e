//! A disk of two image slots, and a disk of which a call failed.
ghost use Rattle.std.specs.Prelude.{◌≡◌, ◌⊎◌, ℕ, ◌<◌, ◌≤◌, List, [], Option, Some, None, Result};
ghost use Rattle.std.specs.Prelude.{OnOk, IfOk, IfErr, IsSome, true, false};
ghost use Rattle.std.specs.Option.{option_map};
ghost use Rattle.omci_core.specs.Causes.{Rose};
ghost use Rattle.slot_spec.specs.Crash.{Moments, HasLength};
ghost use Rattle.slot_spec.specs.Slots.{SlotPair, image_at, with_committed, with_image, mid};
ghost use Rattle.slot_spec.specs.Layout.{StandsAt, StandsAmong, GatesHold};
ghost use Rattle.slot_spec.specs.Rig.{Rigged, Makes, IsTrap, RigHolds};
ghost use Rattle.slot_spec.specs.Outcome.{Leaves};
ghost use Rattle.slot_spec.specs.Header.{view_of, view_at, slot_header as slot_header_of};
ghost use Rattle.slot_spec.specs.Header.{with_slot_header, shut_header};
ghost use Rattle.slot_spec.specs.Owner.{Settled, Filling};
ghost use Rattle.image_slots.specs.Answers.{IsEmpty, Loaded};

use crate::download::Download;
use crate::steps::{set_slot_header, slot_header, store_commit, store_gate};
use aal5_crc::Crc;
use omci_types::SlotView;
use slot_disk::{Disk, Rig, Trap};
use slot_spec::{CLOSED_GATE, DiskHeader, SlotHeader, VERSION_BYTES};
use std::marker::Model;

/// A disk of two image slots of which one is committed. It comes from [`Slots::format`] or
/// [`Slots::mount`], and from a download that was sealed or given up.
#[derive(Drop)]
pub struct Slots<D: Disk> {
    pub(crate) disk: D,
    pub(crate) header: DiskHeader,
}

impl<D: Disk> Model for Slots<D> {
    ghost use Rattle.std.specs.Prelude.{◌<◌};
    ghost use Rattle.image_slots.specs.State.{Mounted};

    ghost Value = { Mounted D };

    ghost view = { λ s. record { disk = s.disk; header = s.header } };

    ghost invariant = { λ s. s.header.committed < 2 };
}

/// A disk of which a call failed: what stands there is settled by the next mount.
#[derive(Drop)]
pub struct Broken<D: Disk> {
    pub(crate) disk: D,
}

impl<D: Disk> Model for Broken<D> {
    ghost use Rattle.image_slots.specs.State.{Lost};

    ghost Value = { Lost D };

    ghost view = { λ s. record { disk = s.disk } };
}

/// Why a slot was not committed.
#[derive(Drop)]
pub enum CommitRefusal<D: Disk> {
    /// The slot has no valid image.
    NotValid { slots: Slots<D> },
    /// A device call failed.
    Fault { broken: Broken<D> },
}

/// Why a download did not begin.
#[derive(Drop)]
pub enum BeginRefusal<D: Disk> {
    /// The slot is the committed one.
    InUse {
        slots: Slots<D>,
    },
    /// The size is 0 or above the room.
    Size {
        slots: Slots<D>,
        size: u32,
        room: u32,
    },
    /// A device call failed.
    Fault {
        broken: Broken<D>,
    },
}

impl<D: Disk> Slots<D> {
    ghost use Rattle.image_slots.specs.Answers.{commit_disk, commit_change, commit_calls};
    ghost use Rattle.image_slots.specs.Answers.{commit_faults, CommitRefused, begin_disk};
    ghost use Rattle.image_slots.specs.Answers.{begin_change, begin_calls, begin_faults};
    ghost use Rattle.image_slots.specs.Answers.{BeginRefused};

    /// How many bytes each slot has room for.
    pub fn room(&self) -> u32
        ensures room { result ≡ self.now.header.room }
    {
        self.header.room
    }

    /// The committed slot, 0 or 1.
    pub fn committed(&self) -> u8
        ensures committed { result ≡ self.now.header.committed }
        ensures slot { result < 2 }
    {
        self.header.committed
    }

    /// What is known of a slot's image, and nothing where the slot isn't valid. A slot is 0 or 1.
    pub fn view(&self, slot: u8) -> Option<SlotView>
        requires slot { slot < 2 }
        ensures view { result ≡ view_at slot self.now.header }
        ensures shows { (s : SlotPair) → Settled D.seen D.may_leave self.now.disk self.now.header s
            → result ≡ option_map view_of (image_at slot s) }
    {
        slot_header(&self.header, slot).view
    }

    /// Gives the disk back.
    pub fn unmount(self) -> D
        ensures disk { result ≡ self.disk }
    {
        self.disk
    }

    /// Commits a slot: the unit takes it from its next start on. The write of the commit byte and
    /// its sync are device calls 1 and 2; a commit of the slot that is committed makes none. A slot
    /// is 0 or 1.
    #[tactic(auto, unfolding(slot_spec::specs::Rig::after_calls, slot_spec::specs::Rig::calls_fail))]
    pub fn commit(self, slot: u8) -> Result<Slots<D>, CommitRefusal<D>>
        requires slot { slot < 2 }
        ensures moments { (s : SlotPair) → Settled D.seen D.may_leave self.disk self.header s
            → Moments D.clock D.left_since D.may_leave self.disk (commit_disk result)
            (StandsAmong self.header.room (mid (commit_change slot self.header) s)) }
        ensures settled { (s : SlotPair) → Settled D.seen D.may_leave self.disk self.header s
            → IfOk result (λ slots. Settled D.seen D.may_leave slots.disk slots.header
            (with_committed slot s)) }
        ensures rig { Makes (commit_calls slot self.header) (D.rig self.disk)
            (D.rig (commit_disk result)) (commit_faults result) }
        ensures outcome { (r : Rigged) (s : SlotPair) → D.rig self.disk ≡ Some r
            → Settled D.seen D.may_leave self.disk self.header s
            → Leaves (StandsAt self.header.room) (commit_change slot self.header) s r.trap
            (D.rig (commit_disk result)) }
        ensures gates { (r : Rigged) (s : SlotPair) → D.rig self.disk ≡ Some r
            → Settled D.seen D.may_leave self.disk self.header s → RigHolds GatesHold s r
            → Leaves GatesHold (commit_change slot self.header) s r.trap
            (D.rig (commit_disk result)) }
        ensures length { (s : SlotPair) (size : ℕ)
            → Settled D.seen D.may_leave self.disk self.header s
            → HasLength D.may_leave size self.disk
            → HasLength D.may_leave size (commit_disk result) }
        ensures told { IsSome (D.seen self.disk) → IsSome (D.seen (commit_disk result)) }
        ensures cause { commit_faults result ≡ true
            → Rose (D.faults self.disk) (D.faults (commit_disk result)) }
        ensures kept { commit_faults result ≡ false
            → D.faults (commit_disk result) ≡ D.faults self.disk }
        ensures refused { IfErr result (CommitRefused self slot) }
        ensures valid { OnOk result (IsSome (view_at slot self.header)) }
        ensures header { IfOk result
            (λ slots. slots.header ≡ record self.header { committed = slot }) }
    {
        let mut slots = self;
        if slots.view(slot).is_none() {
            return Err(CommitRefusal::NotValid { slots });
        }
        if slot == slots.header.committed {
            return Ok(slots);
        }
        match store_commit(&mut slots.disk, slot) {
            Ok(()) => {
                slots.header.committed = slot;
                Ok(slots)
            }
            Err(_) => Err(CommitRefusal::Fault {
                broken: Broken { disk: slots.disk },
            }),
        }
    }

    /// Begins a download of so many bytes into the slot that isn't committed; from then on the slot
    /// is not valid. An open gate is closed first: its write and sync are device calls 1 and 2. A
    /// gate that is closed isn't written, since until its sync a write may leave any byte, that of
    /// an open gate too. A slot is 0 or 1.
    #[tactic(auto, unfolding(slot_spec::specs::Rig::after_calls, slot_spec::specs::Rig::calls_fail))]
    pub fn begin(self, slot: u8, size: u32) -> Result<Download<D>, BeginRefusal<D>>
        requires slot { slot < 2 }
        ensures moments { (s : SlotPair) → Settled D.seen D.may_leave self.disk self.header s
            → Moments D.clock D.left_since D.may_leave self.disk (begin_disk result)
            (StandsAmong self.header.room (mid (begin_change slot size self.header) s)) }
        ensures filling { (s : SlotPair) → Settled D.seen D.may_leave self.disk self.header s
            → IfOk result (λ download. Filling D.seen D.may_leave
            download.disk download.header slot (with_image slot None s) []) }
        ensures loaded { IfOk result (λ download. Loaded download []) }
        ensures rig { Makes (begin_calls slot size self.header) (D.rig self.disk)
            (D.rig (begin_disk result)) (begin_faults result) }
        ensures outcome { (r : Rigged) (s : SlotPair) → D.rig self.disk ≡ Some r
            → Settled D.seen D.may_leave self.disk self.header s
            → Leaves (StandsAt self.header.room) (begin_change slot size self.header) s r.trap
            (D.rig (begin_disk result)) }
        ensures gates { (r : Rigged) (s : SlotPair) → D.rig self.disk ≡ Some r
            → Settled D.seen D.may_leave self.disk self.header s → RigHolds GatesHold s r
            → Leaves GatesHold (begin_change slot size self.header) s r.trap
            (D.rig (begin_disk result)) }
        ensures length { (s : SlotPair) (size : ℕ)
            → Settled D.seen D.may_leave self.disk self.header s
            → HasLength D.may_leave size self.disk
            → HasLength D.may_leave size (begin_disk result) }
        ensures told { IsSome (D.seen self.disk) → IsSome (D.seen (begin_disk result)) }
        ensures cause { begin_faults result ≡ true
            → Rose (D.faults self.disk) (D.faults (begin_disk result)) }
        ensures kept { begin_faults result ≡ false
            → D.faults (begin_disk result) ≡ D.faults self.disk }
        ensures refused { IfErr result (BeginRefused self slot size) }
        ensures tested { OnOk result
            ((slot ≡ self.header.committed → ⊥) × (1 ≤ size) × (size ≤ self.header.room)) }
        ensures empty { IfOk result (IsEmpty slot size) }
        ensures header { IfOk result
            (λ download. download.header ≡ with_slot_header slot shut_header self.header) }
    {
        let mut slots = self;
        if slot == slots.header.committed {
            return Err(BeginRefusal::InUse { slots });
        }
        let room = slots.header.room;
        if size == 0 || size > room {
            return Err(BeginRefusal::Size { slots, size, room });
        }
        if !slot_header(&slots.header, slot).opened {
            return Ok(empty_download(slots, slot, size));
        }
        match store_gate(&mut slots.disk, slot, CLOSED_GATE) {
            Ok(()) => Ok(empty_download(slots, slot, size)),
            Err(_) => Err(BeginRefusal::Fault {
                broken: Broken { disk: slots.disk },
            }),
        }
    }
}

// The download, once the slot's gate is closed.
fn empty_download<D: Disk>(slots: Slots<D>, slot: u8, size: u32) -> Download<D>
    requires slot { slot < 2 }
    ensures disk { result.disk ≡ slots.disk }
    ensures header { result.header ≡ with_slot_header slot shut_header slots.header }
    ensures empty { IsEmpty slot size result }
{
    let mut header = slots.header;
    let shut = SlotHeader {
        opened: false,
        view: None,
    };
    set_slot_header(&mut header, slot, shut);
    Download {
        disk: slots.disk,
        header,
        target: slot,
        size,
        have: 0,
        crc: Crc::new(),
        version: [0; VERSION_BYTES],
    }
}

impl<D: Disk> Broken<D> {
    /// Gives the disk back, which must be mounted again.
    pub fn unmount(self) -> D
        ensures disk { result ≡ self.disk }
    {
        self.disk
    }
}

impl<D: Rig> Slots<D> {
    /// Passes a trap to the disk, and changes nothing else.
    pub fn rig(&mut self, trap: Trap)
        requires trap { IsTrap trap }
        ensures header { self.new.header ≡ self.old.header }
        ensures seen { D.seen self.new.disk ≡ D.seen self.old.disk }
        ensures moments { Moments D.clock D.left_since D.may_leave self.old.disk self.new.disk
            (D.may_leave self.old.disk) }
        ensures clock { D.clock self.new.disk ≡ D.clock self.old.disk }
        ensures faults { D.faults self.new.disk ≡ D.faults self.old.disk }
        ensures trap { (r : Rigged) → D.rig self.old.disk ≡ Some r
            → D.rig self.new.disk ≡ Some (record r { trap = trap }) }
    {
        self.disk.rig(trap);
    }
}

impl<D: Rig> Broken<D> {
    /// Passes a trap to the disk, and changes nothing else.
    pub fn rig(&mut self, trap: Trap)
        requires trap { IsTrap trap }
        ensures seen { D.seen self.new.disk ≡ D.seen self.old.disk }
        ensures moments { Moments D.clock D.left_since D.may_leave self.old.disk self.new.disk
            (D.may_leave self.old.disk) }
        ensures clock { D.clock self.new.disk ≡ D.clock self.old.disk }
        ensures faults { D.faults self.new.disk ≡ D.faults self.old.disk }
        ensures trap { (r : Rigged) → D.rig self.old.disk ≡ Some r
            → D.rig self.new.disk ≡ Some (record r { trap = trap }) }
    {
        self.disk.rig(trap);
    }
}
