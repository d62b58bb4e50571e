//! An image that is put into a slot piece by piece.
ghost use Rattle.std.specs.Prelude.{◌≡◌, ◌⊎◌, ℕ, ◌<◌, ◌≤◌, ◌+◌, ◌++◌, List, [], ◌∷◌, true, false};
ghost use Rattle.std.specs.Prelude.{length, Option, Some, None, Result, OnOk, IfOk, IfErr, IsSome};
ghost use Rattle.std.specs.Option.{option_map};
ghost use Rattle.omci_core.specs.Causes.{Rose};
ghost use Rattle.slot_spec.specs.Crash.{Moments, TornFrom, HasLength};
ghost use Rattle.slot_spec.specs.Slots.{SlotPair, image_at as image_of, with_image, mid, Keep};
ghost use Rattle.slot_spec.specs.Slots.{Seal};
ghost use Rattle.slot_spec.specs.Layout.{StandsAt, StandsAmong, GatesHold, gate_place, open_gate};
ghost use Rattle.slot_spec.specs.Rig.{Write, Sync, Makes, Rigged, IsTrap, RigHolds};
ghost use Rattle.slot_spec.specs.Outcome.{Leaves};
ghost use Rattle.slot_spec.specs.Header.{view_of, view_at, with_slot_header};
ghost use Rattle.slot_spec.specs.Owner.{Settled, Filling, Stored};
ghost use Rattle.image_slots.specs.Answers.{Loaded, put_disk, put_calls, put_faults, PutRefused};
ghost use Rattle.image_slots.specs.Answers.{seal_disk, seal_change, seal_calls, seal_faults};
ghost use Rattle.image_slots.specs.Answers.{SealRefused, IsSealFault};

use crate::fields::{entry_bytes, version_after};
use crate::slots::{Broken, Slots};
use crate::steps::{image_at, set_slot_header, slot_header, store_entry, store_gate};
use aal5_crc::Crc;
use omci_types::SlotView;
use slot_disk::{Disk, Rig, Trap};
use slot_spec::{DiskHeader, OPEN_GATE, SlotHeader, VERSION_BYTES};
use std::marker::Model;

/// A disk of two image slots while an image is put into the slot that isn't committed, behind its
/// closed gate. It comes from [`Slots::begin`]; [`Download::seal`] and [`Download::abandon`] end
/// it.
#[derive(Drop)]
pub struct Download<D: Disk> {
    pub(crate) disk: D,
    pub(crate) header: DiskHeader,
    pub(crate) target: u8,
    pub(crate) size: u32,
    pub(crate) have: u32,
    pub(crate) crc: Crc,
    pub(crate) version: [u8; VERSION_BYTES],
}

impl<D: Disk> Model for Download<D> {
    ghost use Rattle.std.specs.Prelude.{◌<◌};
    ghost use Rattle.image_slots.specs.State.{Loading};

    ghost Value = { Loading D };

    ghost view = { λ s. record {
      disk = s.disk;
      header = s.header;
      target = s.target;
      size = s.size;
      have = s.have;
      crc = s.crc;
      version = s.version;
    } };

    ghost invariant = { λ s. record { target : s.target < 2; committed : s.header.committed < 2 } };
}

/// Why a piece was not put.
#[derive(Drop)]
pub enum PutRefusal<D: Disk> {
    /// The piece ends past the size that was begun: so many bytes are there, and so many more came.
    Past {
        download: Download<D>,
        have: u32,
        size: u32,
        more: u64,
    },
    /// A device call failed.
    Fault {
        broken: Broken<D>,
    },
}

/// Why an image was not sealed. The slot is then not valid.
#[derive(Drop)]
pub enum SealRefusal<D: Disk> {
    /// The bytes that are there, the size that was begun and the size that was given aren't all
    /// equal.
    Size {
        slots: Slots<D>,
        have: u32,
        given: u32,
    },
    /// The image's check value isn't the one that was given.
    Check {
        slots: Slots<D>,
        computed: u32,
        given: u32,
    },
    /// A device call failed.
    Fault {
        broken: Broken<D>,
    },
}

impl<D: Disk> Download<D> {
    /// The slot that the image is put into.
    pub fn target(&self) -> u8
        ensures target { result ≡ self.now.target }
        ensures slot { result < 2 }
    {
        self.target
    }

    /// How many bytes of the image are there.
    pub fn have(&self) -> u32
        ensures have { result ≡ self.now.have }
    {
        self.have
    }

    /// How many bytes the image is to have.
    pub fn size(&self) -> u32
        ensures size { result ≡ self.now.size }
    {
        self.size
    }

    /// The committed slot, 0 or 1.
    pub fn committed(&self) -> u8
        ensures committed { result ≡ self.now.header.committed }
        ensures slot { result < 2 }
    {
        self.header.committed
    }

    /// What is known of a slot's image, and nothing where the slot isn't valid. A slot is 0 or 1.
    pub fn view(&self, slot: u8) -> Option<SlotView>
        requires slot { slot < 2 }
        ensures view { result ≡ view_at slot self.now.header }
        ensures shows { (s : SlotPair) → Settled D.seen D.may_leave self.now.disk self.now.header s
            → result ≡ option_map view_of (image_of slot s) }
    {
        slot_header(&self.header, slot).view
    }

    /// Gives the disk back. The slot stays without an image.
    pub fn unmount(self) -> D
        ensures disk { result ≡ self.disk }
    {
        self.disk
    }

    /// Puts the next bytes of the image into the slot, by one write. It isn't synced: nothing
    /// stands for it while the gate is closed.
    #[tactic(auto, unfolding(slot_spec::specs::Rig::after_calls, slot_spec::specs::Rig::calls_fail))]
    pub fn put(self, piece: &[u8]) -> Result<Download<D>, PutRefusal<D>>
        ensures moments { (s : SlotPair) (put : List ℕ)
            → Filling D.seen D.may_leave self.disk self.header self.target s put → Loaded self put
            → Moments D.clock D.left_since D.may_leave self.disk (put_disk result)
            (StandsAmong self.header.room (mid Keep s)) }
        ensures filling { (s : SlotPair) (put : List ℕ)
            → Filling D.seen D.may_leave self.disk self.header self.target s put → Loaded self put
            → IfOk result (λ download. Filling D.seen D.may_leave
            download.disk download.header download.target s (put ++ piece.now)) }
        ensures loaded { (put : List ℕ) → Loaded self put
            → IfOk result (λ download. Loaded download (put ++ piece.now)) }
        ensures rig { Makes (put_calls piece.now self.header.room self.target self.have self.size)
            (D.rig self.disk) (D.rig (put_disk result)) (put_faults result) }
        ensures outcome { (r : Rigged) (s : SlotPair) (put : List ℕ) → D.rig self.disk ≡ Some r
            → Filling D.seen D.may_leave self.disk self.header self.target s put → Loaded self put
            → Leaves (StandsAt self.header.room) Keep s r.trap (D.rig (put_disk result)) }
        ensures gates { (r : Rigged) (s : SlotPair) (put : List ℕ) → D.rig self.disk ≡ Some r
            → Filling D.seen D.may_leave self.disk self.header self.target s put → Loaded self put
            → RigHolds GatesHold s r → Leaves GatesHold Keep s r.trap (D.rig (put_disk result)) }
        ensures length { (s : SlotPair) (put : List ℕ) (size : ℕ)
            → Filling D.seen D.may_leave self.disk self.header self.target s put → Loaded self put
            → HasLength D.may_leave size self.disk → HasLength D.may_leave size (put_disk result) }
        ensures told { IsSome (D.seen self.disk) → IsSome (D.seen (put_disk result)) }
        ensures cause { put_faults result ≡ true
            → Rose (D.faults self.disk) (D.faults (put_disk result)) }
        ensures kept { put_faults result ≡ false → D.faults (put_disk result) ≡ D.faults self.disk }
        ensures refused { IfErr result (PutRefused self (length piece.now)) }
        ensures tested { OnOk result (self.have + length piece.now ≤ self.size) }
        ensures went { IfOk result (λ download.
            (download.header ≡ self.header) × (download.target ≡ self.target)
            × (download.size ≡ self.size) × (download.have ≡ self.have + length piece.now)) }
    {
        let mut download = self;
        let more = piece.len() as u64;
        if more > u64::from(download.size)
            || u64::from(download.have) + more > u64::from(download.size)
        {
            let have = download.have;
            let size = download.size;
            return Err(PutRefusal::Past {
                download,
                have,
                size,
                more,
            });
        }
        let at = image_at(download.header.room, download.target) + u64::from(download.have);
        match download.disk.write_at(at, piece) {
            Ok(()) => {
                download.version = version_after(download.version, download.have, piece);
                download.crc.add(piece);
                download.have += piece.len() as u32;
                Ok(download)
            }
            Err(_) => Err(PutRefusal::Fault {
                broken: Broken {
                    disk: download.disk,
                },
            }),
        }
    }

    /// Gives the download up. The slot stays without an image.
    pub fn abandon(self) -> Slots<D>
        ensures disk { result.disk ≡ self.disk }
        ensures header { result.header ≡ self.header }
        ensures settled { (s : SlotPair) (put : List ℕ)
            → Filling D.seen D.may_leave self.disk self.header self.target s put
            → Settled D.seen D.may_leave result.disk result.header s }
        ensures moments { (s : SlotPair) (put : List ℕ)
            → Filling D.seen D.may_leave self.disk self.header self.target s put
            → Moments D.clock D.left_since D.may_leave self.disk result.disk
            (StandsAmong self.header.room (mid Keep s)) }
    {
        Slots {
            disk: self.disk,
            header: self.header,
        }
    }

    /// Makes the image valid, where it is there whole and its check value is the one that was
    /// given. The entry is written and synced behind the closed gate, by device calls 1 and 2; then
    /// the gate is opened and synced, by calls 3 and 4.
    #[tactic(auto, unfolding(slot_spec::specs::Rig::after_calls, slot_spec::specs::Rig::calls_fail))]
    pub fn seal(self, crc: u32, size: u32) -> Result<Slots<D>, SealRefusal<D>>
        ensures moments { (s : SlotPair) (put : List ℕ)
            → Filling D.seen D.may_leave self.disk self.header self.target s put → Loaded self put
            → Moments D.clock D.left_since D.may_leave self.disk (seal_disk result)
            (StandsAmong self.header.room
            (mid (seal_change crc size self.target self.have self.size self.crc put) s)) }
        ensures settled { (s : SlotPair) (put : List ℕ)
            → Filling D.seen D.may_leave self.disk self.header self.target s put → Loaded self put
            → IfOk result (λ slots. Settled D.seen D.may_leave slots.disk slots.header
            (with_image self.target (Some put) s)) }
        ensures rig { Makes
            (seal_calls crc size self.target self.have self.size self.crc self.version)
            (D.rig self.disk) (D.rig (seal_disk result)) (seal_faults result) }
        ensures outcome { (r : Rigged) (s : SlotPair) (put : List ℕ) → D.rig self.disk ≡ Some r
            → Filling D.seen D.may_leave self.disk self.header self.target s put → Loaded self put
            → Leaves (StandsAt self.header.room)
            (seal_change crc size self.target self.have self.size self.crc put) s r.trap
            (D.rig (seal_disk result)) }
        ensures gates { (r : Rigged) (s : SlotPair) (put : List ℕ) → D.rig self.disk ≡ Some r
            → Filling D.seen D.may_leave self.disk self.header self.target s put → Loaded self put
            → RigHolds GatesHold s r
            → Leaves GatesHold
            (seal_change crc size self.target self.have self.size self.crc put) s r.trap
            (D.rig (seal_disk result)) }
        ensures length { (s : SlotPair) (put : List ℕ) (size : ℕ)
            → Filling D.seen D.may_leave self.disk self.header self.target s put
            → HasLength D.may_leave size self.disk → HasLength D.may_leave size (seal_disk result) }
        ensures told { IsSome (D.seen self.disk) → IsSome (D.seen (seal_disk result)) }
        ensures cause { seal_faults result ≡ true
            → Rose (D.faults self.disk) (D.faults (seal_disk result)) }
        ensures kept { seal_faults result ≡ false
            → D.faults (seal_disk result) ≡ D.faults self.disk }
        ensures refused { IfErr result (SealRefused self crc size) }
        ensures tested { OnOk result
            ((self.have ≡ self.size) × (size ≡ self.have) × (crc ≡ self.crc)) }
        ensures header { IfOk result (λ slots. slots.header ≡ with_slot_header self.target
            (record {
              opened = true;
              view = Some (record { length = size; crc = crc; version = self.version });
            }) self.header) }
    {
        let mut download = self;
        let have = download.have;
        if have != download.size || size != have {
            return Err(SealRefusal::Size {
                slots: download.abandon(),
                have,
                given: size,
            });
        }
        let computed = download.crc.value();
        if computed != crc {
            return Err(SealRefusal::Check {
                slots: download.abandon(),
                computed,
                given: crc,
            });
        }
        let entry = entry_bytes(size, crc, &download.version);
        match store_entry(&mut download.disk, download.target, &entry) {
            Ok(()) => open(download, size, crc),
            Err(_) => Err(SealRefusal::Fault {
                broken: Broken {
                    disk: download.disk,
                },
            }),
        }
    }
}

// Opens the gate: the last step of a seal, once the entry and the image are on the disk.
fn open<D: Disk>(download: Download<D>, length: u32, crc: u32) -> Result<Slots<D>, SealRefusal<D>>
    ensures moments { Moments D.clock D.left_since D.may_leave download.disk (seal_disk result)
        (TornFrom (gate_place download.target) 1 (D.may_leave download.disk)) }
    ensures stored { (was : List ℕ) → D.seen download.disk ≡ Some was
        → IfOk result (λ slots. Stored D.seen D.may_leave (gate_place download.target)
        (open_gate ∷ []) was slots.disk) }
    ensures header { IfOk result (λ slots. slots.header ≡ with_slot_header download.target
        (record {
          opened = true;
          view = Some (record { length = length; crc = crc; version = download.version });
        }) download.header) }
    ensures rig { Makes (Write (gate_place download.target) (open_gate ∷ []) ∷ Sync ∷ [])
        (D.rig download.disk) (D.rig (seal_disk result)) (seal_faults result) }
    ensures told { IsSome (D.seen download.disk) → IsSome (D.seen (seal_disk result)) }
    ensures later { D.faults download.disk ≤ D.faults (seal_disk result) }
    ensures rose { seal_faults result ≡ true
        → Rose (D.faults download.disk) (D.faults (seal_disk result)) }
    ensures kept { seal_faults result ≡ false
        → D.faults (seal_disk result) ≡ D.faults download.disk }
    ensures refused { IfErr result IsSealFault }
{
    let mut download = download;
    match store_gate(&mut download.disk, download.target, OPEN_GATE) {
        Ok(()) => {
            let view = SlotView {
                length,
                crc,
                version: download.version,
            };
            let opened = SlotHeader {
                opened: true,
                view: Some(view),
            };
            set_slot_header(&mut download.header, download.target, opened);
            Ok(Slots {
                disk: download.disk,
                header: download.header,
            })
        }
        Err(_) => Err(SealRefusal::Fault {
            broken: Broken {
                disk: download.disk,
            },
        }),
    }
}

impl<D: Rig> Download<D> {
    /// Passes a trap to the disk, and changes nothing else.
    pub fn rig(&mut self, trap: Trap)
        requires trap { IsTrap trap }
        ensures state { self.new ≡ record self.old { disk = self.new.disk } }
        ensures seen { D.seen self.new.disk ≡ D.seen self.old.disk }
        ensures moments { Moments D.clock D.left_since D.may_leave self.old.disk self.new.disk
            (D.may_leave self.old.disk) }
        ensures clock { D.clock self.new.disk ≡ D.clock self.old.disk }
        ensures faults { D.faults self.new.disk ≡ D.faults self.old.disk }
        ensures trap { (r : Rigged) → D.rig self.old.disk ≡ Some r
            → D.rig self.new.disk ≡ Some (record r { trap = trap }) }
    {
        self.disk.rig(trap);
    }
}
