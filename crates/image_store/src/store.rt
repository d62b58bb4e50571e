//! The store as its owner holds it.
ghost use Rattle.std.specs.Prelude.{◌≡◌, ◌<◌, ℕ, true, false, List, Option, Some, Ok, Err};
ghost use Rattle.std.specs.Prelude.{MatchResult, IfOk, IfErr, OnOk, length, IsSome, replicate, ◌≤◌};
ghost use Rattle.slot_spec.specs.Slots.{SlotPair};
ghost use Rattle.slot_spec.specs.Layout.{StandsAt};
ghost use Rattle.slot_spec.specs.Owner.{Settled};
ghost use Rattle.slot_spec.specs.Rig.{IsTrap, Rigged};
ghost use Rattle.slot_spec.specs.Crash.{HasLength};
ghost use Rattle.image_slots.specs.Mounts.{IsMountFault, MountRefused};
ghost use Rattle.image_slots.specs.declared.mount.MountRefusal.TheVariants.{NoUnit};
ghost use Rattle.store_spec.specs.State.{StoreState, store_started, software_of};
ghost use Rattle.store_spec.specs.State.{slot_to_run as slot_to_run_of};
ghost use Rattle.window_spec.specs.Incoming.{Window};
ghost use Rattle.store_spec.specs.Deeds.{deed};
ghost use Rattle.image_store.specs.declared.state.State.{State};
ghost use Rattle.image_store.specs.Stands.{StateStands, StoreStands, state_disk};
ghost use Rattle.image_store.specs.declared.state.State.TheVariants.{Whole};
ghost use Rattle.image_store.specs.Carries.{Caused, StoreCarried};
ghost use Rattle.image_store.specs.Counts.{StoreCounts, store_faults};
ghost use Rattle.image_store.specs.Starts.{Started, IsUnit, refusal_disk, refusal_faults};
ghost use Rattle.slot_spec.specs.declared.TheConstants.{HEADER_BYTES};

use crate::coming::Coming;
use crate::requests::carry;
use crate::state::{Base, State, download_software, slots_software};
use image_slots::{MountRefusal, Slots};
use message_spec::Request;
use omci_types::{Boot, EntityId, Software};
use slot_disk::{Disk, Rig, Trap};
use std::marker::Model;
use store_spec::{Handled, IMAGES};

/// The software images of a unit that runs, on the disk that it owns. [`carry`](Store::carry)
/// changes it.
#[derive(Drop)]
pub struct Store<D: Disk> {
    state: Option<State<D>>,
    coming: Coming,
    base: Base,
}

impl<D: Disk> Model for Store<D> {
    ghost use Rattle.std.specs.Prelude.{◌<◌, IsSome};
    ghost use Rattle.image_store.specs.Stands.{Kept};

    ghost Value = { Kept D };

    ghost view = { λ s. record {
      state = s.state;
      granted = s.coming.granted;
      window = s.coming.inbox;
      room = s.base.room;
      active = s.base.active;
    } };

    ghost invariant = { λ s. record { some : IsSome s.state; active : s.base.active < 2 } };
}

impl<D: Disk> Store<D> {
    /// Takes the slots of a disk that has so many bytes, by [`Slots::mount`]. The active slot is
    /// the activated one where that has an image, and else the committed one.
    pub fn start(disk: D, size: u64, boot: Boot) -> Result<Store<D>, MountRefusal<D>>
        ensures stands { (room : ℕ) (s : SlotPair) (bytes : List ℕ) → D.seen disk ≡ Some bytes
            → size ≡ length bytes → StandsAt room bytes s
            → MatchResult result (λ store. StoreStands D.seen D.may_leave store
            (store_started boot s)) IsMountFault }
        ensures disk { MatchResult result (λ store. (state : State D) → store.state ≡ Some state
            → Started D.seen D.may_leave D.clock D.left_since D.rig D.faults size disk
            (state_disk state) false)
            (λ refusal. Started D.seen D.may_leave D.clock D.left_since D.rig D.faults size disk
            (refusal_disk refusal) (refusal_faults refusal)) }
        ensures length { (bytes : List ℕ) → D.seen disk ≡ Some bytes
            → IfOk result (λ store. (state : State D) → store.state ≡ Some state
            → HasLength D.may_leave (length bytes) (state_disk state)) }
        ensures short { size < HEADER_BYTES → result ≡ Err (NoUnit disk size (replicate 8 0) 0) }
        ensures found { (bytes : List ℕ) → D.seen disk ≡ Some bytes
            → OnOk result (IsUnit size bytes) }
        ensures refused { (bytes : List ℕ) → D.seen disk ≡ Some bytes → HEADER_BYTES ≤ size
            → IfErr result (MountRefused size bytes) }
        ensures count { MatchResult result
            (λ store. store_faults D.faults store ≡ D.faults disk)
            (λ refusal. Caused (refusal_faults refusal) (D.faults disk)
            (D.faults (refusal_disk refusal))) }
    {
        match Slots::mount(disk, size) {
            Ok(slots) => Ok(opened(slots, boot)),
            Err(refusal) => Err(refusal),
        }
    }

    /// Takes a request of this TCI for this entity, whose instance is the slot, and says what was
    /// done with it. A request that is answered by a code may have made one call of the disk's
    /// slots.
    pub fn carry(&mut self, tci: u16, entity: EntityId, request: &Request) -> Handled
        ensures carried { (m : StoreState) → StoreStands D.seen D.may_leave self.old m
            → StoreCarried D.seen D.may_leave D.clock D.left_since D.rig D.faults self.old self.new
            result (deed self.old.room tci entity request.now m) m }
        ensures room { self.new.room ≡ self.old.room }
        ensures active { self.new.active ≡ self.old.active }
        ensures count { StoreCounts D.faults self.old self.new }
    {
        let state = self.state.take().unwrap();
        let done = carry(state, &mut self.coming, self.base, tci, entity, request);
        let handled = done.handled;
        self.state = Some(done.state);
        handled
    }

    /// The software images. In a broken store they are as they were before the request that broke
    /// it.
    pub fn software(&self) -> Software
        ensures shows { (m : StoreState) → StoreStands D.seen D.may_leave self.now m → result
            ≡ software_of m }
    {
        state_software(self.state.as_ref().unwrap(), self.base.active)
    }

    /// Gives the disk back. A download that runs leaves its slot without an image.
    pub fn unmount(self) -> D
        ensures some { IsSome self.state }
        ensures disk { (state : State D) → self.state ≡ Some state → result ≡ state_disk state }
        ensures count { D.faults result ≡ store_faults D.faults self }
    {
        unmount_state(self.state.unwrap())
    }
}

impl<D: Rig> Store<D> {
    /// Passes a trap to the disk, and changes nothing else.
    pub fn rig(&mut self, trap: Trap)
        requires trap { IsTrap trap }
        ensures stands { (m : StoreState) → StoreStands D.seen D.may_leave self.old m
            → StoreStands D.seen D.may_leave self.new m }
        ensures trap { (old new : State D) (r : Rigged) → self.old.state ≡ Some old
            → self.new.state ≡ Some new → D.rig (state_disk old) ≡ Some r
            → D.rig (state_disk new) ≡ Some (record r { trap = trap }) }
        ensures same { self.new ≡ record self.old { state = self.new.state } }
        ensures count { store_faults D.faults self.new ≡ store_faults D.faults self.old }
    {
        let state = self.state.take().unwrap();
        self.state = Some(rig_state(state, trap));
    }
}

// A store with these slots.
fn opened<D: Disk>(slots: Slots<D>, boot: Boot) -> Store<D>
    ensures stands { (s : SlotPair) → Settled D.seen D.may_leave slots.disk slots.header s
        → StoreStands D.seen D.may_leave result (store_started boot s) }
    ensures state { result.state ≡ Some (Whole slots) }
{
    let base = Base {
        room: slots.room(),
        active: slot_to_run(&slots, boot),
    };
    Store {
        state: Some(State::Whole { slots }),
        coming: Coming::new(),
        base,
    }
}

// The slot that a unit runs: the activated one where it has an image, else the committed one.
fn slot_to_run<D: Disk>(slots: &Slots<D>, boot: Boot) -> u8
    ensures slot { (s : SlotPair) → Settled D.seen D.may_leave slots.now.disk slots.now.header s
        → result ≡ slot_to_run_of boot s }
    ensures below { result < 2 }
{
    match boot {
        Boot::PowerUp => slots.committed(),
        Boot::Activated(slot) => {
            if u16::from(slot) < IMAGES && slots.view(slot).is_some() {
                slot
            } else {
                slots.committed()
            }
        }
    }
}

// Gives the disk of a state back.
fn unmount_state<D: Disk>(state: State<D>) -> D
    ensures disk { result ≡ state_disk state }
{
    match state {
        State::Whole { slots } => slots.unmount(),
        State::Filling { download } => download.unmount(),
        State::Broken { broken, .. } => broken.unmount(),
    }
}

// The software images of a state.
fn state_software<D: Disk>(state: &State<D>, active: u8) -> Software
    ensures shows { (room granted : ℕ) (window : Window) (m : StoreState)
        → StateStands D.seen D.may_leave room active granted window state.now m → result
        ≡ software_of m }
{
    match state {
        State::Whole { slots } => slots_software(slots, active),
        State::Filling { download } => download_software(download, active),
        State::Broken { software, .. } => *software,
    }
}

// Passes a trap to the disk of a state.
fn rig_state<D: Rig>(state: State<D>, trap: Trap) -> State<D>
    requires trap { IsTrap trap }
    ensures stands { (room active granted : ℕ) (window : Window) (m : StoreState)
        → StateStands D.seen D.may_leave room active granted window state m
        → StateStands D.seen D.may_leave room active granted window result m }
    ensures trap { (r : Rigged) → D.rig (state_disk state) ≡ Some r → D.rig (state_disk result)
        ≡ Some (record r { trap = trap }) }
    ensures count { D.faults (state_disk result) ≡ D.faults (state_disk state) }
{
    match state {
        State::Whole { slots } => {
            let mut slots = slots;
            slots.rig(trap);
            State::Whole { slots }
        }
        State::Filling { download } => {
            let mut download = download;
            download.rig(trap);
            State::Filling { download }
        }
        State::Broken { broken, software } => {
            let mut broken = broken;
            broken.rig(trap);
            State::Broken { broken, software }
        }
    }
}
