//! A request, by its kind.
ghost use Rattle.std.specs.Prelude.{◌≡◌, ◌<◌, ℕ, true, false, List, if◌then◌else◌};
ghost use Rattle.window_spec.specs.Incoming.{Window, no_window};
ghost use Rattle.store_spec.specs.State.{StoreState};
ghost use Rattle.store_spec.specs.Deeds.{Ignore, deed, slot_deed, refuse as refusal_deed};
ghost use Rattle.store_spec.specs.Deeds.{is_window};
ghost use Rattle.store_spec.specs.Effects.{handled_done};
ghost use Rattle.image_store.specs.Stands.{state_disk, state_broken, SlotsStand, LoadingStands};
ghost use Rattle.image_store.specs.Stands.{StateStands};
ghost use Rattle.image_store.specs.Carries.{Carried};
ghost use Rattle.image_store.specs.Counts.{StateCounts};

use crate::coming::Coming;
use crate::conditions::image_slot;
use crate::finish::{activate, commit, end};
use crate::load::{Asked, hold, section, start};
use crate::state::{Base, Done, State, refused};
use message_spec::Request;
use omci_types::{Code, EntityId};
use slot_disk::Disk;
use store_spec::Handled;

/// Carries a request out. At most one call of it calls the device.
pub(crate) fn carry<D: Disk>(
    state: State<D>,
    coming: &mut Coming,
    base: Base,
    tci: u16,
    entity: EntityId,
    request: &Request,
) -> Done<D>
    ensures carried { (m : StoreState)
        → StateStands D.seen D.may_leave base.room base.active coming.old.granted coming.old.inbox
        state m → Carried D.seen D.may_leave D.clock D.left_since D.rig D.faults base.room
        base.active coming.new.granted coming.new.inbox (state_disk state) result
        (deed base.room tci entity request.now m) m }
    ensures count { StateCounts D.faults state result.state }
{
    match image_slot(entity, is_broken(&state)) {
        Ok(slot) => carry_for(state, coming, base, tci, slot, request),
        Err(code) => Done {
            state,
            handled: refuse(coming, request, code),
        },
    }
}

// Whether a call of the disk failed.
fn is_broken<D: Disk>(state: &State<D>) -> bool
    ensures broken { result ≡ state_broken state.now }
{
    match state {
        State::Whole { .. } | State::Filling { .. } => false,
        State::Broken { .. } => true,
    }
}

// A request whose entity is this slot.
fn carry_for<D: Disk>(
    state: State<D>,
    coming: &mut Coming,
    base: Base,
    tci: u16,
    slot: u8,
    request: &Request,
) -> Done<D>
    requires slot { slot < 2 }
    ensures carried { (m : StoreState)
        → StateStands D.seen D.may_leave base.room base.active coming.old.granted coming.old.inbox
        state m → m.broken ≡ false
        → Carried D.seen D.may_leave D.clock D.left_since D.rig D.faults base.room base.active
        coming.new.granted coming.new.inbox (state_disk state) result
        (slot_deed base.room tci slot request.now m) m }
    ensures count { StateCounts D.faults state result.state }
{
    match request {
        Request::Start {
            window,
            size,
            targets,
            ..
        } => {
            let asked = Asked {
                window: *window,
                size: *size,
                targets: *targets,
            };
            start(state, coming, base, slot, asked)
        }
        Request::Section {
            number,
            bytes,
            last,
        } => {
            if *last {
                section(state, coming, base.active, slot, tci, *number, bytes)
            } else {
                hold(state, coming, slot, tci, *number, bytes)
            }
        }
        Request::End { crc, size, .. } => end(state, base.active, slot, *crc, *size),
        Request::Activate { .. } => activate(state, base.active, slot),
        Request::Commit => commit(state, base.active, slot),
        Request::Create { .. } => ignored(state),
        Request::Delete => ignored(state),
        Request::Set { .. } => ignored(state),
        Request::Get { .. } => ignored(state),
        Request::Alarms { .. } => ignored(state),
        Request::AlarmsNext { .. } => ignored(state),
        Request::Upload => ignored(state),
        Request::UploadNext { .. } => ignored(state),
        Request::Reset => ignored(state),
        Request::Reboot { .. } => ignored(state),
    }
}

// A request that asks nothing of the store.
fn ignored<D: Disk>(state: State<D>) -> Done<D>
    ensures carried { (room active granted : ℕ) (held : Window) (m : StoreState)
        → StateStands D.seen D.may_leave room active granted held state m
        → Carried D.seen D.may_leave D.clock D.left_since D.rig D.faults room active granted held
        (state_disk state) result Ignore m }
    ensures count { StateCounts D.faults state result.state }
{
    Done {
        state,
        handled: Handled::Dropped,
    }
}

// A request that its first tests refuse by this code. A section that ends its window lets go of
// what is held; one that doesn't is dropped.
fn refuse(coming: &mut Coming, request: &Request, code: Code) -> Handled
    ensures handled { result ≡ handled_done (refusal_deed request.now code.0) }
    ensures granted { coming.new.granted ≡ coming.old.granted }
    ensures window { coming.new.inbox
        ≡ (if is_window request.now then no_window else coming.old.inbox) }
{
    match request {
        Request::Start { .. } => refused(code),
        Request::Section { last: true, .. } => {
            coming.inbox.clear();
            refused(code)
        }
        Request::Section { last: false, .. } => Handled::Dropped,
        Request::End { .. } => refused(code),
        Request::Activate { .. } => refused(code),
        Request::Commit => refused(code),
        Request::Create { .. } => Handled::Dropped,
        Request::Delete => Handled::Dropped,
        Request::Set { .. } => Handled::Dropped,
        Request::Get { .. } => Handled::Dropped,
        Request::Alarms { .. } => Handled::Dropped,
        Request::AlarmsNext { .. } => Handled::Dropped,
        Request::Upload => Handled::Dropped,
        Request::UploadNext { .. } => Handled::Dropped,
        Request::Reset => Handled::Dropped,
        Request::Reboot { .. } => Handled::Dropped,
    }
}
