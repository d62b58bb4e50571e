//! The requests on an image that is there: end, activate, commit.
ghost use Rattle.std.specs.Prelude.{◌≡◌, ◌<◌, ℕ, true, false, List, Some, None};
ghost use Rattle.window_spec.specs.Incoming.{Window};
ghost use Rattle.store_spec.specs.State.{StoreState, loading_of, has_image as has_image_in};
ghost use Rattle.store_spec.specs.Deeds.{Refuse, on_download, seal_deed, activate_deed};
ghost use Rattle.store_spec.specs.Deeds.{commit_deed};
ghost use Rattle.image_store.specs.Stands.{state_disk, state_broken, SlotsStand, LoadingStands};
ghost use Rattle.image_store.specs.Stands.{StateStands};
ghost use Rattle.image_store.specs.Carries.{Carried};
ghost use Rattle.image_store.specs.Counts.{StateCounts};
ghost use Rattle.image_store.specs.declared.state.State.TheVariants.{Whole, Filling};

use crate::state::{Done, State, carried, download_software, refused, slots_software};
use image_slots::{CommitRefusal, Download, SealRefusal, Slots};
use omci_types::Code;
use slot_disk::Disk;
use store_spec::Handled;

/// End: the download's slot is sealed.
pub(crate) fn end<D: Disk>(state: State<D>, active: u8, slot: u8, check: u32, size: u32) -> Done<D>
    ensures carried { (room granted : ℕ) (held : Window) (m : StoreState)
        → StateStands D.seen D.may_leave room active granted held state m → m.broken ≡ false
        → Carried D.seen D.may_leave D.clock D.left_since D.rig D.faults room active granted held
        (state_disk state) result (on_download Refuse slot m.download
        (λ l. seal_deed check size l)) m }
    ensures count { StateCounts D.faults state result.state }
{
    match state {
        State::Filling { download } => {
            if slot == download.target() {
                seal(download, active, check, size)
            } else {
                Done {
                    state: State::Filling { download },
                    handled: refused(Code::PARAMETER_ERROR),
                }
            }
        }
        State::Whole { slots } => Done {
            state: State::Whole { slots },
            handled: refused(Code::PROCESSING_ERROR),
        },
        State::Broken { broken, software } => Done {
            state: State::Broken { broken, software },
            handled: refused(Code::PROCESSING_ERROR),
        },
    }
}

// The download that runs is sealed, or ends.
fn seal<D: Disk>(download: Download<D>, active: u8, check: u32, size: u32) -> Done<D>
    ensures carried { (room granted : ℕ) (held : Window) (m : StoreState)
        (l : LoadingStands D.seen D.may_leave room active granted held download m)
        → Carried D.seen D.may_leave D.clock D.left_since D.rig D.faults room active granted held
        download.disk result (seal_deed check size
        (loading_of download.target download.size granted l.put held)) m }
    ensures count { StateCounts D.faults (Filling download) result.state }
{
    let software = download_software(&download, active);
    match download.seal(check, size) {
        Ok(slots) => Done {
            state: State::Whole { slots },
            handled: carried(),
        },
        Err(SealRefusal::Size { slots, .. }) => Done {
            state: State::Whole { slots },
            handled: refused(Code::PARAMETER_ERROR),
        },
        Err(SealRefusal::Check { slots, .. }) => Done {
            state: State::Whole { slots },
            handled: refused(Code::PROCESSING_ERROR),
        },
        Err(SealRefusal::Fault { broken }) => Done {
            state: State::Broken { broken, software },
            handled: refused(Code::PROCESSING_ERROR),
        },
    }
}

/// Activate: the unit leaves, unless it runs the slot already.
pub(crate) fn activate<D: Disk>(state: State<D>, active: u8, slot: u8) -> Done<D>
    requires slot { slot < 2 }
    ensures carried { (room granted : ℕ) (held : Window) (m : StoreState)
        → StateStands D.seen D.may_leave room active granted held state m → m.broken ≡ false
        → Carried D.seen D.may_leave D.clock D.left_since D.rig D.faults room active granted held
        (state_disk state) result (activate_deed slot m) m }
    ensures count { StateCounts D.faults state result.state }
{
    if has_image(&state, slot) {
        let handled = Handled::Answered {
            code: Code::SUCCESS,
            grows: true,
            leaves: slot != active,
        };
        Done { state, handled }
    } else {
        Done {
            state,
            handled: refused(Code::PARAMETER_ERROR),
        }
    }
}

// Whether a slot has an image, where no device call failed.
fn has_image<D: Disk>(state: &State<D>, slot: u8) -> bool
    requires slot { slot < 2 }
    ensures value { (room active granted : ℕ) (held : Window) (m : StoreState)
        → StateStands D.seen D.may_leave room active granted held state.now m → m.broken ≡ false
        → result ≡ has_image_in slot m.slots }
{
    match state {
        State::Whole { slots } => slots.view(slot).is_some(),
        State::Filling { download } => download.view(slot).is_some(),
        State::Broken { .. } => false,
    }
}

/// Commit: the slot is the committed one from now on.
pub(crate) fn commit<D: Disk>(state: State<D>, active: u8, slot: u8) -> Done<D>
    requires slot { slot < 2 }
    ensures carried { (room granted : ℕ) (held : Window) (m : StoreState)
        → StateStands D.seen D.may_leave room active granted held state m → m.broken ≡ false
        → Carried D.seen D.may_leave D.clock D.left_since D.rig D.faults room active granted held
        (state_disk state) result (commit_deed slot m.slots) m }
    ensures count { StateCounts D.faults state result.state }
{
    match state {
        State::Whole { slots } => keep(slots, active, slot),
        State::Filling { download } => {
            if download.view(slot).is_some() {
                Done {
                    state: State::Filling { download },
                    handled: carried(),
                }
            } else {
                Done {
                    state: State::Filling { download },
                    handled: refused(Code::PARAMETER_ERROR),
                }
            }
        }
        State::Broken { broken, software } => Done {
            state: State::Broken { broken, software },
            handled: refused(Code::PROCESSING_ERROR),
        },
    }
}

// No download runs.
fn keep<D: Disk>(slots: Slots<D>, active: u8, slot: u8) -> Done<D>
    requires slot { slot < 2 }
    ensures carried { (room granted : ℕ) (held : Window) (m : StoreState)
        → SlotsStand D.seen D.may_leave room active slots m → m.download ≡ None
        → Carried D.seen D.may_leave D.clock D.left_since D.rig D.faults room active granted held
        slots.disk result (commit_deed slot m.slots) m }
    ensures count { StateCounts D.faults (Whole slots) result.state }
{
    let software = slots_software(&slots, active);
    match slots.commit(slot) {
        Ok(slots) => Done {
            state: State::Whole { slots },
            handled: carried(),
        },
        Err(CommitRefusal::NotValid { slots }) => Done {
            state: State::Whole { slots },
            handled: refused(Code::PARAMETER_ERROR),
        },
        Err(CommitRefusal::Fault { broken }) => Done {
            state: State::Broken { broken, software },
            handled: refused(Code::PROCESSING_ERROR),
        },
    }
}
