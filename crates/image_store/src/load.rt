//! The requests of a download until its end: start and sections.
ghost use Rattle.std.specs.Prelude.{◌≡◌, ◌<◌, ◌≤◌, ◌≢◌, ◌+◌, ◌++◌, ℕ, take, length, true, false};
ghost use Rattle.std.specs.Prelude.{List};
ghost use Rattle.window_spec.specs.Incoming.{Window, no_window, Section as Arriving};
ghost use Rattle.window_spec.specs.Incoming.{section as arriving, after_section, answer};
ghost use Rattle.store_spec.specs.State.{StoreState, loading_of};
ghost use Rattle.store_spec.specs.Deeds.{Begin, Put, RefuseWindow, ignore, start_deed, on_download};
ghost use Rattle.store_spec.specs.Deeds.{put_deed, hold_deed};
ghost use Rattle.image_store.specs.Stands.{state_disk, state_broken, SlotsStand, LoadingStands};
ghost use Rattle.image_store.specs.Stands.{StateStands};
ghost use Rattle.image_store.specs.Carries.{Carried};
ghost use Rattle.image_store.specs.Counts.{StateCounts};
ghost use Rattle.image_store.specs.declared.state.State.TheVariants.{Whole, Filling};

use crate::coming::Coming;
use crate::conditions::{is_in_use, start_test, window_test};
use crate::state::{Base, Done, State, carried, download_software, refused, slots_software};
use image_slots::{BeginRefusal, Download, PutRefusal, Slots};
use omci_types::Code;
use slot_disk::Disk;
use store_spec::Handled;
use window_spec::{Arrived, SECTION_BYTES};

/// The fields of a start that its row looks at: the asked window, the image's size, and how many
/// circuit packs it is for.
#[derive(Clone, Copy)]
pub(crate) struct Asked {
    pub(crate) window: u16,
    pub(crate) size: u32,
    pub(crate) targets: u8,
}

/// Start: an earlier download is abandoned, and one begins.
pub(crate) fn start<D: Disk>(
    state: State<D>,
    coming: &mut Coming,
    base: Base,
    slot: u8,
    asked: Asked,
) -> Done<D>
    requires slot { slot < 2 }
    ensures carried { (m : StoreState)
        → StateStands D.seen D.may_leave base.room base.active coming.old.granted coming.old.inbox
        state m → m.broken ≡ false
        → Carried D.seen D.may_leave D.clock D.left_since D.rig D.faults base.room base.active
        coming.new.granted coming.new.inbox (state_disk state) result
        (start_deed base.room slot asked.window asked.size asked.targets m) m }
    ensures count { StateCounts D.faults state result.state }
{
    let in_use = is_in_use(slot, base.active, committed(&state));
    match start_test(in_use, base.room, asked.targets, asked.size) {
        Ok(()) => {
            coming.grant(asked.window);
            begin_over(state, base.active, slot, asked.size)
        }
        Err(code) => Done {
            state,
            handled: refused(code),
        },
    }
}

// A download begins over whatever was there, its tests passed.
fn begin_over<D: Disk>(state: State<D>, active: u8, slot: u8, size: u32) -> Done<D>
    requires slot { slot < 2 }
    ensures carried { (room granted next : ℕ) (held : Window) (m : StoreState)
        → StateStands D.seen D.may_leave room active granted held state m → m.broken ≡ false
        → slot ≢ m.slots.committed → 1 ≤ size → size ≤ room
        → Carried D.seen D.may_leave D.clock D.left_since D.rig D.faults room active next no_window
        (state_disk state) result (Begin slot size next) m }
    ensures count { StateCounts D.faults state result.state }
{
    match state {
        State::Whole { slots } => begin(slots, active, slot, size),
        State::Filling { download } => begin(download.abandon(), active, slot, size),
        State::Broken { broken, software } => Done {
            state: State::Broken { broken, software },
            handled: refused(Code::PROCESSING_ERROR),
        },
    }
}

// The committed slot; in a broken store, as it was before the request that broke it.
fn committed<D: Disk>(state: &State<D>) -> u8
    ensures committed { (room active granted : ℕ) (window : Window) (m : StoreState)
        → StateStands D.seen D.may_leave room active granted window state.now m → result
        ≡ m.slots.committed }
{
    match state {
        State::Whole { slots } => slots.committed(),
        State::Filling { download } => download.committed(),
        State::Broken { software, .. } => software.committed,
    }
}

// A download begins, its tests passed.
fn begin<D: Disk>(slots: Slots<D>, active: u8, slot: u8, size: u32) -> Done<D>
    requires slot { slot < 2 }
    ensures carried { (room granted : ℕ) (m : StoreState)
        → SlotsStand D.seen D.may_leave room active slots m → slot ≢ m.slots.committed → 1 ≤ size
        → size ≤ room → Carried D.seen D.may_leave D.clock D.left_since D.rig D.faults room active
        granted no_window slots.disk result (Begin slot size granted) m }
    ensures count { StateCounts D.faults (Whole slots) result.state }
{
    let software = slots_software(&slots, active);
    match slots.begin(slot, size) {
        Ok(download) => Done {
            state: State::Filling { download },
            handled: carried(),
        },
        Err(BeginRefusal::InUse { slots }) => Done {
            state: State::Whole { slots },
            handled: refused(Code::PARAMETER_ERROR),
        },
        Err(BeginRefusal::Size { slots, .. }) => Done {
            state: State::Whole { slots },
            handled: refused(Code::PARAMETER_ERROR),
        },
        Err(BeginRefusal::Fault { broken }) => Done {
            state: State::Broken { broken, software },
            handled: refused(Code::PROCESSING_ERROR),
        },
    }
}

/// A section that ends its window: the window's bytes, cut where the image ends, join the download.
pub(crate) fn section<D: Disk>(
    state: State<D>,
    coming: &mut Coming,
    active: u8,
    slot: u8,
    tci: u16,
    number: u8,
    bytes: &[u8; SECTION_BYTES],
) -> Done<D>
    requires slot { slot < 2 }
    ensures carried { (room : ℕ) (m : StoreState)
        → StateStands D.seen D.may_leave room active coming.old.granted coming.old.inbox state m
        → m.broken ≡ false
        → Carried D.seen D.may_leave D.clock D.left_since D.rig D.faults room active
        coming.new.granted coming.new.inbox (state_disk state) result (on_download
        RefuseWindow slot m.download (λ l. put_deed (arriving tci number bytes.now) l)) m }
    ensures count { StateCounts D.faults state result.state }
{
    let arrived = coming.inbox.section(tci, number, bytes, true);
    let done = window(
        state,
        active,
        slot,
        coming.granted,
        arrived,
        coming.inbox.window(),
    );
    coming.inbox.clear();
    done
}

// A window whose last section has come.
fn window<D: Disk>(
    state: State<D>,
    active: u8,
    slot: u8,
    granted: u16,
    arrived: Arrived,
    bytes: &[u8],
) -> Done<D>
    ensures carried { (room : ℕ) (held : Window) (s : Arriving) (m : StoreState)
        → StateStands D.seen D.may_leave room active granted held state m → m.broken ≡ false
        → arrived ≡ answer s true held → bytes.now ≡ (after_section s held).bytes
        → Carried D.seen D.may_leave D.clock D.left_since D.rig D.faults room active granted
        no_window (state_disk state) result (on_download RefuseWindow slot m.download
        (λ l. put_deed s l)) m }
    ensures count { StateCounts D.faults state result.state }
{
    match state {
        State::Filling { download } => {
            if slot == download.target() {
                put(download, active, granted, arrived, bytes)
            } else {
                Done {
                    state: State::Filling { download },
                    handled: refused(Code::PARAMETER_ERROR),
                }
            }
        }
        State::Whole { slots } => Done {
            state: State::Whole { slots },
            handled: refused(Code::PROCESSING_ERROR),
        },
        State::Broken { broken, software } => Done {
            state: State::Broken { broken, software },
            handled: refused(Code::PROCESSING_ERROR),
        },
    }
}

// A window for the download that runs.
fn put<D: Disk>(
    download: Download<D>,
    active: u8,
    granted: u16,
    arrived: Arrived,
    bytes: &[u8],
) -> Done<D>
    ensures carried { (room : ℕ) (held : Window) (s : Arriving) (m : StoreState)
        (l : LoadingStands D.seen D.may_leave room active granted held download m) → arrived
        ≡ answer s true held → bytes.now ≡ (after_section s held).bytes
        → Carried D.seen D.may_leave D.clock D.left_since D.rig D.faults room active granted
        no_window download.disk result (put_deed s
        (loading_of download.target download.size granted l.put held)) m }
    ensures count { StateCounts D.faults (Filling download) result.state }
{
    match window_test(granted, download.size(), download.have(), arrived) {
        Ok(()) => {
            let left = download.size().saturating_sub(download.have());
            put_piece(download, active, front(bytes, left as usize))
        }
        Err(code) => Done {
            state: State::Filling { download },
            handled: refused(code),
        },
    }
}

// The next bytes of the image, which end within it.
fn put_piece<D: Disk>(download: Download<D>, active: u8, piece: &[u8]) -> Done<D>
    ensures carried { (room granted : ℕ) (held : Window) (m : StoreState)
        (l : LoadingStands D.seen D.may_leave room active granted held download m)
        → download.have + length piece.now ≤ download.size
        → Carried D.seen D.may_leave D.clock D.left_since D.rig D.faults room active granted
        no_window download.disk result (Put (l.put ++ piece.now)) m }
    ensures count { StateCounts D.faults (Filling download) result.state }
{
    let software = download_software(&download, active);
    match download.put(piece) {
        Ok(download) => Done {
            state: State::Filling { download },
            handled: refused(Code::SUCCESS),
        },
        Err(PutRefusal::Past { download, .. }) => Done {
            state: State::Filling { download },
            handled: refused(Code::PARAMETER_ERROR),
        },
        Err(PutRefusal::Fault { broken }) => Done {
            state: State::Broken { broken, software },
            handled: refused(Code::PROCESSING_ERROR),
        },
    }
}

// The first bytes, at most so many.
fn front(bytes: &[u8], most: usize) -> &[u8]
    ensures value { result.now ≡ take most bytes.now }
{
    if bytes.len() <= most {
        bytes
    } else {
        &bytes[..most]
    }
}

/// A section that isn't its window's last: it is held, or dropped.
pub(crate) fn hold<D: Disk>(
    state: State<D>,
    coming: &mut Coming,
    slot: u8,
    tci: u16,
    number: u8,
    bytes: &[u8; SECTION_BYTES],
) -> Done<D>
    ensures carried { (room active : ℕ) (m : StoreState)
        → StateStands D.seen D.may_leave room active coming.old.granted coming.old.inbox state m
        → m.broken ≡ false
        → Carried D.seen D.may_leave D.clock D.left_since D.rig D.faults room active
        coming.new.granted coming.new.inbox (state_disk state) result
        (on_download ignore slot m.download (λ l. hold_deed (arriving tci number bytes.now) l)) m }
    ensures count { StateCounts D.faults state result.state }
{
    match state {
        State::Filling { download } => {
            if slot == download.target() {
                hold_for(download, coming, tci, number, bytes)
            } else {
                Done {
                    state: State::Filling { download },
                    handled: Handled::Dropped,
                }
            }
        }
        State::Whole { slots } => Done {
            state: State::Whole { slots },
            handled: Handled::Dropped,
        },
        State::Broken { broken, software } => Done {
            state: State::Broken { broken, software },
            handled: Handled::Dropped,
        },
    }
}

// A section for the download that runs.
fn hold_for<D: Disk>(
    download: Download<D>,
    coming: &mut Coming,
    tci: u16,
    number: u8,
    bytes: &[u8; SECTION_BYTES],
) -> Done<D>
    ensures carried { (room active : ℕ) (m : StoreState)
        (l : LoadingStands D.seen D.may_leave room active coming.old.granted coming.old.inbox
        download m) → Carried D.seen D.may_leave D.clock D.left_since D.rig D.faults room active
        coming.new.granted coming.new.inbox download.disk result (hold_deed
        (arriving tci number bytes.now)
        (loading_of download.target download.size coming.old.granted l.put coming.old.inbox)) m }
    ensures count { StateCounts D.faults (Filling download) result.state }
{
    match coming.inbox.section(tci, number, bytes, false) {
        Arrived::Held => Done {
            state: State::Filling { download },
            handled: Handled::Held,
        },
        Arrived::Ignored => Done {
            state: State::Filling { download },
            handled: Handled::Dropped,
        },
        Arrived::Whole { .. } => Done {
            state: State::Filling { download },
            handled: Handled::Dropped,
        },
        Arrived::Broken => Done {
            state: State::Filling { download },
            handled: Handled::Dropped,
        },
    }
}
