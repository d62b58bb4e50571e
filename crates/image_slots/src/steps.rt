//! The private steps of the calls: one write and one sync each.
ghost use Rattle.std.specs.Prelude.{◌≡◌, ℕ, ◌+◌, ◌<◌, ◌≤◌, List, [], ◌∷◌, length, Option, Some};
ghost use Rattle.std.specs.Prelude.{None, IsSome, OnOk, true, false};
ghost use Rattle.std.specs.Result.{is_err};
ghost use Rattle.omci_core.specs.Causes.{HasCause};
ghost use Rattle.slot_spec.specs.Crash.{TornFrom, Moments};
ghost use Rattle.slot_spec.specs.Layout.{commit_place, gate_place, entry_place, image_place};
ghost use Rattle.slot_spec.specs.Rig.{Write, Sync, Makes};
ghost use Rattle.slot_spec.specs.Header.{slot_header as slot_header_of, with_slot_header};
ghost use Rattle.slot_spec.specs.Owner.{Stored};

use omci_core::Failed;
use slot_disk::Disk;
use slot_spec::{
    COMMIT_PLACE, DiskHeader, ENTRY_BYTES, FIRST_ENTRY, FIRST_GATE, HEADER_BYTES, SECOND_ENTRY,
    SECOND_GATE, SlotHeader,
};

// Writes bytes that are on the disk once the call is Ok.
#[tactic(auto, unfolding(slot_spec::specs::Rig::after_calls, slot_spec::specs::Rig::calls_fail))]
pub fn write_through<D: Disk>(disk: &mut D, at: u64, bytes: &[u8]) -> Result<(), Failed>
    ensures written { (was : List ℕ) → D.seen disk.old ≡ Some was
        → OnOk result (Stored D.seen D.may_leave at bytes.now was disk.new) }
    ensures told { IsSome (D.seen disk.old) → IsSome (D.seen disk.new) }
    ensures moments { Moments D.clock D.left_since D.may_leave disk.old disk.new
        (TornFrom at (length bytes.now) (D.may_leave disk.old)) }
    ensures rig { Makes (Write at bytes.now ∷ Sync ∷ []) (D.rig disk.old) (D.rig disk.new)
        (is_err result) }
    ensures cause { HasCause (D.faults disk.old) (D.faults disk.new) result }
{
    disk.write_at(at, bytes)?;
    disk.sync()?;
    Ok(())
}

// Names the committed slot.
pub fn store_commit<D: Disk>(disk: &mut D, slot: u8) -> Result<(), Failed>
    ensures written { (was : List ℕ) → D.seen disk.old ≡ Some was
        → OnOk result (Stored D.seen D.may_leave commit_place (slot ∷ []) was disk.new) }
    ensures told { IsSome (D.seen disk.old) → IsSome (D.seen disk.new) }
    ensures moments { Moments D.clock D.left_since D.may_leave disk.old disk.new
        (TornFrom commit_place 1 (D.may_leave disk.old)) }
    ensures rig { Makes (Write commit_place (slot ∷ []) ∷ Sync ∷ []) (D.rig disk.old)
        (D.rig disk.new) (is_err result) }
    ensures cause { HasCause (D.faults disk.old) (D.faults disk.new) result }
{
    write_through(disk, COMMIT_PLACE, &[slot])
}

// Gives a slot's gate its byte.
pub fn store_gate<D: Disk>(disk: &mut D, slot: u8, byte: u8) -> Result<(), Failed>
    requires slot { slot < 2 }
    ensures written { (was : List ℕ) → D.seen disk.old ≡ Some was
        → OnOk result (Stored D.seen D.may_leave (gate_place slot) (byte ∷ []) was disk.new) }
    ensures told { IsSome (D.seen disk.old) → IsSome (D.seen disk.new) }
    ensures moments { Moments D.clock D.left_since D.may_leave disk.old disk.new
        (TornFrom (gate_place slot) 1 (D.may_leave disk.old)) }
    ensures rig { Makes (Write (gate_place slot) (byte ∷ []) ∷ Sync ∷ []) (D.rig disk.old)
        (D.rig disk.new) (is_err result) }
    ensures cause { HasCause (D.faults disk.old) (D.faults disk.new) result }
{
    write_through(disk, gate_at(slot), &[byte])
}

// Gives a slot its entry.
pub fn store_entry<D: Disk>(disk: &mut D, slot: u8, entry: &[u8; ENTRY_BYTES]) -> Result<(), Failed>
    requires slot { slot < 2 }
    ensures written { (was : List ℕ) → D.seen disk.old ≡ Some was
        → OnOk result (Stored D.seen D.may_leave (entry_place slot) entry.now was disk.new) }
    ensures told { IsSome (D.seen disk.old) → IsSome (D.seen disk.new) }
    ensures moments { Moments D.clock D.left_since D.may_leave disk.old disk.new
        (TornFrom (entry_place slot) 22 (D.may_leave disk.old)) }
    ensures rig { Makes (Write (entry_place slot) entry.now ∷ Sync ∷ []) (D.rig disk.old)
        (D.rig disk.new) (is_err result) }
    ensures cause { HasCause (D.faults disk.old) (D.faults disk.new) result }
{
    write_through(disk, entry_at(slot), entry)
}

// Where a slot's gate stands.
pub fn gate_at(slot: u8) -> u64
    requires slot { slot < 2 }
    ensures place { result ≡ gate_place slot }
{
    if slot == 0 { FIRST_GATE } else { SECOND_GATE }
}

// Where a slot's entry stands.
pub fn entry_at(slot: u8) -> u64
    requires slot { slot < 2 }
    ensures place { result ≡ entry_place slot }
{
    if slot == 0 { FIRST_ENTRY } else { SECOND_ENTRY }
}

// Where a slot's image begins.
pub fn image_at(room: u32, slot: u8) -> u64
    requires slot { slot < 2 }
    ensures place { result ≡ image_place room slot }
{
    if slot == 0 {
        HEADER_BYTES
    } else {
        HEADER_BYTES + u64::from(room)
    }
}

// What the header says of a slot.
pub fn slot_header(header: &DiskHeader, slot: u8) -> SlotHeader
    requires slot { slot < 2 }
    ensures header { result ≡ slot_header_of slot header.now }
{
    if slot == 0 {
        header.first
    } else {
        header.second
    }
}

// Puts what is now so of a slot into the header.
pub fn set_slot_header(header: &mut DiskHeader, slot: u8, new: SlotHeader)
    requires slot { slot < 2 }
    ensures header { header.new ≡ with_slot_header slot new header.old }
    ensures committed { header.new.committed ≡ header.old.committed }
{
    if slot == 0 {
        header.first = new;
    } else {
        header.second = new;
    }
}
