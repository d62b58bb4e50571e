//! The traits of a disk: its calls, and what they mean where it tells.
ghost use Rattle.std.specs.Prelude.{◌≡◌, ℕ, ◌+◌, ◌≤◌, List, [], ◌∷◌, length, Option, Some, IsSome};
ghost use Rattle.std.specs.Prelude.{OnOk, IfOk};
ghost use Rattle.std.specs.Result.{is_err};
ghost use Rattle.omci_core.specs.Causes.{HasCause};
ghost use Rattle.slot_spec.specs.declared.Pick.{Pick};
ghost use Rattle.slot_spec.specs.Crash.{field, Written, TornFrom, Moments};
ghost use Rattle.slot_spec.specs.Rig.{Rigged, Read, Write, Sync, Makes, IsTrap};

use omci_core::Failed;
use slot_spec::Trap;

/// A disk: bytes that are read and written at their places, and that a sync makes durable.
///
/// Where a disk tells what it holds, its calls have these meanings. Between two syncs a crash may
/// leave any bytes in a range that was written, and past the old end; every other byte stays. After
/// a sync that is done a crash leaves what a read gives. A disk as it reads is one of those that a
/// crash may leave. A disk that tells nothing, as a file of the system does, meets the clauses by
/// its count of faults alone; what is proved of its owner then holds as far as the file keeps this
/// model.
pub trait Disk: Drop {
    // What a read gives, where the disk tells it.
    ghost seen: { Self → Option (List ℕ) };

    // What a crash now may leave.
    ghost may_leave: { Self → List ℕ → Type 0 };

    // What a crash at some moment since a time might have left, inside a call or between two.
    ghost left_since: { Self → ℕ → List ℕ → Type 0 };

    // The time, as a number that doesn't fall.
    ghost clock: { Self → ℕ };

    // What it holds, what a cut would leave, and what stops it, where it can be made to fail.
    ghost rig: { Self → Option Rigged };

    // How many faults it has had.
    ghost faults: { Self → ℕ };

    /// Goes to the disk of this name, and answers how many bytes it has.
    fn attach(&mut self, name: &[u8]) -> Result<u64, Failed>
        ensures length { (bytes : List ℕ) → seen self.old ≡ Some bytes
            → IfOk result (λ size. size ≡ length bytes) }
        ensures seen { seen self.new ≡ seen self.old }
        ensures moments { Moments clock left_since may_leave self.old self.new
            (may_leave self.old) }
        ensures rig { Makes (Read 0 0 ∷ []) (rig self.old) (rig self.new) (is_err result) }
        ensures cause { HasCause (faults self.old) (faults self.new) result };

    /// Reads the bytes of a range. `Failed` where the range ends past the disk, or by a fault.
    fn read_at(&mut self, at: u64, into: &mut [u8]) -> Result<(), Failed>
        ensures bytes { (bytes : List ℕ) → seen self.old ≡ Some bytes
            → OnOk result (into.new ≡ field at (length into.new) bytes) }
        ensures inside { (bytes : List ℕ) → seen self.old ≡ Some bytes
            → OnOk result (at + length into.new ≤ length bytes) }
        ensures seen { seen self.new ≡ seen self.old }
        ensures moments { Moments clock left_since may_leave self.old self.new
            (may_leave self.old) }
        ensures rig { Makes (Read at (length into.new) ∷ []) (rig self.old) (rig self.new)
            (is_err result) }
        ensures cause { HasCause (faults self.old) (faults self.new) result };

    /// Writes the bytes of a range, which may end past the disk's end where the disk can grow.
    /// Until a sync a crash may leave any bytes there, and so may a write that failed.
    fn write_at(&mut self, at: u64, from: &[u8]) -> Result<(), Failed>
        ensures written { (bytes : List ℕ) → seen self.old ≡ Some bytes
            → OnOk result ((now : List ℕ) × (seen self.new ≡ Some now)
            × Written at from.now bytes now) }
        ensures told { IsSome (seen self.old) → IsSome (seen self.new) }
        ensures moments { Moments clock left_since may_leave self.old self.new
            (TornFrom at (length from.now) (may_leave self.old)) }
        ensures rig { Makes (Write at from.now ∷ []) (rig self.old) (rig self.new) (is_err result) }
        ensures cause { HasCause (faults self.old) (faults self.new) result };

    /// Makes all that was written durable: once it is Ok, a crash leaves what a read gives.
    fn sync(&mut self) -> Result<(), Failed>
        ensures durable { (bytes : List ℕ) → seen self.old ≡ Some bytes
            → OnOk result ((image : List ℕ) → may_leave self.new image → image ≡ bytes) }
        ensures seen { seen self.new ≡ seen self.old }
        ensures moments { Moments clock left_since may_leave self.old self.new
            (may_leave self.old) }
        ensures rig { Makes (Sync ∷ []) (rig self.old) (rig self.new) (is_err result) }
        ensures cause { HasCause (faults self.old) (faults self.new) result };

    // What it holds is what a read gives.
    ghost rig_reads: { (disk : Self) (r : Rigged) → rig disk ≡ Some r → seen disk ≡ Some r.bytes };

    // What a cut leaves is one of those that a crash may leave.
    ghost cut_counts: { (disk : Self) (r : Rigged) (pick : Pick) → rig disk ≡ Some r
        → may_leave disk (r.cut pick) };

    // A disk as it reads is one of those that a crash may leave.
    ghost leaves_seen: { (disk : Self) (bytes : List ℕ) → seen disk ≡ Some bytes
        → may_leave disk bytes };

    // This moment is one of those since an earlier time.
    ghost counts_now: { (disk : Self) (time : ℕ) (image : List ℕ) → time ≤ clock disk
        → may_leave disk image → left_since disk time image };

    // Since this moment there was no other.
    ghost only_now: { (disk : Self) (image : List ℕ) → left_since disk (clock disk) image
        → may_leave disk image };
}

/// A disk whose calls can be made to fail: it tells what it holds, what a cut of the power would
/// leave, and what stops it.
pub trait Rig: Disk {
    /// Sets the trap, and changes nothing else. Calls are counted from 1, from now on.
    fn rig(&mut self, trap: Trap)
        requires { IsTrap trap }
        ensures seen { Self.seen self.new ≡ Self.seen self.old }
        ensures moments { Moments Self.clock Self.left_since Self.may_leave self.old self.new
            (Self.may_leave self.old) }
        ensures clock { Self.clock self.new ≡ Self.clock self.old }
        ensures faults { Self.faults self.new ≡ Self.faults self.old }
        ensures trap { (r : Rigged) → Self.rig self.old ≡ Some r
            → Self.rig self.new ≡ Some (record r { trap = trap }) };

    // It tells what it holds.
    ghost tells: { (disk : Self) → IsSome (Self.rig disk) };
}
