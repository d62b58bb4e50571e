//! Laws of the two image slots and of the bytes that stand for them, proved of the definitions
//! alone. Each function does nothing: what it ensures is the law, and a caller's proof may cite it.
//! The laws that the proofs of the code go by stand in `proofs/`, one file a subject.
#![tactic(auto)]

ghost use Rattle.std.specs.Prelude.{◌≡◌, ◌≢◌, ◌⊎◌, ℕ, ◌<◌, List, [], ◌∷◌, Some};
ghost use Rattle.slot_spec.specs.declared.Pick.{Pick};
ghost use Rattle.slot_spec.specs.declared.Pick.TheVariants.{Old, New, Byte};
ghost use Rattle.slot_spec.specs.declared.Trap.{Trap};
ghost use Rattle.slot_spec.specs.declared.Trap.TheVariants.{Fuse, Fail, Clear};
ghost use Rattle.slot_spec.specs.Slots.{SlotPair, Change, Keep, Clear as ClearSlot, Seal, Commit, after_change, mid};
ghost use Rattle.slot_spec.specs.Layout.{StandsAt, entry};
ghost use Rattle.slot_spec.specs.Outcome.{outcome};
ghost use Rattle.slot_laws.specs.Rows.{flashed, sealed, recommitted, one_byte_entry};

/// Wherever the power is cut inside a request, and whatever the cut gives to the bytes that were
/// written: the slots are those before the request, or those after it.
pub fn cut_leaves_either()
    ensures either { (change : Change) (s : SlotPair) (trap : Trap) (pick : Pick) → s.committed < 2
        → ((slot : ℕ) → change ≡ Commit slot → (slot < 2) × (slot ≢ s.committed))
        → (outcome change s trap pick ≡ s) ⊎ (outcome change s trap pick ≡ after_change change s) }
{}

/// Bytes stand for slots with one room, and for one pair of slots.
pub fn bytes_stand_once()
    ensures room { (a b : ℕ) (bytes : List ℕ) (s t : SlotPair) → StandsAt a bytes s
        → StandsAt b bytes t → a ≡ b }
    ensures slots { (room : ℕ) (bytes : List ℕ) (s t : SlotPair) → StandsAt room bytes s
        → StandsAt room bytes t → s ≡ t }
{}

/// Requests worked by hand: what a cut at each device call leaves, by its pick.
pub fn worked_cuts()
    ensures entry { entry (255 ∷ []) ≡ one_byte_entry }
    ensures commit_old { outcome (Commit 1) sealed (Fuse 1 Old) Old ≡ sealed }
    ensures commit_new { outcome (Commit 1) sealed (Fuse 1 New) New ≡ recommitted }
    ensures commit_byte { outcome (Commit 1) sealed (Fuse 1 (Byte 0xa4)) (Byte 0xa4) ≡ sealed }
    ensures commit_sync { outcome (Commit 1) sealed (Fuse 2 Old) Old ≡ sealed }
    ensures commit_later { outcome (Commit 1) sealed (Fuse 3 Old) Old ≡ recommitted }
    ensures commit_whole { outcome (Commit 1) sealed Clear Old ≡ recommitted }
    ensures commit_failed { outcome (Commit 1) sealed (Fail 1) New ≡ sealed }
    ensures commit_sync_failed { outcome (Commit 1) sealed (Fail 2) New ≡ recommitted }
    ensures seal_entry { outcome (Seal 1 (255 ∷ 255 ∷ [])) flashed (Fuse 2 New) New ≡ flashed }
    ensures seal_gate { outcome (Seal 1 (255 ∷ 255 ∷ [])) flashed (Fuse 3 New) New ≡ sealed }
    ensures seal_open { outcome (Seal 1 (255 ∷ 255 ∷ [])) flashed (Fuse 3 (Byte 0xa5)) (Byte 0xa5)
        ≡ sealed }
    ensures seal_other { outcome (Seal 1 (255 ∷ 255 ∷ [])) flashed (Fuse 4 (Byte 0xa4)) (Byte 0xa4)
        ≡ flashed }
    ensures seal_later { outcome (Seal 1 (255 ∷ 255 ∷ [])) flashed (Fuse 5 Old) Old ≡ sealed }
    ensures begin_open { outcome (ClearSlot 1) sealed (Fuse 1 (Byte 0xa5)) (Byte 0xa5) ≡ sealed }
    ensures begin_other { outcome (ClearSlot 1) sealed (Fuse 1 (Byte 1)) (Byte 1) ≡ flashed }
    ensures put { outcome Keep flashed (Fuse 1 New) New ≡ flashed }
    ensures mid { mid (Commit 1) sealed ≡ sealed ∷ recommitted ∷ [] }
{}
