//! Laws of baseline frames (ITU-T G.988) and of their check value (ITU-T I.363.5), proved of the
//! definitions alone. Each function does nothing: what it ensures is the law, and a caller's proof
//! may cite it.
#![tactic(auto)]

ghost use Rattle.std.specs.Prelude.{◌≡◌, ◌↔◌, ℕ, ◌^◌, ◌<◌, List, [], ◌∷◌, ◌++◌, length, take, replicate, codes};
ghost use Rattle.omci_types.specs.declared.EntityId.{EntityId};
ghost use Rattle.omci_types.specs.declared.Frame.{Frame};
ghost use Rattle.frame_spec.specs.declared.TheConstants.{FRAME_BYTES};
ghost use Rattle.frame_spec.specs.Checksum.{crc};
ghost use Rattle.frame_spec.specs.Baseline.{IsBytes, IsFrame, Spells, spelling, frame_of, decoded, packet_frame};
ghost use Rattle.frame_spec.specs.declared.FrameFault.TheVariants.{Device, Short, Trailer, Check};
ghost use Rattle.frame_spec.specs.Entities.{entity_order};
ghost use Rattle.frame_laws.specs.Faults.{IsDeviceFault, IsShortFault, IsTrailerFault, IsCheckFault};

use omci_types::EntityId;

/// The relation of a frame and its 48 bytes, field by field, and the function that writes them are
/// one.
pub fn spelling_is_the_relation()
    ensures length { (frame : Frame) → IsFrame frame → length (spelling frame) ≡ FRAME_BYTES }
    ensures bytes { (frame : Frame) → IsFrame frame → IsBytes (spelling frame) }
    ensures spells { (frame : Frame) → IsFrame frame → Spells frame (spelling frame) }
    ensures only { (frame : Frame) (bytes : List ℕ) → Spells frame bytes → bytes ≡ spelling frame }
{}

/// No frame has two spellings, no two frames have one, and no spelling is a proper front of
/// another.
pub fn spelling_is_unique()
    ensures same_bytes { (frame : Frame) (a b : List ℕ) → Spells frame a → Spells frame b → a ≡ b }
    ensures same_frame { (f g : Frame) (bytes : List ℕ) → IsFrame f → IsFrame g →
        Spells f bytes → Spells g bytes → f ≡ g }
    ensures no_front { (f g : Frame) (rest : List ℕ) → IsFrame f → IsFrame g →
        spelling f ++ rest ≡ spelling g → (f ≡ g) × (rest ≡ []) }
{}

/// What is spelled is read again: by its fields, whatever follows it, and as a packet of its own.
pub fn spelled_is_read()
    ensures fields { (frame : Frame) → IsFrame frame → frame_of (spelling frame) ≡ frame }
    ensures decoding { (frame : Frame) → IsFrame frame → decoded (spelling frame) ≡ Ok frame }
    ensures front { (frame : Frame) (bytes : List ℕ) → IsFrame frame →
        take FRAME_BYTES bytes ≡ spelling frame → decoded bytes ≡ Ok frame }
    ensures packet { (frame : Frame) → IsFrame frame → packet_frame (spelling frame) ≡ Some frame }
{}

/// Nothing else is read: where a frame is read, the bytes are its spelling.
pub fn read_is_spelled()
    ensures front { (frame : Frame) (bytes : List ℕ) → IsBytes bytes → decoded bytes ≡ Ok frame →
        IsFrame frame × (take FRAME_BYTES bytes ≡ spelling frame) }
    ensures packet { (frame : Frame) (bytes : List ℕ) → IsBytes bytes →
        packet_frame bytes ≡ Some frame → IsFrame frame × (bytes ≡ spelling frame) }
{}

/// Each fault is answered exactly where it is the first that the bytes have, with what was found.
pub fn faults_are_exact()
    ensures device { (bytes : List ℕ) (byte : ℕ) → (decoded bytes ≡ Err (Device byte))
        ↔ IsDeviceFault bytes byte }
    ensures short { (bytes : List ℕ) (have : ℕ) → (decoded bytes ≡ Err (Short have))
        ↔ IsShortFault bytes have }
    ensures trailer { (bytes trailer : List ℕ) → (decoded bytes ≡ Err (Trailer trailer))
        ↔ IsTrailerFault bytes trailer }
    ensures check { (bytes : List ℕ) (given computed : ℕ) →
        (decoded bytes ≡ Err (Check given computed)) ↔ IsCheckFault bytes given computed }
{}

/// A check value fits 32 bits, and these are the values that other implementations give.
pub fn check_values()
    ensures fits { (bytes : List ℕ) → crc bytes < 2 ^ 32 }
    ensures digits { crc (codes "123456789") ≡ 0xfc891918 }
    ensures one_byte { crc (255 ∷ []) ≡ 0x000000ff }
    ensures four_bytes { crc (255 ∷ 255 ∷ 255 ∷ 255 ∷ []) ≡ 0xffffffff }
    ensures many_bytes { crc (replicate 4 255 ++ replicate 58 0 ++ 1 ∷ []) ≡ 0xfb3ee248 }
{}

/// Entities are ordered by class, then by instance.
pub fn order_of_entities()
    ensures law { (a b : EntityId) → ⟦<EntityId as Ord>⟧.cmp a b ≡ entity_order a b }
{}
