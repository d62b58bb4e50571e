//! Laws of frames of both message sets, of their streams, and of messages of extended frames. They
//! stand over the definitions alone.
#![tactic(auto)]

ghost use Rattle.std.specs.Prelude.{◌≡◌, ℕ, ◌<◌, ◌++◌, List, length, All, Ok};
ghost use Rattle.frame_spec.specs.declared.TheConstants.{MAX_PACKET_BYTES};
ghost use Rattle.frame_spec.specs.Baseline.{IsBytes};
ghost use Rattle.stream_spec.specs.Streams.{Call, IsCall, Open, Faulty, BeginsWith, IsStream, first_course, after_calls};
ghost use Rattle.stream_laws.specs.Sets.{IsCourse};
ghost use Rattle.extended_spec.specs.declared.AnyFault.{AnyFault};
ghost use Rattle.extended_spec.specs.Frames.{Any, IsAny, any_spelling, any_decoded};
ghost use Rattle.extended_spec.specs.Messages.{Parts, IsParts, parts_of, long_plain};
ghost use Rattle.extended_spec.specs.Streams.{any_front};

/// A frame of either set is read exactly where the bytes begin with its spelling.
pub fn spelled_is_read()
    ensures read { (frame : Any) (bytes : List ℕ) → IsAny frame →
        BeginsWith (any_spelling frame) bytes → any_decoded bytes ≡ Ok frame }
    ensures spelled { (frame : Any) (bytes : List ℕ) → IsBytes bytes → any_decoded bytes
        ≡ Ok frame →
        IsAny frame × BeginsWith (any_spelling frame) bytes }
{}

/// Whatever calls a reader has had: the bytes that it took are the spellings of the frames that it
/// gave, one after the other, and then the bytes that it holds, and its place is that of the first
/// byte held. Where it holds no whole frame, these are the stream's frames and its rest.
pub fn frames_given_are_the_streams()
    ensures course { (calls : List Call) → All IsCall calls →
        IsCourse IsAny any_spelling (after_calls any_front MAX_PACKET_BYTES calls first_course) }
    ensures open { (calls : List Call) → All IsCall calls →
        any_front (after_calls any_front MAX_PACKET_BYTES calls first_course).reader.held ≡ Open →
        IsStream IsAny any_spelling
        (after_calls any_front MAX_PACKET_BYTES calls first_course).bytes
        (after_calls any_front MAX_PACKET_BYTES calls first_course).frames
        (after_calls any_front MAX_PACKET_BYTES calls first_course).reader.held }
    ensures faulty { (calls : List Call) → All IsCall calls → (fault : AnyFault) →
        any_front (after_calls any_front MAX_PACKET_BYTES calls first_course).reader.held
        ≡ Faulty fault →
        IsStream IsAny any_spelling
        (after_calls any_front MAX_PACKET_BYTES calls first_course).bytes
        (after_calls any_front MAX_PACKET_BYTES calls first_course).frames
        (after_calls any_front MAX_PACKET_BYTES calls first_course).reader.held }
{}

/// Bytes are the stream of one list of frames and one rest at most.
pub fn stream_is_unique()
    ensures law { (bytes rest others : List ℕ) (frames more : List Any) →
        IsStream IsAny any_spelling bytes frames rest →
        IsStream IsAny any_spelling bytes more others → (frames ≡ more) × (rest ≡ others) }
{}

/// A fault that bytes show stands, whatever bytes follow them.
pub fn faults_stand()
    ensures law { (bytes more : List ℕ) (fault : AnyFault) → any_front bytes ≡ Faulty fault →
        any_front (bytes ++ more) ≡ Faulty fault }
{}

/// Bytes that show no frame and no fault at their front are fewer than the longest frame's.
pub fn open_fronts_are_short()
    ensures law { (bytes : List ℕ) → any_front bytes ≡ Open → length bytes < MAX_PACKET_BYTES }
{}

/// A message that is written as an extended frame is read again, lists and all.
pub fn written_is_read()
    ensures law { (m : Parts) → IsParts m → parts_of (long_plain m) ≡ Ok m }
{}
