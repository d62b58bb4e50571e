//! Laws of streams of baseline frames: whatever pieces are offered to a reader and whenever it is
//! asked for a frame, the frames that it gives are those of the stream. They stand over the
//! definitions alone.
#![tactic(auto)]

ghost use Rattle.std.specs.Prelude.{◌≡◌, ◌↔◌, ℕ, ◌++◌, List, All};
ghost use Rattle.omci_types.specs.declared.Frame.{Frame};
ghost use Rattle.frame_spec.specs.declared.TheConstants.{FRAME_BYTES};
ghost use Rattle.frame_spec.specs.declared.FrameFault.{FrameFault};
ghost use Rattle.frame_spec.specs.Baseline.{IsBytes, IsFrame, spelling};
ghost use Rattle.stream_spec.specs.Streams.{Call, IsCall, Open, Faulty, Whole, BeginsWith, IsStream, first_course, after_calls};
ghost use Rattle.stream_spec.specs.Baseline.{front_of};
ghost use Rattle.stream_laws.specs.Sets.{IsCourse};

/// Whatever calls a reader has had: the bytes that it took are the spellings of the frames that it
/// gave, one after the other, and then the bytes that it holds, and its place is that of the first
/// byte held. Where it holds no whole frame, these are the stream's frames and its rest.
pub fn frames_given_are_the_streams()
    ensures course { (calls : List Call) → All IsCall calls →
        IsCourse IsFrame spelling (after_calls front_of FRAME_BYTES calls first_course) }
    ensures open { (calls : List Call) → All IsCall calls →
        front_of (after_calls front_of FRAME_BYTES calls first_course).reader.held ≡ Open →
        IsStream IsFrame spelling (after_calls front_of FRAME_BYTES calls first_course).bytes
        (after_calls front_of FRAME_BYTES calls first_course).frames
        (after_calls front_of FRAME_BYTES calls first_course).reader.held }
    ensures faulty { (calls : List Call) → All IsCall calls → (fault : FrameFault) →
        front_of (after_calls front_of FRAME_BYTES calls first_course).reader.held ≡ Faulty fault →
        IsStream IsFrame spelling (after_calls front_of FRAME_BYTES calls first_course).bytes
        (after_calls front_of FRAME_BYTES calls first_course).frames
        (after_calls front_of FRAME_BYTES calls first_course).reader.held }
{}

/// Bytes are the stream of one list of frames and one rest at most.
pub fn stream_is_unique()
    ensures law { (bytes rest others : List ℕ) (frames more : List Frame) →
        IsStream IsFrame spelling bytes frames rest → IsStream IsFrame spelling bytes more others →
        (frames ≡ more) × (rest ≡ others) }
{}

/// Bytes show a frame at their front exactly where they begin with its spelling.
pub fn front_shows_frames()
    ensures shown { (bytes : List ℕ) (frame : Frame) → IsBytes bytes →
        ((front_of bytes ≡ Whole frame FRAME_BYTES)
        ↔ (IsFrame frame × BeginsWith (spelling frame) bytes)) }
{}

/// A fault that bytes show stands, whatever bytes follow them.
pub fn faults_stand()
    ensures law { (bytes more : List ℕ) (fault : FrameFault) → front_of bytes ≡ Faulty fault →
        front_of (bytes ++ more) ≡ Faulty fault }
{}
