//! What a stream of frames is: what its bytes show at their front, what a reader of it holds, and
//! what such a reader answers. The crate has definitions and plain types alone.
#![tactic(auto)]

use frame_spec::FrameFault;
use omci_types::Frame;

/// What a reader of a stream of baseline frames answers when it is asked for a frame.
#[derive(Clone, Copy, Debug, PartialEq, Eq)]
pub enum Taken {
    /// The frame with which the bytes held began. They are held no longer.
    Frame(Frame),
    /// The bytes held begin with no whole frame yet, and show no fault.
    More,
    /// The bytes held show a fault.
    Fault {
        /// The place in the stream, from 0, of the first byte held.
        at: u64,
        /// What is wrong there.
        fault: FrameFault,
    },
}

/// Why a stream of baseline frames ends with bytes that are no frame.
#[derive(Clone, Copy, Debug, PartialEq, Eq)]
pub struct StreamFault {
    /// The place in the stream, from 0, of the first byte held.
    pub at: u64,
    /// What is wrong there: the fault that the bytes held show, or how many of them there are.
    pub fault: FrameFault,
}
