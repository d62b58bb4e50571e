//! A frame of either set.

use extended_contents::LongFrame;
use omci_types::Frame;

/// A frame of either message set.
#[derive(Debug, Drop)]
pub enum AnyFrame {
    /// A baseline frame.
    Short(Frame),
    /// An extended frame.
    Long(LongFrame),
}
