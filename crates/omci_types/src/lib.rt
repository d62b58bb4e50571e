//! The plain types of the OMCI channel, which definitions and code share. Derives alone: nothing
//! here has a body.
#![tactic(auto)]

/// The two priorities of ITU-T G.988. A TCI whose top bit is set is of high priority.
#[derive(Clone, Copy, Debug, PartialEq, Eq)]
pub enum Priority {
    Low,
    High,
}

/// A managed entity: its class and its instance (ITU-T G.988, clause 11.2.4). Ordered by class,
/// then instance.
#[derive(Clone, Copy, Debug, PartialEq, Eq, PartialOrd, Ord)]
pub struct EntityId {
    pub class: u16,
    pub instance: u16,
}

/// The result code of a response (ITU-T G.988, clause 11.2.5). A byte with no name here is kept as
/// it came.
#[derive(Clone, Copy, Debug, PartialEq, Eq)]
pub struct Code(pub u8);

impl Code {
    /// The command was carried out.
    pub const SUCCESS: Code = Code(0);
    /// The command could not be carried out.
    pub const PROCESSING_ERROR: Code = Code(1);
    /// The class doesn't support the command.
    pub const NOT_SUPPORTED: Code = Code(2);
    /// A parameter of the command is wrong.
    pub const PARAMETER_ERROR: Code = Code(3);
    /// There is no such class.
    pub const UNKNOWN_CLASS: Code = Code(4);
    /// There is no such instance of the class.
    pub const UNKNOWN_INSTANCE: Code = Code(5);
    /// The unit is busy.
    pub const BUSY: Code = Code(6);
    /// The instance to be created is there already.
    pub const INSTANCE_EXISTS: Code = Code(7);
    /// Some of the attributes failed or are unknown.
    pub const ATTRIBUTES_FAILED: Code = Code(9);
}

/// A baseline frame (ITU-T G.988, clause 11.2): what its 48 bytes say, apart from the parts that
/// never differ.
#[derive(Clone, Copy, Debug, PartialEq, Eq)]
pub struct Frame {
    /// The transaction correlation identifier.
    pub tci: u16,
    /// Byte 3: AR is `0x40`, AK is `0x20`, and the low five bits are the message type.
    pub kind: u8,
    pub entity: EntityId,
    /// Bytes 9 to 40.
    pub contents: [u8; 32],
}

/// What is known of a valid software image.
#[derive(Clone, Copy, Debug, PartialEq, Eq)]
pub struct SlotView {
    /// The image's length in bytes.
    pub length: u32,
    /// The CRC-32 of ITU-T I.363.5 of the image.
    pub crc: u32,
    /// The image's first 14 bytes, filled with zeros.
    pub version: [u8; 14],
}

/// The two software images of a unit: what each valid one is, which is committed, and which is
/// active.
#[derive(Clone, Copy, Debug, PartialEq, Eq)]
pub struct Software {
    pub first: Option<SlotView>,
    pub second: Option<SlotView>,
    /// The slot, 0 or 1, that the unit takes at power-up.
    pub committed: u8,
    /// The slot, 0 or 1, that the unit runs.
    pub active: u8,
}

/// Why a unit starts.
#[derive(Clone, Copy, Debug, PartialEq, Eq)]
pub enum Boot {
    PowerUp,
    /// This slot was activated.
    Activated(u8),
}
