//! What a message is, how a frame is read as one, and its text. The crate has types and definitions
//! alone.
//!
//! The messages are those of ITU-T G.988, clause 11.2 and annex A, in the baseline message set.
#![tactic(auto)]

pub use omci_types::{Code, EntityId, Frame};

/// The number of the first byte of a baseline message's contents. Bytes are numbered from 1.
pub const FIRST_CONTENTS_BYTE: usize = 9;

/// In a type byte: the message type (ITU-T G.988, clause 11.2.2).
pub const TYPE_BITS: u8 = 0x1f;

/// In a type byte: the bit that is always 0, AR and AK.
pub const FLAG_BITS: u8 = 0xe0;

/// In a type byte: acknowledge request. It is set alone in what asks for a response.
pub const AR: u8 = 0x40;

/// In a type byte: acknowledge. It is set alone in a response.
pub const AK: u8 = 0x20;

/// The most sections of a window of a software download. The least is 1.
pub const MAX_WINDOW: u16 = 256;

/// The most bytes of a baseline message's text.
pub const MAX_TEXT_BYTES: usize = 98;

/// What a frame says: a request, a response or a notice, with its TCI and its entity.
#[derive(Clone, Copy, Debug, PartialEq, Eq)]
pub enum Message {
    /// A request of the OLT. Its type byte has AR, but for a section that isn't its window's last.
    Asked {
        tci: u16,
        entity: EntityId,
        request: Request,
    },
    /// A response of the ONU. Its type byte has AK.
    Answered {
        tci: u16,
        entity: EntityId,
        response: Response,
    },
    /// A notice of the ONU. Its type byte has neither AR nor AK.
    Told {
        tci: u16,
        entity: EntityId,
        notice: Notice,
    },
}

/// A request, by its message type.
#[derive(Clone, Copy, Debug, PartialEq, Eq)]
pub enum Request {
    /// Create an entity (type 4).
    Create {
        /// The set-by-create attributes, one after the other, then zeros.
        values: [u8; 32],
    },
    /// Delete an entity (type 6).
    Delete,
    /// Set attributes (type 8).
    Set {
        /// Attribute 1 is the highest bit.
        mask: u16,
        /// The values of the attributes of the mask, one after the other, then zeros.
        values: [u8; 30],
    },
    /// Get attributes (type 9).
    Get {
        /// Attribute 1 is the highest bit.
        mask: u16,
    },
    /// Get all alarms: take a snapshot of the alarm table (type 11).
    Alarms {
        /// The alarm retrieval mode.
        mode: u8,
    },
    /// Get the next row of the alarm snapshot (type 12).
    AlarmsNext {
        /// The row's number, from 0 on.
        number: u16,
    },
    /// MIB upload: take a snapshot of the database (type 13).
    Upload,
    /// Get the next piece of the database snapshot (type 14).
    UploadNext {
        /// The piece's number, from 0 on.
        number: u16,
    },
    /// MIB reset (type 15).
    Reset,
    /// Start a software download (type 19).
    Start {
        /// The asked window in sections, 1 to 256. Its byte is one less.
        window: u16,
        /// The image's size in bytes.
        size: u32,
        /// The number of circuit packs that the image is for.
        targets: u8,
        /// The instance of the software image that is written.
        target: u16,
    },
    /// A section of a software image (type 20).
    Section {
        /// The section's number in its window, from 0 on.
        number: u8,
        /// The section's bytes of the image.
        bytes: [u8; 31],
        /// Whether the section ends its window and asks for a response: bit AR.
        last: bool,
    },
    /// End a software download (type 21).
    End {
        /// The image's CRC-32 of ITU-T I.363.5.
        crc: u32,
        /// The image's size in bytes.
        size: u32,
        /// The number of circuit packs that the image is for.
        targets: u8,
        /// The instance of the software image that was written.
        target: u16,
    },
    /// Activate a software image (type 22).
    Activate {
        /// The flags of the command.
        flags: u8,
    },
    /// Commit a software image (type 23).
    Commit,
    /// Reboot the ONU (type 25).
    Reboot {
        /// The flags of the command.
        flags: u8,
    },
}

/// A response, by its message type.
#[derive(Clone, Copy, Debug, PartialEq, Eq)]
pub enum Response {
    /// Response to create (type 4).
    Create {
        code: Code,
        /// The attributes that were refused.
        mask: u16,
    },
    /// Response to delete (type 6).
    Delete {
        code: Code,
    },
    /// Response to set (type 8).
    Set {
        code: Code,
        /// The attributes that the entity doesn't have.
        unsupported: u16,
        /// The attributes that could not be set.
        failed: u16,
    },
    /// Response to get (type 9).
    Get {
        code: Code,
        /// The attributes that are given.
        mask: u16,
        /// Their values, one after the other, then zeros.
        values: [u8; 25],
        /// The attributes that the entity doesn't have.
        unsupported: u16,
        /// The attributes that could not be read.
        failed: u16,
    },
    /// Response to get all alarms (type 11).
    Alarms {
        /// The number of rows of the alarm snapshot.
        count: u16,
    },
    /// Response to get all alarms next (type 12).
    AlarmsNext {
        /// Class and instance with 2 bytes each, and the alarm bitmap with 28.
        row: [u8; 32],
    },
    /// Response to MIB upload (type 13).
    Upload {
        /// The number of pieces of the database snapshot.
        count: u16,
    },
    /// Response to MIB upload next (type 14).
    UploadNext {
        /// Class, instance and mask with 2 bytes each, and values with 26.
        piece: [u8; 32],
    },
    /// Response to MIB reset (type 15).
    Reset {
        code: Code,
    },
    /// Response to start software download (type 19).
    Start {
        code: Code,
        /// The granted window in sections, 1 to 256. Its byte is one less.
        window: u16,
    },
    /// Response to a download section (type 20).
    Section {
        code: Code,
        /// The number of the section that is answered.
        number: u8,
    },
    /// Response to end software download (type 21).
    End {
        code: Code,
    },
    /// Response to activate (type 22).
    Activate {
        code: Code,
    },
    /// Response to commit (type 23).
    Commit {
        code: Code,
    },
    /// Response to reboot (type 25).
    Reboot {
        code: Code,
    },
}

/// A notice, by its message type.
#[derive(Clone, Copy, Debug, PartialEq, Eq)]
pub enum Notice {
    /// An alarm (type 16).
    Alarm {
        /// The entity's alarms. Alarm 0 is the highest bit of the first byte.
        bitmap: [u8; 28],
        /// The notice's number, from 1 to 255.
        number: u8,
    },
    /// An attribute value change (type 17).
    Change {
        /// The attributes that changed. Attribute 1 is the highest bit.
        mask: u16,
        /// Their values, one after the other, then zeros.
        values: [u8; 30],
    },
}

/// A command of the OLT, by its message type (ITU-T G.988, clause 11.2.2). Each has a request and a
/// response.
#[derive(Clone, Copy, Debug, PartialEq, Eq)]
pub enum Action {
    Create,
    Delete,
    Set,
    Get,
    Alarms,
    AlarmsNext,
    Upload,
    UploadNext,
    Reset,
    Start,
    Section,
    End,
    Activate,
    Commit,
    Reboot,
}

/// A message type: what the low five bits of a type byte stand for.
#[derive(Clone, Copy, Debug, PartialEq, Eq)]
pub enum MessageType {
    /// The type of a request and of its response.
    Command(Action),
    /// The type of an alarm notice.
    Alarm,
    /// The type of a notice of changed attribute values.
    Change,
}

/// What a type byte stands for: a message type with the bits AR (`0x40`) and AK (`0x20`).
#[derive(Clone, Copy, Debug, PartialEq, Eq)]
pub enum Kind {
    /// A request that asks for a response: AR.
    Request(Action),
    /// A section of a software image that asks for no response: neither bit.
    UnansweredSection,
    /// A response: AK.
    Response(Action),
    /// An alarm notice: neither bit.
    Alarm,
    /// A notice of changed attribute values: neither bit.
    Change,
}

/// Why a frame is no message.
#[derive(Clone, Copy, Debug, PartialEq, Eq)]
pub enum ContentsFault {
    /// The low five bits of the type byte are the number of no message.
    UnknownType { number: u8 },
    /// The high three bits of this type byte are not those of a message of its type.
    Bits { kind: u8 },
}
