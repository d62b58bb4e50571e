//! What an extended frame says: a request, a response or a notice, with its TCI and its entity.

use crate::lists::{Pieces, Rows};
use extended_spec::BITMAP_BYTES;
use omci_core::Bytes;
use omci_types::{Code, EntityId};

/// What an extended frame says. Its fields are those of a baseline message, but for values and
/// image bytes, which may have any length, and for lists of pieces and of rows.
#[derive(Debug, Drop)]
pub enum LongMessage {
    /// A request of the OLT. Its type byte has AR, but for a section that isn't its window's last.
    Asked {
        tci: u16,
        entity: EntityId,
        request: LongRequest,
    },
    /// A response of the ONU. Its type byte has AK.
    Answered {
        tci: u16,
        entity: EntityId,
        response: LongResponse,
    },
    /// A notice of the ONU. Its type byte has neither AR nor AK.
    Told {
        tci: u16,
        entity: EntityId,
        notice: LongNotice,
    },
}

/// A request, by its message type.
#[derive(Debug, Drop)]
pub enum LongRequest {
    /// Create an entity (type 4).
    Create {
        /// The set-by-create attributes, one after the other.
        values: Bytes,
    },
    /// Delete an entity (type 6).
    Delete,
    /// Set attributes (type 8).
    Set {
        /// Attribute 1 is the highest bit.
        mask: u16,
        /// The values of the attributes of the mask, one after the other.
        values: Bytes,
    },
    /// Get attributes (type 9).
    Get {
        /// Attribute 1 is the highest bit.
        mask: u16,
    },
    /// Get all alarms: take a snapshot of the alarm table (type 11).
    Alarms {
        /// The alarm retrieval mode.
        mode: u8,
    },
    /// Get the next rows of the alarm snapshot (type 12).
    AlarmsNext {
        /// The number of the command, from 0 on.
        number: u16,
    },
    /// MIB upload: take a snapshot of the database (type 13).
    Upload,
    /// Get the next pieces of the database snapshot (type 14).
    UploadNext {
        /// The number of the command, from 0 on.
        number: u16,
    },
    /// MIB reset (type 15).
    Reset,
    /// Start a software download (type 19).
    Start {
        /// The asked window in sections, 1 to 256. Its byte is one less.
        window: u16,
        /// The image's size in bytes.
        size: u32,
        /// The number of circuit packs that the image is for.
        targets: u8,
        /// The instance of the software image that is written.
        target: u16,
    },
    /// A section of a software image (type 20).
    Section {
        /// The section's number in its window, from 0 on.
        number: u8,
        /// The section's bytes of the image.
        bytes: Bytes,
        /// Whether the section ends its window and asks for a response: bit AR.
        last: bool,
    },
    /// End a software download (type 21).
    End {
        /// The image's CRC-32 of ITU-T I.363.5.
        crc: u32,
        /// The image's size in bytes.
        size: u32,
        /// The number of circuit packs that the image is for.
        targets: u8,
        /// The instance of the software image that was written.
        target: u16,
    },
    /// Activate a software image (type 22).
    Activate {
        /// The flags of the command.
        flags: u8,
    },
    /// Commit a software image (type 23).
    Commit,
    /// Reboot the ONU (type 25).
    Reboot {
        /// The flags of the command.
        flags: u8,
    },
}

/// A response, by its message type.
#[derive(Debug, Drop)]
pub enum LongResponse {
    /// Response to create (type 4).
    Create {
        code: Code,
        /// The attributes that were refused.
        mask: u16,
    },
    /// Response to delete (type 6).
    Delete {
        code: Code,
    },
    /// Response to set (type 8).
    Set {
        code: Code,
        /// The attributes that the entity doesn't have.
        unsupported: u16,
        /// The attributes that could not be set.
        failed: u16,
    },
    /// Response to get (type 9).
    Get {
        code: Code,
        /// The attributes that are given.
        mask: u16,
        /// Their values, one after the other. In the frame they stand last.
        values: Bytes,
        /// The attributes that the entity doesn't have.
        unsupported: u16,
        /// The attributes that could not be read.
        failed: u16,
    },
    /// Response to get all alarms (type 11).
    Alarms {
        /// The number of commands that give the alarm snapshot.
        count: u16,
    },
    /// Response to get all alarms next (type 12).
    AlarmsNext {
        rows: Rows,
    },
    /// Response to MIB upload (type 13).
    Upload {
        /// The number of commands that give the database snapshot.
        count: u16,
    },
    /// Response to MIB upload next (type 14).
    UploadNext {
        pieces: Pieces,
    },
    /// Response to MIB reset (type 15).
    Reset {
        code: Code,
    },
    /// Response to start software download (type 19).
    Start {
        code: Code,
        /// The granted window in sections, 1 to 256. Its byte is one less.
        window: u16,
    },
    /// Response to a download section (type 20).
    Section {
        code: Code,
        /// The number of the section that is answered.
        number: u8,
    },
    /// Response to end software download (type 21).
    End {
        code: Code,
    },
    /// Response to activate (type 22).
    Activate {
        code: Code,
    },
    /// Response to commit (type 23).
    Commit {
        code: Code,
    },
    /// Response to reboot (type 25).
    Reboot {
        code: Code,
    },
}

/// A notice, by its message type.
#[derive(Debug, Drop)]
pub enum LongNotice {
    /// An alarm (type 16).
    Alarm {
        /// The entity's alarms. Alarm 0 is the highest bit of the first byte.
        bitmap: [u8; BITMAP_BYTES],
        /// The notice's number, from 1 to 255.
        number: u8,
    },
    /// An attribute value change (type 17).
    Change {
        /// The attributes that changed. Attribute 1 is the highest bit.
        mask: u16,
        /// Their values, one after the other.
        values: Bytes,
    },
}
