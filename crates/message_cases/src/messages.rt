//! What frames are read as, and what is written of that.

use crate::texts::say;
use case_lines::{NoMemory, hex_of, short_hex_of};
use omci_contents::{
    Code, EntityId, Frame, Message, Request, Response, has_valid_window, read_message,
    write_message,
};
use std::alloc::Global;

/// The message that the frame is read as, and the type byte and contents of the frame that is
/// written of it; or the fault.
pub(crate) fn message(alloc: Global, frame: &Frame) -> Result<String, NoMemory> {
    match read_message(frame) {
        Ok(message) => message_text(alloc, &message),
        Err(fault) => Ok(format!(in alloc; "{fault:?}")?),
    }
}

fn message_text(alloc: Global, message: &Message) -> Result<String, NoMemory> {
    if !has_valid_window(message) {
        return say(alloc, "not allowed");
    }
    let said = match message {
        Message::Asked { request, .. } => format!(in alloc; "asked {request:?}")?,
        Message::Answered { response, .. } => format!(in alloc; "answered {response:?}")?,
        Message::Told { notice, .. } => format!(in alloc; "told {notice:?}")?,
    };
    let written = written_text(alloc, message, &write_message(message))?;
    Ok(format!(in alloc; "{said}, {written}")?)
}

fn written_text(alloc: Global, message: &Message, frame: &Frame) -> Result<String, NoMemory> {
    let (tci, entity) = match message {
        Message::Asked { tci, entity, .. } => (*tci, *entity),
        Message::Answered { tci, entity, .. } => (*tci, *entity),
        Message::Told { tci, entity, .. } => (*tci, *entity),
    };
    if frame.tci != tci || frame.entity != entity {
        return say(alloc, "another TCI or entity");
    }
    let kind = hex_of(alloc, &[frame.kind])?;
    let contents = short_hex_of(alloc, &frame.contents)?;
    Ok(format!(in alloc; "{kind} {contents}")?)
}

/// Whether a start that asks for windows of so many sections, and one that grants them, can be
/// written.
pub(crate) fn windows(alloc: Global, window: u16) -> Result<String, NoMemory> {
    let asked = has_valid_window(&Message::Asked {
        tci: 1,
        entity: SLOT,
        request: Request::Start {
            window,
            size: 0,
            targets: 0,
            target: 0,
        },
    });
    let granted = has_valid_window(&Message::Answered {
        tci: 1,
        entity: SLOT,
        response: Response::Start {
            code: Code::SUCCESS,
            window,
        },
    });
    Ok(format!(in alloc; "{asked} {granted}")?)
}

const SLOT: EntityId = EntityId {
    class: 7,
    instance: 1,
};
