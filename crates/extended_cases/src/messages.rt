//! Messages read from extended frames, and extended frames written from messages. The entity of each
//! message is ONU data, and its TCI 1, or 0 in a notice.

use crate::calls::entity_of;
use crate::frames::frame_of;
use crate::words::say;
use case_lines::{NoMemory, array_of, bytes_of, hex_of, short_hex_of, u8_of, u16_of, u32_of};
use extended_frames::{
    LongFault, LongMessage, LongNotice, LongRequest, LongResponse, Pieces, Rows, fits_long_frame,
    has_valid_long_window, read_long, write_long,
};
use omci_core::{Bytes, Code, EntityId};
use std::alloc::Global;

const ONU_DATA: EntityId = EntityId {
    class: 2,
    instance: 0,
};

/// What is read from a frame of this type with these contents: its rows or pieces, `read` for
/// another message, or its fault.
pub(crate) fn message(alloc: Global, kind: u8, contents: &[u8]) -> Result<String, NoMemory> {
    let Some(frame) = frame_of(alloc, 1, kind, ONU_DATA, contents)? else {
        return say(alloc, "not allowed");
    };
    match read_long(alloc, &frame) {
        Ok(LongMessage::Answered { response, .. }) => response_text(alloc, &response),
        Ok(_) => say(alloc, "read"),
        Err(fault) => fault_text(alloc, fault),
    }
}

fn fault_text(alloc: Global, fault: LongFault) -> Result<String, NoMemory> {
    match fault {
        LongFault::UnknownType { number } => Ok(format!(in alloc; "unknown type {number}")?),
        LongFault::Bits { kind } => {
            let kind = hex_of(alloc, &[kind])?;
            Ok(format!(in alloc; "bits {kind}")?)
        }
        LongFault::ContentsShort { have, need } => Ok(format!(in alloc; "short {have} {need}")?),
        LongFault::NoMemory => Err(NoMemory),
    }
}

fn response_text(alloc: Global, response: &LongResponse) -> Result<String, NoMemory> {
    match response {
        LongResponse::AlarmsNext { rows } => rows_text(alloc, rows),
        LongResponse::UploadNext { pieces } => pieces_text(alloc, pieces),
        _ => say(alloc, "read"),
    }
}

fn rows_text(alloc: Global, rows: &Rows) -> Result<String, NoMemory> {
    let mut out = say(alloc, if rows.is_empty() { "no rows" } else { "rows" })?;
    for place in 0..rows.len() {
        let (entity, bitmap) = rows.row(place);
        let class = entity.class;
        let instance = entity.instance;
        let bitmap = short_hex_of(alloc, &bitmap)?;
        write!(out, " {class} {instance} {bitmap}")?;
    }
    Ok(out)
}

fn pieces_text(alloc: Global, pieces: &Pieces) -> Result<String, NoMemory> {
    let mut out = say(
        alloc,
        if pieces.is_empty() {
            "no pieces"
        } else {
            "pieces"
        },
    )?;
    for place in 0..pieces.len() {
        let entity = pieces.entity(place);
        let class = entity.class;
        let instance = entity.instance;
        let mask = hex_of(alloc, &pieces.mask(place).to_be_bytes())?;
        let values = hex_of(alloc, pieces.values(place))?;
        write!(out, " {class} {instance} {mask} {values}")?;
    }
    Ok(out)
}

/// The type byte and the contents of the frame of the message that the words name.
pub(crate) fn written(alloc: Global, words: &[&str]) -> Result<String, NoMemory> {
    match *words {
        ["write", "set", mask, values] => set(alloc, mask, values),
        ["write", "section", number, bytes] => section(alloc, number, bytes),
        ["write", "start", window, size, target] => start(alloc, window, size, target),
        ["write", "got", code, mask, values, unsupported, failed] => {
            got(alloc, code, [mask, unsupported, failed], values)
        }
        ["write", "change", mask, values] => change(alloc, mask, values),
        ["write", "rows"] => rows(alloc, Rows::new(alloc)),
        ["write", "rows", class, instance, bitmap] => row(alloc, class, instance, bitmap),
        ["write", "pieces"] => pieces(alloc, Pieces::new(alloc)),
        ["write", "pieces", class, instance, mask, values] => {
            piece(alloc, class, instance, mask, values)
        }
        _ => say(alloc, "no such message"),
    }
}

/// The type byte and the contents of the message's frame.
fn frame_text(alloc: Global, message: &LongMessage) -> Result<String, NoMemory> {
    if !has_valid_long_window(message) || !fits_long_frame(message) {
        return say(alloc, "not allowed");
    }
    let frame = write_long(alloc, message)?;
    let kind = hex_of(alloc, &[frame.kind()])?;
    let contents = hex_of(alloc, frame.contents())?;
    Ok(format!(in alloc; "{kind} {contents}")?)
}

fn asked(alloc: Global, request: LongRequest) -> Result<String, NoMemory> {
    let message = LongMessage::Asked {
        tci: 1,
        entity: ONU_DATA,
        request,
    };
    frame_text(alloc, &message)
}

fn answered(alloc: Global, response: LongResponse) -> Result<String, NoMemory> {
    let message = LongMessage::Answered {
        tci: 1,
        entity: ONU_DATA,
        response,
    };
    frame_text(alloc, &message)
}

/// Four hexadecimal digits.
fn mask_of(word: &str) -> u16 {
    u16::from_be_bytes(array_of(word))
}

fn values_of(alloc: Global, word: &str) -> Result<Bytes, NoMemory> {
    Bytes::of(alloc, &bytes_of(alloc, word)?)
}

fn set(alloc: Global, mask: &str, values: &str) -> Result<String, NoMemory> {
    let values = values_of(alloc, values)?;
    let mask = mask_of(mask);
    asked(alloc, LongRequest::Set { mask, values })
}

fn section(alloc: Global, number: &str, bytes: &str) -> Result<String, NoMemory> {
    let bytes = values_of(alloc, bytes)?;
    let number = u8_of(number);
    let last = false;
    asked(
        alloc,
        LongRequest::Section {
            number,
            bytes,
            last,
        },
    )
}

fn start(alloc: Global, window: &str, size: &str, target: &str) -> Result<String, NoMemory> {
    asked(
        alloc,
        LongRequest::Start {
            window: u16_of(window),
            size: u32_of(size),
            targets: 1,
            target: u16_of(target),
        },
    )
}

fn got(alloc: Global, code: &str, masks: [&str; 3], values: &str) -> Result<String, NoMemory> {
    let values = values_of(alloc, values)?;
    let [mask, unsupported, failed] = masks;
    answered(
        alloc,
        LongResponse::Get {
            code: Code(u8_of(code)),
            mask: mask_of(mask),
            values,
            unsupported: mask_of(unsupported),
            failed: mask_of(failed),
        },
    )
}

fn change(alloc: Global, mask: &str, values: &str) -> Result<String, NoMemory> {
    let values = values_of(alloc, values)?;
    let mask = mask_of(mask);
    let message = LongMessage::Told {
        tci: 0,
        entity: ONU_DATA,
        notice: LongNotice::Change { mask, values },
    };
    frame_text(alloc, &message)
}

fn rows(alloc: Global, rows: Rows) -> Result<String, NoMemory> {
    answered(alloc, LongResponse::AlarmsNext { rows })
}

fn row(alloc: Global, class: &str, instance: &str, bitmap: &str) -> Result<String, NoMemory> {
    let mut list = Rows::new(alloc);
    list.push(entity_of(class, instance), array_of(bitmap))?;
    rows(alloc, list)
}

fn pieces(alloc: Global, pieces: Pieces) -> Result<String, NoMemory> {
    answered(alloc, LongResponse::UploadNext { pieces })
}

fn piece(
    alloc: Global,
    class: &str,
    instance: &str,
    mask: &str,
    values: &str,
) -> Result<String, NoMemory> {
    let mut list = Pieces::new(alloc);
    let values = bytes_of(alloc, values)?;
    list.push(entity_of(class, instance), mask_of(mask), &values)?;
    pieces(alloc, list)
}
