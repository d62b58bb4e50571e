//! Writing a message as an extended frame.

ghost use Rattle.std.specs.Prelude.{◌≡◌, ◌++◌, ◌↔◌, [], IsTrue, IfOk, OnOk};
ghost use Rattle.std.specs.List.{flat_map};
ghost use Rattle.std.specs.Int.{w16, to_be_bytes};
ghost use Rattle.message_spec.specs.declared.Kind.TheVariants as kinds;
ghost use Rattle.message_spec.specs.Reading.{IsWindow};
ghost use Rattle.extended_spec.specs.Layouts.{long_layout, long_contents, piece_bytes, row_bytes};
ghost use Rattle.extended_spec.specs.Messages.{long_plain};
ghost use Rattle.extended_contents.specs.Parts.{long_request_kind, long_request_values, long_response_action, long_response_values, long_notice_kind, long_notice_values, parts_in, contents_in, LongRequestWindow, LongResponseWindow, HasLongWindow, FitsFrame};

use crate::fields::{put_byte, put_bytes, put_four, put_two, put_window};
use crate::lists::{PieceEntry, Pieces, RowEntry, Rows};
use crate::long_frame::LongFrame;
use crate::message::{LongMessage, LongNotice, LongRequest, LongResponse};
use message_spec::MAX_WINDOW;
use omci_contents::{Action, Kind, write_kind};
use omci_core::{Bytes, NoMemory};
use omci_types::EntityId;
use std::alloc::Global;

// Appends class and instance.
fn put_entity(out: &mut Vec<u8>, entity: EntityId) -> Result<(), NoMemory>
    ensures put { OnOk result (out.new.items ≡ out.old.items
        ++ (to_be_bytes w16 entity.class ++ to_be_bytes w16 entity.instance)) }
{
    put_two(out, entity.class)?;
    put_two(out, entity.instance)?;
    Ok(())
}

// Appends the width of a piece's values. It has two bytes: in a frame no piece has more values.
fn put_width(out: &mut Vec<u8>, width: usize) -> Result<(), NoMemory>
    ensures put { OnOk result (out.new.items ≡ out.old.items ++ to_be_bytes w16 width) }
{
    put_two(out, (width % 65_536) as u16)
}

// Appends a piece.
#[tactic(auto, unfolding(extended_spec::specs::Layouts::piece_bytes))]
fn put_piece(out: &mut Vec<u8>, piece: &PieceEntry) -> Result<(), NoMemory>
    ensures put { OnOk result (out.new.items ≡ out.old.items ++ piece_bytes piece.now) }
{
    put_width(out, piece.values().len())?;
    put_entity(out, piece.entity())?;
    put_two(out, piece.mask())?;
    put_bytes(out, piece.values())?;
    Ok(())
}

// Appends pieces one after the other.
fn put_pieces(out: &mut Vec<u8>, pieces: &Pieces) -> Result<(), NoMemory>
    ensures put { OnOk result (out.new.items ≡ out.old.items ++ flat_map piece_bytes pieces.now) }
{
    for place in 0..pieces.len() {
        put_piece(out, pieces.piece(place))?;
    }
    Ok(())
}

// Appends a row.
#[tactic(auto, unfolding(extended_spec::specs::Layouts::row_bytes))]
fn put_row(out: &mut Vec<u8>, row: &RowEntry) -> Result<(), NoMemory>
    ensures put { OnOk result (out.new.items ≡ out.old.items ++ row_bytes row.now) }
{
    let (entity, bitmap) = row.both();
    put_entity(out, entity)?;
    put_bytes(out, &bitmap)?;
    Ok(())
}

// Appends rows one after the other.
fn put_rows(out: &mut Vec<u8>, rows: &Rows) -> Result<(), NoMemory>
    ensures put { OnOk result (out.new.items ≡ out.old.items ++ flat_map row_bytes rows.now) }
{
    for place in 0..rows.len() {
        put_row(out, rows.entry(place))?;
    }
    Ok(())
}

// Appends the bytes that take the rest of the contents.
fn put_rest(out: &mut Vec<u8>, bytes: &Bytes) -> Result<(), NoMemory>
    ensures put { OnOk result (out.new.items ≡ out.old.items ++ (bytes.now ++ [])) }
{
    put_bytes(out, bytes.bytes())?;
    Ok(())
}

// Appends the contents of a request.
fn put_request(out: &mut Vec<u8>, request: &LongRequest) -> Result<(), NoMemory>
    requires { LongRequestWindow request.now }
    ensures put { OnOk result (out.new.items ≡ out.old.items
        ++ long_contents (long_layout (long_request_kind request.now))
        (long_request_values request.now)) }
{
    match request {
        LongRequest::Create { values } => put_rest(out, values),
        LongRequest::Delete | LongRequest::Upload | LongRequest::Reset | LongRequest::Commit => {
            Ok(())
        }
        LongRequest::Set { mask, values } => {
            put_two(out, *mask)?;
            put_rest(out, values)?;
            Ok(())
        }
        LongRequest::Get { mask } => put_two(out, *mask),
        LongRequest::Alarms { mode } => put_byte(out, *mode),
        LongRequest::AlarmsNext { number } | LongRequest::UploadNext { number } => {
            put_two(out, *number)
        }
        LongRequest::Start {
            window,
            size,
            targets,
            target,
        } => {
            put_window(out, *window)?;
            put_four(out, *size)?;
            put_byte(out, *targets)?;
            put_two(out, *target)?;
            Ok(())
        }
        LongRequest::Section { number, bytes, .. } => {
            put_byte(out, *number)?;
            put_rest(out, bytes)?;
            Ok(())
        }
        LongRequest::End {
            crc,
            size,
            targets,
            target,
        } => {
            put_four(out, *crc)?;
            put_four(out, *size)?;
            put_byte(out, *targets)?;
            put_two(out, *target)?;
            Ok(())
        }
        LongRequest::Activate { flags } | LongRequest::Reboot { flags } => put_byte(out, *flags),
    }
}

// Appends the contents of a response.
fn put_response(out: &mut Vec<u8>, response: &LongResponse) -> Result<(), NoMemory>
    requires { LongResponseWindow response.now }
    ensures put { OnOk result (out.new.items ≡ out.old.items
        ++ long_contents (long_layout (kinds.Response (long_response_action response.now)))
        (long_response_values response.now)) }
{
    match response {
        LongResponse::Create { code, mask } => {
            put_byte(out, code.0)?;
            put_two(out, *mask)?;
            Ok(())
        }
        LongResponse::Set {
            code,
            unsupported,
            failed,
        } => {
            put_byte(out, code.0)?;
            put_two(out, *unsupported)?;
            put_two(out, *failed)?;
            Ok(())
        }
        LongResponse::Get {
            code,
            mask,
            values,
            unsupported,
            failed,
        } => {
            put_byte(out, code.0)?;
            put_two(out, *mask)?;
            put_two(out, *unsupported)?;
            put_two(out, *failed)?;
            put_rest(out, values)?;
            Ok(())
        }
        LongResponse::Alarms { count } | LongResponse::Upload { count } => put_two(out, *count),
        LongResponse::AlarmsNext { rows } => put_rows(out, rows),
        LongResponse::UploadNext { pieces } => put_pieces(out, pieces),
        LongResponse::Start { code, window } => {
            put_byte(out, code.0)?;
            put_window(out, *window)?;
            Ok(())
        }
        LongResponse::Section { code, number } => {
            put_byte(out, code.0)?;
            put_byte(out, *number)?;
            Ok(())
        }
        LongResponse::Delete { code }
        | LongResponse::Reset { code }
        | LongResponse::End { code }
        | LongResponse::Activate { code }
        | LongResponse::Commit { code }
        | LongResponse::Reboot { code } => put_byte(out, code.0),
    }
}

// Appends the contents of a notice.
fn put_notice(out: &mut Vec<u8>, notice: &LongNotice) -> Result<(), NoMemory>
    ensures put { OnOk result (out.new.items ≡ out.old.items
        ++ long_contents (long_layout (long_notice_kind notice.now))
        (long_notice_values notice.now)) }
{
    match notice {
        LongNotice::Alarm { bitmap, number } => {
            put_bytes(out, bitmap)?;
            put_byte(out, *number)?;
            Ok(())
        }
        LongNotice::Change { mask, values } => {
            put_two(out, *mask)?;
            put_rest(out, values)?;
            Ok(())
        }
    }
}

// Appends the contents of a message.
fn put_contents(out: &mut Vec<u8>, message: &LongMessage) -> Result<(), NoMemory>
    requires { HasLongWindow message.now }
    ensures put { OnOk result (out.new.items ≡ out.old.items ++ contents_in message.now) }
{
    match message {
        LongMessage::Asked { request, .. } => put_request(out, request),
        LongMessage::Answered { response, .. } => put_response(out, response),
        LongMessage::Told { notice, .. } => put_notice(out, notice),
    }
}

// The kind of a request.
fn kind_of_request(request: &LongRequest) -> Kind
    ensures value { result ≡ long_request_kind request.now }
{
    let action = match request {
        LongRequest::Create { .. } => Action::Create,
        LongRequest::Delete => Action::Delete,
        LongRequest::Set { .. } => Action::Set,
        LongRequest::Get { .. } => Action::Get,
        LongRequest::Alarms { .. } => Action::Alarms,
        LongRequest::AlarmsNext { .. } => Action::AlarmsNext,
        LongRequest::Upload => Action::Upload,
        LongRequest::UploadNext { .. } => Action::UploadNext,
        LongRequest::Reset => Action::Reset,
        LongRequest::Start { .. } => Action::Start,
        LongRequest::Section { last: true, .. } => Action::Section,
        LongRequest::Section { last: false, .. } => return Kind::UnansweredSection,
        LongRequest::End { .. } => Action::End,
        LongRequest::Activate { .. } => Action::Activate,
        LongRequest::Commit => Action::Commit,
        LongRequest::Reboot { .. } => Action::Reboot,
    };
    Kind::Request(action)
}

// The command that a response answers.
fn action_of_response(response: &LongResponse) -> Action
    ensures value { result ≡ long_response_action response.now }
{
    match response {
        LongResponse::Create { .. } => Action::Create,
        LongResponse::Delete { .. } => Action::Delete,
        LongResponse::Set { .. } => Action::Set,
        LongResponse::Get { .. } => Action::Get,
        LongResponse::Alarms { .. } => Action::Alarms,
        LongResponse::AlarmsNext { .. } => Action::AlarmsNext,
        LongResponse::Upload { .. } => Action::Upload,
        LongResponse::UploadNext { .. } => Action::UploadNext,
        LongResponse::Reset { .. } => Action::Reset,
        LongResponse::Start { .. } => Action::Start,
        LongResponse::Section { .. } => Action::Section,
        LongResponse::End { .. } => Action::End,
        LongResponse::Activate { .. } => Action::Activate,
        LongResponse::Commit { .. } => Action::Commit,
        LongResponse::Reboot { .. } => Action::Reboot,
    }
}

// The kind of a message.
fn kind_of_message(message: &LongMessage) -> Kind
    ensures value { result ≡ (parts_in message.now).kind }
{
    match message {
        LongMessage::Asked { request, .. } => kind_of_request(request),
        LongMessage::Answered { response, .. } => Kind::Response(action_of_response(response)),
        LongMessage::Told { notice, .. } => match notice {
            LongNotice::Alarm { .. } => Kind::Alarm,
            LongNotice::Change { .. } => Kind::Change,
        },
    }
}

// The TCI and the entity of a message.
fn names_of_message(message: &LongMessage) -> (u16, EntityId)
    ensures tci { result.0 ≡ (parts_in message.now).tci }
    ensures entity { result.1 ≡ (parts_in message.now).entity }
{
    match message {
        LongMessage::Asked { tci, entity, .. }
        | LongMessage::Answered { tci, entity, .. }
        | LongMessage::Told { tci, entity, .. } => (*tci, *entity),
    }
}

// Whether a window is 1 to 256.
fn is_window(window: u16) -> bool
    ensures value { IsTrue result ↔ IsWindow window }
{
    (1..=MAX_WINDOW).contains(&window)
}

/// Whether the window of a message is 1 to 256, where the message has one. [`write_long`] needs it.
pub fn has_valid_long_window(message: &LongMessage) -> bool
    ensures value { IsTrue result ↔ HasLongWindow message.now }
{
    match message {
        LongMessage::Asked { request, .. } => match request {
            LongRequest::Start { window, .. } => is_window(*window),
            _ => true,
        },
        LongMessage::Answered { response, .. } => match response {
            LongResponse::Start { window, .. } => is_window(*window),
            _ => true,
        },
        LongMessage::Told { .. } => true,
    }
}

/// Writes a message as an extended frame. A window must be 1 to 256, and the contents must have at
/// most 1,966 bytes.
///
/// `NoMemory` where there is no room for the contents.
#[tactic(auto, unfolding(extended_spec::specs::Messages::long_plain))]
pub fn write_long(alloc: Global, message: &LongMessage) -> Result<LongFrame, NoMemory>
    requires window { HasLongWindow message.now }
    requires few { FitsFrame message.now }
    ensures value { IfOk result (λ frame. frame ≡ long_plain (parts_in message.now)) }
{
    let mut contents = Vec::new(alloc);
    put_contents(&mut contents, message)?;
    let (tci, entity) = names_of_message(message);
    let kind = write_kind(kind_of_message(message));
    let frame = LongFrame::from_vec(tci, kind, entity, contents);
    Ok(frame)
}
