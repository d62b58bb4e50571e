//! Reading an extended frame as a message.

ghost use Rattle.std.specs.Prelude.{◌≡◌, ◌<◌, ◌≤◌, ◌+◌, ◌++◌, ◌∷◌, ◌⊎◌, [], length, drop, slice_index, None, Ok, Err, IsOk, IfOk, OnOk, MatchResult};
ghost use Rattle.frame_spec.specs.Baseline.{number_at as spec_number_at};
ghost use Rattle.message_spec.specs.declared.Kind.TheVariants as kinds;
ghost use Rattle.message_spec.specs.Requests.{section_kind};
ghost use Rattle.extended_spec.specs.Frames.{Long};
ghost use Rattle.extended_spec.specs.Layouts.{long_layout, fixed_width, list_need, long_values, piece_size, piece_of, row_of, pieces_in, rows_in, need_after, row_size};
ghost use Rattle.extended_spec.specs.Messages.{parts_of};
ghost use Rattle.message_spec.specs.Types.{kind_of};
ghost use Rattle.extended_contents.specs.Parts.{long_kind, long_request_kind, long_request_values, long_response_action, long_response_values, long_notice_kind, long_notice_values, parts_in};

use crate::fields::FieldBytes;
use crate::lists::{Pieces, Rows};
use crate::long_frame::LongFrame;
use crate::message::{LongMessage, LongNotice, LongRequest, LongResponse};
use crate::needs::{bytes_from, need};
use extended_spec::{BITMAP_BYTES, LongFault, PIECE_HEADER_BYTES, ROW_BYTES};
use omci_contents::{Action, ContentsFault, Kind, read_kind};
use omci_core::NoMemory;
use omci_frames::number_at;
use omci_types::{Code, EntityId};
use std::alloc::Global;

// Reads the piece that the bytes begin with, and answers how many bytes it has.
#[tactic(auto, unfolding(extended_spec::specs::Layouts::piece_of))]
fn read_piece(pieces: &mut Pieces, bytes: &[u8]) -> Result<usize, NoMemory>
    requires header { PIECE_HEADER_BYTES ≤ length bytes.now }
    requires whole { PIECE_HEADER_BYTES + spec_number_at 0 bytes.now ≤ length bytes.now }
    ensures read { OnOk result (pieces.new ≡ pieces.old ++ piece_of bytes.now ∷ []) }
    ensures size { IfOk result (λ size. size ≡ PIECE_HEADER_BYTES + spec_number_at 0 bytes.now) }
{
    let end = PIECE_HEADER_BYTES + usize::from(number_at(bytes, 0));
    let entity = EntityId {
        class: number_at(bytes, 2),
        instance: number_at(bytes, 4),
    };
    let values = &bytes[PIECE_HEADER_BYTES..end];
    pieces.push(entity, number_at(bytes, 6), values)?;
    Ok(end)
}

// The pieces that stand one after the other in some contents.
fn read_pieces(alloc: Global, contents: &[u8]) -> Result<Pieces, NoMemory>
    requires { need_after piece_size 0 0 contents.now ≡ None }
    ensures value { IfOk result (λ pieces. pieces ≡ pieces_in contents.now) }
{
    let mut pieces = Pieces::new(alloc);
    let mut place = 0;
    while place < contents.len() {
        place += read_piece(&mut pieces, bytes_from(contents, place))?;
    }
    Ok(pieces)
}

// Reads the row that the bytes begin with.
#[tactic(auto, unfolding(extended_spec::specs::Layouts::row_of))]
fn read_row(rows: &mut Rows, bytes: &[u8]) -> Result<(), NoMemory>
    requires { ROW_BYTES ≤ length bytes.now }
    ensures read { OnOk result (rows.new ≡ rows.old ++ row_of bytes.now ∷ []) }
{
    let entity = EntityId {
        class: number_at(bytes, 0),
        instance: number_at(bytes, 2),
    };
    let mut bitmap = [0; BITMAP_BYTES];
    bitmap.copy_from_slice(&bytes[4..ROW_BYTES]);
    rows.push(entity, bitmap)
}

// The rows that stand one after the other in some contents.
fn read_rows(alloc: Global, contents: &[u8]) -> Result<Rows, NoMemory>
    requires { need_after row_size 0 0 contents.now ≡ None }
    ensures value { IfOk result (λ rows. rows ≡ rows_in contents.now) }
{
    let mut rows = Rows::new(alloc);
    let mut place = 0;
    while place < contents.len() {
        read_row(&mut rows, bytes_from(contents, place))?;
        place += ROW_BYTES;
    }
    Ok(rows)
}

// The section of some contents.
fn read_section(alloc: Global, contents: &[u8], last: bool) -> Result<LongRequest, NoMemory>
    requires { 1 ≤ length contents.now }
    ensures kind { IfOk result (λ request. long_request_kind request ≡ section_kind last) }
    ensures values { IfOk result (λ request. long_request_values request
        ≡ long_values (long_layout kinds.UnansweredSection) contents.now) }
{
    let mut fields = FieldBytes::of(contents);
    Ok(LongRequest::Section {
        number: fields.byte(),
        bytes: fields.rest(alloc)?,
        last,
    })
}

// The request of some contents with AR.
fn read_request(alloc: Global, action: Action, contents: &[u8]) -> Result<LongRequest, NoMemory>
    requires { fixed_width (long_layout (kinds.Request action)) ≤ length contents.now }
    ensures kind { IfOk result (λ request. long_request_kind request ≡ kinds.Request action) }
    ensures values { IfOk result (λ request. long_request_values request
        ≡ long_values (long_layout (kinds.Request action)) contents.now) }
{
    let mut fields = FieldBytes::of(contents);
    match action {
        Action::Create => Ok(LongRequest::Create {
            values: fields.rest(alloc)?,
        }),
        Action::Delete => Ok(LongRequest::Delete),
        Action::Set => Ok(LongRequest::Set {
            mask: fields.two(),
            values: fields.rest(alloc)?,
        }),
        Action::Get => Ok(LongRequest::Get { mask: fields.two() }),
        Action::Alarms => Ok(LongRequest::Alarms {
            mode: fields.byte(),
        }),
        Action::AlarmsNext => Ok(LongRequest::AlarmsNext {
            number: fields.two(),
        }),
        Action::Upload => Ok(LongRequest::Upload),
        Action::UploadNext => Ok(LongRequest::UploadNext {
            number: fields.two(),
        }),
        Action::Reset => Ok(LongRequest::Reset),
        Action::Start => Ok(LongRequest::Start {
            window: fields.window(),
            size: fields.four(),
            targets: fields.byte(),
            target: fields.two(),
        }),
        Action::Section => read_section(alloc, contents, true),
        Action::End => Ok(LongRequest::End {
            crc: fields.four(),
            size: fields.four(),
            targets: fields.byte(),
            target: fields.two(),
        }),
        Action::Activate => Ok(LongRequest::Activate {
            flags: fields.byte(),
        }),
        Action::Commit => Ok(LongRequest::Commit),
        Action::Reboot => Ok(LongRequest::Reboot {
            flags: fields.byte(),
        }),
    }
}

// A result code.
fn read_code(fields: &mut FieldBytes) -> Code
    requires { 1 ≤ length fields.old }
    ensures value { result.0 ≡ slice_index fields.old 0 }
    ensures after { fields.new ≡ drop 1 fields.old }
    ensures left { length fields.new + 1 ≡ length fields.old }
{
    Code(fields.byte())
}

// The response of some contents, in which no list is cut.
fn read_response(alloc: Global, action: Action, contents: &[u8]) -> Result<LongResponse, NoMemory>
    requires width { fixed_width (long_layout (kinds.Response action)) ≤ length contents.now }
    requires list { list_need (long_layout (kinds.Response action)) 0 contents.now ≡ None }
    ensures action { IfOk result (λ response. long_response_action response ≡ action) }
    ensures values { IfOk result (λ response. long_response_values response
        ≡ long_values (long_layout (kinds.Response action)) contents.now) }
{
    let mut fields = FieldBytes::of(contents);
    match action {
        Action::Create => Ok(LongResponse::Create {
            code: read_code(&mut fields),
            mask: fields.two(),
        }),
        Action::Delete => Ok(LongResponse::Delete {
            code: read_code(&mut fields),
        }),
        Action::Set => Ok(LongResponse::Set {
            code: read_code(&mut fields),
            unsupported: fields.two(),
            failed: fields.two(),
        }),
        Action::Get => Ok(LongResponse::Get {
            code: read_code(&mut fields),
            mask: fields.two(),
            unsupported: fields.two(),
            failed: fields.two(),
            values: fields.rest(alloc)?,
        }),
        Action::Alarms => Ok(LongResponse::Alarms {
            count: fields.two(),
        }),
        Action::AlarmsNext => Ok(LongResponse::AlarmsNext {
            rows: read_rows(alloc, contents)?,
        }),
        Action::Upload => Ok(LongResponse::Upload {
            count: fields.two(),
        }),
        Action::UploadNext => Ok(LongResponse::UploadNext {
            pieces: read_pieces(alloc, contents)?,
        }),
        Action::Reset => Ok(LongResponse::Reset {
            code: read_code(&mut fields),
        }),
        Action::Start => Ok(LongResponse::Start {
            code: read_code(&mut fields),
            window: fields.window(),
        }),
        Action::Section => Ok(LongResponse::Section {
            code: read_code(&mut fields),
            number: fields.byte(),
        }),
        Action::End => Ok(LongResponse::End {
            code: read_code(&mut fields),
        }),
        Action::Activate => Ok(LongResponse::Activate {
            code: read_code(&mut fields),
        }),
        Action::Commit => Ok(LongResponse::Commit {
            code: read_code(&mut fields),
        }),
        Action::Reboot => Ok(LongResponse::Reboot {
            code: read_code(&mut fields),
        }),
    }
}

// The alarm notice of some contents.
fn read_alarm(contents: &[u8]) -> LongNotice
    requires { 29 ≤ length contents.now }
    ensures kind { long_notice_kind result ≡ kinds.Alarm }
    ensures values { long_notice_values result
        ≡ long_values (long_layout kinds.Alarm) contents.now }
{
    let mut fields = FieldBytes::of(contents);
    LongNotice::Alarm {
        bitmap: fields.row(),
        number: fields.byte(),
    }
}

// The notice of changed values of some contents.
fn read_change(alloc: Global, contents: &[u8]) -> Result<LongNotice, NoMemory>
    requires { 2 ≤ length contents.now }
    ensures kind { IfOk result (λ notice. long_notice_kind notice ≡ kinds.Change) }
    ensures values { IfOk result (λ notice. long_notice_values notice
        ≡ long_values (long_layout kinds.Change) contents.now) }
{
    let mut fields = FieldBytes::of(contents);
    Ok(LongNotice::Change {
        mask: fields.two(),
        values: fields.rest(alloc)?,
    })
}

// The message of a kind with the contents of a frame, which are whole.
fn message_of_kind(alloc: Global, kind: Kind, frame: &LongFrame) -> Result<LongMessage, NoMemory>
    requires width { fixed_width (long_layout kind) ≤ length frame.now.contents }
    requires list { list_need (long_layout kind) 0 frame.now.contents ≡ None }
    ensures value { IfOk result (λ message. parts_in message ≡ record {
      tci = frame.now.tci;
      kind = kind;
      entity = frame.now.entity;
      values = long_values (long_layout kind) frame.now.contents;
    }) }
{
    let tci = frame.tci();
    let entity = frame.entity();
    let contents = frame.contents();
    match kind {
        Kind::Request(action) => Ok(LongMessage::Asked {
            tci,
            entity,
            request: read_request(alloc, action, contents)?,
        }),
        Kind::UnansweredSection => Ok(LongMessage::Asked {
            tci,
            entity,
            request: read_section(alloc, contents, false)?,
        }),
        Kind::Response(action) => Ok(LongMessage::Answered {
            tci,
            entity,
            response: read_response(alloc, action, contents)?,
        }),
        Kind::Alarm => Ok(LongMessage::Told {
            tci,
            entity,
            notice: read_alarm(contents),
        }),
        Kind::Change => Ok(LongMessage::Told {
            tci,
            entity,
            notice: read_change(alloc, contents)?,
        }),
    }
}

/// A type byte's kind, or its fault as one of an extended frame.
pub fn kind_at(byte: u8) -> Result<Kind, LongFault>
    ensures value { result ≡ long_kind (kind_of byte) }
{
    match read_kind(byte) {
        Ok(kind) => Ok(kind),
        Err(ContentsFault::UnknownType { number }) => Err(LongFault::UnknownType { number }),
        Err(ContentsFault::Bits { kind }) => Err(LongFault::Bits { kind }),
    }
}

/// Reads an extended frame as a message. Bytes after the last field are not looked at.
///
/// # Errors
///
/// The first of these that holds: [`LongFault::UnknownType`] exactly where the low five bits of the
/// type byte are the number of no message type; [`LongFault::Bits`] exactly where the other three
/// are those of none of its messages; [`LongFault::ContentsShort`] exactly where the contents end
/// before the message's fields do, with the bytes that the fields of fixed width need, or those
/// that a list at the end would need if its last member were whole. [`LongFault::NoMemory`] comes
/// only for a frame that is a message.
#[tactic(auto, unfolding(extended_spec::specs::Messages::parts_of))]
pub fn read_long(alloc: Global, frame: &LongFrame) -> Result<LongMessage, LongFault>
    ensures value { MatchResult result (λ message. parts_of frame.now ≡ Ok (parts_in message))
        (λ fault. (fault ≡ LongFault.NoMemory) ⊎ (parts_of frame.now ≡ Err fault)) }
    ensures memory { result ≡ Err LongFault.NoMemory → IsOk (parts_of frame.now) }
{
    let kind = kind_at(frame.kind())?;
    let contents = frame.contents();
    if let Some(need) = need(kind, contents) {
        let have = contents.len();
        return Err(LongFault::ContentsShort { have, need });
    }
    match message_of_kind(alloc, kind, frame) {
        Ok(message) => Ok(message),
        Err(NoMemory) => Err(LongFault::NoMemory),
    }
}
