//! Whether the contents of a message have room in a frame.

ghost use Rattle.std.specs.Prelude.{◌≡◌, ◌+◌, ◌≤◌, ◌↔◌, length, IsTrue};
ghost use Rattle.std.specs.List.{flat_map};
ghost use Rattle.message_spec.specs.declared.Kind.TheVariants as kinds;
ghost use Rattle.extended_spec.specs.Layouts.{long_layout, long_contents, piece_bytes, row_bytes};
ghost use Rattle.extended_contents.specs.Parts.{long_request_kind, long_request_values, long_response_action, long_response_values, long_notice_kind, long_notice_values, FitsFrame};

use crate::lists::{Pieces, Rows};
use crate::message::{LongMessage, LongNotice, LongRequest, LongResponse};
use extended_spec::{BITMAP_BYTES, MAX_LONG_CONTENTS, PIECE_HEADER_BYTES};
use omci_core::Bytes;

// Whether so many bytes, and others before them, have room in a frame.
fn fits_after(width: usize, bytes: &Bytes) -> bool
    requires { width ≤ MAX_LONG_CONTENTS }
    ensures value { IsTrue result ↔ (width + length bytes.now ≤ MAX_LONG_CONTENTS) }
{
    bytes.len() <= MAX_LONG_CONTENTS - width
}

// Whether pieces have room in a frame.
fn pieces_fit(pieces: &Pieces) -> bool
    ensures value { IsTrue result ↔ (length (flat_map piece_bytes pieces.now) ≤ MAX_LONG_CONTENTS) }
{
    let mut room = MAX_LONG_CONTENTS;
    for place in 0..pieces.len() {
        let size = PIECE_HEADER_BYTES + pieces.piece(place).values().len();
        if size > room {
            return false;
        }
        room -= size;
    }
    true
}

// Whether rows have room in a frame.
fn rows_fit(rows: &Rows) -> bool
    ensures value { IsTrue result ↔ (length (flat_map row_bytes rows.now) ≤ MAX_LONG_CONTENTS) }
{
    let mut room = MAX_LONG_CONTENTS;
    for place in 0..rows.len() {
        let (_, bitmap) = rows.entry(place).both();
        let size = 4 + bitmap.len();
        if size > room {
            return false;
        }
        room -= size;
    }
    true
}

// Whether the contents of a request have room in a frame.
fn request_fits(request: &LongRequest) -> bool
    ensures value { IsTrue result ↔ (length (long_contents
        (long_layout (long_request_kind request.now)) (long_request_values request.now))
        ≤ MAX_LONG_CONTENTS) }
{
    match request {
        LongRequest::Create { values } => fits_after(0, values),
        LongRequest::Set { values, .. } => fits_after(2, values),
        LongRequest::Section { bytes, .. } => fits_after(1, bytes),
        LongRequest::Delete
        | LongRequest::Get { .. }
        | LongRequest::Alarms { .. }
        | LongRequest::AlarmsNext { .. }
        | LongRequest::Upload
        | LongRequest::UploadNext { .. }
        | LongRequest::Reset
        | LongRequest::Start { .. }
        | LongRequest::End { .. }
        | LongRequest::Activate { .. }
        | LongRequest::Commit
        | LongRequest::Reboot { .. } => true,
    }
}

// Whether the contents of a response have room in a frame.
fn response_fits(response: &LongResponse) -> bool
    ensures value { IsTrue result ↔ (length (long_contents
        (long_layout (kinds.Response (long_response_action response.now)))
        (long_response_values response.now)) ≤ MAX_LONG_CONTENTS) }
{
    match response {
        LongResponse::Get { values, .. } => fits_after(1 + 2 + 2 + 2, values),
        LongResponse::AlarmsNext { rows } => rows_fit(rows),
        LongResponse::UploadNext { pieces } => pieces_fit(pieces),
        LongResponse::Create { .. }
        | LongResponse::Delete { .. }
        | LongResponse::Set { .. }
        | LongResponse::Alarms { .. }
        | LongResponse::Upload { .. }
        | LongResponse::Reset { .. }
        | LongResponse::Start { .. }
        | LongResponse::Section { .. }
        | LongResponse::End { .. }
        | LongResponse::Activate { .. }
        | LongResponse::Commit { .. }
        | LongResponse::Reboot { .. } => true,
    }
}

// The bytes of a bitmap.
fn bitmap_len(bitmap: &[u8; BITMAP_BYTES]) -> usize
    ensures value { result ≡ length bitmap.now }
    ensures width { result ≡ BITMAP_BYTES }
{
    bitmap.len()
}

// Whether the contents of a notice have room in a frame.
fn notice_fits(notice: &LongNotice) -> bool
    ensures value { IsTrue result ↔ (length (long_contents
        (long_layout (long_notice_kind notice.now)) (long_notice_values notice.now))
        ≤ MAX_LONG_CONTENTS) }
{
    match notice {
        LongNotice::Alarm { bitmap, .. } => bitmap_len(bitmap) < MAX_LONG_CONTENTS,
        LongNotice::Change { values, .. } => fits_after(2, values),
    }
}

/// Whether the contents of a message have room in a frame: at most 1,966 bytes.
/// [`write_long`](crate::write_long) needs it.
pub fn fits_long_frame(message: &LongMessage) -> bool
    ensures value { IsTrue result ↔ FitsFrame message.now }
{
    match message {
        LongMessage::Asked { request, .. } => request_fits(request),
        LongMessage::Answered { response, .. } => response_fits(response),
        LongMessage::Told { notice, .. } => notice_fits(notice),
    }
}
