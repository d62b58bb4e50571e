//! Reading a frame as a message.

ghost use Rattle.std.specs.Prelude.{◌≡◌, ◌≤◌, ◌+◌, ◌-◌, ◌↔◌, ℕ, slice_index};
ghost use Rattle.message_laws.specs.Faults.{IsUnknownType, HasWrongBits};
ghost use Rattle.message_spec.specs.Fields.{values_at};
ghost use Rattle.message_spec.specs.Types.{layout};
ghost use Rattle.message_spec.specs.Requests.{request_with, section_with, alarm_with, change_with};
ghost use Rattle.message_spec.specs.Responses.{response_with};
ghost use Rattle.message_spec.specs.Reading.{message_of, message_with, Reads};
ghost use Rattle.message_spec.specs.declared.Message.{Message};
ghost use Rattle.message_spec.specs.declared.ContentsFault.TheVariants.{UnknownType, Bits};
ghost use Rattle.message_spec.specs.declared.Kind.TheVariants as kinds;

use crate::fields::{byte_at, four_at, row_at, two_at};
use crate::kinds::read_kind;
use frame_spec::CONTENTS_BYTES;
use message_spec::{Action, Code, ContentsFault, Frame, Kind, Message, Notice, Request, Response};

// The window of a byte, which is one less.
fn window_at(contents: &[u8; CONTENTS_BYTES], first: usize) -> u16
    requires { (9 ≤ first) × (first ≤ 40) }
    ensures { result ≡ slice_index contents.now (first - 9) + 1 }
{
    u16::from(byte_at(contents, first)) + 1
}

// The section of some contents.
fn read_section(contents: &[u8; CONTENTS_BYTES], last: bool) -> Request
    ensures { result ≡ section_with last (values_at (layout kinds.UnansweredSection) contents.now) }
{
    Request::Section {
        number: byte_at(contents, 9),
        bytes: row_at(contents, 10),
        last,
    }
}

// The request of some contents with AR.
fn read_request(action: Action, contents: &[u8; CONTENTS_BYTES]) -> Request
    ensures { result ≡
        request_with action (values_at (layout (kinds.Request action)) contents.now) }
{
    match action {
        Action::Create => Request::Create {
            values: row_at(contents, 9),
        },
        Action::Delete => Request::Delete,
        Action::Set => Request::Set {
            mask: two_at(contents, 9),
            values: row_at(contents, 11),
        },
        Action::Get => Request::Get {
            mask: two_at(contents, 9),
        },
        Action::Alarms => Request::Alarms {
            mode: byte_at(contents, 9),
        },
        Action::AlarmsNext => Request::AlarmsNext {
            number: two_at(contents, 9),
        },
        Action::Upload => Request::Upload,
        Action::UploadNext => Request::UploadNext {
            number: two_at(contents, 9),
        },
        Action::Reset => Request::Reset,
        Action::Start => Request::Start {
            window: window_at(contents, 9),
            size: four_at(contents, 10),
            targets: byte_at(contents, 14),
            target: two_at(contents, 15),
        },
        Action::Section => read_section(contents, true),
        Action::End => Request::End {
            crc: four_at(contents, 9),
            size: four_at(contents, 13),
            targets: byte_at(contents, 17),
            target: two_at(contents, 18),
        },
        Action::Activate => Request::Activate {
            flags: byte_at(contents, 9),
        },
        Action::Commit => Request::Commit,
        Action::Reboot => Request::Reboot {
            flags: byte_at(contents, 9),
        },
    }
}

// The response of some contents.
fn read_response(action: Action, contents: &[u8; CONTENTS_BYTES]) -> Response
    ensures { result ≡ response_with action
        (values_at (layout (kinds.Response action)) contents.now) }
{
    let code = Code(byte_at(contents, 9));
    match action {
        Action::Create => Response::Create {
            code,
            mask: two_at(contents, 10),
        },
        Action::Delete => Response::Delete { code },
        Action::Set => Response::Set {
            code,
            unsupported: two_at(contents, 10),
            failed: two_at(contents, 12),
        },
        Action::Get => Response::Get {
            code,
            mask: two_at(contents, 10),
            values: row_at(contents, 12),
            unsupported: two_at(contents, 37),
            failed: two_at(contents, 39),
        },
        Action::Alarms => Response::Alarms {
            count: two_at(contents, 9),
        },
        Action::AlarmsNext => Response::AlarmsNext {
            row: row_at(contents, 9),
        },
        Action::Upload => Response::Upload {
            count: two_at(contents, 9),
        },
        Action::UploadNext => Response::UploadNext {
            piece: row_at(contents, 9),
        },
        Action::Reset => Response::Reset { code },
        Action::Start => Response::Start {
            code,
            window: window_at(contents, 10),
        },
        Action::Section => Response::Section {
            code,
            number: byte_at(contents, 10),
        },
        Action::End => Response::End { code },
        Action::Activate => Response::Activate { code },
        Action::Commit => Response::Commit { code },
        Action::Reboot => Response::Reboot { code },
    }
}

// The alarm notice of some contents.
fn read_alarm(contents: &[u8; CONTENTS_BYTES]) -> Notice
    ensures { result ≡ alarm_with (values_at (layout kinds.Alarm) contents.now) }
{
    Notice::Alarm {
        bitmap: row_at(contents, 9),
        number: byte_at(contents, 40),
    }
}

// The notice of changed values of some contents.
fn read_change(contents: &[u8; CONTENTS_BYTES]) -> Notice
    ensures { result ≡ change_with (values_at (layout kinds.Change) contents.now) }
{
    Notice::Change {
        mask: two_at(contents, 9),
        values: row_at(contents, 11),
    }
}

// The message of a kind with the contents of a frame.
fn message_of_kind(kind: Kind, frame: &Frame) -> Message
    ensures { result ≡ message_with kind frame.now.tci frame.now.entity
        (values_at (layout kind) frame.now.contents) }
{
    let Frame {
        tci,
        entity,
        contents,
        ..
    } = *frame;
    match kind {
        Kind::Request(action) => Message::Asked {
            tci,
            entity,
            request: read_request(action, &contents),
        },
        Kind::UnansweredSection => Message::Asked {
            tci,
            entity,
            request: read_section(&contents, false),
        },
        Kind::Response(action) => Message::Answered {
            tci,
            entity,
            response: read_response(action, &contents),
        },
        Kind::Alarm => Message::Told {
            tci,
            entity,
            notice: read_alarm(&contents),
        },
        Kind::Change => Message::Told {
            tci,
            entity,
            notice: read_change(&contents),
        },
    }
}

/// Reads a frame as a message. Padding isn't looked at.
///
/// `UnknownType` comes exactly where the low five bits of the type byte are the number of no
/// message type, and `Bits` exactly where they are one's but the other three bits are those of none
/// of its messages: a request has AR alone, a response AK alone, a notice neither, and a section of
/// a software image that asks for no response neither (ITU-T G.988, clause 11.2.2). It takes no
/// memory.
#[tactic(auto, unfolding(message_spec::specs::Reading::message_of))]
pub fn read_message(frame: &Frame) -> Result<Message, ContentsFault>
    ensures value { result ≡ message_of frame.now }
    ensures reads { (m : Message) → ((result ≡ Ok m) ↔ Reads m frame.now) }
    ensures unknown { (number : ℕ) → ((result ≡ Err (UnknownType number))
        ↔ IsUnknownType frame.now number) }
    ensures bits { (byte : ℕ) → ((result ≡ Err (Bits byte)) ↔ HasWrongBits frame.now byte) }
{
    let kind = read_kind(frame.kind)?;
    Ok(message_of_kind(kind, frame))
}
