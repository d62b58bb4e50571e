//! Writing a message as a frame.

ghost use Rattle.std.specs.Prelude.{◌≡◌, ◌≤◌, ◌-◌, ◌∷◌, [], ◌↔◌, IsTrue};
ghost use Rattle.message_spec.specs.Fields.{put_values, padding, put};
ghost use Rattle.message_spec.specs.Types.{layout};
ghost use Rattle.message_spec.specs.Requests.{request_kind, request_values, notice_kind, notice_values};
ghost use Rattle.message_spec.specs.Responses.{response_action, response_values};
ghost use Rattle.message_spec.specs.Reading.{message_kind, plain, RequestWindow, ResponseWindow, HasWindow, IsWindow};
ghost use Rattle.message_spec.specs.declared.Kind.TheVariants as kinds;

use crate::fields::Contents;
use crate::kinds::write_kind;
use message_spec::{Action, Frame, Kind, MAX_WINDOW, Message, Notice, Request, Response};

// Puts the byte of a window, which is one less.
fn with_window(contents: Contents, first: usize, window: u16) -> Contents
    requires { (9 ≤ first) × (first ≤ 40) × (1 ≤ window) × (window ≤ MAX_WINDOW) }
    ensures { result.0 ≡ put (first - 9) ((window - 1) ∷ []) contents.0 }
{
    contents.byte(first, (window - 1) as u8)
}

// The contents of a request.
fn request_contents(request: &Request) -> Contents
    requires { RequestWindow request.now }
    ensures { result.0
        ≡ put_values (layout (request_kind request.now)) (request_values request.now) padding }
{
    let padding = Contents::padding();
    match *request {
        Request::Create { values } => padding.row(9, &values),
        Request::Delete | Request::Upload | Request::Reset | Request::Commit => padding,
        Request::Set { mask, values } => padding.two(9, mask).row(11, &values),
        Request::Get { mask } => padding.two(9, mask),
        Request::Alarms { mode } => padding.byte(9, mode),
        Request::AlarmsNext { number } | Request::UploadNext { number } => padding.two(9, number),
        Request::Start {
            window,
            size,
            targets,
            target,
        } => with_window(padding, 9, window)
            .four(10, size)
            .byte(14, targets)
            .two(15, target),
        Request::Section { number, bytes, .. } => padding.byte(9, number).row(10, &bytes),
        Request::End {
            crc,
            size,
            targets,
            target,
        } => padding
            .four(9, crc)
            .four(13, size)
            .byte(17, targets)
            .two(18, target),
        Request::Activate { flags } | Request::Reboot { flags } => padding.byte(9, flags),
    }
}

// The contents of a response.
fn response_contents(response: &Response) -> Contents
    requires { ResponseWindow response.now }
    ensures { result.0
        ≡ put_values (layout (kinds.Response (response_action response.now)))
        (response_values response.now) padding }
{
    let padding = Contents::padding();
    match *response {
        Response::Create { code, mask } => padding.byte(9, code.0).two(10, mask),
        Response::Set {
            code,
            unsupported,
            failed,
        } => padding.byte(9, code.0).two(10, unsupported).two(12, failed),
        Response::Get {
            code,
            mask,
            values,
            unsupported,
            failed,
        } => padding
            .byte(9, code.0)
            .two(10, mask)
            .row(12, &values)
            .two(37, unsupported)
            .two(39, failed),
        Response::Alarms { count } | Response::Upload { count } => padding.two(9, count),
        Response::AlarmsNext { row } => padding.row(9, &row),
        Response::UploadNext { piece } => padding.row(9, &piece),
        Response::Start { code, window } => with_window(padding.byte(9, code.0), 10, window),
        Response::Section { code, number } => padding.byte(9, code.0).byte(10, number),
        Response::Delete { code }
        | Response::Reset { code }
        | Response::End { code }
        | Response::Activate { code }
        | Response::Commit { code }
        | Response::Reboot { code } => padding.byte(9, code.0),
    }
}

// The contents of a notice.
fn notice_contents(notice: &Notice) -> Contents
    ensures { result.0
        ≡ put_values (layout (notice_kind notice.now)) (notice_values notice.now) padding }
{
    let padding = Contents::padding();
    match *notice {
        Notice::Alarm { bitmap, number } => padding.row(9, &bitmap).byte(40, number),
        Notice::Change { mask, values } => padding.two(9, mask).row(11, &values),
    }
}

// The kind of a request.
fn kind_of_request(request: &Request) -> Kind
    ensures { result ≡ request_kind request.now }
{
    let action = match *request {
        Request::Create { .. } => Action::Create,
        Request::Delete => Action::Delete,
        Request::Set { .. } => Action::Set,
        Request::Get { .. } => Action::Get,
        Request::Alarms { .. } => Action::Alarms,
        Request::AlarmsNext { .. } => Action::AlarmsNext,
        Request::Upload => Action::Upload,
        Request::UploadNext { .. } => Action::UploadNext,
        Request::Reset => Action::Reset,
        Request::Start { .. } => Action::Start,
        Request::Section { last: true, .. } => Action::Section,
        Request::Section { last: false, .. } => return Kind::UnansweredSection,
        Request::End { .. } => Action::End,
        Request::Activate { .. } => Action::Activate,
        Request::Commit => Action::Commit,
        Request::Reboot { .. } => Action::Reboot,
    };
    Kind::Request(action)
}

// The command that a response answers.
fn action_of_response(response: &Response) -> Action
    ensures { result ≡ response_action response.now }
{
    match *response {
        Response::Create { .. } => Action::Create,
        Response::Delete { .. } => Action::Delete,
        Response::Set { .. } => Action::Set,
        Response::Get { .. } => Action::Get,
        Response::Alarms { .. } => Action::Alarms,
        Response::AlarmsNext { .. } => Action::AlarmsNext,
        Response::Upload { .. } => Action::Upload,
        Response::UploadNext { .. } => Action::UploadNext,
        Response::Reset { .. } => Action::Reset,
        Response::Start { .. } => Action::Start,
        Response::Section { .. } => Action::Section,
        Response::End { .. } => Action::End,
        Response::Activate { .. } => Action::Activate,
        Response::Commit { .. } => Action::Commit,
        Response::Reboot { .. } => Action::Reboot,
    }
}

// The kind of a notice.
fn kind_of_notice(notice: &Notice) -> Kind
    ensures { result ≡ notice_kind notice.now }
{
    match *notice {
        Notice::Alarm { .. } => Kind::Alarm,
        Notice::Change { .. } => Kind::Change,
    }
}

// Whether a window is 1 to 256.
fn is_window(window: u16) -> bool
    ensures { IsTrue result ↔ IsWindow window }
{
    (1..=MAX_WINDOW).contains(&window)
}

/// Whether the window of a message is 1 to 256, where the message has one. `write_message` needs
/// it.
pub fn has_valid_window(message: &Message) -> bool
    ensures { IsTrue result ↔ HasWindow message.now }
{
    match message {
        Message::Asked { request, .. } => match request {
            Request::Start { window, .. } => is_window(*window),
            _ => true,
        },
        Message::Answered { response, .. } => match response {
            Response::Start { window, .. } => is_window(*window),
            _ => true,
        },
        Message::Told { .. } => true,
    }
}

/// Writes a message as a frame, with its padding as zeros. A window must be 1 to 256. It takes no
/// memory.
#[tactic(auto, unfolding(message_spec::specs::Reading::plain))]
pub fn write_message(message: &Message) -> Frame
    requires { HasWindow message.now }
    ensures value { result ≡ plain message.now }
{
    let (tci, kind, entity, contents) = match message {
        Message::Asked {
            tci,
            entity,
            request,
        } => {
            (
                *tci,
                kind_of_request(request),
                *entity,
                request_contents(request),
            )
        }
        Message::Answered {
            tci,
            entity,
            response,
        } => {
            let kind = Kind::Response(action_of_response(response));
            (*tci, kind, *entity, response_contents(response))
        }
        Message::Told {
            tci,
            entity,
            notice,
        } => {
            (
                *tci,
                kind_of_notice(notice),
                *entity,
                notice_contents(notice),
            )
        }
    };
    let kind = write_kind(kind);
    let contents = contents.0;
    Frame {
        tci,
        kind,
        entity,
        contents,
    }
}
