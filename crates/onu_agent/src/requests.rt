//! What kind of request a message is, and the frames of responses.

ghost use Rattle.std.specs.Prelude.{◌≡◌};
ghost use Rattle.message_spec.specs.Reading.{ResponseWindow};
ghost use Rattle.unit_spec.specs.Onu.{response_frame, refusal_frame, asks_nothing};
ghost use Rattle.unit_spec.specs.Onu.{has_request_bits};

use message_spec::{AK, AR, TYPE_BITS};
use omci_contents::{Message, Request, Response, write_message};
use omci_core::Code;
use omci_frames::Frame;

/// What stands above the message type in a type byte counts from here.
const FLAGS: u8 = TYPE_BITS + 1;

/// Whether the request is a section that isn't its window's last, which asks for no reply.
pub fn is_quiet(request: &Request) -> bool
    ensures value { result ≡ asks_nothing request.now }
{
    matches!(request, Request::Section { last: false, .. })
}

/// Whether a type byte is that of a request.
pub fn is_request(kind: u8) -> bool
    ensures value { result ≡ has_request_bits kind }
{
    kind / FLAGS == AR / FLAGS
}

/// The response to a request of a type that the unit doesn't carry out.
pub fn refusal_of(frame: &Frame) -> Frame
    ensures value { result ≡ refusal_frame frame.now }
{
    let mut contents = [0; 32];
    contents[0] = Code::NOT_SUPPORTED.0;
    Frame {
        kind: frame.kind.saturating_sub(AR - AK),
        contents,
        ..*frame
    }
}

/// The frame of a response to a request.
pub fn response_to(frame: &Frame, response: Response) -> Frame
    requires window { ResponseWindow response }
    ensures value { result ≡ response_frame frame.now response }
{
    write_message(&Message::Answered {
        tci: frame.tci,
        entity: frame.entity,
        response,
    })
}
