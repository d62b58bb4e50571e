//! What carrying a request out came to.

ghost use Rattle.std.specs.Prelude.{◌≡◌, None};

use omci_frames::Frame;
use unit_spec::Note;

/// The response's frame, and what else is told of the request.
#[derive(Clone, Copy)]
pub struct Deed {
    pub reply: Frame,
    pub note: Option<Note>,
}

/// A deed of which nothing else is told.
pub fn plain_deed(reply: Frame) -> Deed
    ensures value { result ≡ record { reply = reply; note = None } }
{
    Deed { reply, note: None }
}
