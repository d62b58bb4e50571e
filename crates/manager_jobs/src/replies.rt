//! The response that a frame is, and a reply that frees its lane alone.

ghost use Rattle.std.specs.Prelude.{◌≡◌, OnOk, IfSome};
ghost use Rattle.manager_spec.specs.Steps.{response_of, freed};
ghost use Rattle.manager_jobs.specs.Stages.{GrantsSome};

use crate::olt::Olt;
use manager_spec::Report;
use omci_contents::{Message, Response, read_message};
use omci_core::NoMemory;
use omci_frames::Frame;

/// The response that a frame is, if it is one.
#[tactic(auto, unfolding(manager_spec::specs::Steps::response_of))]
pub fn response_of(frame: &Frame) -> Option<Response>
    ensures value { result ≡ response_of frame.now }
    ensures grants { IfSome result (λ response. GrantsSome response) }
{
    match read_message(frame) {
        Ok(Message::Answered { response, .. }) => Some(response),
        Ok(Message::Asked { .. }) | Ok(Message::Told { .. }) | Err(_) => None,
    }
}

impl Olt {
    /// The reply frees its lane, and that is all.
    pub fn free(&mut self, frame: &Frame) -> Result<(), NoMemory>
        ensures manager { OnOk result (self.new ≡ freed frame.now self.old) }
    {
        self.report(Report::Freed { tci: frame.tci })
    }
}
