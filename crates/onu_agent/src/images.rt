//! Requests for a software image (ITU-T G.988, annex A, software download), and what they come to
//! beside the store of images.

ghost use Rattle.std.specs.Prelude.{◌≡◌, true};
ghost use Rattle.mib_spec.specs.Database.{slot as shown_in};
ghost use Rattle.message_spec.specs.Reading.{IsWindow, RequestWindow, ResponseWindow};
ghost use Rattle.unit_spec.specs.Images.{code_handled, granted_by, leaving_handled, quiet_did};
ghost use Rattle.unit_spec.specs.Images.{reboot_code};
ghost use Rattle.onu_agent.specs.Images.{slot_of, image_response, sealed_note, success_note};
ghost use Rattle.onu_agent.specs.Images.{image_note};

use image_store::Handled;
use omci_contents::{Request, Response};
use omci_core::{Boot, Code, EntityId, SlotView, Software};
use store_spec::{IMAGES, MOST_GRANTED};
use unit_spec::{Did, Note, ONU_G};

/// The slot that an entity names, where it is a software image.
pub fn slot_of(entity: EntityId) -> u8
    ensures value { result ≡ slot_of entity }
{
    if entity.instance < IMAGES {
        entity.instance as u8
    } else {
        0
    }
}

/// What the software images show of a slot.
fn view_in(software: &Software, slot: u8) -> Option<SlotView>
    ensures value { result ≡ shown_in slot software.now }
{
    if slot == 0 {
        software.first
    } else {
        software.second
    }
}

/// The code that is answered, and success where nothing is.
pub fn code_of(handled: Handled) -> Code
    ensures value { result.0 ≡ code_handled handled }
{
    match handled {
        Handled::Answered { code, .. } => code,
        Handled::Held | Handled::Dropped => Code::SUCCESS,
    }
}

/// The sections of a window that are granted to a start which asked for so many; 1 where it was
/// refused.
fn granted_to(code: Code, asked: u16) -> u16
    requires window { IsWindow asked }
    ensures value { result ≡ granted_by code.0 asked }
    ensures window { IsWindow result }
{
    if code == Code::SUCCESS {
        asked.min(MOST_GRANTED)
    } else {
        1
    }
}

/// The response to a request for an image that was answered by this code.
pub fn image_response(request: &Request, code: Code) -> Response
    requires window { RequestWindow request.now }
    ensures value { result ≡ image_response request.now code.0 }
    ensures window { ResponseWindow result }
{
    match request {
        Request::Start { window, .. } => Response::Start {
            code,
            window: granted_to(code, *window),
        },
        Request::Section { number, .. } => Response::Section {
            code,
            number: *number,
        },
        Request::End { .. } => Response::End { code },
        Request::Activate { .. } => Response::Activate { code },
        Request::Commit => Response::Commit { code },
        Request::Create { .. }
        | Request::Delete
        | Request::Set { .. }
        | Request::Get { .. }
        | Request::Alarms { .. }
        | Request::AlarmsNext { .. }
        | Request::Upload
        | Request::UploadNext { .. }
        | Request::Reset
        | Request::Reboot { .. } => Response::Reboot { code },
    }
}

/// What else is told of a request for the image of this slot that was handled so, with the software
/// as it is now.
pub fn image_note(
    request: &Request,
    handled: Handled,
    slot: u8,
    software: &Software,
) -> Option<Note>
    ensures value { result ≡ image_note request.now handled slot software.now }
{
    match handled {
        Handled::Answered { code, leaves, .. } => {
            if code == Code::SUCCESS {
                success_note(request, leaves, slot, software)
            } else {
                None
            }
        }
        Handled::Held | Handled::Dropped => None,
    }
}

/// The same of a request that was answered by success.
fn success_note(request: &Request, leaves: bool, slot: u8, software: &Software) -> Option<Note>
    ensures value { result ≡ success_note request.now leaves slot software.now }
{
    match request {
        Request::End { .. } => sealed_note(slot, view_in(software, slot)),
        Request::Activate { .. } => {
            if leaves {
                Some(Note::Leaving {
                    boot: Boot::Activated(slot),
                })
            } else {
                None
            }
        }
        Request::Commit => Some(Note::Committed { slot }),
        Request::Start { .. }
        | Request::Section { .. }
        | Request::Create { .. }
        | Request::Delete
        | Request::Set { .. }
        | Request::Get { .. }
        | Request::Alarms { .. }
        | Request::AlarmsNext { .. }
        | Request::Upload
        | Request::UploadNext { .. }
        | Request::Reset
        | Request::Reboot { .. } => None,
    }
}

/// What is told of the slot of a download that has ended, by what is shown of it.
fn sealed_note(slot: u8, view: Option<SlotView>) -> Option<Note>
    ensures value { result ≡ sealed_note slot view }
{
    match view {
        Some(view) => Some(Note::Sealed {
            slot,
            length: view.length,
            crc: view.crc,
        }),
        None => None,
    }
}

/// How a unit starts again, where it leaves, once a request for the image of this slot was handled
/// so.
pub fn leaving_after(handled: Handled, slot: u8, leaving: Option<Boot>) -> Option<Boot>
    ensures value { result ≡ leaving_handled handled slot leaving }
{
    match handled {
        Handled::Answered { leaves, .. } => {
            if leaves {
                Some(Boot::Activated(slot))
            } else {
                leaving
            }
        }
        Handled::Held | Handled::Dropped => leaving,
    }
}

/// What became of a section that isn't its window's last.
pub fn quiet_did(handled: Handled) -> Did
    ensures value { result ≡ quiet_did handled }
{
    match handled {
        Handled::Held => Did::Held,
        Handled::Dropped | Handled::Answered { .. } => Did::Dropped,
    }
}

/// The code by which a reboot is answered: its entity has to be the ONU-G.
#[tactic(auto, unfolding(unit_spec::specs::Images::reboot_code))]
pub fn reboot_code(entity: EntityId) -> Code
    ensures value { result.0 ≡ reboot_code entity }
{
    if entity_classes::class(entity.class).is_none() {
        return Code::UNKNOWN_CLASS;
    }
    if entity.class != ONU_G.class {
        return Code::NOT_SUPPORTED;
    }
    if entity.instance != ONU_G.instance {
        return Code::UNKNOWN_INSTANCE;
    }
    Code::SUCCESS
}
