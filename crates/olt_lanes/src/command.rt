//! Commands: what the manager asks of an entity, and why.

ghost use Rattle.std.specs.Prelude.{◌≡◌, ◌<◌, ◌++◌, [], ◌∷◌, length, All, Some, slice_get};
ghost use Rattle.std.specs.Prelude.{OnOk, OnErr};
ghost use Rattle.message_spec.specs.Reading.{RequestWindow};
ghost use Rattle.lane_spec.specs.Command.{probe_command, ask, check_command, job_command, is_probe};
ghost use Rattle.lane_spec.specs.Command.{command_frame, is_changing, window_command};
ghost use Rattle.lane_spec.specs.Command.{with_sections, section_packet};
ghost use Rattle.olt_lanes.specs.Sections.{earlier_of, last_of, AreSections, AddsFront};

use crate::{EntityId, Frame, NoMemory, Packets, Purpose, Request, Words};
use class_spec::ONU_DATA;
use omci_contents::{Message, write_message};
use omci_core::front_filled;
use omci_frames::{FRAME_BYTES, encode};
use std::marker::Model;

/// A mask that names attribute 1 alone. Attribute 1 of ONU data is MIB data sync.
const FIRST_ATTRIBUTE: u16 = 0x8000;

/// A request to an entity, and why the manager sends it. A probe is a get of MIB data sync that
/// proves its lane by any answer. A window of a download is one command, of the request of its last
/// section. None of its makers takes memory.
#[derive(Drop)]
pub struct Command {
    purpose: Purpose,
    entity: EntityId,
    request: Request,
    /// All sections of a window.
    sections: Option<Words>,
}

impl Model for Command {
    ghost use Rattle.message_spec.specs.Reading.{RequestWindow};
    ghost use Rattle.lane_spec.specs.Command as lane;
    ghost use Rattle.olt_lanes.specs.Sections.{earlier_of, HasSections};

    ghost Value = { lane.Command };

    ghost view = { λ c. record {
      purpose = c.purpose;
      entity = c.entity;
      request = c.request;
      earlier = earlier_of c.sections;
    } };

    ghost invariant = { λ c. RequestWindow c.request × HasSections c.sections };
}

/// Whether a request changes what the unit holds or runs.
pub fn is_change(request: &Request) -> bool
    ensures value { result ≡ is_changing request.now }
{
    match request {
        Request::Create { .. }
        | Request::Delete
        | Request::Set { .. }
        | Request::Reset
        | Request::Activate { .. }
        | Request::Commit
        | Request::Reboot { .. }
        | Request::Start { .. }
        | Request::End { .. } => true,
        Request::Get { .. }
        | Request::Alarms { .. }
        | Request::AlarmsNext { .. }
        | Request::Upload
        | Request::UploadNext { .. }
        | Request::Section { .. } => false,
    }
}

impl Command {
    /// A probe.
    pub fn probe() -> Command
        ensures value { result ≡ probe_command }
    {
        Command::get_counter(Purpose::Probe)
    }

    /// A get of MIB data sync, for the counter's sake.
    pub fn check() -> Command
        ensures value { result ≡ check_command }
    {
        Command::get_counter(Purpose::Check)
    }

    /// A request to an entity, which a caller submits. The window that a start of a download asks
    /// for must be 1 to 256.
    pub fn ask(entity: EntityId, request: Request) -> Command
        requires { RequestWindow request }
        ensures value { result ≡ ask entity request }
    {
        Command {
            purpose: Purpose::Submission,
            entity,
            request,
            sections: None,
        }
    }

    /// A request to an entity, which the running job sends. The window that a start of a download
    /// asks for must be 1 to 256.
    pub fn job(entity: EntityId, request: Request) -> Command
        requires { RequestWindow request }
        ensures value { result ≡ job_command entity request }
    {
        Command {
            purpose: Purpose::Job,
            entity,
            request,
            sections: None,
        }
    }

    /// A window of a download, which the running job sends: 1 to 256 sections of 31 bytes each, of
    /// which the last asks for a reply.
    pub fn window(entity: EntityId, sections: Words) -> Command
        requires sections { AreSections sections }
        ensures value { result
            ≡ window_command entity (earlier_of (Some sections)) (last_of sections) }
    {
        let number = sections.len() - 1;
        let request = Request::Section {
            number: number as u8,
            bytes: section(&sections, number),
            last: true,
        };
        Command {
            purpose: Purpose::Job,
            entity,
            request,
            sections: Some(sections),
        }
    }

    /// A get of MIB data sync.
    fn get_counter(purpose: Purpose) -> Command
        ensures value { result ≡ record probe_command { purpose = purpose } }
    {
        Command {
            purpose,
            entity: ONU_DATA,
            request: Request::Get {
                mask: FIRST_ATTRIBUTE,
            },
            sections: None,
        }
    }

    /// Why it is sent.
    pub fn purpose(&self) -> Purpose
        ensures value { result ≡ self.now.purpose }
    {
        self.purpose
    }

    /// The entity that it asks.
    pub fn entity(&self) -> EntityId
        ensures value { result ≡ self.now.entity }
    {
        self.entity
    }

    /// What it asks of the entity.
    pub fn request(&self) -> Request
        ensures value { result ≡ self.now.request }
        ensures window { RequestWindow result }
    {
        self.request
    }

    /// Whether it is a probe.
    pub fn is_probe(&self) -> bool
        ensures value { result ≡ is_probe self.now.purpose }
    {
        match self.purpose {
            Purpose::Probe => true,
            Purpose::Submission | Purpose::Check | Purpose::Job => false,
        }
    }

    /// The frame that it sends under this TCI.
    #[tactic(auto, unfolding(lane_spec::specs::Command::command_frame, message_spec::specs::Reading::plain))]
    pub(crate) fn frame(&self, tci: u16) -> Frame
        ensures value { result ≡ command_frame tci self.now }
        ensures tci { result.tci ≡ tci }
    {
        write_message(&Message::Asked {
            tci,
            entity: self.entity,
            request: self.request,
        })
    }

    /// Adds the packets of a window's sections before its last one. `NoMemory` where there is no
    /// room for one of them; those before it have then been added.
    pub(crate) fn earlier_packets(&self, tci: u16, out: &mut Packets) -> Result<(), NoMemory>
        ensures ok { OnOk result
            (out.new ≡ out.old ++ with_sections tci self.now.entity 0 self.now.earlier []) }
        ensures err { OnErr result (AddsFront
            (with_sections tci self.now.entity 0 self.now.earlier []) out.old out.new) }
        ensures whole { OnOk result (All (λ packet. length packet ≡ FRAME_BYTES)
            (with_sections tci self.now.entity 0 self.now.earlier [])) }
    {
        match &self.sections {
            None => Ok(()),
            Some(sections) => put_sections(tci, self.entity, sections, out),
        }
    }
}

/// The section with this number of a window.
fn section(sections: &Words, number: usize) -> [u8; 31]
    requires sections { AreSections sections.now }
    requires number { number < length sections.now }
    ensures value { slice_get sections.now number ≡ Some result }
{
    front_filled(sections.word(number))
}

/// Adds the packet of a section that isn't its window's last.
#[tactic(auto, unfolding(lane_spec::specs::Command::section_packet))]
fn put_section(
    tci: u16,
    entity: EntityId,
    number: u8,
    bytes: [u8; 31],
    out: &mut Packets,
) -> Result<(), NoMemory>
    ensures ok { OnOk result (out.new ≡ out.old ++ section_packet tci entity number bytes ∷ []) }
    ensures err { OnErr result (out.new ≡ out.old) }
    ensures whole { length (section_packet tci entity number bytes) ≡ FRAME_BYTES }
{
    let request = Request::Section {
        number,
        bytes,
        last: false,
    };
    let frame = write_message(&Message::Asked {
        tci,
        entity,
        request,
    });
    let mut packet = [0; FRAME_BYTES];
    encode(&frame, &mut packet);
    out.push_bytes(&packet)
}

/// Adds the packets of the sections before the last one.
fn put_sections(
    tci: u16,
    entity: EntityId,
    sections: &Words,
    out: &mut Packets,
) -> Result<(), NoMemory>
    requires { AreSections sections.now }
    ensures ok { OnOk result (out.new
        ≡ out.old ++ with_sections tci entity 0 (earlier_of (Some sections.now)) []) }
    ensures err { OnErr result (AddsFront
        (with_sections tci entity 0 (earlier_of (Some sections.now)) []) out.old out.new) }
    ensures whole { OnOk result (All (λ packet. length packet ≡ FRAME_BYTES)
        (with_sections tci entity 0 (earlier_of (Some sections.now)) [])) }
{
    for number in 0..sections.len() - 1 {
        put_section(tci, entity, number as u8, section(sections, number), out)?;
    }
    Ok(())
}
