//! One lane of the manager.

use crate::words::{byte_of, no_such_call, say, truth};
use case_lines::{NoMemory, short_hex_of, u16_of};
use olt_lanes::{Command, EntityId, Frame, Lane, LaneTick, Packets, Priority, Purpose, Request};
use omci_contents::read_message;
use omci_frames::packet_frame;
use std::alloc::Global;

/// A lane.
#[derive(Drop)]
pub(crate) struct OneLane {
    alloc: Global,
    lane: Lane,
}

impl OneLane {
    pub(crate) fn new(alloc: Global) -> OneLane {
        OneLane {
            alloc,
            lane: Lane::new(Priority::Low, 1),
        }
    }

    /// A new lane, whose first command has this number.
    fn start(&mut self, priority: Priority, number: u16) -> Result<String, NoMemory> {
        if number == 0 || number > 32_767 {
            return say(self.alloc, "not allowed");
        }
        self.lane = Lane::new(priority, number);
        say(self.alloc, "")
    }

    /// The TCI under which the command is sent.
    fn send(&mut self, command: Command) -> Result<String, NoMemory> {
        match sent(&mut self.lane, command) {
            Some(tci) => Ok(format!(in self.alloc; "{tci}")?),
            None => say(self.alloc, "outstanding"),
        }
    }

    /// Whether the response of this type, whose contents are zeros, is the outstanding command's.
    fn reply(&mut self, tci: u16, kind: u8, entity: EntityId) -> Result<String, NoMemory> {
        let frame = Frame {
            tci,
            kind,
            entity,
            contents: [0; 32],
        };
        let is_taken = self.lane.reply(&frame);
        truth(self.alloc, is_taken)
    }

    fn tick(&mut self) -> Result<String, NoMemory> {
        match self.lane.tick() {
            LaneTick::Quiet => say(self.alloc, "quiet"),
            LaneTick::Repeat => say(self.alloc, "repeat"),
            LaneTick::GaveUp { tci } => Ok(format!(in self.alloc; "gave up {tci}")?),
        }
    }

    /// Whether the lane is proved, what is outstanding, and whether that changes the unit.
    fn text(&self) -> Result<String, NoMemory> {
        let proved = if self.lane.unproven() {
            "unproven"
        } else {
            "proved"
        };
        let Some(tci) = self.lane.outstanding() else {
            return say(self.alloc, proved);
        };
        let purpose = purpose_text(&self.lane);
        let changing = if self.lane.is_changing() {
            " changing"
        } else {
            ""
        };
        Ok(format!(in self.alloc; "{proved} {tci} {purpose}{changing}")?)
    }

    /// The packets of the outstanding command, asked for twice: how many there are, and the first
    /// one's frame.
    fn packets(&self) -> Result<String, NoMemory> {
        let mut out = Packets::new(self.alloc);
        self.lane.packets(&mut out)?;
        let count = out.len();
        self.lane.packets(&mut out)?;
        if out.is_empty() {
            return say(self.alloc, "none");
        }
        let is_same = count < out.len() && out.get(0).bytes() == out.get(count).bytes();
        let again = if is_same { "" } else { " but other packets" };
        let frame = frame_text(self.alloc, out.get(0).bytes())?;
        Ok(format!(in self.alloc; "{count}{again} {frame}")?)
    }

    /// The answer to the call that the words name.
    pub(crate) fn answer(&mut self, words: &[&str]) -> Result<String, NoMemory> {
        match *words {
            ["low", number] => self.start(Priority::Low, u16_of(number)),
            ["high", number] => self.start(Priority::High, u16_of(number)),
            ["probe"] => self.send(Command::probe()),
            ["check"] => self.send(Command::check()),
            ["delete", class, instance] => {
                self.send(Command::ask(entity_of(class, instance), Request::Delete))
            }
            ["upload", class, instance] => {
                self.send(Command::job(entity_of(class, instance), Request::Upload))
            }
            ["reply", tci, kind, class, instance] => {
                self.reply(u16_of(tci), byte_of(kind), entity_of(class, instance))
            }
            ["tick"] => self.tick(),
            ["state"] => self.text(),
            ["packets"] => self.packets(),
            _ => no_such_call(self.alloc),
        }
    }
}

fn entity_of(class: &str, instance: &str) -> EntityId {
    EntityId {
        class: u16_of(class),
        instance: u16_of(instance),
    }
}

/// Sends a command, where nothing is outstanding.
fn sent(lane: &mut Lane, command: Command) -> Option<u16> {
    match lane.outstanding() {
        None => Some(lane.send(command)),
        Some(_tci) => None,
    }
}

/// Why the outstanding command was sent.
fn purpose_text(lane: &Lane) -> &'static str {
    match lane.command() {
        None => "none",
        Some(command) => match command.purpose() {
            Purpose::Probe => "probe",
            Purpose::Submission => "submission",
            Purpose::Check => "check",
            Purpose::Job => "job",
        },
    }
}

/// The TCI, type, entity and contents of a packet that is a message.
fn frame_text(alloc: Global, bytes: &[u8]) -> Result<String, NoMemory> {
    let Some(frame) = packet_frame(bytes) else {
        return say(alloc, "no frame");
    };
    if read_message(&frame).is_err() {
        return say(alloc, "no message");
    }
    let tci = frame.tci;
    let kind = short_hex_of(alloc, &[frame.kind])?;
    let class = frame.entity.class;
    let instance = frame.entity.instance;
    let contents = short_hex_of(alloc, &frame.contents)?;
    Ok(format!(in alloc; "{tci} {kind} {class} {instance} {contents}")?)
}
