//! A lane and the command that waits in it.

ghost use Rattle.std.specs.Prelude.{◌≡◌, ◌≤◌, ◌<◌, ◌^◌, ◌++◌, length, not, true, None, option_map};
ghost use Rattle.std.specs.Prelude.{option_copied, All, IfNone, OnOk, OnErr};
ghost use Rattle.tci_spec.specs.Tci.{IsNumber, tci_of};
ghost use Rattle.lane_spec.specs.Command.{answers, command_packets};
ghost use Rattle.lane_spec.specs.Lane.{new_lane, with_command, next_tci, timeout_of, lane_tick};
ghost use Rattle.lane_spec.specs.Lane.{lane_reply, is_changed_by, waiting_packets};
ghost use Rattle.olt_lanes.specs.Sections.{AddsFront};

use crate::command::{Command, is_change};
use crate::{Frame, LaneTick, NoMemory, Packets, Priority};
use lane_spec::{HIGH_TIMEOUT, LOW_TIMEOUT, MOST_REPEATS};
use message_spec::{AK, AR};
use omci_core::next_number;
use omci_frames::{FRAME_BYTES, encode};
use std::marker::Model;
use tci_spec::FIRST_HIGH_TCI;

/// AR in a type byte less AK.
const AR_LESS_AK: u16 = (AR - AK) as u16;

/// A command that waits for its reply.
#[derive(Drop)]
struct Waiting {
    command: Command,
    /// What the command sends each time.
    frame: Frame,
    /// The seconds since it was last sent.
    ticks: u8,
    /// How many times it was sent again.
    repeats: u8,
}

impl Model for Waiting {
    ghost use Rattle.lane_spec.specs.Lane as lane;
    ghost use Rattle.olt_lanes.specs.Waiting.{IsWaiting};

    ghost Value = { lane.Waiting };

    ghost view = { λ w. record {
      tci = w.frame.tci;
      command = w.command;
      ticks = w.ticks;
      repeats = w.repeats;
    } };

    ghost invariant = { λ w. IsWaiting w.command w.frame w.ticks w.repeats };
}

impl Waiting {
    /// A command that is sent now, under this TCI.
    fn start(tci: u16, command: Command) -> Waiting
        ensures value { result ≡ record { tci = tci; command = command; ticks = 0; repeats = 0 } }
    {
        let frame = command.frame(tci);
        Waiting {
            command,
            frame,
            ticks: 0,
            repeats: 0,
        }
    }

    /// Whether the frame answers the command.
    fn is_answer(&self, frame: &Frame) -> bool
        ensures value { result ≡ answers self.now.tci self.now.command frame.now }
    {
        frame.tci == self.frame.tci
            && (self.command.is_probe()
                || (frame.kind as u16 + AR_LESS_AK == self.frame.kind as u16
                    && frame.entity == self.frame.entity))
    }

    /// Adds the packets that the command sends.
    fn packets(&self, out: &mut Packets) -> Result<(), NoMemory>
        ensures ok { OnOk result
            (out.new ≡ out.old ++ command_packets self.now.tci self.now.command) }
        ensures err { OnErr result (AddsFront
            (command_packets self.now.tci self.now.command) out.old out.new) }
        ensures whole { OnOk result (All (λ packet. length packet ≡ FRAME_BYTES)
            (command_packets self.now.tci self.now.command)) }
    {
        self.command.earlier_packets(self.frame.tci, out)?;
        let mut bytes = [0; FRAME_BYTES];
        encode(&self.frame, &mut bytes);
        out.push_bytes(&bytes)?;
        Ok(())
    }
}

/// One lane of the manager. Its priority never changes. At most one command is outstanding.
#[derive(Drop)]
pub struct Lane {
    priority: Priority,
    proved: bool,
    /// The number that the next command draws.
    next: u16,
    outstanding: Option<Waiting>,
}

impl Model for Lane {
    ghost use Rattle.tci_spec.specs.Tci.{IsNumber};
    ghost use Rattle.lane_spec.specs.Lane as lane;

    ghost Value = { lane.Lane };

    ghost view = { λ l. record {
      priority = l.priority;
      proved = l.proved;
      next = l.next;
      outstanding = l.outstanding;
    } };

    ghost invariant = { λ l. IsNumber l.next };
}

/// The TCI of a priority's command with this number.
fn tci_of(priority: Priority, number: u16) -> u16
    requires { IsNumber number }
    ensures value { result ≡ tci_of priority number }
{
    match priority {
        Priority::Low => number,
        Priority::High => number + FIRST_HIGH_TCI,
    }
}

/// The seconds after which a command of the priority is sent again.
fn timeout_of(priority: Priority) -> u8
    ensures value { result ≡ timeout_of priority }
{
    match priority {
        Priority::Low => LOW_TIMEOUT,
        Priority::High => HIGH_TIMEOUT,
    }
}

impl Lane {
    /// A lane that isn't proved and has nothing outstanding. Its next command draws this number,
    /// which is 1 to 32,767.
    pub fn new(priority: Priority, number: u16) -> Lane
        requires { IsNumber number }
        ensures value { result ≡ new_lane priority number }
    {
        Lane {
            priority,
            proved: false,
            next: number,
            outstanding: None,
        }
    }

    /// Whether the lane isn't proved.
    pub fn unproven(&self) -> bool
        ensures value { result ≡ not self.now.proved }
    {
        !self.proved
    }

    /// The TCI of the outstanding command. None exactly where nothing is outstanding.
    pub fn outstanding(&self) -> Option<u16>
        ensures value { result ≡ option_map (λ w. w.tci) self.now.outstanding }
        ensures idle { IfNone result (self.now.outstanding ≡ None) }
    {
        match &self.outstanding {
            None => None,
            Some(waiting) => Some(waiting.frame.tci),
        }
    }

    /// The outstanding command. None exactly where nothing is outstanding.
    pub fn command(&self) -> Option<&Command>
        ensures value { option_copied result ≡ option_map (λ w. w.command) self.now.outstanding }
    {
        match &self.outstanding {
            None => None,
            Some(waiting) => Some(&waiting.command),
        }
    }

    /// Whether the outstanding command changes what the unit holds or runs.
    pub fn is_changing(&self) -> bool
        ensures value { result ≡ is_changed_by self.now.outstanding }
    {
        match &self.outstanding {
            None => false,
            Some(waiting) => is_change(&waiting.command.request()),
        }
    }

    /// Makes the command the outstanding one, and draws its number. Answers its TCI. Nothing may be
    /// outstanding before.
    pub fn send(&mut self, command: Command) -> u16
        requires { self.old.outstanding ≡ None }
        ensures lane { self.new ≡ with_command command self.old }
        ensures tci { result ≡ next_tci self.old }
    {
        let tci = tci_of(self.priority, self.next);
        self.outstanding = Some(Waiting::start(tci, command));
        self.next = next_number(self.next);
        tci
    }

    /// Takes a frame, where it answers the outstanding command. Nothing is outstanding then, and an
    /// answered probe has proved the lane. A frame that isn't taken changes nothing.
    #[tactic(auto, unfolding(lane_spec::specs::Lane::lane_reply))]
    pub fn reply(&mut self, frame: &Frame) -> bool
        ensures lane { self.new ≡ (lane_reply frame.now self.old).lane }
        ensures taken { result ≡ (lane_reply frame.now self.old).taken }
    {
        let Some(waiting) = &self.outstanding else {
            return false;
        };
        if !waiting.is_answer(frame) {
            return false;
        }
        if waiting.command.is_probe() {
            self.proved = true;
        }
        self.outstanding = None;
        true
    }

    /// A second passes. A command whose time is over is to be sent again, or is given up where it
    /// was sent again twice; a lane that gives up is no longer proved.
    #[tactic(auto, unfolding(lane_spec::specs::Lane::lane_tick))]
    pub fn tick(&mut self) -> LaneTick
        ensures lane { self.new ≡ (lane_tick self.old).lane }
        ensures tick { result ≡ (lane_tick self.old).tick }
    {
        let timeout = timeout_of(self.priority);
        let Some(waiting) = &mut self.outstanding else {
            return LaneTick::Quiet;
        };
        if waiting.ticks + 1 < timeout {
            waiting.ticks += 1;
            return LaneTick::Quiet;
        }
        if waiting.repeats < MOST_REPEATS {
            waiting.ticks = 0;
            waiting.repeats += 1;
            return LaneTick::Repeat;
        }
        let tci = waiting.frame.tci;
        self.proved = false;
        self.outstanding = None;
        LaneTick::GaveUp { tci }
    }

    /// Adds the packets that the outstanding command sends each time, all under its TCI; none where
    /// nothing is outstanding. `NoMemory` where there is no room for one of them; those before it
    /// have then been added.
    pub fn packets(&self, out: &mut Packets) -> Result<(), NoMemory>
        ensures ok { OnOk result (out.new ≡ out.old ++ waiting_packets self.now.outstanding) }
        ensures err { OnErr result (AddsFront
            (waiting_packets self.now.outstanding) out.old out.new) }
        ensures whole { OnOk result (All (λ packet. length packet ≡ FRAME_BYTES)
            (waiting_packets self.now.outstanding)) }
    {
        match &self.outstanding {
            None => Ok(()),
            Some(waiting) => waiting.packets(out),
        }
    }
}
