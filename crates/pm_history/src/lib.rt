//! A unit's interval counters: monitors whose counts are kept by intervals of 900 ticks (ITU-T
//! G.988, clause I.4). Each monitor has two rows of counters, those of the interval that runs and
//! those of the one that is over; no list of events is kept. No call takes memory.
#![tactic(auto)]

ghost use Rattle.std.specs.Prelude.{◌≡◌, [], ◌∷◌, if◌then◌else◌};
ghost use Rattle.meter_spec.specs.declared.Command.TheVariants.{Get, GetCurrent};
ghost use Rattle.meter_spec.specs.Events.{History, Asked, Grown, Ticked};
ghost use Rattle.meter_spec.specs.Meter.{meter_of, answer, counted, with_ticks};
ghost use Rattle.pm_history.specs.Steps.{kept_for, with_reply, created, deleted, timed, changed, carried_out, reply_now, asked, answered, passed, counts_in, counted_in, monitor_at};
ghost use Rattle.meter_spec.specs.Replies.{create_code, delete_code, time_code, contents_of, read_from};

mod monitors;
mod replies;

use crate::monitors::{
    Monitors, fresh, grow, is_monitor, mark_all, monitor_at, put_monitor, synchronize_all,
};
use crate::replies::{asked_mask, code_alone, command_of, read};
use frame_spec::CONTENTS_BYTES;
pub use meter_spec::Counted;
use meter_spec::{ATTRIBUTES, Command, FIRST_COUNTER, INTERVAL_TICKS, MONITORS, REPLY_STEP};
use omci_core::{Priority, priority_of};
use omci_types::Code;
pub use omci_types::{EntityId, Frame};
use std::marker::Model;

/// The interval counters of a unit. [`answer`](Pm::answer), [`count`](Pm::count),
/// [`tick`](Pm::tick) and [`pass`](Pm::pass) change them.
#[derive(Drop)]
pub struct Pm {
    monitors: Monitors,
    ticks: u16,
    low: Option<Frame>,
    high: Option<Frame>,
}

impl Model for Pm {
    ghost use Rattle.std.specs.Prelude.{◌<◌};
    ghost use Rattle.meter_spec.specs.declared.TheConstants.{INTERVAL_TICKS};
    ghost use Rattle.meter_spec.specs.Meter.{Meter};

    ghost Value = { Meter };

    ghost view = { λ p. record {
      monitors = p.monitors;
      ticks = p.ticks;
      low = p.low;
      high = p.high;
    } };

    ghost invariant = { λ p. p.ticks < INTERVAL_TICKS };
}

impl Pm {
    /// No monitor is there, and nothing is kept.
    #[tactic(auto, unfolding(meter_spec::specs::Meter::meter_of, meter_spec::specs::Meter::monitor_of, meter_spec::specs::Meter::kept, meter_spec::specs::Events::is_there, meter_spec::specs::Marks::ticks_since_mark))]
    pub fn new() -> Pm
        ensures start { result ≡ meter_of [] }
    {
        Pm {
            monitors: [None; MONITORS],
            ticks: 0,
            low: None,
            high: None,
        }
    }

    /// The kept reply to a request of that TCI.
    #[tactic(auto, unfolding(crate::specs::Steps::kept_for))]
    fn kept_for(&self, tci: u16) -> Option<Frame>
        ensures { result ≡ kept_for tci self.now }
    {
        let reply = match priority_of(tci) {
            Priority::Low => self.low,
            Priority::High => self.high,
        };
        match reply {
            Some(reply) if reply.tci == tci => Some(reply),
            _ => None,
        }
    }

    /// Keeps a reply in its priority.
    #[tactic(auto, unfolding(crate::specs::Steps::with_reply))]
    fn keep(&mut self, reply: Frame)
        ensures { self.new ≡ with_reply reply self.old }
    {
        match priority_of(reply.tci) {
            Priority::Low => self.low = Some(reply),
            Priority::High => self.high = Some(reply),
        }
    }

    /// Creates a monitor, where it may be and isn't there.
    #[tactic(auto, unfolding(crate::specs::Steps::created))]
    fn create(&mut self, frame: &Frame) -> Code
        ensures code { result.0 ≡ create_code frame.now.entity.instance
            (monitor_at frame.now.entity.instance self.old.monitors) }
        ensures value { self.new ≡ created frame.now self.old }
    {
        let instance = frame.entity.instance;
        if !is_monitor(instance) {
            return Code::UNKNOWN_INSTANCE;
        }
        if monitor_at(instance, &self.monitors).is_some() {
            return Code::INSTANCE_EXISTS;
        }
        let monitor = fresh([frame.contents[0], frame.contents[1]]);
        put_monitor(instance, Some(monitor), &mut self.monitors);
        Code::SUCCESS
    }

    /// Deletes a monitor, where it is there.
    #[tactic(auto, unfolding(crate::specs::Steps::deleted))]
    fn delete(&mut self, instance: u16) -> Code
        ensures code { result.0 ≡ delete_code (monitor_at instance self.old.monitors) }
        ensures value { self.new ≡ deleted instance self.old }
    {
        if monitor_at(instance, &self.monitors).is_none() {
            return Code::UNKNOWN_INSTANCE;
        }
        put_monitor(instance, None, &mut self.monitors);
        Code::SUCCESS
    }

    /// Begins the intervals anew, where the ONU-G is named.
    #[tactic(auto, unfolding(crate::specs::Steps::timed))]
    fn synchronize(&mut self, instance: u16) -> Code
        ensures code { result.0 ≡ time_code instance }
        ensures value { self.new ≡ timed instance self.old }
    {
        if instance != 0 {
            return Code::UNKNOWN_INSTANCE;
        }
        synchronize_all(&mut self.monitors);
        self.ticks = 0;
        Code::SUCCESS
    }

    /// The contents of the reply to a command that reads.
    #[tactic(auto, unfolding(meter_spec::specs::Replies::contents_of))]
    fn read(&self, frame: &Frame, running: bool) -> [u8; CONTENTS_BYTES]
        ensures { result ≡ contents_of (if running then GetCurrent else Get) frame.now
            (monitor_at frame.now.entity.instance self.now.monitors) }
    {
        match monitor_at(frame.entity.instance, &self.monitors) {
            Some(monitor) if running => read(&monitor, &monitor.running, asked_mask(frame)),
            Some(monitor) => read(&monitor, &monitor.finished, asked_mask(frame)),
            None => code_alone(Code::UNKNOWN_INSTANCE),
        }
    }

    /// Does what a command asks, and gives the contents of its reply.
    #[tactic(auto, unfolding(meter_spec::specs::Replies::contents_of))]
    fn perform(&mut self, command: Command, frame: &Frame) -> [u8; CONTENTS_BYTES]
        ensures contents { result ≡ contents_of command frame.now
            (monitor_at frame.now.entity.instance self.old.monitors) }
        ensures value { self.new ≡ changed command frame.now self.old }
    {
        match command {
            Command::Create => code_alone(self.create(frame)),
            Command::Delete => code_alone(self.delete(frame.entity.instance)),
            Command::Get => self.read(frame, false),
            Command::GetCurrent => self.read(frame, true),
            Command::SynchronizeTime => code_alone(self.synchronize(frame.entity.instance)),
        }
    }

    /// Carries a command out, and keeps its reply.
    #[tactic(auto, unfolding(crate::specs::Steps::carried_out, crate::specs::Steps::reply_now, meter_spec::specs::Replies::reply_to))]
    fn carry_out(&mut self, command: Command, frame: &Frame) -> Frame
        ensures reply { result ≡ reply_now command frame.now self.old }
        ensures value { self.new ≡ carried_out command frame.now self.old }
    {
        let contents = self.perform(command, frame);
        let reply = Frame {
            tci: frame.tci,
            kind: frame.kind.saturating_sub(REPLY_STEP),
            entity: frame.entity,
            contents,
        };
        self.keep(reply);
        reply
    }

    /// Takes a frame by the rules for each request, without the events so far.
    #[tactic(auto, unfolding(crate::specs::Steps::asked, crate::specs::Steps::answered))]
    fn take(&mut self, frame: &Frame) -> Option<Frame>
        ensures reply { result ≡ answered frame.now self.old }
        ensures value { self.new ≡ asked frame.now self.old }
    {
        let command = command_of(frame)?;
        if let Some(reply) = self.kept_for(frame.tci) {
            return Some(reply);
        }
        Some(self.carry_out(command, frame))
    }

    /// Answers a frame: a create, delete, get or get current data of a monitor, or a synchronize
    /// time. `None` exactly where it is none of these, and then nothing changes. A request that
    /// comes again under the kept TCI of its priority is answered by the kept reply.
    pub fn answer(&mut self, frame: &Frame) -> Option<Frame>
        ensures reply { (h : History) → self.old ≡ meter_of h → result ≡ answer frame.now h }
        ensures stands { (h : History) → self.old ≡ meter_of h
            → self.new ≡ meter_of (Asked frame.now ∷ h) }
    {
        self.take(frame)
    }

    /// Adds to the running counter of a monitor, as far as the counter goes.
    #[tactic(auto, unfolding(crate::specs::Steps::counts_in, crate::specs::Steps::counted_in))]
    fn add(&mut self, instance: u16, attribute: u8, n: u32) -> Counted
        ensures answer { result ≡ counts_in instance attribute self.old }
        ensures value { self.new ≡ counted_in instance attribute n self.old }
    {
        if attribute < FIRST_COUNTER || attribute > ATTRIBUTES {
            return Counted::Absent;
        }
        let Some(mut monitor) = monitor_at(instance, &self.monitors) else {
            return Counted::Absent;
        };
        grow(&mut monitor, usize::from(attribute - FIRST_COUNTER), n);
        put_monitor(instance, Some(monitor), &mut self.monitors);
        Counted::Added
    }

    /// Counts for an attribute of a monitor. `Absent` exactly where the monitor isn't there or the
    /// attribute isn't a counter, and then nothing changes.
    pub fn count(&mut self, instance: u16, attribute: u8, n: u32) -> Counted
        ensures answer { (h : History) → self.old ≡ meter_of h
            → result ≡ counted instance attribute h }
        ensures stands { (h : History) → self.old ≡ meter_of h
            → self.new ≡ meter_of (Grown instance attribute n ∷ h) }
    {
        self.add(instance, attribute, n)
    }

    /// Lets so many ticks pass by arithmetic.
    #[tactic(auto, unfolding(crate::specs::Steps::passed))]
    fn advance(&mut self, ticks: u32)
        ensures value { self.new ≡ passed ticks self.old }
    {
        let since = u64::from(self.ticks) + u64::from(ticks);
        let marks = (since / u64::from(INTERVAL_TICKS)) as u32;
        mark_all(&mut self.monitors, marks);
        self.ticks = (since % u64::from(INTERVAL_TICKS)) as u16;
    }

    /// A tick passes. Each 900th tick after the last mark is a mark: the counts of the interval
    /// that ran are kept as those of the one that is over, and the counters begin at 0.
    pub fn tick(&mut self)
        ensures stands { (h : History) → self.old ≡ meter_of h → self.new ≡ meter_of (Ticked ∷ h) }
    {
        self.advance(1);
    }

    /// So many ticks pass, one after the other. It takes no longer than one.
    pub fn pass(&mut self, ticks: u32)
        ensures stands { (h : History) → self.old ≡ meter_of h
            → self.new ≡ meter_of (with_ticks ticks h) }
    {
        self.advance(ticks);
    }
}
