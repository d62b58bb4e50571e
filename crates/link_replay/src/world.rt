//! The world as its callers hold it.

ghost use Rattle.std.specs.Prelude.{◌≡◌, ◌+◌, ◌<◌, ◌^◌, ◌++◌, None, true, OnOk, OnErr, IfOk, IfErr};
ghost use Rattle.std.specs.Io.KnownBytes.{Appends};
ghost use Rattle.script_spec.specs.Script.{IsAction, IsHeader};
ghost use Rattle.link_spec.specs.Link.{Link};
ghost use Rattle.link_spec.specs.Held.{held_of};
ghost use Rattle.world_spec.specs.Ends.{Ends};
ghost use Rattle.world_spec.specs.Nodes.{Nodes, first_nodes, acted, step, nodes_after};
ghost use Rattle.world_spec.specs.Trace.{turn_text, trace};
ghost use Rattle.whole_writes.specs.Writing.{WritesFront};
ghost use Rattle.trace_lines.specs.Writing.{WritesSome, EndsRun};
ghost use Rattle.replay_script.specs.Events.{action_of, header_of};
ghost use Rattle.link_replay.specs.Seen.{Stands, WorldStands, EndsStand, Follows, life_text};
ghost use Rattle.manager_orders.specs.Asking.{asked_by as asked_of};

use crate::machine::{Machine, Order, Outbox};
use link_spec::Direction;
use manager_orders::asked_by;
use omci_core::{NoMemory, Sink, filled};
use replay_script::{Event, Header, Script};
use std::alloc::Global;
use std::marker::Model;
use trace_lines::{Lines, RunFault, write_piece};
use whole_writes::write_all;

/// Both ends over a simulated link. [`step`](World::step) and [`run`](World::run) alone change it.
/// Where memory runs out in one of them, the world is spent: each later call of them answers
/// `NoMemory`.
#[derive(Drop)]
pub struct World {
    spent: bool,
    machine: Machine,
    outbox: Outbox,
}

impl Model for World {
    ghost use Rattle.link_replay.specs.Seen.{State};

    ghost Value = { State };

    ghost view = { λ w. record { spent = w.spent; seen = w.machine } };
}

impl Machine {
    /// Does what an event asks for.
    fn act(&mut self, event: &Event, outbox: &mut Outbox, out: &mut Lines) -> Result<(), NoMemory>
        requires ranges { IsAction (action_of event.now) }
        ensures follows { OnOk result ((e : Ends) → EndsStand self.old e
            → (l : Link) → self.old.held ≡ held_of l
            → Follows (acted (action_of event.now) (record { ends = e; link = l })) e
            self.old self.new out.old out.new) }
    {
        match asked_by(event) {
            Some(asked) => self.submit(&asked, outbox, out)?,
            None => self.act_apart(event, outbox, out)?,
        }
        Ok(())
    }

    /// Does what an event asks for that submits no request.
    #[tactic(auto, unfolding(world_spec::specs::Nodes::acted))]
    fn act_apart(
        &mut self,
        event: &Event,
        outbox: &mut Outbox,
        out: &mut Lines,
    ) -> Result<(), NoMemory>
        requires ranges { IsAction (action_of event.now) }
        requires apart { asked_of (action_of event.now) ≡ None }
        ensures follows { OnOk result ((e : Ends) → EndsStand self.old e
            → (l : Link) → self.old.held ≡ held_of l
            → Follows (acted (action_of event.now) (record { ends = e; link = l })) e
            self.old self.new out.old out.new) }
    {
        match event {
            Event::Probe { lane } => self.probe(*lane, outbox, out)?,
            Event::Resync => self.resync(outbox, out)?,
            Event::Audit => self.audit(outbox, out)?,
            Event::Check => self.check(outbox, out)?,
            Event::Image {
                slot,
                window,
                crc,
                image,
            } => self.image(
                &Order::new(*slot, *window, *crc),
                image.bytes(),
                outbox,
                out,
            )?,
            Event::Deliver { packet } => self.deliver_there(*packet, outbox, out)?,
            Event::Flow { times } => self.flow(*times, outbox, out)?,
            Event::CutIn { packet, call, pick } => {
                self.cut_in_there(*packet, *call, *pick, outbox, out)?;
            }
            Event::NoiseUnit { bytes } => self.noise(Direction::Down, bytes.bytes(), outbox, out)?,
            Event::NoiseOlt { bytes } => self.noise(Direction::Up, bytes.bytes(), outbox, out)?,
            Event::Tick => self.second(outbox, out)?,
            Event::Sense {
                entity,
                number,
                value,
            } => self.sense(*entity, *number, value.bytes(), outbox, out)?,
            Event::Alarm { entity, bitmap } => {
                self.alarm(*entity, filled(bitmap.bytes()), outbox, out)?;
            }
            Event::CutUnit => self.cut_unit(out)?,
            Event::CutOlt => self.cut_manager(out)?,
            Event::StartUnit => self.start_unit(out)?,
            Event::StartOlt { low, high } => self.start_manager(*low, *high, out)?,
            _ => {}
        }
        Ok(())
    }

    /// Runs one event: it is counted, and what it asks for is done.
    fn turn(&mut self, event: &Event, outbox: &mut Outbox, out: &mut Lines) -> Result<(), NoMemory>
        requires few { self.old.event + 1 < 2 ^ 64 }
        requires ranges { IsAction (action_of event.now) }
        ensures nodes { OnOk result ((n : Nodes) → Stands self.old n
            → Stands self.new (step (action_of event.now) n).nodes) }
        ensures lines { OnOk result ((n : Nodes) → Stands self.old n
            → out.new ≡ out.old ++ turn_text n (step (action_of event.now) n)) }
    {
        self.event += 1;
        self.act(event, outbox, out)?;
        Ok(())
    }
}

impl World {
    /// Both ends as a script's header starts them, over an empty link.
    pub fn new(alloc: Global, header: &Header) -> Result<World, NoMemory>
        requires ranges { IsHeader (header_of header.now) }
        ensures first { IfOk result (λ w. WorldStands w (first_nodes (header_of header.now))) }
    {
        Ok(World {
            spent: false,
            machine: Machine::start(alloc, header)?,
            outbox: Outbox::new(alloc),
        })
    }

    /// How many events were run.
    pub fn events(&self) -> u64
        ensures value { result ≡ self.now.seen.event }
    {
        self.machine.event
    }

    /// Appends the line of the unit's present life, where it is on: which slots are active and
    /// committed, and what they hold.
    pub fn start_line(&self, out: &mut Lines) -> Result<(), NoMemory>
        ensures line { OnOk result ((n : Nodes) → Stands self.now.seen n
            → out.new ≡ out.old ++ life_text n.ends.event n.ends.lives n.ends.unit) }
    {
        self.machine.start_line(out)?;
        Ok(())
    }

    /// Runs one event, and appends its lines. For all nodes that the world stands for before, it
    /// stands for those after the event's step afterwards.
    pub fn step(&mut self, event: &Event, out: &mut Lines) -> Result<(), NoMemory>
        requires few { self.old.seen.event + 1 < 2 ^ 64 }
        requires ranges { IsAction (action_of event.now) }
        ensures nodes { OnOk result ((n : Nodes) → Stands self.old.seen n
            → WorldStands self.new (step (action_of event.now) n).nodes) }
        ensures lines { OnOk result ((n : Nodes) → Stands self.old.seen n
            → out.new ≡ out.old ++ turn_text n (step (action_of event.now) n)) }
        ensures spent { self.old.spent ≡ true → OnOk result ⊥ }
        ensures spends { OnErr result (self.new.spent ≡ true) }
    {
        if self.spent {
            return Err(NoMemory);
        }
        match self.machine.turn(event, &mut self.outbox, out) {
            Ok(()) => Ok(()),
            Err(error) => {
                self.spent = true;
                Err(error)
            }
        }
    }

    /// One event: its lines are gathered, and written where they are enough for a piece.
    fn one_event<K: Sink>(
        &mut self,
        event: &Event,
        lines: &mut Lines,
        sink: &mut K,
    ) -> Result<(), RunFault>
        requires few { self.old.seen.event + 1 < 2 ^ 64 }
        requires ranges { IsAction (action_of event.now) }
        ensures nodes { OnOk result ((n : Nodes) → Stands self.old.seen n
            → WorldStands self.new (step (action_of event.now) n).nodes) }
        ensures written { OnOk result ((n : Nodes) → Stands self.old.seen n → WritesSome
            (lines.old ++ turn_text n (step (action_of event.now) n))
            (K.written sink.old) (K.written sink.new) lines.new) }
        ensures kept { OnOk result (K.faults sink.new ≡ K.faults sink.old) }
        ensures front { OnErr result ((n : Nodes) → Stands self.old.seen n → WritesFront
            (lines.old ++ turn_text n (step (action_of event.now) n))
            (K.written sink.old) (K.written sink.new)) }
        ensures cause { IfErr result (λ e. EndsRun e (K.faults sink.old) (K.faults sink.new)) }
    {
        self.step(event, lines)?;
        write_piece(lines, sink)?;
        Ok(())
    }

    /// Runs all events of a script, and writes the trace. The world must be as [`new`](World::new)
    /// made it of the script's header. After a fault a front of the trace was written; `Write`
    /// where the sink failed.
    pub fn run<K: Sink>(&mut self, script: &Script, sink: &mut K) -> Result<(), RunFault>
        requires begun { WorldStands self.old (first_nodes script.now.header) }
        ensures traced { OnOk result
            (Appends (K.written sink.old) (K.written sink.new) (trace script.now)) }
        ensures nodes { OnOk result (WorldStands self.new
            (nodes_after script.now.actions (first_nodes script.now.header))) }
        ensures kept { OnOk result (K.faults sink.new ≡ K.faults sink.old) }
        ensures front { OnErr result
            (WritesFront (trace script.now) (K.written sink.old) (K.written sink.new)) }
        ensures cause { IfErr result (λ e. EndsRun e (K.faults sink.old) (K.faults sink.new)) }
    {
        let mut lines = Lines::new(self.machine.alloc);
        self.start_line(&mut lines)?;
        for place in 0..script.len() {
            self.one_event(script.event(place), &mut lines, sink)?;
        }
        write_all(sink, lines.bytes())?;
        Ok(())
    }
}
