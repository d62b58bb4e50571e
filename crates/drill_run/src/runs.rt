//! The lines of the drill, run on a world, and the lines of their trace, counted.

ghost use Rattle.std.specs.Prelude.{◌≡◌, ◌+◌, ◌<◌, ◌≤◌, ◌^◌, ◌++◌, ◌∷◌, [], List, length, OnOk, IfOk};
ghost use Rattle.std.specs.List.{All};
ghost use Rattle.script_spec.specs.Script.{Action, IsAction};
ghost use Rattle.replay_script.specs.Events.{action_of, header_of};
ghost use Rattle.drill_spec.specs.Drill.{drill_header};
ghost use Rattle.world_spec.specs.Nodes.{first_nodes};
ghost use Rattle.link_replay.specs.Seen.{WorldStands};
ghost use Rattle.drill_run.specs.Drilled.{Drilled, DrilledSome};

use crate::events::Events;
use crate::tally::Tally;
use drill_spec::DRILL_ROOM;
use link_replay::World;
use omci_core::{Bytes, NoMemory};
use replay_script::{Event, Header};
use std::alloc::Global;
use trace_lines::Lines;

/// The lines of the trace of the event that ran last, and what was counted of the trace so far. The
/// world that runs them is lent: a function that owned it would have to give it up at each exit.
#[derive(Drop)]
pub(crate) struct Runs {
    lines: Lines,
    pub(crate) tally: Tally,
}

// The drill's header.
pub(crate) fn first_header(alloc: Global) -> Result<Header, NoMemory>
    ensures value { IfOk result (λ header. header_of header ≡ drill_header) }
{
    Ok(Header {
        room: DRILL_ROOM,
        low: 1,
        high: 1,
        factory: Bytes::of(alloc, &[255])?,
    })
}

impl Runs {
    /// No lines yet but the unit's start line, which is counted, of a world that has just started.
    pub(crate) fn new(alloc: Global, world: &World) -> Result<Runs, NoMemory>
        requires first { WorldStands world.now (first_nodes drill_header) }
        ensures begun { IfOk result (λ runs. Drilled [] world.now runs.tally) }
    {
        let mut lines = Lines::new(alloc);
        world.start_line(&mut lines)?;
        let mut tally = Tally::new();
        tally.add(lines.bytes())?;
        Ok(Runs { lines, tally })
    }

    /// Runs these events on the world, and counts their lines of the trace.
    pub(crate) fn run(&mut self, events: &Events, world: &mut World) -> Result<(), NoMemory>
        requires few { DrilledSome (2 ^ 32) world.old self.old.tally }
        requires short { length events.now ≤ 2 ^ 32 }
        requires ranges { All IsAction events.now }
        ensures drilled { OnOk result ((done : List Action) → Drilled done world.old self.old.tally
            → Drilled (done ++ events.now) world.new self.new.tally) }
    {
        for place in 0..events.len() {
            self.run_one(events.get(place), world)?;
        }
        Ok(())
    }

    // Runs an event on the world, and counts its lines of the trace.
    fn run_one(&mut self, event: &Event, world: &mut World) -> Result<(), NoMemory>
        requires few { world.old.seen.event + 1 < 2 ^ 64 }
        requires ranges { IsAction (action_of event.now) }
        ensures drilled { OnOk result ((done : List Action) → Drilled done world.old self.old.tally
            → Drilled (done ++ (action_of event.now ∷ [])) world.new self.new.tally) }
    {
        self.lines.clear();
        world.step(event, &mut self.lines)?;
        self.tally.add(self.lines.bytes())?;
        Ok(())
    }
}
