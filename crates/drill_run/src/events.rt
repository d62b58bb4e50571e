//! The events of some lines, run together.

ghost use Rattle.std.specs.Prelude.{◌≡◌, ◌<◌, ◌++◌, [], ◌∷◌, Some, OnOk, length, slice_get};
ghost use Rattle.replay_script.specs.Events.{action_of};

use omci_core::NoMemory;
use replay_script::Event;
use std::alloc::Global;
use std::marker::Model;

/// Events, one for each line. Contracts see what the lines ask for.
#[derive(Drop)]
pub(crate) struct Events {
    items: Vec<Event>,
}

impl Model for Events {
    ghost use Rattle.std.specs.Prelude.{List, map};
    ghost use Rattle.script_spec.specs.Script.{Action};
    ghost use Rattle.replay_script.specs.Events.{action_of};

    ghost Value = { List Action };

    ghost view = { λ e. map action_of e.items.items };
}

impl Events {
    /// No event.
    pub(crate) fn new(alloc: Global) -> Events
        ensures empty { result ≡ [] }
    {
        Events {
            items: Vec::new(alloc),
        }
    }

    /// Drops all events. Their room is kept for the next ones.
    pub(crate) fn clear(&mut self)
        ensures empty { self.new ≡ [] }
    {
        self.items.clear();
    }

    /// Adds an event at the end.
    pub(crate) fn push(&mut self, event: Event) -> Result<(), NoMemory>
        ensures added { OnOk result (self.new ≡ self.old ++ (action_of event ∷ [])) }
    {
        self.items.push(event)?;
        Ok(())
    }

    /// How many events there are.
    pub(crate) fn len(&self) -> usize
        ensures value { result ≡ length self.now }
    {
        self.items.len()
    }

    /// The event at this place, counted from 0.
    pub(crate) fn get(&self, place: usize) -> &Event
        requires within { place < length self.now }
        ensures value { slice_get self.now place ≡ Some (action_of result.now) }
    {
        &self.items[place]
    }
}
