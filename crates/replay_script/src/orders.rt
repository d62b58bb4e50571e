//! What orders say: the first numbers of the manager's lanes, and what the manager is to do.

ghost use Rattle.std.specs.Prelude.{◌≡◌, ◌==◌, ◌<◌, Some, length, slice_get};
ghost use Rattle.std.specs.List.{All};
ghost use Rattle.script_spec.specs.declared.Document.TheVariants as documents;
ghost use Rattle.script_spec.specs.Script.{IsOrdersHeader, IsAction, HasAction, IsOrders};
ghost use Rattle.replay_script.specs.Events.{action_of, lanes_of};

use crate::script::Event;
use std::marker::Model;

/// The first numbers of a manager's two lanes, 1 to 32,767 each.
#[derive(Clone, Copy)]
pub(crate) struct FirstNumbers {
    pub(crate) low: u16,
    pub(crate) high: u16,
}

/// Orders: the first numbers of a manager's two lanes, and events that are all the manager's.
/// Contracts see what they say, and each number and string of bytes is in its range.
#[derive(Drop)]
pub struct Orders {
    numbers: FirstNumbers,
    events: Vec<Event>,
}

impl Model for Orders {
    ghost use Rattle.std.specs.Prelude.{map};
    ghost use Rattle.script_spec.specs.Script.{Orders as Value_of_orders, IsOrders};
    ghost use Rattle.replay_script.specs.Events.{action_of, lanes_of};

    ghost Value = { Value_of_orders };

    ghost view = { λ o. record {
      header = lanes_of o.numbers;
      actions = map action_of o.events.items;
    } };

    ghost invariant = { λ o. IsOrders (record {
      header = lanes_of o.numbers;
      actions = map action_of o.events.items;
    }) };
}

impl Orders {
    ghost use Rattle.std.specs.Prelude.{map};

    /// Orders of these first numbers and these events.
    pub(crate) fn new(numbers: FirstNumbers, events: Vec<Event>) -> Orders
        requires header { IsOrdersHeader (lanes_of numbers) }
        requires events { All IsAction (map action_of events.items) }
        requires manager { All (HasAction documents.Orders) (map action_of events.items) }
        ensures value { result
            ≡ record { header = lanes_of numbers; actions = map action_of events.items } }
    {
        Orders { numbers, events }
    }

    /// The first number of the low lane, 1 to 32,767.
    pub fn low(&self) -> u16
        ensures value { result ≡ self.now.header.low }
        ensures ranges { IsOrdersHeader self.now.header }
        ensures whole { IsOrders self.now }
    {
        self.numbers.low
    }

    /// The first number of the high lane, 1 to 32,767.
    pub fn high(&self) -> u16
        ensures value { result ≡ self.now.header.high }
        ensures ranges { IsOrdersHeader self.now.header }
    {
        self.numbers.high
    }

    /// How many events there are.
    pub fn len(&self) -> usize
        ensures value { result ≡ length self.now.actions }
    {
        self.events.len()
    }

    /// Whether there is no event.
    pub fn is_empty(&self) -> bool
        ensures value { result ≡ (length self.now.actions == 0) }
    {
        self.events.is_empty()
    }

    /// The event at this place, counted from 0. It is one of the manager's.
    pub fn event(&self, place: usize) -> &Event
        requires { place < length self.now.actions }
        ensures value { slice_get self.now.actions place ≡ Some (action_of result.now) }
        ensures ranges { IsAction (action_of result.now) }
        ensures manager { HasAction documents.Orders (action_of result.now) }
    {
        &self.events[place]
    }
}
