//! What a script says: its header and its events.

ghost use Rattle.std.specs.Prelude.{◌≡◌, ◌==◌, ◌<◌, Some, length, slice_get};
ghost use Rattle.std.specs.List.{All};
ghost use Rattle.script_spec.specs.Script.{IsHeader, IsAction, IsScript};
ghost use Rattle.replay_script.specs.Events.{action_of, header_of};

use line_words::FewBytes;
use omci_core::{Bytes, EntityId, Priority};
use script_spec::{MAX_BITMAP, MAX_CREATE, MAX_SENSED, MAX_SET};
use slot_spec::Pick;
use std::marker::Model;

/// What a script begins with.
#[derive(Debug, PartialEq, Eq, Drop)]
pub struct Header {
    /// The room of an image slot, 1 to 1,048,576 bytes.
    pub room: u32,
    /// The first number of the low lane, 1 to 32,767.
    pub low: u16,
    /// The first number of the high lane, 1 to 32,767.
    pub high: u16,
    /// The software image that the unit leaves the factory with, 1 to `room` bytes.
    pub factory: Bytes,
}

/// What a line of a script, or of orders, asks for. Bytes are kept as they were written; they are
/// filled when the event is run.
#[derive(PartialEq, Eq, Drop)]
pub enum Event {
    /// The manager asks for the unit's MIB data sync, to see that the lane is alive.
    Probe {
        lane: Priority,
    },
    /// The manager resets the MIB (ITU-T G.988, MIB reset).
    Reset {
        lane: Priority,
    },
    /// The manager gets the attributes of the mask.
    Get {
        lane: Priority,
        entity: EntityId,
        mask: u16,
    },
    /// The manager creates an instance with at most 32 bytes of values.
    Create {
        lane: Priority,
        entity: EntityId,
        values: FewBytes<MAX_CREATE>,
    },
    /// The manager sets the attributes of the mask to at most 30 bytes of values.
    Set {
        lane: Priority,
        entity: EntityId,
        mask: u16,
        values: FewBytes<MAX_SET>,
    },
    /// The manager deletes an instance.
    Delete {
        lane: Priority,
        entity: EntityId,
    },
    /// The manager activates the image of a slot, 0 or 1: the unit starts again with it.
    Activate {
        lane: Priority,
        slot: u8,
    },
    /// The manager commits a slot, 0 or 1: the unit starts with its image from then on.
    Commit {
        lane: Priority,
        slot: u8,
    },
    /// The manager lets the unit restart.
    Reboot {
        lane: Priority,
    },
    /// The manager takes the unit's database over by an upload.
    Resync,
    /// The manager audits its table of alarms: it is read anew from the unit.
    Audit,
    /// The manager asks for the unit's MIB data sync, to compare it with its copy's.
    Check,
    /// The manager downloads an image of 1 to 16,777,216 bytes into a slot, 0 or 1, and asks for
    /// windows of 1 to 256 sections. It gives this check value in the place of the image's own.
    Image {
        slot: u8,
        window: u16,
        crc: Option<u32>,
        image: Bytes,
    },
    /// The link delivers the packet of this number, counted from 0.
    Deliver {
        packet: u64,
    },
    /// The link delivers the oldest fresh packet, at most so many times, 1 to 65,536.
    Flow {
        times: u32,
    },
    /// The link delivers a packet to the unit, whose power goes at a device call of this delivery,
    /// the 1st to the 1,000th, or after it where it makes fewer. The pick is what becomes of bytes
    /// that were written and not synced.
    CutIn {
        packet: u64,
        call: u64,
        pick: Pick,
    },
    /// Noise comes to the unit: at most 4,096 bytes that don't decode as a frame of either message
    /// set.
    NoiseUnit {
        bytes: Bytes,
    },
    /// Noise comes to the manager: at most 4,096 bytes that don't decode as a frame of either
    /// message set.
    NoiseOlt {
        bytes: Bytes,
    },
    /// A second passes.
    Tick,
    /// The unit measures a value of 1 to 25 bytes of the attribute of this number, 1 to 16.
    Sense {
        entity: EntityId,
        number: u8,
        value: FewBytes<MAX_SENSED>,
    },
    /// The unit notices an entity's alarms: at most 28 bytes of a bitmap.
    Alarm {
        entity: EntityId,
        bitmap: FewBytes<MAX_BITMAP>,
    },
    /// The unit loses its power.
    CutUnit,
    /// The manager loses its power.
    CutOlt,
    /// The unit gets its power back.
    StartUnit,
    /// The manager gets its power back, and its two lanes begin with these numbers, 1 to 32,767
    /// each.
    StartOlt {
        low: u16,
        high: u16,
    },
}

/// A script: a header, and events. Contracts see what it says, and each of its numbers and bytes is
/// in its range.
#[derive(Drop)]
pub struct Script {
    header: Header,
    events: Vec<Event>,
}

impl Model for Script {
    ghost use Rattle.std.specs.Prelude.{map};
    ghost use Rattle.script_spec.specs.Script.{Script as Value_of_script, IsScript};
    ghost use Rattle.replay_script.specs.Events.{action_of, header_of};

    ghost Value = { Value_of_script };

    ghost view = { λ s. record {
      header = header_of s.header;
      actions = map action_of s.events.items;
    } };

    ghost invariant = { λ s. IsScript (record {
      header = header_of s.header;
      actions = map action_of s.events.items;
    }) };
}

impl Script {
    ghost use Rattle.std.specs.Prelude.{map};

    /// A script of this header and these events.
    pub(crate) fn new(header: Header, events: Vec<Event>) -> Script
        requires header { IsHeader (header_of header) }
        requires events { All IsAction (map action_of events.items) }
        ensures value { result
            ≡ record { header = header_of header; actions = map action_of events.items } }
    {
        Script { header, events }
    }

    /// What the script begins with.
    pub fn header(&self) -> &Header
        ensures value { header_of result.now ≡ self.now.header }
        ensures ranges { IsHeader self.now.header }
        ensures whole { IsScript self.now }
    {
        &self.header
    }

    /// How many events there are.
    pub fn len(&self) -> usize
        ensures value { result ≡ length self.now.actions }
    {
        self.events.len()
    }

    /// Whether there is no event.
    pub fn is_empty(&self) -> bool
        ensures value { result ≡ (length self.now.actions == 0) }
    {
        self.events.is_empty()
    }

    /// The event at this place, counted from 0.
    pub fn event(&self, place: usize) -> &Event
        requires { place < length self.now.actions }
        ensures value { slice_get self.now.actions place ≡ Some (action_of result.now) }
        ensures ranges { IsAction (action_of result.now) }
    {
        &self.events[place]
    }
}
