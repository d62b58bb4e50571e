//! How far the deliveries of each direction and lane have come.

ghost use Rattle.std.specs.Prelude.{◌≡◌, ◌+◌, ◌<◌, ◌^◌};
ghost use Rattle.link_spec.specs.Link.{way_in, with_way, ways_from, passed};

use link_spec::{Direction, Way};
use omci_core::Priority;
use std::marker::Model;

/// The direction and the lane of a packet.
#[derive(Clone, Copy)]
pub(crate) struct Tag {
    pub(crate) direction: Direction,
    pub(crate) lane: Priority,
}

/// One way for each direction and lane.
#[derive(Drop)]
pub(crate) struct Ways {
    down_low: Way,
    down_high: Way,
    up_low: Way,
    up_high: Way,
}

impl Model for Ways {
    ghost use Rattle.link_spec.specs.Link as link;

    ghost Value = { link.Ways };

    ghost view = { λ w. record {
      down_low = w.down_low;
      down_high = w.down_high;
      up_low = w.up_low;
      up_high = w.up_high;
    } };
}

impl Ways {
    /// Nothing below that number comes any more, or is fresh.
    pub(crate) fn from(number: u64) -> Ways
        ensures value { result ≡ ways_from number }
    {
        let way = Way {
            floor: number,
            mark: number,
        };
        Ways {
            down_low: way,
            down_high: way,
            up_low: way,
            up_high: way,
        }
    }

    /// The way of a direction and lane.
    pub(crate) fn way(&self, tag: Tag) -> Way
        ensures value { result ≡ way_in tag.direction tag.lane self.now }
    {
        match (tag.direction, tag.lane) {
            (Direction::Down, Priority::Low) => self.down_low,
            (Direction::Down, Priority::High) => self.down_high,
            (Direction::Up, Priority::Low) => self.up_low,
            (Direction::Up, Priority::High) => self.up_high,
        }
    }

    /// A packet of that direction and lane was delivered.
    pub(crate) fn pass(&mut self, tag: Tag, number: u64)
        requires { number + 1 < 2 ^ 64 }
        ensures value { self.new
            ≡ with_way tag.direction tag.lane
            (passed number (way_in tag.direction tag.lane self.old)) self.old }
    {
        let way = Way {
            floor: number,
            mark: self.way(tag).mark.max(number + 1),
        };
        match (tag.direction, tag.lane) {
            (Direction::Down, Priority::Low) => self.down_low = way,
            (Direction::Down, Priority::High) => self.down_high = way,
            (Direction::Up, Priority::Low) => self.up_low = way,
            (Direction::Up, Priority::High) => self.up_high = way,
        }
    }
}
