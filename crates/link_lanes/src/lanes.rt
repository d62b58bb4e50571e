//! The link.

ghost use Rattle.std.specs.Prelude.{true, ◌≡◌, ◌+◌, ◌-◌, ◌<◌, ◌≤◌, ◌^◌, length, option_map};
ghost use Rattle.std.specs.Prelude.{option_copied, is_some, slice_get, unwrap_or, IsSome, IfSome};
ghost use Rattle.std.specs.Prelude.{IfOk, Some, None};
ghost use Rattle.std.specs.Borrow.{sem};
ghost use Rattle.link_spec.specs.Link.{Link, way_in, empty_link, direction_if, is_down, count};
ghost use Rattle.link_spec.specs.Link.{sent_on, allowed, link_after, fresh, emptied};
ghost use Rattle.link_spec.specs.Held.{held_of, nothing_held, first_held, held_packet, held_sent};
ghost use Rattle.link_spec.specs.Held.{held_allowed, held_after, held_fresh, held_emptied};
ghost use Rattle.link_lanes.specs.Latest.{first_of, tag_of};
ghost use Rattle.link_lanes.specs.Fresh.{fresh_in, held_as, if_on, Skips};

use crate::fresh::{first_fresh_from, may_come, sooner};
use crate::latest::Latest;
use crate::ways::{Tag, Ways};
use link_laws::{held_answers_for_the_link, held_follows_the_link};
use link_spec::Direction;
use omci_core::{NoMemory, Packet};
use std::alloc::Global;
use std::marker::Model;

/// The link, with its last 16,384 packets. Contracts see what is held of the link, and each call
/// answers and steps as the whole link does.
#[derive(Drop)]
pub struct Lanes {
    latest: Latest,
    ways: Ways,
    /// The oldest fresh packet to the unit.
    fresh_down: Option<u64>,
    /// The oldest fresh packet to the manager.
    fresh_up: Option<u64>,
    /// The packet that was delivered last.
    delivered: Packet,
}

impl Model for Lanes {
    ghost use Rattle.link_spec.specs.Held as held;
    ghost use Rattle.link_lanes.specs.Fresh.{held_as, IsLink};

    ghost Value = { held.Held };

    ghost view = { λ l. held_as l.latest l.ways };

    ghost invariant = { λ l. IsLink l.latest l.ways l.fresh_down l.fresh_up };
}

/// The direction of a packet.
fn direction_if(down: bool) -> Direction
    ensures value { result ≡ direction_if down }
{
    if down { Direction::Down } else { Direction::Up }
}

/// The oldest fresh packet of a direction, none of whose packets below the known one, or below
/// `passed` where none is known, is fresh.
#[inline(always)]
fn refreshed(
    latest: &Latest,
    ways: &Ways,
    direction: Direction,
    known: Option<u64>,
    passed: u64,
) -> Option<u64>
    requires countable { latest.now.count ≤ 2 ^ 63 }
    requires held { length latest.now.last ≤ latest.now.count }
    requires within { unwrap_or known passed ≤ latest.now.count }
    requires skips { Skips direction (unwrap_or known passed) latest.now ways.now }
    ensures value { result ≡ fresh_in direction latest.now ways.now }
{
    let start = known.unwrap_or(passed).saturating_sub(latest.first());
    first_fresh_from(latest, ways, direction, start as usize)
}

/// The number, where the end is on.
fn if_on(on: bool, number: Option<u64>) -> Option<u64>
    ensures value { result ≡ if_on on number }
{
    if on { number } else { None }
}

impl Lanes {
    ghost use Rattle.link_lanes.specs.Lent.{EndsDelivered};

    /// An empty link. It takes the memory for all that it will ever hold, which is touched as
    /// packets come.
    pub fn new(alloc: Global) -> Result<Lanes, NoMemory>
        ensures empty { IfOk result (λ lanes. lanes ≡ nothing_held) }
        ensures stands { IfOk result (λ lanes. lanes ≡ held_of empty_link) }
    {
        held_follows_the_link();
        let latest = Latest::new(alloc)?;
        Ok(Lanes {
            latest,
            ways: Ways::from(0),
            fresh_down: None,
            fresh_up: None,
            delivered: Packet::new(),
        })
    }

    /// How many packets were sent.
    pub fn sent(&self) -> u64
        ensures value { result ≡ self.now.count }
        ensures bound { result ≤ 2 ^ 63 }
        ensures stands { (l : Link) → self.now ≡ held_of l → result ≡ count l }
    {
        self.latest.sent()
    }

    /// Puts a packet onto the link, to the unit or to the manager, and answers its number. It has
    /// at least 2 bytes, and fewer than 2^63 packets were sent before.
    pub fn send(&mut self, down: bool, packet: &Packet) -> u64
        requires some { 2 ≤ length packet.now }
        requires countable { self.old.count < 2 ^ 63 }
        ensures number { result ≡ self.old.count }
        ensures lanes { self.new
            ≡ held_sent (record { direction = direction_if down; bytes = packet.now }) self.old }
        ensures stands { (l : Link) → self.old ≡ held_of l → (result ≡ count l)
            × (self.new
            ≡ held_of (sent_on (record { direction = direction_if down; bytes = packet.now }) l)) }
    {
        held_follows_the_link();
        let number = self.latest.sent();
        self.latest.push(direction_if(down), packet.bytes());
        self.fresh_down = refreshed(
            &self.latest,
            &self.ways,
            Direction::Down,
            self.fresh_down,
            number,
        );
        self.fresh_up = refreshed(
            &self.latest,
            &self.ways,
            Direction::Up,
            self.fresh_up,
            number,
        );
        number
    }

    /// The direction and the lane of the packet of that number, where it may come.
    #[tactic(auto, unfolding(link_spec::specs::Held::held_allowed))]
    fn allowed_tag(&self, number: u64) -> Option<Tag>
        ensures value { result ≡ option_map tag_of (held_allowed number self.now) }
        ensures past { IfSome result
            (λ tag. (way_in tag.direction tag.lane self.now.ways).floor ≤ number) }
        ensures sent { IfSome result (λ _. number < 2 ^ 63) }
    {
        if number < self.latest.first() {
            return None;
        }
        let place = (number - self.latest.first()) as usize;
        match self.latest.tag(place) {
            None => None,
            Some(tag) => {
                if may_come(number, self.ways.way(tag), self.latest.sent()) {
                    Some(tag)
                } else {
                    None
                }
            }
        }
    }

    /// Whether the packet of that number was sent and may come: it isn't below its way's floor, and
    /// is one of the last 16,384. Whether its receiver is on isn't asked.
    pub fn allowed(&self, number: u64) -> bool
        ensures value { result ≡ is_some (held_allowed number self.now) }
        ensures stands { (l : Link) → self.now ≡ held_of l → result ≡ is_some (allowed number l) }
    {
        held_answers_for_the_link();
        self.allowed_tag(number).is_some()
    }

    /// Whether the packet of that number, which may come, goes to the unit.
    pub fn down(&self, number: u64) -> bool
        requires { IsSome (held_allowed number self.now) }
        ensures value { IfSome (held_allowed number self.now) (λ s. result ≡ is_down s.direction) }
        ensures stands { (l : Link) → self.now ≡ held_of l
            → IfSome (allowed number l) (λ s. result ≡ is_down s.direction) }
    {
        held_answers_for_the_link();
        match self.allowed_tag(number) {
            Some(tag) => tag.direction == Direction::Down,
            None => false,
        }
    }

    /// Delivers the packet of that number, and answers whether it may come. Nothing changes where
    /// it may not.
    #[tactic(auto, unfolding(link_spec::specs::Held::held_after, link_spec::specs::Link::ways_past))]
    fn pass(&mut self, number: u64) -> bool
        ensures allowed { result ≡ is_some (held_allowed number self.old) }
        ensures lanes { self.new ≡ held_after number self.old }
    {
        match self.allowed_tag(number) {
            None => false,
            Some(tag) => {
                let sent = self.latest.sent();
                self.ways.pass(tag, number);
                self.fresh_down = refreshed(
                    &self.latest,
                    &self.ways,
                    Direction::Down,
                    self.fresh_down,
                    sent,
                );
                self.fresh_up = refreshed(
                    &self.latest,
                    &self.ways,
                    Direction::Up,
                    self.fresh_up,
                    sent,
                );
                true
            }
        }
    }

    /// Delivers the packet of that number and answers it. None exactly where it may not come;
    /// nothing changes then.
    pub fn deliver(&mut self, number: u64) -> Option<&Packet>
        ensures* after { sem 𝓛 (EndsDelivered self.entry number) }
        ensures packet { option_copied result
            ≡ option_map (λ s. s.bytes) (held_allowed number self.old) }
        ensures stands { (l : Link) → self.old ≡ held_of l
            → option_copied result ≡ option_map (λ s. s.bytes) (allowed number l) }
    {
        held_answers_for_the_link();
        held_follows_the_link();
        if !self.pass(number) {
            return None;
        }
        let place = (number - self.latest.first()) as usize;
        self.latest.copy(place, &mut self.delivered);
        Some(&self.delivered)
    }

    /// Delivers the packet of that number into `came`, and answers whether it may come. Nothing
    /// changes where it may not.
    pub fn take(&mut self, number: u64, came: &mut Packet) -> bool
        ensures taken { result ≡ is_some (held_allowed number self.old) }
        ensures packet { result ≡ true
            → Some came.new ≡ option_map (λ s. s.bytes) (held_allowed number self.old) }
        ensures lanes { self.new ≡ held_after number self.old }
    {
        if !self.pass(number) {
            return false;
        }
        let place = (number - self.latest.first()) as usize;
        self.latest.copy(place, came);
        true
    }

    /// The oldest packet that is fresh: its receiver is on, it may come, and none of its direction
    /// and lane from it on was delivered. None exactly where there is none.
    #[tactic(auto, unfolding(link_spec::specs::Held::held_fresh))]
    pub fn fresh(&self, unit_on: bool, olt_on: bool) -> Option<u64>
        ensures value { result ≡ held_fresh unit_on olt_on self.now }
        ensures stands { (l : Link) → self.now ≡ held_of l → result ≡ fresh unit_on olt_on l }
    {
        held_answers_for_the_link();
        sooner(
            if_on(unit_on, self.fresh_down),
            if_on(olt_on, self.fresh_up),
        )
    }

    /// Empties the link at the start of either end: no packet that was sent may come any more.
    pub fn empty(&mut self)
        ensures lanes { self.new ≡ held_emptied self.old }
        ensures stands { (l : Link) → self.old ≡ held_of l → self.new ≡ held_of (emptied l) }
    {
        held_follows_the_link();
        self.ways = Ways::from(self.latest.sent());
        self.fresh_down = None;
        self.fresh_up = None;
    }
}
