//! The last packets of the link. The first 48 bytes of a packet stand apart from the rest, so that
//! baseline packets, which have no more, touch 64 bytes each of the memory that is taken at the
//! start.

ghost use Rattle.std.specs.Prelude.{◌≡◌, ◌+◌, ◌-◌, ◌<◌, ◌≤◌, ◌^◌, length, take, drop, true};
ghost use Rattle.std.specs.Prelude.{slice_get, option_map, Some, IfOk};
ghost use Rattle.frame_spec.specs.declared.TheConstants.{MAX_PACKET_BYTES};
ghost use Rattle.frame_spec.specs.Widths.{front_filled};
ghost use Rattle.tci_spec.specs.Tci.{priority_of, packet_tci};
ghost use Rattle.link_spec.specs.Link.{lane_of};
ghost use Rattle.circular_buffer.specs.Buffer.{buffer};
ghost use Rattle.link_lanes.specs.Latest.{AddsRest, is_long, rests_of, packet_of, nothing_sent};
ghost use Rattle.link_lanes.specs.Latest.{added, with_packet, with_room, first_of, tag_of};

use crate::ways::Tag;
use circular_buffer::HeapCircularBuffer;
use frame_spec::FRAME_BYTES;
use link_spec::{Direction, WINDOW};
use omci_core::{MAX_PACKET_BYTES, NoMemory, Packet, Priority, filled, front_filled, priority_of};
use std::alloc::Global;
use std::marker::Model;

/// So many bytes of each packet stand together: all of a baseline frame.
pub(crate) const FRONT_LENGTH: usize = FRAME_BYTES;

/// The most bytes that a packet has past them.
const REST_LENGTH: usize = MAX_PACKET_BYTES - FRONT_LENGTH;

/// What a packet begins with.
#[derive(Drop)]
pub(crate) struct Front {
    direction: Direction,
    /// The number of the packet's bytes.
    length: u16,
    /// How many packets before it had a rest.
    rests_before: u64,
    /// Its first bytes, and zeros where it has fewer.
    bytes: [u8; FRONT_LENGTH],
}

/// The last packets, at most [`WINDOW`], and how many were sent.
#[derive(Drop)]
pub(crate) struct Latest {
    fronts: HeapCircularBuffer<Front>,
    /// What the packets of more than 48 bytes have past them, in the packets' order.
    rests: HeapCircularBuffer<[u8; REST_LENGTH]>,
    sent: u64,
    /// How many of them had a rest.
    rests_sent: u64,
}

impl Model for Latest {
    ghost use Rattle.link_lanes.specs.Latest as spec;

    ghost Value = { spec.Latest };

    ghost view = { λ l. record {
      count = l.sent;
      last = spec.joined l.fronts.items l.rests.items;
    } };

    ghost invariant = { λ l. spec.IsLatest l.fronts l.rests l.sent l.rests_sent };
}

/// What follows the first 48 bytes.
fn tail(bytes: &[u8]) -> &[u8]
    requires { FRONT_LENGTH ≤ length bytes.now }
    ensures value { result.now ≡ drop FRONT_LENGTH bytes.now }
    ensures size { length result.now ≡ length bytes.now - FRONT_LENGTH }
{
    &bytes[FRONT_LENGTH..]
}

/// What follows the first 48 bytes, and zeros.
fn rest_of(bytes: &[u8]) -> [u8; REST_LENGTH]
    requires long { FRONT_LENGTH ≤ length bytes.now }
    requires most { length bytes.now ≤ MAX_PACKET_BYTES }
    ensures value { take (length bytes.now - FRONT_LENGTH) result ≡ drop FRONT_LENGTH bytes.now }
{
    filled(tail(bytes))
}

/// The first 48 bytes, and zeros where there are fewer.
fn front_of(bytes: &[u8]) -> [u8; FRONT_LENGTH]
    ensures value { result ≡ front_filled FRONT_LENGTH bytes.now }
{
    match bytes.first_chunk::<FRONT_LENGTH>() {
        Some(front) => *front,
        None => front_filled(bytes),
    }
}

/// Adds the rest of a packet, where it has one, and answers how many were added.
fn push_rest(rests: &mut HeapCircularBuffer<[u8; REST_LENGTH]>, bytes: &[u8]) -> u64
    requires most { length bytes.now ≤ MAX_PACKET_BYTES }
    requires room { length rests.old.items < rests.old.capacity }
    ensures added { AddsRest bytes.now rests.old rests.new result }
{
    if bytes.len() > FRONT_LENGTH {
        rests.push_back(rest_of(bytes));
        1
    } else {
        0
    }
}

/// Lets the first rest go, where the packet that goes had one.
fn pop_rest(rests: &mut HeapCircularBuffer<[u8; REST_LENGTH]>, packet: &Front)
    ensures value { rests.new
        ≡ buffer (drop (rests_of packet.now) rests.old.items) rests.old.capacity }
{
    if packet.length as usize > FRONT_LENGTH {
        rests.pop_front();
    }
}

/// The first bytes of a rest.
fn part(rest: &[u8; REST_LENGTH], count: usize) -> &[u8]
    requires { count ≤ REST_LENGTH }
    ensures value { result.now ≡ take count rest.now }
    ensures size { length result.now ≡ count }
{
    &rest[..count]
}

/// Makes `into` the packet with this front, whose rest, where it has one, stands at the place.
fn copy_packet(
    front: &Front,
    rests: &HeapCircularBuffer<[u8; REST_LENGTH]>,
    place: usize,
    into: &mut Packet,
)
    requires most { front.now.length ≤ MAX_PACKET_BYTES }
    requires rest { is_long front.now ≡ true → place < length rests.now.items }
    ensures value { into.new ≡ (packet_of front.now (drop place rests.now.items)).bytes }
{
    let length = front.length as usize;
    if length < FRONT_LENGTH {
        into.put(&front.bytes[..length]);
        return;
    }
    into.put(&front.bytes);
    if length == FRONT_LENGTH {
        return;
    }
    if let Some(rest) = rests.get(place) {
        into.append(part(rest, length - FRONT_LENGTH));
    }
}

/// The lane of a packet that begins with these bytes.
fn lane_of(bytes: &[u8; FRONT_LENGTH]) -> Priority
    ensures value { result ≡ lane_of bytes.now }
{
    priority_of(u16::from_be_bytes([bytes[0], bytes[1]]))
}

impl Latest {
    /// No packets yet. It takes the memory for all that it will ever hold.
    pub(crate) fn new(alloc: Global) -> Result<Latest, NoMemory>
        ensures empty { IfOk result (λ latest. latest ≡ nothing_sent) }
    {
        let fronts = HeapCircularBuffer::with_capacity(alloc, WINDOW as usize)?;
        let rests = HeapCircularBuffer::with_capacity(alloc, WINDOW as usize)?;
        Ok(Latest {
            fronts,
            rests,
            sent: 0,
            rests_sent: 0,
        })
    }

    /// How many packets were sent.
    pub(crate) fn sent(&self) -> u64
        ensures value { result ≡ self.now.count }
    {
        self.sent
    }

    /// How many packets are held.
    pub(crate) fn len(&self) -> usize
        ensures value { result ≡ length self.now.last }
    {
        self.fronts.len()
    }

    /// The number of the first packet that is held, or of the next one where none is.
    pub(crate) fn first(&self) -> u64
        ensures value { result ≡ first_of self.now }
    {
        self.sent - self.fronts.len() as u64
    }

    /// Adds a packet. The first one goes where as many are held as may be.
    pub(crate) fn push(&mut self, direction: Direction, bytes: &[u8])
        requires some { 2 ≤ length bytes.now }
        requires most { length bytes.now ≤ MAX_PACKET_BYTES }
        requires countable { self.old.count < 2 ^ 63 }
        ensures value { self.new
            ≡ with_packet (record { direction = direction; bytes = bytes.now }) self.old }
    {
        self.make_room();
        self.add(direction, bytes);
    }

    /// Lets the first packet go where as many are held as may be.
    fn make_room(&mut self)
        ensures value { self.new ≡ with_room self.old }
    {
        if self.fronts.len() < WINDOW as usize {
            return;
        }
        if let Some(front) = self.fronts.pop_front() {
            pop_rest(&mut self.rests, &front);
        }
    }

    /// Adds a packet, for which there is room.
    fn add(&mut self, direction: Direction, bytes: &[u8])
        requires some { 2 ≤ length bytes.now }
        requires most { length bytes.now ≤ MAX_PACKET_BYTES }
        requires countable { self.old.count < 2 ^ 63 }
        requires room { length self.old.last < WINDOW }
        ensures value { self.new
            ≡ added (record { direction = direction; bytes = bytes.now }) self.old }
    {
        let front = Front {
            direction,
            length: bytes.len() as u16,
            rests_before: self.rests_sent,
            bytes: front_of(bytes),
        };
        self.rests_sent += push_rest(&mut self.rests, bytes);
        self.fronts.push_back(front);
        self.sent += 1;
    }

    /// The direction and the lane of the packet at this place of those that are held.
    pub(crate) fn tag(&self, place: usize) -> Option<Tag>
        ensures value { result ≡ option_map tag_of (slice_get self.now.last place) }
    {
        match self.fronts.get(place) {
            None => None,
            Some(front) => Some(Tag {
                direction: front.direction,
                lane: lane_of(&front.bytes),
            }),
        }
    }

    /// Makes `into` the packet at this place of those that are held.
    pub(crate) fn copy(&self, place: usize, into: &mut Packet)
        requires { place < length self.now.last }
        ensures value { option_map (λ s. s.bytes) (slice_get self.now.last place) ≡ Some into.new }
    {
        let Some(front) = self.fronts.get(place) else {
            return;
        };
        let first = self.rests_sent - self.rests.len() as u64;
        let place = (front.rests_before - first) as usize;
        copy_packet(front, &self.rests, place, into);
    }
}
