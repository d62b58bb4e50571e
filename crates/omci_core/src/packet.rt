//! Packets, and lists of packets.

ghost use Rattle.std.specs.Prelude.{◌≡◌, ◌==◌, ◌+◌, ◌<◌, ◌≤◌, [], ◌∷◌, ◌++◌, length, OnOk, OnErr, slice_get};

use crate::arrays::put_at;
use crate::errors::NoMemory;
use frame_spec::MAX_PACKET_BYTES;
use std::alloc::Global;
use std::fmt;
use std::marker::Model;

/// A packet of the OMCI channel: at most 1,980 bytes, in place. Contracts see the list of its
/// bytes.
#[derive(Drop)]
pub struct Packet {
    bytes: [u8; MAX_PACKET_BYTES],
    len: usize,
}

impl Model for Packet {
    ghost use Rattle.std.specs.Prelude.{ℕ, ◌≤◌, List, take};
    ghost use Rattle.frame_spec.specs.declared.TheConstants.{MAX_PACKET_BYTES};

    ghost Value = { List ℕ };

    ghost view = { λ p. take p.len p.bytes };

    ghost invariant = { λ p. p.len ≤ MAX_PACKET_BYTES };
}

impl Packet {
    /// A packet of no bytes.
    pub fn new() -> Packet
        ensures empty { result ≡ [] }
    {
        Packet {
            bytes: [0; MAX_PACKET_BYTES],
            len: 0,
        }
    }

    /// The packet's bytes.
    pub fn bytes(&self) -> &[u8]
        ensures value { result.now ≡ self.now }
        ensures bound { length self.now ≤ MAX_PACKET_BYTES }
    {
        &self.bytes[..self.len]
    }

    /// How many bytes the packet has.
    pub fn len(&self) -> usize
        ensures value { result ≡ length self.now }
        ensures bound { result ≤ MAX_PACKET_BYTES }
    {
        self.len
    }

    /// Whether the packet has no byte.
    pub fn is_empty(&self) -> bool
        ensures value { result ≡ (length self.now == 0) }
    {
        self.len == 0
    }

    /// Takes every byte away.
    pub fn clear(&mut self)
        ensures empty { self.new ≡ [] }
    {
        self.len = 0;
    }

    /// Makes these the packet's bytes, in place of those that it had.
    pub fn put(&mut self, bytes: &[u8])
        requires { length bytes.now ≤ MAX_PACKET_BYTES }
        ensures replaced { self.new ≡ bytes.now }
    {
        put_at(&mut self.bytes, 0, bytes);
        self.len = bytes.len();
    }

    /// Adds these bytes at the packet's end.
    pub fn append(&mut self, bytes: &[u8])
        requires { length self.old + length bytes.now ≤ MAX_PACKET_BYTES }
        ensures appended { self.new ≡ self.old ++ bytes.now }
    {
        put_at(&mut self.bytes, self.len, bytes);
        self.len += bytes.len();
    }
}

impl Default for Packet {
    ghost is_default = { λ packet. packet ≡ [] };

    fn default() -> Packet {
        Packet::new()
    }
}

impl fmt::Debug for Packet {
    fn fmt<W: fmt::Write>(&self, f: &mut fmt::Formatter<W>) -> fmt::Result {
        fmt::Debug::fmt(&self.bytes(), f)
    }
}

/// A list of packets. Contracts see a list of lists of bytes. The room of packets that were taken
/// away is kept, and the next ones are written into it.
#[derive(Drop)]
pub struct Packets {
    /// The packets, and after them those that were taken away.
    packets: Vec<Packet>,
    /// How many packets there are.
    count: usize,
}

impl Model for Packets {
    ghost use Rattle.std.specs.Prelude.{ℕ, ◌≤◌, List, length, take};

    ghost Value = { List (List ℕ) };

    ghost view = { λ p. take p.count p.packets.items };

    ghost invariant = { λ p. p.count ≤ length p.packets.items };
}

impl Packets {
    /// No packets.
    pub fn new(alloc: Global) -> Packets
        ensures empty { result ≡ [] }
    {
        Packets {
            packets: Vec::new(alloc),
            count: 0,
        }
    }

    /// Adds the packet at the end. `NoMemory` where there is no room for it; the list is then as it
    /// was.
    pub fn push(&mut self, packet: Packet) -> Result<(), NoMemory>
        ensures ok { OnOk result (self.new ≡ self.old ++ packet ∷ []) }
        ensures err { OnErr result (self.new ≡ self.old) }
    {
        self.push_bytes(packet.bytes())
    }

    /// Adds a packet of these bytes at the end. `NoMemory` where there is no room for it; the list
    /// is then as it was.
    pub fn push_bytes(&mut self, bytes: &[u8]) -> Result<(), NoMemory>
        requires { length bytes.now ≤ MAX_PACKET_BYTES }
        ensures ok { OnOk result (self.new ≡ self.old ++ bytes.now ∷ []) }
        ensures err { OnErr result (self.new ≡ self.old) }
    {
        if self.count == self.packets.len() {
            self.packets.push(Packet::new())?;
        }
        self.packets[self.count].put(bytes);
        self.count += 1;
        Ok(())
    }

    /// How many packets there are.
    pub fn len(&self) -> usize
        ensures value { result ≡ length self.now }
    {
        self.count
    }

    /// Whether there is no packet.
    pub fn is_empty(&self) -> bool
        ensures value { result ≡ (length self.now == 0) }
    {
        self.count == 0
    }

    /// The packet at this place, counted from 0.
    pub fn get(&self, place: usize) -> &Packet
        requires { place < length self.now }
        ensures value { slice_get self.now place ≡ Some result.now }
    {
        &self.packets[place]
    }

    /// Takes every packet away.
    pub fn clear(&mut self)
        ensures empty { self.new ≡ [] }
    {
        self.count = 0;
    }
}

impl fmt::Debug for Packets {
    fn fmt<W: fmt::Write>(&self, f: &mut fmt::Formatter<W>) -> fmt::Result {
        fmt::Debug::fmt(&&self.packets[..self.count], f)
    }
}
