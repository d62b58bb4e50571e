//! The replies that a unit keeps: for each priority the one that it gave last, with the TCI of the
//! request that it answers (ITU-T G.988, clause 11.2.2). A request that comes again is answered
//! from here. No call takes memory.
#![tactic(auto)]

ghost use Rattle.std.specs.Prelude.{◌≡◌, ◌≤◌, length, option_copied, IfSome, None, Some};
ghost use Rattle.frame_spec.specs.declared.TheConstants.{MAX_PACKET_BYTES};
ghost use Rattle.retry_spec.specs.Kept.{nothing_kept, if_answers, kept_for, kept_with};

use omci_core::{MAX_PACKET_BYTES, Packet, Priority, priority_of};
use std::marker::Model;

/// Room for the reply of one priority. The packet is there once a request's TCI is.
#[derive(Drop)]
struct Place {
    request: Option<u16>,
    packet: Packet,
}

impl Model for Place {
    ghost use Rattle.std.specs.Prelude.{Option, option_map};
    ghost use Rattle.retry_spec.specs.Kept.{Reply};

    ghost Value = { Option Reply };

    ghost view = { λ p. option_map (λ tci. record { tci = tci; packet = p.packet }) p.request };
}

impl Place {
    fn empty() -> Place
        ensures value { result ≡ None }
    {
        Place {
            request: None,
            packet: Packet::new(),
        }
    }

    fn reply_to(&self, tci: u16) -> Option<&[u8]>
        ensures value { option_copied result ≡ if_answers tci self.now }
        ensures bound { IfSome result (λ reply. length reply.now ≤ MAX_PACKET_BYTES) }
    {
        if self.request == Some(tci) {
            Some(self.packet.bytes())
        } else {
            None
        }
    }

    fn put(&mut self, tci: u16, reply: &[u8])
        requires { length reply.now ≤ MAX_PACKET_BYTES }
        ensures value { self.new ≡ Some (record { tci = tci; packet = reply.now }) }
    {
        self.request = Some(tci);
        self.packet.put(reply);
    }
}

/// The two kept replies of a unit. [`keep`](Kept::keep) alone changes them.
#[derive(Drop)]
pub struct Kept {
    low: Place,
    high: Place,
}

impl Model for Kept {
    ghost use Rattle.retry_spec.specs.Kept as retry;

    ghost Value = { retry.Kept };

    ghost view = { λ k. record { low = k.low; high = k.high } };
}

impl Kept {
    /// Nothing is kept.
    pub fn new() -> Kept
        ensures nothing { result ≡ nothing_kept }
    {
        Kept {
            low: Place::empty(),
            high: Place::empty(),
        }
    }

    /// The kept reply to the request of this TCI. None exactly where the TCI isn't the one that was
    /// kept last in its priority.
    #[tactic(auto, unfolding(retry_spec::specs::Kept::kept_for))]
    pub fn find(&self, tci: u16) -> Option<&[u8]>
        ensures value { option_copied result ≡ kept_for tci self.now }
        ensures bound { IfSome result (λ reply. length reply.now ≤ MAX_PACKET_BYTES) }
    {
        match priority_of(tci) {
            Priority::Low => self.low.reply_to(tci),
            Priority::High => self.high.reply_to(tci),
        }
    }

    /// Keeps the reply to the request of this TCI, in place of the one that was kept in its
    /// priority. It has at most 1,980 bytes. The other priority's is left alone.
    #[tactic(auto, unfolding(retry_spec::specs::Kept::kept_with))]
    pub fn keep(&mut self, tci: u16, reply: &[u8])
        requires { length reply.now ≤ MAX_PACKET_BYTES }
        ensures kept { self.new ≡ kept_with tci reply.now self.old }
    {
        match priority_of(tci) {
            Priority::Low => self.low.put(tci, reply),
            Priority::High => self.high.put(tci, reply),
        }
    }
}
