//! What the link delivers, one packet or several, and bytes that nobody sent.

ghost use Rattle.std.specs.Prelude.{◌≡◌, ◌≤◌, [], is_some, OnOk};
ghost use Rattle.link_spec.specs.Link.{Link};
ghost use Rattle.link_spec.specs.Held.{held_of, held_allowed, held_fresh};
ghost use Rattle.world_spec.specs.Ends.{Ends, noise};
ghost use Rattle.world_spec.specs.Nodes.{delivery_of, delivery, cut_of, cut_delivery, flow};
ghost use Rattle.link_replay.specs.Seen.{EndsStand, Follows, goes_down};

use crate::machine::{Machine, Outbox};
use link_spec::Direction;
use omci_core::NoMemory;
use slot_spec::Pick;
use trace_lines::Lines;
use world_spec::Effect;

impl Machine {
    /// The packet of that number is delivered, where it may come and its end is on.
    pub fn deliver(
        &mut self,
        number: u64,
        outbox: &mut Outbox,
        out: &mut Lines,
    ) -> Result<(), NoMemory>
        ensures follows { OnOk result ((e : Ends) → EndsStand self.old e → Follows
            (delivery_of (held_allowed number self.old.held) number e) e self.old self.new out.old
            out.new) }
    {
        if !self.link.allowed(number) {
            return self.show(&Effect::NotEnabled, out);
        }
        if self.link.down(number) {
            if self.agent.is_none() {
                return self.show(&Effect::NotEnabled, out);
            }
            self.link.take(number, &mut outbox.came);
            self.to_unit(outbox.came.bytes(), &mut outbox.reply, out)?;
        } else {
            if self.manager.is_none() {
                return self.show(&Effect::NotEnabled, out);
            }
            self.link.take(number, &mut outbox.came);
            self.to_manager(outbox.came.bytes(), &mut outbox.packets, out)?;
        }
        Ok(())
    }

    /// Whether the packet of that number may come to the unit.
    fn comes_down(&self, number: u64) -> bool
        ensures value { result ≡ goes_down (held_allowed number self.now.held) }
    {
        self.link.allowed(number) && self.link.down(number)
    }

    /// The packet of that number is delivered to the unit, where it may come, and the unit's power
    /// goes at that device call, or after the delivery where it makes fewer. Nothing is answered.
    #[inline(never)]
    fn cut_in(
        &mut self,
        number: u64,
        call: u64,
        pick: Pick,
        outbox: &mut Outbox,
        out: &mut Lines,
    ) -> Result<(), NoMemory>
        requires counted { 1 ≤ call }
        ensures follows { OnOk result ((e : Ends) → EndsStand self.old e → Follows
            (cut_of call pick (held_allowed number self.old.held) number e) e self.old self.new
            out.old out.new) }
    {
        if !self.comes_down(number) {
            return self.show(&Effect::NotEnabled, out);
        }
        if self.agent.is_none() {
            return self.show(&Effect::NotEnabled, out);
        }
        self.link.take(number, &mut outbox.came);
        self.cut_amid(call, pick, outbox.came.bytes(), &mut outbox.reply)?;
        self.show(&Effect::Cut, out)?;
        Ok(())
    }

    /// Bytes come that nobody sent.
    #[tactic(auto, unfolding(world_spec::specs::Ends::noise))]
    #[inline(never)]
    pub fn noise(
        &mut self,
        direction: Direction,
        bytes: &[u8],
        outbox: &mut Outbox,
        out: &mut Lines,
    ) -> Result<(), NoMemory>
        ensures follows { OnOk result ((e : Ends) → EndsStand self.old e
            → Follows (noise direction bytes.now e) e self.old self.new out.old out.new) }
    {
        match direction {
            Direction::Down => self.to_unit(bytes, &mut outbox.reply, out)?,
            Direction::Up => self.to_manager(bytes, &mut outbox.packets, out)?,
        }
        Ok(())
    }

    // ---- deliveries one after the other

    /// The number of the oldest fresh packet.
    fn oldest_fresh(&self) -> Option<u64>
        ensures value { result ≡ held_fresh (is_some self.now.unit) (is_some self.now.manager)
            self.now.held }
    {
        self.link
            .fresh(self.agent.is_some(), self.manager.is_some())
    }

    /// The oldest fresh packet is delivered, so many times or until there is none.
    pub fn flow(&mut self, times: u32, outbox: &mut Outbox, out: &mut Lines) -> Result<(), NoMemory>
        ensures follows { OnOk result ((e : Ends) → EndsStand self.old e → (l : Link)
            → self.old.held ≡ held_of l
            → Follows (flow times (record { ends = e; link = l })) e self.old self.new out.old
            out.new) }
    {
        for _done in 0..times {
            match self.oldest_fresh() {
                None => return Ok(()),
                Some(number) => self.deliver(number, outbox, out)?,
            }
        }
        Ok(())
    }

    /// The packet of that number is delivered, where it may come from the link that this is held
    /// of.
    pub fn deliver_there(
        &mut self,
        number: u64,
        outbox: &mut Outbox,
        out: &mut Lines,
    ) -> Result<(), NoMemory>
        ensures follows { OnOk result ((e : Ends) → EndsStand self.old e → (l : Link)
            → self.old.held ≡ held_of l
            → Follows (delivery number (record { ends = e; link = l })) e self.old self.new out.old
            out.new) }
    {
        self.deliver(number, outbox, out)?;
        Ok(())
    }

    /// The same of a delivery amid which the power of the unit goes.
    pub fn cut_in_there(
        &mut self,
        number: u64,
        call: u64,
        pick: Pick,
        outbox: &mut Outbox,
        out: &mut Lines,
    ) -> Result<(), NoMemory>
        requires counted { 1 ≤ call }
        ensures follows { OnOk result ((e : Ends) → EndsStand self.old e → (l : Link)
            → self.old.held ≡ held_of l
            → Follows (cut_delivery call pick number (record { ends = e; link = l })) e self.old
            self.new out.old out.new) }
    {
        self.cut_in(number, call, pick, outbox, out)?;
        Ok(())
    }
}
