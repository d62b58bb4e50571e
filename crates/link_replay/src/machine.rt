//! The two ends, each on or off, and the link between them; and what the manager is asked for.

ghost use Rattle.std.specs.Prelude.{◌≡◌, ◌≢◌, ◌<◌, ◌++◌, [], length, OnOk};
ghost use Rattle.frame_spec.specs.Baseline.{frame_of};
ghost use Rattle.message_spec.specs.Reading.{RequestWindow, IsWindow};
ghost use Rattle.link_spec.specs.Held.{held_sent};
ghost use Rattle.manager_spec.specs.declared.Refusal.TheVariants as why;
ghost use Rattle.manager_spec.specs.Submitting.{after_probe, after_submit, after_check, after_resync, after_audit, after_image};
ghost use Rattle.world_spec.specs.declared.Effect.TheVariants as effect;
ghost use Rattle.world_spec.specs.Ends.{Ends, submission, manager_got, manager_ticks};
ghost use Rattle.world_spec.specs.Trace.{line_text};
ghost use Rattle.olt_manager.specs.State.{AreFrames};
ghost use Rattle.link_replay.specs.Seen.{EndsStand, Follows, copy_in, alarms_in, reports_in, without_reports, with_downs, downs_text};
ghost use Rattle.trace_lines.specs.Reports.{reports_text};
ghost use Rattle.frame_spec.specs.declared.TheConstants.{FRAME_BYTES};

use link_lanes::Lanes;
use link_spec::Direction;
use manager_orders::Asked;
use manager_spec::Refusal;
use olt_manager::{Image, Manager};
use omci_core::{NoMemory, Packet, Packets, Priority};
use omci_frames::frame_at;
use onu_agent::Agent;
use slot_disk::MemDisk;
use std::alloc::Global;
use std::marker::Model;
use trace_lines::{Lines, push_line, push_reports, push_sent_line};
use world_spec::Effect;

/// No link carries more packets: one past them is refused as if memory had run out. No script is
/// long enough to come there.
const MOST_PACKETS: u64 = 1 << 62;

/// Both ends, each on or off, and the link between them, as the events of a script leave them. A
/// `World` holds it, and each of its events changes it.
#[derive(Drop)]
pub struct Machine {
    pub alloc: Global,
    pub event: u64,
    pub lives: u64,
    /// How many bytes the unit's disk has.
    pub length: u64,
    pub agent: Option<Agent<MemDisk>>,
    /// The disk of a unit that is off.
    pub disk: Option<MemDisk>,
    pub manager: Option<Manager>,
    pub link: Lanes,
}

impl Model for Machine {
    ghost use Rattle.std.specs.Prelude.{option_map};
    ghost use Rattle.link_replay.specs.Seen.{Seen};

    ghost Value = { Seen };

    ghost view = { λ m. record {
      event = m.event;
      lives = m.lives;
      length = m.length;
      unit = m.agent;
      disk = m.disk;
      manager = option_map (λ a. a.manager) m.manager;
      held = m.link;
    } };
}

/// What a script says of a download: the slot, the sections asked for in a window, and the check
/// value in the place of the image's own.
#[derive(Clone, Copy)]
pub struct Order {
    pub slot: u8,
    pub window: u16,
    pub crc: Option<u32>,
}

impl Order {
    /// A download into that slot.
    pub fn new(slot: u8, window: u16, crc: Option<u32>) -> Order
        ensures value { result ≡ record { slot = slot; window = window; crc = crc } }
    {
        Order { slot, window, crc }
    }
}

/// Room for the packet that comes in an event and for what is sent in it, used again at the next.
#[derive(Drop)]
pub struct Outbox {
    pub came: Packet,
    pub reply: Packet,
    pub packets: Packets,
}

impl Outbox {
    pub fn new(alloc: Global) -> Outbox {
        Outbox {
            came: Packet::new(),
            reply: Packet::new(),
            packets: Packets::new(alloc),
        }
    }
}

impl Machine {
    /// Appends the line of an effect.
    pub fn show(&self, effect: &Effect, out: &mut Lines) -> Result<(), NoMemory>
        ensures line { OnOk result (out.new ≡ out.old ++ line_text self.now.event effect.now) }
    {
        push_line(out, self.event, effect)
    }

    /// Puts a packet onto the link, and appends its line.
    pub fn send(
        &mut self,
        direction: Direction,
        packet: &Packet,
        out: &mut Lines,
    ) -> Result<(), NoMemory>
        requires whole { length packet.now ≡ FRAME_BYTES }
        ensures machine { OnOk result (self.new ≡ record self.old {
          held = held_sent (record { direction = direction; bytes = packet.now }) self.old.held;
        }) }
        ensures line { OnOk result (out.new ≡ out.old ++ line_text self.old.event
            (effect.PacketSent self.old.held.count direction (frame_of packet.now))) }
    {
        if self.link.sent() >= MOST_PACKETS {
            return Err(NoMemory);
        }
        let number = self.link.send(direction == Direction::Down, packet);
        let frame = frame_at(packet.bytes());
        push_sent_line(out, self.event, number, direction, &frame)
    }

    /// Sends packets down, one after the other.
    fn send_down(&mut self, packets: &Packets, out: &mut Lines) -> Result<(), NoMemory>
        requires whole { AreFrames packets.now }
        ensures machine { OnOk result (self.new
            ≡ record self.old { held = with_downs packets.now self.old.held }) }
        ensures lines { OnOk result (out.new ≡ out.old
            ++ downs_text self.old.event self.old.held.count packets.now) }
    {
        for place in 0..packets.len() {
            self.send(Direction::Down, packets.get(place), out)?;
        }
        Ok(())
    }

    // ---- the manager

    /// Takes the manager's reports out, each a line, and then sends its packets.
    fn after_manager(&mut self, packets: &Packets, out: &mut Lines) -> Result<(), NoMemory>
        requires whole { AreFrames packets.now }
        ensures machine { OnOk result (self.new ≡ record self.old {
          manager = without_reports self.old.manager;
          held = with_downs packets.now self.old.held;
        }) }
        ensures lines { OnOk result (out.new ≡ out.old
            ++ (reports_text self.old.event (copy_in self.old.manager) (alarms_in self.old.manager)
            (reports_in self.old.manager)
            ++ downs_text self.old.event self.old.held.count packets.now)) }
    {
        if let Some(manager) = &mut self.manager {
            push_reports(manager, self.event, out)?;
        }
        self.send_down(packets, out)?;
        Ok(())
    }

    /// Appends the line of a command that was not submitted.
    #[inline(never)]
    fn refuse(&self, refusal: Refusal, out: &mut Lines) -> Result<(), NoMemory>
        ensures refused { OnOk result (refusal ≢ why.NoMemory) }
        ensures line { OnOk result (out.new ≡ out.old
            ++ line_text self.now.event (effect.Refused refusal)) }
    {
        match refusal {
            Refusal::NoMemory => Err(NoMemory),
            _ => self.show(&Effect::Refused(refusal), out),
        }
    }

    /// The manager probes a lane.
    #[inline(never)]
    pub fn probe(
        &mut self,
        lane: Priority,
        outbox: &mut Outbox,
        out: &mut Lines,
    ) -> Result<(), NoMemory>
        ensures follows { OnOk result ((e : Ends) → EndsStand self.old e
            → Follows (submission (after_probe lane) e.manager e) e self.old self.new out.old
            out.new) }
    {
        let Some(manager) = &mut self.manager else {
            return self.show(&Effect::NotEnabled, out);
        };
        outbox.packets.clear();
        match manager.probe(lane, &mut outbox.packets) {
            Ok(()) => self.after_manager(&outbox.packets, out)?,
            Err(refusal) => self.refuse(refusal, out)?,
        }
        Ok(())
    }

    /// The manager submits a request for an entity.
    pub fn submit(
        &mut self,
        asked: &Asked,
        outbox: &mut Outbox,
        out: &mut Lines,
    ) -> Result<(), NoMemory>
        requires window { RequestWindow asked.now.request }
        ensures follows { OnOk result ((e : Ends) → EndsStand self.old e
            → Follows (submission (after_submit asked.now.lane asked.now.entity asked.now.request)
            e.manager e) e self.old self.new out.old out.new) }
    {
        let Some(manager) = &mut self.manager else {
            return self.show(&Effect::NotEnabled, out);
        };
        outbox.packets.clear();
        match manager.submit(asked.lane, asked.entity, asked.request, &mut outbox.packets) {
            Ok(()) => self.after_manager(&outbox.packets, out)?,
            Err(refusal) => self.refuse(refusal, out)?,
        }
        Ok(())
    }

    /// The manager compares the unit's counter with its copy's.
    #[inline(never)]
    pub fn check(&mut self, outbox: &mut Outbox, out: &mut Lines) -> Result<(), NoMemory>
        ensures follows { OnOk result ((e : Ends) → EndsStand self.old e
            → Follows (submission after_check e.manager e) e self.old self.new out.old out.new) }
    {
        let Some(manager) = &mut self.manager else {
            return self.show(&Effect::NotEnabled, out);
        };
        outbox.packets.clear();
        match manager.check(&mut outbox.packets) {
            Ok(()) => self.after_manager(&outbox.packets, out)?,
            Err(refusal) => self.refuse(refusal, out)?,
        }
        Ok(())
    }

    /// The manager begins a resynchronisation.
    #[inline(never)]
    pub fn resync(&mut self, outbox: &mut Outbox, out: &mut Lines) -> Result<(), NoMemory>
        ensures follows { OnOk result ((e : Ends) → EndsStand self.old e
            → Follows (submission after_resync e.manager e) e self.old self.new out.old out.new) }
    {
        let Some(manager) = &mut self.manager else {
            return self.show(&Effect::NotEnabled, out);
        };
        outbox.packets.clear();
        match manager.resync(&mut outbox.packets) {
            Ok(()) => self.after_manager(&outbox.packets, out)?,
            Err(refusal) => self.refuse(refusal, out)?,
        }
        Ok(())
    }

    /// The manager begins an audit of the unit's alarms.
    #[inline(never)]
    pub fn audit(&mut self, outbox: &mut Outbox, out: &mut Lines) -> Result<(), NoMemory>
        ensures follows { OnOk result ((e : Ends) → EndsStand self.old e
            → Follows (submission after_audit e.manager e) e self.old self.new out.old out.new) }
    {
        let Some(manager) = &mut self.manager else {
            return self.show(&Effect::NotEnabled, out);
        };
        outbox.packets.clear();
        match manager.audit(&mut outbox.packets) {
            Ok(()) => self.after_manager(&outbox.packets, out)?,
            Err(refusal) => self.refuse(refusal, out)?,
        }
        Ok(())
    }

    /// The manager begins a download of an image into a slot of the unit.
    #[inline(never)]
    pub fn image(
        &mut self,
        order: &Order,
        image: &[u8],
        outbox: &mut Outbox,
        out: &mut Lines,
    ) -> Result<(), NoMemory>
        requires slot { order.now.slot < 2 }
        requires window { IsWindow order.now.window }
        ensures follows { OnOk result ((e : Ends) → EndsStand self.old e
            → Follows (submission (after_image order.now.slot order.now.window order.now.crc
            image.now) e.manager e) e self.old self.new out.old out.new) }
    {
        let Some(manager) = &mut self.manager else {
            return self.show(&Effect::NotEnabled, out);
        };
        let Ok(owned) = Image::new(self.alloc, image) else {
            return Err(NoMemory);
        };
        outbox.packets.clear();
        match manager.image(
            order.slot,
            order.window,
            order.crc,
            owned,
            &mut outbox.packets,
        ) {
            Ok(()) => self.after_manager(&outbox.packets, out)?,
            Err(refusal) => self.refuse(refusal, out)?,
        }
        Ok(())
    }

    /// Bytes come to the manager.
    pub fn to_manager(
        &mut self,
        bytes: &[u8],
        packets: &mut Packets,
        out: &mut Lines,
    ) -> Result<(), NoMemory>
        ensures follows { OnOk result ((e : Ends) → EndsStand self.old e
            → Follows (manager_got [] bytes.now e.manager e) e self.old self.new out.old out.new) }
    {
        let Some(manager) = &mut self.manager else {
            return self.show(&Effect::NotEnabled, out);
        };
        packets.clear();
        manager.packet(bytes, packets)?;
        self.after_manager(packets, out)?;
        Ok(())
    }

    /// A second passes for the manager.
    pub fn tick_manager(&mut self, outbox: &mut Outbox, out: &mut Lines) -> Result<(), NoMemory>
        ensures follows { OnOk result ((e : Ends) → EndsStand self.old e
            → Follows (manager_ticks e.manager e) e self.old self.new out.old out.new) }
    {
        let Some(manager) = &mut self.manager else {
            return Ok(());
        };
        outbox.packets.clear();
        manager.tick(&mut outbox.packets)?;
        self.after_manager(&outbox.packets, out)?;
        Ok(())
    }
}
