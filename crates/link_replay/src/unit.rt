//! The unit: its disk and its starts, what comes to it and what it notices, seconds, and power.

ghost use Rattle.std.specs.Prelude.{◌≡◌, ◌≢◌, ◌≤◌, ◌++◌, [], ℕ, length, Option, Some, OnOk, IfOk};
ghost use Rattle.slot_spec.specs.Slots.{SlotPair};
ghost use Rattle.slot_disk.specs.Memory.{MemState};
ghost use Rattle.script_spec.specs.Script.{IsHeader};
ghost use Rattle.unit_spec.specs.declared.Did.TheVariants as done;
ghost use Rattle.unit_spec.specs.declared.Noticed.TheVariants.{Sent};
ghost use Rattle.unit_spec.specs.Onu.{Onu, onu_started, packet_deed};
ghost use Rattle.unit_spec.specs.Noticing.{onu_sensed, onu_alarmed};
ghost use Rattle.image_store.specs.declared.state.State.{State as Form};
ghost use Rattle.image_store.specs.Stands.{state_disk};
ghost use Rattle.onu_agent.specs.State.{State as Running};
ghost use Rattle.world_spec.specs.Happenings.{held_read};
ghost use Rattle.world_spec.specs.Ends.{Ends, factory_slots, unit_starts, unit_got, unit_notices, notice_sent, second, unit_ticks, cut_amid as cut_amid_of, cut_unit, cut_manager, start_unit, start_manager};
ghost use Rattle.world_spec.specs.Nodes.{first_nodes};
ghost use Rattle.world_spec.specs.Trace.{lines_text};
ghost use Rattle.replay_script.specs.Events.{header_of};
ghost use Rattle.tci_spec.specs.Tci.{IsNumber};
ghost use Rattle.link_replay.specs.Seen.{Stands, EndsStand, Follows, OffStands, unstarted, Woken, DiskStands, disk_bytes, life_text, did_text, did_held};
ghost use Rattle.frame_spec.specs.declared.TheConstants.{FRAME_BYTES};

use crate::machine::{Machine, Outbox};
use alarm_spec::BITMAP_BYTES;
use image_slots::Slots;
use link_lanes::Lanes;
use link_spec::Direction;
use olt_manager::Manager;
use omci_core::{Boot, EntityId, NoMemory, Packet};
use onu_agent::{Agent, Did};
use replay_script::Header;
use slot_disk::{MemDisk, Trap};
use slot_spec::{HEADER_BYTES, Pick};
use std::alloc::Global;
use trace_lines::{Lines, push_carried_line};
use unit_spec::Noticed;
use world_spec::Effect;

/// A disk that stands for the factory's image in slot 0, committed, and none in slot 1.
fn factory_disk(alloc: Global, length: u64, header: &Header) -> Result<MemDisk, NoMemory>
    requires ranges { IsHeader (header_of header.now) }
    requires length { length ≡ disk_bytes header.now.room }
    ensures stands { IfOk result
        (λ disk. DiskStands header.now.room length disk (factory_slots header.now.factory)) }
{
    let disk = MemDisk::new(alloc, length)?;
    match Slots::format(disk, header.room, header.factory.bytes()) {
        Ok(slots) => Ok(slots.unmount()),
        Err(_) => Err(NoMemory),
    }
}

impl Machine {
    /// Both ends as a script's header starts them, over an empty link.
    pub fn start(alloc: Global, header: &Header) -> Result<Machine, NoMemory>
        requires ranges { IsHeader (header_of header.now) }
        ensures first { IfOk result (λ m. Stands m (first_nodes (header_of header.now))) }
    {
        let length = HEADER_BYTES + 2 * u64::from(header.room);
        let disk = factory_disk(alloc, length, header)?;
        let mut machine = Machine::unstarted(alloc, length, disk, header)?;
        machine.start_agent(Boot::PowerUp)?;
        Ok(machine)
    }

    /// Both ends before the unit's first life.
    fn unstarted(
        alloc: Global,
        length: u64,
        disk: MemDisk,
        header: &Header,
    ) -> Result<Machine, NoMemory>
        requires ranges { IsHeader (header_of header.now) }
        ensures value { IfOk result
            (λ m. m ≡ unstarted length disk (header_of header.now)) }
    {
        Ok(Machine {
            alloc,
            event: 0,
            lives: 0,
            length,
            agent: None,
            disk: Some(disk),
            manager: Some(Manager::start(alloc, header.low, header.high)?),
            link: Lanes::new(alloc)?,
        })
    }

    /// The unit's next life, on its disk.
    fn start_agent(&mut self, boot: Boot) -> Result<(), NoMemory>
        ensures woken { OnOk result ((room : ℕ) (disk : MemState) (s : SlotPair)
            → self.old.disk ≡ Some disk → DiskStands room self.old.length disk s
            → Woken boot room s self.old self.new) }
    {
        let Some(disk) = self.disk.take() else {
            return Err(NoMemory);
        };
        let Some(lives) = self.lives.checked_add(1) else {
            return Err(NoMemory);
        };
        match Agent::start(self.alloc, disk, self.length, boot) {
            Ok(agent) => {
                self.agent = Some(agent);
                self.lives = lives;
                Ok(())
            }
            Err(_) => Err(NoMemory),
        }
    }

    /// The unit's next life, which finds the link empty, and its line.
    fn wake(&mut self, boot: Boot, out: &mut Lines) -> Result<(), NoMemory>
        ensures follows { OnOk result ((e : Ends) (s : SlotPair) → OffStands self.old e s
            → Follows (unit_starts boot s e) e self.old self.new out.old out.new) }
    {
        self.start_agent(boot)?;
        self.link.empty();
        self.start_line(out)?;
        Ok(())
    }

    /// Appends the line of the unit's present life, where it is on.
    pub fn start_line(&self, out: &mut Lines) -> Result<(), NoMemory>
        ensures line { OnOk result ((e : Ends) → EndsStand self.now e
            → out.new ≡ out.old ++ life_text e.event e.lives e.unit) }
    {
        let Some(agent) = &self.agent else {
            return Ok(());
        };
        let started = Effect::UnitStarted {
            life: self.lives,
            software: agent.software(),
        };
        self.show(&started, out)?;
        Ok(())
    }

    /// The unit is off, and its disk is kept.
    fn stop_unit(&mut self)
        ensures off { (e : Ends) (u : Onu) → EndsStand self.old e → e.unit ≡ Some u
            → OffStands self.new e u.store.slots }
        ensures held { self.new.held ≡ self.old.held }
    {
        let Some(agent) = self.agent.take() else {
            return;
        };
        self.disk = Some(agent.stop());
    }

    // ---- what comes to the unit

    /// Tells what the unit did with a packet: its reply goes up.
    fn tell_did(&mut self, did: Did, reply: &Packet, out: &mut Lines) -> Result<(), NoMemory>
        requires whole { did ≢ done.Dropped → did ≢ done.Held → length reply.now ≡ FRAME_BYTES }
        ensures machine { OnOk result
            (self.new ≡ record self.old { held = did_held did reply.now self.old.held }) }
        ensures lines { OnOk result (out.new ≡ out.old
            ++ did_text self.old.event self.old.held.count self.old.lives did reply.now) }
    {
        match did {
            Did::Dropped => self.show(&Effect::Dropped, out),
            Did::Held => self.show(&Effect::Held, out),
            Did::Kept => {
                self.show(&Effect::Kept, out)?;
                self.send(Direction::Up, reply, out)
            }
            Did::Carried { note } => {
                push_carried_line(out, self.event, self.lives)?;
                if let Some(note) = note {
                    self.show(&Effect::Noted(note), out)?;
                }
                self.send(Direction::Up, reply, out)
            }
        }
    }

    /// Bytes come to the unit.
    pub fn to_unit(
        &mut self,
        bytes: &[u8],
        reply: &mut Packet,
        out: &mut Lines,
    ) -> Result<(), NoMemory>
        ensures follows { OnOk result ((e : Ends) → EndsStand self.old e
            → Follows (unit_got [] bytes.now e.unit e) e self.old self.new out.old out.new) }
    {
        let Some(agent) = &mut self.agent else {
            return self.show(&Effect::NotEnabled, out);
        };
        let did = agent.packet(bytes, reply)?;
        self.tell_did(did, reply, out)?;
        Ok(())
    }

    /// Tells what became of what the unit noticed: its notice goes up.
    #[inline(never)]
    fn tell_noticed(
        &mut self,
        noticed: Noticed,
        packet: &Packet,
        out: &mut Lines,
    ) -> Result<(), NoMemory>
        requires whole { noticed ≡ Sent → length packet.now ≡ FRAME_BYTES }
        ensures machine { OnOk result (self.new ≡ record self.old {
          held = held_read (notice_sent noticed packet.now) self.old.held;
        }) }
        ensures lines { OnOk result (out.new ≡ out.old
            ++ lines_text self.old.event self.old.held.count (notice_sent noticed packet.now)) }
    {
        match noticed {
            Noticed::NotAllowed => self.show(&Effect::NotEnabled, out),
            Noticed::Same => Ok(()),
            Noticed::Sent => self.send(Direction::Up, packet, out),
        }
    }

    /// The unit measures an attribute's value.
    #[inline(never)]
    pub fn sense(
        &mut self,
        entity: EntityId,
        number: u8,
        value: &[u8],
        outbox: &mut Outbox,
        out: &mut Lines,
    ) -> Result<(), NoMemory>
        ensures follows { OnOk result ((e : Ends) → EndsStand self.old e
            → Follows (unit_notices (onu_sensed entity number value.now) e.unit e) e self.old
            self.new out.old out.new) }
    {
        let Some(agent) = &mut self.agent else {
            return self.show(&Effect::NotEnabled, out);
        };
        let noticed = agent.sense(entity, number, value, &mut outbox.reply)?;
        self.tell_noticed(noticed, &outbox.reply, out)?;
        Ok(())
    }

    /// The unit notices an entity's alarms.
    #[inline(never)]
    pub fn alarm(
        &mut self,
        entity: EntityId,
        bitmap: [u8; BITMAP_BYTES],
        outbox: &mut Outbox,
        out: &mut Lines,
    ) -> Result<(), NoMemory>
        ensures follows { OnOk result ((e : Ends) → EndsStand self.old e
            → Follows (unit_notices (onu_alarmed entity bitmap) e.unit e) e self.old self.new
            out.old out.new) }
    {
        let Some(agent) = &mut self.agent else {
            return self.show(&Effect::NotEnabled, out);
        };
        let noticed = agent.alarm(entity, bitmap, &mut outbox.reply)?;
        self.tell_noticed(noticed, &outbox.reply, out)?;
        Ok(())
    }

    // ---- seconds

    /// A second passes for the unit. One that leaves starts again.
    fn tick_unit(&mut self, out: &mut Lines) -> Result<(), NoMemory>
        ensures follows { OnOk result ((e : Ends) → EndsStand self.old e
            → Follows (unit_ticks e.unit e) e self.old self.new out.old out.new) }
    {
        let Some(agent) = &mut self.agent else {
            return Ok(());
        };
        let Some(boot) = agent.leaving() else {
            agent.tick();
            return Ok(());
        };
        self.stop_unit();
        self.wake(boot, out)?;
        Ok(())
    }

    /// A second passes.
    #[inline(never)]
    pub fn second(&mut self, outbox: &mut Outbox, out: &mut Lines) -> Result<(), NoMemory>
        ensures follows { OnOk result ((e : Ends) → EndsStand self.old e
            → Follows (second e) e self.old self.new out.old out.new) }
    {
        self.tick_manager(outbox, out)?;
        self.tick_unit(out)?;
        Ok(())
    }

    // ---- power

    /// Bytes come to the unit, and its power goes at that device call, or after them where it makes
    /// fewer. Nothing is answered.
    #[inline(never)]
    pub fn cut_amid(
        &mut self,
        call: u64,
        pick: Pick,
        bytes: &[u8],
        reply: &mut Packet,
    ) -> Result<(), NoMemory>
        requires counted { 1 ≤ call }
        ensures stands { OnOk result ((e : Ends) (u : Onu) → EndsStand self.old e → e.unit ≡ Some u
            → EndsStand self.new (cut_amid_of call pick (packet_deed bytes.now u) u e).ends) }
        ensures held { OnOk result (self.new.held ≡ self.old.held) }
    {
        let Some(agent) = self.agent.take() else {
            return Ok(());
        };
        let mut agent = agent;
        agent.rig(Trap::Fuse { call, pick });
        agent.packet(bytes, reply)?;
        let mut disk = agent.stop();
        disk.restore();
        disk.disarm();
        self.disk = Some(disk);
        Ok(())
    }

    /// The unit's power goes.
    #[inline(never)]
    pub fn cut_unit(&mut self, out: &mut Lines) -> Result<(), NoMemory>
        ensures follows { OnOk result ((e : Ends) → EndsStand self.old e
            → Follows (cut_unit e.unit e) e self.old self.new out.old out.new) }
    {
        if self.agent.is_none() {
            return self.show(&Effect::NotEnabled, out);
        }
        self.stop_unit();
        Ok(())
    }

    /// The manager's power goes.
    #[inline(never)]
    pub fn cut_manager(&mut self, out: &mut Lines) -> Result<(), NoMemory>
        ensures follows { OnOk result ((e : Ends) → EndsStand self.old e
            → Follows (cut_manager e.manager e) e self.old self.new out.old out.new) }
    {
        if self.manager.is_none() {
            return self.show(&Effect::NotEnabled, out);
        }
        self.manager = None;
        Ok(())
    }

    /// The unit starts its next life, and finds the link empty.
    #[inline(never)]
    pub fn start_unit(&mut self, out: &mut Lines) -> Result<(), NoMemory>
        ensures follows { OnOk result ((e : Ends) → EndsStand self.old e
            → Follows (start_unit e.unit e) e self.old self.new out.old out.new) }
    {
        if self.agent.is_some() {
            return self.show(&Effect::NotEnabled, out);
        }
        self.wake(Boot::PowerUp, out)?;
        Ok(())
    }

    /// The manager starts with these numbers of its lanes, and finds the link empty.
    #[inline(never)]
    pub fn start_manager(&mut self, low: u16, high: u16, out: &mut Lines) -> Result<(), NoMemory>
        requires low { IsNumber low }
        requires high { IsNumber high }
        ensures follows { OnOk result ((e : Ends) → EndsStand self.old e
            → Follows (start_manager low high e.manager e) e self.old self.new out.old out.new) }
    {
        if self.manager.is_some() {
            return self.show(&Effect::NotEnabled, out);
        }
        self.manager = Some(Manager::start(self.alloc, low, high)?);
        self.link.empty();
        Ok(())
    }
}
