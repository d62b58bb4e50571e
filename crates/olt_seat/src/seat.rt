//! The manager in its seat: its turns, the packets that it sends, and the lines of what it does.

ghost use Rattle.std.specs.Prelude.{◌≡◌, ◌≢◌, ◌+◌, ◌<◌, ◌≤◌, ◌++◌, [], ◌∷◌, true, length, take, OnOk, OnErr, IfOk, IfErr, MatchResult};
ghost use Rattle.frame_spec.specs.Baseline.{frame_of};
ghost use Rattle.frame_spec.specs.declared.TheConstants.{FRAME_BYTES, MAX_PACKET_BYTES};
ghost use Rattle.link_spec.specs.declared.Direction.TheVariants.{Down};
ghost use Rattle.script_spec.specs.declared.Document.TheVariants as documents;
ghost use Rattle.script_spec.specs.Script.{IsAction, HasAction};
ghost use Rattle.manager_spec.specs.declared.Refusal.TheVariants as why;
ghost use Rattle.world_spec.specs.declared.Effect.TheVariants as effect;
ghost use Rattle.world_spec.specs.Trace.{line_text};
ghost use Rattle.turn_spec.specs.Arrivals.{Came, Quiet};
ghost use Rattle.turn_spec.specs.OltTurns.{ordered, arrived, packets_in, olt_first};
ghost use Rattle.replay_script.specs.Events.{action_of};
ghost use Rattle.trace_lines.specs.Reports.{reports_text};
ghost use Rattle.olt_manager.specs.State.{AreFrames};
ghost use Rattle.omci_link.specs.Arrivals.{arrived as answered, HasPacketBound, IsFirst, left_after, sent_after};
ghost use Rattle.olt_seat.specs.Seat.{state_of, seat_ends, packets_after, SendsFront, downs_text, StopsLink, Plays, Hears, HearsInPart, Begins, opening_packets};

use crate::fault::OltFault;
use link_spec::Direction;
use manager_orders::ask;
use manager_spec::Refusal;
use olt_manager::Manager;
use omci_core::{MAX_PACKET_BYTES, NoMemory, Packet, Packets};
use omci_frames::frame_at;
use omci_link::{Arrival, Link};
use replay_script::{Event, Orders};
use std::alloc::Global;
use std::marker::Model;
use trace_lines::{Lines, push_line, push_reports};
use world_spec::Effect;

/// A run sends no more packets: one past them is refused as if memory had run out. No run is long
/// enough to come there.
const MOST_PACKETS: u64 = 1 << 62;

/// The manager, the turns that were begun, the packets that were sent, and the orders given.
#[derive(Drop)]
pub struct Seat {
    alloc: Global,
    manager: Manager,
    turn: u32,
    sent: u64,
    given: usize,
}

impl Model for Seat {
    ghost use Rattle.olt_seat.specs.Seat.{Seat as Seated};

    ghost Value = { Seated };

    ghost view = { λ s. record {
      manager = s.manager.manager;
      turn = s.turn;
      sent = s.sent;
      given = s.given;
    } };
}

/// Room for a packet that comes and for those that are sent, used again in the next turn.
#[derive(Drop)]
pub struct Room {
    pub came: [u8; MAX_PACKET_BYTES],
    pub packets: Packets,
}

impl Room {
    /// Room in which nothing stands.
    pub fn new(alloc: Global) -> Room {
        Room {
            came: [0; MAX_PACKET_BYTES],
            packets: Packets::new(alloc),
        }
    }
}

// ---- the link

/// Sends a packet over the link.
fn send_over<L: Link>(link: &mut L, bytes: &[u8]) -> Result<(), OltFault>
    requires { length bytes.now ≤ MAX_PACKET_BYTES }
    ensures left { L.left link.new ≡ L.left link.old }
    ensures sent { MatchResult result (λ _. L.sent link.new
        ≡ sent_after bytes.now (L.sent link.old))
        (λ _. L.sent link.new ≡ L.sent link.old) }
    ensures kept { OnOk result (L.faults link.new ≡ L.faults link.old) }
    ensures cause { IfErr result (λ e. StopsLink e (L.faults link.old) (L.faults link.new)) }
{
    match link.send(bytes) {
        Ok(()) => Ok(()),
        Err(_) => Err(OltFault::Link),
    }
}

/// What the link gives next. A packet's bytes stand at the buffer's front.
fn listen<L: Link>(link: &mut L, into: &mut [u8; MAX_PACKET_BYTES]) -> Result<Arrival, OltFault>
    ensures bound { IfOk result (λ answer. HasPacketBound answer) }
    ensures first { IfOk result (λ answer. IsFirst (L.left link.old) (answered answer into.new)) }
    ensures left { MatchResult result (λ _. L.left link.new ≡ left_after (L.left link.old))
        (λ _. L.left link.new ≡ L.left link.old) }
    ensures sent { L.sent link.new ≡ L.sent link.old }
    ensures kept { OnOk result (L.faults link.new ≡ L.faults link.old) }
    ensures cause { IfErr result (λ e. StopsLink e (L.faults link.old) (L.faults link.new)) }
{
    match link.next(into) {
        Ok(answer) => Ok(answer),
        Err(_) => Err(OltFault::Link),
    }
}

/// So many bytes of the buffer's front.
fn front(buffer: &[u8; MAX_PACKET_BYTES], count: usize) -> &[u8]
    requires { count ≤ MAX_PACKET_BYTES }
    ensures value { result.now ≡ take count buffer.now }
{
    &buffer[..count]
}

impl Seat {
    /// A manager that starts with the orders' first numbers. No turn was begun, nothing was sent,
    /// and no order given.
    pub fn start(alloc: Global, orders: &Orders) -> Result<Seat, NoMemory>
        ensures first { IfOk result (λ s. state_of orders.now.actions s ≡ olt_first orders.now) }
    {
        let manager = Manager::start(alloc, orders.low(), orders.high())?;
        Ok(Seat {
            alloc,
            manager,
            turn: 0,
            sent: 0,
            given: 0,
        })
    }

    /// How many turns were taken.
    pub fn turns(&self) -> u32
        ensures value { result ≡ self.now.turn }
    {
        self.turn
    }

    /// How many orders were given.
    pub fn given(&self) -> usize
        ensures value { result ≡ self.now.given }
    {
        self.given
    }

    // ---- what the manager does

    /// Sends a packet, and appends its line.
    fn send<L: Link>(
        &mut self,
        packet: &Packet,
        lines: &mut Lines,
        link: &mut L,
    ) -> Result<(), OltFault>
        requires whole { length packet.now ≡ FRAME_BYTES }
        ensures seat { OnOk result (self.new ≡ record self.old { sent = self.old.sent + 1 }) }
        ensures lines { OnOk result (lines.new ≡ lines.old ++ line_text self.old.turn
            (effect.PacketSent self.old.sent Down (frame_of packet.now))) }
        ensures sent { OnOk result (L.sent link.new ≡ sent_after packet.now (L.sent link.old)) }
        ensures part { OnErr result
            (SendsFront (packet.now ∷ []) (L.sent link.old) (L.sent link.new)) }
        ensures left { L.left link.new ≡ L.left link.old }
        ensures kept { OnOk result (L.faults link.new ≡ L.faults link.old) }
        ensures cause { IfErr result (λ e. StopsLink e (L.faults link.old) (L.faults link.new)) }
    {
        if self.sent >= MOST_PACKETS {
            return Err(OltFault::NoMemory);
        }
        let whole = packet.bytes();
        let effect = Effect::PacketSent {
            number: self.sent,
            direction: Direction::Down,
            frame: frame_at(whole),
        };
        send_over(link, whole)?;
        self.sent += 1;
        push_line(lines, u64::from(self.turn), &effect)?;
        Ok(())
    }

    /// Sends packets, one after the other.
    fn send_all<L: Link>(
        &mut self,
        packets: &Packets,
        lines: &mut Lines,
        link: &mut L,
    ) -> Result<(), OltFault>
        requires whole { AreFrames packets.now }
        ensures seat { OnOk result
            (self.new ≡ record self.old { sent = self.old.sent + length packets.now }) }
        ensures lines { OnOk result (lines.new ≡ lines.old
            ++ downs_text self.old.turn self.old.sent packets.now) }
        ensures sent { OnOk result (L.sent link.new ≡ packets_after packets.now (L.sent link.old)) }
        ensures part { OnErr result (SendsFront packets.now (L.sent link.old) (L.sent link.new)) }
        ensures left { L.left link.new ≡ L.left link.old }
        ensures kept { OnOk result (L.faults link.new ≡ L.faults link.old) }
        ensures cause { IfErr result (λ e. StopsLink e (L.faults link.old) (L.faults link.new)) }
    {
        for place in 0..packets.len() {
            self.send(packets.get(place), lines, link)?;
        }
        Ok(())
    }

    /// Takes the manager's reports out, each a line, and then sends its packets.
    fn after_manager<L: Link>(
        &mut self,
        packets: &Packets,
        lines: &mut Lines,
        link: &mut L,
    ) -> Result<(), OltFault>
        requires whole { AreFrames packets.now }
        ensures seat { OnOk result (self.new ≡ record self.old {
          manager = record self.old.manager { reports = [] };
          sent = self.old.sent + length packets.now;
        }) }
        ensures lines { OnOk result (lines.new ≡ lines.old
            ++ (reports_text self.old.turn self.old.manager.copy self.old.manager.table.rows
            self.old.manager.reports
            ++ downs_text self.old.turn self.old.sent packets.now)) }
        ensures sent { OnOk result (L.sent link.new ≡ packets_after packets.now (L.sent link.old)) }
        ensures part { OnErr result (SendsFront packets.now (L.sent link.old) (L.sent link.new)) }
        ensures left { L.left link.new ≡ L.left link.old }
        ensures kept { OnOk result (L.faults link.new ≡ L.faults link.old) }
        ensures cause { IfErr result (λ e. StopsLink e (L.faults link.old) (L.faults link.new)) }
    {
        push_reports(&mut self.manager, u64::from(self.turn), lines)?;
        self.send_all(packets, lines, link)?;
        Ok(())
    }

    /// Gives the manager an order.
    fn order<L: Link>(
        &mut self,
        event: &Event,
        packets: &mut Packets,
        lines: &mut Lines,
        link: &mut L,
    ) -> Result<(), OltFault>
        requires ranges { IsAction (action_of event.now) }
        requires ordered { HasAction documents.Orders (action_of event.now) }
        ensures plays { OnOk result (Plays (ordered (action_of event.now) (seat_ends self.old))
            self.old self.new lines.old lines.new (L.sent link.old) (L.sent link.new)) }
        ensures part { OnErr result (SendsFront
            (packets_in (ordered (action_of event.now) (seat_ends self.old)).happenings)
            (L.sent link.old) (L.sent link.new)) }
        ensures left { L.left link.new ≡ L.left link.old }
        ensures kept { OnOk result (L.faults link.new ≡ L.faults link.old) }
        ensures cause { IfErr result (λ e. StopsLink e (L.faults link.old) (L.faults link.new)) }
    {
        packets.clear();
        match ask(&mut self.manager, self.alloc, event, packets) {
            Ok(()) => self.after_manager(packets, lines, link)?,
            Err(refusal) => self.refuse(refusal, lines)?,
        }
        Ok(())
    }

    /// Appends the line of an order that was refused.
    fn refuse(&self, refusal: Refusal, lines: &mut Lines) -> Result<(), NoMemory>
        ensures refused { OnOk result (refusal ≢ why.NoMemory) }
        ensures line { OnOk result (lines.new ≡ lines.old
            ++ line_text self.now.turn (effect.Refused refusal)) }
    {
        match refusal {
            Refusal::NoMemory => Err(NoMemory),
            _ => push_line(lines, u64::from(self.turn), &Effect::Refused(refusal)),
        }
    }

    /// A packet comes to the manager.
    fn packet<L: Link>(
        &mut self,
        bytes: &[u8],
        packets: &mut Packets,
        lines: &mut Lines,
        link: &mut L,
    ) -> Result<(), OltFault>
        ensures plays { OnOk result (Plays (arrived (Came bytes.now) (seat_ends self.old))
            self.old self.new lines.old lines.new (L.sent link.old) (L.sent link.new)) }
        ensures part { OnErr result (SendsFront
            (packets_in (arrived (Came bytes.now) (seat_ends self.old)).happenings)
            (L.sent link.old) (L.sent link.new)) }
        ensures left { L.left link.new ≡ L.left link.old }
        ensures kept { OnOk result (L.faults link.new ≡ L.faults link.old) }
        ensures cause { IfErr result (λ e. StopsLink e (L.faults link.old) (L.faults link.new)) }
    {
        packets.clear();
        self.manager.packet(bytes, packets)?;
        self.after_manager(packets, lines, link)?;
        Ok(())
    }

    /// A second passes for the manager.
    fn second<L: Link>(
        &mut self,
        packets: &mut Packets,
        lines: &mut Lines,
        link: &mut L,
    ) -> Result<(), OltFault>
        ensures plays { OnOk result (Plays (arrived Quiet (seat_ends self.old))
            self.old self.new lines.old lines.new (L.sent link.old) (L.sent link.new)) }
        ensures part { OnErr result (SendsFront
            (packets_in (arrived Quiet (seat_ends self.old)).happenings)
            (L.sent link.old) (L.sent link.new)) }
        ensures left { L.left link.new ≡ L.left link.old }
        ensures kept { OnOk result (L.faults link.new ≡ L.faults link.old) }
        ensures cause { IfErr result (λ e. StopsLink e (L.faults link.old) (L.faults link.new)) }
    {
        packets.clear();
        self.manager.tick(packets)?;
        self.after_manager(packets, lines, link)?;
        Ok(())
    }

    // ---- a turn

    /// What stands before the next of so many turns: the run is over, which is answered by `false`;
    /// or the turn is begun, and the next order given where the manager waits for nothing.
    pub fn begin<L: Link>(
        &mut self,
        turns: u32,
        orders: &Orders,
        packets: &mut Packets,
        lines: &mut Lines,
        link: &mut L,
    ) -> Result<bool, OltFault>
        ensures begins { IfOk result (λ goes_on. Begins goes_on turns
            (state_of orders.now.actions self.old) (state_of orders.now.actions self.new)
            lines.old lines.new (L.sent link.old) (L.sent link.new)) }
        ensures grows { IfOk result (λ goes_on. goes_on ≡ true
            → (self.new.turn ≡ self.old.turn + 1) × (self.new.turn ≤ turns)) }
        ensures part { OnErr result (SendsFront
            (opening_packets turns (state_of orders.now.actions self.old))
            (L.sent link.old) (L.sent link.new)) }
        ensures left { L.left link.new ≡ L.left link.old }
        ensures kept { OnOk result (L.faults link.new ≡ L.faults link.old) }
        ensures cause { IfErr result (λ e. StopsLink e (L.faults link.old) (L.faults link.new)) }
    {
        if self.turn >= turns {
            return Ok(false);
        }
        if !self.manager.idle() {
            self.turn += 1;
            return Ok(true);
        }
        if self.given >= orders.len() {
            return Ok(false);
        }
        let event = orders.event(self.given);
        self.turn += 1;
        self.given += 1;
        self.order(event, packets, lines, link)?;
        Ok(true)
    }

    /// Hands the manager what the link gives. Answers whether that is the link's end.
    pub fn hear<L: Link>(
        &mut self,
        room: &mut Room,
        lines: &mut Lines,
        link: &mut L,
    ) -> Result<bool, OltFault>
        ensures hears { IfOk result (λ closed. Hears self.old self.new lines.old lines.new
            (L.left link.old) (L.left link.new) (L.sent link.old) (L.sent link.new) closed) }
        ensures part { OnErr result (HearsInPart self.old
            (L.left link.old) (L.left link.new) (L.sent link.old) (L.sent link.new)) }
        ensures kept { OnOk result (L.faults link.new ≡ L.faults link.old) }
        ensures cause { IfErr result (λ e. StopsLink e (L.faults link.old) (L.faults link.new)) }
    {
        let came = listen(link, &mut room.came)?;
        match came {
            Arrival::Packet(count) => {
                let bytes = front(&room.came, count);
                self.packet(bytes, &mut room.packets, lines, link)?;
                Ok(false)
            }
            Arrival::Quiet => {
                self.second(&mut room.packets, lines, link)?;
                Ok(false)
            }
            Arrival::Closed => Ok(true),
        }
    }
}
