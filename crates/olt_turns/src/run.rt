//! The run of the manager alone, over all of its orders.

ghost use Rattle.std.specs.Prelude.{◌≡◌, ◌+◌, ◌≤◌, ◌++◌, [], true, OnOk, OnErr, IfOk, IfErr};
ghost use Rattle.std.specs.Io.KnownBytes.{Appends};
ghost use Rattle.omci_core.specs.Causes.{Rose};
ghost use Rattle.turn_spec.specs.OltTurns.{left_text, olt_first};
ghost use Rattle.whole_writes.specs.Writing.{WritesFront};
ghost use Rattle.olt_seat.specs.declared.fault.OltFault.TheVariants as fault;
ghost use Rattle.olt_seat.specs.Seat.{state_of, StopsLink};
ghost use Rattle.olt_turns.specs.Running.{HasRun, HasRunInPart, EndsOlt, Ran, RanInPart};

use olt_seat::{OltFault, Room, Seat};
use omci_contents::{push_bytes, push_number};
use omci_core::{NoMemory, Sink};
use omci_link::Link;
use replay_script::Orders;
use std::alloc::Global;
use trace_lines::Lines;
use whole_writes::write_all;

/// Writes all of these bytes to the sink.
fn write_out<K: Sink>(sink: &mut K, bytes: &[u8]) -> Result<(), OltFault>
    ensures whole { OnOk result (Appends (K.written sink.old) (K.written sink.new) bytes.now) }
    ensures kept { OnOk result (K.faults sink.new ≡ K.faults sink.old) }
    ensures front { OnErr result (WritesFront bytes.now (K.written sink.old) (K.written sink.new)) }
    ensures cause { IfErr result (λ e. e ≡ fault.Write) }
    ensures rose { OnErr result (Rose (K.faults sink.old) (K.faults sink.new)) }
{
    match write_all(sink, bytes) {
        Ok(()) => Ok(()),
        Err(_) => Err(OltFault::Write),
    }
}

/// Calls the address over the link.
fn call<L: Link>(link: &mut L, address: &[u8]) -> Result<(), OltFault>
    ensures left { L.left link.new ≡ L.left link.old }
    ensures sent { L.sent link.new ≡ L.sent link.old }
    ensures kept { OnOk result (L.faults link.new ≡ L.faults link.old) }
    ensures cause { IfErr result (λ e. StopsLink e (L.faults link.old) (L.faults link.new)) }
{
    match link.attach(address, false) {
        Ok(()) => Ok(()),
        Err(_) => Err(OltFault::Link),
    }
}

/// The last line: the turns taken, and the orders not given.
fn left_line(alloc: Global, seat: &Seat, orders: &Orders) -> Result<Vec<u8>, NoMemory>
    ensures text { IfOk result (λ text. text.items
        ≡ left_text (state_of orders.now.actions seat.now)) }
{
    let mut text = Vec::new(alloc);
    push_number(&mut text, u64::from(seat.turns()))?;
    push_bytes(&mut text, b" left ")?;
    push_number(&mut text, orders.len().saturating_sub(seat.given()) as u64)?;
    push_bytes(&mut text, b"\n")?;
    Ok(text)
}

/// One turn, whose lines are written at its end. Answers whether the run goes on.
fn one_turn<K: Sink, L: Link>(
    seat: &mut Seat,
    turns: u32,
    orders: &Orders,
    room: &mut Room,
    lines: &mut Lines,
    sink: &mut K,
    link: &mut L,
) -> Result<bool, OltFault>
    requires fresh { lines.old ≡ [] }
    ensures fresh { OnOk result (lines.new ≡ []) }
    ensures ran { IfOk result (λ goes_on. Ran turns
        (state_of orders.now.actions seat.old) (state_of orders.now.actions seat.new) goes_on
        (L.left link.old) (L.left link.new) (L.sent link.old) (L.sent link.new)
        (K.written sink.old) (K.written sink.new)) }
    ensures grows { IfOk result (λ goes_on. goes_on ≡ true
        → (seat.new.turn ≡ seat.old.turn + 1) × (seat.new.turn ≤ turns)) }
    ensures part { OnErr result (RanInPart turns (state_of orders.now.actions seat.old)
        (L.left link.old) (L.left link.new) (L.sent link.old) (L.sent link.new)
        (K.written sink.old) (K.written sink.new)) }
    ensures kept { OnOk result (L.faults link.new ≡ L.faults link.old) }
    ensures sink_kept { OnOk result (K.faults sink.new ≡ K.faults sink.old) }
    ensures cause { IfErr result (λ e. EndsOlt e (L.faults link.old) (L.faults link.new)
        (K.faults sink.old) (K.faults sink.new)) }
{
    let begun = seat.begin(turns, orders, &mut room.packets, lines, link)?;
    if !begun {
        return Ok(false);
    }
    let closed = seat.hear(room, lines, link)?;
    write_out(sink, lines.bytes())?;
    lines.clear();
    Ok(!closed)
}

/// Runs a manager that has just started: it calls the address, takes its turns, and tells how many
/// these were.
fn take_turns<K: Sink, L: Link>(
    alloc: Global,
    address: &[u8],
    turns: u32,
    orders: &Orders,
    seat: &mut Seat,
    sink: &mut K,
    link: &mut L,
) -> Result<(), OltFault>
    requires first { state_of orders.now.actions seat.old ≡ olt_first orders.now }
    ensures run { OnOk result (HasRun turns orders.now
        (L.left link.old) (L.left link.new) (L.sent link.old) (L.sent link.new)
        (K.written sink.old) (K.written sink.new)) }
    ensures part { OnErr result (HasRunInPart turns orders.now
        (L.left link.old) (L.left link.new) (L.sent link.old) (L.sent link.new)
        (K.written sink.old) (K.written sink.new)) }
    ensures kept { OnOk result (L.faults link.new ≡ L.faults link.old) }
    ensures sink_kept { OnOk result (K.faults sink.new ≡ K.faults sink.old) }
    ensures cause { IfErr result (λ e. EndsOlt e (L.faults link.old) (L.faults link.new)
        (K.faults sink.old) (K.faults sink.new)) }
{
    call(link, address)?;
    let mut room = Room::new(alloc);
    let mut lines = Lines::new(alloc);
    let mut goes_on = true;
    while goes_on {
        goes_on = one_turn(seat, turns, orders, &mut room, &mut lines, sink, link)?;
    }
    let last = left_line(alloc, seat, orders)?;
    write_out(sink, &last)?;
    Ok(())
}

/// Runs the manager over the orders and the link at that address, for at most so many turns. Before
/// each turn the next order is given where the manager waits for nothing, and the run ends where
/// none is left; then the manager takes what the link gives, a packet or a second without one. A
/// refused order has used its turn up. The run also ends after that many turns, or at the link's
/// end, in a turn that counts. The last line tells the turns taken and the orders not given.
///
/// After a fault of the link, of the sink or for want of memory a front of the packets was sent and
/// a front of the lines was written.
pub fn run_olt<K: Sink, L: Link>(
    alloc: Global,
    address: &[u8],
    turns: u32,
    orders: &Orders,
    sink: &mut K,
    link: &mut L,
) -> Result<(), OltFault>
    ensures run { OnOk result (HasRun turns orders.now
        (L.left link.old) (L.left link.new) (L.sent link.old) (L.sent link.new)
        (K.written sink.old) (K.written sink.new)) }
    ensures part { OnErr result (HasRunInPart turns orders.now
        (L.left link.old) (L.left link.new) (L.sent link.old) (L.sent link.new)
        (K.written sink.old) (K.written sink.new)) }
    ensures kept { OnOk result (L.faults link.new ≡ L.faults link.old) }
    ensures sink_kept { OnOk result (K.faults sink.new ≡ K.faults sink.old) }
    ensures cause { IfErr result (λ e. EndsOlt e (L.faults link.old) (L.faults link.new)
        (K.faults sink.old) (K.faults sink.new)) }
{
    let mut seat = Seat::start(alloc, orders)?;
    take_turns(alloc, address, turns, orders, &mut seat, sink, link)
}
