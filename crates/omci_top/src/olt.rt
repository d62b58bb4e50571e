//! The command `olt`: orders are read whole, and the manager runs over them and over a link.

ghost use Rattle.std.specs.Prelude.{◌≡◌};
ghost use Rattle.script_spec.specs.Grammar.{WritesOrders};
ghost use Rattle.omci_top.specs.Olts.{RanOrders, OltEnds, AnswersOlt};

use crate::replay::tell_fault;
use crate::status::Status;
use crate::streams::{InputFault, read_whole};
use olt_turns::{OltFault, run_olt};
use omci_core::{Sink, Source};
use omci_link::Link;
use replay_script::{Orders, ScriptRefusal, read_orders};
use std::alloc::Global;

/// Runs the manager over these orders.
fn run_orders<K: Sink, L: Link>(
    alloc: Global,
    address: &[u8],
    turns: u32,
    orders: &Orders,
    sink: &mut K,
    link: &mut L,
) -> Status
    ensures ran { RanOrders L.left L.sent L.faults result turns orders.now link.old link.new
        (K.written sink.old) (K.written sink.new) (K.faults sink.old) (K.faults sink.new) }
{
    match run_olt(alloc, address, turns, orders, sink, link) {
        Ok(()) => Status::Done,
        Err(OltFault::NoMemory) => Status::NoMemory,
        Err(OltFault::Link) => Status::LinkFault,
        Err(OltFault::Write) => Status::WriteFault,
    }
}

/// Runs the manager over the orders that these bytes spell, or says what is wrong with them.
fn answer<K: Sink, L: Link>(
    alloc: Global,
    address: &[u8],
    turns: u32,
    input: Vec<u8>,
    sink: &mut K,
    link: &mut L,
) -> Status
    ensures ends { OltEnds L.left L.sent L.faults result turns input.items link.old link.new
        (K.written sink.old) (K.written sink.new) (K.faults sink.old) (K.faults sink.new) }
{
    match read_orders(alloc, &input) {
        Ok(orders) => {
            drop(input);
            run_orders(alloc, address, turns, &orders, sink, link)
        }
        Err(ScriptRefusal::Fault { line, reason }) => tell_fault(alloc, line, reason, sink),
        Err(ScriptRefusal::NoMemory) => Status::NoMemory,
    }
}

/// Reads orders whole, and runs the manager over them and over the link at this address, for at
/// most so many turns.
pub fn olt<S: Source, K: Sink, L: Link>(
    alloc: Global,
    address: &[u8],
    turns: u32,
    source: &mut S,
    sink: &mut K,
    link: &mut L,
) -> Status
    ensures answers { AnswersOlt L.left L.sent L.faults result turns link.old link.new
        (S.left source.old) (S.left source.new) (K.written sink.old) (K.written sink.new)
        (S.faults source.old) (S.faults source.new) (K.faults sink.old) (K.faults sink.new) }
    ensures read_fault { result ≡ Status.ReadFault → sink.new ≡ sink.old }
    ensures too_long { result ≡ Status.TooLong → sink.new ≡ sink.old }
{
    match read_whole(alloc, source) {
        Ok(input) => answer(alloc, address, turns, input, sink, link),
        Err(InputFault::Read) => Status::ReadFault,
        Err(InputFault::TooLong) => Status::TooLong,
        Err(InputFault::NoMemory) => Status::NoMemory,
    }
}
