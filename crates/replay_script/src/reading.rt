//! Reading a script, or orders, in one pass: the header, and then the events.

ghost use Rattle.std.specs.Prelude.{◌≡◌, ◌+◌, ◌≤◌, ◌<◌, ◌^◌, ◌++◌, map, length, Option, Ok};
ghost use Rattle.std.specs.Prelude.{MatchResult, IfOk, IfErr};
ghost use Rattle.std.specs.Option.{option_to_list};
ghost use Rattle.script_spec.specs.Script.{Action, IsScript, IsOrders};
ghost use Rattle.script_spec.specs.Text.{lines_of, words_of};
ghost use Rattle.script_spec.specs.Reading.{line_action, header_at, orders_header_at, as_header};
ghost use Rattle.script_spec.specs.Reading.{on_line, event_at, events_reading, reading};
ghost use Rattle.script_spec.specs.Reading.{orders_reading};
ghost use Rattle.script_spec.specs.Grammar.{Writes, WritesOrders};
ghost use Rattle.script_spec.specs.Fault.{fault, orders_fault};
ghost use Rattle.line_words.specs.Answers.{Gives, GivesScript, FailsScript, ReadsOnly};
ghost use Rattle.line_words.specs.Answers.{IsFaultOf, RefusesOnly};
ghost use Rattle.replay_script.specs.Events.{action_of, header_of, lanes_of};

use crate::events::event_of;
use crate::orders::{FirstNumbers, Orders};
use crate::script::{Event, Header, Script};
use line_words::{LineRefusal, LineWords, ScriptRefusal, header_line, is_passed_over, next_line};
use script_spec::{Document, HEADER_FAULT, MAX_ROOM};
use std::alloc::Global;

/// Reads a script, all of the bytes, in one pass.
///
/// `Fault` has the first fault's line, from 1, and its reason; `NoMemory` where there is no room
/// for what the events keep.
pub fn read(alloc: Global, bytes: &[u8]) -> Result<Script, ScriptRefusal>
    // What is read is written so.
    ensures written { IfOk result (λ script. Writes script bytes.now) }
    ensures ranges { IfOk result IsScript }

    // What is written so is read, unless memory runs out.
    ensures only { ReadsOnly Writes result bytes.now }

    // What is refused has this first fault, and what has a fault is refused for it, unless memory
    // runs out.
    ensures refused { IfErr result (λ refusal. IsFaultOf fault refusal bytes.now) }
    ensures faulty { RefusesOnly fault result bytes.now }
{
    script_of(alloc, bytes)
}

/// Reads a manager's orders, all of the bytes, in one pass. A line that only scripts have begins
/// with an unknown word here.
///
/// `Fault` has the first fault's line, from 1, and its reason; `NoMemory` where there is no room
/// for what the events keep.
pub fn read_orders(alloc: Global, bytes: &[u8]) -> Result<Orders, ScriptRefusal>
    // What is read is written so.
    ensures written { IfOk result (λ orders. WritesOrders orders bytes.now) }
    ensures ranges { IfOk result IsOrders }

    // What is written so is read, unless memory runs out.
    ensures only { ReadsOnly WritesOrders result bytes.now }

    // What is refused has this first fault, and what has a fault is refused for it, unless memory
    // runs out.
    ensures refused { IfErr result (λ refusal. IsFaultOf orders_fault refusal bytes.now) }
    ensures faulty { RefusesOnly orders_fault result bytes.now }
{
    orders_of(alloc, bytes)
}

/// The script, in the words of reading from left to right.
#[tactic(auto, unfolding(script_spec::specs::Reading::reading))]
fn script_of(alloc: Global, bytes: &[u8]) -> Result<Script, ScriptRefusal>
    ensures exact { GivesScript (λ script. script) result (reading bytes.now) }
{
    let first = header_line(bytes)?;
    let header = header_on(alloc, first.line, first.text)?;
    let events = events_of(alloc, Document::Script, first.line + 1, first.rest)?;
    Ok(Script::new(header, events))
}

/// The orders, in the words of reading from left to right.
#[tactic(auto, unfolding(script_spec::specs::Reading::orders_reading))]
fn orders_of(alloc: Global, bytes: &[u8]) -> Result<Orders, ScriptRefusal>
    ensures exact { GivesScript (λ orders. orders) result (orders_reading bytes.now) }
{
    let first = header_line(bytes)?;
    let numbers = numbers_on(first.line, first.text)?;
    let events = events_of(alloc, Document::Orders, first.line + 1, first.rest)?;
    Ok(Orders::new(numbers, events))
}

/// The header that a script's line writes.
fn header_on(alloc: Global, line: u64, text: &[u8]) -> Result<Header, ScriptRefusal>
    ensures value { GivesScript header_of result (as_header line (header_at (words_of text.now))) }
{
    match header_of(alloc, LineWords::new(text)) {
        Ok(header) => Ok(header),
        Err(LineRefusal::Reason(_)) => Err(ScriptRefusal::Fault {
            line,
            reason: HEADER_FAULT,
        }),
        Err(LineRefusal::NoMemory) => Err(ScriptRefusal::NoMemory),
    }
}

/// The first numbers that the line of a header of orders writes.
fn numbers_on(line: u64, text: &[u8]) -> Result<FirstNumbers, ScriptRefusal>
    ensures value { GivesScript lanes_of result
        (as_header line (orders_header_at (words_of text.now))) }
{
    match numbers_of(LineWords::new(text)) {
        Ok(numbers) => Ok(numbers),
        Err(LineRefusal::Reason(_)) => Err(ScriptRefusal::Fault {
            line,
            reason: HEADER_FAULT,
        }),
        Err(LineRefusal::NoMemory) => Err(ScriptRefusal::NoMemory),
    }
}

/// The header of these words.
#[tactic(auto, unfolding(script_spec::specs::Reading::header_at))]
fn header_of(alloc: Global, mut words: LineWords<'_>) -> Result<Header, LineRefusal>
    ensures value { Gives header_of result (header_at words.entry) }
{
    words.literal(b"omci")?;
    words.literal(b"1")?;
    words.expect(4)?;
    let room = words.number(1, MAX_ROOM)? as u32;
    let low = words.lane_number()?;
    let high = words.lane_number()?;
    let factory = words.bytes(alloc, 1, room as usize)?;
    Ok(Header {
        room,
        low,
        high,
        factory,
    })
}

/// The first numbers of these words, those of a header of orders.
#[tactic(auto, unfolding(script_spec::specs::Reading::orders_header_at))]
fn numbers_of(mut words: LineWords<'_>) -> Result<FirstNumbers, LineRefusal>
    ensures value { Gives lanes_of result (orders_header_at words.entry) }
{
    words.literal(b"orders")?;
    words.literal(b"1")?;
    words.expect(2)?;
    Ok(FirstNumbers {
        low: words.lane_number()?,
        high: words.lane_number()?,
    })
}

/// The events of lines of such a document, the first of which has the number `first`.
fn events_of(
    alloc: Global,
    document: Document,
    first: u64,
    bytes: &[u8],
) -> Result<Vec<Event>, ScriptRefusal>
    requires { first + length bytes.now < 2 ^ 64 }
    ensures value { GivesScript (λ events. map action_of events.items) result
        (events_reading document first (lines_of bytes.now)) }
{
    let mut events = Vec::new(alloc);
    let mut rest = bytes;
    let mut line = first;
    while !rest.is_empty() {
        let (text, after) = next_line(rest);
        read_line(alloc, document, line, text, &mut events)?;
        rest = after;
        line += 1;
    }
    Ok(events)
}

/// Adds the event that the line asks for; a line that is passed over asks for none.
fn read_line(
    alloc: Global,
    document: Document,
    line: u64,
    text: &[u8],
    events: &mut Vec<Event>,
) -> Result<(), ScriptRefusal>
    ensures value { MatchResult result
        (λ _. (action : Option Action) × (on_line line (event_at document text.now) ≡ Ok action)
        × (map action_of events.new.items
        ≡ map action_of events.old.items ++ option_to_list action))
        (λ e. FailsScript e (on_line line (event_at document text.now))) }
{
    if is_passed_over(text) {
        return Ok(());
    }
    let event = event_on(alloc, document, line, text)?;
    events.push(event)?;
    Ok(())
}

/// The event that the line asks for.
fn event_on(
    alloc: Global,
    document: Document,
    line: u64,
    text: &[u8],
) -> Result<Event, ScriptRefusal>
    ensures value { GivesScript action_of result
        (on_line line (line_action document (words_of text.now))) }
{
    match event_of(alloc, document, LineWords::new(text)) {
        Ok(event) => Ok(event),
        Err(LineRefusal::Reason(reason)) => Err(ScriptRefusal::Fault { line, reason }),
        Err(LineRefusal::NoMemory) => Err(ScriptRefusal::NoMemory),
    }
}
