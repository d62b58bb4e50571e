//! What lines do to the counters, and what is written of them.

ghost use Rattle.std.specs.Prelude.{◌≡◌, ◌<◌, ◌≤◌, ◌++◌, ◌∷◌, [], IfOk, OnOk, Some};
ghost use Rattle.frame_spec.specs.declared.TheConstants.{LAST_NUMBER};
ghost use Rattle.meter_spec.specs.Events.{History, Asked, Grown};
ghost use Rattle.meter_spec.specs.Meter.{meter_of, answer, counted};
ghost use Rattle.meter_lines_spec.specs.Replies.{kind_of, class_of, request, after, tci_after};
ghost use Rattle.meter_lines_spec.specs.Replies.{reply_line, count_line, line_text, lines_text};

use frame_spec::CONTENTS_BYTES;
use meter_lines_spec::MeterLine;
use meter_spec::{
    CREATE, Command, DELETE, GET, GET_CURRENT_DATA, MONITOR_CLASS, ONU_CLASS, SYNCHRONIZE_TIME,
};
use omci_contents::{push_bytes, push_number, push_text};
use omci_core::{NoMemory, filled, next_number};
use pm_history::{Counted, EntityId, Frame, Pm};
use std::alloc::Global;

/// What is written of lines that are run over counters without a monitor. Events are numbered from
/// 1, and so are the TCIs of requests.
pub(crate) fn run(alloc: Global, lines: &[MeterLine]) -> Result<Vec<u8>, NoMemory>
    ensures value { IfOk result (λ out. out.items ≡ lines_text 1 1 lines.now []) }
{
    let mut out = Vec::new(alloc);
    let mut pm = Pm::new();
    let mut event = 0;
    let mut tci = 1;
    for line in lines {
        event += 1;
        run_line(&mut pm, event, tci, *line, &mut out)?;
        tci = tci_after(tci, *line);
    }
    Ok(out)
}

/// The TCI of the next request after a line.
fn tci_after(tci: u16, line: MeterLine) -> u16
    requires low { 0 < tci }
    requires high { tci ≤ LAST_NUMBER }
    ensures value { result ≡ tci_after tci line }
    ensures low { 0 < result }
    ensures high { result ≤ LAST_NUMBER }
{
    match line {
        MeterLine::Request { .. } => next_number(tci),
        MeterLine::Count { .. } | MeterLine::Pass { .. } => tci,
    }
}

/// Runs a line, and appends what is written of it.
fn run_line(
    pm: &mut Pm,
    event: u64,
    tci: u16,
    line: MeterLine,
    out: &mut Vec<u8>,
) -> Result<(), NoMemory>
    ensures stands { (h : History) → pm.old ≡ meter_of h → pm.new ≡ meter_of (after tci line h) }
    ensures text { (h : History) → pm.old ≡ meter_of h
        → OnOk result (out.new.items ≡ out.old.items ++ line_text event tci line h) }
{
    match line {
        MeterLine::Request {
            command,
            instance,
            mask,
        } => ask(pm, event, &request(tci, command, instance, mask), out),
        MeterLine::Count {
            instance,
            attribute,
            n,
        } => push_count(out, event, pm.count(instance, attribute, n)),
        MeterLine::Pass { ticks } => {
            pm.pass(ticks);
            Ok(())
        }
    }
}

/// A request. A create sends no values.
#[tactic(auto, unfolding(meter_lines_spec::specs::Replies::request))]
fn request(tci: u16, command: Command, instance: u16, mask: u16) -> Frame
    ensures value { result ≡ request tci command instance mask }
{
    let contents: [u8; CONTENTS_BYTES] = filled(&mask.to_be_bytes());
    Frame {
        tci,
        kind: kind_of(command),
        entity: EntityId {
            class: class_of(command),
            instance,
        },
        contents,
    }
}

/// The type byte of a request.
fn kind_of(command: Command) -> u8
    ensures value { result ≡ kind_of command }
{
    match command {
        Command::Create => CREATE,
        Command::Delete => DELETE,
        Command::Get => GET,
        Command::GetCurrent => GET_CURRENT_DATA,
        Command::SynchronizeTime => SYNCHRONIZE_TIME,
    }
}

/// The class that a request names.
fn class_of(command: Command) -> u16
    ensures value { result ≡ class_of command }
{
    match command {
        Command::SynchronizeTime => ONU_CLASS,
        _ => MONITOR_CLASS,
    }
}

/// Sends a request, and appends the line of its reply.
fn ask(pm: &mut Pm, event: u64, frame: &Frame, out: &mut Vec<u8>) -> Result<(), NoMemory>
    ensures stands { (h : History) → pm.old ≡ meter_of h
        → pm.new ≡ meter_of (Asked frame.now ∷ h) }
    ensures text { (h : History) → pm.old ≡ meter_of h
        → OnOk result (out.new.items ≡ out.old.items ++ reply_line event (answer frame.now h)) }
{
    match pm.answer(frame) {
        Some(reply) => push_reply(out, event, &reply),
        None => Ok(()),
    }
}

/// Appends the line of a reply.
fn push_reply(out: &mut Vec<u8>, event: u64, reply: &Frame) -> Result<(), NoMemory>
    ensures text { OnOk result
        (out.new.items ≡ out.old.items ++ reply_line event (Some reply.now)) }
{
    push_number(out, event)?;
    push_bytes(out, b" ")?;
    push_text(out, reply)?;
    push_bytes(out, b"\n")
}

/// Appends the line of a count that isn't added.
fn push_count(out: &mut Vec<u8>, event: u64, counted: Counted) -> Result<(), NoMemory>
    ensures text { OnOk result (out.new.items ≡ out.old.items ++ count_line event counted) }
{
    match counted {
        Counted::Absent => {
            push_number(out, event)?;
            push_bytes(out, b" absent\n")
        }
        Counted::Added => Ok(()),
    }
}
