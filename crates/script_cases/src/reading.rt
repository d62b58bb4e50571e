//! What is read from scripts and from orders.

use crate::texts::{say, shown};
use case_lines::NoMemory;
use replay_script::{Orders, Script, ScriptRefusal, print, read, read_orders};
use std::alloc::Global;

/// The canonical text of the script that the bytes are, or their first fault.
pub(crate) fn script_text(alloc: Global, bytes: &[u8]) -> Result<String, NoMemory> {
    match read(alloc, bytes) {
        Ok(script) => canonical_text(alloc, &script),
        Err(refusal) => refusal_text(alloc, refusal),
    }
}

/// The canonical text, which is that of the script that it is read as.
fn canonical_text(alloc: Global, script: &Script) -> Result<String, NoMemory> {
    let text = printed(alloc, script)?;
    match read(alloc, &text) {
        Ok(again) if printed(alloc, &again)? == text => shown(alloc, &text),
        _ => say(alloc, "another script"),
    }
}

fn printed(alloc: Global, script: &Script) -> Result<Vec<u8>, NoMemory> {
    print(alloc, script)
}

/// The line of the first fault, and its reason.
fn refusal_text(alloc: Global, refusal: ScriptRefusal) -> Result<String, NoMemory> {
    match refusal {
        ScriptRefusal::Fault { line, reason } => Ok(format!(in alloc; "{line} {reason}")?),
        ScriptRefusal::NoMemory => Err(NoMemory),
    }
}

/// The lanes' first numbers and how many events there are, or the first fault.
pub(crate) fn orders_text(alloc: Global, bytes: &[u8]) -> Result<String, NoMemory> {
    match read_orders(alloc, bytes) {
        Ok(orders) => numbers_text(alloc, &orders),
        Err(refusal) => refusal_text(alloc, refusal),
    }
}

fn numbers_text(alloc: Global, orders: &Orders) -> Result<String, NoMemory> {
    let low = orders.low();
    let high = orders.high();
    let count = orders.len();
    let none = if orders.is_empty() { " none" } else { "" };
    Ok(format!(in alloc; "ok {low} {high} {count}{none}")?)
}

/// How many events the script and the orders have, where those are the same.
pub(crate) fn events_alike(
    alloc: Global,
    script: &[u8],
    orders: &[u8],
) -> Result<String, NoMemory> {
    let script = match read(alloc, script) {
        Ok(script) => script,
        Err(refusal) => return refusal_text(alloc, refusal),
    };
    match read_orders(alloc, orders) {
        Ok(orders) => alike_text(alloc, &script, &orders),
        Err(refusal) => refusal_text(alloc, refusal),
    }
}

fn alike_text(alloc: Global, script: &Script, orders: &Orders) -> Result<String, NoMemory> {
    if script.len() != orders.len() {
        return say(alloc, "another number of events");
    }
    for place in 0..script.len() {
        if script.event(place) != orders.event(place) {
            return say(alloc, "another event");
        }
    }
    let count = script.len();
    Ok(format!(in alloc; "alike {count}")?)
}
