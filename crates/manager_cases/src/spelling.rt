//! What is told of the manager, in words.

use case_lines::{NoMemory, hex_of, short_hex_of};
use manager_spec::{Job, Phase, Refusal};
use mib_upload::MibCopy;
use olt_manager::{AlarmTable, Manager};
use omci_contents::text;
use omci_core::Packets;
use omci_frames::packet_frame;
use std::alloc::Global;
use trace_lines::{Lines, push_line};
use world_spec::Effect;

pub(crate) fn say(alloc: Global, text: &str) -> Result<String, NoMemory> {
    Ok(String::from_str(alloc, text)?)
}

/// Orders whose only line has these words.
pub(crate) fn orders_text(alloc: Global, words: &[&str]) -> Result<String, NoMemory> {
    let line = words.join(alloc, " ")?;
    Ok(format!(in alloc; "orders 1 1 1\n{line}\n")?)
}

/// Adds the line of a refusal.
pub(crate) fn push_refusal(told: &mut Lines, refusal: Refusal) -> Result<(), NoMemory> {
    push_line(told, 0, &Effect::Refused(refusal))?;
    Ok(())
}

/// The lines of event 0 without their number, and then the packets, each after `; `.
pub(crate) fn told_text(
    alloc: Global,
    lines: &[u8],
    packets: &Packets,
) -> Result<String, NoMemory> {
    let mut out = String::new(alloc);
    if let Ok(lines) = str::from_utf8(lines) {
        for line in lines.lines() {
            push_part(&mut out, line.trim_start_matches("0 "))?;
        }
    }
    for place in 0..packets.len() {
        push_packet(alloc, &mut out, packets.get(place).bytes())?;
    }
    Ok(out)
}

fn push_part(out: &mut String, part: &str) -> Result<(), NoMemory> {
    if !out.is_empty() {
        out.push_str("; ")?;
    }
    out.push_str(part)?;
    Ok(())
}

/// Adds the text of the frame that the packet is.
fn push_packet(alloc: Global, out: &mut String, bytes: &[u8]) -> Result<(), NoMemory> {
    push_part(out, "sent ")?;
    let Some(frame) = packet_frame(bytes) else {
        out.push_str("no frame")?;
        return Ok(());
    };
    let text = text(alloc, &frame)?;
    if let Ok(text) = str::from_utf8(&text) {
        out.push_str(text)?;
    }
    Ok(())
}

/// The phase, the job, and whether the manager waits for nothing.
pub(crate) fn state_text(alloc: Global, manager: &Manager) -> Result<String, NoMemory> {
    let phase = phase_word(manager.phase());
    let job = job_word(manager.job());
    let idle = if manager.idle() { "idle" } else { "waiting" };
    Ok(format!(in alloc; "{phase} {job} {idle}")?)
}

fn phase_word(phase: Phase) -> &'static str {
    match phase {
        Phase::New => "new",
        Phase::InStep => "in",
        Phase::Out => "out",
    }
}

fn job_word(job: Option<Job>) -> &'static str {
    match job {
        None => "-",
        Some(Job::Resync) => "resync",
        Some(Job::Audit) => "audit",
        Some(Job::Image) => "image",
    }
}

/// The counter of the copy, and each entity with the mask and the values that it has. `-` where
/// there is no copy.
pub(crate) fn copy_text(alloc: Global, manager: &Manager) -> Result<String, NoMemory> {
    match manager.copy() {
        None => say(alloc, "-"),
        Some(copy) => entries_text(alloc, copy),
    }
}

fn entries_text(alloc: Global, copy: &MibCopy) -> Result<String, NoMemory> {
    let counter = copy.counter();
    let mut out = format!(in alloc; "{counter}")?;
    for place in 0..copy.len() {
        let entry = copy.entry(place);
        let class = entry.entity.class;
        let instance = entry.entity.instance;
        let mask = hex_of(alloc, &entry.mask.0.to_be_bytes())?;
        let values = hex_of(alloc, entry.values)?;
        write!(out, "; {class} {instance} {mask} {values}")?;
    }
    Ok(out)
}

/// Each entity of the table of alarms and its bitmap.
pub(crate) fn alarms_text(alloc: Global, manager: &Manager) -> Result<String, NoMemory> {
    rows_text(alloc, manager.alarms())
}

fn rows_text(alloc: Global, table: &AlarmTable) -> Result<String, NoMemory> {
    let mut out = String::new(alloc);
    for place in 0..table.len() {
        let (entity, bitmap) = table.entry(place);
        let class = entity.class;
        let instance = entity.instance;
        let bitmap = short_hex_of(alloc, &bitmap)?;
        write!(out, " {class} {instance} {bitmap}")?;
    }
    Ok(out)
}
