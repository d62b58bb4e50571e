//! Runs of one end alone.

use crate::words::{lines_text, say};
use case_lines::NoMemory;
use image_slots::Slots;
use olt_turns::{OltFault, run_olt};
use omci_core::MemSink;
use omci_link::MemLink;
use replay_script::{Orders, read_orders};
use slot_disk::MemDisk;
use std::alloc::Global;
use unit_turns::{UnitStatus, run_unit};

/// How many bytes a unit's disk has: the header, and two slots of 1,048,576 bytes.
const LENGTH: u64 = 2_101_248;

/// A sink with room for 1,000 bytes, whose call of this number fails. There is no call 0.
fn sink_of(alloc: Global, fails: u64) -> Result<MemSink, NoMemory> {
    let mut list = Vec::new(alloc);
    if fails > 0 {
        list.push(fails)?;
    }
    MemSink::new(alloc, 1000, list)
}

/// How a run ended, how many packets it sent, and what it wrote.
fn run_text(alloc: Global, end: &str, link: &MemLink, sink: &MemSink) -> Result<String, NoMemory> {
    let sent = link.sent();
    let lines = lines_text(alloc, sink.bytes())?;
    Ok(format!(in alloc; "{end} {sent} {lines}")?)
}

/// The run of a manager over orders, one on each line.
pub(crate) fn olt(
    alloc: Global,
    turns: u32,
    sink_fails: u64,
    orders: &str,
    link: &mut MemLink,
) -> Result<String, NoMemory> {
    let Ok(orders) = read_orders(alloc, orders.as_bytes()) else {
        return say(alloc, "no orders");
    };
    let mut sink = sink_of(alloc, sink_fails)?;
    let end = olt_end(alloc, turns, &orders, &mut sink, link);
    run_text(alloc, end, link, &sink)
}

fn olt_end(
    alloc: Global,
    turns: u32,
    orders: &Orders,
    sink: &mut MemSink,
    link: &mut MemLink,
) -> &'static str {
    match run_olt(alloc, b"a", turns, orders, sink, link) {
        Ok(()) => "done",
        Err(OltFault::NoMemory) => "memory",
        Err(OltFault::Link) => "link",
        Err(OltFault::Write) => "write",
    }
}

/// The run of a unit with the image `ff` in slot 0, whose disk's call of this number fails. There
/// is no call 0.
pub(crate) fn unit(
    alloc: Global,
    turns: u32,
    disk_fails: u64,
    sink_fails: u64,
    link: &mut MemLink,
) -> Result<String, NoMemory> {
    let disk = MemDisk::new(alloc, LENGTH)?;
    let Some(mut disk) = flashed(disk) else {
        return say(alloc, "no disk");
    };
    if disk_fails > 0 {
        disk.fail_at(disk_fails);
    }
    let mut sink = sink_of(alloc, sink_fails)?;
    let end = unit_end(alloc, turns, &mut sink, disk, link);
    run_text(alloc, end, link, &sink)
}

/// The run of a unit whose disk is zeros.
pub(crate) fn no_unit(alloc: Global, turns: u32, link: &mut MemLink) -> Result<String, NoMemory> {
    let disk = MemDisk::new(alloc, LENGTH)?;
    let mut sink = sink_of(alloc, 0)?;
    let end = unit_end(alloc, turns, &mut sink, disk, link);
    run_text(alloc, end, link, &sink)
}

fn flashed(disk: MemDisk) -> Option<MemDisk> {
    match Slots::format(disk, 1_048_576, &[0xff]) {
        Ok(slots) => Some(slots.unmount()),
        Err(_) => None,
    }
}

fn unit_end(
    alloc: Global,
    turns: u32,
    sink: &mut MemSink,
    disk: MemDisk,
    link: &mut MemLink,
) -> &'static str {
    match run_unit(alloc, b"a", b"u.img", turns, sink, disk, link).status {
        UnitStatus::Done => "done",
        UnitStatus::DiskFault => "disk",
        UnitStatus::NoUnit => "no-unit",
        UnitStatus::LinkFault => "link",
        UnitStatus::WriteFault => "write",
        UnitStatus::NoMemory => "memory",
    }
}
