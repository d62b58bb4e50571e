//! What a line asks of the manager, or gives to it. These functions promise nothing, so that what a
//! call says of the manager isn't carried any further.

use case_lines::NoMemory;
use manager_orders::ask;
use manager_spec::Refusal;
use olt_manager::Manager;
use omci_core::Packets;
use omci_frames::{Frame, encode};
use replay_script::{Orders, ScriptRefusal, read_orders};
use std::alloc::Global;

/// What came of an order.
pub(crate) enum Asked {
    Accepted,
    Refused(Refusal),
    /// It is no line of orders.
    Unread,
}

/// Gives the manager the only order of the text.
pub(crate) fn ask_order(
    manager: &mut Manager,
    alloc: Global,
    text: &str,
    out: &mut Packets,
) -> Result<Asked, NoMemory> {
    match read_orders(alloc, text.as_bytes()) {
        Ok(orders) => ask_first(manager, alloc, &orders, out),
        Err(ScriptRefusal::NoMemory) => Err(NoMemory),
        Err(_) => Ok(Asked::Unread),
    }
}

fn ask_first(
    manager: &mut Manager,
    alloc: Global,
    orders: &Orders,
    out: &mut Packets,
) -> Result<Asked, NoMemory> {
    if orders.is_empty() {
        return Ok(Asked::Unread);
    }
    match ask(manager, alloc, orders.event(0), out) {
        Ok(()) => Ok(Asked::Accepted),
        Err(Refusal::NoMemory) => Err(NoMemory),
        Err(refusal) => Ok(Asked::Refused(refusal)),
    }
}

/// A packet comes that is this frame.
pub(crate) fn take_frame(
    manager: &mut Manager,
    frame: &Frame,
    out: &mut Packets,
) -> Result<(), NoMemory> {
    let mut bytes = [0; 48];
    encode(frame, &mut bytes);
    take(manager, &bytes, out)
}

/// A packet comes.
pub(crate) fn take(manager: &mut Manager, bytes: &[u8], out: &mut Packets) -> Result<(), NoMemory> {
    manager.packet(bytes, out)
}

/// A second passes.
pub(crate) fn tick(manager: &mut Manager, out: &mut Packets) -> Result<(), NoMemory> {
    manager.tick(out)
}
