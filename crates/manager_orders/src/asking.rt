//! A line's asking of the manager.

ghost use Rattle.std.specs.Prelude.{◌≡◌, ◌≢◌, ◌++◌, ◌<◌, OnOk, IfErr, None, Some, Err};
ghost use Rattle.message_spec.specs.Reading.{IsWindow};
ghost use Rattle.manager_spec.specs.declared.Refusal.TheVariants as why;
ghost use Rattle.manager_spec.specs.Manager.{packets_of};
ghost use Rattle.manager_spec.specs.Submitting.{after_image};
ghost use Rattle.script_spec.specs.declared.Document.TheVariants as documents;
ghost use Rattle.script_spec.specs.Script.{IsAction, HasAction};
ghost use Rattle.olt_manager.specs.State.{sound, AreFrames};
ghost use Rattle.replay_script.specs.Events.{action_of};
ghost use Rattle.manager_orders.specs.Asking.{asking, asked_by as submits};

use crate::asked::asked_by;
use manager_spec::Refusal;
use olt_manager::{Image, Manager};
use omci_core::Packets;
use replay_script::Event;
use std::alloc::Global;

/// What orders say of a download: the slot, the sections asked for in a window, and the check value
/// in the place of the image's own.
#[derive(Clone, Copy)]
struct Download {
    slot: u8,
    window: u16,
    crc: Option<u32>,
}

impl Download {
    /// A download into that slot.
    fn new(slot: u8, window: u16, crc: Option<u32>) -> Download
        ensures value { result ≡ record { slot = slot; window = window; crc = crc } }
    {
        Download { slot, window, crc }
    }
}

/// A download of an image is asked for.
fn ask_image(
    manager: &mut Manager,
    alloc: Global,
    download: Download,
    bytes: &[u8],
    packets: &mut Packets,
) -> Result<(), Refusal>
    requires slot { download.slot < 2 }
    requires window { IsWindow download.window }
    ensures refused { IfErr result (λ r. r ≢ why.NoMemory
        → (after_image download.slot download.window download.crc bytes.now
        manager.old.manager).refusal ≡ Some r) }
    ensures kept { IfErr result (λ r. r ≢ why.NoMemory
        → (manager.new ≡ manager.old) × (packets.new ≡ packets.old)) }
    ensures accepted { OnOk result
        ((after_image download.slot download.window download.crc bytes.now
        manager.old.manager).refusal ≡ None) }
    ensures manager { result ≢ Err why.NoMemory → manager.new
        ≡ sound (after_image download.slot download.window download.crc bytes.now
        manager.old.manager).outcome.manager }
    ensures packets { result ≢ Err why.NoMemory → packets.new ≡ packets.old ++ packets_of
        (after_image download.slot download.window download.crc bytes.now
        manager.old.manager).outcome.sendings }
    ensures whole { result ≢ Err why.NoMemory → AreFrames (packets_of
        (after_image download.slot download.window download.crc bytes.now
        manager.old.manager).outcome.sendings) }
{
    let Ok(image) = Image::new(alloc, bytes) else {
        return Err(Refusal::NoMemory);
    };
    manager.image(download.slot, download.window, download.crc, image, packets)
}

/// Asks the manager for what a line of orders says that submits no request.
#[tactic(auto, unfolding(crate::specs::Asking::asking))]
fn ask_apart(
    manager: &mut Manager,
    alloc: Global,
    event: &Event,
    packets: &mut Packets,
) -> Result<(), Refusal>
    requires ranges { IsAction (action_of event.now) }
    requires ordered { HasAction documents.Orders (action_of event.now) }
    requires apart { submits (action_of event.now) ≡ None }
    ensures refused { IfErr result (λ r. r ≢ why.NoMemory
        → (asking (action_of event.now) manager.old.manager).refusal ≡ Some r) }
    ensures kept { IfErr result (λ r. r ≢ why.NoMemory
        → (manager.new ≡ manager.old) × (packets.new ≡ packets.old)) }
    ensures accepted { OnOk result
        ((asking (action_of event.now) manager.old.manager).refusal ≡ None) }
    ensures manager { result ≢ Err why.NoMemory → manager.new
        ≡ sound (asking (action_of event.now) manager.old.manager).outcome.manager }
    ensures packets { result ≢ Err why.NoMemory → packets.new ≡ packets.old ++ packets_of
        (asking (action_of event.now) manager.old.manager).outcome.sendings }
    ensures whole { result ≢ Err why.NoMemory → AreFrames (packets_of
        (asking (action_of event.now) manager.old.manager).outcome.sendings) }
{
    match event {
        Event::Probe { lane } => manager.probe(*lane, packets),
        Event::Resync => manager.resync(packets),
        Event::Audit => manager.audit(packets),
        Event::Check => manager.check(packets),
        Event::Image {
            slot,
            window,
            crc,
            image,
        } => {
            let download = Download::new(*slot, *window, *crc);
            ask_image(manager, alloc, download, image.bytes(), packets)
        }
        _ => Ok(()),
    }
}

/// Asks the manager for what a line says, one of those that orders have. What it sends is added to
/// the packets. A refusal has changed nothing; after `NoMemory` the manager may be spent.
pub fn ask(
    manager: &mut Manager,
    alloc: Global,
    event: &Event,
    packets: &mut Packets,
) -> Result<(), Refusal>
    requires ranges { IsAction (action_of event.now) }
    requires ordered { HasAction documents.Orders (action_of event.now) }
    ensures refused { IfErr result (λ r. r ≢ why.NoMemory
        → (asking (action_of event.now) manager.old.manager).refusal ≡ Some r) }
    ensures kept { IfErr result (λ r. r ≢ why.NoMemory
        → (manager.new ≡ manager.old) × (packets.new ≡ packets.old)) }
    ensures accepted { OnOk result
        ((asking (action_of event.now) manager.old.manager).refusal ≡ None) }
    ensures manager { result ≢ Err why.NoMemory → manager.new
        ≡ sound (asking (action_of event.now) manager.old.manager).outcome.manager }
    ensures packets { result ≢ Err why.NoMemory → packets.new ≡ packets.old ++ packets_of
        (asking (action_of event.now) manager.old.manager).outcome.sendings }
    ensures whole { result ≢ Err why.NoMemory → AreFrames (packets_of
        (asking (action_of event.now) manager.old.manager).outcome.sendings) }
{
    match asked_by(event) {
        Some(asked) => manager.submit(asked.lane, asked.entity, asked.request, packets),
        None => ask_apart(manager, alloc, event, packets),
    }
}
