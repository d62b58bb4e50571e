//! Times a unit alone: 100,000 packets come to it over a link in memory, creates, sets, gets and
//! deletes of 4,000 traffic descriptors, each answered by a packet.
#![tactic(auto)]

ghost use Rattle.message_spec.specs.Reading.{RequestWindow};

use image_slots::Slots;
use omci_contents::{Message, Request, write_message};
use omci_core::{EntityId, MemSink, NoMemory, Packet};
use omci_frames::encode;
use omci_link::{MemArrival, MemLink};
use slot_disk::MemDisk;
use std::alloc::Global;
use unit_turns::{UnitStatus, run_unit};

/// How many packets come.
const PACKETS: u32 = 100_000;

/// How many bytes the disk has: the header, and two slots of 1,048,576 bytes.
const LENGTH: u64 = 2_101_248;

/// What the run came to.
#[derive(Drop)]
struct Outcome {
    status: UnitStatus,
    sent: usize,
}

fn main(rt: HostRuntime) -> std::io::Result<()> {
    match run(rt.alloc()) {
        Ok(
            Outcome {
                status: UnitStatus::Done,
                sent,
            },
        ) => println!(rt; "packets {PACKETS} replies {sent}"),
        Ok(_) => println!(rt; "the run failed"),
        Err(_) => println!(rt; "no memory"),
    }
}

fn run(alloc: Global) -> Result<Outcome, NoMemory> {
    let Ok(slots) = Slots::format(MemDisk::new(alloc, LENGTH)?, 1_048_576, &[0xff]) else {
        return Err(NoMemory);
    };
    let mut arrivals = Vec::new(alloc);
    for number in 0..PACKETS {
        arrivals.push(MemArrival::Packet(packet(number)))?;
    }
    let mut link = MemLink::new(alloc, arrivals, PACKETS as usize, Vec::new(alloc))?;
    let mut sink = MemSink::new(alloc, 1000, Vec::new(alloc))?;
    let end = run_unit(
        alloc,
        b"link",
        b"disk",
        PACKETS,
        &mut sink,
        slots.unmount(),
        &mut link,
    );
    Ok(Outcome {
        status: end.status,
        sent: link.sent(),
    })
}

/// The packet of this number: a request to a traffic descriptor, with a TCI of the low lane.
fn packet(number: u32) -> Packet {
    let message = Message::Asked {
        tci: (number % 32_767) as u16 + 1,
        entity: EntityId {
            class: 272,
            instance: (number / 10 % 4000) as u16,
        },
        request: request(number),
    };
    let mut bytes = [0; 48];
    encode(&write_message(&message), &mut bytes);
    let mut packet = Packet::new();
    packet.put(&bytes);
    packet
}

/// Of each ten requests to a descriptor the first creates it, the last deletes it, and the others
/// are sets and gets in turn.
fn request(number: u32) -> Request
    ensures window { RequestWindow result }
{
    match number % 10 {
        0 => Request::Create { values: [1; 32] },
        9 => Request::Delete,
        1 | 3 | 5 | 7 => Request::Set {
            mask: 0x8000,
            values: [number.to_be_bytes()[3]; 30],
        },
        _ => Request::Get { mask: 0x8000 },
    }
}
