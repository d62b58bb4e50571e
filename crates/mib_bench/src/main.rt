//! Times the unit's database: 100,000 gets and as many sets at 4,096 entities over all classes that
//! the manager makes.
#![tactic(auto)]

use mib_store::{Mask, Mib, NoMemory};
use omci_types::{Code, EntityId, Software};
use std::alloc::Global;

/// Each class that the manager makes, with an attribute of it that may be written.
const CLASSES: [(u16, u16); 7] = [
    (45, 0x8000),
    (47, 0x2000),
    (84, 0x6000),
    (130, 0x8000),
    (266, 0x8000),
    (268, 0x8000),
    (272, 0x8000),
];

const TIMES: u32 = 100_000;

/// How many calls had the code 0, how many entities there are, and the counter.
struct Outcome {
    gets: u32,
    sets: u32,
    entities: usize,
    counter: u8,
}

fn main(rt: HostRuntime) -> std::io::Result<()> {
    match run(rt.alloc()) {
        Ok(outcome) => {
            let Outcome {
                gets,
                sets,
                entities,
                counter,
            } = outcome;
            println!(rt; "gets {gets} sets {sets} entities {entities} counter {counter}")
        }
        Err(_) => println!(rt; "no memory"),
    }
}

fn run(alloc: Global) -> Result<Outcome, NoMemory> {
    let software = Software {
        first: None,
        second: None,
        committed: 0,
        active: 0,
    };
    let mut mib = Mib::new(alloc, software)?;
    for place in 0..4085 {
        let _code = mib.create(entity(place), &[1; 32])?;
    }
    let mut gets = 0u32;
    let mut sets = 0u32;
    for turn in 0..TIMES {
        // A step that has no factor in common with the number of entities, so that the places are
        // spread.
        let place = turn % 4085 * 1009 % 4085;
        let mask = mask(place);
        if mib
            .set(entity(place), mask, &[turn.to_be_bytes()[3]; 30])
            .code
            == Code::SUCCESS
        {
            sets = sets.saturating_add(1);
        }
        if mib.get(entity(place), mask).code == Code::SUCCESS {
            gets = gets.saturating_add(1);
        }
    }
    Ok(Outcome {
        gets,
        sets,
        entities: mib.len(),
        counter: mib.counter(),
    })
}

/// The entity of a place: the classes in turn.
fn entity(place: u32) -> EntityId {
    EntityId {
        class: row(place).0,
        instance: (place / 7 % 65536) as u16,
    }
}

fn mask(place: u32) -> Mask {
    Mask(row(place).1)
}

fn row(place: u32) -> (u16, u16) {
    CLASSES[place as usize % 7]
}
