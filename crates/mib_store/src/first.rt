//! The first database.

ghost use Rattle.std.specs.Prelude.{◌≡◌, ◌<◌, if◌then◌else◌};
ghost use Rattle.mib_spec.specs.Database.{slot, image_values, first_with, ethernet, onu_g, onu2_g};
ghost use Rattle.mib_spec.specs.Database.{t_cont};
ghost use Rattle.mib_store.specs.Entries.{values_in, database_of, keys_of, image_by, IsTable};

use crate::entry::{Entry, ROOM};
use crate::layout::put;
use mib_spec::UNIT_ENTITIES;
use omci_types::{EntityId, SlotView, Software};

/// The values of the software image in this slot, 0 or 1.
pub(crate) fn image_of(number: u8, software: &Software) -> [u8; ROOM]
    requires { number < 2 }
    ensures { values_in 7 result ≡ image_values number software.now }
{
    let committed = software.committed == number;
    let active = software.active == number;
    match view_of(number, software) {
        Some(view) => image(&view.version, committed, active, true),
        None => image(&[0; 14], committed, active, false),
    }
}

fn view_of(number: u8, software: &Software) -> Option<SlotView>
    requires { number < 2 }
    ensures { result ≡ slot number software.now }
{
    if number == 0 {
        software.first
    } else {
        software.second
    }
}

/// The values of a software image: its version, whether it is committed, whether it is active, and
/// whether it is valid.
fn image(version: &[u8; 14], committed: bool, active: bool, valid: bool) -> [u8; ROOM]
    ensures { values_in 7 result ≡ image_by version.now committed active valid }
{
    let mut values = [0; ROOM];
    put(version, &mut values, 0);
    put(
        &[flag(committed), flag(active), flag(valid)],
        &mut values,
        14,
    );
    values
}

fn flag(on: bool) -> u8
    ensures { result ≡ (if on then 1 else 0) }
{
    u8::from(on)
}

/// The entities of the first database in ascending order, with these values of the two software
/// images.
pub(crate) fn first_entries(first: [u8; ROOM], second: [u8; ROOM]) -> [Entry; UNIT_ENTITIES]
    ensures seen { database_of result ≡ first_with (values_in 7 first) (values_in 7 second) }
    ensures table { IsTable (keys_of result) }
{
    let ethernet = ethernet();
    let t_cont = t_cont();
    [
        unit_entry(2, 0, [0; ROOM]),
        unit_entry(7, 0, first),
        unit_entry(7, 1, second),
        unit_entry(11, 257, ethernet),
        unit_entry(11, 258, ethernet),
        unit_entry(11, 259, ethernet),
        unit_entry(11, 260, ethernet),
        unit_entry(256, 0, onu_g()),
        unit_entry(257, 0, onu2_g()),
        unit_entry(262, 32769, t_cont),
        unit_entry(262, 32770, t_cont),
    ]
}

fn unit_entry(class: u16, instance: u16, values: [u8; ROOM]) -> Entry
    ensures { result
        ≡ record { entity = record { class = class; instance = instance }; values = values } }
{
    Entry {
        entity: EntityId { class, instance },
        values,
    }
}

/// A PPTP Ethernet UNI: its largest frame has 1518 bytes.
#[tactic(auto, unfolding(crate::specs::Entries::values_in, class_spec::specs::Classes::class_row, class_spec::specs::Classes::class_table, mib_spec::specs::Database::ethernet, mib_spec::specs::Database::zeros_of))]
fn ethernet() -> [u8; ROOM]
    ensures { values_in 11 result ≡ ethernet }
{
    let mut values = [0; ROOM];
    values[7] = 0x05;
    values[8] = 0xee;
    values
}

/// The ONU-G: its vendor `OMC1` and its serial number.
fn onu_g() -> [u8; ROOM]
    ensures { values_in 256 result ≡ onu_g }
{
    let mut values = [0; ROOM];
    values[..4].copy_from_slice(b"OMC1");
    values[18..26].copy_from_slice(b"OMC1\x00\x00\x00\x01");
    values
}

/// The ONU2-G.
#[tactic(auto, unfolding(crate::specs::Entries::values_in, class_spec::specs::Classes::class_row, class_spec::specs::Classes::class_table, mib_spec::specs::Database::onu2_g, mib_spec::specs::Database::zeros_of))]
fn onu2_g() -> [u8; ROOM]
    ensures { values_in 257 result ≡ onu2_g }
{
    let mut values = [0; ROOM];
    values[20] = 0xa0;
    values[23] = 1;
    values[24] = 1;
    values
}

/// A T-CONT without an allocation identifier.
#[tactic(auto, unfolding(crate::specs::Entries::values_in, class_spec::specs::Classes::class_row, class_spec::specs::Classes::class_table, mib_spec::specs::Database::t_cont, mib_spec::specs::Database::zeros_of))]
fn t_cont() -> [u8; ROOM]
    ensures { values_in 262 result ≡ t_cont }
{
    let mut values = [0; ROOM];
    values[1] = 0xff;
    values[3] = 1;
    values
}
