//! What the first bytes of a disk say of its slots.
ghost use Rattle.std.specs.Prelude.{◌≡◌, ℕ, ◌<◌, ◌≤◌, ◌+◌, length};
ghost use Rattle.slot_spec.specs.Layout.{gate_place, entry_place};
ghost use Rattle.slot_spec.specs.Header.{number_at, is_valid, entry_view, slot_header_in};
ghost use Rattle.slot_spec.specs.Header.{disk_header_in, has_unit};

use omci_types::SlotView;
use slot_spec::{
    COMMIT_PLACE, DiskHeader, ENTRY_BYTES, FIRST_ENTRY, FIRST_GATE, HEADER_BYTES, MAGIC, MAX_ROOM,
    OPEN_GATE, ROOM_PLACE, SECOND_ENTRY, SECOND_GATE, SlotHeader, VERSION_BYTES,
};

// The number in 4 bytes at a place.
#[tactic(auto, unfolding(slot_spec::specs::Header::number_at))]
pub fn number(bytes: &[u8], place: usize) -> u32
    requires inside { place + 4 ≤ length bytes.now }
    ensures number { result ≡ number_at place bytes.now }
{
    let mut four = [0; 4];
    four.copy_from_slice(&bytes[place..place + 4]);
    u32::from_be_bytes(four)
}

// Whether a disk of this length is one of slots.
#[tactic(auto, unfolding(slot_spec::specs::Header::has_unit))]
pub fn is_unit(head: &[u8], size: u64) -> bool
    requires whole { HEADER_BYTES ≤ length head.now }
    ensures unit { result ≡ has_unit size head.now }
{
    let room = number(head, ROOM_PLACE as usize);
    head[..8] == MAGIC[..]
        && room >= 1
        && room <= MAX_ROOM
        && HEADER_BYTES + 2 * u64::from(room) <= size
}

// What the head says of both slots.
#[tactic(auto, unfolding(slot_spec::specs::Header::disk_header_in))]
pub fn disk_header(head: &[u8]) -> DiskHeader
    requires whole { HEADER_BYTES ≤ length head.now }
    ensures header { result ≡ disk_header_in head.now }
    ensures slot { result.committed < 2 }
{
    let room = number(head, ROOM_PLACE as usize);
    DiskHeader {
        room,
        committed: head[COMMIT_PLACE as usize] % 2,
        first: first_header(head, room),
        second: second_header(head, room),
    }
}

// What it says of slot 0.
fn first_header(head: &[u8], room: u32) -> SlotHeader
    requires whole { HEADER_BYTES ≤ length head.now }
    ensures header { result ≡ slot_header_in room 0 head.now }
{
    header_at(head, room, 0, FIRST_GATE as usize, FIRST_ENTRY as usize)
}

// What it says of slot 1.
fn second_header(head: &[u8], room: u32) -> SlotHeader
    requires whole { HEADER_BYTES ≤ length head.now }
    ensures header { result ≡ slot_header_in room 1 head.now }
{
    header_at(head, room, 1, SECOND_GATE as usize, SECOND_ENTRY as usize)
}

// What it says of a slot whose gate and entry stand at these places.
#[tactic(auto, unfolding(slot_spec::specs::Header::slot_header_in))]
fn header_at(head: &[u8], room: u32, slot: u8, gate_at: usize, entry_at: usize) -> SlotHeader
    requires whole { HEADER_BYTES ≤ length head.now }
    requires gate { gate_at ≡ gate_place slot }
    requires entry { entry_at ≡ entry_place slot }
    requires low { entry_at < 4000 }
    requires low_gate { gate_at < 4000 }
    ensures header { result ≡ slot_header_in room slot head.now }
{
    let gate = head[gate_at];
    let given = number(head, entry_at);
    let view = if is_valid_slot(room, gate, given) {
        Some(view(head, entry_at))
    } else {
        None
    };
    SlotHeader {
        opened: gate == OPEN_GATE,
        view,
    }
}

// Whether a slot with this gate and this length is valid.
#[tactic(auto, unfolding(slot_spec::specs::Header::is_valid))]
fn is_valid_slot(room: u32, gate: u8, given: u32) -> bool
    ensures valid { result ≡ is_valid room gate given }
{
    gate == OPEN_GATE && given >= 1 && given <= room
}

// What the entry at a place says.
#[tactic(auto, unfolding(slot_spec::specs::Header::entry_view))]
fn view(head: &[u8], place: usize) -> SlotView
    requires inside { place + 22 ≤ length head.now }
    ensures view { result ≡ entry_view place head.now }
{
    let mut version = [0; VERSION_BYTES];
    version.copy_from_slice(&head[place + 8..place + ENTRY_BYTES]);
    SlotView {
        length: number(head, place),
        crc: number(head, place + 4),
        version,
    }
}
