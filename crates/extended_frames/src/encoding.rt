//! The spelling of an extended frame.

ghost use Rattle.std.specs.Prelude.{◌≡◌, ◌+◌, ◌≤◌, ◌++◌, ◌∷◌, [], length};
ghost use Rattle.std.specs.Int.{to_be_bytes, w16};
ghost use Rattle.extended_spec.specs.Frames.{long_checked, long_spelling};

use aal5_crc::crc_of;
use extended_contents::LongFrame;
use extended_spec::{EXTENDED_DEVICE, HEADER_BYTES, MAX_LONG_CONTENTS};
use omci_core::{MAX_PACKET_BYTES, Packet};
use omci_types::EntityId;

// Adds a number of two bytes at the packet's end.
fn append_number(into: &mut Packet, number: u16)
    requires { length into.old + 2 ≤ MAX_PACKET_BYTES }
    ensures appended { into.new ≡ into.old ++ to_be_bytes w16 number }
    ensures len { length into.new ≡ length into.old + 2 }
{
    into.append(&number.to_be_bytes());
}

// Adds the type byte and the device after it.
fn append_kind(into: &mut Packet, kind: u8)
    requires { length into.old + 2 ≤ MAX_PACKET_BYTES }
    ensures appended { into.new ≡ into.old ++ kind ∷ EXTENDED_DEVICE ∷ [] }
    ensures len { length into.new ≡ length into.old + 2 }
{
    into.append(&[kind, EXTENDED_DEVICE]);
}

// Adds bytes at the packet's end.
fn append_bytes(into: &mut Packet, bytes: &[u8])
    requires { length into.old + length bytes.now ≤ MAX_PACKET_BYTES }
    ensures appended { into.new ≡ into.old ++ bytes.now }
    ensures len { length into.new ≡ length into.old + length bytes.now }
{
    into.append(bytes);
}

// Writes what the check value is taken of, in place of the bytes that the packet had.
#[tactic(auto, unfolding(extended_spec::specs::Frames::long_checked))]
fn put_checked(into: &mut Packet, tci: u16, kind: u8, entity: EntityId, contents: &[u8])
    requires { length contents.now ≤ MAX_LONG_CONTENTS }
    ensures checked { into.new
        ≡ long_checked (record {
          tci = tci;
          kind = kind;
          entity = entity;
          contents = contents.now;
        }) }
    ensures len { length into.new ≡ HEADER_BYTES + length contents.now }
{
    into.clear();
    append_number(into, tci);
    append_kind(into, kind);
    append_number(into, entity.class);
    append_number(into, entity.instance);
    append_number(into, contents.len() as u16);
    append_bytes(into, contents);
}

/// Writes the frame's one spelling, in place of the bytes that the packet had.
#[tactic(auto, unfolding(extended_spec::specs::Frames::long_spelling))]
pub fn encode_long(frame: &LongFrame, into: &mut Packet)
    ensures spelled { into.new ≡ long_spelling frame.now }
{
    put_checked(
        into,
        frame.tci(),
        frame.kind(),
        frame.entity(),
        frame.contents(),
    );
    let check = crc_of(into.bytes());
    append_bytes(into, &check.to_be_bytes());
}
