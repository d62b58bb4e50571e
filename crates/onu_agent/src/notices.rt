//! The notices that the unit gives.

ghost use Rattle.std.specs.Prelude.{◌≡◌, ◌≤◌, length};
ghost use Rattle.class_spec.specs.declared.TheConstants.{SET_ROOM};
ghost use Rattle.unit_spec.specs.Noticing.{value_notice, notice_packet};

use omci_contents::{Message, Notice, write_message};
use omci_core::{EntityId, Packet, filled};
use omci_frames::{FRAME_BYTES, encode};

/// The notice of an attribute's value.
pub fn value_notice(number: u8, value: &[u8]) -> Notice
    requires from_one { 1 ≤ number }
    requires to_sixteen { number ≤ 16 }
    requires fits { length value.now ≤ SET_ROOM }
    ensures value { result ≡ value_notice number value.now }
{
    Notice::Change {
        mask: 1 << (16 - number),
        values: filled(value),
    }
}

/// Puts the entity's notice into `out`, as a packet. It answers no request, so its TCI is 0.
pub fn give_notice(entity: EntityId, notice: Notice, out: &mut Packet)
    ensures given { out.new ≡ notice_packet entity notice }
    ensures whole { length out.new ≡ FRAME_BYTES }
{
    let message = Message::Told {
        tci: 0,
        entity,
        notice,
    };
    let mut bytes = [0; FRAME_BYTES];
    encode(&write_message(&message), &mut bytes);
    out.put(&bytes);
}
