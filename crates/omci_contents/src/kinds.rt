//! The type byte: the message type in its low five bits, and the bits AR and AK.

ghost use Rattle.std.specs.Prelude.{◌≡◌};
ghost use Rattle.message_spec.specs.Types.{type_numbered, command_kind, kind_flagged, kind_of, type_byte};
ghost use Rattle.message_spec.specs.Types as spec;

use message_spec::{AK, AR, Action, ContentsFault, FLAG_BITS, Kind, MessageType, TYPE_BITS};

// The message type of a number.
#[tactic(auto, unfolding(message_spec::specs::Types::type_numbered))]
fn message_type(number: u8) -> Option<MessageType>
    ensures { result ≡ type_numbered number }
{
    let message_type = match number {
        4 => MessageType::Command(Action::Create),
        6 => MessageType::Command(Action::Delete),
        8 => MessageType::Command(Action::Set),
        9 => MessageType::Command(Action::Get),
        11 => MessageType::Command(Action::Alarms),
        12 => MessageType::Command(Action::AlarmsNext),
        13 => MessageType::Command(Action::Upload),
        14 => MessageType::Command(Action::UploadNext),
        15 => MessageType::Command(Action::Reset),
        16 => MessageType::Alarm,
        17 => MessageType::Change,
        19 => MessageType::Command(Action::Start),
        20 => MessageType::Command(Action::Section),
        21 => MessageType::Command(Action::End),
        22 => MessageType::Command(Action::Activate),
        23 => MessageType::Command(Action::Commit),
        25 => MessageType::Command(Action::Reboot),
        _ => return None,
    };
    Some(message_type)
}

// The kind of a type under some flags.
fn kind_under(message_type: MessageType, flags: u8) -> Option<Kind>
    ensures { result ≡ kind_flagged message_type flags }
{
    match (message_type, flags) {
        (MessageType::Command(action), AR) => Some(Kind::Request(action)),
        (MessageType::Command(action), AK) => Some(Kind::Response(action)),
        (MessageType::Command(Action::Section), 0) => Some(Kind::UnansweredSection),
        (MessageType::Alarm, 0) => Some(Kind::Alarm),
        (MessageType::Change, 0) => Some(Kind::Change),
        _ => None,
    }
}

/// What a type byte stands for. `UnknownType` where its low five bits are the number of no message
/// type, and else `Bits` where the other three are those of none of its messages.
#[tactic(auto, unfolding(message_spec::specs::Types::kind_of))]
pub fn read_kind(byte: u8) -> Result<Kind, ContentsFault>
    ensures value { result ≡ kind_of byte }
{
    let number = byte & TYPE_BITS;
    let Some(message_type) = message_type(number) else {
        return Err(ContentsFault::UnknownType { number });
    };
    let Some(kind) = kind_under(message_type, byte & FLAG_BITS) else {
        return Err(ContentsFault::Bits { kind: byte });
    };
    Ok(kind)
}

// The number of a command's message type.
fn number(action: Action) -> u8
    ensures { result ≡ (spec.row action).number }
{
    match action {
        Action::Create => 4,
        Action::Delete => 6,
        Action::Set => 8,
        Action::Get => 9,
        Action::Alarms => 11,
        Action::AlarmsNext => 12,
        Action::Upload => 13,
        Action::UploadNext => 14,
        Action::Reset => 15,
        Action::Start => 19,
        Action::Section => 20,
        Action::End => 21,
        Action::Activate => 22,
        Action::Commit => 23,
        Action::Reboot => 25,
    }
}

/// The type byte of a kind.
pub fn write_kind(kind: Kind) -> u8
    ensures value { result ≡ type_byte kind }
{
    match kind {
        Kind::Request(action) => AR | number(action),
        Kind::UnansweredSection => number(Action::Section),
        Kind::Response(action) => AK | number(action),
        Kind::Alarm => 16,
        Kind::Change => 17,
    }
}
