//! What a frame asks of the monitors, and the contents of the reply.

ghost use Rattle.std.specs.Prelude.{◌≡◌, ◌+◌, ◌≤◌, ◌++◌, ◌∷◌, [], length, nat_le, if◌then◌else◌, Some, None};
ghost use Rattle.std.specs.Int.{w16, to_be_bytes};
ghost use Rattle.frame_spec.specs.declared.TheConstants.{CONTENTS_BYTES};
ghost use Rattle.meter_spec.specs.declared.TheConstants.{ATTRIBUTES, VALUE_BYTES};
ghost use Rattle.class_spec.specs.Masks.{has};
ghost use Rattle.meter_spec.specs.Events.{command_of, monitor_command};
ghost use Rattle.meter_spec.specs.Replies.{padded, code_alone, attribute_bytes, values_of, asked_mask, read_from};

use frame_spec::CONTENTS_BYTES;
use meter_spec::{
    ATTRIBUTES, COUNTERS, CREATE, Command, DELETE, FIRST_COUNTER, GET, GET_CURRENT_DATA,
    MONITOR_CLASS, Monitor, ONU_CLASS, SYNCHRONIZE_TIME, VALUE_BYTES,
};
use omci_attributes::Mask;
use omci_core::put_at;
use omci_types::{Code, Frame};
use std::marker::Model;

/// What a type byte asks of a monitor.
fn monitor_command(kind: u8) -> Option<Command>
    ensures { result ≡ monitor_command kind }
{
    match kind {
        CREATE => Some(Command::Create),
        DELETE => Some(Command::Delete),
        GET => Some(Command::Get),
        GET_CURRENT_DATA => Some(Command::GetCurrent),
        _ => None,
    }
}

/// What a frame asks of the monitors, if it is a request to them.
#[tactic(auto, unfolding(meter_spec::specs::Events::command_of))]
pub(crate) fn command_of(frame: &Frame) -> Option<Command>
    ensures { result ≡ command_of frame.now }
{
    match frame.entity.class {
        MONITOR_CLASS => monitor_command(frame.kind),
        ONU_CLASS if frame.kind == SYNCHRONIZE_TIME => Some(Command::SynchronizeTime),
        _ => None,
    }
}

/// The mask that a get asks for.
#[tactic(auto, unfolding(meter_spec::specs::Replies::asked_mask))]
pub(crate) fn asked_mask(frame: &Frame) -> u16
    ensures { result ≡ asked_mask frame.now }
{
    u16::from_be_bytes([frame.contents[0], frame.contents[1]])
}

/// Contents that are being written: the bytes so far, and zeros behind them.
#[derive(Drop)]
struct Written {
    bytes: [u8; CONTENTS_BYTES],
    len: usize,
}

impl Model for Written {
    ghost use Rattle.std.specs.Prelude.{◌≡◌, ◌-◌, ◌≤◌, ℕ, List, take, drop, replicate};
    ghost use Rattle.frame_spec.specs.declared.TheConstants.{CONTENTS_BYTES};

    ghost Value = { List ℕ };

    ghost view = { λ w. take w.len w.bytes };

    ghost invariant = { λ w. (w.len ≤ CONTENTS_BYTES)
        × (drop w.len w.bytes ≡ replicate (CONTENTS_BYTES - w.len) 0) };
}

impl Written {
    fn new() -> Written
        ensures { result ≡ [] }
    {
        Written {
            bytes: [0; CONTENTS_BYTES],
            len: 0,
        }
    }

    fn len(&self) -> usize
        ensures { result ≡ length self.now }
    {
        self.len
    }

    fn push(&mut self, bytes: &[u8])
        requires { length self.old + length bytes.now ≤ CONTENTS_BYTES }
        ensures { self.new ≡ self.old ++ bytes.now }
    {
        put_at(&mut self.bytes, self.len, bytes);
        self.len += bytes.len();
    }

    #[tactic(auto, unfolding(meter_spec::specs::Replies::padded))]
    fn contents(&self) -> [u8; CONTENTS_BYTES]
        ensures { result ≡ padded self.now }
    {
        self.bytes
    }
}

/// Contents that are a code alone.
#[tactic(auto, unfolding(meter_spec::specs::Replies::padded))]
pub(crate) fn code_alone(code: Code) -> [u8; CONTENTS_BYTES]
    ensures { result ≡ code_alone code.0 }
{
    let mut contents = [0; CONTENTS_BYTES];
    contents[0] = code.0;
    contents
}

/// The bytes before the values of a get's reply: the code and the mask.
const HEAD_BYTES: usize = 3;

/// Appends the bytes of an attribute, with one of the monitor's two rows of counters.
#[tactic(auto, unfolding(meter_spec::specs::Replies::attribute_bytes))]
fn push_attribute(contents: &mut Written, monitor: &Monitor, row: &[u32; COUNTERS], attribute: u8)
    requires there { (1 ≤ attribute) × (attribute ≤ ATTRIBUTES) }
    requires room { length contents.old + 4 ≤ CONTENTS_BYTES }
    ensures { contents.new ≡ contents.old ++ attribute_bytes monitor.now row.now attribute }
{
    match attribute {
        1 => contents.push(&[monitor.number]),
        2 => contents.push(&monitor.setting),
        _ => contents.push(&row[usize::from(attribute - FIRST_COUNTER)].to_be_bytes()),
    }
}

/// Appends the bytes of an attribute, if the mask names it.
fn push_named(
    contents: &mut Written,
    monitor: &Monitor,
    row: &[u32; COUNTERS],
    mask: u16,
    attribute: u8,
)
    requires there { (1 ≤ attribute) × (attribute ≤ ATTRIBUTES) }
    requires room { length contents.old + 4 ≤ CONTENTS_BYTES }
    ensures { contents.new ≡ contents.old
        ++ (if has mask attribute then attribute_bytes monitor.now row.now attribute else []) }
{
    if Mask(mask).has(attribute) {
        push_attribute(contents, monitor, row, attribute);
    }
}

/// Code 0, the mask and the values that it names; `None` where these need too many bytes.
#[tactic(auto, using(crate::proofs::Puts::values_next, crate::proofs::Puts::values_le), unfolding(meter_spec::specs::Replies::values_of))]
fn gather(monitor: &Monitor, row: &[u32; COUNTERS], mask: u16) -> Option<Written>
    ensures { result ≡ (if nat_le (length (values_of monitor.now row.now mask ATTRIBUTES)) VALUE_BYTES
        then Some (0 ∷ to_be_bytes w16 mask ++ values_of monitor.now row.now mask ATTRIBUTES)
        else None) }
{
    let mut contents = Written::new();
    contents.push(&[Code::SUCCESS.0]);
    contents.push(&mask.to_be_bytes());
    for earlier in 0..ATTRIBUTES {
        push_named(&mut contents, monitor, row, mask, earlier + 1);
        if contents.len() > HEAD_BYTES + VALUE_BYTES {
            return None;
        }
    }
    Some(contents)
}

/// The contents of the reply to a get of one of the monitor's two rows of counters.
#[tactic(auto, unfolding(meter_spec::specs::Replies::given))]
pub(crate) fn read(monitor: &Monitor, row: &[u32; COUNTERS], mask: u16) -> [u8; CONTENTS_BYTES]
    ensures { result ≡ read_from monitor.now row.now mask }
{
    match gather(monitor, row, mask) {
        Some(contents) => contents.contents(),
        None => code_alone(Code::PARAMETER_ERROR),
    }
}
