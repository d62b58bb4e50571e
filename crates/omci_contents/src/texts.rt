//! The text of a message.

ghost use Rattle.std.specs.Prelude.{◌≡◌, ◌+◌, ◌≤◌, ◌++◌, length, take, drop, OnOk, IfOk};
ghost use Rattle.std.specs.Int.{from_be_bytes, w32, w64};
ghost use Rattle.message_spec.specs.Types as spec;
ghost use Rattle.message_spec.specs.Text.{kind_name, kind_text, cut, contents_text, message_text};
ghost use Rattle.omci_contents.specs.Front.{IsFront};

use crate::append::{push_bytes, push_hex};
use crate::kinds::read_kind;
use crate::short_text::ShortText;
use message_spec::{Action, Frame, Kind, MAX_TEXT_BYTES};
use omci_core::NoMemory;
use std::alloc::Global;

// The name of a command.
fn name(action: Action) -> &'static [u8]
    ensures { result.now ≡ (spec.row action).name }
{
    match action {
        Action::Create => b"create",
        Action::Delete => b"delete",
        Action::Set => b"set",
        Action::Get => b"get",
        Action::Alarms => b"alarms",
        Action::AlarmsNext => b"alarms-next",
        Action::Upload => b"upload",
        Action::UploadNext => b"upload-next",
        Action::Reset => b"reset",
        Action::Start => b"start",
        Action::Section => b"section",
        Action::End => b"end",
        Action::Activate => b"activate",
        Action::Commit => b"commit",
        Action::Reboot => b"reboot",
    }
}

// Appends the name of a kind.
fn push_kind(out: &mut Vec<u8>, kind: Kind) -> Result<(), NoMemory>
    ensures text { OnOk result (out.new.items ≡ out.old.items ++ kind_name kind) }
    ensures front { IsFront out.old.items out.new.items }
{
    match kind {
        Kind::Request(Action::Section) => push_bytes(out, b"section-ar"),
        Kind::Request(action) => push_bytes(out, name(action)),
        Kind::UnansweredSection => push_bytes(out, b"section"),
        Kind::Response(action) => {
            push_bytes(out, name(action))?;
            push_bytes(out, b"-r")
        }
        Kind::Alarm => push_bytes(out, b"alarm"),
        Kind::Change => push_bytes(out, b"change"),
    }
}

/// Appends the text of a type byte: the name of its kind, or `type-` and its two hex digits.
#[tactic(auto, unfolding(message_spec::specs::Text::kind_text))]
pub fn push_kind_text(out: &mut Vec<u8>, byte: u8) -> Result<(), NoMemory>
    ensures text { OnOk result (out.new.items ≡ out.old.items ++ kind_text byte) }
    ensures front { IsFront out.old.items out.new.items }
{
    match read_kind(byte) {
        Ok(kind) => push_kind(out, kind),
        Err(_) => {
            push_bytes(out, b"type-")?;
            push_hex(out, &[byte])
        }
    }
}

// The number that the eight bytes at a place are.
fn number_at(bytes: &[u8], place: usize) -> u64
    requires { place + 8 ≤ length bytes.now }
    ensures value { result ≡ from_be_bytes w64 (take 8 (drop place bytes.now)) }
{
    let mut eight = [0; 8];
    eight.copy_from_slice(&bytes[place..place + 8]);
    u64::from_be_bytes(eight)
}

// The number that the four bytes at a place are.
fn half_number_at(bytes: &[u8], place: usize) -> u32
    requires { place + 4 ≤ length bytes.now }
    ensures value { result ≡ from_be_bytes w32 (take 4 (drop place bytes.now)) }
{
    let mut four = [0; 4];
    four.copy_from_slice(&bytes[place..place + 4]);
    u32::from_be_bytes(four)
}

// How many bytes are left where zeros at the end are cut eight at a time. Of the zeros, fewer than
// eight may be left.
fn eights_passed(bytes: &[u8]) -> usize
    ensures value { cut (take result bytes.now) ≡ cut bytes.now }
    ensures bound { result ≤ length bytes.now }
{
    let mut end = bytes.len();
    while end >= 8 && number_at(bytes, end - 8) == 0 {
        end -= 8;
    }
    end
}

// How many bytes are left where zeros at the end are cut eight at a time, and then four. Of the
// zeros, fewer than four may be left.
fn zeros_passed(bytes: &[u8]) -> usize
    ensures value { cut (take result bytes.now) ≡ cut bytes.now }
    ensures bound { result ≤ length bytes.now }
{
    let end = eights_passed(bytes);
    if end >= 4 && half_number_at(bytes, end - 4) == 0 {
        return end - 4;
    }
    end
}

// Some bytes without the zeros at their end.
pub(crate) fn without_zeros(bytes: &[u8]) -> &[u8]
    ensures value { result.now ≡ cut bytes.now }
    ensures bound { length result.now ≤ length bytes.now }
{
    let mut end = zeros_passed(bytes);
    while end > 0 && bytes[end - 1] == 0 {
        end -= 1;
    }
    &bytes[..end]
}

/// Appends the text of at most 32 contents bytes, as it ends a frame's text: their hex digits
/// without the zero bytes at the end, or `-`. `NoMemory` as in the calls that it is made of.
#[tactic(auto, unfolding(message_spec::specs::Text::contents_text))]
pub fn push_contents_text(out: &mut Vec<u8>, contents: &[u8]) -> Result<(), NoMemory>
    ensures text { OnOk result (out.new.items ≡ out.old.items ++ contents_text contents.now) }
    ensures front { IsFront out.old.items out.new.items }
{
    let said = without_zeros(contents);
    if said.is_empty() {
        push_bytes(out, b"-")
    } else {
        push_hex(out, said)
    }
}

/// Appends the text of a frame: TCI, device, kind, class, instance and contents, with one space
/// between.
///
/// The TCI has four hex digits, the device is `0a`, class and instance are decimal. The kind is the
/// name of a request's type, that name and `-r` for a response, `section-ar` for a section with AR,
/// `alarm`, `change`, or `type-` and two hex digits for a type byte that stands for none of these.
/// The contents are in hex without the zero bytes at their end, or `-`. Hex is lower case.
///
/// `NoMemory` where `out` can't grow; it then still begins with what it held. No other memory is
/// taken.
#[tactic(auto, unfolding(message_spec::specs::Text::message_text))]
pub fn push_text(out: &mut Vec<u8>, frame: &Frame) -> Result<(), NoMemory>
    ensures text { OnOk result (out.new.items ≡ out.old.items ++ message_text frame.now) }
    ensures front { IsFront out.old.items out.new.items }
{
    let mut text = ShortText::new();
    text.append_text(frame);
    push_bytes(out, text.bytes())
}

/// The text of a frame, as `push_text` appends it. `NoMemory` where there is no room for it.
pub fn text(alloc: Global, frame: &Frame) -> Result<Vec<u8>, NoMemory>
    ensures value { IfOk result (λ text. text.items ≡ message_text frame.now) }
{
    let mut out = Vec::with_capacity(alloc, MAX_TEXT_BYTES)?;
    push_text(&mut out, frame)?;
    Ok(out)
}
