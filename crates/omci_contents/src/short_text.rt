//! A short text that is built in place, so that a longer one takes it in at once.
//!
//! It has room for the text of a frame and for what stands around it in a line. Each call needs
//! room for the most bytes that it may add.

ghost use Rattle.std.specs.Prelude.{◌≡◌, ◌+◌, ◌*◌, ◌++◌, ◌∷◌, [], ◌<◌, ◌≤◌, length, decimal};
ghost use Rattle.std.specs.Int.{w16, to_be_bytes};
ghost use Rattle.hex.specs.Hex.{encode_lower};
ghost use Rattle.message_spec.specs.Types as spec;
ghost use Rattle.message_spec.specs.Text.{kind_name, kind_text, contents_text, message_text};
ghost use Rattle.omci_contents.specs.Digits.{three_digits};

use crate::kinds::read_kind;
use crate::texts::without_zeros;
use message_spec::{Action, Frame, Kind};
use omci_core::put_at;
use std::marker::Model;

/// So many bytes a short text has room for.
pub const SHORT_TEXT_BYTES: usize = 192;

/// The most bytes of a number.
pub const NUMBER_BYTES: usize = 20;

/// The most bytes of the text of a frame, with room for numbers of any size.
pub const FRAME_TEXT_BYTES: usize = 128;

/// The most bytes of the text of a type byte.
pub const KIND_BYTES: usize = 13;

/// The most bytes of the text of contents.
pub const CONTENTS_TEXT_BYTES: usize = 64;

/// A text of at most 192 bytes, in place. Contracts see its bytes.
#[derive(Drop)]
pub struct ShortText {
    bytes: [u8; SHORT_TEXT_BYTES],
    len: usize,
}

impl Model for ShortText {
    ghost use Rattle.std.specs.Prelude.{ℕ, ◌≤◌, List, take};
    ghost use Rattle.omci_contents.specs.declared.short_text.TheConstants.{SHORT_TEXT_BYTES};

    ghost Value = { List ℕ };

    ghost view = { λ t. take t.len t.bytes };

    ghost invariant = { λ t. t.len ≤ SHORT_TEXT_BYTES };
}

impl ShortText {
    /// No bytes yet.
    #[inline(always)]
    pub fn new() -> ShortText
        ensures empty { result ≡ [] }
    {
        ShortText {
            bytes: [0; SHORT_TEXT_BYTES],
            len: 0,
        }
    }

    /// The bytes.
    pub fn bytes(&self) -> &[u8]
        ensures value { result.now ≡ self.now }
    {
        &self.bytes[..self.len]
    }

    /// Adds some bytes.
    #[inline(always)]
    pub fn append(&mut self, piece: &[u8])
        requires room { length self.old + length piece.now ≤ SHORT_TEXT_BYTES }
        ensures text { self.new ≡ self.old ++ piece.now }
        ensures grown { length self.new ≡ length self.old + length piece.now }
    {
        put_at(&mut self.bytes, self.len, piece);
        self.len += piece.len();
    }

    /// Adds the decimal digits of a number below 1,000.
    #[inline(always)]
    #[tactic(auto, using(crate::proofs::Numbers::one_digit, crate::proofs::Numbers::two_digits, crate::proofs::Numbers::three_alone))]
    fn append_few_digits(&mut self, number: u64)
        requires few { number < 1000 }
        requires room { length self.old + 3 ≤ SHORT_TEXT_BYTES }
        ensures text { self.new ≡ self.old ++ decimal number }
        ensures grown { length self.new ≤ length self.old + 3 }
    {
        if number < 10 {
            self.append(&[b'0' + number as u8]);
            return;
        }
        if number < 100 {
            self.append(&[b'0' + (number / 10) as u8, b'0' + (number % 10) as u8]);
            return;
        }
        self.append(&three_digits(number));
    }

    /// Adds the decimal digits of a number of seven digits or more.
    fn append_many_digits(&mut self, number: u64)
        requires room { length self.old + NUMBER_BYTES ≤ SHORT_TEXT_BYTES }
        ensures text { self.new ≡ self.old ++ decimal number }
        ensures grown { length self.new ≤ length self.old + NUMBER_BYTES }
    {
        let mut buffer = itoa::Buffer::new();
        self.append(buffer.format(number).as_bytes());
    }

    /// Adds the decimal digits of a number, at most 20.
    #[tactic(auto, using(crate::proofs::Numbers::three_after))]
    pub fn append_number(&mut self, number: u64)
        requires room { length self.old + NUMBER_BYTES ≤ SHORT_TEXT_BYTES }
        ensures text { self.new ≡ self.old ++ decimal number }
        ensures grown { length self.new ≤ length self.old + NUMBER_BYTES }
    {
        if number < 1000 {
            self.append_few_digits(number);
            return;
        }
        if number >= 1_000_000 {
            self.append_many_digits(number);
            return;
        }
        self.append_few_digits(number / 1000);
        self.append(&three_digits(number % 1000));
    }

    /// Adds the four hex digits of a TCI.
    #[inline(always)]
    fn append_tci(&mut self, tci: u16)
        requires room { length self.old + 4 ≤ SHORT_TEXT_BYTES }
        ensures text { self.new ≡ self.old ++ encode_lower (to_be_bytes w16 tci) }
        ensures grown { length self.new ≡ length self.old + 4 }
    {
        let mut digits = [0; 4];
        hex::encode_to_slice(tci.to_be_bytes(), &mut digits).unwrap();
        self.append(&digits);
    }

    /// Adds the name of a command, at most 11 bytes.
    #[inline(always)]
    fn append_name(&mut self, action: Action)
        requires room { length self.old + 11 ≤ SHORT_TEXT_BYTES }
        ensures text { self.new ≡ self.old ++ (spec.row action).name }
        ensures grown { length self.new ≤ length self.old + 11 }
    {
        match action {
            Action::Create => self.append(b"create"),
            Action::Delete => self.append(b"delete"),
            Action::Set => self.append(b"set"),
            Action::Get => self.append(b"get"),
            Action::Alarms => self.append(b"alarms"),
            Action::AlarmsNext => self.append(b"alarms-next"),
            Action::Upload => self.append(b"upload"),
            Action::UploadNext => self.append(b"upload-next"),
            Action::Reset => self.append(b"reset"),
            Action::Start => self.append(b"start"),
            Action::Section => self.append(b"section"),
            Action::End => self.append(b"end"),
            Action::Activate => self.append(b"activate"),
            Action::Commit => self.append(b"commit"),
            Action::Reboot => self.append(b"reboot"),
        }
    }

    /// Adds the name of a kind, at most 13 bytes.
    fn append_kind(&mut self, kind: Kind)
        requires room { length self.old + KIND_BYTES ≤ SHORT_TEXT_BYTES }
        ensures text { self.new ≡ self.old ++ kind_name kind }
        ensures grown { length self.new ≤ length self.old + KIND_BYTES }
    {
        match kind {
            Kind::Request(Action::Section) => self.append(b"section-ar"),
            Kind::Request(action) => self.append_name(action),
            Kind::UnansweredSection => self.append(b"section"),
            Kind::Response(action) => {
                self.append_name(action);
                self.append(b"-r");
            }
            Kind::Alarm => self.append(b"alarm"),
            Kind::Change => self.append(b"change"),
        }
    }

    /// Adds the text of a type byte.
    #[tactic(auto, unfolding(message_spec::specs::Text::kind_text))]
    fn append_kind_text(&mut self, byte: u8)
        requires room { length self.old + KIND_BYTES ≤ SHORT_TEXT_BYTES }
        ensures text { self.new ≡ self.old ++ kind_text byte }
        ensures grown { length self.new ≤ length self.old + KIND_BYTES }
    {
        match read_kind(byte) {
            Ok(kind) => self.append_kind(kind),
            Err(_) => {
                self.append(b"type-");
                self.append_hex(&[byte]);
            }
        }
    }

    /// Adds the lower-case hex digits of at most 32 bytes.
    fn append_hex(&mut self, bytes: &[u8])
        requires few { length bytes.now ≤ 32 }
        requires room { length self.old + 2 * length bytes.now ≤ SHORT_TEXT_BYTES }
        ensures text { self.new ≡ self.old ++ encode_lower bytes.now }
        ensures grown { length self.new ≡ length self.old + 2 * length bytes.now }
    {
        let end = self.len + 2 * bytes.len();
        hex::encode_to_slice(bytes, &mut self.bytes[self.len..end]).unwrap();
        self.len = end;
    }

    /// Adds the text of at most 32 contents bytes.
    #[tactic(auto, unfolding(message_spec::specs::Text::contents_text))]
    fn append_contents_text(&mut self, contents: &[u8])
        requires few { length contents.now ≤ 32 }
        requires room { length self.old + CONTENTS_TEXT_BYTES ≤ SHORT_TEXT_BYTES }
        ensures text { self.new ≡ self.old ++ contents_text contents.now }
        ensures grown { length self.new ≤ length self.old + CONTENTS_TEXT_BYTES }
    {
        let said = without_zeros(contents);
        if said.is_empty() {
            self.append(b"-");
        } else {
            self.append_hex(said);
        }
    }

    /// Adds the text of a frame, as [`push_text`](crate::push_text) appends it.
    #[tactic(auto, unfolding(message_spec::specs::Text::message_text))]
    pub fn append_text(&mut self, frame: &Frame)
        requires room { length self.old + FRAME_TEXT_BYTES ≤ SHORT_TEXT_BYTES }
        ensures text { self.new ≡ self.old ++ message_text frame.now }
        ensures grown { length self.new ≤ length self.old + FRAME_TEXT_BYTES }
    {
        self.append_tci(frame.tci);
        self.append(b" 0a ");
        self.append_kind_text(frame.kind);
        self.append(b" ");
        self.append_number(frame.entity.class as u64);
        self.append(b" ");
        self.append_number(frame.entity.instance as u64);
        self.append(b" ");
        self.append_contents_text(&frame.contents);
    }
}

/// The three decimal digits of a number below 1,000, with zeros in front.
#[inline(always)]
fn three_digits(number: u64) -> [u8; 3]
    requires { number < 1000 }
    ensures value { result ≡ three_digits number }
{
    let tens = number / 10;
    let hundreds = number / 100;
    [
        b'0' + hundreds as u8,
        b'0' + (tens - hundreds * 10) as u8,
        b'0' + (number - tens * 10) as u8,
    ]
}
