//! Laws of messages: what is written is read again, a frame is read in at most one way, and one
//! frame of a message has zero padding. They stand over the definitions alone.
#![tactic(auto)]

ghost use Rattle.std.specs.Prelude.{◌≡◌, ◌↔◌, ◌<◌, ◌≤◌, ◌^◌, ℕ, All, length};
ghost use Rattle.omci_types.specs.declared.Frame.{Frame};
ghost use Rattle.message_laws.specs.Exchanges.{Exchanges};
ghost use Rattle.message_laws.specs.Faults.{IsUnknownType, HasWrongBits};
ghost use Rattle.message_laws.specs.Padding.{HasZeroPadding};
ghost use Rattle.message_spec.specs.declared.Message.{Message};
ghost use Rattle.message_spec.specs.declared.ContentsFault.TheVariants.{UnknownType, Bits};
ghost use Rattle.message_spec.specs.declared.TheConstants.{MAX_TEXT_BYTES};
ghost use Rattle.message_spec.specs.Codes.{code_table};
ghost use Rattle.message_spec.specs.Types.{layout};
ghost use Rattle.message_spec.specs.Reading.{message_kind, message_of, plain, IsFrameInRange, IsMessage, HasWindow, Reads};
ghost use Rattle.message_spec.specs.Text.{message_text};

/// A message that is written by its plain frame is read again.
pub fn written_is_read()
    ensures law { (m : Message) → IsMessage m → message_of (plain m) ≡ Ok m }
{}

/// A frame is read as a message exactly where that message reads the frame.
pub fn read_is_reading()
    ensures law { (f : Frame) → (m : Message) → f.kind < 256 → ((message_of f ≡ Ok m) ↔ Reads m f) }
{}

/// At most one message reads a frame.
pub fn one_reading()
    ensures law { (f : Frame) → (m : Message) → (n : Message) → Reads m f → Reads n f → m ≡ n }
{}

/// A frame has an unknown type exactly where the table has no such number, whatever its other bits
/// are.
pub fn unknown_type()
    ensures law { (f : Frame) → (number : ℕ) → ((message_of f ≡ Err (UnknownType number))
        ↔ IsUnknownType f number) }
{}

/// A frame of a known type has wrong bits exactly where no message of the table has its type byte.
pub fn wrong_bits()
    ensures law { (f : Frame) → (byte : ℕ) → f.kind < 256 → ((message_of f ≡ Err (Bits byte))
        ↔ HasWrongBits f byte) }
{}

/// The plain frame of a message is in range, is read as the message, and its padding is zero.
pub fn plain_frame()
    ensures range { (m : Message) → IsMessage m → IsFrameInRange (plain m) }
    ensures reads { (m : Message) → IsMessage m → Reads m (plain m) }
    ensures padding { (m : Message) → IsMessage m →
        HasZeroPadding (layout (message_kind m)) (plain m).contents }
{}

/// No other frame of the message has zero padding.
pub fn only_plain_frame()
    ensures law { (f : Frame) → (m : Message) → IsFrameInRange f → Reads m f →
        HasZeroPadding (layout (message_kind m)) f.contents → f ≡ plain m }
{}

/// What is read of a frame is a message in range, and has a window of 1 to 256 where it has one.
pub fn read_in_range()
    ensures message { (f : Frame) → (m : Message) → IsFrameInRange f → message_of f ≡ Ok m →
        IsMessage m }
    ensures window { (m : Message) → IsMessage m → HasWindow m }
{}

/// The definitions give what ordinary exchanges have.
pub fn exchanges_are_read()
    ensures law { Exchanges }
{}

/// Each result code has the number of the table.
pub fn codes_have_their_numbers()
    ensures law { All (λ row. row.code.0 ≡ row.number) code_table }
{}

/// No frame's text is longer than 98 bytes.
pub fn texts_are_short()
    ensures law { (f : Frame) → IsFrameInRange f → length (message_text f) ≤ MAX_TEXT_BYTES }
{}
