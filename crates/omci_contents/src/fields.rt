//! The fields of contents: numbers and rows of bytes, by the number of their first byte in the
//! message. Contents are bytes 9 to 40.

ghost use Rattle.std.specs.Prelude.{◌≡◌, ◌+◌, ◌-◌, ◌≤◌, ◌∷◌, [], length, take, drop, slice_index};
ghost use Rattle.std.specs.Int.{w16, w32, from_be_bytes, to_be_bytes};
ghost use Rattle.message_spec.specs.Fields.{put, padding};

use frame_spec::CONTENTS_BYTES;
use message_spec::FIRST_CONTENTS_BYTE;
use omci_core::put_at;

// The number of one byte.
pub fn byte_at(contents: &[u8; CONTENTS_BYTES], first: usize) -> u8
    requires { (9 ≤ first) × (first ≤ 40) }
    ensures { result ≡ slice_index contents.now (first - 9) }
{
    contents[first - FIRST_CONTENTS_BYTE]
}

// Some bytes.
pub fn row_at<const N: usize>(contents: &[u8; CONTENTS_BYTES], first: usize) -> [u8; N]
    requires { (9 ≤ first) × (first + N ≤ 41) }
    ensures { result ≡ take N (drop (first - 9) contents.now) }
{
    let mut row = [0; N];
    row.copy_from_slice(&contents[first - FIRST_CONTENTS_BYTE..first - FIRST_CONTENTS_BYTE + N]);
    row
}

// The number of two bytes.
pub fn two_at(contents: &[u8; CONTENTS_BYTES], first: usize) -> u16
    requires { (9 ≤ first) × (first ≤ 39) }
    ensures { result ≡ from_be_bytes w16 (take 2 (drop (first - 9) contents.now)) }
{
    u16::from_be_bytes(row_at(contents, first))
}

// The number of four bytes.
pub fn four_at(contents: &[u8; CONTENTS_BYTES], first: usize) -> u32
    requires { (9 ≤ first) × (first ≤ 37) }
    ensures { result ≡ from_be_bytes w32 (take 4 (drop (first - 9) contents.now)) }
{
    u32::from_be_bytes(row_at(contents, first))
}

/// Contents that are being written: zeros, and the fields so far.
#[derive(Clone, Copy)]
pub struct Contents(pub [u8; CONTENTS_BYTES]);

impl Contents {
    // Zeros alone.
    #[tactic(auto, unfolding(message_spec::specs::Fields::padding))]
    pub fn padding() -> Contents
        ensures { result.0 ≡ padding }
    {
        Contents([0; CONTENTS_BYTES])
    }

    // Puts some bytes.
    #[tactic(auto, unfolding(message_spec::specs::Fields::put))]
    pub fn row<const N: usize>(mut self, first: usize, bytes: &[u8; N]) -> Contents
        requires { (9 ≤ first) × (first + N ≤ 41) }
        ensures { result.0 ≡ put (first - 9) bytes.now self.0 }
    {
        put_at(&mut self.0, first - FIRST_CONTENTS_BYTE, bytes);
        self
    }

    // Puts a number of one byte.
    pub fn byte(self, first: usize, value: u8) -> Contents
        requires { (9 ≤ first) × (first ≤ 40) }
        ensures { result.0 ≡ put (first - 9) (value ∷ []) self.0 }
    {
        self.row(first, &[value])
    }

    // Puts a number of two bytes.
    pub fn two(self, first: usize, value: u16) -> Contents
        requires { (9 ≤ first) × (first ≤ 39) }
        ensures { result.0 ≡ put (first - 9) (to_be_bytes w16 value) self.0 }
    {
        self.row(first, &value.to_be_bytes())
    }

    // Puts a number of four bytes.
    pub fn four(self, first: usize, value: u32) -> Contents
        requires { (9 ≤ first) × (first ≤ 37) }
        ensures { result.0 ≡ put (first - 9) (to_be_bytes w32 value) self.0 }
    {
        self.row(first, &value.to_be_bytes())
    }
}
