//! The fields of a frame at their places in its bytes. Places count from 0.

ghost use Rattle.std.specs.Prelude.{◌≡◌, ◌+◌, ◌≤◌, ◌++◌, ◌∷◌, [], length, take, drop};
ghost use Rattle.std.specs.Int.{to_be_bytes, w16, w32};
ghost use Rattle.frame_spec.specs.Checksum.{crc};
ghost use Rattle.frame_spec.specs.Baseline.{number_at};

use aal5_crc::crc_of;
use byteorder::{BigEndian, ByteOrder};
use frame_spec::{BASELINE_DEVICE, BASELINE_TRAILER, CHECKED_BYTES, CONTENTS_BYTES, FRAME_BYTES};
use omci_core::put_at;

/// Writes a number at a place.
pub(crate) fn put_number(into: &mut [u8; FRAME_BYTES], place: usize, number: u16)
    requires { place + 2 ≤ FRAME_BYTES }
    ensures front { take (place + 2) into.new ≡ take place into.old ++ to_be_bytes w16 number }
{
    put_at(into, place, &number.to_be_bytes());
}

/// Writes the kind of message, and the device after it.
pub(crate) fn put_kind(into: &mut [u8; FRAME_BYTES], kind: u8)
    ensures front { take 4 into.new ≡ take 2 into.old ++ kind ∷ BASELINE_DEVICE ∷ [] }
{
    put_at(into, 2, &[kind, BASELINE_DEVICE]);
}

/// Writes the contents.
pub(crate) fn put_contents(into: &mut [u8; FRAME_BYTES], contents: &[u8; CONTENTS_BYTES])
    ensures front { take 40 into.new ≡ take 8 into.old ++ contents.now }
{
    put_at(into, 8, contents);
}

/// Writes the trailer.
pub(crate) fn put_trailer(into: &mut [u8; FRAME_BYTES])
    ensures front { take CHECKED_BYTES into.new ≡ take 40 into.old ++ BASELINE_TRAILER }
{
    put_at(into, 40, &BASELINE_TRAILER);
}

/// Writes the check value of the bytes before it.
pub(crate) fn put_check(into: &mut [u8; FRAME_BYTES])
    ensures whole { into.new ≡ take CHECKED_BYTES into.old
        ++ to_be_bytes w32 (crc (take CHECKED_BYTES into.old)) }
{
    let check = check_of(into);
    put_at(into, CHECKED_BYTES, &check.to_be_bytes());
}

/// The check value of the first 44 bytes.
pub(crate) fn check_of(bytes: &[u8]) -> u32
    requires { CHECKED_BYTES ≤ length bytes.now }
    ensures value { result ≡ crc (take CHECKED_BYTES bytes.now) }
{
    crc_of(&bytes[..CHECKED_BYTES])
}

/// The 16-bit number at a place, counted from 0.
#[tactic(auto, unfolding(frame_spec::specs::Baseline::number_at))]
pub fn number_at(bytes: &[u8], place: usize) -> u16
    requires { place + 2 ≤ length bytes.now }
    ensures value { result ≡ number_at place bytes.now }
{
    BigEndian::read_u16(&bytes[place..])
}

/// The four bytes at a place, counted from 0.
pub fn four_at(bytes: &[u8], place: usize) -> [u8; 4]
    requires { place + 4 ≤ length bytes.now }
    ensures value { result ≡ take 4 (drop place bytes.now) }
{
    let mut four = [0; 4];
    four.copy_from_slice(&bytes[place..place + 4]);
    four
}

/// The contents.
pub(crate) fn contents_at(bytes: &[u8]) -> [u8; CONTENTS_BYTES]
    requires { 40 ≤ length bytes.now }
    ensures value { result ≡ take CONTENTS_BYTES (drop 8 bytes.now) }
{
    let mut contents = [0; 32];
    contents.copy_from_slice(&bytes[8..40]);
    contents
}
