//! The bytes of an entry, and the version of an image that comes piece by piece.
ghost use Rattle.std.specs.Prelude.{◌≡◌, ℕ, ◌<◌, ◌≤◌, ◌+◌, ◌++◌, List, [], length, take};
ghost use Rattle.std.specs.Int.{to_be_bytes, w32};
ghost use Rattle.slot_spec.specs.Layout.{version as version_of};

use slot_spec::{ENTRY_BYTES, VERSION_BYTES};

// The bytes of an entry.
pub fn entry_bytes(length: u32, crc: u32, version: &[u8; VERSION_BYTES]) -> [u8; ENTRY_BYTES]
    ensures bytes { result ≡ to_be_bytes w32 length ++ to_be_bytes w32 crc ++ version.now }
{
    let mut entry = [0; ENTRY_BYTES];
    put(&mut entry, 0, &length.to_be_bytes());
    put(&mut entry, 4, &crc.to_be_bytes());
    put(&mut entry, 8, version);
    entry
}

// Writes bytes at a place.
fn put(into: &mut [u8], place: usize, bytes: &[u8])
    requires within { place + length bytes.now ≤ length into.old }
    ensures front { take (place + length bytes.now) into.new ≡ take place into.old ++ bytes.now }
    ensures len { length into.new ≡ length into.old }
{
    into[place..place + bytes.len()].copy_from_slice(bytes);
}

// The version of an image, once this piece follows the bytes that were put.
pub fn version_after(version: [u8; VERSION_BYTES], have: u32, piece: &[u8]) -> [u8; VERSION_BYTES]
    ensures version { (put : List ℕ) → have ≡ length put → version ≡ version_of put
        → result ≡ version_of (put ++ piece.now) }
{
    let mut version = version;
    let mut place = have as usize;
    for byte in piece {
        if place >= VERSION_BYTES {
            break;
        }
        version[place] = *byte;
        place += 1;
    }
    version
}
