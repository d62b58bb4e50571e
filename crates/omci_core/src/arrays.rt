//! Bytes in arrays: written at a place, and filled with zeros up to a width.

ghost use Rattle.std.specs.Prelude.{◌≡◌, ◌+◌, ◌≤◌, ◌++◌, length, take};
ghost use Rattle.frame_spec.specs.Widths.{filled, front_filled, with_bytes_at};

/// Writes bytes from the place `at` on, in place of those that stood there.
pub fn put_at(into: &mut [u8], at: usize, bytes: &[u8])
    requires { at + length bytes.now ≤ length into.old }
    ensures written { into.new ≡ with_bytes_at at bytes.now into.old }
    ensures front { take (at + length bytes.now) into.new ≡ take at into.old ++ bytes.now }
    ensures len { length into.new ≡ length into.old }
{
    into[at..at + bytes.len()].copy_from_slice(bytes);
}

/// The bytes in an array of a width, with zeros after them.
pub fn filled<const N: usize>(bytes: &[u8]) -> [u8; N]
    requires { length bytes.now ≤ N }
    ensures value { result ≡ filled N bytes.now }
{
    let mut all = [0; N];
    put_at(&mut all, 0, bytes);
    all
}

/// The first bytes in an array of a width; where there are fewer, zeros follow.
pub fn front_filled<const N: usize>(bytes: &[u8]) -> [u8; N]
    ensures value { result ≡ front_filled N bytes.now }
{
    filled(if bytes.len() < N { bytes } else { &bytes[..N] })
}
