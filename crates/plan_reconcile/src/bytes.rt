//! Bytes cut from others, and bytes put into a row that zeros fill.

ghost use Rattle.std.specs.Prelude.{◌≡◌, ◌+◌, ◌≤◌, ◌++◌, ℕ, List, [], true, length, take, drop, replicate, if◌then◌else◌};
ghost use Rattle.frame_spec.specs.Widths.{filled};

use class_spec::WIDEST_ATTRIBUTE;

const ZEROS: [u8; WIDEST_ATTRIBUTE] = [0; WIDEST_ATTRIBUTE];

/// The bytes from this place on, as many as there are up to the width.
pub(crate) fn cut(bytes: &[u8], from: usize, width: usize) -> &[u8]
    ensures { result.now ≡ take width (drop from bytes.now) }
{
    let rest = if from < bytes.len() {
        &bytes[from..]
    } else {
        &[]
    };
    if width < rest.len() {
        &rest[..width]
    } else {
        rest
    }
}

/// So many zeros.
pub(crate) fn zeros(width: usize) -> &'static [u8]
    requires { width ≤ WIDEST_ATTRIBUTE }
    ensures { result.now ≡ replicate width 0 }
{
    &ZEROS[..width]
}

/// Puts the bytes after the first so many of a row that zeros fill.
pub(crate) fn put(bytes: &[u8], into: &mut [u8], at: usize)
    requires { at + length bytes.now ≤ length into.old }
    ensures row { (before : List ℕ) → length before ≡ at
        → into.old ≡ filled (length into.old) before
        → into.new ≡ filled (length into.old) (before ++ bytes.now) }
    ensures len { length into.new ≡ length into.old }
{
    copy_to(bytes, into, at);
}

/// Puts the bytes there where they count.
pub(crate) fn put_if(counts: bool, bytes: &[u8], into: &mut [u8], at: usize)
    requires { counts ≡ true → at + length bytes.now ≤ length into.old }
    ensures row { (before : List ℕ) → length before ≡ at
        → into.old ≡ filled (length into.old) before
        → into.new ≡ filled (length into.old)
        (before ++ (if counts then bytes.now else [])) }
    ensures len { length into.new ≡ length into.old }
{
    if counts {
        put(bytes, into, at);
    }
}

fn copy_to(bytes: &[u8], into: &mut [u8], at: usize)
    requires { at + length bytes.now ≤ length into.old }
    ensures front { take (at + length bytes.now) into.new ≡ take at into.old ++ bytes.now }
    ensures back { drop (at + length bytes.now) into.new
        ≡ drop (at + length bytes.now) into.old }
    ensures len { length into.new ≡ length into.old }
{
    into[at..at + bytes.len()].copy_from_slice(bytes);
}
