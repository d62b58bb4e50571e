//! The lines of a script or of orders, and which of them are passed over.

ghost use Rattle.std.specs.Prelude.{◌≡◌, ◌==◌, ◌+◌, ◌≤◌, ◌<◌, ◌∷◌, length, map, MatchResult, IfOk};
ghost use Rattle.std.specs.List.{position};
ghost use Rattle.std.specs.Simd.Lanes.{mask_l};
ghost use Rattle.script_spec.specs.Text.{lines_of, is_passed_over};
ghost use Rattle.line_words.specs.Answers.{IsTextOf, IsFirstLine, LacksHeader};

use crate::refusal::ScriptRefusal;
use script_spec::HEADER_FAULT;
use std::simd::prelude::*;

/// The first line that isn't passed over.
#[derive(Clone, Copy)]
pub struct FirstLine<'a> {
    /// Its number, from 1.
    pub line: u64,
    /// Its bytes, without the line's end.
    pub text: &'a [u8],
    /// The bytes after it.
    pub rest: &'a [u8],
}

/// The line that a header has to stand in, or the fault that there is none.
pub fn header_line(bytes: &[u8]) -> Result<FirstLine<'_>, ScriptRefusal>
    ensures value { MatchResult result (λ first. IsFirstLine first bytes.now)
        (λ refusal. LacksHeader refusal bytes.now) }
    ensures bound { IfOk result (λ first. first.line + length first.rest.now ≤ length bytes.now) }
{
    let mut rest = bytes;
    let mut line = 1;
    while !rest.is_empty() {
        let (text, after) = next_line(rest);
        if !is_passed_over(text) {
            return Ok(FirstLine {
                line,
                text,
                rest: after,
            });
        }
        rest = after;
        line += 1;
    }
    Err(ScriptRefusal::Fault {
        line,
        reason: HEADER_FAULT,
    })
}

/// The first line's text, and the bytes after the line's end.
pub fn next_line(bytes: &[u8]) -> (&[u8], &[u8])
    requires { 0 < length bytes.now }
    ensures lines { lines_of bytes.now ≡ result.0.now ∷ lines_of result.1.now }
    ensures shorter { length result.1.now < length bytes.now }
{
    match far_place_of(bytes, b'\n') {
        None => (bytes, &[]),
        Some(end) => (without_return(&bytes[..end]), &bytes[end + 1..]),
    }
}

/// A line's text without a carriage return at its end.
fn without_return(line: &[u8]) -> &[u8]
    ensures text { IsTextOf line.now result.now }
{
    line.strip_suffix(b"\r").unwrap_or(line)
}

/// The place of the first byte of this value.
fn place_of(bytes: &[u8], wanted: u8) -> Option<usize>
    ensures value { result ≡ position (λ b. b == wanted) bytes.now }
{
    bytes.iter().position(|byte| *byte == wanted)
}

/// So many bytes are compared at a time.
pub(crate) const LANES: usize = 16;

/// The place of the first byte of this value, where it may be far: [`LANES`] bytes are compared at
/// a time.
pub(crate) fn far_place_of(bytes: &[u8], wanted: u8) -> Option<usize>
    ensures value { result ≡ position (λ b. b == wanted) bytes.now }
{
    let mut passed = 0;
    while LANES <= bytes.len() - passed {
        let found = marks(u8x16::from_slice(&bytes[passed..]), wanted);
        if found != 0 {
            return Some(passed + found.trailing_zeros() as usize);
        }
        passed += LANES;
    }
    match place_of(&bytes[passed..], wanted) {
        None => None,
        Some(place) => Some(passed + place),
    }
}

/// A bit for each of these bytes, the first one lowest: 1 where it has the value.
#[inline(always)]
pub(crate) fn marks(bytes: u8x16, wanted: u8) -> u64
    ensures value { result ≡ mask_l (map (λ b. b == wanted) bytes) }
{
    bytes.simd_eq(u8x16::splat(wanted)).to_bitmask()
}

/// Whether a line is empty or begins with `#`.
pub fn is_passed_over(text: &[u8]) -> bool
    ensures value { result ≡ is_passed_over text.now }
{
    matches!(text, [] | [b'#', ..])
}
