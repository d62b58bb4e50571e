//! Reading the text of a capture.

ghost use Rattle.std.specs.Prelude.{◌≡◌, ◌+◌, ◌<◌, ◌^◌, ◌++◌, [], length, Option, Ok, MatchResult};
ghost use Rattle.capture_spec.specs.declared.CaptureItem.{CaptureItem};
ghost use Rattle.capture_spec.specs.Input.{is_reply, has_bit_8, goes_down, comes_up, frame_left};
ghost use Rattle.capture_spec.specs.Input.{down_left, up_left, start_left, item_at, item_in};
ghost use Rattle.capture_spec.specs.Input.{line_with, lines_reading, header_at, capture_reading};
ghost use Rattle.capture_spec.specs.Runs.{wants_reply};
ghost use Rattle.line_words.specs.Answers.{Gives, GivesScript, FailsScript};
ghost use Rattle.script_spec.specs.Reading.{on_line, as_header};
ghost use Rattle.script_spec.specs.Text.{lines_of, words_of};

use capture_check::{Capture, CaptureItem};
use capture_spec::{AK, AR, FRAME_FAULT, SECTION, TYPES, WAY_FAULT};
use line_words::{LineRefusal, LineWords, ScriptRefusal, header_line, is_passed_over, next_line};
use omci_frames::{FRAME_BYTES, Frame, packet_frame};
use script_spec::HEADER_FAULT;
use std::alloc::Global;

/// Reads the text of a capture, in one pass.
#[tactic(auto, unfolding(capture_spec::specs::Input::capture_reading))]
pub(crate) fn read(alloc: Global, bytes: &[u8]) -> Result<Capture, ScriptRefusal>
    ensures exact { GivesScript (λ capture. capture) result (capture_reading bytes.now) }
{
    let first = header_line(bytes)?;
    read_header(first.line, first.text)?;
    read_lines(alloc, first.line + 1, first.rest)
}

/// Sees that a line is the header.
fn read_header(line: u64, text: &[u8]) -> Result<(), ScriptRefusal>
    ensures value { GivesScript (λ _. []) result (as_header line (header_at (words_of text.now))) }
{
    match header_of(LineWords::new(text)) {
        Ok(()) => Ok(()),
        Err(LineRefusal::Reason(_)) => Err(ScriptRefusal::Fault {
            line,
            reason: HEADER_FAULT,
        }),
        Err(LineRefusal::NoMemory) => Err(ScriptRefusal::NoMemory),
    }
}

/// Sees that these are the words of the header.
#[tactic(auto, unfolding(capture_spec::specs::Input::header_at))]
fn header_of(mut words: LineWords<'_>) -> Result<(), LineRefusal>
    ensures value { Gives (λ _. []) result (header_at words.entry) }
{
    words.literal(b"capture")?;
    words.literal(b"1")?;
    words.expect(0)
}

/// The lines, the first of which has the number `first`.
fn read_lines(alloc: Global, first: u64, bytes: &[u8]) -> Result<Capture, ScriptRefusal>
    requires { first + length bytes.now < 2 ^ 64 }
    ensures value { GivesScript (λ capture. capture) result
        (lines_reading first (lines_of bytes.now)) }
{
    let mut capture = Capture::new(alloc);
    let mut rest = bytes;
    let mut line = first;
    while !rest.is_empty() {
        let (text, after) = next_line(rest);
        read_line(line, text, &mut capture)?;
        rest = after;
        line += 1;
    }
    Ok(capture)
}

/// Adds what a line says; a line that is passed over says nothing.
fn read_line(line: u64, text: &[u8], capture: &mut Capture) -> Result<(), ScriptRefusal>
    ensures value { MatchResult result
        (λ _. (item : Option CaptureItem) × (on_line line (item_in text.now) ≡ Ok item)
        × (capture.new ≡ capture.old ++ line_with line item))
        (λ e. FailsScript e (on_line line (item_in text.now))) }
{
    if is_passed_over(text) {
        return Ok(());
    }
    let item = item_on(line, text)?;
    match capture.push(line, item) {
        Ok(()) => Ok(()),
        Err(_) => Err(ScriptRefusal::NoMemory),
    }
}

/// What a line says.
fn item_on(line: u64, text: &[u8]) -> Result<CaptureItem, ScriptRefusal>
    ensures value { GivesScript (λ item. item) result (on_line line (item_at (words_of text.now))) }
{
    match item_of(LineWords::new(text)) {
        Ok(item) => Ok(item),
        Err(LineRefusal::Reason(reason)) => Err(ScriptRefusal::Fault { line, reason }),
        Err(LineRefusal::NoMemory) => Err(ScriptRefusal::NoMemory),
    }
}

/// What the words of a line say.
#[tactic(auto, unfolding(capture_spec::specs::Input::item_at))]
fn item_of(mut words: LineWords<'_>) -> Result<CaptureItem, LineRefusal>
    ensures value { Gives (λ item. item) result (item_at words.entry) }
{
    let name = words.word()?;
    match name {
        b"down" => down_of(words),
        b"up" => up_of(words),
        b"start" => start_of(words),
        _ => Err(LineRefusal::WORD),
    }
}

/// The item of a line that begins with `down`, by the words after it.
fn down_of(words: LineWords<'_>) -> Result<CaptureItem, LineRefusal>
    ensures value { Gives (λ item. item) result (down_left words.entry) }
{
    let frame = frame_of(words)?;
    if goes_down(&frame) {
        Ok(CaptureItem::Down(frame))
    } else {
        Err(LineRefusal::Reason(WAY_FAULT))
    }
}

/// The item of a line that begins with `up`, by the words after it.
fn up_of(words: LineWords<'_>) -> Result<CaptureItem, LineRefusal>
    ensures value { Gives (λ item. item) result (up_left words.entry) }
{
    let frame = frame_of(words)?;
    if comes_up(&frame) {
        Ok(CaptureItem::Up(frame))
    } else {
        Err(LineRefusal::Reason(WAY_FAULT))
    }
}

/// The item of a line that begins with `start`, by the words after it.
fn start_of(words: LineWords<'_>) -> Result<CaptureItem, LineRefusal>
    ensures value { Gives (λ item. item) result (start_left words.entry) }
{
    words.expect(0)?;
    Ok(CaptureItem::Start)
}

/// The frame of the one word that is left: 48 bytes in hex.
#[tactic(auto, unfolding(capture_spec::specs::Input::frame_left))]
fn frame_of(mut words: LineWords<'_>) -> Result<Frame, LineRefusal>
    ensures value { Gives (λ frame. frame) result (frame_left words.entry) }
{
    words.expect(1)?;
    let bytes = words.few_bytes::<FRAME_BYTES>(FRAME_BYTES)?;
    packet_frame(bytes.bytes()).ok_or(LineRefusal::Reason(FRAME_FAULT))
}

/// Whether a frame has AR: it asks for a reply.
fn wants_reply(frame: &Frame) -> bool
    ensures { result ≡ wants_reply frame.now }
{
    frame.kind / AR % 2 == 1
}

/// Whether a frame has AK: it is a reply.
fn is_reply(frame: &Frame) -> bool
    ensures { result ≡ is_reply frame.now }
{
    frame.kind / AK % 2 == 1
}

/// Whether bit 8 of a frame's type byte is set, which no message has.
fn has_bit_8(frame: &Frame) -> bool
    ensures { result ≡ has_bit_8 frame.now }
{
    frame.kind / 128 == 1
}

/// Whether an OLT may send a frame: a request with a TCI, which has AR unless it is a download
/// section.
fn goes_down(frame: &Frame) -> bool
    ensures { result ≡ goes_down frame.now }
{
    !is_reply(frame)
        && !has_bit_8(frame)
        && (wants_reply(frame) || frame.kind % TYPES == SECTION)
        && frame.tci != 0
}

/// Whether a unit may send a frame: a reply, or a notice, which has TCI 0.
fn comes_up(frame: &Frame) -> bool
    ensures { result ≡ comes_up frame.now }
{
    frame.tci == 0 || (is_reply(frame) && !wants_reply(frame) && !has_bit_8(frame))
}
