//! The words of a line, read one after the other.

ghost use Rattle.std.specs.Prelude.{◌≡◌, ◌==◌, ◌<◌, ◌≤◌, [], ◌∷◌, if◌then◌else◌, IfOk, length, take, true};
ghost use Rattle.std.specs.Prelude.{Some, None, is_some};
ghost use Rattle.std.specs.List.{AllPass, list_all, count_by};
ghost use Rattle.std.specs.Char.{is_ascii_digit};
ghost use Rattle.extended_spec.specs.Frames.{any_fault_of};
ghost use Rattle.script_spec.specs.Script.{row, has};
ghost use Rattle.script_spec.specs.Fields.{Lane as LaneSaid, Number as NumberSaid};
ghost use Rattle.script_spec.specs.Fields.{Bytes as BytesSaid, LaneName, Decimal, MaskDigits};
ghost use Rattle.script_spec.specs.Fields.{HexBytes, NoiseBytes, CheckDigits, PickName};
ghost use Rattle.script_spec.specs.Fields.{Check as CheckSaid, PickOf as PickSaid};
ghost use Rattle.script_spec.specs.Text.{words_of, after_name, decimal_value, is_numeral};
ghost use Rattle.script_spec.specs.Text.{hex_bytes, mask_of, check_of, byte_of};
ghost use Rattle.script_spec.specs.Reading.{word_at, counted, field_at, line_named, line_at};
ghost use Rattle.script_spec.specs.Reading.{or_among, lane_of, bytes_of, noise_of, or_reason};
ghost use Rattle.script_spec.specs.declared.TheConstants.{WORD_FAULT, HEX_FAULT};
ghost use Rattle.std.specs.Option.{option_copied};
ghost use Rattle.line_words.specs.Answers.{Gives, words_left, end_named, is_whole};

use crate::few_bytes::FewBytes;
use crate::lines::{LANES, far_place_of, marks};
use crate::refusal::LineRefusal;
use extended_frames::{Shown, front_shown};
use frame_spec::LAST_NUMBER;
use omci_core::{Bytes, Priority};
use script_spec::{Document, Line, MAX_DIGITS, MAX_ID, MAX_NOISE, MAX_SLOT};
use slot_spec::Pick;
use std::alloc::Global;
use std::marker::Model;
use std::simd::prelude::*;

/// The words of a line that are still to be read. Words are parted by single spaces.
#[derive(Drop)]
pub struct LineWords<'a> {
    rest: Option<&'a [u8]>,
}

impl<'a> Model for LineWords<'a> {
    ghost use Rattle.std.specs.Prelude.{ℕ, List};
    ghost use Rattle.std.specs.Option.{option_copied};
    ghost use Rattle.line_words.specs.Answers.{words_left};

    ghost Value = { List (List ℕ) };

    ghost view = { λ w. words_left (option_copied w.rest) };
}

impl<'a> LineWords<'a> {
    /// All words of a line.
    pub fn new(line: &'a [u8]) -> LineWords<'a>
        ensures value { result ≡ words_of line.now }
    {
        LineWords { rest: Some(line) }
    }

    /// How many words are left.
    pub fn count(&self) -> usize
        ensures value { result ≡ length self.now }
    {
        match self.rest {
            None => 0,
            Some(text) => word_count(text),
        }
    }

    /// Sees that so many words are left.
    pub fn expect(&self, count: usize) -> Result<(), LineRefusal>
        ensures value { Gives (λ _. self.now) result (counted count self.now) }
    {
        if self.count() == count {
            Ok(())
        } else {
            Err(LineRefusal::WORD)
        }
    }

    /// The next word.
    pub fn word(&mut self) -> Result<&'a [u8], LineRefusal>
        ensures value { Gives (λ word. (word.now, self.new)) result (word_at self.old) }
    {
        match self.rest {
            None => Err(LineRefusal::WORD),
            Some(text) => {
                let (word, rest) = first_word(text);
                self.rest = rest;
                Ok(word)
            }
        }
    }

    /// A word that has to be this text.
    pub fn literal(&mut self, text: &[u8]) -> Result<(), LineRefusal>
        ensures value { Gives (λ _. self.new) result
            (or_reason WORD_FAULT (after_name (text.now ∷ []) self.old)) }
    {
        let word = self.word()?;
        if word == text {
            Ok(())
        } else {
            Err(LineRefusal::WORD)
        }
    }

    /// The kind of line that the words name. A kind that the document doesn't have is unknown.
    pub fn line(&mut self, document: Document) -> Result<Line, LineRefusal>
        ensures value { Gives (λ line. (line, self.new)) result (line_at document self.old) }
    {
        let line = self.named_line()?;
        if has(document, line) {
            Ok(line)
        } else {
            Err(LineRefusal::WORD)
        }
    }

    /// The kind of line that the words name, whichever document has it.
    #[tactic(auto, unfolding(script_spec::specs::Reading::line_named))]
    fn named_line(&mut self) -> Result<Line, LineRefusal>
        ensures value { Gives (λ line. (line, self.new)) result
            (or_reason WORD_FAULT (line_named self.old)) }
    {
        let word = self.word()?;
        match word {
            b"probe" => Ok(Line::Probe),
            b"reset" => Ok(Line::Reset),
            b"get" => Ok(Line::Get),
            b"create" => Ok(Line::Create),
            b"set" => Ok(Line::Set),
            b"delete" => Ok(Line::Delete),
            b"activate" => Ok(Line::Activate),
            b"commit" => Ok(Line::Commit),
            b"reboot" => Ok(Line::Reboot),
            b"resync" => Ok(Line::Resync),
            b"audit" => Ok(Line::Audit),
            b"check" => Ok(Line::Check),
            b"image" => Ok(Line::Image),
            b"deliver" => Ok(Line::Deliver),
            b"flow" => Ok(Line::Flow),
            b"cutin" => Ok(Line::CutIn),
            b"noise" => self.end(Line::NoiseUnit, Line::NoiseOlt),
            b"tick" => Ok(Line::Tick),
            b"sense" => Ok(Line::Sense),
            b"alarm" => Ok(Line::Alarm),
            b"cut" => self.end(Line::CutUnit, Line::CutOlt),
            b"start" => self.end(Line::StartUnit, Line::StartOlt),
            _ => Err(LineRefusal::WORD),
        }
    }

    /// One of two kinds of line, by the end of the channel that a word names.
    fn end(&mut self, unit: Line, olt: Line) -> Result<Line, LineRefusal>
        ensures value { Gives (λ line. (line, self.new)) result
            (or_reason WORD_FAULT (end_named unit olt self.old)) }
    {
        let word = self.word()?;
        match word {
            b"unit" => Ok(unit),
            b"olt" => Ok(olt),
            _ => Err(LineRefusal::WORD),
        }
    }

    /// The name of a lane.
    #[tactic(auto, unfolding(script_spec::specs::Reading::field_at))]
    pub fn lane(&mut self) -> Result<Priority, LineRefusal>
        ensures value { Gives (λ lane. (LaneSaid lane, self.new)) result
            (field_at LaneName self.old) }
    {
        let word = self.word()?;
        match word {
            b"low" => Ok(Priority::Low),
            b"high" => Ok(Priority::High),
            _ => Err(LineRefusal::WORD),
        }
    }

    /// A decimal number within its bounds.
    #[tactic(auto, unfolding(script_spec::specs::Reading::field_at))]
    pub fn number(&mut self, lowest: u64, highest: u64) -> Result<u64, LineRefusal>
        ensures value { Gives (λ number. (NumberSaid number, self.new)) result
            (field_at (Decimal lowest highest) self.old) }
        ensures low { IfOk result (λ number. lowest ≤ number) }
        ensures high { IfOk result (λ number. number ≤ highest) }
    {
        let word = self.word()?;
        match numeral(word) {
            Some(number) if number >= lowest && number <= highest => Ok(number),
            _ => Err(LineRefusal::NUMBER),
        }
    }

    /// A class, or an instance.
    pub fn id(&mut self) -> Result<u16, LineRefusal>
        ensures value { Gives (λ number. (NumberSaid number, self.new)) result
            (field_at (Decimal 0 MAX_ID) self.old) }
    {
        Ok(self.number(0, MAX_ID)? as u16)
    }

    /// The first number of a lane.
    pub fn lane_number(&mut self) -> Result<u16, LineRefusal>
        ensures value { Gives (λ number. (NumberSaid number, self.new)) result
            (field_at (Decimal 1 LAST_NUMBER) self.old) }
    {
        Ok(self.number(1, u64::from(LAST_NUMBER))? as u16)
    }

    /// A mask of exactly four hex digits.
    #[tactic(auto, unfolding(script_spec::specs::Reading::field_at))]
    pub fn mask(&mut self) -> Result<u16, LineRefusal>
        ensures value { Gives (λ mask. (NumberSaid mask, self.new)) result
            (field_at MaskDigits self.old) }
    {
        let word = self.word()?;
        mask_of(word).ok_or(LineRefusal::HEX)
    }

    /// The number of an image slot.
    pub fn slot(&mut self) -> Result<u8, LineRefusal>
        ensures value { Gives (λ number. (NumberSaid number, self.new)) result
            (field_at (Decimal 0 MAX_SLOT) self.old) }
    {
        Ok(self.number(0, MAX_SLOT)? as u8)
    }

    /// A check value of exactly eight hex digits, or `-` for none.
    #[tactic(auto, unfolding(script_spec::specs::Reading::field_at))]
    pub fn check(&mut self) -> Result<Option<u32>, LineRefusal>
        ensures value { Gives (λ check. (CheckSaid check, self.new)) result
            (field_at CheckDigits self.old) }
    {
        let word = self.word()?;
        if word == b"-".as_slice() {
            return Ok(None);
        }
        match check_of(word) {
            Some(check) => Ok(Some(check)),
            None => Err(LineRefusal::HEX),
        }
    }

    /// What a cut gives to each byte: `old`, `new`, or two hex digits.
    #[tactic(auto, unfolding(script_spec::specs::Reading::field_at))]
    pub fn pick(&mut self) -> Result<Pick, LineRefusal>
        ensures value { Gives (λ pick. (PickSaid pick, self.new)) result
            (field_at PickName self.old) }
    {
        let word = self.word()?;
        match word {
            b"old" => Ok(Pick::Old),
            b"new" => Ok(Pick::New),
            _ => match byte_of(word) {
                Some(byte) => Ok(Pick::Byte(byte)),
                None => Err(LineRefusal::HEX),
            },
        }
    }

    /// Bytes in hex, of a number within its bounds.
    #[tactic(auto, unfolding(script_spec::specs::Reading::field_at))]
    pub fn bytes(&mut self, alloc: Global, fewest: usize, most: usize) -> Result<Bytes, LineRefusal>
        ensures value { Gives (λ bytes. (BytesSaid bytes, self.new)) result
            (field_at (HexBytes fewest most) self.old) }
    {
        let word = self.word()?;
        bytes_of(alloc, fewest, most, word)
    }

    /// Bytes in hex, kept in place, at least `fewest` and at most as many as there is room for.
    #[tactic(auto, unfolding(script_spec::specs::Reading::field_at))]
    pub fn few_bytes<const MOST: usize>(
        &mut self,
        fewest: usize,
    ) -> Result<FewBytes<MOST>, LineRefusal>
        requires small { MOST < 256 }
        ensures value { Gives (λ bytes. (BytesSaid bytes, self.new)) result
            (field_at (HexBytes fewest MOST) self.old) }
    {
        let word = self.word()?;
        few_bytes_of(fewest, word)
    }

    /// Bytes in hex that don't decode as a frame of either message set.
    #[tactic(auto, unfolding(script_spec::specs::Reading::field_at))]
    pub fn noise(&mut self, alloc: Global) -> Result<Bytes, LineRefusal>
        ensures value { Gives (λ bytes. (BytesSaid bytes, self.new)) result
            (field_at (NoiseBytes MAX_NOISE) self.old) }
    {
        let word = self.word()?;
        noise_of(alloc, MAX_NOISE, word)
    }
}

/// Whether the document has lines of this kind.
fn has(document: Document, line: Line) -> bool
    ensures value { result ≡ has document line }
{
    match document {
        Document::Script => true,
        Document::Orders => is_order(line),
    }
}

/// Whether lines of this kind are the manager's, so that orders have them.
fn is_order(line: Line) -> bool
    ensures value { result ≡ (row line).ordered }
{
    match line {
        Line::Probe
        | Line::Reset
        | Line::Get
        | Line::Create
        | Line::Set
        | Line::Delete
        | Line::Activate
        | Line::Commit
        | Line::Reboot
        | Line::Resync
        | Line::Audit
        | Line::Check
        | Line::Image => true,
        Line::Deliver
        | Line::Flow
        | Line::CutIn
        | Line::NoiseUnit
        | Line::NoiseOlt
        | Line::Tick
        | Line::Sense
        | Line::Alarm
        | Line::CutUnit
        | Line::CutOlt
        | Line::StartUnit
        | Line::StartOlt => false,
    }
}

/// How many words a text has.
fn word_count(text: &[u8]) -> usize
    ensures value { result ≡ length (words_of text.now) }
{
    spaces(text) + 1
}

/// How many spaces stand in a text: [`LANES`] bytes are compared at a time.
fn spaces(text: &[u8]) -> usize
    ensures value { result ≡ count_by (λ b. b == 32) text.now }
    ensures bound { result ≤ length text.now }
{
    let mut count = 0;
    let mut rest = text;
    while LANES <= rest.len() {
        count += marks(u8x16::from_slice(rest), b' ').count_ones() as usize;
        rest = &rest[LANES..];
    }
    count + few_spaces(rest)
}

/// How many spaces stand in a short text.
fn few_spaces(text: &[u8]) -> usize
    ensures value { result ≡ count_by (λ b. b == 32) text.now }
    ensures bound { result ≤ length text.now }
{
    let mut count = 0;
    for byte in text {
        count += usize::from(*byte == b' ');
    }
    count
}

/// A text's first word, and the text after the space that follows it, if one does.
fn first_word(text: &[u8]) -> (&[u8], Option<&[u8]>)
    ensures value { words_of text.now ≡ result.0.now ∷ words_left (option_copied result.1) }
{
    match far_place_of(text, b' ') {
        None => (text, None),
        Some(end) => (&text[..end], Some(&text[end + 1..])),
    }
}

/// The number of 1 to `MAX_DIGITS` decimal digits.
#[tactic(auto, unfolding(script_spec::specs::Text::decimal_value))]
fn numeral(word: &[u8]) -> Option<u64>
    ensures value { result ≡ (if is_numeral word.now then Some (decimal_value word.now) else None) }
{
    if word.is_empty() || word.len() > MAX_DIGITS {
        return None;
    }
    let mut value = 0;
    for digit in word {
        if !digit.is_ascii_digit() {
            return None;
        }
        value = value * 10 + u64::from(*digit - b'0');
    }
    Some(value)
}

/// The mask that exactly four hex digits stand for.
#[tactic(auto, unfolding(script_spec::specs::Text::mask_of))]
fn mask_of(word: &[u8]) -> Option<u16>
    ensures value { result ≡ mask_of word.now }
{
    let mut mask = [0; 2];
    match hex::decode_to_slice(word, &mut mask) {
        Ok(()) => Some(u16::from_be_bytes(mask)),
        Err(_) => None,
    }
}

/// The check value that exactly eight hex digits stand for.
#[tactic(auto, unfolding(script_spec::specs::Text::check_of))]
fn check_of(word: &[u8]) -> Option<u32>
    ensures value { result ≡ check_of word.now }
{
    let mut check = [0; 4];
    match hex::decode_to_slice(word, &mut check) {
        Ok(()) => Some(u32::from_be_bytes(check)),
        Err(_) => None,
    }
}

/// The byte that exactly two hex digits stand for.
#[tactic(auto, unfolding(script_spec::specs::Text::byte_of))]
fn byte_of(word: &[u8]) -> Option<u8>
    ensures value { result ≡ byte_of word.now }
{
    let mut byte = [0; 1];
    match hex::decode_to_slice(word, &mut byte) {
        Ok(()) => Some(byte[0]),
        Err(_) => None,
    }
}

/// Bytes in hex, of a number within its bounds.
fn bytes_of(alloc: Global, fewest: usize, most: usize, word: &[u8]) -> Result<Bytes, LineRefusal>
    ensures value { Gives (λ bytes. bytes) result
        (or_reason HEX_FAULT (bytes_of fewest most word.now)) }
{
    let bytes = hex_bytes(alloc, word)?;
    if bytes.len() < fewest || bytes.len() > most {
        return Err(LineRefusal::HEX);
    }
    Ok(bytes)
}

/// Bytes in hex, of a number within its bounds, kept in place.
fn few_bytes_of<const MOST: usize>(
    fewest: usize,
    word: &[u8],
) -> Result<FewBytes<MOST>, LineRefusal>
    requires small { MOST < 256 }
    ensures value { Gives (λ bytes. bytes) result
        (or_reason HEX_FAULT (bytes_of fewest MOST word.now)) }
{
    let mut row = [0; MOST];
    let len = hex_into(fewest, word, &mut row)?;
    Ok(FewBytes::front(row, len))
}

/// Writes the bytes that hex digits stand for, at least `fewest`, to the front of a row that has
/// room for the most. The answer is how many they are.
fn hex_into(fewest: usize, word: &[u8], row: &mut [u8]) -> Result<usize, LineRefusal>
    ensures value { Gives (λ len. take len row.new) result
        (or_reason HEX_FAULT (bytes_of fewest (length row.old) word.now)) }
    ensures few { IfOk result (λ len. len ≤ length row.old) }
    ensures len { length row.new ≡ length row.old }
{
    if word == b"-".as_slice() {
        return if fewest == 0 {
            Ok(0)
        } else {
            Err(LineRefusal::HEX)
        };
    }
    let len = word.len() / 2;
    if word.is_empty() || len < fewest || len > row.len() {
        return Err(LineRefusal::HEX);
    }
    match hex::decode_to_slice(word, &mut row[..len]) {
        Ok(()) => Ok(len),
        Err(_) => Err(LineRefusal::HEX),
    }
}

/// Bytes in hex, at most so many, that don't decode as a frame of either message set.
fn noise_of(alloc: Global, most: usize, word: &[u8]) -> Result<Bytes, LineRefusal>
    ensures value { Gives (λ bytes. bytes) result (noise_of most word.now) }
{
    let bytes = bytes_of(alloc, 0, most, word)?;
    if is_noise(bytes.bytes()) {
        Ok(bytes)
    } else {
        Err(LineRefusal::NOISE)
    }
}

/// Whether no frame of either message set stands at the front of the bytes.
fn is_noise(bytes: &[u8]) -> bool
    ensures value { result ≡ is_some (any_fault_of bytes.now) }
{
    !is_whole(front_shown(bytes))
}

/// Whether a whole frame is shown.
fn is_whole(shown: Shown) -> bool
    ensures value { result ≡ is_whole shown }
{
    matches!(shown, Shown::Whole { .. })
}

/// The bytes that hex digits stand for, two digits for each byte; `-` stands for no byte.
#[tactic(auto, unfolding(script_spec::specs::Text::hex_bytes))]
fn hex_bytes(alloc: Global, word: &[u8]) -> Result<Bytes, LineRefusal>
    ensures value { Gives (λ bytes. bytes) result (or_reason HEX_FAULT (hex_bytes word.now)) }
{
    if word.is_empty() {
        return Err(LineRefusal::HEX);
    }
    if word == b"-".as_slice() {
        return Ok(Bytes::from_vec(Vec::new(alloc)));
    }
    match hex::decode(alloc, word) {
        Ok(bytes) => Ok(Bytes::from_vec(bytes)),
        Err(hex::FromHexError::OutOfMemory) => Err(LineRefusal::NoMemory),
        Err(_) => Err(LineRefusal::HEX),
    }
}
