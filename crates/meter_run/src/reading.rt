//! Reading the lines of an input in one pass: the header, and then the lines after it.

ghost use Rattle.std.specs.Prelude.{◌≡◌, ◌+◌, ◌<◌, ◌^◌, ◌++◌, length, Option, Ok, MatchResult};
ghost use Rattle.std.specs.Option.{option_to_list};
ghost use Rattle.script_spec.specs.Text.{lines_of, words_of};
ghost use Rattle.script_spec.specs.Reading.{on_line};
ghost use Rattle.line_words.specs.Answers.{GivesScript, FailsScript};
ghost use Rattle.meter_lines_spec.specs.declared.MeterLine.{MeterLine};
ghost use Rattle.meter_lines_spec.specs.Lines.{line_of, line_at, lines_reading, reading};

use crate::lines::line_of;
use line_words::{LineRefusal, LineWords, ScriptRefusal, header_line, is_passed_over, next_line};
use meter_lines_spec::MeterLine;
use script_spec::HEADER_FAULT;
use std::alloc::Global;

/// Reads the lines after the header.
#[tactic(auto, unfolding(meter_lines_spec::specs::Lines::reading))]
pub(crate) fn read(alloc: Global, bytes: &[u8]) -> Result<Vec<MeterLine>, ScriptRefusal>
    ensures exact { GivesScript (λ lines. lines.items) result (reading bytes.now) }
{
    let first = header_line(bytes)?;
    if first.text != b"meter 1".as_slice() {
        return Err(ScriptRefusal::Fault {
            line: first.line,
            reason: HEADER_FAULT,
        });
    }
    lines_from(alloc, first.line + 1, first.rest)
}

/// What the lines ask for, the first of which has the number `first`.
fn lines_from(alloc: Global, first: u64, bytes: &[u8]) -> Result<Vec<MeterLine>, ScriptRefusal>
    requires { first + length bytes.now < 2 ^ 64 }
    ensures value { GivesScript (λ lines. lines.items) result
        (lines_reading first (lines_of bytes.now)) }
{
    let mut lines = Vec::new(alloc);
    let mut rest = bytes;
    let mut number = first;
    while !rest.is_empty() {
        let (text, after) = next_line(rest);
        read_line(number, text, &mut lines)?;
        rest = after;
        number += 1;
    }
    Ok(lines)
}

/// Adds what the line asks for; a line that is passed over asks for nothing.
fn read_line(number: u64, text: &[u8], lines: &mut Vec<MeterLine>) -> Result<(), ScriptRefusal>
    ensures value { MatchResult result
        (λ _. (line : Option MeterLine) × (on_line number (line_at text.now) ≡ Ok line)
        × (lines.new.items ≡ lines.old.items ++ option_to_list line))
        (λ e. FailsScript e (on_line number (line_at text.now))) }
{
    if is_passed_over(text) {
        return Ok(());
    }
    let line = line_on(number, text)?;
    lines.push(line)?;
    Ok(())
}

/// What the line of that number asks for.
fn line_on(number: u64, text: &[u8]) -> Result<MeterLine, ScriptRefusal>
    ensures value { GivesScript (λ line. line) result
        (on_line number (line_of (words_of text.now))) }
{
    match line_of(LineWords::new(text)) {
        Ok(line) => Ok(line),
        Err(LineRefusal::Reason(reason)) => Err(ScriptRefusal::Fault {
            line: number,
            reason,
        }),
        Err(LineRefusal::NoMemory) => Err(ScriptRefusal::NoMemory),
    }
}
