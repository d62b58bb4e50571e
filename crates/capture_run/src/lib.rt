//! The text of a capture in, the verdict out: what the command `capture` does.
#![tactic(auto)]

ghost use Rattle.std.specs.Prelude.{◌≡◌, ◌++◌, OnOk, IfOk};
ghost use Rattle.capture_spec.specs.Output.{verdict_text, capture_text};
ghost use Rattle.line_words.specs.Answers.{GivesScript};

mod reading;

use crate::reading::read;
use capture_check::{Verdict, check_capture};
use line_words::ScriptRefusal;
use omci_contents::{push_bytes, push_number};
use omci_core::NoMemory;
use std::alloc::Global;

/// Reads the text of a capture, checks it, and gives the line of the verdict.
///
/// `Fault` has the first fault's line, from 1, and its reason: 1, 3 and 4 as in scripts, 41 where 48
/// bytes don't decode as a baseline frame (ITU-T G.988, clause 11.2), 42 where a frame can't go the
/// way that its line says. `NoMemory` where there is no room for the lines or for the check.
#[tactic(auto, unfolding(capture_spec::specs::Output::capture_text))]
pub fn answer(alloc: Global, input: &[u8]) -> Result<Vec<u8>, ScriptRefusal>
    ensures value { GivesScript (λ out. out.items) result (capture_text input.now) }
{
    let capture = read(alloc, input)?;
    let Ok(verdict) = check_capture(alloc, &capture) else {
        return Err(ScriptRefusal::NoMemory);
    };
    match written(alloc, &verdict) {
        Ok(out) => Ok(out),
        Err(NoMemory) => Err(ScriptRefusal::NoMemory),
    }
}

/// The line of a verdict.
fn written(alloc: Global, verdict: &Verdict) -> Result<Vec<u8>, NoMemory>
    ensures { IfOk result (λ out. out.items ≡ verdict_text verdict.now) }
{
    let mut out = Vec::new(alloc);
    push_verdict(&mut out, verdict)?;
    Ok(out)
}

/// Appends the line of a verdict.
#[tactic(auto, unfolding(capture_spec::specs::Output::verdict_text))]
fn push_verdict(out: &mut Vec<u8>, verdict: &Verdict) -> Result<(), NoMemory>
    ensures text { OnOk result (out.new.items ≡ out.old.items ++ verdict_text verdict.now) }
{
    match *verdict {
        Verdict::Ok { runs, replies } => {
            push_bytes(out, b"ok ")?;
            push_number(out, runs)?;
            push_bytes(out, b" ")?;
            push_number(out, replies)?;
        }
        Verdict::Breach {
            line,
            kind,
            earlier,
        } => {
            push_bytes(out, b"breach ")?;
            push_number(out, line)?;
            push_bytes(out, b" ")?;
            push_number(out, u64::from(kind))?;
            push_bytes(out, b" ")?;
            push_number(out, earlier)?;
        }
    }
    push_bytes(out, b"\n")
}
