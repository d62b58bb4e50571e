//! A run of the interval counters (ITU-T G.988, clause I.4) over lines of requests, counts and
//! ticks: the lines are read, and what the requests are answered is written line by line.
#![tactic(auto)]

ghost use Rattle.std.specs.Prelude.{◌≡◌};
ghost use Rattle.line_words.specs.Answers.{GivesScript};
ghost use Rattle.meter_lines_spec.specs.Replies.{meter_text};

mod lines;
mod reading;
mod replies;

use crate::reading::read;
use crate::replies::run;
pub use line_words::ScriptRefusal;
use omci_core::NoMemory;
use std::alloc::Global;

/// Runs the lines of an input over counters without a monitor, and gives the lines that are written
/// of it, each with its line feed: `E` and the message text of the reply for each request, and `E
/// absent` for a count that isn't added, where `E` is the event's number, from 1.
///
/// `Fault` has the first fault's line, from 1, and its reason: 1 an unknown word, a missing word or
/// one too many; 2 a number that is malformed or out of range; 3 a mask that isn't four hex digits;
/// 4 a header that is missing or has any fault. `NoMemory` where there is no room for the lines
/// that are read or written.
#[tactic(auto, unfolding(meter_lines_spec::specs::Replies::meter_text))]
pub fn answer(alloc: Global, input: &[u8]) -> Result<Vec<u8>, ScriptRefusal>
    ensures value { GivesScript (λ out. out.items) result (meter_text input.now) }
{
    let lines = read(alloc, input)?;
    match run(alloc, &lines) {
        Ok(out) => Ok(out),
        Err(NoMemory) => Err(ScriptRefusal::NoMemory),
    }
}
