//! The check of a capture: whether a unit answered each run of repeated requests once, told from
//! the packets alone (ITU-T G.988, clause 11.2.2).
#![tactic(auto)]

ghost use Rattle.std.specs.Prelude.{◌≡◌, ℕ, Ok, ◌<◌, ◌++◌, [], ◌∷◌, length, slice_get, Some, OnOk};
ghost use Rattle.std.specs.Prelude.{OnErr, IfOk};
ghost use Rattle.capture_spec.specs.declared.Verdict.TheVariants as verdicts;
ghost use Rattle.capture_spec.specs.Breaches.{verdict};
ghost use Rattle.capture_spec.specs.Once.{AnsweredOnce};

mod checker;

use crate::checker::Checker;
pub use capture_spec::{Breach, CaptureItem, CaptureLine, Verdict};
use omci_core::NoMemory;
use std::alloc::Global;
use std::marker::Model;

/// The lines of a capture in their order, each with its number in its text. [`push`](Capture::push)
/// alone changes it.
#[derive(Drop)]
pub struct Capture {
    lines: Vec<CaptureLine>,
}

impl Model for Capture {
    ghost use Rattle.capture_spec.specs.Runs.{Lines};

    ghost Value = { Lines };

    ghost view = { λ c. c.lines.items };
}

impl Capture {
    /// No lines. Takes no memory.
    pub fn new(alloc: Global) -> Capture
        ensures empty { result ≡ [] }
    {
        Capture {
            lines: Vec::new(alloc),
        }
    }

    /// Adds a line at the end. `NoMemory` where there is no room for it; the capture is then as it
    /// was.
    pub fn push(&mut self, line: u64, item: CaptureItem) -> Result<(), NoMemory>
        ensures ok { OnOk result
            (self.new ≡ self.old ++ record { line = line; item = item } ∷ []) }
        ensures err { OnErr result (self.new ≡ self.old) }
    {
        self.lines.push(CaptureLine { line, item })?;
        Ok(())
    }
}

/// The line at a place.
fn line_at(lines: &[CaptureLine], place: usize) -> CaptureLine
    requires { place < length lines.now }
    ensures { slice_get lines.now place ≡ Some result }
{
    lines[place]
}

/// Checks the lines of a capture.
fn check_lines(alloc: Global, lines: &[CaptureLine]) -> Result<Verdict, NoMemory>
    ensures verdict { IfOk result (λ said. said ≡ verdict lines.now) }
{
    let mut checker = Checker::new(alloc)?;
    for place in 0..lines.len() {
        let line = line_at(lines, place);
        if let Some(breach) = checker.take(lines, place, line.item) {
            return Ok(Verdict::Breach {
                line: line.line,
                kind: breach.kind,
                earlier: breach.earlier,
            });
        }
    }
    Ok(checker.verdict())
}

/// Checks a capture. Says the first line that is a breach, with the least of its kinds, or how many
/// runs of requests and how many replies there are. Takes memory for the latest run of each TCI,
/// and goes over the lines once; `NoMemory` where there is none.
///
/// Where no line is a breach, the unit answered no request twice differently: two replies of one
/// run are the same.
pub fn check_capture(alloc: Global, capture: &Capture) -> Result<Verdict, NoMemory>
    ensures verdict { IfOk result (λ said. said ≡ verdict capture.now) }
    ensures once { (runs replies : ℕ) → result ≡ Ok (verdicts.Ok runs replies)
        → AnsweredOnce capture.now }
{
    check_lines(alloc, &capture.lines)
}
