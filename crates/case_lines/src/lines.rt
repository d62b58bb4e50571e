//! The lines of the input, and what is said of them.

use omci_core::NoMemory;
use std::alloc::Global;

/// What makes the calls of one subject. It lives from the first line to the last.
pub trait Cases {
    /// Makes the call of a line, whose words are given, and spells its answer.
    fn answer(&mut self, words: &[&str]) -> Result<String, NoMemory>;
}

/// How many lines had the answer that was wanted, and how many another one.
#[derive(Drop)]
struct Tally {
    right: u32,
    wrong: u32,
}

impl Tally {
    fn count(&mut self, is_right: bool) {
        if is_right {
            self.right = self.right.saturating_add(1);
        } else {
            self.wrong = self.wrong.saturating_add(1);
        }
    }
}

/// Makes each call of the input, and gives a line for each that has another answer than the one
/// that is wanted, with its number and that answer, and then how many were right and wrong.
pub fn judge<C: Cases>(alloc: Global, cases: &mut C, input: &[u8]) -> Result<String, NoMemory> {
    let Ok(text) = str::from_utf8(input) else {
        return Ok(String::from_str(alloc, "the input is no text\n")?);
    };
    let mut said = String::new(alloc);
    let mut tally = Tally { right: 0, wrong: 0 };
    let mut number = 0u64;
    for line in text.lines() {
        number = number.saturating_add(1);
        if let Some((call, wanted)) = parts_of(line) {
            let words: Vec<&str> = call.split_whitespace().collect(alloc)?;
            let answer = cases.answer(&words)?;
            let answer = answer.as_str().trim();
            tally.count(answer == wanted);
            if answer != wanted {
                writeln!(said, "line {number}: {call} = {answer}")?;
            }
        }
    }
    writeln!(said, "{} right, {} wrong", tally.right, tally.wrong)?;
    Ok(said)
}

/// A line's call and the answer that is wanted. None where the line is empty or begins with `#`.
fn parts_of(line: &str) -> Option<(&str, &str)> {
    if line.is_empty() || line.starts_with('#') {
        return None;
    }
    match line.split_once(" =") {
        Some((call, wanted)) => Some((call, wanted.trim())),
        None => Some((line, "")),
    }
}
