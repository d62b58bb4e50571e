//! The command lines of the program: which words ask for what, with the numbers that they carry.
#![tactic(auto)]

ghost use Rattle.std.specs.Prelude.{◌≡◌};
ghost use Rattle.command_lines.specs.Commands.{command_of, alone, filter_of, drill_of, with_one, olt_of, with_two, unit_of, with_three};

mod numbers;
mod program;

use crate::numbers::number_of;
use omci_core::Words;
pub use program::words_after;

/// The largest number that a drill may be made from.
pub const LARGEST_SEED: u32 = 4_294_967_295;

/// The most turns that an end that runs alone may be given.
pub const MOST_TURNS: u32 = 1_000_000_000;

/// A command that makes a text of a text, and calls nothing but the source and the sink.
#[derive(Clone, Copy, Debug, PartialEq, Eq)]
pub enum Filter {
    /// `meter`: the replies of interval counters to a list of requests, counts and seconds.
    Meter,
    /// `capture`: whether a unit answered each request of a capture once and rightly.
    Capture,
}

/// What a command line asks for.
#[derive(Clone, Copy, Debug, PartialEq, Eq)]
pub enum Command {
    /// `replay`: runs a script over both ends and writes its trace.
    Replay,
    /// `show`: writes the text of each frame of a stream.
    Show,
    /// `check`: reads each frame of a stream as a message, and counts them.
    Check,
    /// `meter` or `capture`: reads a text, and writes what the filter makes of it.
    Filter { filter: Filter },
    /// `flash FILE`: makes the file a disk of two image slots, with an image in the first. The
    /// file's name is the second word.
    Flash,
    /// `drill N`: runs the script that is made from the number, and writes one line of counts.
    Drill { seed: u32 },
    /// `olt ADDRESS TURNS`: runs the manager over orders and over the link at the address, for so
    /// many turns. The address is the second word.
    Olt { turns: u32 },
    /// `unit ADDRESS FILE TURNS`: runs the unit over the link at the address, with the disk of that
    /// name, for so many turns. Address and file are the second word and the third.
    Unit { turns: u32 },
}

/// The filter of this name.
fn filter_of(word: &[u8]) -> Option<Command>
    ensures value { result ≡ filter_of word.now }
{
    if word == b"meter".as_slice() {
        return Some(Command::Filter {
            filter: Filter::Meter,
        });
    }
    if word == b"capture".as_slice() {
        return Some(Command::Filter {
            filter: Filter::Capture,
        });
    }
    None
}

/// The command that is a word alone.
fn alone(word: &[u8]) -> Option<Command>
    ensures value { result ≡ alone word.now }
{
    if word == b"replay".as_slice() {
        return Some(Command::Replay);
    }
    if word == b"show".as_slice() {
        return Some(Command::Show);
    }
    if word == b"check".as_slice() {
        return Some(Command::Check);
    }
    filter_of(word)
}

/// The drill of a number.
fn drill_of(number: &[u8]) -> Option<Command>
    ensures value { result ≡ drill_of number.now }
{
    let seed = number_of(number, 0, LARGEST_SEED)?;
    Some(Command::Drill { seed })
}

/// The command of a word with another one.
fn with_one(word: &[u8], argument: &[u8]) -> Option<Command>
    ensures value { result ≡ with_one word.now argument.now }
{
    if word == b"flash".as_slice() && !argument.is_empty() {
        return Some(Command::Flash);
    }
    if word == b"drill".as_slice() {
        return drill_of(argument);
    }
    None
}

/// The run of the manager for so many turns.
fn olt_of(turns: &[u8]) -> Option<Command>
    ensures value { result ≡ olt_of turns.now }
{
    let turns = number_of(turns, 1, MOST_TURNS)?;
    Some(Command::Olt { turns })
}

/// The command of a word with an address and a number.
fn with_two(word: &[u8], address: &[u8], turns: &[u8]) -> Option<Command>
    ensures value { result ≡ with_two word.now address.now turns.now }
{
    if word == b"olt".as_slice() && !address.is_empty() {
        return olt_of(turns);
    }
    None
}

/// The run of the unit for so many turns.
fn unit_of(turns: &[u8]) -> Option<Command>
    ensures value { result ≡ unit_of turns.now }
{
    let turns = number_of(turns, 1, MOST_TURNS)?;
    Some(Command::Unit { turns })
}

/// The command of a word with an address, a file and a number.
fn with_three(word: &[u8], address: &[u8], file: &[u8], turns: &[u8]) -> Option<Command>
    ensures value { result ≡ with_three word.now address.now file.now turns.now }
{
    if word == b"unit".as_slice() && !address.is_empty() && !file.is_empty() {
        return unit_of(turns);
    }
    None
}

/// The command of these words. `None` exactly where they are no command line.
pub fn command_of(words: &Words) -> Option<Command>
    ensures value { result ≡ command_of words.now }
{
    match words.len() {
        1 => alone(words.word(0)),
        2 => with_one(words.word(0), words.word(1)),
        3 => with_two(words.word(0), words.word(1), words.word(2)),
        4 => with_three(words.word(0), words.word(1), words.word(2), words.word(3)),
        _ => None,
    }
}
