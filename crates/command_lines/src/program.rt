//! The words that a program is called with.

ghost use Rattle.std.specs.Prelude.{◌≡◌, drop, map, IfOk};
ghost use Rattle.std.specs.String.{string_bytes};

use omci_core::{NoMemory, Words};
use std::alloc::Global;

/// The words after the program's name, which is the first of the arguments, byte for byte.
/// `NoMemory` where there is none for them.
pub fn words_after(alloc: Global, arguments: &[String]) -> Result<Words, NoMemory>
    ensures words { IfOk result (λ words. words ≡ map string_bytes (drop 1 arguments.now)) }
{
    let mut words = Words::new(alloc);
    for place in 1..arguments.len() {
        words.push(arguments[place].as_bytes())?;
    }
    Ok(words)
}
