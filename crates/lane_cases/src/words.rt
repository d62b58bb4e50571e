//! Words of several calls.

use case_lines::{NoMemory, array_of, bytes_of, hex_of, u64_of};
use std::alloc::Global;

pub(crate) fn say(alloc: Global, text: &str) -> Result<String, NoMemory> {
    Ok(String::from_str(alloc, text)?)
}

pub(crate) fn no_such_call(alloc: Global) -> Result<String, NoMemory> {
    say(alloc, "no such call")
}

pub(crate) fn truth(alloc: Global, is_true: bool) -> Result<String, NoMemory> {
    say(alloc, if is_true { "yes" } else { "no" })
}

pub(crate) fn number_text(alloc: Global, number: u64) -> Result<String, NoMemory> {
    Ok(format!(in alloc; "{number}")?)
}

/// A byte in two hexadecimal digits.
pub(crate) fn byte_of(word: &str) -> u8 {
    let [byte]: [u8; 1] = array_of(word);
    byte
}

/// The bytes of a word: hexadecimal digits, or a count, `x` and the byte that stands so often.
pub(crate) fn row_of(alloc: Global, word: &str) -> Result<Vec<u8>, NoMemory> {
    match word.split_once('x') {
        Some((count, byte)) => {
            Ok(vec![in alloc; byte_of(byte); u64_of(count).min(16_777_217) as usize]?)
        }
        None => bytes_of(alloc, word),
    }
}

/// Bytes as `row_of` reads them: by a count where more than 32 are all the same.
pub(crate) fn row_text(alloc: Global, bytes: &[u8]) -> Result<String, NoMemory> {
    let Some(first) = bytes.first().copied() else {
        return say(alloc, "-");
    };
    if bytes.len() <= 32 || !are_all(bytes, first) {
        return hex_of(alloc, bytes);
    }
    let count = bytes.len();
    let byte = hex_of(alloc, &[first])?;
    Ok(format!(in alloc; "{count}x{byte}")?)
}

/// Whether all of the bytes are this one.
pub(crate) fn are_all(bytes: &[u8], byte: u8) -> bool {
    for other in bytes {
        if *other != byte {
            return false;
        }
    }
    true
}
