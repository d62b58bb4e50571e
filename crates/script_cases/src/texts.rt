//! Texts that stand as one word of a line.

use case_lines::NoMemory;
use std::alloc::Global;

pub(crate) fn say(alloc: Global, text: &str) -> Result<String, NoMemory> {
    Ok(String::from_str(alloc, text)?)
}

/// The text that a word stands for: `_` is a space, `\n` a line feed, `\r` a carriage return, `\t`
/// a tab, `\0` a zero byte.
pub(crate) fn text_of(alloc: Global, word: &str) -> Result<String, NoMemory> {
    let mut text = String::new(alloc);
    let mut after_mark = false;
    for letter in word.chars() {
        if letter == '\\' {
            after_mark = true;
            continue;
        }
        text.push(if after_mark {
            marked(letter)
        } else {
            plain(letter)
        })?;
        after_mark = false;
    }
    Ok(text)
}

fn marked(letter: char) -> char {
    match letter {
        'n' => '\n',
        'r' => '\r',
        't' => '\t',
        '0' => '\0',
        _ => letter,
    }
}

fn plain(letter: char) -> char {
    if letter == '_' { ' ' } else { letter }
}

/// Three texts, one after the other.
pub(crate) fn joined(
    alloc: Global,
    front: &str,
    middle: &str,
    back: &str,
) -> Result<String, NoMemory> {
    Ok(format!(in alloc; "{front}{middle}{back}")?)
}

/// The text on one line: `;` and a space for each line feed.
pub(crate) fn shown(alloc: Global, text: &[u8]) -> Result<String, NoMemory> {
    let mut out = say(alloc, "ok ")?;
    let Ok(text) = str::from_utf8(text) else {
        return say(alloc, "no text");
    };
    for letter in text.chars() {
        if letter == '\n' {
            out.push_str("; ")?;
        } else {
            out.push(letter)?;
        }
    }
    Ok(out)
}
