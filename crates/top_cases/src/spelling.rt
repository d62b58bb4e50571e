//! The text of a status, of a command and of what was written.

use case_lines::{NoMemory, hex_of};
use omci_top::{Command, Filter, Status};
use std::alloc::Global;

/// A status by its number and its name.
pub(crate) fn status_text(alloc: Global, status: Status) -> Result<String, NoMemory> {
    let name = match status {
        Status::Done => "done",
        Status::Usage => "usage",
        Status::Input { place, reason } => {
            return Ok(format!(in alloc; "{} input {place} {reason}", status.number())?);
        }
        Status::ReadFault => "read fault",
        Status::WriteFault => "write fault",
        Status::DiskFault => "disk fault",
        Status::LinkFault => "link fault",
        Status::NoUnit => "no unit",
        Status::TooLong => "too long",
        Status::NoMemory => "no memory",
        Status::TooLarge => "too large",
    };
    Ok(format!(in alloc; "{} {name}", status.number())?)
}

/// A command by its name and its number.
pub(crate) fn command_text(alloc: Global, command: Option<Command>) -> Result<String, NoMemory> {
    let name = match command {
        None => "usage",
        Some(Command::Replay) => "replay",
        Some(Command::Show) => "show",
        Some(Command::Check) => "check",
        Some(Command::Flash) => "flash",
        Some(Command::Filter { filter }) => filter_name(filter),
        Some(Command::Drill { seed }) => return Ok(format!(in alloc; "drill {seed}")?),
        Some(Command::Olt { turns }) => return Ok(format!(in alloc; "olt {turns}")?),
        Some(Command::Unit { turns }) => return Ok(format!(in alloc; "unit {turns}")?),
    };
    Ok(String::from_str(alloc, name)?)
}

fn filter_name(filter: Filter) -> &'static str {
    match filter {
        Filter::Meter => "meter",
        Filter::Capture => "capture",
    }
}

/// What was written, with ` |` for each line feed; or as digits where it is no text.
pub(crate) fn written_text(alloc: Global, bytes: &[u8]) -> Result<String, NoMemory> {
    let Ok(text) = str::from_utf8(bytes) else {
        return hex_of(alloc, bytes);
    };
    let mut said = String::new(alloc);
    for letter in text.chars() {
        if letter == '\n' {
            said.push_str(" | ")?;
        } else {
            said.push(letter)?;
        }
    }
    Ok(said)
}
