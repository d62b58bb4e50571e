//! What a unit did, in words.

use case_lines::{NoMemory, hex_of};
use omci_core::Boot;
use onu_agent::{Did, Note, Noticed};
use std::alloc::Global;

pub(crate) fn say(alloc: Global, text: &str) -> Result<String, NoMemory> {
    Ok(String::from_str(alloc, text)?)
}

/// What the unit did with a packet, and its reply.
pub(crate) fn did_text(alloc: Global, did: Did, reply: &[u8]) -> Result<String, NoMemory> {
    let reply = hex_of(alloc, reply)?;
    match did {
        Did::Dropped => Ok(format!(in alloc; "dropped {reply}")?),
        Did::Held => Ok(format!(in alloc; "held {reply}")?),
        Did::Kept => Ok(format!(in alloc; "kept {reply}")?),
        Did::Carried { note: None } => Ok(format!(in alloc; "carried {reply}")?),
        Did::Carried { note: Some(note) } => {
            let note = note_text(alloc, note)?;
            Ok(format!(in alloc; "carried {reply} {note}")?)
        }
    }
}

fn note_text(alloc: Global, note: Note) -> Result<String, NoMemory> {
    match note {
        Note::Snapshot { entities, counter } => {
            Ok(format!(in alloc; "snapshot {entities} {counter}")?)
        }
        Note::Alarms { rows } => Ok(format!(in alloc; "alarms {rows}")?),
        Note::Sealed { slot, length, crc } => Ok(format!(in alloc;
            "sealed {slot} {length} {crc}"
        )?),
        Note::Committed { slot } => Ok(format!(in alloc; "committed {slot}")?),
        Note::Leaving {
            boot: Boot::PowerUp,
        } => say(alloc, "leaving"),
        Note::Leaving {
            boot: Boot::Activated(slot),
        } => Ok(format!(in alloc; "leaving {slot}")?),
    }
}

/// What became of what the unit noticed, and its notice.
pub(crate) fn noticed_text(
    alloc: Global,
    noticed: Noticed,
    notice: &[u8],
) -> Result<String, NoMemory> {
    let notice = hex_of(alloc, notice)?;
    let word = match noticed {
        Noticed::NotAllowed => "not-allowed",
        Noticed::Same => "same",
        Noticed::Sent => "sent",
    };
    Ok(format!(in alloc; "{word} {notice}")?)
}
