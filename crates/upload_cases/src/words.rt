//! Words of several calls.

use case_lines::{NoMemory, u16_of};
use omci_types::EntityId;
use std::alloc::Global;

pub(crate) fn say(alloc: Global, text: &str) -> Result<String, NoMemory> {
    Ok(String::from_str(alloc, text)?)
}

/// The entity that two words name.
pub(crate) fn entity_of(class: &str, instance: &str) -> EntityId {
    EntityId {
        class: u16_of(class),
        instance: u16_of(instance),
    }
}
