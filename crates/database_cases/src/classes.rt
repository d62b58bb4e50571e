//! The class table, and masks of attributes.

use crate::words::{mask_text, say};
use bitflags::Flags;
use case_lines::NoMemory;
use entity_classes::{Access, Class, Maker, class};
use mib_store::Mask;
use omci_attributes::{known, place, width};
use std::alloc::Global;

/// How many attributes of a class have each right, and their bytes.
#[derive(Drop)]
struct Sums {
    written: u8,
    created: u8,
    bytes: u32,
}

/// The sums of a class. None where an attribute has another number than its place, or can't be read.
fn sums_of(class: &Class) -> Option<Sums> {
    let mut sums = Sums {
        written: 0,
        created: 0,
        bytes: 0,
    };
    for number in 1..=class.count() {
        let attribute = class.attribute(number)?;
        if attribute.number != number || !attribute.access.contains(Access::READ) {
            return None;
        }
        let written = attribute.access.contains(Access::WRITE);
        let created = attribute.access.contains(Access::SET_BY_CREATE);
        sums.written = sums.written.saturating_add(u8::from(written));
        sums.created = sums.created.saturating_add(u8::from(created));
        sums.bytes = sums.bytes.saturating_add(u32::from(attribute.width));
    }
    Some(sums)
}

/// The row of a class: its maker, how many attributes it has, how many of them may be written and
/// are set by create, their bytes, and the class's width.
pub(crate) fn class_text(alloc: Global, number: u16) -> Result<String, NoMemory> {
    match class(number) {
        None => say(alloc, "-"),
        Some(class) if class.number() != number => say(alloc, "another number"),
        Some(class) => row_text(alloc, &class),
    }
}

fn row_text(alloc: Global, class: &Class) -> Result<String, NoMemory> {
    let Some(sums) = sums_of(class) else {
        return say(alloc, "another attribute");
    };
    let maker = match class.maker() {
        Maker::Unit => "unit",
        Maker::Manager => "manager",
    };
    let count = class.count();
    let width = class.width();
    let Sums {
        written,
        created,
        bytes,
    } = sums;
    Ok(format!(in alloc; "{maker} {count} {written} {created} {bytes} {width}")?)
}

/// The width of an attribute in bytes, `-` where the class has none of this number.
pub(crate) fn attribute_text(alloc: Global, number: u16, one: u8) -> Result<String, NoMemory> {
    let Some(class) = class(number) else {
        return say(alloc, "no such class");
    };
    match class.attribute(one) {
        None => say(alloc, "-"),
        Some(attribute) => {
            let width = attribute.width;
            Ok(format!(in alloc; "{width}")?)
        }
    }
}

/// What a mask names of a class, and the bytes of that.
pub(crate) fn named_text(alloc: Global, number: u16, mask: Mask) -> Result<String, NoMemory> {
    let Some(class) = class(number) else {
        return say(alloc, "no such class");
    };
    let named = mask_text(alloc, known(&class, mask))?;
    let bytes = width(&class, mask);
    Ok(format!(in alloc; "{named} {bytes}")?)
}

/// Where an attribute's value stands among those of a mask, or why it has no place.
pub(crate) fn place_text(
    alloc: Global,
    number: u16,
    mask: Mask,
    one: u8,
    room: usize,
) -> Result<String, NoMemory> {
    let Some(class) = class(number) else {
        return say(alloc, "no such class");
    };
    match place(&class, mask, one, room) {
        Ok(place) => Ok(format!(in alloc; "at {place}")?),
        Err(fault) => Ok(format!(in alloc; "{fault:?}")?),
    }
}
