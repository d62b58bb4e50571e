//! What several calls say, in words.

use case_lines::{NoMemory, hex_of};
use extended_frames::AnyFault;
use omci_frames::FrameFault;
use std::alloc::Global;

pub(crate) fn say(alloc: Global, text: &str) -> Result<String, NoMemory> {
    Ok(String::from_str(alloc, text)?)
}

/// A fault of a frame of either set.
pub(crate) fn fault_text(alloc: Global, fault: AnyFault) -> Result<String, NoMemory> {
    match fault {
        AnyFault::Device { byte } => Ok(format!(in alloc; "device {byte}")?),
        AnyFault::Short { have } => Ok(format!(in alloc; "short {have}")?),
        AnyFault::Trailer { bytes } => {
            let bytes = hex_of(alloc, &bytes)?;
            Ok(format!(in alloc; "trailer {bytes}")?)
        }
        AnyFault::Check { given, computed } => check_text(alloc, given, computed),
        AnyFault::Length { given } => Ok(format!(in alloc; "length {given}")?),
        AnyFault::NoMemory => Err(NoMemory),
    }
}

fn check_text(alloc: Global, given: u32, computed: u32) -> Result<String, NoMemory> {
    let given = hex_of(alloc, &given.to_be_bytes())?;
    let computed = hex_of(alloc, &computed.to_be_bytes())?;
    Ok(format!(in alloc; "check {given} {computed}")?)
}

/// A fault of a baseline frame as one of either set.
pub(crate) fn any_fault(fault: FrameFault) -> AnyFault {
    match fault {
        FrameFault::Device { byte } => AnyFault::Device { byte },
        FrameFault::Short { have } => AnyFault::Short { have },
        FrameFault::Trailer { bytes } => AnyFault::Trailer { bytes },
        FrameFault::Check { given, computed } => AnyFault::Check { given, computed },
    }
}
