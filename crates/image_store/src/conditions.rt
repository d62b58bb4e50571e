//! The conditions of requests, each as its row has them.
ghost use Rattle.std.specs.Prelude.{◌≡◌, ◌<◌, ◌==◌, false, Result, IfOk, OnOk, IfErr};
ghost use Rattle.store_spec.specs.Deeds.{image_code, is_in_use as in_use_of, start_code};
ghost use Rattle.store_spec.specs.Deeds.{window_code};

use entity_classes::class;
use omci_types::{Code, EntityId};
use store_spec::{IMAGES, MOST_TARGETS};
use window_spec::{Arrived, IMAGE_CLASS, SECTION_BYTES};

/// The slot of a request for this entity, where it is a software image and the store isn't broken.
#[tactic(auto, unfolding(store_spec::specs::Deeds::image_code))]
pub(crate) fn image_slot(entity: EntityId, broken: bool) -> Result<u8, Code>
    ensures slot { IfOk result (λ slot. slot ≡ entity.instance) }
    ensures below { IfOk result (λ slot. slot < 2) }
    ensures passed { IfOk result (λ slot. image_code entity broken ≡ 0) }
    ensures refused { IfErr result (λ code. image_code entity broken ≡ code.0) }
    ensures fails { IfErr result (λ code. (code.0 == 0) ≡ false) }
{
    if class(entity.class).is_none() {
        return Err(Code::UNKNOWN_CLASS);
    }
    if entity.class != IMAGE_CLASS {
        return Err(Code::NOT_SUPPORTED);
    }
    if entity.instance >= IMAGES {
        return Err(Code::UNKNOWN_INSTANCE);
    }
    if broken {
        return Err(Code::PROCESSING_ERROR);
    }
    Ok(entity.instance as u8)
}

/// Whether a slot is in use: it is active or committed.
pub(crate) fn is_in_use(slot: u8, active: u8, committed: u8) -> bool
    ensures value { result ≡ in_use_of slot active committed }
{
    slot == active || slot == committed
}

/// The tests of a start, and the code of the first that fails.
#[tactic(auto, unfolding(store_spec::specs::Deeds::start_code))]
pub(crate) fn start_test(in_use: bool, room: u32, targets: u8, size: u32) -> Result<(), Code>
    ensures passed { OnOk result (start_code in_use room targets size ≡ 0) }
    ensures refused { IfErr result (λ code. start_code in_use room targets size ≡ code.0) }
    ensures fails { IfErr result (λ code. (code.0 == 0) ≡ false) }
{
    if targets > MOST_TARGETS {
        return Err(Code::NOT_SUPPORTED);
    }
    if in_use {
        return Err(Code::PARAMETER_ERROR);
    }
    if size == 0 || size > room {
        return Err(Code::PARAMETER_ERROR);
    }
    Ok(())
}

/// The tests of a window whose last section has come: as [`start_test`].
#[tactic(auto, unfolding(store_spec::specs::Deeds::window_code))]
pub(crate) fn window_test(granted: u16, size: u32, have: u32, arrived: Arrived) -> Result<(), Code>
    ensures passed { OnOk result (window_code granted size have arrived ≡ 0) }
    ensures refused { IfErr result (λ code. window_code granted size have arrived ≡ code.0) }
    ensures fails { IfErr result (λ code. (code.0 == 0) ≡ false) }
{
    let Arrived::Whole { sections } = arrived else {
        return Err(Code::PARAMETER_ERROR);
    };
    if sections > granted {
        return Err(Code::PARAMETER_ERROR);
    }
    let before = SECTION_BYTES as u64 * u64::from(sections.saturating_sub(1));
    if u64::from(size) <= u64::from(have) + before {
        return Err(Code::PARAMETER_ERROR);
    }
    Ok(())
}
