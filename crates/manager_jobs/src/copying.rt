//! What the reply to a change does to the manager's copy.

ghost use Rattle.std.specs.Prelude.{◌≡◌, OnOk};
ghost use Rattle.mib_spec.specs.Requests.{is_counter_set};
ghost use Rattle.manager_spec.specs.Copying.{copy_after, followed};

use crate::olt::Olt;
use class_spec::ONU_DATA;
use manager_spec::Phase;
use mib_upload::{Mask, MibCopy};
use omci_contents::Request;
use omci_core::{Code, EntityId, NoMemory};

/// Whether a set gives the counter a value.
fn is_counter_set(entity: EntityId, mask: Mask) -> bool
    ensures value { result ≡ is_counter_set entity mask.0 }
{
    entity == ONU_DATA && mask.has(1)
}

/// The copy after a request for an entity that was answered by code 0, as the unit's rule says.
fn copy_after(
    copy: &mut MibCopy,
    phase: Phase,
    entity: EntityId,
    request: &Request,
) -> Result<(), NoMemory>
    ensures copy { OnOk result (copy.new ≡ copy_after phase entity request.now copy.old) }
{
    match request {
        Request::Create { values } => {
            copy.created(entity, values)?;
            copy.grow();
        }
        Request::Delete => {
            copy.deleted(entity);
            copy.grow();
        }
        Request::Set { mask, values } => {
            copy.changed(entity, Mask(*mask), values);
            if !is_counter_set(entity, Mask(*mask)) {
                copy.grow();
            }
        }
        Request::Commit | Request::Start { .. } | Request::End { .. } => match phase {
            Phase::InStep => copy.grow(),
            Phase::New | Phase::Out => {}
        },
        Request::Get { .. }
        | Request::Reset
        | Request::Activate { .. }
        | Request::Reboot { .. }
        | Request::Alarms { .. }
        | Request::AlarmsNext { .. }
        | Request::Upload
        | Request::UploadNext { .. }
        | Request::Section { .. } => {}
    }
    Ok(())
}

impl Olt {
    /// The copy follows a request for an entity that was answered by this code.
    #[tactic(auto, unfolding(manager_spec::specs::Copying::followed))]
    pub fn follow(
        &mut self,
        entity: EntityId,
        request: &Request,
        code: Code,
    ) -> Result<(), NoMemory>
        ensures manager { OnOk result (self.new ≡ followed entity request.now code.0 self.old) }
    {
        if code != Code::SUCCESS {
            return Ok(());
        }
        if let Some(copy) = &mut self.copy {
            copy_after(copy, self.phase, entity, request)?;
        }
        Ok(())
    }
}
