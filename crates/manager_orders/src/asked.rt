//! What a line of orders, or of a script, submits to the manager.

ghost use Rattle.std.specs.Prelude.{◌≡◌, IfSome};
ghost use Rattle.message_spec.specs.Reading.{RequestWindow};
ghost use Rattle.script_spec.specs.Script.{IsAction};
ghost use Rattle.replay_script.specs.Events.{action_of};
ghost use Rattle.manager_orders.specs.Asking.{asked_by};

use class_spec::ONU_DATA;
use olt_manager::image_entity;
use omci_contents::Request;
use omci_core::{EntityId, Priority, filled};
use replay_script::Event;
use unit_spec::ONU_G;

/// A request for an entity, over a lane.
#[derive(Clone, Copy)]
pub struct Asked {
    pub lane: Priority,
    pub entity: EntityId,
    pub request: Request,
}

/// A request for an entity, over that lane.
fn over(lane: Priority, entity: EntityId, request: Request) -> Asked
    ensures value { result ≡ record { lane = lane; entity = entity; request = request } }
{
    Asked {
        lane,
        entity,
        request,
    }
}

/// The request that a line submits. `None` where it submits none.
pub fn asked_by(event: &Event) -> Option<Asked>
    requires ranges { IsAction (action_of event.now) }
    ensures value { result ≡ asked_by (action_of event.now) }
    ensures window { IfSome result (λ a. RequestWindow a.request) }
{
    let asked = match event {
        Event::Reset { lane } => over(*lane, ONU_DATA, Request::Reset),
        Event::Get { lane, entity, mask } => over(*lane, *entity, Request::Get { mask: *mask }),
        Event::Create {
            lane,
            entity,
            values,
        } => {
            let values = filled(values.bytes());
            over(*lane, *entity, Request::Create { values })
        }
        Event::Set {
            lane,
            entity,
            mask,
            values,
        } => {
            let values = filled(values.bytes());
            over(
                *lane,
                *entity,
                Request::Set {
                    mask: *mask,
                    values,
                },
            )
        }
        Event::Delete { lane, entity } => over(*lane, *entity, Request::Delete),
        Event::Activate { lane, slot } => {
            over(*lane, image_entity(*slot), Request::Activate { flags: 0 })
        }
        Event::Commit { lane, slot } => over(*lane, image_entity(*slot), Request::Commit),
        Event::Reboot { lane } => over(*lane, ONU_G, Request::Reboot { flags: 0 }),
        _ => return None,
    };
    Some(asked)
}
