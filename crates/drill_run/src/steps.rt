//! The draws of the drill, and the lines that they make.

ghost use Rattle.std.specs.Prelude.{◌≡◌, ◌++◌, ◌∷◌, [], ℕ, OnOk, IfOk};
ghost use Rattle.script_spec.specs.Script.{Flow, Alarm};
ghost use Rattle.replay_script.specs.Events.{action_of};
ghost use Rattle.drill_spec.specs.declared.TheConstants.{FLOW_ONE};
ghost use Rattle.drill_spec.specs.Drill.{state_after, drawn, kind_of, profile, both_bytes, high_byte, port, lines_of_kind, step_lines, lines_after, first_lines};

use crate::events::Events;
use drill_spec::{
    ALL_WEIGHTS, DRAW_FACTOR, DRAW_STATES, DRAW_SUMMAND, DRILL_CLASS, DRILL_INSTANCES,
    FIRST_ATTRIBUTE, FIRST_FLOW, FLOW_AUDIT, FLOW_BOTH, FLOW_ONE, FLOW_RESYNC, PORT_CLASS,
    PORT_INSTANCE, STEPS_TO_A_CUT, StepKind,
};
use omci_core::{EntityId, NoMemory, Priority};
use replay_script::{Event, FewBytes};

// The state of the draws after one more draw.
#[tactic(auto, unfolding(drill_spec::specs::Drill::state_after))]
fn state_after(state: u32) -> u32
    ensures value { result ≡ state_after state }
{
    ((u64::from(state) * DRAW_FACTOR + DRAW_SUMMAND) % DRAW_STATES) as u32
}

// What is drawn where that is the state after the draw.
#[tactic(auto, unfolding(drill_spec::specs::Drill::drawn))]
fn drawn(state: u32) -> u16
    ensures value { result ≡ drawn state }
{
    (state / 65_536) as u16
}

// The kind of a step that draws this.
#[tactic(auto, unfolding(drill_spec::specs::Drill::kind_of))]
fn kind_of(draw: u16) -> StepKind
    ensures value { result ≡ kind_of draw }
{
    let number = u64::from(draw) % ALL_WEIGHTS;
    match number {
        0..=3 => StepKind::Create,
        4..=6 => StepKind::Set,
        7 | 8 => StepKind::Delete,
        9 | 10 => StepKind::Get,
        11 => StepKind::Flow,
        12 => StepKind::Tick,
        13 => StepKind::Alarm,
        14 => StepKind::Audit,
        _ => StepKind::Resync,
    }
}

// The entity that a step is about which draws this.
fn profile(draw: u16) -> EntityId
    ensures value { result ≡ profile draw }
{
    EntityId {
        class: DRILL_CLASS,
        instance: (u64::from(draw) % DRILL_INSTANCES) as u16,
    }
}

// Both bytes of what was drawn, the high one first.
fn both_bytes(draw: u16) -> [u8; 2]
    ensures value { result ≡ both_bytes draw }
{
    [(draw / 256) as u8, (draw % 256) as u8]
}

// Adds an event, and then deliveries.
fn push_both(event: Event, times: u32, events: &mut Events) -> Result<(), NoMemory>
    ensures added { OnOk result (events.new ≡ events.old ++ (action_of event ∷ Flow times ∷ [])) }
{
    events.push(event)?;
    events.push(Event::Flow { times })?;
    Ok(())
}

// Adds the lines of a step of that kind that draws this.
#[tactic(auto, unfolding(drill_spec::specs::Drill::lines_of_kind))]
fn push_kind(kind: StepKind, draw: u16, events: &mut Events) -> Result<(), NoMemory>
    ensures lines { OnOk result (events.new ≡ events.old ++ lines_of_kind kind draw) }
{
    let entity = profile(draw);
    let lane = Priority::Low;
    let mask = FIRST_ATTRIBUTE;
    match kind {
        StepKind::Create => {
            let values = FewBytes::of(&both_bytes(draw));
            let create = Event::Create {
                lane,
                entity,
                values,
            };
            push_both(create, FLOW_BOTH, events)
        }
        StepKind::Set => {
            let values = FewBytes::of(&both_bytes(draw));
            let set = Event::Set {
                lane,
                entity,
                mask,
                values,
            };
            push_both(set, FLOW_ONE, events)
        }
        StepKind::Delete => push_both(Event::Delete { lane, entity }, FLOW_BOTH, events),
        StepKind::Get => {
            let get = Event::Get {
                lane: Priority::High,
                entity,
                mask,
            };
            push_both(get, FLOW_BOTH, events)
        }
        StepKind::Flow => events.push(Event::Flow { times: FLOW_ONE }),
        StepKind::Tick => events.push(Event::Tick),
        StepKind::Alarm => push_alarm(draw, events),
        StepKind::Audit => push_both(Event::Audit, FLOW_AUDIT, events),
        StepKind::Resync => push_both(Event::Resync, FLOW_RESYNC, events),
    }
}

// Adds the lines of a step that changes the alarms of the port.
fn push_alarm(draw: u16, events: &mut Events) -> Result<(), NoMemory>
    ensures lines { OnOk result (events.new ≡ events.old
        ++ (Alarm port (high_byte draw) ∷ Flow FLOW_ONE ∷ [])) }
{
    let bitmap = FewBytes::of(&[(draw / 256) as u8]);
    let alarm = Event::Alarm {
        entity: EntityId {
            class: PORT_CLASS,
            instance: PORT_INSTANCE,
        },
        bitmap,
    };
    push_both(alarm, FLOW_ONE, events)
}

/// Adds the lines before the first step.
pub(crate) fn push_first(events: &mut Events) -> Result<(), NoMemory>
    ensures lines { OnOk result (events.new ≡ events.old ++ first_lines) }
{
    push_both(Event::Resync, FIRST_FLOW, events)
}

/// Adds the lines of a step before which that is the state of the draws, and answers the state
/// after it.
#[tactic(auto, unfolding(drill_spec::specs::Drill::step_lines))]
pub(crate) fn push_step(state: u32, events: &mut Events) -> Result<u32, NoMemory>
    ensures lines { OnOk result (events.new ≡ events.old ++ step_lines state) }
    ensures state { IfOk result (λ after. after ≡ state_after (state_after state)) }
{
    let first = state_after(state);
    let second = state_after(first);
    push_kind(kind_of(drawn(first)), drawn(second), events)?;
    Ok(second)
}

/// Adds the lines between that many steps and the next one.
#[tactic(auto, unfolding(drill_spec::specs::Drill::lines_after))]
pub(crate) fn push_after(steps: u64, events: &mut Events) -> Result<(), NoMemory>
    ensures lines { OnOk result (events.new ≡ events.old ++ lines_after steps) }
{
    if steps % STEPS_TO_A_CUT == 0 {
        events.push(Event::CutUnit)?;
        events.push(Event::StartUnit)?;
        push_both(Event::Resync, FLOW_RESYNC, events)?;
    }
    Ok(())
}
