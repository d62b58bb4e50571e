//! The event of each kind of line, by the words after its name.

ghost use Rattle.std.specs.Prelude.{◌≡◌};
ghost use Rattle.script_spec.specs.Reading.{action_at, line_action};
ghost use Rattle.line_words.specs.Answers.{Gives};
ghost use Rattle.replay_script.specs.Events.{action_of};

use crate::script::Event;
use line_words::{LineRefusal, LineWords};
use omci_core::EntityId;
use script_spec::{
    Document, LAST_PACKET, Line, MAX_ASKED, MAX_ATTRIBUTE, MAX_CALL, MAX_FLOW, MAX_IMAGE,
};
use std::alloc::Global;

/// The event that a line of these words asks for, in a document that may lack its kind.
#[tactic(auto, unfolding(script_spec::specs::Reading::line_action))]
pub(crate) fn event_of(
    alloc: Global,
    document: Document,
    mut words: LineWords<'_>,
) -> Result<Event, LineRefusal>
    ensures value { Gives action_of result (line_action document words.entry) }
{
    let line = words.line(document)?;
    match line {
        Line::Probe => probe_event(&mut words),
        Line::Reset => reset_event(&mut words),
        Line::Get => get_event(&mut words),
        Line::Create => create_event(&mut words),
        Line::Set => set_event(&mut words),
        Line::Delete => delete_event(&mut words),
        Line::Activate => activate_event(&mut words),
        Line::Commit => commit_event(&mut words),
        Line::Reboot => reboot_event(&mut words),
        Line::Resync => resync_event(&words),
        Line::Audit => audit_event(&words),
        Line::Check => check_event(&words),
        Line::Image => image_event(alloc, &mut words),
        Line::Deliver => deliver_event(&mut words),
        Line::Flow => flow_event(&mut words),
        Line::CutIn => cut_in_event(&mut words),
        Line::NoiseUnit => noise_unit_event(alloc, &mut words),
        Line::NoiseOlt => noise_olt_event(alloc, &mut words),
        Line::Tick => tick_event(&words),
        Line::Sense => sense_event(&mut words),
        Line::Alarm => alarm_event(&mut words),
        Line::CutUnit => cut_unit_event(&words),
        Line::CutOlt => cut_olt_event(&words),
        Line::StartUnit => start_unit_event(&words),
        Line::StartOlt => start_olt_event(&mut words),
    }
}

/// The words after `probe`: LANE.
#[tactic(auto, unfolding(script_spec::specs::Reading::action_at))]
fn probe_event(words: &mut LineWords<'_>) -> Result<Event, LineRefusal>
    ensures value { Gives action_of result (action_at Line.Probe words.old) }
{
    words.expect(1)?;
    Ok(Event::Probe {
        lane: words.lane()?,
    })
}

/// The words after `reset`: LANE.
#[tactic(auto, unfolding(script_spec::specs::Reading::action_at))]
fn reset_event(words: &mut LineWords<'_>) -> Result<Event, LineRefusal>
    ensures value { Gives action_of result (action_at Line.Reset words.old) }
{
    words.expect(1)?;
    Ok(Event::Reset {
        lane: words.lane()?,
    })
}

/// The words after `get`: LANE CLASS INSTANCE MASK.
#[tactic(auto, unfolding(script_spec::specs::Reading::action_at))]
fn get_event(words: &mut LineWords<'_>) -> Result<Event, LineRefusal>
    ensures value { Gives action_of result (action_at Line.Get words.old) }
{
    words.expect(4)?;
    Ok(Event::Get {
        lane: words.lane()?,
        entity: EntityId {
            class: words.id()?,
            instance: words.id()?,
        },
        mask: words.mask()?,
    })
}

/// The words after `create`: LANE CLASS INSTANCE HEX.
#[tactic(auto, unfolding(script_spec::specs::Reading::action_at))]
fn create_event(words: &mut LineWords<'_>) -> Result<Event, LineRefusal>
    ensures value { Gives action_of result (action_at Line.Create words.old) }
{
    words.expect(4)?;
    Ok(Event::Create {
        lane: words.lane()?,
        entity: EntityId {
            class: words.id()?,
            instance: words.id()?,
        },
        values: words.few_bytes(0)?,
    })
}

/// The words after `set`: LANE CLASS INSTANCE MASK HEX.
#[tactic(auto, unfolding(script_spec::specs::Reading::action_at))]
fn set_event(words: &mut LineWords<'_>) -> Result<Event, LineRefusal>
    ensures value { Gives action_of result (action_at Line.Set words.old) }
{
    words.expect(5)?;
    Ok(Event::Set {
        lane: words.lane()?,
        entity: EntityId {
            class: words.id()?,
            instance: words.id()?,
        },
        mask: words.mask()?,
        values: words.few_bytes(0)?,
    })
}

/// The words after `delete`: LANE CLASS INSTANCE.
#[tactic(auto, unfolding(script_spec::specs::Reading::action_at))]
fn delete_event(words: &mut LineWords<'_>) -> Result<Event, LineRefusal>
    ensures value { Gives action_of result (action_at Line.Delete words.old) }
{
    words.expect(3)?;
    Ok(Event::Delete {
        lane: words.lane()?,
        entity: EntityId {
            class: words.id()?,
            instance: words.id()?,
        },
    })
}

/// The words after `activate`: LANE SLOT.
#[tactic(auto, unfolding(script_spec::specs::Reading::action_at))]
fn activate_event(words: &mut LineWords<'_>) -> Result<Event, LineRefusal>
    ensures value { Gives action_of result (action_at Line.Activate words.old) }
{
    words.expect(2)?;
    Ok(Event::Activate {
        lane: words.lane()?,
        slot: words.slot()?,
    })
}

/// The words after `commit`: LANE SLOT.
#[tactic(auto, unfolding(script_spec::specs::Reading::action_at))]
fn commit_event(words: &mut LineWords<'_>) -> Result<Event, LineRefusal>
    ensures value { Gives action_of result (action_at Line.Commit words.old) }
{
    words.expect(2)?;
    Ok(Event::Commit {
        lane: words.lane()?,
        slot: words.slot()?,
    })
}

/// The word after `reboot`: LANE.
#[tactic(auto, unfolding(script_spec::specs::Reading::action_at))]
fn reboot_event(words: &mut LineWords<'_>) -> Result<Event, LineRefusal>
    ensures value { Gives action_of result (action_at Line.Reboot words.old) }
{
    words.expect(1)?;
    Ok(Event::Reboot {
        lane: words.lane()?,
    })
}

/// The words after `image`: SLOT WINDOW CHECK HEX.
#[tactic(auto, unfolding(script_spec::specs::Reading::action_at))]
fn image_event(alloc: Global, words: &mut LineWords<'_>) -> Result<Event, LineRefusal>
    ensures value { Gives action_of result (action_at Line.Image words.old) }
{
    words.expect(4)?;
    Ok(Event::Image {
        slot: words.slot()?,
        window: words.number(1, MAX_ASKED)? as u16,
        crc: words.check()?,
        image: words.bytes(alloc, 1, MAX_IMAGE)?,
    })
}

/// The words after `cutin`: the packet's number, the device call's, and the pick.
#[tactic(auto, unfolding(script_spec::specs::Reading::action_at))]
fn cut_in_event(words: &mut LineWords<'_>) -> Result<Event, LineRefusal>
    ensures value { Gives action_of result (action_at Line.CutIn words.old) }
{
    words.expect(3)?;
    Ok(Event::CutIn {
        packet: words.number(0, LAST_PACKET)?,
        call: words.number(1, MAX_CALL)?,
        pick: words.pick()?,
    })
}

/// No word stands after `resync`.
#[tactic(auto, unfolding(script_spec::specs::Reading::action_at))]
fn resync_event(words: &LineWords<'_>) -> Result<Event, LineRefusal>
    ensures value { Gives action_of result (action_at Line.Resync words.now) }
{
    words.expect(0)?;
    Ok(Event::Resync)
}

/// No word stands after `audit`.
#[tactic(auto, unfolding(script_spec::specs::Reading::action_at))]
fn audit_event(words: &LineWords<'_>) -> Result<Event, LineRefusal>
    ensures value { Gives action_of result (action_at Line.Audit words.now) }
{
    words.expect(0)?;
    Ok(Event::Audit)
}

/// No word stands after `check`.
#[tactic(auto, unfolding(script_spec::specs::Reading::action_at))]
fn check_event(words: &LineWords<'_>) -> Result<Event, LineRefusal>
    ensures value { Gives action_of result (action_at Line.Check words.now) }
{
    words.expect(0)?;
    Ok(Event::Check)
}

/// The word after `deliver`: the packet's number.
#[tactic(auto, unfolding(script_spec::specs::Reading::action_at))]
fn deliver_event(words: &mut LineWords<'_>) -> Result<Event, LineRefusal>
    ensures value { Gives action_of result (action_at Line.Deliver words.old) }
{
    words.expect(1)?;
    Ok(Event::Deliver {
        packet: words.number(0, LAST_PACKET)?,
    })
}

/// The word after `flow`: how many packets at most.
#[tactic(auto, unfolding(script_spec::specs::Reading::action_at))]
fn flow_event(words: &mut LineWords<'_>) -> Result<Event, LineRefusal>
    ensures value { Gives action_of result (action_at Line.Flow words.old) }
{
    words.expect(1)?;
    Ok(Event::Flow {
        times: words.number(1, MAX_FLOW)? as u32,
    })
}

/// The word after `noise unit`: the bytes.
#[tactic(auto, unfolding(script_spec::specs::Reading::action_at))]
fn noise_unit_event(alloc: Global, words: &mut LineWords<'_>) -> Result<Event, LineRefusal>
    ensures value { Gives action_of result (action_at Line.NoiseUnit words.old) }
{
    words.expect(1)?;
    Ok(Event::NoiseUnit {
        bytes: words.noise(alloc)?,
    })
}

/// The word after `noise olt`: the bytes.
#[tactic(auto, unfolding(script_spec::specs::Reading::action_at))]
fn noise_olt_event(alloc: Global, words: &mut LineWords<'_>) -> Result<Event, LineRefusal>
    ensures value { Gives action_of result (action_at Line.NoiseOlt words.old) }
{
    words.expect(1)?;
    Ok(Event::NoiseOlt {
        bytes: words.noise(alloc)?,
    })
}

/// No word stands after `tick`.
#[tactic(auto, unfolding(script_spec::specs::Reading::action_at))]
fn tick_event(words: &LineWords<'_>) -> Result<Event, LineRefusal>
    ensures value { Gives action_of result (action_at Line.Tick words.now) }
{
    words.expect(0)?;
    Ok(Event::Tick)
}

/// The words after `sense`: CLASS INSTANCE ATTRIBUTE HEX.
#[tactic(auto, unfolding(script_spec::specs::Reading::action_at))]
fn sense_event(words: &mut LineWords<'_>) -> Result<Event, LineRefusal>
    ensures value { Gives action_of result (action_at Line.Sense words.old) }
{
    words.expect(4)?;
    Ok(Event::Sense {
        entity: EntityId {
            class: words.id()?,
            instance: words.id()?,
        },
        number: words.number(1, MAX_ATTRIBUTE)? as u8,
        value: words.few_bytes(1)?,
    })
}

/// The words after `alarm`: CLASS INSTANCE HEX.
#[tactic(auto, unfolding(script_spec::specs::Reading::action_at))]
fn alarm_event(words: &mut LineWords<'_>) -> Result<Event, LineRefusal>
    ensures value { Gives action_of result (action_at Line.Alarm words.old) }
{
    words.expect(3)?;
    Ok(Event::Alarm {
        entity: EntityId {
            class: words.id()?,
            instance: words.id()?,
        },
        bitmap: words.few_bytes(0)?,
    })
}

/// No word stands after `cut unit`.
#[tactic(auto, unfolding(script_spec::specs::Reading::action_at))]
fn cut_unit_event(words: &LineWords<'_>) -> Result<Event, LineRefusal>
    ensures value { Gives action_of result (action_at Line.CutUnit words.now) }
{
    words.expect(0)?;
    Ok(Event::CutUnit)
}

/// No word stands after `cut olt`.
#[tactic(auto, unfolding(script_spec::specs::Reading::action_at))]
fn cut_olt_event(words: &LineWords<'_>) -> Result<Event, LineRefusal>
    ensures value { Gives action_of result (action_at Line.CutOlt words.now) }
{
    words.expect(0)?;
    Ok(Event::CutOlt)
}

/// No word stands after `start unit`.
#[tactic(auto, unfolding(script_spec::specs::Reading::action_at))]
fn start_unit_event(words: &LineWords<'_>) -> Result<Event, LineRefusal>
    ensures value { Gives action_of result (action_at Line.StartUnit words.now) }
{
    words.expect(0)?;
    Ok(Event::StartUnit)
}

/// The words after `start olt`: the lanes' first numbers.
#[tactic(auto, unfolding(script_spec::specs::Reading::action_at))]
fn start_olt_event(words: &mut LineWords<'_>) -> Result<Event, LineRefusal>
    ensures value { Gives action_of result (action_at Line.StartOlt words.old) }
{
    words.expect(2)?;
    Ok(Event::StartOlt {
        low: words.lane_number()?,
        high: words.lane_number()?,
    })
}
