//! What a second does to the manager.

ghost use Rattle.std.specs.Prelude.{◌≡◌, ◌++◌, OnOk};
ghost use Rattle.manager_spec.specs.Manager.{packets_of};
ghost use Rattle.manager_spec.specs.Jobs.{waits_for};
ghost use Rattle.manager_spec.specs.Steps.{loss_seen, tick_lane, after_tick};
ghost use Rattle.olt_manager.specs.State.{AreFrames};

use manager_jobs::Olt;
use manager_spec::Report;
use olt_lanes::LaneTick;
use omci_core::{NoMemory, Packets, Priority};

/// A second passes: for the high lane, then for the low one, and then for the job.
#[tactic(auto, unfolding(manager_spec::specs::Steps::after_tick))]
pub fn tick(olt: &mut Olt, out: &mut Packets) -> Result<(), NoMemory>
    ensures manager { OnOk result (olt.new ≡ (after_tick olt.old).manager) }
    ensures packets { OnOk result
        (out.new ≡ out.old ++ packets_of (after_tick olt.old).sendings) }
    ensures whole { OnOk result (AreFrames (packets_of (after_tick olt.old).sendings)) }
{
    tick_lane(olt, Priority::High, out)?;
    tick_lane(olt, Priority::Low, out)?;
    olt.job_resumes(out)?;
    Ok(())
}

fn tick_lane(olt: &mut Olt, priority: Priority, out: &mut Packets) -> Result<(), NoMemory>
    ensures manager { OnOk result (olt.new ≡ (tick_lane priority olt.old).manager) }
    ensures packets { OnOk result
        (out.new ≡ out.old ++ packets_of (tick_lane priority olt.old).sendings) }
    ensures whole { OnOk result
        (AreFrames (packets_of (tick_lane priority olt.old).sendings)) }
{
    let changes = olt.lane(priority).is_changing();
    match olt.pass_second(priority) {
        LaneTick::Quiet => {}
        LaneTick::Repeat => olt.lane(priority).packets(out)?,
        LaneTick::GaveUp { tci } => {
            olt.report(Report::GaveUp { tci })?;
            see_loss(olt, priority, changes, tci)?;
        }
    }
    Ok(())
}

/// After a give-up a job that waited for the lane has failed; without one a change may have
/// been lost.
fn see_loss(olt: &mut Olt, priority: Priority, changes: bool, tci: u16) -> Result<(), NoMemory>
    ensures manager { OnOk result
        (olt.new ≡ loss_seen (waits_for priority olt.old.job) changes tci olt.old) }
{
    if olt.waits_for(priority) {
        return olt.lose_job(tci);
    }
    if changes {
        olt.leave_step()?;
    }
    Ok(())
}
