//! What a packet does to the manager.

ghost use Rattle.std.specs.Prelude.{◌≡◌, ◌++◌, [], OnOk};
ghost use Rattle.tci_spec.specs.Tci.{priority_of};
ghost use Rattle.message_spec.specs.Reading.{message_of};
ghost use Rattle.lane_spec.specs.Command.{ask};
ghost use Rattle.manager_spec.specs.declared.Report.TheVariants as report;
ghost use Rattle.manager_spec.specs.Manager.{with_report, packets_of};
ghost use Rattle.manager_spec.specs.Steps.{response_of, code_of, first_value, probe_taken};
ghost use Rattle.manager_spec.specs.Steps.{followed_by, expected_counter, counters_compared};
ghost use Rattle.manager_spec.specs.Steps.{checked_by, job_by, taken_as, not_taken};
ghost use Rattle.manager_spec.specs.Steps.{frame_came, after_packet};
ghost use Rattle.olt_manager.specs.State.{AreFrames};
ghost use Rattle.manager_jobs.specs.Stages.{of_parts};

use manager_jobs::{Olt, response_of};
use manager_spec::{Job, Report};
use olt_lanes::Purpose;
use omci_contents::{Message, Request, Response, read_message};
use omci_core::{Code, EntityId, NoMemory, Packets, Priority};
use omci_frames::{Frame, packet_frame};
use tci_spec::FIRST_HIGH_TCI;

/// The priority of a TCI.
fn priority_of(tci: u16) -> Priority
    ensures value { result ≡ priority_of tci }
{
    if tci < FIRST_HIGH_TCI {
        Priority::Low
    } else {
        Priority::High
    }
}

/// The code of a response that has one, and success of another.
fn code_of(response: &Response) -> Code
    ensures value { result.0 ≡ code_of response.now }
{
    match response {
        Response::Create { code, .. }
        | Response::Delete { code }
        | Response::Set { code, .. }
        | Response::Get { code, .. }
        | Response::Reset { code }
        | Response::Start { code, .. }
        | Response::Section { code, .. }
        | Response::End { code }
        | Response::Activate { code }
        | Response::Commit { code }
        | Response::Reboot { code } => *code,
        Response::Alarms { .. }
        | Response::AlarmsNext { .. }
        | Response::Upload { .. }
        | Response::UploadNext { .. } => Code::SUCCESS,
    }
}

/// The first byte of the values that a get gave.
fn first_value(response: &Response) -> u8
    ensures value { result ≡ first_value response.now }
{
    match response {
        Response::Get { values, .. } => values[0],
        _ => 0,
    }
}

/// Takes a packet from the link: one that isn't exactly one frame is neither a reply nor a
/// notice.
#[tactic(auto, unfolding(manager_spec::specs::Steps::after_packet))]
pub fn packet(olt: &mut Olt, bytes: &[u8], out: &mut Packets) -> Result<(), NoMemory>
    ensures manager { OnOk result (olt.new ≡ (after_packet bytes.now olt.old).manager) }
    ensures packets { OnOk result
        (out.new ≡ out.old ++ packets_of (after_packet bytes.now olt.old).sendings) }
    ensures whole { OnOk result
        (AreFrames (packets_of (after_packet bytes.now olt.old).sendings)) }
{
    match packet_frame(bytes) {
        None => olt.report(Report::Dropped)?,
        Some(frame) => take_frame(olt, priority_of(frame.tci), &frame, out)?,
    }
    Ok(())
}

/// Takes a frame of that lane: where it answers the outstanding command the lane is free, and
/// then the job goes on. Beside replies notices are taken.
#[tactic(auto, using(crate::proofs::Untaken::untaken))]
fn take_frame(
    olt: &mut Olt,
    priority: Priority,
    frame: &Frame,
    out: &mut Packets,
) -> Result<(), NoMemory>
    ensures manager { OnOk result
        (olt.new ≡ (frame_came priority frame.now olt.old).manager) }
    ensures packets { OnOk result
        (out.new ≡ out.old ++ packets_of (frame_came priority frame.now olt.old).sendings) }
    ensures whole { OnOk result
        (AreFrames (packets_of (frame_came priority frame.now olt.old).sendings)) }
{
    let Some(command) = olt.lane(priority).command() else {
        return not_taken(olt, frame);
    };
    let purpose = command.purpose();
    let entity = command.entity();
    let request = command.request();
    if !olt.reply(priority, frame) {
        not_taken(olt, frame)?;
        return Ok(());
    }
    take(olt, purpose, priority, entity, &request, frame)?;
    olt.job_goes_on(out)?;
    Ok(())
}

/// A frame that answers nothing is dropped, but for a notice.
fn not_taken(olt: &mut Olt, frame: &Frame) -> Result<(), NoMemory>
    ensures manager { OnOk result
        (olt.new ≡ (not_taken (message_of frame.now) frame.now olt.old).manager) }
    ensures silent { (not_taken (message_of frame.now) frame.now olt.old).sendings ≡ [] }
{
    match read_message(frame) {
        Ok(Message::Told { entity, notice, .. }) => olt.notice_came(entity, &notice, frame),
        Ok(Message::Asked { .. }) | Ok(Message::Answered { .. }) | Err(_) => {
            olt.report(Report::Dropped)
        }
    }
}

/// The reply to a command that was sent for this purpose is taken.
fn take(
    olt: &mut Olt,
    purpose: Purpose,
    priority: Priority,
    entity: EntityId,
    request: &Request,
    frame: &Frame,
) -> Result<(), NoMemory>
    ensures manager { OnOk result (olt.new ≡ (taken_as purpose priority
        (of_parts purpose entity request.now) frame.now olt.old).manager) }
{
    match purpose {
        Purpose::Probe => probe_taken(olt, priority)?,
        Purpose::Submission => submission_taken(olt, entity, request, frame)?,
        Purpose::Check => check_taken(olt, frame)?,
        Purpose::Job => job_taken(olt, frame)?,
    }
    Ok(())
}

// ---- what a reply means, by what its command was sent for

/// The lane is proved, and a job that waits for it no longer does.
fn probe_taken(olt: &mut Olt, priority: Priority) -> Result<(), NoMemory>
    ensures manager { OnOk result (olt.new ≡ (probe_taken priority olt.old).manager) }
{
    olt.report(Report::Proved { lane: priority })?;
    olt.probe_answered(priority);
    Ok(())
}

/// The reply to a submitted request is handed on, and the copy follows a change.
fn submission_taken(
    olt: &mut Olt,
    entity: EntityId,
    request: &Request,
    frame: &Frame,
) -> Result<(), NoMemory>
    ensures manager { OnOk result (olt.new ≡ followed_by (ask entity request.now)
        (response_of frame.now) (with_report (report.Took frame.now) olt.old)) }
{
    olt.report(Report::Took { reply: *frame })?;
    if let Some(response) = response_of(frame) {
        olt.follow(entity, request, code_of(&response))?;
    }
    Ok(())
}

/// The counter that the unit is expected to have.
fn expected_counter(olt: &Olt) -> u8
    ensures value { result ≡ expected_counter olt.now }
{
    match olt.copy() {
        None => 0,
        Some(copy) => copy.counter(),
    }
}

/// Compares the unit's counter with the copy's.
fn compare_counters(olt: &mut Olt, given: u8) -> Result<(), NoMemory>
    ensures manager { OnOk result (olt.new ≡ counters_compared given olt.old) }
{
    let expected = expected_counter(olt);
    olt.report(Report::Checked { given, expected })?;
    if given != expected {
        olt.leave_step()?;
    }
    Ok(())
}

/// The reply to a check. One that hasn't code 0 says nothing of the counter.
fn check_taken(olt: &mut Olt, frame: &Frame) -> Result<(), NoMemory>
    ensures manager { OnOk result
        (olt.new ≡ checked_by (response_of frame.now) frame.now olt.old) }
{
    if let Some(response) = response_of(frame) {
        if code_of(&response) == Code::SUCCESS {
            return compare_counters(olt, first_value(&response));
        }
    }
    olt.report(Report::Took { reply: *frame })?;
    olt.leave_step()
}

/// The reply that the job waits for, or one to a command whose job has ended.
fn job_taken(olt: &mut Olt, frame: &Frame) -> Result<(), NoMemory>
    ensures manager { OnOk result
        (olt.new ≡ job_by olt.old.job (response_of frame.now) frame.now olt.old) }
{
    match olt.job() {
        None => olt.free(frame),
        Some(Job::Resync) => olt.resync_taken(frame),
        Some(Job::Audit) => olt.audit_taken(frame),
        Some(Job::Image) => olt.download_taken(frame),
    }
}
