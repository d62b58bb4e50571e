//! What is asked of the manager: probes, submissions, checks, resynchronisations, audits and
//! downloads, and when each is refused.

ghost use Rattle.std.specs.Prelude.{◌≡◌, ◌++◌, IfOk, OnOk, IsSome};
ghost use Rattle.omci_types.specs.declared.Priority.TheVariants.{Low};
ghost use Rattle.message_spec.specs.Reading.{RequestWindow, IsWindow};
ghost use Rattle.manager_spec.specs.Manager.{packets_of};
ghost use Rattle.manager_spec.specs.Submitting.{unproven, occupied, needs_copy, out_of_step};
ghost use Rattle.manager_spec.specs.Submitting.{job_running, goes_beside, job_in_the_way};
ghost use Rattle.manager_spec.specs.Submitting.{other_change, second_change, probe_refusal};
ghost use Rattle.manager_spec.specs.Submitting.{submit_refusal, check_refusal, resync_refusal};
ghost use Rattle.manager_spec.specs.Submitting.{leaves_copy, leave_if, after_probe, after_submit};
ghost use Rattle.manager_spec.specs.Submitting.{after_check, after_resync, audit_refusal};
ghost use Rattle.manager_spec.specs.Submitting.{after_audit, image_refusal, after_image};
ghost use Rattle.manager_spec.specs.Submitting.{check_given};
ghost use Rattle.olt_manager.specs.State.{AreFrames};

use aal5_crc::crc_of;
use class_spec::ONU_DATA;
use download_window::Image;
use manager_jobs::{Olt, Order, Stage, start_command};
use manager_spec::{Phase, Refusal};
use olt_lanes::{Command, is_change};
use omci_contents::Request;
use omci_core::{EntityId, NoMemory, Packets, Priority};

/// Whether a request needs a copy that is in step.
fn needs_copy(request: &Request) -> bool
    ensures value { result ≡ needs_copy request.now }
{
    match request {
        Request::Create { .. } | Request::Delete | Request::Set { .. } => true,
        Request::Get { .. }
        | Request::Reset
        | Request::Activate { .. }
        | Request::Commit
        | Request::Reboot { .. }
        | Request::Alarms { .. }
        | Request::AlarmsNext { .. }
        | Request::Upload
        | Request::UploadNext { .. }
        | Request::Start { .. }
        | Request::Section { .. }
        | Request::End { .. } => false,
    }
}

/// Whether a request is submitted beside a running job.
fn goes_beside(priority: Priority, request: &Request) -> bool
    ensures value { result ≡ goes_beside priority request.now }
{
    match (priority, request) {
        (Priority::High, Request::Get { .. }) => true,
        _ => false,
    }
}

/// Whether a request leaves the unit with another database, or in another life.
fn leaves_copy(request: &Request) -> bool
    ensures value { result ≡ leaves_copy request.now }
{
    match request {
        Request::Reset | Request::Activate { .. } | Request::Reboot { .. } => true,
        Request::Create { .. }
        | Request::Delete
        | Request::Set { .. }
        | Request::Get { .. }
        | Request::Commit
        | Request::Alarms { .. }
        | Request::AlarmsNext { .. }
        | Request::Upload
        | Request::UploadNext { .. }
        | Request::Start { .. }
        | Request::Section { .. }
        | Request::End { .. } => false,
    }
}

// ---- refusals

/// The lane isn't proved.
fn unproven(olt: &Olt, priority: Priority) -> Option<Refusal>
    ensures value { result ≡ unproven priority olt.now }
{
    if olt.lane(priority).unproven() {
        Some(Refusal::Unproven { lane: priority })
    } else {
        None
    }
}

/// A command is outstanding in the lane.
fn occupied(olt: &Olt, priority: Priority) -> Option<Refusal>
    ensures value { result ≡ occupied priority olt.now }
{
    let tci = olt.lane(priority).outstanding()?;
    Some(Refusal::Occupied { tci })
}

/// The command needs a copy that is in step, and there is none.
fn out_of_step(olt: &Olt, needs: bool) -> Option<Refusal>
    ensures value { result ≡ out_of_step needs olt.now }
{
    if !needs {
        return None;
    }
    match olt.phase() {
        Phase::InStep => None,
        Phase::New | Phase::Out => Some(Refusal::OutOfStep { phase: olt.phase() }),
    }
}

/// A job runs.
fn job_running(olt: &Olt) -> Option<Refusal>
    ensures value { result ≡ job_running olt.now }
{
    let job = olt.job()?;
    Some(Refusal::JobRunning { job })
}

/// A job runs, beside which the request isn't submitted.
fn job_in_the_way(olt: &Olt, priority: Priority, request: &Request) -> Option<Refusal>
    ensures value { result ≡ job_in_the_way priority request.now olt.now }
{
    if goes_beside(priority, request) {
        None
    } else {
        job_running(olt)
    }
}

/// A change is outstanding in the other lane.
fn other_change(olt: &Olt, priority: Priority) -> Option<Refusal>
    ensures value { result ≡ other_change priority olt.now }
{
    let other = match priority {
        Priority::Low => olt.lane(Priority::High),
        Priority::High => olt.lane(Priority::Low),
    };
    if !other.is_changing() {
        return None;
    }
    let tci = other.outstanding()?;
    Some(Refusal::ChangeOutstanding { tci })
}

/// The request is a change, and one is outstanding in the other lane.
fn second_change(olt: &Olt, request: &Request, priority: Priority) -> Option<Refusal>
    ensures value { result ≡ second_change request.now priority olt.now }
{
    if is_change(request) {
        other_change(olt, priority)
    } else {
        None
    }
}

/// The first reason why a lane isn't probed.
fn probe_refusal(olt: &Olt, priority: Priority) -> Option<Refusal>
    ensures value { result ≡ probe_refusal priority olt.now }
{
    let occupied = occupied(olt, priority);
    if occupied.is_some() {
        return occupied;
    }
    job_running(olt)
}

/// The first reason why a request isn't submitted.
fn submit_refusal(olt: &Olt, priority: Priority, request: &Request) -> Option<Refusal>
    ensures value { result ≡ submit_refusal priority request.now olt.now }
{
    let unproven = unproven(olt, priority);
    if unproven.is_some() {
        return unproven;
    }
    let occupied = occupied(olt, priority);
    if occupied.is_some() {
        return occupied;
    }
    let out_of_step = out_of_step(olt, needs_copy(request));
    if out_of_step.is_some() {
        return out_of_step;
    }
    let job = job_in_the_way(olt, priority, request);
    if job.is_some() {
        return job;
    }
    second_change(olt, request, priority)
}

/// The first reason why the counters aren't compared.
fn check_refusal(olt: &Olt) -> Option<Refusal>
    ensures value { result ≡ check_refusal olt.now }
{
    let unproven = unproven(olt, Priority::Low);
    if unproven.is_some() {
        return unproven;
    }
    let occupied = occupied(olt, Priority::Low);
    if occupied.is_some() {
        return occupied;
    }
    let out_of_step = out_of_step(olt, true);
    if out_of_step.is_some() {
        return out_of_step;
    }
    let job = job_running(olt);
    if job.is_some() {
        return job;
    }
    other_change(olt, Priority::Low)
}

/// The first reason why no resynchronisation begins.
fn resync_refusal(olt: &Olt) -> Option<Refusal>
    ensures value { result ≡ resync_refusal olt.now }
{
    let high = occupied(olt, Priority::High);
    if high.is_some() {
        return high;
    }
    let low = occupied(olt, Priority::Low);
    if low.is_some() {
        return low;
    }
    job_running(olt)
}

/// The first reason why no audit begins.
fn audit_refusal(olt: &Olt) -> Option<Refusal>
    ensures value { result ≡ audit_refusal olt.now }
{
    let unproven = unproven(olt, Priority::Low);
    if unproven.is_some() {
        return unproven;
    }
    let occupied = occupied(olt, Priority::Low);
    if occupied.is_some() {
        return occupied;
    }
    job_running(olt)
}

/// The first reason why no download begins.
fn image_refusal(olt: &Olt) -> Option<Refusal>
    ensures value { result ≡ image_refusal olt.now }
{
    let unproven = unproven(olt, Priority::Low);
    if unproven.is_some() {
        return unproven;
    }
    let occupied = occupied(olt, Priority::Low);
    if occupied.is_some() {
        return occupied;
    }
    let job = job_running(olt);
    if job.is_some() {
        return job;
    }
    other_change(olt, Priority::Low)
}

// ---- what is submitted

/// Probes a lane: a get of MIB data sync, whose reply proves the lane whatever it says.
#[tactic(auto, unfolding(manager_spec::specs::Submitting::after_probe))]
pub fn probe(
    olt: &mut Olt,
    priority: Priority,
    out: &mut Packets,
) -> Result<Option<Refusal>, NoMemory>
    ensures refusal { IfOk result
        (λ refusal. refusal ≡ (after_probe priority olt.old).refusal) }
    ensures manager { OnOk result (olt.new ≡ (after_probe priority olt.old).outcome.manager) }
    ensures kept { IfOk result
        (λ refusal. IsSome refusal → (olt.new ≡ olt.old) × (out.new ≡ out.old)) }
    ensures packets { OnOk result
        (out.new ≡ out.old ++ packets_of (after_probe priority olt.old).outcome.sendings) }
    ensures whole { OnOk result
        (AreFrames (packets_of (after_probe priority olt.old).outcome.sendings)) }
{
    let refusal = probe_refusal(olt, priority);
    if refusal.is_none() {
        olt.send(priority, Command::probe(), out)?;
    }
    Ok(refusal)
}

/// Submits a request for an entity.
#[tactic(auto, unfolding(manager_spec::specs::Submitting::after_submit))]
pub fn submit(
    olt: &mut Olt,
    priority: Priority,
    entity: EntityId,
    request: Request,
    out: &mut Packets,
) -> Result<Option<Refusal>, NoMemory>
    requires window { RequestWindow request }
    ensures refusal { IfOk result
        (λ refusal. refusal ≡ (after_submit priority entity request olt.old).refusal) }
    ensures manager { OnOk result
        (olt.new ≡ (after_submit priority entity request olt.old).outcome.manager) }
    ensures kept { IfOk result
        (λ refusal. IsSome refusal → (olt.new ≡ olt.old) × (out.new ≡ out.old)) }
    ensures packets { OnOk result
        (out.new ≡ out.old
        ++ packets_of (after_submit priority entity request olt.old).outcome.sendings) }
    ensures whole { OnOk result
        (AreFrames
        (packets_of (after_submit priority entity request olt.old).outcome.sendings)) }
{
    let refusal = submit_refusal(olt, priority, &request);
    if refusal.is_none() {
        leave_if(olt, leaves_copy(&request))?;
        olt.send(priority, Command::ask(entity, request), out)?;
    }
    Ok(refusal)
}

/// Leaves the step, where that is so. The lanes stay as they are.
fn leave_if(olt: &mut Olt, leaves: bool) -> Result<(), NoMemory>
    ensures manager { OnOk result (olt.new ≡ leave_if leaves olt.old) }
    ensures low { OnOk result (olt.new.low ≡ olt.old.low) }
    ensures high { OnOk result (olt.new.high ≡ olt.old.high) }
{
    if leaves {
        olt.leave_step()?;
    }
    Ok(())
}

/// Asks for the unit's counter, to compare it with the copy's.
#[tactic(auto, unfolding(manager_spec::specs::Submitting::after_check))]
pub fn check(olt: &mut Olt, out: &mut Packets) -> Result<Option<Refusal>, NoMemory>
    ensures refusal { IfOk result (λ refusal. refusal ≡ (after_check olt.old).refusal) }
    ensures manager { OnOk result (olt.new ≡ (after_check olt.old).outcome.manager) }
    ensures kept { IfOk result
        (λ refusal. IsSome refusal → (olt.new ≡ olt.old) × (out.new ≡ out.old)) }
    ensures packets { OnOk result
        (out.new ≡ out.old ++ packets_of (after_check olt.old).outcome.sendings) }
    ensures whole { OnOk result
        (AreFrames (packets_of (after_check olt.old).outcome.sendings)) }
{
    let refusal = check_refusal(olt);
    if refusal.is_none() {
        olt.send(Priority::Low, Command::check(), out)?;
    }
    Ok(refusal)
}

/// Begins a resynchronisation: both lanes are probed, the high one first.
#[tactic(auto, unfolding(manager_spec::specs::Submitting::after_resync))]
pub fn resync(olt: &mut Olt, out: &mut Packets) -> Result<Option<Refusal>, NoMemory>
    ensures refusal { IfOk result (λ refusal. refusal ≡ (after_resync olt.old).refusal) }
    ensures manager { OnOk result (olt.new ≡ (after_resync olt.old).outcome.manager) }
    ensures kept { IfOk result
        (λ refusal. IsSome refusal → (olt.new ≡ olt.old) × (out.new ≡ out.old)) }
    ensures packets { OnOk result
        (out.new ≡ out.old ++ packets_of (after_resync olt.old).outcome.sendings) }
    ensures whole { OnOk result
        (AreFrames (packets_of (after_resync olt.old).outcome.sendings)) }
{
    let refusal = resync_refusal(olt);
    if refusal.is_none() {
        olt.set_job(Some(Stage::Probing {
            high: true,
            low: true,
        }));
        olt.send(Priority::High, Command::probe(), out)?;
        olt.send(Priority::Low, Command::probe(), out)?;
    }
    Ok(refusal)
}

/// Begins an audit: all of the unit's alarms are asked for, whatever its mode of reporting.
#[tactic(auto, unfolding(manager_spec::specs::Submitting::after_audit))]
pub fn audit(olt: &mut Olt, out: &mut Packets) -> Result<Option<Refusal>, NoMemory>
    ensures refusal { IfOk result (λ refusal. refusal ≡ (after_audit olt.old).refusal) }
    ensures manager { OnOk result (olt.new ≡ (after_audit olt.old).outcome.manager) }
    ensures kept { IfOk result
        (λ refusal. IsSome refusal → (olt.new ≡ olt.old) × (out.new ≡ out.old)) }
    ensures packets { OnOk result
        (out.new ≡ out.old ++ packets_of (after_audit olt.old).outcome.sendings) }
    ensures whole { OnOk result
        (AreFrames (packets_of (after_audit olt.old).outcome.sendings)) }
{
    let refusal = audit_refusal(olt);
    if refusal.is_none() {
        olt.set_job(Some(Stage::AskingAlarms));
        let command = Command::job(ONU_DATA, Request::Alarms { mode: 0 });
        olt.send(Priority::Low, command, out)?;
    }
    Ok(refusal)
}

/// Begins a download of an image into a slot, in windows of so many sections, with the image's
/// own check value where no other one is given.
#[tactic(auto, unfolding(manager_spec::specs::Submitting::after_image))]
pub fn image(
    olt: &mut Olt,
    slot: u8,
    asked: u16,
    check: Option<u32>,
    image: Image,
    out: &mut Packets,
) -> Result<Option<Refusal>, NoMemory>
    requires asked { IsWindow asked }
    ensures refusal { IfOk result
        (λ refusal. refusal ≡ (after_image slot asked check image olt.old).refusal) }
    ensures manager { OnOk result
        (olt.new ≡ (after_image slot asked check image olt.old).outcome.manager) }
    ensures kept { IfOk result
        (λ refusal. IsSome refusal → (olt.new ≡ olt.old) × (out.new ≡ out.old)) }
    ensures packets { OnOk result
        (out.new ≡ out.old
        ++ packets_of (after_image slot asked check image olt.old).outcome.sendings) }
    ensures whole { OnOk result (AreFrames
        (packets_of (after_image slot asked check image olt.old).outcome.sendings)) }
{
    let refusal = image_refusal(olt);
    if refusal.is_none() {
        let order = Order {
            slot,
            size: image.bytes().len() as u32,
            check: check_given(check, &image),
        };
        let command = start_command(&order, asked, &image);
        olt.set_job(Some(Stage::StartingImage {
            order,
            asked,
            image,
        }));
        olt.send(Priority::Low, command, out)?;
    }
    Ok(refusal)
}

/// The check value that is given with an image: its own, where no other one is asked for.
fn check_given(check: Option<u32>, image: &Image) -> u32
    ensures value { result ≡ check_given check image.now }
{
    match check {
        Some(check) => check,
        None => crc_of(image.bytes()),
    }
}
