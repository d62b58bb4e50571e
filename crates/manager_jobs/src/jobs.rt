//! A job that runs: what it waits for, how a give-up ends it, and what it sends next.

ghost use Rattle.std.specs.Prelude.{◌≡◌, ◌++◌, option_map, OnOk, IfOk};
ghost use Rattle.manager_spec.specs.Manager.{packets_of};
ghost use Rattle.manager_spec.specs.Jobs.{job_lost, waits_for, wish_in, is_free, job_goes_on};
ghost use Rattle.manager_spec.specs.Jobs.{job_resumes};
ghost use Rattle.manager_jobs.specs.Packets.{AreFrames};
ghost use Rattle.manager_jobs.specs.Stages.{with_wish};

use crate::olt::Olt;
use crate::stage::{Stage, job_of};
use crate::upgrade::{end_command, window_command};
use class_spec::ONU_DATA;
use manager_spec::{AuditReason, ImageReason, Job, ResyncReason};
use olt_lanes::{Command, Lane};
use omci_contents::Request;
use omci_core::{NoMemory, Packets, Priority};

/// Whether the job may send over a lane.
fn is_free(lane: &Lane) -> bool
    ensures value { result ≡ is_free lane.now }
{
    !lane.unproven() && lane.outstanding().is_none()
}

impl Olt {
    /// The command that the job waited for was given up, and the job has failed.
    pub fn lose_job(&mut self, tci: u16) -> Result<(), NoMemory>
        ensures manager { OnOk result (self.new ≡ job_lost self.old.job tci self.old) }
    {
        match &self.job {
            None => Ok(()),
            Some(stage) => match job_of(stage) {
                Job::Resync => self.fail_resync(ResyncReason::GaveUp { tci }),
                Job::Audit => self.fail_audit(AuditReason::GaveUp { tci }),
                Job::Image => {
                    self.fail_image(ImageReason::GaveUp { tci })?;
                    self.leave_step()
                }
            },
        }
    }

    /// Whether the job waits for the lane's command.
    pub fn waits_for(&self, priority: Priority) -> bool
        ensures value { result ≡ waits_for priority self.now.job }
    {
        match (&self.job, priority) {
            (None, _) => false,
            (Some(Stage::Probing { high, .. }), Priority::High) => *high,
            (Some(Stage::Probing { low, .. }), Priority::Low) => *low,
            (Some(Stage::Asking), Priority::Low) => true,
            (Some(Stage::Gathering { .. }), Priority::Low) => true,
            (Some(Stage::AskingAlarms), Priority::Low) => true,
            (Some(Stage::GatheringRows { .. }), Priority::Low) => true,
            (Some(Stage::StartingImage { .. }), Priority::Low) => true,
            (Some(Stage::SendingImage { .. }), Priority::Low) => true,
            (Some(Stage::EndingImage { .. }), Priority::Low) => true,
            (Some(Stage::DelayingEnd { .. }), Priority::Low) => true,
            (Some(_stage), Priority::High) => false,
        }
    }

    /// The command that the job sends next, if any; its stage is then the one that the command
    /// begins. The lanes stay as they are.
    fn next_command(&mut self) -> Result<Option<Command>, NoMemory>
        ensures command { IfOk result
            (λ command. command ≡ option_map (λ w. w.command) (wish_in self.old.job)) }
        ensures manager { OnOk result (self.new ≡ with_wish (wish_in self.old.job) self.old) }
        ensures low { OnOk result (self.new.low ≡ self.old.low) }
    {
        let request = match &self.job {
            Some(
                Stage::Probing {
                    high: false,
                    low: false,
                },
            ) => {
                self.set_job(Some(Stage::Asking));
                Request::Upload
            }
            Some(Stage::Gathering { next, .. }) => Request::UploadNext { number: *next },
            Some(Stage::GatheringRows { next, .. }) => Request::AlarmsNext { number: *next },
            Some(Stage::SendingImage { order, outbox, .. }) => {
                return Ok(Some(window_command(self.alloc, order, outbox)?));
            }
            Some(Stage::EndingImage { order, outbox, .. }) => {
                return Ok(Some(end_command(order, outbox)));
            }
            _ => return Ok(None),
        };
        Ok(Some(Command::job(ONU_DATA, request)))
    }

    /// The low lane, where it is free, sends what the job wants next.
    #[tactic(auto, unfolding(manager_spec::specs::Jobs::job_goes_on))]
    pub fn job_goes_on(&mut self, out: &mut Packets) -> Result<(), NoMemory>
        ensures manager { OnOk result (self.new ≡ (job_goes_on self.old).manager) }
        ensures packets { OnOk result
            (out.new ≡ out.old ++ packets_of (job_goes_on self.old).sendings) }
        ensures whole { OnOk result (AreFrames (packets_of (job_goes_on self.old).sendings)) }
    {
        if !is_free(&self.low) {
            return Ok(());
        }
        if let Some(command) = self.next_command()? {
            self.send(Priority::Low, command, out)?;
        }
        Ok(())
    }

    /// A job that waited for the second goes on.
    pub fn job_resumes(&mut self, out: &mut Packets) -> Result<(), NoMemory>
        ensures manager { OnOk result (self.new ≡ (job_resumes self.old).manager) }
        ensures packets { OnOk result
            (out.new ≡ out.old ++ packets_of (job_resumes self.old).sendings) }
        ensures whole { OnOk result (AreFrames (packets_of (job_resumes self.old).sendings)) }
    {
        match self.take_job() {
            Some(
                Stage::DelayingEnd {
                    order,
                    outbox,
                    busy,
                },
            ) => {
                self.set_job(Some(Stage::EndingImage {
                    order,
                    outbox,
                    busy,
                }));
                self.job_goes_on(out)
            }
            job => {
                self.set_job(job);
                Ok(())
            }
        }
    }
}
