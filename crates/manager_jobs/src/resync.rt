//! Resynchronisation (ITU-T G.988, clause I.1.3, in this profile): both lanes are probed, the unit
//! is asked to put its database by, and its pieces are gathered one after the other into a new
//! copy.

ghost use Rattle.std.specs.Prelude.{◌≡◌, ◌<◌, ◌≤◌, ◌^◌, length, option_map, OnOk, Some};
ghost use Rattle.manager_spec.specs.Jobs.{job_of};
ghost use Rattle.manager_spec.specs.Resync.{with_job, resync_failed, resync_done, all_gathered};
ghost use Rattle.manager_spec.specs.Resync.{gather_on, piece_came};
ghost use Rattle.manager_spec.specs.Steps.{job_probed, job_by, response_of};

use crate::olt::Olt;
use crate::replies::response_of;
use crate::stage::Stage;
use manager_spec::{Job, Phase, Report, ResyncReason};
use mib_upload::{Gather, GatherFault, MibCopy, Missing, PIECE_BYTES};
use omci_contents::Response;
use omci_core::{NoMemory, Priority};
use omci_frames::Frame;

impl Olt {
    // ---- how it ends

    /// The job has failed, and the phase is out.
    pub fn fail_resync(&mut self, reason: ResyncReason) -> Result<(), NoMemory>
        ensures manager { OnOk result (self.new ≡ resync_failed reason self.old) }
    {
        self.set_job(None);
        self.report(Report::ResyncFailed { reason })?;
        self.lose_step()?;
        Ok(())
    }

    /// The new copy replaces the old one, and the phase is in step.
    fn end_resync(&mut self, copy: MibCopy) -> Result<(), NoMemory>
        requires few { length copy < 2 ^ 16 }
        ensures manager { OnOk result (self.new ≡ resync_done copy self.old) }
    {
        let entities = copy.len() as u32;
        let counter = copy.counter();
        self.phase = Phase::InStep;
        self.copy = Some(copy);
        self.set_job(None);
        self.report(Report::Synced { entities, counter })?;
        self.report(Report::PhaseIn)?;
        Ok(())
    }

    /// All pieces came; the counter has to be among them.
    fn all_gathered(&mut self, gather: Gather) -> Result<(), NoMemory>
        requires few { length gather.copy < 2 ^ 16 }
        ensures manager { OnOk result (self.new ≡ all_gathered gather.copy self.old) }
    {
        match gather.finish() {
            Ok(copy) => self.end_resync(copy)?,
            Err(Missing) => self.fail_resync(ResyncReason::Missing)?,
        }
        Ok(())
    }

    // ---- what a reply does

    /// The reply that a resynchronisation waits for, or one to a command whose job has ended.
    pub fn resync_taken(&mut self, frame: &Frame) -> Result<(), NoMemory>
        requires job { option_map job_of self.old.job ≡ Some Job.Resync }
        ensures manager { OnOk result
            (self.new ≡ job_by self.old.job (response_of frame.now) frame.now self.old) }
    {
        match (self.take_job(), response_of(frame)) {
            (Some(Stage::Asking), Some(Response::Upload { count })) => {
                self.gather_on(Gather::new(self.alloc, count), 0)?;
            }
            (Some(Stage::Gathering { gather, next }), Some(Response::UploadNext { piece })) => {
                self.piece_came(gather, next, &piece)?;
            }
            (job, _) => {
                self.set_job(job);
                self.free(frame)?;
            }
        }
        Ok(())
    }

    /// A job that waits for the lane's probe no longer does.
    pub fn probe_answered(&mut self, priority: Priority)
        ensures manager { self.new ≡ with_job (job_probed priority self.old.job) self.old }
    {
        if let Some(Stage::Probing { high, low }) = self.job {
            self.set_job(Some(match priority {
                Priority::Low => Stage::Probing { high, low: false },
                Priority::High => Stage::Probing { high: false, low },
            }));
        }
    }

    /// The pieces before this number are gathered.
    #[tactic(auto, unfolding(manager_spec::specs::Resync::gather_on))]
    fn gather_on(&mut self, gather: Gather, next: u16) -> Result<(), NoMemory>
        requires few { length gather.copy ≤ next }
        ensures manager { OnOk result
            (self.new ≡ gather_on gather.expected next gather.copy self.old) }
    {
        if gather.expected() <= next {
            return self.all_gathered(gather);
        }
        self.set_job(Some(Stage::Gathering { gather, next }));
        Ok(())
    }

    /// The piece of this number came. One of an unknown class is passed over, and any other fault
    /// ends the job.
    #[tactic(auto, using(crate::proofs::Gathered::length_joined))]
    fn piece_came(
        &mut self,
        mut gather: Gather,
        next: u16,
        piece: &[u8; PIECE_BYTES],
    ) -> Result<(), NoMemory>
        requires more { next < gather.expected }
        requires few { length gather.copy ≤ next }
        ensures manager { OnOk result
            (self.new ≡ piece_came gather.expected next piece.now gather.copy self.old) }
    {
        let reason = match gather.add(piece) {
            Ok(()) | Err(GatherFault::ClassUnknown { .. }) => {
                return self.gather_on(gather, next + 1);
            }
            Err(GatherFault::Empty) => ResyncReason::Empty,
            Err(GatherFault::Truncated { entity }) => ResyncReason::Truncated { entity },
            Err(GatherFault::Repeated { entity, attribute }) => {
                ResyncReason::Repeated { entity, attribute }
            }
            Err(GatherFault::NoMemory) => return Err(NoMemory),
        };
        self.fail_resync(reason)
    }
}
