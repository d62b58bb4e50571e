//! An audit of the alarms (ITU-T G.988, get all alarms, in this profile): the unit is asked to put
//! its alarms by, and their rows are gathered one after the other; notices that come meanwhile
//! wait.

ghost use Rattle.std.specs.Prelude.{◌≡◌, ◌<◌, [], option_map, OnOk, None, Some};
ghost use Rattle.manager_spec.specs.Jobs.{job_of};
ghost use Rattle.manager_spec.specs.Steps.{job_by, response_of};
ghost use Rattle.manager_spec.specs.Audit.{audit_failed, audit_done, audit_begun, rows_on};
ghost use Rattle.manager_spec.specs.Audit.{row_came, alarm_came, notice_came};
ghost use Rattle.manager_jobs.specs.Stages.{IsReading, is_audit};

use crate::olt::Olt;
use crate::replies::response_of;
use crate::stage::{Stage, job_of};
use alarm_log::{BITMAP_BYTES, ROW_BYTES, RowFault, TakenAlarm};
use manager_spec::{AuditReason, Job, Report};
use omci_contents::{Notice, Response};
use omci_core::{EntityId, NoMemory};
use omci_frames::Frame;

impl Olt {
    // ---- how it ends

    /// The job has failed, and the table is unaudited.
    pub fn fail_audit(&mut self, reason: AuditReason) -> Result<(), NoMemory>
        ensures manager { OnOk result (self.new ≡ audit_failed reason self.old) }
    {
        self.set_job(None);
        self.table.fail();
        self.report(Report::AuditFailed { reason })?;
        Ok(())
    }

    /// Every row has come: the table is what was gathered, and then the notices that waited.
    fn end_audit(&mut self) -> Result<(), NoMemory>
        requires ended { self.old.job ≡ None }
        requires rows { IsReading 65535 self.old.table }
        ensures manager { OnOk result (self.new ≡ audit_done self.old) }
    {
        self.table.finish()?;
        let rows = self.table.len() as u32;
        self.report(Report::Audited { rows })?;
        Ok(())
    }

    // ---- what a reply does

    /// The reply that an audit waits for, or one to a command whose job has ended.
    pub fn audit_taken(&mut self, frame: &Frame) -> Result<(), NoMemory>
        requires job { option_map job_of self.old.job ≡ Some Job.Audit }
        ensures manager { OnOk result
            (self.new ≡ job_by self.old.job (response_of frame.now) frame.now self.old) }
    {
        match (&self.job, response_of(frame)) {
            (Some(Stage::AskingAlarms), Some(Response::Alarms { count })) => {
                self.set_job(None);
                self.begin_rows(count)?;
            }
            (Some(Stage::GatheringRows { expected, next }), Some(Response::AlarmsNext { row })) => {
                let (expected, next) = (*expected, *next);
                self.set_job(None);
                self.row_came(expected, next, &row)?;
            }
            _ => self.free(frame)?,
        }
        Ok(())
    }

    /// The rows before this number are gathered.
    #[tactic(auto, unfolding(manager_spec::specs::Audit::rows_on))]
    fn rows_on(&mut self, expected: u16, next: u16) -> Result<(), NoMemory>
        requires ended { self.old.job ≡ None }
        requires rows { IsReading next self.old.table }
        ensures manager { OnOk result (self.new ≡ rows_on expected next self.old) }
    {
        if expected <= next {
            return self.end_audit();
        }
        self.set_job(Some(Stage::GatheringRows { expected, next }));
        Ok(())
    }

    /// The reply came that says how many rows there are.
    fn begin_rows(&mut self, expected: u16) -> Result<(), NoMemory>
        requires ended { self.old.job ≡ None }
        ensures manager { OnOk result (self.new ≡ audit_begun expected self.old) }
    {
        self.table.begin();
        self.rows_on(expected, 0)
    }

    /// The row of this number came. A fault of it ends the job.
    fn row_came(&mut self, expected: u16, next: u16, row: &[u8; ROW_BYTES]) -> Result<(), NoMemory>
        requires ended { self.old.job ≡ None }
        requires more { next < expected }
        requires rows { IsReading next self.old.table }
        ensures manager { OnOk result (self.new ≡ row_came expected next row.now self.old) }
    {
        let reason = match self.table.row(row) {
            Ok(()) => return self.rows_on(expected, next + 1),
            Err(RowFault::Empty) => AuditReason::Empty,
            Err(RowFault::Repeated { entity }) => AuditReason::Repeated { entity },
            Err(RowFault::NoMemory) => return Err(NoMemory),
        };
        self.fail_audit(reason)
    }

    // ---- a notice comes

    /// Whether the running job is an audit.
    fn audits(&self) -> bool
        ensures value { result ≡ is_audit self.now.job }
    {
        match &self.job {
            None => false,
            Some(stage) => job_of(stage) == Job::Audit,
        }
    }

    /// An alarm notice of the entity came.
    #[tactic(auto, unfolding(manager_spec::specs::Audit::alarm_came))]
    fn alarm_came(
        &mut self,
        entity: EntityId,
        bitmap: [u8; BITMAP_BYTES],
        number: u8,
    ) -> Result<(), NoMemory>
        ensures manager { OnOk result
            (self.new ≡ (alarm_came entity bitmap number self.old).manager) }
        ensures silent { (alarm_came entity bitmap number self.old).sendings ≡ [] }
    {
        let audits = self.audits();
        let (report, reason) = match self.table.take(entity, bitmap, number)? {
            TakenAlarm::Unaudited => return self.report(Report::AlarmUnaudited { number }),
            TakenAlarm::Repeat => return self.report(Report::AlarmRepeat { number }),
            TakenAlarm::Taken => return self.report(Report::AlarmTaken { number }),
            TakenAlarm::Gap { want, have } => {
                (
                    Report::AlarmGap { want, have },
                    AuditReason::Gap { want, have },
                )
            }
            TakenAlarm::Overflow => (Report::AlarmOverflow { number }, AuditReason::Overflow),
        };
        if !audits {
            return self.report(report);
        }
        self.job = None;
        self.report(report)?;
        self.fail_audit(reason)
    }

    /// A notice of the entity came, in this frame. That of a value changes nothing.
    pub fn notice_came(
        &mut self,
        entity: EntityId,
        notice: &Notice,
        frame: &Frame,
    ) -> Result<(), NoMemory>
        ensures manager { OnOk result
            (self.new ≡ (notice_came entity notice.now frame.now self.old).manager) }
        ensures silent { (notice_came entity notice.now frame.now self.old).sendings ≡ [] }
    {
        match notice {
            Notice::Alarm { bitmap, number } => self.alarm_came(entity, *bitmap, *number),
            Notice::Change { .. } => self.report(Report::Change { notice: *frame }),
        }
    }
}
