//! The manager itself: its two lanes, its phase and its copy, its table of alarms, the job that
//! runs, and the reports that wait to be taken out.

ghost use Rattle.std.specs.Prelude.{◌≡◌, ◌↔◌, ◌++◌, ◌&&◌, false, is_none, option_copied, None};
ghost use Rattle.std.specs.Prelude.{IfOk, OnOk, IsNone, option_map, option_to_list, []};
ghost use Rattle.tci_spec.specs.Tci.{IsNumber};
ghost use Rattle.manager_spec.specs.Manager.{manager_started, lane_in, with_report, leave_step};
ghost use Rattle.lane_spec.specs.Lane.{lane_reply, lane_tick};
ghost use Rattle.manager_spec.specs.Manager.{with_lane};
ghost use Rattle.manager_spec.specs.Manager.{step_lost, packets_of, command_sent};
ghost use Rattle.manager_spec.specs.Resync.{with_job};
ghost use Rattle.manager_jobs.specs.Packets.{AreFrames};
ghost use Rattle.manager_jobs.specs.Stages.{stage_of, IsJob};
ghost use Rattle.manager_spec.specs.Jobs.{job_of};

use crate::stage::{Stage, job_of};
use alarm_log::AlarmTable;
use manager_spec::{Job, Phase, Report};
use mib_upload::MibCopy;
use olt_lanes::{Command, Lane, LaneTick};
use omci_core::{NoMemory, Packets, Priority};
use omci_frames::Frame;
use std::alloc::Global;
use std::collections::VecDeque;
use std::marker::Model;

/// The state of a manager. [`Manager`](crate::Manager) holds it, and each of its calls may change
/// it. After `NoMemory` it isn't used again.
#[derive(Drop)]
pub struct Olt {
    pub(crate) alloc: Global,
    pub(crate) low: Lane,
    pub(crate) high: Lane,
    pub(crate) phase: Phase,
    pub(crate) copy: Option<MibCopy>,
    pub(crate) table: AlarmTable,
    pub(crate) job: Option<Stage>,
    pub(crate) reports: VecDeque<Report>,
}

impl Model for Olt {
    ghost use Rattle.std.specs.Prelude.{option_map};
    ghost use Rattle.manager_spec.specs.Manager as machine;
    ghost use Rattle.manager_jobs.specs.Stages.{stage_of, IsJob};

    ghost Value = { machine.Manager };

    ghost view = { λ m. record {
      low = m.low;
      high = m.high;
      phase = m.phase;
      copy = m.copy;
      table = m.table;
      job = option_map stage_of m.job;
      reports = m.reports.items;
    } };

    ghost invariant = { λ m. IsJob m.job m.table };
}

impl Olt {
    /// Nothing is proved and nothing is outstanding, no job runs, there is no copy, and the table
    /// is empty and unaudited.
    pub fn start(alloc: Global, low: u16, high: u16) -> Result<Olt, NoMemory>
        requires low { IsNumber low }
        requires high { IsNumber high }
        ensures started { IfOk result (λ m. m ≡ manager_started low high) }
    {
        let table = AlarmTable::new(alloc)?;
        Ok(Olt {
            alloc,
            low: Lane::new(Priority::Low, low),
            high: Lane::new(Priority::High, high),
            phase: Phase::New,
            copy: None,
            table,
            job: None,
            reports: VecDeque::new(alloc),
        })
    }

    /// The lane of a priority.
    pub fn lane(&self, priority: Priority) -> &Lane
        ensures value { result.now ≡ lane_in priority self.now }
    {
        match priority {
            Priority::Low => &self.low,
            Priority::High => &self.high,
        }
    }

    /// Sends a command over a lane that has none outstanding.
    pub fn send(
        &mut self,
        priority: Priority,
        command: Command,
        out: &mut Packets,
    ) -> Result<(), NoMemory>
        requires idle { (lane_in priority self.old).outstanding ≡ None }
        ensures manager { OnOk result
            (self.new ≡ (command_sent false priority command self.old).manager) }
        ensures packets { OnOk result
            (out.new ≡ out.old
            ++ packets_of (command_sent false priority command self.old).sendings) }
        ensures whole { OnOk result
            (AreFrames (packets_of (command_sent false priority command self.old).sendings)) }
    {
        match priority {
            Priority::Low => {
                self.low.send(command);
                self.low.packets(out)?;
            }
            Priority::High => {
                self.high.send(command);
                self.high.packets(out)?;
            }
        }
        Ok(())
    }

    /// Hands a frame to its lane, which takes it where it answers what is outstanding.
    pub fn reply(&mut self, priority: Priority, frame: &Frame) -> bool
        ensures lane { self.new
            ≡ with_lane priority (lane_reply frame.now (lane_in priority self.old)).lane self.old }
        ensures taken { result ≡ (lane_reply frame.now (lane_in priority self.old)).taken }
    {
        match priority {
            Priority::Low => self.low.reply(frame),
            Priority::High => self.high.reply(frame),
        }
    }

    /// A second passes for a lane.
    pub fn pass_second(&mut self, priority: Priority) -> LaneTick
        ensures lane { self.new
            ≡ with_lane priority (lane_tick (lane_in priority self.old)).lane self.old }
        ensures tick { result ≡ (lane_tick (lane_in priority self.old)).tick }
    {
        match priority {
            Priority::Low => self.low.tick(),
            Priority::High => self.high.tick(),
        }
    }

    /// Adds a report behind those that wait.
    pub fn report(&mut self, report: Report) -> Result<(), NoMemory>
        ensures manager { OnOk result (self.new ≡ with_report report self.old) }
    {
        self.reports.push_back(report)?;
        Ok(())
    }

    /// A manager that is in step no longer is, and reports it.
    pub fn leave_step(&mut self) -> Result<(), NoMemory>
        ensures manager { OnOk result (self.new ≡ leave_step self.old) }
    {
        match self.phase {
            Phase::New | Phase::Out => {}
            Phase::InStep => {
                self.phase = Phase::Out;
                self.report(Report::PhaseOut)?;
            }
        }
        Ok(())
    }

    /// The phase is out, which is reported where it was in step.
    pub fn lose_step(&mut self) -> Result<(), NoMemory>
        ensures manager { OnOk result (self.new ≡ step_lost self.old) }
    {
        self.leave_step()?;
        self.phase = Phase::Out;
        Ok(())
    }

    /// The job is at this stage now, or none runs.
    pub fn set_job(&mut self, job: Option<Stage>)
        requires inside { IsJob job self.old.table }
        ensures manager { self.new ≡ with_job (option_map stage_of job) self.old }
    {
        self.job = job;
    }

    /// Takes the job's stage out, and none runs then.
    pub fn take_job(&mut self) -> Option<Stage>
        ensures stage { option_map stage_of result ≡ self.old.job }
        ensures inside { IsJob result self.new.table }
        ensures manager { self.new ≡ with_job None self.old }
    {
        self.job.take()
    }

    // ---- what callers read

    /// Takes out the oldest report.
    pub fn take_report(&mut self) -> Option<Report>
        ensures oldest { self.old.reports ≡ option_to_list result ++ self.new.reports }
        ensures none { IsNone result ↔ (self.old.reports ≡ []) }
        ensures rest { self.new ≡ record self.old { reports = self.new.reports } }
    {
        self.reports.pop_front()
    }

    /// How the copy stands to the unit's database.
    pub fn phase(&self) -> Phase
        ensures value { result ≡ self.now.phase }
    {
        self.phase
    }

    /// The job that runs.
    pub fn job(&self) -> Option<Job>
        ensures value { result ≡ option_map job_of self.now.job }
    {
        match &self.job {
            None => None,
            Some(stage) => Some(job_of(stage)),
        }
    }

    /// Whether neither lane has a command outstanding and no job runs.
    pub fn idle(&self) -> bool
        ensures value { result ≡ (is_none self.now.low.outstanding
            && (is_none self.now.high.outstanding && is_none self.now.job)) }
    {
        self.low.outstanding().is_none() && self.high.outstanding().is_none() && self.job.is_none()
    }

    /// The copy of the last resynchronisation, with the changes since.
    pub fn copy(&self) -> Option<&MibCopy>
        ensures value { option_copied result ≡ self.now.copy }
    {
        match &self.copy {
            None => None,
            Some(copy) => Some(copy),
        }
    }

    /// The table of the unit's alarms.
    pub fn alarms(&self) -> &AlarmTable
        ensures value { result.now ≡ self.now.table }
    {
        &self.table
    }
}
