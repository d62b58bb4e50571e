//! The manager as its callers hold it.

ghost use Rattle.std.specs.Prelude.{◌≡◌, ◌≢◌, ◌<◌, ◌↔◌, ◌++◌, ◌&&◌, is_none, option_copied, option_map};
ghost use Rattle.std.specs.Prelude.{Option, IfOk};
ghost use Rattle.std.specs.Prelude.{Some, None, true, Ok, Err, IfErr, OnOk, OnErr, IsNone};
ghost use Rattle.std.specs.Prelude.{option_to_list, []};
ghost use Rattle.tci_spec.specs.Tci.{IsNumber};
ghost use Rattle.message_spec.specs.Reading.{RequestWindow, IsWindow};
ghost use Rattle.manager_spec.specs.declared.Refusal.TheVariants as refusal;
ghost use Rattle.manager_spec.specs.Manager.{manager_started, packets_of};
ghost use Rattle.manager_spec.specs.Submitting.{after_probe, after_submit, after_check};
ghost use Rattle.manager_spec.specs.Submitting.{after_resync, after_audit, after_image};
ghost use Rattle.manager_spec.specs.Jobs.{job_of};
ghost use Rattle.manager_spec.specs.Steps.{after_packet, after_tick};
ghost use Rattle.olt_manager.specs.State.{sound, AreFrames};

use crate::{replies, submitting, ticks};
use alarm_log::AlarmTable;
use download_window::Image;
use manager_jobs::Olt;
use manager_spec::{Job, Phase, Refusal, Report};
use mib_upload::MibCopy;
use omci_contents::Request;
use omci_core::{EntityId, NoMemory, Packets, Priority};
use std::alloc::Global;
use std::marker::Model;

/// The manager. Its owner sends the packets that its calls put into `out`, hands it the packets
/// that come, tells it each second, and takes its reports out. Where memory runs out in a call, the
/// manager is spent: each later call that has a result answers `NoMemory`.
#[derive(Drop)]
pub struct Manager {
    spent: bool,
    olt: Olt,
}

impl Model for Manager {
    ghost use Rattle.olt_manager.specs.State.{State};

    ghost Value = { State };

    ghost view = { λ m. record { spent = m.spent; manager = m.olt } };
}

/// The answer to a submission.
fn answer_of(outcome: Result<Option<Refusal>, NoMemory>) -> Result<(), Refusal>
    ensures refused { IfErr result (λ r. r ≢ refusal.NoMemory → outcome ≡ Ok (Some r)) }
    ensures accepted { OnOk result (outcome ≡ Ok None) }
{
    match outcome {
        Ok(None) => Ok(()),
        Ok(Some(refusal)) => Err(refusal),
        Err(NoMemory) => Err(Refusal::NoMemory),
    }
}

impl Manager {
    /// A manager whose lanes draw their numbers from these on, each 1 to 32,767. Nothing is proved,
    /// nothing is outstanding, and neither a resynchronisation nor an audit was made. It takes the
    /// memory for the notices that may wait while an audit runs.
    pub fn start(alloc: Global, low: u16, high: u16) -> Result<Manager, NoMemory>
        requires low { IsNumber low }
        requires high { IsNumber high }
        ensures started { IfOk result (λ m. m ≡ sound (manager_started low high)) }
    {
        Ok(Manager {
            spent: false,
            olt: Olt::start(alloc, low, high)?,
        })
    }

    /// Probes a lane: a get of MIB data sync (ITU-T G.988, clause 9.1.3) whose reply proves the
    /// lane, whatever it says. Refused, in this order, where a command is outstanding in the lane,
    /// and where a job runs; then nothing has changed and nothing is sent.
    pub fn probe(&mut self, priority: Priority, out: &mut Packets) -> Result<(), Refusal>
        ensures refused { IfErr result (λ r. r ≢ refusal.NoMemory
            → (after_probe priority self.old.manager).refusal ≡ Some r) }
        ensures accepted { OnOk result ((after_probe priority self.old.manager).refusal ≡ None) }
        ensures kept { IfErr result
            (λ r. r ≢ refusal.NoMemory → (self.new ≡ self.old) × (out.new ≡ out.old)) }
        ensures manager { result ≢ Err refusal.NoMemory
            → self.new ≡ sound (after_probe priority self.old.manager).outcome.manager }
        ensures packets { result ≢ Err refusal.NoMemory
            → out.new ≡ out.old
            ++ packets_of (after_probe priority self.old.manager).outcome.sendings }
        ensures whole { result ≢ Err refusal.NoMemory
            → AreFrames (packets_of (after_probe priority self.old.manager).outcome.sendings) }
        ensures spent { self.old.spent ≡ true → result ≡ Err refusal.NoMemory }
        ensures spends { result ≡ Err refusal.NoMemory → self.new.spent ≡ true }
    {
        if self.spent {
            return Err(Refusal::NoMemory);
        }
        let answer = answer_of(submitting::probe(&mut self.olt, priority, out));
        self.spent = matches!(answer, Err(Refusal::NoMemory));
        answer
    }

    /// Submits a request for an entity over a lane. Refused, in this order, where the lane isn't
    /// proved; where a command is outstanding in it; where the request is a create, a set or a
    /// delete and the phase isn't in step; where a job runs, but for a get in the high lane; and
    /// where the request is a change and a change is outstanding in the other lane. Then nothing
    /// has changed and nothing is sent. A reset, an activate or a reboot leaves the step.
    pub fn submit(
        &mut self,
        priority: Priority,
        entity: EntityId,
        request: Request,
        out: &mut Packets,
    ) -> Result<(), Refusal>
        requires window { RequestWindow request }
        ensures refused { IfErr result (λ r. r ≢ refusal.NoMemory
            → (after_submit priority entity request self.old.manager).refusal ≡ Some r) }
        ensures accepted { OnOk result
            ((after_submit priority entity request self.old.manager).refusal ≡ None) }
        ensures kept { IfErr result
            (λ r. r ≢ refusal.NoMemory → (self.new ≡ self.old) × (out.new ≡ out.old)) }
        ensures manager { result ≢ Err refusal.NoMemory
            → self.new
            ≡ sound (after_submit priority entity request self.old.manager).outcome.manager }
        ensures packets { result ≢ Err refusal.NoMemory
            → out.new ≡ out.old ++ packets_of
            (after_submit priority entity request self.old.manager).outcome.sendings }
        ensures whole { result ≢ Err refusal.NoMemory
            → AreFrames (packets_of
            (after_submit priority entity request self.old.manager).outcome.sendings) }
        ensures spent { self.old.spent ≡ true → result ≡ Err refusal.NoMemory }
        ensures spends { result ≡ Err refusal.NoMemory → self.new.spent ≡ true }
    {
        if self.spent {
            return Err(Refusal::NoMemory);
        }
        let answer = answer_of(submitting::submit(&mut self.olt, priority, entity, request, out));
        self.spent = matches!(answer, Err(Refusal::NoMemory));
        answer
    }

    /// Begins a resynchronisation: it probes both lanes, the high one first, uploads the unit's
    /// database and makes it the copy. Refused, in this order, where a command is outstanding in
    /// the high lane, or in the low one, and where a job runs; then nothing has changed and nothing
    /// is sent.
    pub fn resync(&mut self, out: &mut Packets) -> Result<(), Refusal>
        ensures refused { IfErr result (λ r. r ≢ refusal.NoMemory
            → (after_resync self.old.manager).refusal ≡ Some r) }
        ensures accepted { OnOk result ((after_resync self.old.manager).refusal ≡ None) }
        ensures kept { IfErr result
            (λ r. r ≢ refusal.NoMemory → (self.new ≡ self.old) × (out.new ≡ out.old)) }
        ensures manager { result ≢ Err refusal.NoMemory
            → self.new ≡ sound (after_resync self.old.manager).outcome.manager }
        ensures packets { result ≢ Err refusal.NoMemory
            → out.new ≡ out.old ++ packets_of (after_resync self.old.manager).outcome.sendings }
        ensures whole { result ≢ Err refusal.NoMemory
            → AreFrames (packets_of (after_resync self.old.manager).outcome.sendings) }
        ensures spent { self.old.spent ≡ true → result ≡ Err refusal.NoMemory }
        ensures spends { result ≡ Err refusal.NoMemory → self.new.spent ≡ true }
    {
        if self.spent {
            return Err(Refusal::NoMemory);
        }
        let answer = answer_of(submitting::resync(&mut self.olt, out));
        self.spent = matches!(answer, Err(Refusal::NoMemory));
        answer
    }

    /// Asks over the low lane for the unit's MIB data sync, to compare it with the copy's. Refused,
    /// in this order, where the lane isn't proved; where a command is outstanding in it; where the
    /// phase isn't in step; where a job runs; and where a change is outstanding in the high lane.
    /// Then nothing has changed and nothing is sent.
    pub fn check(&mut self, out: &mut Packets) -> Result<(), Refusal>
        ensures refused { IfErr result (λ r. r ≢ refusal.NoMemory
            → (after_check self.old.manager).refusal ≡ Some r) }
        ensures accepted { OnOk result ((after_check self.old.manager).refusal ≡ None) }
        ensures kept { IfErr result
            (λ r. r ≢ refusal.NoMemory → (self.new ≡ self.old) × (out.new ≡ out.old)) }
        ensures manager { result ≢ Err refusal.NoMemory
            → self.new ≡ sound (after_check self.old.manager).outcome.manager }
        ensures packets { result ≢ Err refusal.NoMemory
            → out.new ≡ out.old ++ packets_of (after_check self.old.manager).outcome.sendings }
        ensures whole { result ≢ Err refusal.NoMemory
            → AreFrames (packets_of (after_check self.old.manager).outcome.sendings) }
        ensures spent { self.old.spent ≡ true → result ≡ Err refusal.NoMemory }
        ensures spends { result ≡ Err refusal.NoMemory → self.new.spent ≡ true }
    {
        if self.spent {
            return Err(Refusal::NoMemory);
        }
        let answer = answer_of(submitting::check(&mut self.olt, out));
        self.spent = matches!(answer, Err(Refusal::NoMemory));
        answer
    }

    /// Asks over the low lane for all of the unit's alarms (ITU-T G.988, get all alarms), and reads
    /// them row by row into the table. Refused, in this order, where the lane isn't proved, where a
    /// command is outstanding in it, and where a job runs; then nothing has changed and nothing is
    /// sent.
    pub fn audit(&mut self, out: &mut Packets) -> Result<(), Refusal>
        ensures refused { IfErr result (λ r. r ≢ refusal.NoMemory
            → (after_audit self.old.manager).refusal ≡ Some r) }
        ensures accepted { OnOk result ((after_audit self.old.manager).refusal ≡ None) }
        ensures kept { IfErr result
            (λ r. r ≢ refusal.NoMemory → (self.new ≡ self.old) × (out.new ≡ out.old)) }
        ensures manager { result ≢ Err refusal.NoMemory
            → self.new ≡ sound (after_audit self.old.manager).outcome.manager }
        ensures packets { result ≢ Err refusal.NoMemory
            → out.new ≡ out.old ++ packets_of (after_audit self.old.manager).outcome.sendings }
        ensures whole { result ≢ Err refusal.NoMemory
            → AreFrames (packets_of (after_audit self.old.manager).outcome.sendings) }
        ensures spent { self.old.spent ≡ true → result ≡ Err refusal.NoMemory }
        ensures spends { result ≡ Err refusal.NoMemory → self.new.spent ≡ true }
    {
        if self.spent {
            return Err(Refusal::NoMemory);
        }
        let answer = answer_of(submitting::audit(&mut self.olt, out));
        self.spent = matches!(answer, Err(Refusal::NoMemory));
        answer
    }

    /// Begins a download of an image into slot 0 or 1 of the unit (ITU-T G.988, annex A, software
    /// download), in windows of at most so many sections, 1 to 256. Where no check value is given,
    /// the image's own is sent. Refused, in this order, where the low lane isn't proved, where a
    /// command is outstanding in it, where a job runs, and where a change is outstanding in the
    /// high lane; then nothing has changed, nothing is sent, and the image is dropped.
    pub fn image(
        &mut self,
        slot: u8,
        window: u16,
        crc: Option<u32>,
        image: Image,
        out: &mut Packets,
    ) -> Result<(), Refusal>
        requires slot { slot < 2 }
        requires window { IsWindow window }
        ensures refused { IfErr result (λ r. r ≢ refusal.NoMemory
            → (after_image slot window crc image self.old.manager).refusal ≡ Some r) }
        ensures accepted { OnOk result
            ((after_image slot window crc image self.old.manager).refusal ≡ None) }
        ensures kept { IfErr result
            (λ r. r ≢ refusal.NoMemory → (self.new ≡ self.old) × (out.new ≡ out.old)) }
        ensures manager { result ≢ Err refusal.NoMemory → self.new
            ≡ sound (after_image slot window crc image self.old.manager).outcome.manager }
        ensures packets { result ≢ Err refusal.NoMemory
            → out.new ≡ out.old ++ packets_of
            (after_image slot window crc image self.old.manager).outcome.sendings }
        ensures whole { result ≢ Err refusal.NoMemory
            → AreFrames (packets_of
            (after_image slot window crc image self.old.manager).outcome.sendings) }
        ensures spent { self.old.spent ≡ true → result ≡ Err refusal.NoMemory }
        ensures spends { result ≡ Err refusal.NoMemory → self.new.spent ≡ true }
    {
        if self.spent {
            return Err(Refusal::NoMemory);
        }
        let answer = answer_of(submitting::image(&mut self.olt, slot, window, crc, image, out));
        self.spent = matches!(answer, Err(Refusal::NoMemory));
        answer
    }

    /// Takes a packet from the link, and puts what the manager sends on it into `out`. What answers
    /// nothing that is outstanding is taken where it is a notice, whatever its TCI: an alarm goes
    /// to the table, and a changed value is reported alone. Anything else, and a packet that isn't
    /// exactly one frame, is reported as dropped.
    pub fn packet(&mut self, bytes: &[u8], out: &mut Packets) -> Result<(), NoMemory>
        ensures manager { OnOk result
            (self.new ≡ sound (after_packet bytes.now self.old.manager).manager) }
        ensures packets { OnOk result
            (out.new ≡ out.old ++ packets_of (after_packet bytes.now self.old.manager).sendings) }
        ensures whole { OnOk result
            (AreFrames (packets_of (after_packet bytes.now self.old.manager).sendings)) }
        ensures spent { self.old.spent ≡ true → OnOk result ⊥ }
        ensures spends { OnErr result (self.new.spent ≡ true) }
    {
        if self.spent {
            return Err(NoMemory);
        }
        let done = replies::packet(&mut self.olt, bytes, out);
        self.spent = done.is_err();
        done
    }

    /// A second passes, for the high lane and then for the low one: an outstanding command is sent
    /// again when its time is over, and given up after its second repeat. A job that waited for it
    /// has then failed. A download whose end was answered busy sends it anew.
    pub fn tick(&mut self, out: &mut Packets) -> Result<(), NoMemory>
        ensures manager { OnOk result (self.new ≡ sound (after_tick self.old.manager).manager) }
        ensures packets { OnOk result
            (out.new ≡ out.old ++ packets_of (after_tick self.old.manager).sendings) }
        ensures whole { OnOk result
            (AreFrames (packets_of (after_tick self.old.manager).sendings)) }
        ensures spent { self.old.spent ≡ true → OnOk result ⊥ }
        ensures spends { OnErr result (self.new.spent ≡ true) }
    {
        if self.spent {
            return Err(NoMemory);
        }
        let done = ticks::tick(&mut self.olt, out);
        self.spent = done.is_err();
        done
    }

    /// Takes out the oldest report. `None` exactly where none waits.
    pub fn report(&mut self) -> Option<Report>
        ensures oldest { self.old.manager.reports
            ≡ option_to_list result ++ self.new.manager.reports }
        ensures none { IsNone result ↔ (self.old.manager.reports ≡ []) }
        ensures rest { self.new ≡ record self.old {
          manager = record self.old.manager { reports = self.new.manager.reports };
        } }
    {
        self.olt.take_report()
    }

    /// How the copy stands to the unit's database.
    pub fn phase(&self) -> Phase
        ensures value { result ≡ self.now.manager.phase }
    {
        self.olt.phase()
    }

    /// The job that runs. `None` exactly where none does.
    pub fn job(&self) -> Option<Job>
        ensures value { result ≡ option_map job_of self.now.manager.job }
    {
        self.olt.job()
    }

    /// Whether neither lane has a command outstanding and no job runs.
    pub fn idle(&self) -> bool
        ensures value { result ≡ (is_none self.now.manager.low.outstanding
            && (is_none self.now.manager.high.outstanding && is_none self.now.manager.job)) }
    {
        self.olt.idle()
    }

    /// The copy of the unit's database: what the last resynchronisation gave, and what the
    /// manager's own commands have done since. `None` exactly where no resynchronisation has given
    /// one since the start.
    pub fn copy(&self) -> Option<&MibCopy>
        ensures value { option_copied result ≡ self.now.manager.copy }
    {
        self.olt.copy()
    }

    /// The table of the unit's alarms: what the last audit read, and the notices since, where none
    /// was lost.
    pub fn alarms(&self) -> &AlarmTable
        ensures value { result.now ≡ self.now.manager.table }
    {
        self.olt.alarms()
    }
}
