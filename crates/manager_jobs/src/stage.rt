//! How far a resynchronisation, an audit or a download has come.

ghost use Rattle.std.specs.Prelude.{◌≡◌};
ghost use Rattle.manager_spec.specs.Jobs.{job_of};
ghost use Rattle.manager_jobs.specs.Stages.{stage_of};

use download_window::{Image, Outbox};
use manager_spec::Job;
use mib_upload::Gather;

/// What is said of a download: the slot that the image is for, its size in bytes, and the check
/// value that is given.
#[derive(Clone, Copy)]
pub struct Order {
    pub slot: u8,
    pub size: u32,
    pub check: u32,
}

/// The stage of the running job. The manager holds it; replies, give-ups and notices change it.
#[derive(Drop)]
pub enum Stage {
    /// It waits for the probes of these lanes.
    Probing {
        high: bool,
        low: bool,
    },
    /// It waits for the reply that says how many pieces there are.
    Asking,
    /// The piece of this number comes next. It is below the number that was announced, and no more
    /// entities were gathered than pieces came.
    Gathering {
        gather: Gather,
        next: u16,
    },
    /// It waits for the reply that says how many rows of alarms there are.
    AskingAlarms,
    /// The row of this number comes next, below the number that was announced. The table gathers
    /// them.
    GatheringRows {
        expected: u16,
        next: u16,
    },
    /// It waits for the reply that grants a download, for which windows of so many sections were
    /// asked.
    StartingImage {
        order: Order,
        asked: u16,
        image: Image,
    },
    /// The window of the outbox is sent, anew for the so-manieth time.
    SendingImage {
        order: Order,
        outbox: Outbox,
        resent: u8,
    },
    /// All of the image was taken, and the download's end is sent; so often it was answered busy.
    EndingImage {
        order: Order,
        outbox: Outbox,
        busy: u8,
    },
    /// The end is sent anew with the next second.
    DelayingEnd {
        order: Order,
        outbox: Outbox,
        busy: u8,
    },
}

/// Which job a stage belongs to.
pub fn job_of(stage: &Stage) -> Job
    ensures value { result ≡ job_of (stage_of stage.now) }
{
    match stage {
        Stage::Probing { .. } | Stage::Asking | Stage::Gathering { .. } => Job::Resync,
        Stage::AskingAlarms | Stage::GatheringRows { .. } => Job::Audit,
        Stage::StartingImage { .. }
        | Stage::SendingImage { .. }
        | Stage::EndingImage { .. }
        | Stage::DelayingEnd { .. } => Job::Image,
    }
}
