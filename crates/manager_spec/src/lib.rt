//! What the manager (the OLT end) is, and what it does with a submission, a packet and a second.
//! Plain types and definitions alone.
#![tactic(auto)]

use omci_types::{Code, EntityId, Frame, Priority};

/// A window that was answered by another code than success is sent anew so many times.
pub const MOST_RESENT: u8 = 8;

/// The end of a download that was answered busy is sent anew so many times.
pub const MOST_BUSY: u8 = 60;

/// How the manager's copy of the unit's database stands to it.
#[derive(Clone, Copy, Debug, PartialEq, Eq)]
pub enum Phase {
    /// No resynchronisation has ended since the manager started.
    New,
    /// The last resynchronisation gave a copy, and the manager's changes were followed in it.
    InStep,
    /// The copy can't be relied on.
    Out,
}

/// What the manager does by itself, command after command.
#[derive(Clone, Copy, Debug, PartialEq, Eq)]
pub enum Job {
    /// It uploads the unit's database, and makes it its copy.
    Resync,
    /// It reads all of the unit's alarms into its table.
    Audit,
    /// It downloads a software image into a slot of the unit.
    Image,
}

/// Why a resynchronisation failed.
#[derive(Clone, Copy, Debug, PartialEq, Eq)]
pub enum ResyncReason {
    /// A command that it waited for was given up.
    GaveUp { tci: u16 },
    /// A piece was all zeros: the unit has put no database by, or has no such piece of it.
    Empty,
    /// A piece names more values than it carries.
    Truncated { entity: EntityId },
    /// A piece gave an attribute again.
    Repeated { entity: EntityId, attribute: u8 },
    /// No piece gave the unit's counter.
    Missing,
}

/// Why an audit failed. The table is unaudited.
#[derive(Clone, Copy, Debug, PartialEq, Eq)]
pub enum AuditReason {
    /// A command that it waited for was given up.
    GaveUp { tci: u16 },
    /// A row was all zeros: the unit has put no alarms by, or has no such row of them.
    Empty,
    /// An earlier row was of this entity.
    Repeated { entity: EntityId },
    /// A notice came with another number than the wanted one: one was lost.
    Gap { want: u8, have: u8 },
    /// A notice came, and no further one may wait for the end of the audit.
    Overflow,
}

/// Why a download failed.
#[derive(Clone, Copy, Debug, PartialEq, Eq)]
pub enum ImageReason {
    /// A command that it waited for was given up.
    GaveUp { tci: u16 },
    /// A command was answered by this code: its start; its end, where the code isn't busy or came
    /// so once too often; or a window, once more than it is sent anew.
    Code { code: Code },
}

/// Why a command was not submitted. Nothing was sent, and nothing has changed. They are tested in
/// this order.
#[derive(Clone, Copy, Debug, PartialEq, Eq)]
pub enum Refusal {
    /// The lane has not been proved since the manager started, or since it gave a command up.
    Unproven { lane: Priority },
    /// A command is outstanding in the lane.
    Occupied { tci: u16 },
    /// The command needs a copy that is in step, and the phase is another one.
    OutOfStep { phase: Phase },
    /// A job runs. A get in the high lane is submitted all the same.
    JobRunning { job: Job },
    /// The command is a change or a check, and a change is outstanding in the other lane.
    ChangeOutstanding { tci: u16 },
    /// Memory ran out. No step of the machine gives it.
    NoMemory,
}

/// What the manager reports.
#[derive(Clone, Copy, Debug, PartialEq, Eq)]
pub enum Report {
    /// The reply to a submitted command came.
    Took { reply: Frame },
    /// The reply to a probe came.
    Proved { lane: Priority },
    /// The reply to a command came whose job has ended.
    Freed { tci: u16 },
    /// A command was given up, and its lane is no longer proved.
    GaveUp { tci: u16 },
    /// A resynchronisation has ended: the copy has so many entities, and this counter.
    Synced { entities: u32, counter: u8 },
    /// The phase is in step.
    PhaseIn,
    /// The phase was in step, and no longer is.
    PhaseOut,
    /// A resynchronisation has failed.
    ResyncFailed { reason: ResyncReason },
    /// The reply to a check came: the unit's counter, and the copy's.
    Checked { given: u8, expected: u8 },
    /// An audit has ended: so many entities of the unit have an alarm.
    Audited { rows: u32 },
    /// An audit has failed.
    AuditFailed { reason: AuditReason },
    /// A download has ended: the unit holds the image in that slot.
    ImageDone { slot: u8 },
    /// A download has failed.
    ImageFailed { reason: ImageReason },
    /// The end of a download was answered busy for the so-manieth time.
    Busy { times: u8 },
    /// An alarm notice came, and is in the table or will be at the audit's end.
    AlarmTaken { number: u8 },
    /// The alarm notice that was taken last came again.
    AlarmRepeat { number: u8 },
    /// An alarm notice came with another number than the wanted one, and the table is no longer
    /// audited.
    AlarmGap { want: u8, have: u8 },
    /// An alarm notice came that can't wait, and the table is no longer audited.
    AlarmOverflow { number: u8 },
    /// An alarm notice came, and the table isn't audited.
    AlarmUnaudited { number: u8 },
    /// The unit tells that the value of an attribute has changed. The copy stays as it is.
    Change { notice: Frame },
    /// A packet came that is neither a reply to what is outstanding nor a notice.
    Dropped,
}
