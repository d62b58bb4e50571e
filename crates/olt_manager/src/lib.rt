//! The manager (the OLT end of ITU-T G.988): what it submits over its two lanes, what it makes of a
//! packet, and what each second brings. Its state and its jobs are of `manager_jobs`.
#![tactic(auto)]

mod manager;
mod replies;
mod submitting;
mod ticks;

pub use alarm_log::AlarmTable;
pub use download_window::{Image, ImageRefusal};
pub use manager::Manager;
pub use manager_jobs::image_entity;
pub use manager_spec::{AuditReason, ImageReason, Job, Phase, Refusal, Report, ResyncReason};
pub use mib_upload::{CopyEntry, MibCopy};
