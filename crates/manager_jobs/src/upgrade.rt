//! A download of a software image (ITU-T G.988, annex A, software download): its start, its windows
//! one after the other, and its end.

ghost use Rattle.std.specs.Prelude.{◌≡◌, ◌≤◌, length, option_map, OnOk, IfOk, None, Some};
ghost use Rattle.message_spec.specs.Reading.{IsWindow};
ghost use Rattle.manager_spec.specs.declared.TheConstants.{MOST_RESENT, MOST_BUSY};
ghost use Rattle.manager_spec.specs.Manager.{with_report};
ghost use Rattle.manager_spec.specs.Copying.{counted_in_step};
ghost use Rattle.manager_spec.specs.Upgrade.{start_command, image_window, end_image_command};
ghost use Rattle.manager_spec.specs.Upgrade.{image_failed, refused_by, image_done, image_started};
ghost use Rattle.manager_spec.specs.Upgrade.{window_answered, window_taken, end_answered};
ghost use Rattle.manager_spec.specs.Upgrade.{image_entity};
ghost use Rattle.manager_spec.specs.Jobs.{job_of};
ghost use Rattle.manager_spec.specs.Steps.{job_by, response_of};
ghost use Rattle.window_spec.specs.Outgoing.{is_last};
ghost use Rattle.manager_jobs.specs.Stages.{order_of};

use crate::olt::Olt;
use crate::replies::response_of;
use crate::stage::{Order, Stage};
use download_window::{Image, Outbox};
use manager_spec::{ImageReason, Job, MOST_BUSY, MOST_RESENT, Phase, Report};
use olt_lanes::Command;
use omci_contents::{Request, Response};
use omci_core::{Code, EntityId, NoMemory, Words};
use omci_frames::Frame;
use std::alloc::Global;
use window_spec::IMAGE_CLASS;

/// A download is for one circuit pack.
const ONE_TARGET: u8 = 1;

/// The software image of a slot (ITU-T G.988, clause 9.1.4): the instance is the slot.
pub fn image_entity(slot: u8) -> EntityId
    ensures value { result ≡ image_entity slot }
{
    EntityId {
        class: IMAGE_CLASS,
        instance: u16::from(slot),
    }
}

/// The start of a download.
pub fn start_command(order: &Order, asked: u16, image: &Image) -> Command
    requires size { order.now.size ≡ length image.now }
    requires asked { IsWindow asked }
    ensures value { result ≡ start_command (order_of order.now) asked image.now }
{
    let request = Request::Start {
        window: asked,
        size: order.size,
        targets: ONE_TARGET,
        target: u16::from(order.slot),
    };
    Command::job(image_entity(order.slot), request)
}

/// The window of an image.
pub fn window_command(alloc: Global, order: &Order, outbox: &Outbox) -> Result<Command, NoMemory>
    ensures value { IfOk result (λ command.
        command ≡ image_window (order_of order.now) outbox.now) }
{
    let mut sections = Words::new(alloc);
    for number in 0..outbox.sections() {
        sections.push(&outbox.section(number))?;
    }
    Ok(Command::window(image_entity(order.slot), sections))
}

/// The end of a download.
pub fn end_command(order: &Order, outbox: &Outbox) -> Command
    requires size { order.now.size ≡ length outbox.now.image }
    ensures value { result ≡ end_image_command (order_of order.now) outbox.now.image }
{
    let request = Request::End {
        crc: order.check,
        size: order.size,
        targets: ONE_TARGET,
        target: u16::from(order.slot),
    };
    Command::job(image_entity(order.slot), request)
}

impl Olt {
    // ---- how it ends

    /// The job has failed.
    pub fn fail_image(&mut self, reason: ImageReason) -> Result<(), NoMemory>
        ensures manager { OnOk result (self.new ≡ image_failed reason self.old) }
    {
        self.set_job(None);
        self.report(Report::ImageFailed { reason })
    }

    /// The unit holds the image.
    fn end_image(&mut self, order: Order) -> Result<(), NoMemory>
        ensures manager { OnOk result (self.new ≡ image_done (order_of order) self.old) }
    {
        self.count_in_step();
        self.set_job(None);
        self.report(Report::ImageDone { slot: order.slot })
    }

    /// The copy follows a command that only counts.
    #[tactic(auto, unfolding(manager_spec::specs::Copying::counted_in_step))]
    fn count_in_step(&mut self)
        ensures manager { self.new ≡ counted_in_step self.old }
    {
        if self.phase == Phase::InStep {
            if let Some(copy) = &mut self.copy {
                copy.grow();
            }
        }
    }

    // ---- what a reply does

    /// The reply that a download waits for, or one to a command whose job has ended.
    pub fn download_taken(&mut self, frame: &Frame) -> Result<(), NoMemory>
        requires job { option_map job_of self.old.job ≡ Some Job.Image }
        ensures manager { OnOk result
            (self.new ≡ job_by self.old.job (response_of frame.now) frame.now self.old) }
    {
        match (self.take_job(), response_of(frame)) {
            (
                Some(
                    Stage::StartingImage {
                        order,
                        asked,
                        image,
                    },
                ),
                Some(Response::Start { code, window }),
            ) => self.image_started(order, asked, image, code, window)?,
            (
                Some(
                    Stage::SendingImage {
                        order,
                        outbox,
                        resent,
                    },
                ),
                Some(Response::Section { code, .. }),
            ) => self.window_answered(order, outbox, resent, code)?,
            (
                Some(
                    Stage::EndingImage {
                        order,
                        outbox,
                        busy,
                    },
                ),
                Some(Response::End { code }),
            ) => self.end_answered(order, outbox, busy, code)?,
            (job, _) => {
                self.set_job(job);
                self.free(frame)?;
            }
        }
        Ok(())
    }

    /// The reply to the start came: windows have no more sections than were asked and than are
    /// granted.
    #[tactic(auto, unfolding(manager_spec::specs::Upgrade::image_started))]
    fn image_started(
        &mut self,
        order: Order,
        asked: u16,
        image: Image,
        code: Code,
        granted: u16,
    ) -> Result<(), NoMemory>
        requires ended { self.old.job ≡ None }
        requires size { order.size ≡ length image }
        requires asked { IsWindow asked }
        requires granted { 1 ≤ granted }
        ensures manager { OnOk result
            (self.new ≡ image_started code.0 granted (order_of order) asked image self.old) }
    {
        if code != Code::SUCCESS {
            return self.fail_image(ImageReason::Code { code });
        }
        self.count_in_step();
        self.set_job(Some(Stage::SendingImage {
            order,
            outbox: Outbox::new(image, asked.min(granted)),
            resent: 0,
        }));
        Ok(())
    }

    /// The reply to a window came: the next one is sent, or the end where there is none. A window
    /// that was refused is sent anew, but not too often.
    #[tactic(auto, unfolding(manager_spec::specs::Upgrade::window_answered))]
    fn window_answered(
        &mut self,
        order: Order,
        outbox: Outbox,
        resent: u8,
        code: Code,
    ) -> Result<(), NoMemory>
        requires ended { self.old.job ≡ None }
        requires size { order.size ≡ length outbox.image }
        requires resent { resent ≤ MOST_RESENT }
        ensures manager { OnOk result
            (self.new ≡ window_answered code.0 (order_of order) outbox resent self.old) }
    {
        if code == Code::SUCCESS {
            self.window_taken(order, outbox);
            return Ok(());
        }
        if resent >= MOST_RESENT {
            return self.fail_image(ImageReason::Code { code });
        }
        self.set_job(Some(Stage::SendingImage {
            order,
            outbox,
            resent: resent + 1,
        }));
        Ok(())
    }

    /// The unit has the window: the next one is sent, or the end where there is none.
    #[tactic(auto, using(crate::proofs::Sections::last_stays, crate::proofs::Sections::image_stays))]
    fn window_taken(&mut self, order: Order, mut outbox: Outbox)
        requires ended { self.old.job ≡ None }
        requires size { order.size ≡ length outbox.image }
        ensures manager { self.new
            ≡ window_taken (is_last outbox) (order_of order) outbox self.old }
    {
        if outbox.advance() {
            self.set_job(Some(Stage::SendingImage {
                order,
                outbox,
                resent: 0,
            }));
        } else {
            self.set_job(Some(Stage::EndingImage {
                order,
                outbox,
                busy: 0,
            }));
        }
    }

    /// The reply to the end came. One that says busy is sent anew with the next second, but not too
    /// often.
    #[tactic(auto, unfolding(manager_spec::specs::Upgrade::end_answered))]
    fn end_answered(
        &mut self,
        order: Order,
        outbox: Outbox,
        busy: u8,
        code: Code,
    ) -> Result<(), NoMemory>
        requires ended { self.old.job ≡ None }
        requires size { order.size ≡ length outbox.image }
        requires busy { busy ≤ MOST_BUSY }
        ensures manager { OnOk result
            (self.new ≡ end_answered code.0 (order_of order) outbox.image busy self.old) }
    {
        if code == Code::SUCCESS {
            return self.end_image(order);
        }
        if code != Code::BUSY {
            return self.fail_image(ImageReason::Code { code });
        }
        let times = busy + 1;
        self.report(Report::Busy { times })?;
        if times > MOST_BUSY {
            return self.fail_image(ImageReason::Code { code });
        }
        self.set_job(Some(Stage::DelayingEnd {
            order,
            outbox,
            busy: times,
        }));
        Ok(())
    }
}
