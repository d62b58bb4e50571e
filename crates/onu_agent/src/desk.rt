//! What the unit holds beside its images: its database, for each priority the reply that it gave
//! last, its alarms, and what it put by for an upload and for an audit.

ghost use Rattle.std.specs.Prelude.{◌≡◌, ◌≢◌, ◌≤◌, length, true, false, option_copied, IfOk, OnOk};
ghost use Rattle.std.specs.Prelude.{OnErr, is_some, Some, None, []};
ghost use Rattle.frame_spec.specs.Baseline.{spelling};
ghost use Rattle.retry_spec.specs.Kept.{kept_for, kept_with};
ghost use Rattle.unit_spec.specs.declared.Noticed.TheVariants as noticed;
ghost use Rattle.unit_spec.specs.Noticing.{onu_sensed, onu_alarmed, alarm_takes};
ghost use Rattle.unit_spec.specs.Onu.{answer, upload, get_alarms, takes_room, next_piece};
ghost use Rattle.unit_spec.specs.Onu.{fresh_again, second_older, next_row};
ghost use Rattle.unit_spec.specs.Onu.{alarms_fresh_again, alarms_second_older, onu_ticked};
ghost use Rattle.unit_spec.specs.Images.{database_handled};
ghost use Rattle.onu_agent.specs.State.{desk_of, desk_started, alone};
ghost use Rattle.onu_agent.specs.Images.{is_for_desk};

use crate::alarms::Alarms;
use crate::audit::Audit;
use crate::deed::{Deed, plain_deed};
use crate::notices::{give_notice, value_notice};
use crate::requests::{refusal_of, response_to};
use crate::store::Store;
use crate::upload::Upload;
use alarm_spec::{BITMAP_BYTES, ROW_BYTES};
use image_store::Handled;
use mib_spec::Sensed;
use omci_contents::{Request, Response};
use omci_core::{EntityId, NoMemory, Packet, Software};
use omci_frames::{FRAME_BYTES, Frame, encode};
use retry_cache::Kept;
use std::alloc::Global;
use std::marker::Model;
use unit_spec::{Note, Noticed};

/// [`Unit`](crate::unit::Unit) holds it, and packets, seconds, measured values and alarms change
/// it.
#[derive(Drop)]
pub struct Desk {
    alloc: Global,
    store: Store,
    kept: Kept,
    upload: Option<Upload>,
    alarms: Alarms,
    audit: Option<Audit>,
}

impl Model for Desk {
    ghost use Rattle.onu_agent.specs.State as state;
    ghost use Rattle.onu_agent.specs.State.{AreFrames};

    ghost Value = { state.Desk };

    ghost view = { λ u. record {
      database = u.store;
      kept = u.kept;
      snapshot = u.upload;
      log = u.alarms;
      alarm_snapshot = u.audit;
    } };

    ghost invariant = { λ u. AreFrames u.kept };
}

impl Desk {
    /// That of a unit that starts with this software: the first database, nothing kept, no alarms,
    /// and nothing put by.
    pub fn start(alloc: Global, software: Software) -> Result<Desk, NoMemory>
        ensures started { IfOk result (λ d. d ≡ desk_started software) }
    {
        Ok(Desk {
            alloc,
            store: Store::start(alloc, software)?,
            kept: Kept::new(),
            upload: None,
            alarms: Alarms::new(alloc),
            audit: None,
        })
    }

    /// A request for an image was handled so. Where it counts, the counter grows, and the software
    /// images are shown as they are now.
    pub fn handled(&mut self, handled: Handled, software: Software)
        ensures after { self.new
            ≡ record self.old { database = database_handled handled software self.old.database } }
    {
        match handled {
            Handled::Answered { grows, .. } => {
                if grows {
                    self.store.count(software);
                }
            }
            Handled::Held | Handled::Dropped => (),
        }
    }

    /// Whether a reply is kept under this TCI.
    pub fn keeps(&self, tci: u16) -> bool
        ensures value { result ≡ is_some (kept_for tci self.now.kept) }
    {
        self.kept.find(tci).is_some()
    }

    /// Gives the kept reply to the request of this TCI, where there is one.
    #[tactic(auto, using(crate::proofs::Replies::given_whole))]
    pub fn give_again(&self, tci: u16, out: &mut Packet) -> bool
        ensures found { result ≡ is_some (kept_for tci self.now.kept) }
        ensures given { result ≡ true → kept_for tci self.now.kept ≡ Some out.new }
        ensures whole { result ≡ true → length out.new ≡ FRAME_BYTES }
    {
        match self.kept.find(tci) {
            None => false,
            Some(reply) => {
                out.put(reply);
                true
            }
        }
    }

    /// Gives a reply, and keeps it under its request's TCI.
    #[tactic(auto, using(crate::proofs::Replies::kept_whole))]
    pub fn give(&mut self, tci: u16, reply: &Frame, out: &mut Packet)
        ensures kept { self.new ≡ record self.old {
          kept = kept_with tci (spelling reply.now) self.old.kept;
        } }
        ensures given { out.new ≡ spelling reply.now }
        ensures whole { length out.new ≡ FRAME_BYTES }
    {
        let mut bytes = [0; FRAME_BYTES];
        encode(reply, &mut bytes);
        self.kept.keep(tci, &bytes);
        out.put(&bytes);
    }

    /// Carries a request out that is about the database or the alarms.
    #[tactic(auto, unfolding(unit_spec::specs::Onu::answer))]
    pub fn carry_out(&mut self, frame: &Frame, request: &Request) -> Result<Deed, NoMemory>
        requires asks { is_for_desk request.now ≡ true }
        ensures reply { IfOk result (λ deed. deed.reply
            ≡ (answer false frame.now request.now (alone self.old)).reply) }
        ensures note { IfOk result (λ deed. deed.note
            ≡ (answer false frame.now request.now (alone self.old)).note) }
        ensures after { OnOk result (self.new
            ≡ desk_of (answer false frame.now request.now (alone self.old)).unit) }
        ensures memory { OnErr result
            (takes_room frame.now request.now self.old.database ≡ true) }
    {
        let response = match request {
            Request::Upload => return self.put_by(frame),
            Request::UploadNext { number } => Response::UploadNext {
                piece: self.next_piece(*number),
            },
            Request::Alarms { .. } => return self.put_alarms_by(frame),
            Request::AlarmsNext { number } => Response::AlarmsNext {
                row: self.next_row(*number),
            },
            Request::Create { values } => self.store.create(frame.entity, values)?,
            Request::Delete => self.store.delete(frame.entity),
            Request::Set { mask, values } => self.store.set(frame.entity, *mask, values),
            Request::Get { mask } => self.store.get(frame.entity, *mask),
            Request::Reset => Response::Reset {
                code: self.store.reset(frame.entity),
            },
            Request::Start { .. }
            | Request::Section { .. }
            | Request::End { .. }
            | Request::Activate { .. }
            | Request::Commit
            | Request::Reboot { .. } => return Ok(plain_deed(refusal_of(frame))),
        };
        Ok(plain_deed(response_to(frame, response)))
    }

    /// Puts the database by for an upload. What was put by before is dropped.
    fn put_by(&mut self, frame: &Frame) -> Result<Deed, NoMemory>
        ensures reply { IfOk result (λ deed. deed.reply
            ≡ (upload frame.now (alone self.old)).reply) }
        ensures note { IfOk result (λ deed. deed.note ≡ (upload frame.now (alone self.old)).note) }
        ensures after { OnOk result (self.new ≡ desk_of (upload frame.now (alone self.old)).unit) }
    {
        let taken = Upload::of(self.alloc, self.store.mib())?;
        let response = Response::Upload {
            count: taken.count(),
        };
        let note = Some(taken.note());
        self.upload = Some(taken);
        Ok(Deed {
            reply: response_to(frame, response),
            note,
        })
    }

    /// The piece of that number of what was put by, or zeros.
    fn next_piece(&mut self, number: u16) -> [u8; 32]
        ensures value { result ≡ next_piece number self.old.snapshot }
        ensures after { self.new ≡ record self.old { snapshot = fresh_again self.old.snapshot } }
    {
        match &mut self.upload {
            Some(upload) => upload.piece(number),
            None => [0; 32],
        }
    }

    /// Puts the alarms by for an audit. What was put by before is dropped.
    fn put_alarms_by(&mut self, frame: &Frame) -> Result<Deed, NoMemory>
        ensures reply { IfOk result (λ deed. deed.reply
            ≡ (get_alarms frame.now (alone self.old)).reply) }
        ensures note { IfOk result (λ deed. deed.note
            ≡ (get_alarms frame.now (alone self.old)).note) }
        ensures after { OnOk result (self.new
            ≡ desk_of (get_alarms frame.now (alone self.old)).unit) }
    {
        let taken = Audit::of(&mut self.alarms)?;
        let rows = taken.count();
        self.audit = Some(taken);
        Ok(Deed {
            reply: response_to(frame, Response::Alarms { count: rows }),
            note: Some(Note::Alarms { rows }),
        })
    }

    /// The row of that number of the alarms that were put by, or zeros.
    fn next_row(&mut self, number: u16) -> [u8; ROW_BYTES]
        ensures value { result ≡ next_row number self.old.alarm_snapshot }
        ensures after { self.new ≡ record self.old {
          alarm_snapshot = alarms_fresh_again self.old.alarm_snapshot;
        } }
    {
        match &mut self.audit {
            Some(audit) => audit.row(number),
            None => [0; ROW_BYTES],
        }
    }

    /// The unit measured a value. `out` is the notice of it, and empty where there is none.
    #[tactic(auto, unfolding(unit_spec::specs::Noticing::onu_sensed))]
    pub fn sense(&mut self, entity: EntityId, number: u8, value: &[u8], out: &mut Packet) -> Noticed
        ensures noticed { result ≡ (onu_sensed entity number value.now (alone self.old)).noticed }
        ensures packet { out.new ≡ (onu_sensed entity number value.now (alone self.old)).packet }
        ensures after { self.new
            ≡ desk_of (onu_sensed entity number value.now (alone self.old)).unit }
        ensures whole { result ≡ noticed.Sent → length out.new ≡ FRAME_BYTES }
    {
        out.clear();
        match self.store.sense(entity, number, value) {
            Sensed::NotAllowed => Noticed::NotAllowed,
            Sensed::Same => Noticed::Same,
            Sensed::Changed => {
                give_notice(entity, value_notice(number, value), out);
                Noticed::Sent
            }
        }
    }

    /// The entity's alarms are these from now on. `out` is the notice of it, and empty where there
    /// is none.
    #[tactic(auto, unfolding(unit_spec::specs::Noticing::onu_alarmed))]
    pub fn alarm(
        &mut self,
        entity: EntityId,
        bitmap: [u8; BITMAP_BYTES],
        out: &mut Packet,
    ) -> Result<Noticed, NoMemory>
        ensures noticed { IfOk result (λ n. n
            ≡ (onu_alarmed entity bitmap (alone self.old)).noticed) }
        ensures packet { OnOk result (out.new
            ≡ (onu_alarmed entity bitmap (alone self.old)).packet) }
        ensures after { OnOk result (self.new
            ≡ desk_of (onu_alarmed entity bitmap (alone self.old)).unit) }
        ensures whole { IfOk result (λ n. n ≡ noticed.Sent → length out.new ≡ FRAME_BYTES) }
        ensures memory { OnErr result (alarm_takes entity bitmap (alone self.old) ≡ true) }
    {
        out.clear();
        if !self.store.may_alarm(entity) {
            return Ok(Noticed::NotAllowed);
        }
        match self.alarms.change(entity, bitmap)? {
            None => Ok(Noticed::Same),
            Some(notice) => {
                give_notice(entity, notice, out);
                Ok(Noticed::Sent)
            }
        }
    }

    /// How many entities have an alarm.
    pub fn alarms(&self) -> usize
        ensures count { result ≡ length self.now.log.alarms }
        ensures most { result ≤ 7 }
    {
        self.alarms.len()
    }

    /// A second passes: what was put by is a second older, or is dropped.
    #[tactic(auto, unfolding(unit_spec::specs::Onu::onu_ticked))]
    pub fn tick(&mut self)
        ensures ticked { self.new ≡ desk_of (onu_ticked (alone self.old)) }
    {
        self.tick_upload();
        self.tick_audit();
    }

    /// What was put by for an upload is a second older, or is dropped.
    fn tick_upload(&mut self)
        ensures ticked { self.new ≡ record self.old { snapshot = second_older self.old.snapshot } }
    {
        let Some(upload) = &mut self.upload else {
            return;
        };
        if upload.is_over() {
            self.upload = None;
        } else {
            upload.grow_older();
        }
    }

    /// What was put by for an audit is a second older, or is dropped.
    fn tick_audit(&mut self)
        ensures ticked { self.new ≡ record self.old {
          alarm_snapshot = alarms_second_older self.old.alarm_snapshot;
        } }
    {
        let Some(audit) = &mut self.audit else {
            return;
        };
        if audit.is_over() {
            self.audit = None;
        } else {
            audit.grow_older();
        }
    }
}
