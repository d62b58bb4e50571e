//! The unit itself: what it holds, its store of software images, and how it starts again where it
//! leaves.

ghost use Rattle.std.specs.Prelude.{◌≡◌, ◌≢◌, ◌≤◌, ◌⊎◌, length, [], true, Ok, Some, None, IfOk};
ghost use Rattle.std.specs.Prelude.{OnOk, OnErr, is_some};
ghost use Rattle.message_spec.specs.declared.Message.TheVariants as message;
ghost use Rattle.message_spec.specs.Reading.{HasWindow, RequestWindow};
ghost use Rattle.retry_spec.specs.Kept.{kept_for};
ghost use Rattle.slot_spec.specs.Rig.{IsTrap, Rigged};
ghost use Rattle.store_spec.specs.Deeds.{Ignore};
ghost use Rattle.store_spec.specs.State.{software_of};
ghost use Rattle.unit_spec.specs.declared.Did.TheVariants as did;
ghost use Rattle.unit_spec.specs.declared.Noticed.TheVariants as noticed;
ghost use Rattle.unit_spec.specs.Noticing.{onu_sensed, onu_alarmed, alarm_takes};
ghost use Rattle.unit_spec.specs.Onu.{Onu, answer, reboot, image_deed, deed_unless_kept};
ghost use Rattle.unit_spec.specs.Onu.{for_message, message_deed, message_takes, takes_memory};
ghost use Rattle.unit_spec.specs.Onu.{unless_quiet, asks_nothing, take_section, if_request};
ghost use Rattle.unit_spec.specs.Onu.{has_request_bits, takes_room, onu_ticked};
ghost use Rattle.image_store.specs.declared.state.State.{State as Form};
ghost use Rattle.image_store.specs.Stands.{state_disk};
ghost use Rattle.image_store.specs.Counts.{StoreCounts, store_faults};
ghost use Rattle.onu_agent.specs.State.{UnitStands, Tells};
ghost use Rattle.onu_agent.specs.Received.{Came, Received, CarriedOut};
ghost use Rattle.onu_agent.specs.Images.{is_for_image};
ghost use Rattle.frame_spec.specs.declared.TheConstants.{FRAME_BYTES};

use crate::deed::{Deed, plain_deed};
use crate::desk::Desk;
use crate::images::{
    code_of, image_note, image_response, leaving_after, quiet_did, reboot_code, slot_of,
};
use crate::requests::{is_quiet, is_request, refusal_of, response_to};
use alarm_spec::BITMAP_BYTES;
use image_store::Store as Images;
use omci_contents::{ContentsFault, Message, Request, Response, read_message};
use omci_core::{Boot, Code, EntityId, NoMemory, Packet, Software};
use omci_frames::{Frame, packet_frame};
use slot_disk::{Disk, Rig, Trap};
use std::marker::Model;
use unit_spec::{Did, Note, Noticed};

/// [`Agent`](crate::Agent) holds it, and each of its calls may change it.
#[derive(Drop)]
pub struct Unit<D: Disk> {
    desk: Desk,
    images: Images<D>,
    leaving: Option<Boot>,
}

impl<D: Disk> Model for Unit<D> {
    ghost use Rattle.onu_agent.specs.State.{Held};

    ghost Value = { Held D };

    ghost view = { λ u. record { desk = u.desk; images = u.images; leaving = u.leaving } };
}

impl<D: Disk> Unit<D> {
    /// A unit that starts with these images, of which it shows the software.
    pub fn start(desk: Desk, images: Images<D>) -> Unit<D>
        ensures value { result ≡ record { desk = desk; images = images; leaving = None } }
    {
        Unit {
            desk,
            images,
            leaving: None,
        }
    }

    /// Takes a packet from the link. `out` is the reply, and empty where there is none.
    #[tactic(auto, unfolding(unit_spec::specs::Onu::onu_received, unit_spec::specs::Onu::packet_deed, unit_spec::specs::Onu::takes_memory))]
    pub fn packet(&mut self, bytes: &[u8], out: &mut Packet) -> Result<Did, NoMemory>
        ensures received { (u : Onu) → UnitStands D.seen D.may_leave self.old u → IfOk result (λ d.
            Received D.seen D.may_leave D.clock D.left_since D.rig D.faults self.old self.new d
            out.new bytes.now u) }
        ensures whole { IfOk result (λ d. d ≢ did.Dropped → d ≢ did.Held
            → length out.new ≡ FRAME_BYTES) }
        ensures memory { (u : Onu) → UnitStands D.seen D.may_leave self.old u
            → OnErr result (takes_memory bytes.now u ≡ true) }
        ensures images { OnErr result (self.new.images ≡ self.old.images) }
        ensures count { StoreCounts D.faults self.old.images self.new.images }
    {
        match packet_frame(bytes) {
            None => Ok(drop_packet(out)),
            Some(frame) => self.message(&read_message(&frame), &frame, out),
        }
    }

    /// Takes a frame that reads so.
    fn message(
        &mut self,
        read: &Result<Message, ContentsFault>,
        frame: &Frame,
        out: &mut Packet,
    ) -> Result<Did, NoMemory>
        requires window { IfOk read.now HasWindow }
        ensures came { (u : Onu) → UnitStands D.seen D.may_leave self.old u → IfOk result (λ d.
            Came D.seen D.may_leave D.clock D.left_since D.rig D.faults self.old self.new d out.new
            (λ fails. for_message fails read.now frame.now u)
            (message_deed read.now frame.now u) u) }
        ensures whole { IfOk result (λ d. d ≢ did.Dropped → d ≢ did.Held
            → length out.new ≡ FRAME_BYTES) }
        ensures memory { (u : Onu) → UnitStands D.seen D.may_leave self.old u
            → OnErr result (message_takes read.now frame.now u ≡ true) }
        ensures images { OnErr result (self.new.images ≡ self.old.images) }
        ensures count { StoreCounts D.faults self.old.images self.new.images }
    {
        match read {
            Ok(Message::Asked { request, .. }) => self.request(request, frame, out),
            Err(ContentsFault::UnknownType { .. }) => Ok(self.unknown(frame, out)),
            Ok(Message::Answered { .. }) => Ok(drop_packet(out)),
            Ok(Message::Told { .. }) => Ok(drop_packet(out)),
            Err(ContentsFault::Bits { .. }) => Ok(drop_packet(out)),
        }
    }

    /// Takes a request: one that asks for a reply is answered by its kept reply, or carried out. A
    /// unit that leaves does no more than give kept replies.
    fn request(
        &mut self,
        request: &Request,
        frame: &Frame,
        out: &mut Packet,
    ) -> Result<Did, NoMemory>
        requires window { RequestWindow request.now }
        ensures came { (u : Onu) → UnitStands D.seen D.may_leave self.old u → IfOk result (λ d.
            Came D.seen D.may_leave D.clock D.left_since D.rig D.faults self.old self.new d out.new
            (λ fails. unless_quiet (asks_nothing request.now) fails frame.now request.now u)
            (deed_unless_kept (kept_for frame.now.tci u.kept) u.leaving
            (image_deed frame.now request.now u)) u) }
        ensures whole { IfOk result (λ d. d ≢ did.Dropped → d ≢ did.Held
            → length out.new ≡ FRAME_BYTES) }
        ensures memory { (u : Onu) → UnitStands D.seen D.may_leave self.old u → OnErr result
            (message_takes (Ok (message.Asked frame.now.tci frame.now.entity request.now))
            frame.now u ≡ true) }
        ensures images { OnErr result (self.new.images ≡ self.old.images) }
        ensures count { StoreCounts D.faults self.old.images self.new.images }
    {
        if is_quiet(request) {
            return Ok(self.section(request, frame, out));
        }
        if self.desk.give_again(frame.tci, out) {
            return Ok(Did::Kept);
        }
        if self.leaves() {
            return Ok(drop_packet(out));
        }
        let deed = self.carry_out(frame, request)?;
        self.desk.give(frame.tci, &deed.reply, out);
        Ok(Did::Carried { note: deed.note })
    }

    /// Takes a section that isn't its window's last: it is held, or dropped.
    fn section(&mut self, request: &Request, frame: &Frame, out: &mut Packet) -> Did
        requires quiet { asks_nothing request.now ≡ true }
        ensures came { (u : Onu) → UnitStands D.seen D.may_leave self.old u
            → Came D.seen D.may_leave D.clock D.left_since D.rig D.faults self.old self.new result
            out.new (λ fails. take_section fails frame.now request.now u)
            (deed_unless_kept (kept_for frame.now.tci u.kept) u.leaving
            (image_deed frame.now request.now u)) u }
        ensures did { (result ≡ did.Dropped) ⊎ (result ≡ did.Held) }
        ensures count { StoreCounts D.faults self.old.images self.new.images }
    {
        if self.desk.keeps(frame.tci) {
            return drop_packet(out);
        }
        if self.leaves() {
            return drop_packet(out);
        }
        out.clear();
        quiet_did(self.images.carry(frame.tci, frame.entity, request))
    }

    /// Takes a frame of an unknown type, which is a request where its type byte has the bits of
    /// one.
    fn unknown(&mut self, frame: &Frame, out: &mut Packet) -> Did
        ensures came { (u : Onu) → UnitStands D.seen D.may_leave self.old u
            → Came D.seen D.may_leave D.clock D.left_since D.rig D.faults self.old self.new result
            out.new (λ fails. if_request (has_request_bits frame.now.kind) frame.now u) Ignore u }
        ensures whole { result ≢ did.Dropped → length out.new ≡ FRAME_BYTES }
        ensures count { StoreCounts D.faults self.old.images self.new.images }
    {
        if !is_request(frame.kind) {
            return drop_packet(out);
        }
        if self.desk.give_again(frame.tci, out) {
            return Did::Kept;
        }
        if self.leaves() {
            return drop_packet(out);
        }
        self.desk.give(frame.tci, &refusal_of(frame), out);
        Did::Carried { note: None }
    }

    /// Carries a request out.
    fn carry_out(&mut self, frame: &Frame, request: &Request) -> Result<Deed, NoMemory>
        requires window { RequestWindow request.now }
        ensures carried { (u : Onu) → UnitStands D.seen D.may_leave self.old u
            → IfOk result (λ deed. CarriedOut D.seen D.may_leave D.clock D.left_since D.rig D.faults
            self.old self.new
            deed.reply deed.note (λ fails. answer fails frame.now request.now u)
            (image_deed frame.now request.now u) u) }
        ensures memory { OnErr result
            (takes_room frame.now request.now self.old.desk.database ≡ true) }
        ensures images { OnErr result (self.new.images ≡ self.old.images) }
        ensures count { StoreCounts D.faults self.old.images self.new.images }
    {
        match request {
            Request::Start { .. }
            | Request::Section { .. }
            | Request::End { .. }
            | Request::Activate { .. }
            | Request::Commit => Ok(self.carry_image(frame, request)),
            Request::Reboot { .. } => Ok(self.reboot(frame)),
            Request::Create { .. }
            | Request::Delete
            | Request::Set { .. }
            | Request::Get { .. }
            | Request::Alarms { .. }
            | Request::AlarmsNext { .. }
            | Request::Upload
            | Request::UploadNext { .. }
            | Request::Reset => self.desk.carry_out(frame, request),
        }
    }

    /// Carries a request for a software image out.
    fn carry_image(&mut self, frame: &Frame, request: &Request) -> Deed
        requires asks { is_for_image request.now ≡ true }
        requires window { RequestWindow request.now }
        ensures carried { (u : Onu) → UnitStands D.seen D.may_leave self.old u
            → CarriedOut D.seen D.may_leave D.clock D.left_since D.rig D.faults self.old self.new
            result.reply result.note (λ fails. answer fails frame.now request.now u)
            (image_deed frame.now request.now u) u }
        ensures count { StoreCounts D.faults self.old.images self.new.images }
    {
        let slot = slot_of(frame.entity);
        let handled = self.images.carry(frame.tci, frame.entity, request);
        let software = self.images.software();
        self.desk.handled(handled, software);
        self.leaving = leaving_after(handled, slot, self.leaving);
        Deed {
            reply: response_to(frame, image_response(request, code_of(handled))),
            note: image_note(request, handled, slot, &software),
        }
    }

    /// The unit restarts after its reply.
    fn reboot(&mut self, frame: &Frame) -> Deed
        ensures reply { (u : Onu) → result.reply ≡ (reboot frame.now u).reply }
        ensures note { (u : Onu) → result.note ≡ (reboot frame.now u).note }
        ensures leaving { (u : Onu) → self.old.leaving ≡ u.leaving
            → self.new.leaving ≡ (reboot frame.now u).unit.leaving }
        ensures same { self.new ≡ record self.old { leaving = self.new.leaving } }
    {
        let code = reboot_code(frame.entity);
        let reply = response_to(frame, Response::Reboot { code });
        if code != Code::SUCCESS {
            return plain_deed(reply);
        }
        self.leaving = Some(Boot::PowerUp);
        Deed {
            reply,
            note: Some(Note::Leaving {
                boot: Boot::PowerUp,
            }),
        }
    }

    /// The unit measured a value. `out` is the notice of it, and empty where there is none.
    pub fn sense(&mut self, entity: EntityId, number: u8, value: &[u8], out: &mut Packet) -> Noticed
        ensures sensed { (u : Onu) → UnitStands D.seen D.may_leave self.old u
            → Tells D.seen D.may_leave self.new result out.new
            (onu_sensed entity number value.now u) }
        ensures whole { result ≡ noticed.Sent → length out.new ≡ FRAME_BYTES }
        ensures images { self.new.images ≡ self.old.images }
    {
        if self.leaves() {
            out.clear();
            return Noticed::NotAllowed;
        }
        self.desk.sense(entity, number, value, out)
    }

    /// The entity's alarms are these from now on. `out` is the notice of it, and empty where there
    /// is none.
    pub fn alarm(
        &mut self,
        entity: EntityId,
        bitmap: [u8; BITMAP_BYTES],
        out: &mut Packet,
    ) -> Result<Noticed, NoMemory>
        ensures alarmed { (u : Onu) → UnitStands D.seen D.may_leave self.old u → IfOk result (λ n.
            Tells D.seen D.may_leave self.new n out.new (onu_alarmed entity bitmap u)) }
        ensures whole { IfOk result (λ n. n ≡ noticed.Sent → length out.new ≡ FRAME_BYTES) }
        ensures memory { (u : Onu) → UnitStands D.seen D.may_leave self.old u
            → OnErr result (alarm_takes entity bitmap u ≡ true) }
        ensures images { self.new.images ≡ self.old.images }
    {
        if self.leaves() {
            out.clear();
            return Ok(Noticed::NotAllowed);
        }
        self.desk.alarm(entity, bitmap, out)
    }

    /// How many entities have an alarm.
    pub fn alarms(&self) -> usize
        ensures count { result ≡ length self.now.desk.log.alarms }
        ensures most { result ≤ 7 }
    {
        self.desk.alarms()
    }

    /// A second passes: what was put by is a second older, or is dropped.
    pub fn tick(&mut self)
        ensures ticked { (u : Onu) → UnitStands D.seen D.may_leave self.old u
            → UnitStands D.seen D.may_leave self.new (onu_ticked u) }
        ensures images { self.new.images ≡ self.old.images }
        ensures leaving { self.new.leaving ≡ self.old.leaving }
    {
        self.desk.tick();
    }

    /// How the unit starts again, where it leaves.
    pub fn leaving(&self) -> Option<Boot>
        ensures value { result ≡ self.now.leaving }
    {
        self.leaving
    }

    /// Whether it leaves.
    fn leaves(&self) -> bool
        ensures value { result ≡ is_some self.now.leaving }
    {
        self.leaving.is_some()
    }

    /// The software images.
    pub fn software(&self) -> Software
        ensures shows { (u : Onu) → UnitStands D.seen D.may_leave self.now u
            → result ≡ software_of u.store }
    {
        self.images.software()
    }

    /// Gives the disk back.
    pub fn stop(self) -> D
        ensures disk { (state : Form D) → self.images.state ≡ Some state
            → result ≡ state_disk state }
        ensures count { D.faults result ≡ store_faults D.faults self.images }
    {
        self.images.unmount()
    }
}

impl<D: Rig> Unit<D> {
    /// Passes a trap to the disk, and changes nothing else.
    pub fn rig(&mut self, trap: Trap)
        requires trap { IsTrap trap }
        ensures stands { (u : Onu) → UnitStands D.seen D.may_leave self.old u
            → UnitStands D.seen D.may_leave self.new u }
        ensures trap { (old new : Form D) (r : Rigged) → self.old.images.state ≡ Some old
            → self.new.images.state ≡ Some new → D.rig (state_disk old) ≡ Some r
            → D.rig (state_disk new) ≡ Some (record r { trap = trap }) }
        ensures same { self.new ≡ record self.old {
          images = record self.old.images { state = self.new.images.state };
        } }
        ensures count { store_faults D.faults self.new.images
            ≡ store_faults D.faults self.old.images }
    {
        self.images.rig(trap);
    }
}

/// A packet that asks nothing has no reply.
fn drop_packet(out: &mut Packet) -> Did
    ensures dropped { result ≡ did.Dropped }
    ensures empty { out.new ≡ [] }
{
    out.put(&[]);
    Did::Dropped
}
