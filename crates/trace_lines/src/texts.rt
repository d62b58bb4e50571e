//! The lines of the trace, each appended whole.

ghost use Rattle.std.specs.Prelude.{◌≡◌, ◌+◌, ◌++◌, ◌<◌, ◌≤◌, List, length, OnOk, codes, decimal, Option};
ghost use Rattle.manager_spec.specs.declared.Report.TheVariants as report;
ghost use Rattle.world_spec.specs.declared.Effect.TheVariants as effect;
ghost use Rattle.world_spec.specs.Trace.{line_text, effect_text, slot_text, refusal_text, report_text, note_text, phase_text, job_text, reason_text, audit_reason_text, image_reason_text, boot_text, gap_text, tci_text, entity_text, hex_text, entry_text, entry_line, row_text, row_line, direction_text, lane_text};

use crate::lines::Lines;
use link_spec::Direction;
use manager_spec::{AuditReason, ImageReason, Job, Phase, Refusal, Report, ResyncReason};
use omci_contents::{
    SHORT_TEXT_BYTES, ShortText, push_bytes, push_contents_text, push_hex, push_number, push_tci,
    push_text,
};
use omci_core::{Boot, EntityId, NoMemory, Priority, SlotView, Software};
use omci_frames::Frame;
use unit_spec::Note;
use world_spec::Effect;

/// Appends what is known of a slot: `LENGTH:CRC`, or `-` where it isn't valid.
fn push_slot(out: &mut Vec<u8>, slot: &Option<SlotView>) -> Result<(), NoMemory>
    ensures text { OnOk result (out.new.items ≡ out.old.items ++ slot_text slot.now) }
{
    let Some(view) = slot else {
        return push_bytes(out, b"-");
    };
    push_number(out, view.length as u64)?;
    push_bytes(out, b":")?;
    push_hex(out, view.crc.to_be_bytes().as_slice())
}

/// Appends the name of a lane.
fn push_lane(out: &mut Vec<u8>, lane: Priority) -> Result<(), NoMemory>
    ensures text { OnOk result (out.new.items ≡ out.old.items ++ lane_text lane) }
{
    match lane {
        Priority::Low => push_bytes(out, b"low"),
        Priority::High => push_bytes(out, b"high"),
    }
}

/// Appends the name of a direction.
fn push_direction(out: &mut Vec<u8>, direction: Direction) -> Result<(), NoMemory>
    ensures text { OnOk result (out.new.items ≡ out.old.items ++ direction_text direction) }
{
    match direction {
        Direction::Down => push_bytes(out, b"down"),
        Direction::Up => push_bytes(out, b"up"),
    }
}

/// Appends the unit's life, and which of its slots are active and committed.
fn push_life(out: &mut Vec<u8>, life: u64, software: &Software) -> Result<(), NoMemory>
    ensures text { OnOk result (out.new.items ≡ out.old.items
        ++ (codes "unit " ++ decimal life ++ codes " " ++ decimal software.now.active ++ codes " "
        ++ decimal software.now.committed)) }
{
    push_bytes(out, b"unit ")?;
    push_number(out, life)?;
    push_bytes(out, b" ")?;
    push_number(out, software.active as u64)?;
    push_bytes(out, b" ")?;
    push_number(out, software.committed as u64)
}

/// Appends the unit's start.
#[tactic(auto, unfolding(world_spec::specs::Trace::effect_text))]
fn push_start(out: &mut Vec<u8>, life: u64, software: &Software) -> Result<(), NoMemory>
    ensures text { OnOk result (out.new.items ≡ out.old.items
        ++ effect_text (effect.UnitStarted life software.now)) }
{
    push_life(out, life, software)?;
    push_bytes(out, b" ")?;
    push_slot(out, &software.first)?;
    push_bytes(out, b" ")?;
    push_slot(out, &software.second)
}

/// Appends the packet that went onto the link.
#[tactic(auto, unfolding(world_spec::specs::Trace::effect_text))]
fn push_sent(
    out: &mut Vec<u8>,
    number: u64,
    direction: Direction,
    frame: &Frame,
) -> Result<(), NoMemory>
    ensures text { OnOk result (out.new.items ≡ out.old.items
        ++ effect_text (effect.PacketSent number direction frame.now)) }
{
    push_bytes(out, b"sent ")?;
    push_number(out, number)?;
    push_bytes(out, b" ")?;
    push_direction(out, direction)?;
    push_bytes(out, b" ")?;
    push_text(out, frame)
}

/// Appends an entity: its class and its instance.
fn push_entity(out: &mut Vec<u8>, entity: EntityId) -> Result<(), NoMemory>
    ensures text { OnOk result (out.new.items ≡ out.old.items ++ entity_text entity) }
{
    push_number(out, entity.class as u64)?;
    push_bytes(out, b" ")?;
    push_number(out, entity.instance as u64)
}

/// Appends the name of a phase.
fn push_phase(out: &mut Vec<u8>, phase: Phase) -> Result<(), NoMemory>
    ensures text { OnOk result (out.new.items ≡ out.old.items ++ phase_text phase) }
{
    match phase {
        Phase::New => push_bytes(out, b"new"),
        Phase::InStep => push_bytes(out, b"in"),
        Phase::Out => push_bytes(out, b"out"),
    }
}

/// Appends the name of a job.
fn push_job(out: &mut Vec<u8>, job: Job) -> Result<(), NoMemory>
    ensures text { OnOk result (out.new.items ≡ out.old.items ++ job_text job) }
{
    match job {
        Job::Resync => push_bytes(out, b"resync"),
        Job::Audit => push_bytes(out, b"audit"),
        Job::Image => push_bytes(out, b"image"),
    }
}

/// Appends a command's TCI after a word.
fn push_tci_after(out: &mut Vec<u8>, word: &[u8], tci: u16) -> Result<(), NoMemory>
    ensures text { OnOk result (out.new.items ≡ out.old.items ++ (word.now ++ tci_text tci)) }
{
    push_bytes(out, word)?;
    push_tci(out, tci)
}

/// Appends a number after a word.
fn push_one(out: &mut Vec<u8>, word: &[u8], number: u64) -> Result<(), NoMemory>
    ensures text { OnOk result (out.new.items ≡ out.old.items ++ (word.now ++ decimal number)) }
{
    push_bytes(out, word)?;
    push_number(out, number)
}

/// Appends two numbers after a word.
fn push_two(out: &mut Vec<u8>, word: &[u8], first: u64, second: u64) -> Result<(), NoMemory>
    ensures text { OnOk result (out.new.items ≡ out.old.items
        ++ (word.now ++ decimal first ++ codes " " ++ decimal second)) }
{
    push_bytes(out, word)?;
    push_number(out, first)?;
    push_bytes(out, b" ")?;
    push_number(out, second)
}

/// Appends why a resynchronisation failed.
fn push_reason(out: &mut Vec<u8>, reason: ResyncReason) -> Result<(), NoMemory>
    ensures text { OnOk result (out.new.items ≡ out.old.items ++ reason_text reason) }
{
    match reason {
        ResyncReason::GaveUp { tci } => push_tci_after(out, b"gave-up ", tci),
        ResyncReason::Empty => push_bytes(out, b"empty"),
        ResyncReason::Truncated { entity } => {
            push_bytes(out, b"truncated ")?;
            push_entity(out, entity)
        }
        ResyncReason::Repeated { entity, attribute } => {
            push_bytes(out, b"repeated ")?;
            push_entity(out, entity)?;
            push_bytes(out, b" ")?;
            push_number(out, attribute as u64)
        }
        ResyncReason::Missing => push_bytes(out, b"missing"),
    }
}

/// Appends a gap in the numbers of notices.
fn push_gap(out: &mut Vec<u8>, want: u8, have: u8) -> Result<(), NoMemory>
    ensures text { OnOk result (out.new.items ≡ out.old.items ++ gap_text want have) }
{
    push_two(out, b"gap ", want as u64, have as u64)
}

/// Appends why an audit failed.
fn push_audit_reason(out: &mut Vec<u8>, reason: AuditReason) -> Result<(), NoMemory>
    ensures text { OnOk result (out.new.items ≡ out.old.items ++ audit_reason_text reason) }
{
    match reason {
        AuditReason::GaveUp { tci } => push_tci_after(out, b"gave-up ", tci),
        AuditReason::Empty => push_bytes(out, b"empty"),
        AuditReason::Repeated { entity } => {
            push_bytes(out, b"repeated ")?;
            push_entity(out, entity)
        }
        AuditReason::Gap { want, have } => push_gap(out, want, have),
        AuditReason::Overflow => push_bytes(out, b"overflow"),
    }
}

/// Appends why a download failed.
fn push_image_reason(out: &mut Vec<u8>, reason: ImageReason) -> Result<(), NoMemory>
    ensures text { OnOk result (out.new.items ≡ out.old.items ++ image_reason_text reason) }
{
    match reason {
        ImageReason::GaveUp { tci } => push_tci_after(out, b"gave-up ", tci),
        ImageReason::Code { code } => push_one(out, b"code ", code.0 as u64),
    }
}

/// Appends why a command was not submitted.
fn push_refusal(out: &mut Vec<u8>, refusal: Refusal) -> Result<(), NoMemory>
    ensures text { OnOk result (out.new.items ≡ out.old.items ++ refusal_text refusal) }
{
    match refusal {
        Refusal::Unproven { lane } => {
            push_bytes(out, b"unproven ")?;
            push_lane(out, lane)
        }
        Refusal::Occupied { tci } => push_tci_after(out, b"occupied ", tci),
        Refusal::OutOfStep { phase } => {
            push_bytes(out, b"out-of-step ")?;
            push_phase(out, phase)
        }
        Refusal::JobRunning { job } => {
            push_bytes(out, b"job ")?;
            push_job(out, job)
        }
        Refusal::ChangeOutstanding { tci } => push_tci_after(out, b"change ", tci),
        Refusal::NoMemory => push_bytes(out, b"memory"),
    }
}

/// Appends the value change that a notice tells: its entity, and its contents.
fn push_change(out: &mut Vec<u8>, notice: &Frame) -> Result<(), NoMemory>
    ensures text { OnOk result (out.new.items ≡ out.old.items
        ++ report_text (report.Change notice.now)) }
{
    push_bytes(out, b"change ")?;
    push_entity(out, notice.entity)?;
    push_bytes(out, b" ")?;
    push_contents_text(out, &notice.contents)
}

/// Appends what the manager reports.
fn push_report(out: &mut Vec<u8>, report: &Report) -> Result<(), NoMemory>
    ensures text { OnOk result (out.new.items ≡ out.old.items ++ report_text report.now) }
{
    match report {
        Report::Took { reply } => {
            push_bytes(out, b"took ")?;
            push_text(out, reply)
        }
        Report::Proved { lane } => {
            push_bytes(out, b"proved ")?;
            push_lane(out, *lane)
        }
        Report::Freed { tci } => push_tci_after(out, b"freed ", *tci),
        Report::GaveUp { tci } => push_tci_after(out, b"gave up ", *tci),
        Report::Synced { entities, counter } => {
            push_two(out, b"synced ", *entities as u64, *counter as u64)
        }
        Report::PhaseIn => push_bytes(out, b"phase in"),
        Report::PhaseOut => push_bytes(out, b"phase out"),
        Report::ResyncFailed { reason } => {
            push_bytes(out, b"resync failed ")?;
            push_reason(out, *reason)
        }
        Report::Checked { given, expected } => {
            push_two(out, b"checked ", *given as u64, *expected as u64)
        }
        Report::Audited { rows } => push_one(out, b"audited ", *rows as u64),
        Report::AuditFailed { reason } => {
            push_bytes(out, b"audit failed ")?;
            push_audit_reason(out, *reason)
        }
        Report::ImageDone { slot } => push_one(out, b"image done ", *slot as u64),
        Report::ImageFailed { reason } => {
            push_bytes(out, b"image failed ")?;
            push_image_reason(out, *reason)
        }
        Report::Busy { times } => push_one(out, b"busy ", *times as u64),
        Report::AlarmTaken { number } => push_one(out, b"notice ", *number as u64),
        Report::AlarmRepeat { number } => push_one(out, b"repeat ", *number as u64),
        Report::AlarmGap { want, have } => push_gap(out, *want, *have),
        Report::AlarmOverflow { number } => push_one(out, b"overflow ", *number as u64),
        Report::AlarmUnaudited { number } => push_one(out, b"unaudited ", *number as u64),
        Report::Change { notice } => push_change(out, notice),
        Report::Dropped => push_bytes(out, b"dropped"),
    }
}

/// Appends how a unit starts again.
fn push_boot(out: &mut Vec<u8>, boot: Boot) -> Result<(), NoMemory>
    ensures text { OnOk result (out.new.items ≡ out.old.items ++ boot_text boot) }
{
    match boot {
        Boot::PowerUp => push_bytes(out, b"power-up"),
        Boot::Activated(slot) => push_one(out, b"activate ", slot as u64),
    }
}

/// Appends what else is told of a request that was carried out.
fn push_note(out: &mut Vec<u8>, note: Note) -> Result<(), NoMemory>
    ensures text { OnOk result (out.new.items ≡ out.old.items ++ note_text note) }
{
    match note {
        Note::Snapshot { entities, counter } => {
            push_two(out, b"snapshot ", entities as u64, counter as u64)
        }
        Note::Alarms { rows } => push_one(out, b"alarms ", rows as u64),
        Note::Sealed { slot, length, crc } => {
            push_two(out, b"sealed ", slot as u64, length as u64)?;
            push_bytes(out, b" ")?;
            push_hex(out, crc.to_be_bytes().as_slice())
        }
        Note::Committed { slot } => push_one(out, b"committed ", slot as u64),
        Note::Leaving { boot } => {
            push_bytes(out, b"leaving ")?;
            push_boot(out, boot)
        }
    }
}

/// Appends an effect.
#[tactic(auto, unfolding(world_spec::specs::Trace::effect_text))]
fn push_effect(out: &mut Vec<u8>, effect: &Effect) -> Result<(), NoMemory>
    ensures text { OnOk result (out.new.items ≡ out.old.items ++ effect_text effect.now) }
{
    match effect {
        Effect::UnitStarted { life, software } => push_start(out, *life, software),
        Effect::PacketSent {
            number,
            direction,
            frame,
        } => push_sent(out, *number, *direction, frame),
        Effect::Carried { life } => {
            push_bytes(out, b"carried ")?;
            push_number(out, *life)
        }
        Effect::Noted(note) => push_note(out, *note),
        Effect::Kept => push_bytes(out, b"kept"),
        Effect::Held => push_bytes(out, b"held"),
        Effect::Dropped => push_bytes(out, b"dropped"),
        Effect::Cut => push_bytes(out, b"cut"),
        Effect::Refused(refusal) => {
            push_bytes(out, b"refused ")?;
            push_refusal(out, *refusal)
        }
        Effect::Reported(report) => push_report(out, report),
        Effect::NotEnabled => push_bytes(out, b"not enabled"),
    }
}

/// Appends the line of an effect to its bytes.
#[tactic(auto, unfolding(world_spec::specs::Trace::line_text))]
fn push_effect_line(out: &mut Vec<u8>, event: u64, effect: &Effect) -> Result<(), NoMemory>
    ensures text { OnOk result (out.new.items ≡ out.old.items ++ line_text event effect.now) }
{
    push_number(out, event)?;
    push_bytes(out, b" ")?;
    push_effect(out, effect)?;
    push_bytes(out, b"\n")
}

/// Appends the line of an effect of the event of that number. After want of memory a front of the
/// line may have been appended.
pub fn push_line(out: &mut Lines, event: u64, effect: &Effect) -> Result<(), NoMemory>
    ensures text { OnOk result (out.new ≡ out.old ++ line_text event effect.now) }
{
    push_effect_line(&mut out.text, event, effect)?;
    Ok(())
}

// ---- the lines of which a trace has most are built in one row, and appended at once

/// The most bytes of an effect that is added to a row.
const EFFECT_BYTES: usize = 160;

/// Adds what a line begins with: its event's number.
#[inline(always)]
fn append_event(line: &mut ShortText, event: u64)
    requires room { length line.old + 21 ≤ SHORT_TEXT_BYTES }
    ensures text { line.new ≡ line.old ++ (decimal event ++ codes " ") }
    ensures grown { length line.new ≤ length line.old + 21 }
{
    line.append_number(event);
    line.append(b" ");
}

/// Adds the name of a direction.
#[inline(always)]
fn append_direction(line: &mut ShortText, direction: Direction)
    requires room { length line.old + 4 ≤ SHORT_TEXT_BYTES }
    ensures text { line.new ≡ line.old ++ direction_text direction }
    ensures grown { length line.new ≤ length line.old + 4 }
{
    match direction {
        Direction::Down => line.append(b"down"),
        Direction::Up => line.append(b"up"),
    }
}

/// Adds the packet that went onto the link.
#[inline(always)]
#[tactic(auto, unfolding(world_spec::specs::Trace::effect_text))]
fn append_sent(line: &mut ShortText, number: u64, direction: Direction, frame: &Frame)
    requires room { length line.old + EFFECT_BYTES ≤ SHORT_TEXT_BYTES }
    ensures text { line.new ≡
        line.old ++ effect_text (effect.PacketSent number direction frame.now) }
    ensures grown { length line.new ≤ length line.old + EFFECT_BYTES }
{
    line.append(b"sent ");
    line.append_number(number);
    line.append(b" ");
    append_direction(line, direction);
    line.append(b" ");
    line.append_text(frame);
}

/// Adds that a request was carried out.
#[inline(always)]
#[tactic(auto, unfolding(world_spec::specs::Trace::effect_text))]
fn append_carried(line: &mut ShortText, life: u64)
    requires room { length line.old + EFFECT_BYTES ≤ SHORT_TEXT_BYTES }
    ensures text { line.new ≡ line.old ++ effect_text (effect.Carried life) }
    ensures grown { length line.new ≤ length line.old + EFFECT_BYTES }
{
    line.append(b"carried ");
    line.append_number(life);
}

/// Adds the reply that the manager took.
#[inline(always)]
#[tactic(auto, unfolding(world_spec::specs::Trace::effect_text))]
fn append_took(line: &mut ShortText, reply: &Frame)
    requires room { length line.old + EFFECT_BYTES ≤ SHORT_TEXT_BYTES }
    ensures text { line.new ≡ line.old ++ effect_text (effect.Reported (report.Took reply.now)) }
    ensures grown { length line.new ≤ length line.old + EFFECT_BYTES }
{
    line.append(b"took ");
    line.append_text(reply);
}

/// Ends a line, and appends it.
#[inline(always)]
fn push_ended(out: &mut Lines, line: &mut ShortText) -> Result<(), NoMemory>
    requires room { length line.old < SHORT_TEXT_BYTES }
    ensures text { OnOk result (out.new ≡ out.old ++ (line.old ++ codes "\n")) }
{
    line.append(b"\n");
    push_bytes(&mut out.text, line.bytes())?;
    Ok(())
}

/// Appends the line of a packet that went onto the link.
#[tactic(auto, unfolding(world_spec::specs::Trace::line_text))]
pub fn push_sent_line(
    out: &mut Lines,
    event: u64,
    number: u64,
    direction: Direction,
    frame: &Frame,
) -> Result<(), NoMemory>
    ensures text { OnOk result (out.new ≡ out.old
        ++ line_text event (effect.PacketSent number direction frame.now)) }
{
    let mut line = ShortText::new();
    append_event(&mut line, event);
    append_sent(&mut line, number, direction, frame);
    push_ended(out, &mut line)?;
    Ok(())
}

/// Appends the line of a request that was carried out.
#[tactic(auto, unfolding(world_spec::specs::Trace::line_text))]
pub fn push_carried_line(out: &mut Lines, event: u64, life: u64) -> Result<(), NoMemory>
    ensures text { OnOk result (out.new ≡ out.old ++ line_text event (effect.Carried life)) }
{
    let mut line = ShortText::new();
    append_event(&mut line, event);
    append_carried(&mut line, life);
    push_ended(out, &mut line)?;
    Ok(())
}

/// Appends the line of a reply that the manager took.
#[tactic(auto, unfolding(world_spec::specs::Trace::line_text))]
pub(crate) fn push_took_line(out: &mut Lines, event: u64, reply: &Frame) -> Result<(), NoMemory>
    ensures text { OnOk result (out.new ≡ out.old
        ++ line_text event (effect.Reported (report.Took reply.now))) }
{
    let mut line = ShortText::new();
    append_event(&mut line, event);
    append_took(&mut line, reply);
    push_ended(out, &mut line)?;
    Ok(())
}

// ---- the rows of copies and tables

/// Appends bytes in hex, or `-` for none.
fn push_hex_or_dash(out: &mut Vec<u8>, bytes: &[u8]) -> Result<(), NoMemory>
    ensures text { OnOk result (out.new.items ≡ out.old.items ++ hex_text bytes.now) }
{
    if bytes.is_empty() {
        return push_bytes(out, b"-");
    }
    push_hex(out, bytes)
}

/// Appends an entity of a copy.
#[tactic(auto, unfolding(world_spec::specs::Trace::entry_text))]
fn push_copied(
    out: &mut Vec<u8>,
    entity: EntityId,
    mask: u16,
    values: &[u8],
) -> Result<(), NoMemory>
    ensures text { OnOk result
        (out.new.items ≡ out.old.items ++ entry_text entity mask values.now) }
{
    push_bytes(out, b"copy ")?;
    push_entity(out, entity)?;
    push_bytes(out, b" ")?;
    push_tci(out, mask)?;
    push_bytes(out, b" ")?;
    push_hex_or_dash(out, values)
}

/// Appends the line of an entity of a copy to its bytes.
#[tactic(auto, unfolding(world_spec::specs::Trace::entry_line))]
fn push_entry_line(
    out: &mut Vec<u8>,
    event: u64,
    entity: EntityId,
    mask: u16,
    values: &[u8],
) -> Result<(), NoMemory>
    ensures text { OnOk result (out.new.items ≡ out.old.items
        ++ entry_line event entity mask values.now) }
{
    push_number(out, event)?;
    push_bytes(out, b" ")?;
    push_copied(out, entity, mask, values)?;
    push_bytes(out, b"\n")
}

/// Appends the line of an entity of a copy.
pub fn push_entry(
    out: &mut Lines,
    event: u64,
    entity: EntityId,
    mask: u16,
    values: &[u8],
) -> Result<(), NoMemory>
    ensures text { OnOk result (out.new ≡ out.old ++ entry_line event entity mask values.now) }
{
    push_entry_line(&mut out.text, event, entity, mask, values)?;
    Ok(())
}

/// Appends an entity of a table, and its bitmap.
#[tactic(auto, unfolding(world_spec::specs::Trace::row_text))]
fn push_alarms(out: &mut Vec<u8>, entity: EntityId, bitmap: &[u8]) -> Result<(), NoMemory>
    ensures text { OnOk result (out.new.items ≡ out.old.items ++ row_text entity bitmap.now) }
{
    push_bytes(out, b"row ")?;
    push_entity(out, entity)?;
    push_bytes(out, b" ")?;
    push_contents_text(out, bitmap)
}

/// Appends the line of an entity of a table to its bytes.
#[tactic(auto, unfolding(world_spec::specs::Trace::row_line))]
fn push_row_line(
    out: &mut Vec<u8>,
    event: u64,
    entity: EntityId,
    bitmap: &[u8],
) -> Result<(), NoMemory>
    ensures text { OnOk result (out.new.items ≡ out.old.items ++ row_line event entity bitmap.now) }
{
    push_number(out, event)?;
    push_bytes(out, b" ")?;
    push_alarms(out, entity, bitmap)?;
    push_bytes(out, b"\n")
}

/// Appends the line of an entity of a table.
pub fn push_row(
    out: &mut Lines,
    event: u64,
    entity: EntityId,
    bitmap: &[u8],
) -> Result<(), NoMemory>
    ensures text { OnOk result (out.new ≡ out.old ++ row_line event entity bitmap.now) }
{
    push_row_line(&mut out.text, event, entity, bitmap)?;
    Ok(())
}
