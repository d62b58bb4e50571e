//! The canonical text of a script.

ghost use Rattle.std.specs.Prelude.{◌≡◌, ◌++◌, [], ◌∷◌, OnOk, IfOk, Ok, decimal};
ghost use Rattle.std.specs.Int.{to_be_bytes, w16};
ghost use Rattle.hex.specs.Hex.{encode_lower};
ghost use Rattle.script_spec.specs.Script as spec;
ghost use Rattle.script_spec.specs.Text.{lane_text};
ghost use Rattle.script_spec.specs.Canonical.{hex_text, action_text, header_text, canonical};
ghost use Rattle.script_spec.specs.Canonical.{check_text, pick_text};
ghost use Rattle.script_spec.specs.Reading.{reading};
ghost use Rattle.std.specs.List.{flat_map};
ghost use Rattle.replay_script.specs.Events.{action_of, header_of};
ghost use Rattle.replay_script.specs.Printed.{word_text, words_text};

use crate::script::{Event, Header, Script};
use itoa::Buffer;
use omci_core::{EntityId, NoMemory, Priority};
use slot_spec::Pick;
use std::alloc::Global;

/// The script's canonical text: no line that is passed over, numbers without zeros in front, hex in
/// lower case, `-` for no byte, and a line feed after each line. `NoMemory` where there is no room
/// for it.
pub fn print(alloc: Global, script: &Script) -> Result<Vec<u8>, NoMemory>
    ensures canonical { IfOk result (λ text. text.items ≡ canonical script.now) }
    ensures back { IfOk result (λ text. reading text.items ≡ Ok script.now) }
{
    let mut text = Vec::new(alloc);
    put_header(alloc, &mut text, script.header())?;
    for place in 0..script.len() {
        put_event(alloc, &mut text, script.event(place))?;
    }
    Ok(text)
}

/// Appends the header's line.
#[tactic(auto, unfolding(script_spec::specs::Canonical::line_text))]
fn put_header(alloc: Global, out: &mut Vec<u8>, header: &Header) -> Result<(), NoMemory>
    ensures appended { OnOk result
        (out.new.items ≡ out.old.items ++ header_text (header_of header.now)) }
{
    let words = [
        Word::Number(u64::from(header.room)),
        Word::Number(u64::from(header.low)),
        Word::Number(u64::from(header.high)),
        Word::Bytes(header.factory.bytes()),
    ];
    put_line(alloc, out, b"omci 1", &words)
}

/// Appends an event's line.
#[tactic(auto, unfolding(script_spec::specs::Canonical::line_text))]
fn put_event(alloc: Global, out: &mut Vec<u8>, event: &Event) -> Result<(), NoMemory>
    ensures appended { OnOk result
        (out.new.items ≡ out.old.items ++ action_text (action_of event.now)) }
{
    match event {
        Event::Probe { lane } => put_on_lane(alloc, out, b"probe", *lane),
        Event::Reset { lane } => put_on_lane(alloc, out, b"reset", *lane),
        Event::Get { lane, entity, mask } => put_get(alloc, out, *lane, *entity, *mask),
        Event::Create {
            lane,
            entity,
            values,
        } => put_create(alloc, out, *lane, *entity, values.bytes()),
        Event::Set {
            lane,
            entity,
            mask,
            values,
        } => put_set(alloc, out, *lane, *entity, *mask, values.bytes()),
        Event::Delete { lane, entity } => put_delete(alloc, out, *lane, *entity),
        Event::Activate { lane, slot } => put_activate(alloc, out, *lane, *slot),
        Event::Commit { lane, slot } => put_commit(alloc, out, *lane, *slot),
        Event::Reboot { lane } => put_on_lane(alloc, out, b"reboot", *lane),
        Event::Resync => put(out, b"resync\n"),
        Event::Audit => put(out, b"audit\n"),
        Event::Check => put(out, b"check\n"),
        Event::Image {
            slot,
            window,
            crc,
            image,
        } => put_image(alloc, out, *slot, *window, *crc, image.bytes()),
        Event::Deliver { packet } => put_deliver(alloc, out, *packet),
        Event::Flow { times } => put_flow(alloc, out, u64::from(*times)),
        Event::CutIn { packet, call, pick } => put_cut_in(alloc, out, *packet, *call, *pick),
        Event::NoiseUnit { bytes } => put_noise_unit(alloc, out, bytes.bytes()),
        Event::NoiseOlt { bytes } => put_noise_olt(alloc, out, bytes.bytes()),
        Event::Tick => put(out, b"tick\n"),
        Event::Sense {
            entity,
            number,
            value,
        } => put_sense(alloc, out, *entity, *number, value.bytes()),
        Event::Alarm { entity, bitmap } => put_alarm(alloc, out, *entity, bitmap.bytes()),
        Event::CutUnit => put(out, b"cut unit\n"),
        Event::CutOlt => put(out, b"cut olt\n"),
        Event::StartUnit => put(out, b"start unit\n"),
        Event::StartOlt { low, high } => put_start_olt(alloc, out, *low, *high),
    }
}

/// Appends a line of a name and a lane.
fn put_on_lane(
    alloc: Global,
    out: &mut Vec<u8>,
    name: &[u8],
    lane: Priority,
) -> Result<(), NoMemory>
    ensures appended { OnOk result
        (out.new.items ≡ out.old.items ++ name.now ++ 32 ∷ lane_text lane ++ 10 ∷ []) }
{
    let words = [Word::Lane(lane)];
    put_line(alloc, out, name, &words)
}

/// Appends the line of an activate.
#[tactic(auto, unfolding(script_spec::specs::Canonical::line_text))]
fn put_activate(alloc: Global, out: &mut Vec<u8>, lane: Priority, slot: u8) -> Result<(), NoMemory>
    ensures appended { OnOk result
        (out.new.items ≡ out.old.items ++ action_text (spec.Activate lane slot)) }
{
    let words = [Word::Lane(lane), Word::Number(u64::from(slot))];
    put_line(alloc, out, b"activate", &words)
}

/// Appends the line of a commit.
#[tactic(auto, unfolding(script_spec::specs::Canonical::line_text))]
fn put_commit(alloc: Global, out: &mut Vec<u8>, lane: Priority, slot: u8) -> Result<(), NoMemory>
    ensures appended { OnOk result
        (out.new.items ≡ out.old.items ++ action_text (spec.Commit lane slot)) }
{
    let words = [Word::Lane(lane), Word::Number(u64::from(slot))];
    put_line(alloc, out, b"commit", &words)
}

/// Appends the line of a download.
#[tactic(auto, unfolding(script_spec::specs::Canonical::line_text))]
fn put_image(
    alloc: Global,
    out: &mut Vec<u8>,
    slot: u8,
    window: u16,
    check: Option<u32>,
    image: &[u8],
) -> Result<(), NoMemory>
    ensures appended { OnOk result
        (out.new.items ≡ out.old.items ++ action_text (spec.Image slot window check image.now)) }
{
    let words = [
        Word::Number(u64::from(slot)),
        Word::Number(u64::from(window)),
        Word::Check(check),
        Word::Bytes(image),
    ];
    put_line(alloc, out, b"image", &words)
}

/// Appends the line of a cut amid a delivery.
#[tactic(auto, unfolding(script_spec::specs::Canonical::line_text))]
fn put_cut_in(
    alloc: Global,
    out: &mut Vec<u8>,
    packet: u64,
    call: u64,
    pick: Pick,
) -> Result<(), NoMemory>
    ensures appended { OnOk result
        (out.new.items ≡ out.old.items ++ action_text (spec.CutIn packet call pick)) }
{
    let words = [Word::Number(packet), Word::Number(call), Word::Pick(pick)];
    put_line(alloc, out, b"cutin", &words)
}

/// Appends the line of a get.
#[tactic(auto, unfolding(script_spec::specs::Canonical::line_text))]
fn put_get(
    alloc: Global,
    out: &mut Vec<u8>,
    lane: Priority,
    entity: EntityId,
    mask: u16,
) -> Result<(), NoMemory>
    ensures appended { OnOk result
        (out.new.items ≡ out.old.items ++ action_text (spec.Get lane entity mask)) }
{
    let words = [
        Word::Lane(lane),
        Word::Number(u64::from(entity.class)),
        Word::Number(u64::from(entity.instance)),
        Word::Mask(mask),
    ];
    put_line(alloc, out, b"get", &words)
}

/// Appends the line of a create.
#[tactic(auto, unfolding(script_spec::specs::Canonical::line_text))]
fn put_create(
    alloc: Global,
    out: &mut Vec<u8>,
    lane: Priority,
    entity: EntityId,
    values: &[u8],
) -> Result<(), NoMemory>
    ensures appended { OnOk result
        (out.new.items ≡ out.old.items ++ action_text (spec.Create lane entity values.now)) }
{
    let words = [
        Word::Lane(lane),
        Word::Number(u64::from(entity.class)),
        Word::Number(u64::from(entity.instance)),
        Word::Bytes(values),
    ];
    put_line(alloc, out, b"create", &words)
}

/// Appends the line of a set.
#[tactic(auto, unfolding(script_spec::specs::Canonical::line_text))]
fn put_set(
    alloc: Global,
    out: &mut Vec<u8>,
    lane: Priority,
    entity: EntityId,
    mask: u16,
    values: &[u8],
) -> Result<(), NoMemory>
    ensures appended { OnOk result
        (out.new.items ≡ out.old.items ++ action_text (spec.Set lane entity mask values.now)) }
{
    let words = [
        Word::Lane(lane),
        Word::Number(u64::from(entity.class)),
        Word::Number(u64::from(entity.instance)),
        Word::Mask(mask),
        Word::Bytes(values),
    ];
    put_line(alloc, out, b"set", &words)
}

/// Appends the line of a delete.
#[tactic(auto, unfolding(script_spec::specs::Canonical::line_text))]
fn put_delete(
    alloc: Global,
    out: &mut Vec<u8>,
    lane: Priority,
    entity: EntityId,
) -> Result<(), NoMemory>
    ensures appended { OnOk result
        (out.new.items ≡ out.old.items ++ action_text (spec.Delete lane entity)) }
{
    let words = [
        Word::Lane(lane),
        Word::Number(u64::from(entity.class)),
        Word::Number(u64::from(entity.instance)),
    ];
    put_line(alloc, out, b"delete", &words)
}

/// Appends the line of a delivery.
#[tactic(auto, unfolding(script_spec::specs::Canonical::line_text))]
fn put_deliver(alloc: Global, out: &mut Vec<u8>, packet: u64) -> Result<(), NoMemory>
    ensures appended { OnOk result
        (out.new.items ≡ out.old.items ++ action_text (spec.Deliver packet)) }
{
    let words = [Word::Number(packet)];
    put_line(alloc, out, b"deliver", &words)
}

/// Appends the line of a flow.
#[tactic(auto, unfolding(script_spec::specs::Canonical::line_text))]
fn put_flow(alloc: Global, out: &mut Vec<u8>, times: u64) -> Result<(), NoMemory>
    ensures appended { OnOk result
        (out.new.items ≡ out.old.items ++ action_text (spec.Flow times)) }
{
    let words = [Word::Number(times)];
    put_line(alloc, out, b"flow", &words)
}

/// Appends the line of noise at the unit.
#[tactic(auto, unfolding(script_spec::specs::Canonical::line_text))]
fn put_noise_unit(alloc: Global, out: &mut Vec<u8>, bytes: &[u8]) -> Result<(), NoMemory>
    ensures appended { OnOk result
        (out.new.items ≡ out.old.items ++ action_text (spec.NoiseUnit bytes.now)) }
{
    let words = [Word::Bytes(bytes)];
    put_line(alloc, out, b"noise unit", &words)
}

/// Appends the line of noise at the manager.
#[tactic(auto, unfolding(script_spec::specs::Canonical::line_text))]
fn put_noise_olt(alloc: Global, out: &mut Vec<u8>, bytes: &[u8]) -> Result<(), NoMemory>
    ensures appended { OnOk result
        (out.new.items ≡ out.old.items ++ action_text (spec.NoiseOlt bytes.now)) }
{
    let words = [Word::Bytes(bytes)];
    put_line(alloc, out, b"noise olt", &words)
}

/// Appends the line of a measured value.
#[tactic(auto, unfolding(script_spec::specs::Canonical::line_text))]
fn put_sense(
    alloc: Global,
    out: &mut Vec<u8>,
    entity: EntityId,
    number: u8,
    value: &[u8],
) -> Result<(), NoMemory>
    ensures appended { OnOk result
        (out.new.items ≡ out.old.items ++ action_text (spec.Sense entity number value.now)) }
{
    let words = [
        Word::Number(u64::from(entity.class)),
        Word::Number(u64::from(entity.instance)),
        Word::Number(u64::from(number)),
        Word::Bytes(value),
    ];
    put_line(alloc, out, b"sense", &words)
}

/// Appends the line of an entity's alarms.
#[tactic(auto, unfolding(script_spec::specs::Canonical::line_text))]
fn put_alarm(
    alloc: Global,
    out: &mut Vec<u8>,
    entity: EntityId,
    bitmap: &[u8],
) -> Result<(), NoMemory>
    ensures appended { OnOk result
        (out.new.items ≡ out.old.items ++ action_text (spec.Alarm entity bitmap.now)) }
{
    let words = [
        Word::Number(u64::from(entity.class)),
        Word::Number(u64::from(entity.instance)),
        Word::Bytes(bitmap),
    ];
    put_line(alloc, out, b"alarm", &words)
}

/// Appends the line of a manager's start.
#[tactic(auto, unfolding(script_spec::specs::Canonical::line_text))]
fn put_start_olt(alloc: Global, out: &mut Vec<u8>, low: u16, high: u16) -> Result<(), NoMemory>
    ensures appended { OnOk result
        (out.new.items ≡ out.old.items ++ action_text (spec.StartOlt low high)) }
{
    let words = [Word::Number(u64::from(low)), Word::Number(u64::from(high))];
    put_line(alloc, out, b"start olt", &words)
}

/// A word after the name of a line.
#[derive(Clone, Copy)]
pub(crate) enum Word<'a> {
    Lane(Priority),
    Number(u64),
    Mask(u16),
    Check(Option<u32>),
    Pick(Pick),
    Bytes(&'a [u8]),
}

/// Appends a line of a name and these words.
fn put_line(
    alloc: Global,
    out: &mut Vec<u8>,
    name: &[u8],
    words: &[Word<'_>],
) -> Result<(), NoMemory>
    ensures appended { OnOk result
        (out.new.items ≡ out.old.items ++ name.now ++ words_text words.now) }
{
    put(out, name)?;
    put_words(alloc, out, words)?;
    put(out, b"\n")
}

/// Appends words, each after a space.
fn put_words(alloc: Global, out: &mut Vec<u8>, words: &[Word<'_>]) -> Result<(), NoMemory>
    ensures appended { OnOk result
        (out.new.items ≡ out.old.items ++ flat_map word_text words.now) }
{
    for word in words {
        put_word(alloc, out, word)?;
    }
    Ok(())
}

/// Appends a word after a space.
fn put_word(alloc: Global, out: &mut Vec<u8>, word: &Word<'_>) -> Result<(), NoMemory>
    ensures appended { OnOk result (out.new.items ≡ out.old.items ++ word_text word.now) }
{
    match word {
        Word::Lane(lane) => put_lane(out, *lane),
        Word::Number(number) => put_number(out, *number),
        Word::Mask(mask) => put_mask(out, *mask),
        Word::Check(check) => put_check(alloc, out, *check),
        Word::Pick(pick) => put_pick(out, *pick),
        Word::Bytes(bytes) => put_bytes(alloc, out, bytes),
    }
}

/// Appends a space and a check value, or `-` for none.
fn put_check(alloc: Global, out: &mut Vec<u8>, check: Option<u32>) -> Result<(), NoMemory>
    ensures appended { OnOk result (out.new.items ≡ out.old.items ++ 32 ∷ check_text check) }
{
    match check {
        None => put(out, b" -"),
        Some(check) => put_bytes(alloc, out, check.to_be_bytes().as_slice()),
    }
}

/// Appends a space and what a cut gives to each byte.
fn put_pick(out: &mut Vec<u8>, pick: Pick) -> Result<(), NoMemory>
    ensures appended { OnOk result (out.new.items ≡ out.old.items ++ 32 ∷ pick_text pick) }
{
    match pick {
        Pick::Old => put(out, b" old"),
        Pick::New => put(out, b" new"),
        Pick::Byte(byte) => {
            let mut digits = [0; 2];
            let _fits = hex::encode_to_slice([byte].as_slice(), &mut digits);
            put(out, b" ")?;
            put(out, &digits)
        }
    }
}

/// Appends a lane's name after a space.
fn put_lane(out: &mut Vec<u8>, lane: Priority) -> Result<(), NoMemory>
    ensures appended { OnOk result (out.new.items ≡ out.old.items ++ 32 ∷ lane_text lane) }
{
    match lane {
        Priority::Low => put(out, b" low"),
        Priority::High => put(out, b" high"),
    }
}

/// Appends a number in decimal after a space.
fn put_number(out: &mut Vec<u8>, number: u64) -> Result<(), NoMemory>
    ensures appended { OnOk result (out.new.items ≡ out.old.items ++ 32 ∷ decimal number) }
{
    let mut digits = Buffer::new();
    put(out, b" ")?;
    put(out, digits.format(number).as_bytes())?;
    Ok(())
}

/// Appends a mask's four hex digits after a space.
fn put_mask(out: &mut Vec<u8>, mask: u16) -> Result<(), NoMemory>
    ensures appended { OnOk result
        (out.new.items ≡ out.old.items ++ 32 ∷ encode_lower (to_be_bytes w16 mask)) }
{
    let mut digits = [0; 4];
    let _fits = hex::encode_to_slice(mask.to_be_bytes().as_slice(), &mut digits);
    put(out, b" ")?;
    put(out, &digits)?;
    Ok(())
}

/// Appends bytes in hex after a space, and `-` where there is none.
fn put_bytes(alloc: Global, out: &mut Vec<u8>, bytes: &[u8]) -> Result<(), NoMemory>
    ensures appended { OnOk result (out.new.items ≡ out.old.items ++ 32 ∷ hex_text bytes.now) }
{
    if bytes.is_empty() {
        return put(out, b" -");
    }
    let digits = hex::encode(alloc, bytes)?;
    put(out, b" ")?;
    put(out, digits.as_bytes())?;
    Ok(())
}

/// Appends bytes.
fn put(out: &mut Vec<u8>, text: &[u8]) -> Result<(), NoMemory>
    ensures appended { OnOk result (out.new.items ≡ out.old.items ++ text.now) }
{
    out.extend_from_slice(text)?;
    Ok(())
}
