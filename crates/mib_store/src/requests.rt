//! What each request does to the table.

ghost use Rattle.std.specs.Prelude.{◌≡◌, ◌≢◌, ◌≤◌, ◌==◌, ◌&&◌, OnOk, OnErr, IfOk, IsErr, bytes_eq};
ghost use Rattle.std.specs.Prelude.{length, take, if◌then◌else◌};
ghost use Rattle.mib_spec.specs.Database.{with_counter_grown, with_software};
ghost use Rattle.mib_spec.specs.Requests.{create_outcome, create_code, delete_outcome, set_outcome};
ghost use Rattle.mib_spec.specs.Requests.{get_outcome, reset, sense_outcome, is_counter_set};
ghost use Rattle.mib_store.specs.Entries.{database_of, keys_of, IsAscending, IsTable};

use crate::admit::{admit, admit_create, admit_delete, admit_sense};
use crate::answers::{GetAnswer, SetAnswer};
use crate::entry::{Entry, ROOM};
use crate::first::{first_entries, image_of};
use crate::layout::{Chosen, gather, with_chosen};
use crate::table::{Table, grow, put_values, values_of};
use class_spec::{CREATE_ROOM, GET_ROOM, ONU_DATA, SET_ROOM};
use mib_spec::Sensed;
use omci_attributes::{Mask, Selection, select};
use omci_core::NoMemory;
use omci_types::{Code, EntityId, Software};

const FIRST_IMAGE: EntityId = EntityId {
    class: 7,
    instance: 0,
};

const SECOND_IMAGE: EntityId = EntityId {
    class: 7,
    instance: 1,
};

pub(crate) fn create_in(
    table: &mut Table,
    entity: EntityId,
    values: &[u8; CREATE_ROOM],
) -> Result<Code, NoMemory>
    requires { IsTable (keys_of table.old) }
    ensures code { IfOk result
        (λ code. code.0 ≡ (create_outcome entity values.now (database_of table.old)).0) }
    ensures ok { OnOk result
        (database_of table.new ≡ (create_outcome entity values.now (database_of table.old)).1) }
    ensures kept { IfOk result
        (λ code. code.0 ≢ 0 → database_of table.new ≡ database_of table.old) }
    ensures err { OnErr result (database_of table.new ≡ database_of table.old) }
    ensures room { IsErr result → create_code entity (database_of table.old) ≡ 0 }
    ensures table { IsTable (keys_of table.new) }
{
    let admitted = match admit_create(table, entity) {
        Ok(admitted) => admitted,
        Err(code) => return Ok(code),
    };
    let values = with_chosen(&admitted.class, Chosen::Created, values, &[0; ROOM]);
    table.insert(admitted.at, Entry { entity, values })?;
    grow(table);
    Ok(Code::SUCCESS)
}

pub(crate) fn delete_in(table: &mut Table, entity: EntityId) -> Code
    requires { IsTable (keys_of table.old) }
    ensures code { result.0 ≡ (delete_outcome entity (database_of table.old)).0 }
    ensures database { database_of table.new ≡ (delete_outcome entity (database_of table.old)).1 }
    ensures kept { result.0 ≢ 0 → database_of table.new ≡ database_of table.old }
    ensures table { IsTable (keys_of table.new) }
{
    match admit_delete(table, entity) {
        Ok(at) => {
            table.remove(at, entity);
            grow(table);
            Code::SUCCESS
        }
        Err(code) => code,
    }
}

pub(crate) fn set_in(
    table: &mut Table,
    entity: EntityId,
    mask: Mask,
    values: &[u8; SET_ROOM],
) -> SetAnswer
    requires { IsAscending (keys_of table.old) }
    ensures code { result.code.0
        ≡ (set_outcome entity mask.0 values.now (database_of table.old)).code }
    ensures unsupported { result.unsupported.0
        ≡ (set_outcome entity mask.0 values.now (database_of table.old)).unsupported }
    ensures failed { result.failed.0
        ≡ (set_outcome entity mask.0 values.now (database_of table.old)).failed }
    ensures database { database_of table.new
        ≡ (set_outcome entity mask.0 values.now (database_of table.old)).database }
    ensures kept { result.code.0 ≢ 0 → database_of table.new ≡ database_of table.old }
    ensures keys { keys_of table.new ≡ keys_of table.old }
{
    let none = SetAnswer {
        code: Code::SUCCESS,
        unsupported: Mask(0),
        failed: Mask(0),
    };
    let admitted = match admit(table, entity) {
        Ok(admitted) => admitted,
        Err(code) => return SetAnswer { code, ..none },
    };
    let selection = select(&admitted.class, mask);
    if !is_storable(&selection) {
        return SetAnswer {
            code: Code::ATTRIBUTES_FAILED,
            unsupported: selection.unknown,
            failed: selection.fixed,
        };
    }
    if selection.width > SET_ROOM {
        return SetAnswer {
            code: Code::PARAMETER_ERROR,
            ..none
        };
    }
    let before = table.values(admitted.at);
    let after = with_chosen(&admitted.class, Chosen::Named(mask), values, &before);
    table.write(admitted.at, entity, after);
    settle(table, is_counter_set(entity, mask));
    none
}

/// Whether each named attribute is there and may be written.
fn is_storable(selection: &Selection) -> bool
    ensures { result ≡ (selection.now.unknown.0 == 0 && selection.now.fixed.0 == 0) }
{
    selection.unknown.0 == 0 && selection.fixed.0 == 0
}

/// The counter grows, but where it was given its value.
fn settle(table: &mut Table, given: bool)
    requires { IsAscending (keys_of table.old) }
    ensures settled { database_of table.new
        ≡ (if given then database_of table.old else with_counter_grown (database_of table.old)) }
    ensures keys { keys_of table.new ≡ keys_of table.old }
{
    if !given {
        grow(table);
    }
}

/// Whether a set gives the counter its value.
pub fn is_counter_set(entity: EntityId, mask: Mask) -> bool
    ensures { result ≡ is_counter_set entity mask.0 }
{
    entity == ONU_DATA && mask.has(1)
}

pub(crate) fn get_in(table: &Table, entity: EntityId, mask: Mask) -> GetAnswer
    requires { IsAscending (keys_of table.now) }
    ensures code { result.code.0
        ≡ (get_outcome entity mask.0 (database_of table.now)).code }
    ensures mask { result.mask.0
        ≡ (get_outcome entity mask.0 (database_of table.now)).mask }
    ensures values { result.values
        ≡ (get_outcome entity mask.0 (database_of table.now)).values }
    ensures unsupported { result.unsupported.0
        ≡ (get_outcome entity mask.0 (database_of table.now)).unsupported }
{
    let none = GetAnswer {
        code: Code::SUCCESS,
        mask: Mask(0),
        values: [0; GET_ROOM],
        unsupported: Mask(0),
    };
    let admitted = match admit(table, entity) {
        Ok(admitted) => admitted,
        Err(code) => return GetAnswer { code, ..none },
    };
    let selection = select(&admitted.class, mask);
    if selection.width > GET_ROOM {
        return GetAnswer {
            code: Code::PARAMETER_ERROR,
            ..none
        };
    }
    let before = table.values(admitted.at);
    let values = gather(&admitted.class, Chosen::Named(mask), &before);
    if selection.unknown.0 == 0 {
        return GetAnswer {
            mask: selection.known,
            values,
            ..none
        };
    }
    GetAnswer {
        code: Code::ATTRIBUTES_FAILED,
        mask: selection.known,
        values,
        unsupported: selection.unknown,
    }
}

pub(crate) fn reset_in(table: &mut Table)
    requires { IsTable (keys_of table.old) }
    ensures reset { database_of table.new ≡ reset (database_of table.old) }
    ensures table { IsTable (keys_of table.new) }
{
    let first = values_of(table, FIRST_IMAGE);
    let second = values_of(table, SECOND_IMAGE);
    let made = first_entries(first, second);
    table.refill(&made);
}

pub(crate) fn software_in(table: &mut Table, software: &Software)
    requires { IsAscending (keys_of table.old) }
    ensures software { database_of table.new ≡ with_software software.now (database_of table.old) }
    ensures keys { keys_of table.new ≡ keys_of table.old }
{
    put_values(table, FIRST_IMAGE, image_of(0, software));
    put_values(table, SECOND_IMAGE, image_of(1, software));
}

pub(crate) fn sense_in(table: &mut Table, entity: EntityId, number: u8, value: &[u8]) -> Sensed
    requires { IsAscending (keys_of table.old) }
    ensures sensed { result ≡ (sense_outcome entity number value.now (database_of table.old)).0 }
    ensures database { database_of table.new
        ≡ (sense_outcome entity number value.now (database_of table.old)).1 }
    ensures keys { keys_of table.new ≡ keys_of table.old }
{
    let Some(admitted) = admit_sense(table, entity, number, value) else {
        return Sensed::NotAllowed;
    };
    let before = table.values(admitted.at);
    let held = gather(&admitted.class, Chosen::Only(number), &before);
    if begins_with(&held, value) {
        return Sensed::Same;
    }
    let after = with_chosen(&admitted.class, Chosen::Only(number), value, &before);
    table.write(admitted.at, entity, after);
    Sensed::Changed
}

/// Whether the held value, which has zeros after it, is this one.
fn begins_with(held: &[u8; GET_ROOM], value: &[u8]) -> bool
    requires { length value.now ≤ GET_ROOM }
    ensures { result ≡ bytes_eq (take (length value.now) held.now) value.now }
{
    &held[..value.len()] == value
}
