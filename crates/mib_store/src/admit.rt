//! Whether a request may be carried out: its conditions in order.

ghost use Rattle.std.specs.Prelude.{◌≡◌, ◌==◌, false, length, IfOk, IfErr, MatchOption};
ghost use Rattle.mib_spec.specs.Database.{is_by_unit};
ghost use Rattle.mib_spec.specs.Requests.{create_code, delete_code, may_sense};
ghost use Rattle.mib_store.specs.Entries.{database_of, keys_of, IsAscending};
ghost use Rattle.mib_store.specs.Admitted.{AdmitsCreate, AdmitsDelete, Admits, IsRefused};
ghost use Rattle.mib_store.specs.Admitted.{AdmitsSense};

use crate::table::Table;
use bitflags::Flags;
use entity_classes::{Access, Class, Maker, class};
use mib_spec::MOST_ENTITIES;
use omci_types::{Code, EntityId};

/// The class of an admitted entity, and its place in the table or the place where it would go.
#[derive(Clone, Copy, Debug)]
pub(crate) struct Admitted {
    pub(crate) class: Class,
    pub(crate) at: usize,
}

pub(crate) fn admit_create(table: &Table, entity: EntityId) -> Result<Admitted, Code>
    requires { IsAscending (keys_of table.now) }
    ensures ok { IfOk result (AdmitsCreate table.now entity) }
    ensures refused { IfErr result (λ code. create_code entity (database_of table.now) ≡ code.0) }
    ensures fails { IfErr result (λ code. (code.0 == 0) ≡ false) }
{
    let Some(class) = class(entity.class) else {
        return Err(Code::UNKNOWN_CLASS);
    };
    if is_unit_made(&class) {
        return Err(Code::NOT_SUPPORTED);
    }
    let at = match table.find(entity) {
        Ok(_) => return Err(Code::INSTANCE_EXISTS),
        Err(at) => at,
    };
    if table.len() >= MOST_ENTITIES {
        return Err(Code::PROCESSING_ERROR);
    }
    Ok(Admitted { class, at })
}

pub(crate) fn admit_delete(table: &Table, entity: EntityId) -> Result<usize, Code>
    requires { IsAscending (keys_of table.now) }
    ensures ok { IfOk result (AdmitsDelete table.now entity) }
    ensures refused { IfErr result (λ code. delete_code entity (database_of table.now) ≡ code.0) }
    ensures fails { IfErr result (λ code. (code.0 == 0) ≡ false) }
{
    let Some(class) = class(entity.class) else {
        return Err(Code::UNKNOWN_CLASS);
    };
    if is_unit_made(&class) {
        return Err(Code::NOT_SUPPORTED);
    }
    match table.find(entity) {
        Ok(at) => Ok(at),
        Err(_) => Err(Code::UNKNOWN_INSTANCE),
    }
}

/// An entity that is there, for a get or a set.
pub(crate) fn admit(table: &Table, entity: EntityId) -> Result<Admitted, Code>
    requires { IsAscending (keys_of table.now) }
    ensures ok { IfOk result (Admits table.now entity) }
    ensures refused { IfErr result (λ code. IsRefused (database_of table.now) entity code.0) }
{
    let Some(class) = class(entity.class) else {
        return Err(Code::UNKNOWN_CLASS);
    };
    match table.find(entity) {
        Ok(at) => Ok(Admitted { class, at }),
        Err(_) => Err(Code::UNKNOWN_INSTANCE),
    }
}

/// The attribute of an entity that the unit may measure: of neither class 2 nor class 7, not to be
/// written, and of this width.
pub(crate) fn admit_sense(
    table: &Table,
    entity: EntityId,
    number: u8,
    value: &[u8],
) -> Option<Admitted>
    requires { IsAscending (keys_of table.now) }
    ensures { MatchOption result
        (may_sense entity number value.now (database_of table.now) ≡ false)
        (AdmitsSense table.now entity number value.now) }
{
    if entity.class == 2 {
        return None;
    }
    if entity.class == 7 {
        return None;
    }
    let Some(class) = class(entity.class) else {
        return None;
    };
    let Some(attribute) = class.attribute(number) else {
        return None;
    };
    if attribute.access.contains(Access::WRITE) {
        return None;
    }
    if attribute.width as usize != value.len() {
        return None;
    }
    match table.find(entity) {
        Ok(at) => Some(Admitted { class, at }),
        Err(_) => None,
    }
}

fn is_unit_made(class: &Class) -> bool
    ensures { result ≡ is_by_unit class.now.maker }
{
    match class.maker() {
        Maker::Unit => true,
        Maker::Manager => false,
    }
}
