//! The unit's database, and what requests do to it.

ghost use Rattle.std.specs.Prelude.{◌≡◌, ◌≢◌, ◌≤◌, true, length, IfOk, OnOk, IsErr};
ghost use Rattle.message_spec.specs.declared.Response.TheVariants as response;
ghost use Rattle.class_spec.specs.declared.TheConstants.{SET_ROOM};
ghost use Rattle.mib_spec.specs.declared.Sensed.TheVariants.{Changed};
ghost use Rattle.mib_spec.specs.Database.{first, with_software, with_counter_grown};
ghost use Rattle.mib_spec.specs.Requests.{unless_refused, create_code, create_outcome};
ghost use Rattle.mib_spec.specs.Requests.{delete_outcome, set_outcome, get_outcome, reset_code};
ghost use Rattle.mib_spec.specs.Requests.{reset as reset_of, sense_outcome};
ghost use Rattle.unit_spec.specs.Onu.{code};
ghost use Rattle.unit_spec.specs.Noticing.{has_alarms, may_alarm};
ghost use Rattle.unit_laws.specs.Own.{may_have};

use class_spec::{CREATE_ROOM, ONU_DATA};
use entity_classes::class;
use mib_spec::Sensed;
use mib_store::{Mask, Mib};
use omci_contents::Response;
use omci_core::{Code, EntityId, NoMemory, Software};
use std::alloc::Global;
use std::marker::Model;
use unit_spec::ONU_G;

/// The class of PPTP Ethernet UNI.
const ETHERNET_UNI: u16 = 11;

/// The class of T-CONT.
const T_CONT: u16 = 262;

/// The database. Of the classes that the unit makes, it has no other entities than those of its
/// start.
#[derive(Drop)]
pub struct Store {
    mib: Mib,
}

impl Model for Store {
    ghost use Rattle.mib_spec.specs.Database.{Database};
    ghost use Rattle.mib_laws.specs.Made.{HoldsOnlyMade};

    ghost Value = { Database };

    ghost view = { λ s. s.mib };

    ghost invariant = { λ s. HoldsOnlyMade s.mib };
}

impl Store {
    /// The first database, with this software.
    pub fn start(alloc: Global, software: Software) -> Result<Store, NoMemory>
        ensures first { IfOk result (λ s. s ≡ first software) }
    {
        Ok(Store {
            mib: Mib::new(alloc, software)?,
        })
    }

    /// The database as it is read.
    pub fn mib(&self) -> &Mib
        ensures value { result.now ≡ self.now }
    {
        &self.mib
    }

    /// Makes an entity. It takes memory where the code would be 0.
    pub fn create(
        &mut self,
        entity: EntityId,
        values: &[u8; CREATE_ROOM],
    ) -> Result<Response, NoMemory>
        ensures response { IfOk result (λ r. r
            ≡ response.Create (code (create_outcome entity values.now self.old).0) 0) }
        ensures after { OnOk result (self.new ≡ (create_outcome entity values.now self.old).1) }
        ensures room { IsErr result → create_code entity self.old ≡ 0 }
    {
        let code = self.mib.create(entity, values)?;
        Ok(Response::Create { code, mask: 0 })
    }

    /// Removes an entity.
    pub fn delete(&mut self, entity: EntityId) -> Response
        ensures response { result ≡ response.Delete (code (delete_outcome entity self.old).0) }
        ensures after { self.new ≡ (delete_outcome entity self.old).1 }
    {
        Response::Delete {
            code: self.mib.delete(entity),
        }
    }

    /// Stores values.
    pub fn set(&mut self, entity: EntityId, mask: u16, values: &[u8; 30]) -> Response
        ensures response { result ≡ (let o = set_outcome entity mask values.now self.old in
            response.Set (code o.code) o.unsupported o.failed) }
        ensures after { self.new ≡ (set_outcome entity mask values.now self.old).database }
    {
        let done = self.mib.set(entity, Mask(mask), values);
        Response::Set {
            code: done.code,
            unsupported: done.unsupported.0,
            failed: done.failed.0,
        }
    }

    /// Reads values.
    pub fn get(&self, entity: EntityId, mask: u16) -> Response
        ensures response { result ≡ (let o = get_outcome entity mask self.now in
            response.Get (code o.code) o.mask o.values o.unsupported 0) }
    {
        let found = self.mib.get(entity, Mask(mask));
        let values = found.values;
        Response::Get {
            code: found.code,
            mask: found.mask.0,
            values,
            unsupported: found.unsupported.0,
            failed: 0,
        }
    }

    /// Makes the database the first one, where the entity is ONU data 0.
    #[tactic(auto, unfolding(mib_spec::specs::Requests::reset_code))]
    pub fn reset(&mut self, entity: EntityId) -> Code
        ensures code { result.0 ≡ reset_code entity }
        ensures after { self.new ≡ unless_refused (reset_code entity) (reset_of self.old) self.old }
    {
        if class(entity.class).is_none() {
            return Code::UNKNOWN_CLASS;
        }
        if entity.class != ONU_DATA.class {
            return Code::NOT_SUPPORTED;
        }
        if entity.instance != 0 {
            return Code::UNKNOWN_INSTANCE;
        }
        self.mib.reset();
        Code::SUCCESS
    }

    /// The counter grows, and the software images are shown so from now on.
    pub fn count(&mut self, software: Software)
        ensures counted { self.new ≡ with_counter_grown (with_software software self.old) }
    {
        self.mib.software(software);
        self.mib.grow();
    }

    /// Takes a value that the unit measured. A change has an attribute's number, and fits a notice.
    pub fn sense(&mut self, entity: EntityId, number: u8, value: &[u8]) -> Sensed
        ensures sensed { result ≡ (sense_outcome entity number value.now self.old).0 }
        ensures after { self.new ≡ (sense_outcome entity number value.now self.old).1 }
        ensures kept { result ≢ Changed → self.new ≡ self.old }
        ensures number { result ≡ Changed → (1 ≤ number) × (number ≤ 16) }
        ensures fits { result ≡ Changed → length value.now ≤ SET_ROOM }
    {
        self.mib.sense(entity, number, value)
    }

    /// Whether the entity is there and may have alarms.
    pub fn may_alarm(&self, entity: EntityId) -> bool
        ensures value { result ≡ may_alarm entity self.now }
        ensures own { result ≡ true → may_have entity ≡ true }
    {
        has_alarms(entity.class) && self.mib.get(entity, Mask(0)).code != Code::UNKNOWN_INSTANCE
    }
}

/// Whether entities of the class have alarms.
fn has_alarms(class: u16) -> bool
    ensures value { result ≡ has_alarms class }
{
    class == ETHERNET_UNI || class == ONU_G.class || class == T_CONT
}
