//! Entities with their bitmaps, in ascending order of the entity.

ghost use Rattle.std.specs.Prelude.{◌≡◌, ◌<◌, ◌^◌, false, [], length, IfOk, IfErr, OnOk};
ghost use Rattle.std.specs.Prelude.{OnErr, IsErr};
ghost use Rattle.alarm_spec.specs.Alarms.{is_clear, bitmap_of, is_raised, with_alarm};
ghost use Rattle.alarm_spec.specs.Alarms.{without_alarm, with_bitmap, IsAscending};
ghost use Rattle.alarm_log.specs.Places.{alarm_at, IsAt, IsGap};

use alarm_spec::BITMAP_BYTES;
use omci_core::NoMemory;
use omci_types::EntityId;
use std::alloc::Global;
use std::marker::Model;

/// An entity with its bitmap.
pub(crate) type Alarm = (EntityId, [u8; BITMAP_BYTES]);

/// The bitmap of an entity without an alarm.
const CLEAR: [u8; BITMAP_BYTES] = [0; BITMAP_BYTES];

/// Entities with their bitmaps in ascending order of the entity, each once. The log, its snapshots
/// and the table hold them; a new entity and a copy take memory.
#[derive(Drop)]
pub(crate) struct Rows {
    items: Vec<Alarm>,
}

impl Model for Rows {
    ghost use Rattle.alarm_spec.specs.Alarms.{Alarms, IsAscending};

    ghost Value = { Alarms };

    ghost view = { λ r. r.items.items };

    ghost invariant = { λ r. IsAscending r.items.items };
}

impl Rows {
    /// No entity.
    pub(crate) fn new(alloc: Global) -> Rows
        ensures { result ≡ [] }
    {
        Rows {
            items: Vec::new(alloc),
        }
    }

    /// How many entities there are.
    pub(crate) fn len(&self) -> usize
        ensures count { result ≡ length self.now }
        ensures ascending { IsAscending self.now }
    {
        self.items.len()
    }

    /// The entity in this place with its bitmap.
    pub(crate) fn alarm(&self, place: usize) -> Alarm
        requires { place < length self.now }
        ensures { result ≡ alarm_at self.now place }
    {
        self.items[place]
    }

    /// The place of the entity, or the place where it would go.
    fn find(&self, entity: EntityId) -> Result<usize, usize>
        ensures found { IfOk result (IsAt self.now entity) }
        ensures absent { IfErr result (IsGap self.now entity) }
    {
        self.items.binary_search_by_key(&entity, |alarm| alarm.0)
    }

    /// The entity's bitmap, the clear one where it isn't there.
    pub(crate) fn bitmap(&self, entity: EntityId) -> [u8; BITMAP_BYTES]
        ensures { result ≡ bitmap_of entity self.now }
    {
        match self.find(entity) {
            Ok(at) => self.items[at].1,
            Err(_) => CLEAR,
        }
    }

    /// Whether the entity is there.
    pub(crate) fn has(&self, entity: EntityId) -> bool
        ensures { result ≡ is_raised entity self.now }
    {
        self.find(entity).is_ok()
    }

    /// The entity has this bitmap from now on. It takes memory where the entity isn't there.
    pub(crate) fn put(
        &mut self,
        entity: EntityId,
        bitmap: [u8; BITMAP_BYTES],
    ) -> Result<(), NoMemory>
        ensures ok { OnOk result (self.new ≡ with_alarm entity bitmap self.old) }
        ensures err { OnErr result (self.new ≡ self.old) }
        ensures memory { IsErr result → is_raised entity self.old ≡ false }
    {
        match self.find(entity) {
            Ok(at) => self.items[at] = (entity, bitmap),
            Err(at) => self.items.insert(at, (entity, bitmap))?,
        }
        Ok(())
    }

    /// The entity is not there from now on.
    fn remove(&mut self, entity: EntityId)
        ensures { self.new ≡ without_alarm entity self.old }
    {
        if let Ok(at) = self.find(entity) {
            let _alarm = self.items.remove(at);
        }
    }

    /// The entity has this bitmap from now on; with a clear one it is not there. The last two
    /// clauses hand on what the types of the arguments say.
    #[tactic(auto, unfolding(alarm_spec::specs::Alarms::with_bitmap))]
    pub(crate) fn tell(
        &mut self,
        entity: EntityId,
        bitmap: [u8; BITMAP_BYTES],
    ) -> Result<(), NoMemory>
        ensures ok { OnOk result (self.new ≡ with_bitmap entity bitmap self.old) }
        ensures err { OnErr result (self.new ≡ self.old) }
        ensures memory { IsErr result
            → (is_raised entity self.old ≡ false) × (is_clear bitmap ≡ false) }
        ensures numbers { (entity.class < 2 ^ 16) × (entity.instance < 2 ^ 16) }
        ensures bytes { length bitmap ≡ BITMAP_BYTES }
    {
        if bitmap == CLEAR {
            self.remove(entity);
            return Ok(());
        }
        self.put(entity, bitmap)?;
        Ok(())
    }

    /// Takes every entity away.
    pub(crate) fn clear(&mut self)
        ensures { self.new ≡ [] }
    {
        self.items.clear();
    }

    /// The same entities with their bitmaps, in memory of their own.
    pub(crate) fn copy(&self) -> Result<Rows, NoMemory>
        ensures { IfOk result (λ copy. copy ≡ self.now) }
    {
        Ok(Rows {
            items: self.items.clone()?,
        })
    }
}
