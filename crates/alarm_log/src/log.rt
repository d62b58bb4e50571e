//! The unit's alarms, and their snapshots.

ghost use Rattle.std.specs.Prelude.{◌≡◌, ◌<◌, ◌≤◌, false, length, IfOk, OnOk, OnErr, IsErr};
ghost use Rattle.mib_spec.specs.declared.TheConstants.{MOST_ENTITIES};
ghost use Rattle.alarm_spec.specs.Alarms.{is_clear, is_raised, row_at, IsWhole};
ghost use Rattle.alarm_spec.specs.Log.{new_log, alarm_number_after, change};
ghost use Rattle.alarm_spec.specs.Log.{after_snapshot};

use crate::row::row_of;
use crate::rows::Rows;
use alarm_spec::{BITMAP_BYTES, LAST_ALARM_NUMBER, ROW_BYTES};
use message_spec::Notice;
use mib_spec::MOST_ENTITIES;
use omci_core::NoMemory;
use omci_types::EntityId;
use std::alloc::Global;
use std::marker::Model;

/// The number after this one: 1 after 0 and after 255.
pub(crate) fn alarm_number_after(number: u8) -> u8
    ensures { result ≡ alarm_number_after number }
{
    if number == LAST_ALARM_NUMBER {
        1
    } else {
        number + 1
    }
}

/// The alarms of a unit's entities, and the number of the last notice. The unit holds it; `change`
/// and `snapshot` change it and take memory.
#[derive(Drop)]
pub struct AlarmLog {
    rows: Rows,
    number: u8,
}

impl Model for AlarmLog {
    ghost use Rattle.std.specs.Prelude.{◌≤◌, length};
    ghost use Rattle.mib_spec.specs.declared.TheConstants.{MOST_ENTITIES};
    ghost use Rattle.alarm_spec.specs.Alarms.{IsWhole};
    ghost use Rattle.alarm_spec.specs.Log.{Log};

    ghost Value = { Log };

    ghost view = { λ l. record { alarms = l.rows; number = l.number } };

    ghost invariant = { λ l. IsWhole l.rows × (length l.rows ≤ MOST_ENTITIES) };
}

impl AlarmLog {
    /// No entity has an alarm, and no notice was given. It takes no memory.
    pub fn new(alloc: Global) -> AlarmLog
        ensures { result ≡ new_log }
    {
        AlarmLog {
            rows: Rows::new(alloc),
            number: 0,
        }
    }

    /// How many entities there are whose bitmap is held: those that have an alarm.
    pub fn len(&self) -> usize
        ensures count { result ≡ length self.now.alarms }
        ensures most { result ≤ MOST_ENTITIES }
        ensures whole { IsWhole self.now.alarms }
    {
        self.rows.len()
    }

    /// The number of the last notice, 0 where none was given since the last snapshot.
    pub fn number(&self) -> u8
        ensures { result ≡ self.now.number }
    {
        self.number
    }

    /// The entity has this bitmap from now on, and the answer is the notice of it; None exactly
    /// where its bitmap is this one already, where nothing changes. An entity of which none is held
    /// has the clear one. It takes memory for an entity that has its first alarm; where there is
    /// none, nothing has changed. Fewer than 4,096 bitmaps are held.
    #[tactic(auto, unfolding(alarm_spec::specs::Log::change))]
    pub fn change(
        &mut self,
        entity: EntityId,
        bitmap: [u8; BITMAP_BYTES],
    ) -> Result<Option<Notice>, NoMemory>
        requires { length self.old.alarms < MOST_ENTITIES }
        ensures notice { IfOk result
            (λ notice. notice ≡ (change entity bitmap self.old).notice) }
        ensures log { OnOk result (self.new ≡ (change entity bitmap self.old).log) }
        ensures err { OnErr result (self.new ≡ self.old) }
        ensures memory { IsErr result
            → (is_raised entity self.old.alarms ≡ false) × (is_clear bitmap ≡ false) }
    {
        if self.rows.bitmap(entity) == bitmap {
            return Ok(None);
        }
        self.rows.tell(entity, bitmap)?;
        self.number = alarm_number_after(self.number);
        Ok(Some(Notice::Alarm {
            bitmap,
            number: self.number,
        }))
    }

    /// A copy of the alarms. The next notice has the number 1. Without memory for the copy nothing
    /// has changed.
    pub fn snapshot(&mut self) -> Result<AlarmSnapshot, NoMemory>
        ensures alarms { IfOk result (λ snapshot. snapshot ≡ self.old.alarms) }
        ensures log { OnOk result (self.new ≡ after_snapshot self.old) }
        ensures err { OnErr result (self.new ≡ self.old) }
    {
        let rows = self.rows.copy()?;
        self.number = 0;
        Ok(AlarmSnapshot { rows })
    }
}

/// The alarms as they were at one moment, read row by row. The unit holds it between a get of all
/// alarms and the last of its rows; nothing changes it, and its calls take no memory.
#[derive(Drop)]
pub struct AlarmSnapshot {
    rows: Rows,
}

impl Model for AlarmSnapshot {
    ghost use Rattle.std.specs.Prelude.{◌≤◌, length};
    ghost use Rattle.mib_spec.specs.declared.TheConstants.{MOST_ENTITIES};
    ghost use Rattle.alarm_spec.specs.Alarms.{Alarms, IsWhole};

    ghost Value = { Alarms };

    ghost view = { λ s. s.rows };

    ghost invariant = { λ s. IsWhole s.rows × (length s.rows ≤ MOST_ENTITIES) };
}

impl AlarmSnapshot {
    /// How many rows there are.
    pub fn count(&self) -> u16
        ensures count { result ≡ length self.now }
        ensures most { result ≤ MOST_ENTITIES }
        ensures whole { IsWhole self.now }
    {
        self.rows.len() as u16
    }

    /// The row of this number, counted from 0 in ascending order of the entity: class, instance and
    /// bitmap. None exactly where the number is the count or above.
    #[tactic(auto, unfolding(alarm_spec::specs::Alarms::row_at))]
    pub fn row(&self, number: u16) -> Option<[u8; ROW_BYTES]>
        ensures { result ≡ row_at number self.now }
    {
        if number as usize >= self.rows.len() {
            return None;
        }
        let (entity, bitmap) = self.rows.alarm(number as usize);
        Some(row_of(entity, &bitmap))
    }
}
