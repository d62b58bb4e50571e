//! The alarms of the unit's entities.

ghost use Rattle.std.specs.Prelude.{◌≡◌, ◌≤◌, true, false, length, IfOk, OnOk, IsErr};
ghost use Rattle.alarm_spec.specs.Alarms.{is_clear, is_raised};
ghost use Rattle.alarm_spec.specs.Log.{new_log, change, after_snapshot};
ghost use Rattle.unit_laws.specs.Own.{may_have};

use alarm_log::{AlarmLog, AlarmSnapshot};
use alarm_spec::BITMAP_BYTES;
use omci_contents::Notice;
use omci_core::{EntityId, NoMemory};
use std::alloc::Global;
use std::marker::Model;

/// The log of alarms, of entities that may have some: at most seven.
#[derive(Drop)]
pub struct Alarms {
    log: AlarmLog,
}

impl Model for Alarms {
    ghost use Rattle.alarm_spec.specs.Log.{Log};
    ghost use Rattle.unit_laws.specs.Own.{AreOwn};

    ghost Value = { Log };

    ghost view = { λ a. a.log };

    ghost invariant = { λ a. AreOwn a.log.alarms };
}

impl Alarms {
    /// No entity has an alarm.
    pub fn new(alloc: Global) -> Alarms
        ensures value { result ≡ new_log }
    {
        Alarms {
            log: AlarmLog::new(alloc),
        }
    }

    /// How many entities have an alarm.
    pub fn len(&self) -> usize
        ensures count { result ≡ length self.now.alarms }
        ensures most { result ≤ 7 }
    {
        self.log.len()
    }

    /// The entity's alarms are these from now on. The notice of it is none where they were these
    /// before. It takes memory for an entity that has its first alarm.
    pub fn change(
        &mut self,
        entity: EntityId,
        bitmap: [u8; BITMAP_BYTES],
    ) -> Result<Option<Notice>, NoMemory>
        requires may { may_have entity ≡ true }
        ensures notice { IfOk result (λ n. n ≡ (change entity bitmap self.old).notice) }
        ensures after { OnOk result (self.new ≡ (change entity bitmap self.old).log) }
        ensures memory { IsErr result
            → (is_raised entity self.old.alarms ≡ false) × (is_clear bitmap ≡ false) }
    {
        self.log.change(entity, bitmap)
    }

    /// A copy of the alarms. The next notice has the number 1.
    pub fn snapshot(&mut self) -> Result<AlarmSnapshot, NoMemory>
        ensures value { IfOk result (λ s. s ≡ self.old.alarms) }
        ensures after { OnOk result (self.new ≡ after_snapshot self.old) }
    {
        self.log.snapshot()
    }
}
