//! The calls of the unit's log and of its snapshots.

use alarm_log::{AlarmLog, AlarmSnapshot, Notice};
use case_lines::{NoMemory, short_hex_of};
use omci_types::EntityId;
use std::alloc::Global;

/// A unit's log, and what it put by last.
#[derive(Drop)]
pub(crate) struct UnitAlarms {
    alloc: Global,
    log: AlarmLog,
    snapshot: Option<AlarmSnapshot>,
}

impl UnitAlarms {
    pub(crate) fn new(alloc: Global) -> UnitAlarms {
        UnitAlarms {
            alloc,
            log: AlarmLog::new(alloc),
            snapshot: None,
        }
    }

    /// The number and the bitmap of the notice, `-` where there is none.
    pub(crate) fn change(
        &mut self,
        entity: EntityId,
        bitmap: [u8; 28],
    ) -> Result<String, NoMemory> {
        match told(&mut self.log, entity, bitmap)? {
            None => Ok(String::from_str(self.alloc, "-")?),
            Some(Notice::Alarm { bitmap, number }) => {
                let bitmap = short_hex_of(self.alloc, &bitmap)?;
                Ok(format!(in self.alloc; "{number} {bitmap}")?)
            }
            Some(_) => Ok(String::from_str(self.alloc, "another notice")?),
        }
    }

    /// Changes the entity once for each number from the first to the last, to the second bitmap at
    /// odd numbers; and how many of the notices have their number and bitmap.
    pub(crate) fn change_many(
        &mut self,
        entity: EntityId,
        bitmaps: [[u8; 28]; 2],
        first: u8,
        last: u8,
    ) -> Result<String, NoMemory> {
        let mut right = 0u64;
        for number in first..=last {
            let bitmap = bitmaps[(number % 2) as usize];
            if told(&mut self.log, entity, bitmap)? == Some(Notice::Alarm { bitmap, number }) {
                right = right.saturating_add(1);
            }
        }
        Ok(format!(in self.alloc; "{right}")?)
    }

    /// How many entities have an alarm, and the number of the last notice.
    pub(crate) fn text(&self) -> Result<String, NoMemory> {
        let len = self.log.len();
        let number = self.log.number();
        Ok(format!(in self.alloc; "{len} {number}")?)
    }

    /// Puts the log by; and how many rows that has.
    pub(crate) fn put_by(&mut self) -> Result<String, NoMemory> {
        let snapshot = self.log.snapshot()?;
        let count = snapshot.count();
        self.snapshot = Some(snapshot);
        Ok(format!(in self.alloc; "{count}")?)
    }

    /// The row of this number of what was put by, `-` where there is none.
    pub(crate) fn row(&self, number: u16) -> Result<String, NoMemory> {
        let row = match &self.snapshot {
            Some(snapshot) => snapshot.row(number),
            None => None,
        };
        match row {
            Some(row) => short_hex_of(self.alloc, &row),
            None => Ok(String::from_str(self.alloc, "-")?),
        }
    }
}

/// The notice of a change, where there is one. A log that has no room for a further entity isn't
/// changed.
fn told(
    log: &mut AlarmLog,
    entity: EntityId,
    bitmap: [u8; 28],
) -> Result<Option<Notice>, NoMemory> {
    if log.len() >= 4096 {
        return Ok(None);
    }
    log.change(entity, bitmap)
}
