//! The calls of the manager's table.

use alarm_log::{AlarmTable, RowFault, TakenAlarm};
use case_lines::{NoMemory, short_hex_of};
use omci_types::EntityId;
use std::alloc::Global;

/// A manager's table.
#[derive(Drop)]
pub(crate) struct KnownAlarms {
    alloc: Global,
    table: AlarmTable,
}

impl KnownAlarms {
    pub(crate) fn new(alloc: Global) -> Result<KnownAlarms, NoMemory> {
        Ok(KnownAlarms {
            alloc,
            table: AlarmTable::new(alloc)?,
        })
    }

    fn say(&self, text: &str) -> Result<String, NoMemory> {
        Ok(String::from_str(self.alloc, text)?)
    }

    /// The table's answer to a notice.
    pub(crate) fn take(
        &mut self,
        entity: EntityId,
        bitmap: [u8; 28],
        number: u8,
    ) -> Result<String, NoMemory> {
        let answer = taken(&mut self.table, entity, bitmap, number)?;
        Ok(format!(in self.alloc; "{answer:?}")?)
    }

    /// Gives the table a notice of each number from the first to the last; and how many are taken.
    pub(crate) fn take_many(
        &mut self,
        entity: EntityId,
        bitmap: [u8; 28],
        first: u8,
        last: u8,
    ) -> Result<String, NoMemory> {
        let mut count = 0u64;
        for number in first..=last {
            if taken(&mut self.table, entity, bitmap, number)? == TakenAlarm::Taken {
                count = count.saturating_add(1);
            }
        }
        Ok(format!(in self.alloc; "{count}")?)
    }

    /// Begins the gathering of rows.
    pub(crate) fn begin(&mut self) -> Result<String, NoMemory> {
        self.table.begin();
        self.say("")
    }

    /// Gathers a row.
    pub(crate) fn gather(&mut self, row: &[u8; 32]) -> Result<String, NoMemory> {
        if !self.table.is_gathering() {
            return self.say("not gathering");
        }
        let gathered = self.table.row(row);
        self.row_text(gathered)
    }

    fn row_text(&self, gathered: Result<(), RowFault>) -> Result<String, NoMemory> {
        match gathered {
            Ok(()) => self.say("gathered"),
            Err(RowFault::NoMemory) => Err(NoMemory),
            Err(RowFault::Empty) => self.say("empty"),
            Err(RowFault::Repeated { entity }) => {
                let class = entity.class;
                let instance = entity.instance;
                Ok(format!(in self.alloc; "repeated {class} {instance}")?)
            }
        }
    }

    /// Ends the gathering of rows.
    pub(crate) fn finish(&mut self) -> Result<String, NoMemory> {
        if !self.table.is_gathering() {
            return self.say("not gathering");
        }
        self.table.finish()?;
        self.say("")
    }

    /// Gives up the audit.
    pub(crate) fn fail(&mut self) -> Result<String, NoMemory> {
        self.table.fail();
        self.say("")
    }

    /// Each entity of the table with its bitmap, and a `+` before them where rows are gathered.
    pub(crate) fn text(&self) -> Result<String, NoMemory> {
        let mut out = String::new(self.alloc);
        if self.table.is_gathering() {
            out.push_str("+")?;
        }
        for place in 0..self.table.len() {
            let (entity, bitmap) = self.table.entry(place);
            self.push_entry(&mut out, entity, &bitmap)?;
        }
        Ok(out)
    }

    fn push_entry(
        &self,
        out: &mut String,
        entity: EntityId,
        bitmap: &[u8; 28],
    ) -> Result<(), NoMemory> {
        let bitmap = short_hex_of(self.alloc, bitmap)?;
        let class = entity.class;
        let instance = entity.instance;
        write!(out, " {class} {instance} {bitmap}")?;
        Ok(())
    }
}

fn taken(
    table: &mut AlarmTable,
    entity: EntityId,
    bitmap: [u8; 28],
    number: u8,
) -> Result<TakenAlarm, NoMemory> {
    table.take(entity, bitmap, number)
}
