//! The manager's table of alarms.

ghost use Rattle.std.specs.Prelude.{◌≡◌, ◌<◌, false, [], ◌∷◌, ◌++◌, length, IsSome, IfOk, IfErr};
ghost use Rattle.std.specs.Prelude.{OnOk, OnErr, IsErr, IfSome, Some, None, slice_get};
ghost use Rattle.alarm_spec.specs.declared.TakenAlarm.TheVariants.{Taken};
ghost use Rattle.alarm_spec.specs.Alarms.{with_bitmap, after};
ghost use Rattle.alarm_spec.specs.Table.{new_table, is_gathering, is_full, take_answer, noticed};
ghost use Rattle.alarm_spec.specs.Table.{after_take, begun, gathered, row_fault, after_row};
ghost use Rattle.alarm_spec.specs.Table.{finished, failed, with_last};
ghost use Rattle.circular_buffer.specs.Buffer.{buffer};
ghost use Rattle.alarm_log.specs.Places.{alarm_at};
ghost use Rattle.alarm_log.specs.Faults.{fault_as};

use crate::log::alarm_number_after;
use crate::row::{bitmap_in, entity_in};
use crate::rows::{Alarm, Rows};
use alarm_spec::{BITMAP_BYTES, MOST_WAITING, ROW_BYTES, TakenAlarm};
use circular_buffer::HeapCircularBuffer;
use omci_core::NoMemory;
use omci_types::EntityId;
use std::alloc::Global;
use std::marker::Model;

/// Why a row was not gathered. The first fault that holds, in this order; nothing has changed.
#[derive(Clone, Copy, Debug, PartialEq, Eq)]
pub enum RowFault {
    /// All of its bytes are zero: the unit has no such row.
    Empty,
    /// An earlier row was of this entity.
    Repeated { entity: EntityId },
    /// There was no memory for the row.
    NoMemory,
}

/// The alarms of a unit's entities as the manager knows them: what the last audit read, and the
/// notices since. The manager holds it; `take`, `row` and `finish` take memory, and where there is
/// none nothing has changed.
#[derive(Drop)]
pub struct AlarmTable {
    rows: Rows,
    audited: bool,
    last: u8,
    /// Whether an audit reads rows.
    gathers: bool,
    /// The rows that it has read so far.
    gathered: Rows,
    /// The notices that came meanwhile.
    waiting: HeapCircularBuffer<Alarm>,
}

impl Model for AlarmTable {
    ghost use Rattle.std.specs.Prelude.{◌≡◌, if◌then◌else◌, Some, None};
    ghost use Rattle.alarm_spec.specs.declared.TheConstants.{MOST_WAITING};
    ghost use Rattle.alarm_spec.specs.Table.{Table};

    ghost Value = { Table };

    ghost view = { λ t. record {
      rows = t.rows;
      audited = t.audited;
      last = t.last;
      gathering = if t.gathers then Some t.gathered else None;
      waiting = t.waiting.items;
    } };

    ghost invariant = { λ t. t.waiting.capacity ≡ MOST_WAITING };
}

/// Puts a notice after those that wait.
fn wait(waiting: &mut HeapCircularBuffer<Alarm>, alarm: Alarm)
    requires { length waiting.old.items < waiting.old.capacity }
    ensures { waiting.new ≡ buffer (waiting.old.items ++ alarm ∷ []) waiting.old.capacity }
{
    let _full = waiting.try_push_back(alarm);
}

/// Applies the notice that waits in this place.
fn tell_at(
    rows: &mut Rows,
    waiting: &HeapCircularBuffer<Alarm>,
    place: usize,
) -> Result<(), NoMemory>
    ensures { OnOk result (IfSome (slice_get waiting.now.items place)
        (λ one. rows.new ≡ with_bitmap one.0 one.1 rows.old)) }
{
    match waiting.get(place) {
        Some(alarm) => rows.tell(alarm.0, alarm.1),
        None => Ok(()),
    }
}

/// The rows after these notices, one after the other.
fn told_all(rows: &Rows, waiting: &HeapCircularBuffer<Alarm>) -> Result<Rows, NoMemory>
    ensures { IfOk result (λ told. told ≡ after rows.now waiting.now.items) }
{
    let mut told = rows.copy()?;
    for place in 0..waiting.len() {
        tell_at(&mut told, waiting, place)?;
    }
    Ok(told)
}

impl AlarmTable {
    /// A table without rows, which isn't audited. It takes the memory for all notices that may
    /// wait.
    pub fn new(alloc: Global) -> Result<AlarmTable, NoMemory>
        ensures { IfOk result (λ table. table ≡ new_table) }
    {
        let waiting = HeapCircularBuffer::with_capacity(alloc, MOST_WAITING)?;
        Ok(AlarmTable {
            rows: Rows::new(alloc),
            audited: false,
            last: 0,
            gathers: false,
            gathered: Rows::new(alloc),
            waiting,
        })
    }

    /// Whether an audit reads rows: `begin` was called, and since then neither `finish` nor `fail`,
    /// and `take` answered neither `Gap` nor `Overflow`. `row` and `finish` need it.
    pub fn is_gathering(&self) -> bool
        ensures value { result ≡ is_gathering self.now }
    {
        self.gathers
    }

    /// Whether rows are gathered and no further notice may wait.
    fn is_full(&self) -> bool
        ensures value { result ≡ is_full self.now }
    {
        self.gathers && self.waiting.len() >= MOST_WAITING
    }

    /// What becomes of a notice with this number.
    #[tactic(auto, unfolding(alarm_spec::specs::Table::take_answer))]
    fn answer(&self, number: u8) -> TakenAlarm
        ensures value { result ≡ take_answer number self.now }
    {
        let want = alarm_number_after(self.last);
        if !self.audited {
            TakenAlarm::Unaudited
        } else if number == self.last && self.last != 0 {
            TakenAlarm::Repeat
        } else if number != want {
            TakenAlarm::Gap { want, have: number }
        } else if self.is_full() {
            TakenAlarm::Overflow
        } else {
            TakenAlarm::Taken
        }
    }

    /// The notice is in the table at once, or waits while rows are gathered.
    fn notice(
        &mut self,
        entity: EntityId,
        bitmap: [u8; BITMAP_BYTES],
        number: u8,
    ) -> Result<(), NoMemory>
        requires { is_full self.old ≡ false }
        ensures ok { OnOk result (self.new
            ≡ with_last number (noticed self.old.gathering (entity, bitmap) self.old)) }
        ensures err { OnErr result (self.new ≡ self.old) }
        ensures memory { IsErr result → self.old.gathering ≡ None }
    {
        if self.gathers {
            wait(&mut self.waiting, (entity, bitmap));
        } else {
            self.rows.tell(entity, bitmap)?;
        }
        self.last = number;
        Ok(())
    }

    /// A notice of the unit came. `Unaudited` exactly where no audit's reply has come since the
    /// table was made, a notice was lost, an audit failed, or too many waited; else `Repeat` where
    /// its number is that of the notice taken last, if one was since that reply; else `Gap` where
    /// another number was wanted; else `Overflow` where rows are gathered and 255 notices wait;
    /// else `Taken`, and the table has it at once, or once the rows are gathered. After `Gap` and
    /// `Overflow` the table is unaudited, and no rows are gathered any more. It takes memory only
    /// where the answer would be `Taken` and no rows are gathered.
    #[tactic(auto, unfolding(alarm_spec::specs::Table::after_take))]
    pub fn take(
        &mut self,
        entity: EntityId,
        bitmap: [u8; BITMAP_BYTES],
        number: u8,
    ) -> Result<TakenAlarm, NoMemory>
        ensures answer { IfOk result (λ answer. answer ≡ take_answer number self.old) }
        ensures table { OnOk result (self.new ≡ after_take entity bitmap number self.old) }
        ensures err { OnErr result (self.new ≡ self.old) }
        ensures memory { IsErr result
            → (take_answer number self.old ≡ Taken) × (self.old.gathering ≡ None) }
    {
        let answer = self.answer(number);
        match answer {
            TakenAlarm::Unaudited | TakenAlarm::Repeat => {}
            TakenAlarm::Gap { want: _, have: _ } | TakenAlarm::Overflow => self.fail(),
            TakenAlarm::Taken => self.notice(entity, bitmap, number)?,
        }
        Ok(answer)
    }

    /// The audit's reply came: the unit's numbers begin anew, and its rows are gathered.
    #[tactic(auto, unfolding(alarm_spec::specs::Table::begun))]
    pub fn begin(&mut self)
        ensures { self.new ≡ begun self.old }
    {
        self.audited = true;
        self.last = 0;
        self.gathers = true;
        self.gathered.clear();
        self.waiting.clear();
    }

    /// A row of the audit came: class, instance and bitmap.
    #[tactic(auto, unfolding(alarm_spec::specs::Table::after_row, alarm_spec::specs::Table::row_fault, alarm_spec::specs::Table::with_row))]
    pub fn row(&mut self, row: &[u8; ROW_BYTES]) -> Result<(), RowFault>
        requires { IsSome self.old.gathering }
        ensures good { OnOk result (row_fault row.now (gathered self.old) ≡ None) }
        ensures table { OnOk result (self.new ≡ after_row row.now self.old) }
        ensures fault { IfErr result
            (λ fault. fault ≡ fault_as (row_fault row.now (gathered self.old))) }
        ensures kept { OnErr result (self.new ≡ self.old) }
    {
        if *row == [0; ROW_BYTES] {
            return Err(RowFault::Empty);
        }
        let entity = entity_in(row);
        if self.gathered.has(entity) {
            return Err(RowFault::Repeated { entity });
        }
        if self.gathered.put(entity, bitmap_in(row)).is_err() {
            return Err(RowFault::NoMemory);
        }
        Ok(())
    }

    /// Every row of the audit has come: the table is these rows, and then the notices that wait,
    /// one after the other.
    #[tactic(auto, unfolding(alarm_spec::specs::Table::finished))]
    pub fn finish(&mut self) -> Result<(), NoMemory>
        requires { IsSome self.old.gathering }
        ensures ok { OnOk result (self.new ≡ finished self.old) }
        ensures err { OnErr result (self.new ≡ self.old) }
    {
        self.rows = told_all(&self.gathered, &self.waiting)?;
        self.gathers = false;
        self.waiting.clear();
        Ok(())
    }

    /// The audit failed: the table is unaudited, and no rows are gathered any more.
    pub fn fail(&mut self)
        ensures { self.new ≡ failed self.old }
    {
        self.audited = false;
        self.gathers = false;
        self.waiting.clear();
    }

    /// How many rows there are.
    pub fn len(&self) -> usize
        ensures { result ≡ length self.now.rows }
    {
        self.rows.len()
    }

    /// The entity in this place with its bitmap, counted from 0 in ascending order of the entity.
    pub fn entry(&self, place: usize) -> (EntityId, [u8; BITMAP_BYTES])
        requires { place < length self.now.rows }
        ensures { result ≡ alarm_at self.now.rows place }
    {
        self.rows.alarm(place)
    }
}
