//! The alarms that the unit put by for an audit, and for how long they are kept.

ghost use Rattle.std.specs.Prelude.{◌≡◌, ◌+◌, false, length, nat_le, IfOk, OnOk};
ghost use Rattle.alarm_spec.specs.Alarms.{row_at};
ghost use Rattle.alarm_spec.specs.Log.{after_snapshot};
ghost use Rattle.unit_spec.specs.declared.TheConstants.{SNAPSHOT_SECONDS};
ghost use Rattle.unit_spec.specs.Onu.{or_zeros};

use crate::alarms::Alarms;
use alarm_log::AlarmSnapshot;
use alarm_spec::ROW_BYTES;
use omci_core::NoMemory;
use std::marker::Model;
use unit_spec::SNAPSHOT_SECONDS;

/// The alarms that the unit put by for an audit. The agent holds it; a get for a row and a second
/// change it.
#[derive(Drop)]
pub struct Audit {
    snapshot: AlarmSnapshot,
    /// The seconds since it was put by, or last asked for a row.
    age: u8,
}

impl Model for Audit {
    ghost use Rattle.unit_spec.specs.Onu as unit;

    ghost Value = { unit.AlarmSnapshot };

    ghost view = { λ a. record { alarms = a.snapshot; age = a.age } };
}

impl Audit {
    /// The alarms are put by. The next notice has the number 1.
    pub fn of(alarms: &mut Alarms) -> Result<Audit, NoMemory>
        ensures value { IfOk result (λ a. a ≡ record { alarms = alarms.old.alarms; age = 0 }) }
        ensures after { OnOk result (alarms.new ≡ after_snapshot alarms.old) }
    {
        Ok(Audit {
            snapshot: alarms.snapshot()?,
            age: 0,
        })
    }

    /// How many rows it has.
    pub fn count(&self) -> u16
        ensures value { result ≡ length self.now.alarms }
    {
        self.snapshot.count()
    }

    /// The row of that number, or zeros where there is none. Its age begins anew.
    pub fn row(&mut self, number: u16) -> [u8; ROW_BYTES]
        ensures value { result ≡ or_zeros (row_at number self.old.alarms) }
        ensures fresh { self.new ≡ record self.old { age = 0 } }
    {
        self.age = 0;
        match self.snapshot.row(number) {
            Some(row) => row,
            None => [0; ROW_BYTES],
        }
    }

    /// Whether its time is over with the next second.
    pub fn is_over(&self) -> bool
        ensures value { result ≡ nat_le SNAPSHOT_SECONDS (self.now.age + 1) }
    {
        self.age >= SNAPSHOT_SECONDS - 1
    }

    /// It is a second older. Its time may not be over with that second.
    pub fn grow_older(&mut self)
        requires { nat_le SNAPSHOT_SECONDS (self.old.age + 1) ≡ false }
        ensures older { self.new ≡ record self.old { age = self.old.age + 1 } }
    {
        self.age += 1;
    }
}
