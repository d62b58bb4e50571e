//! Laws of the unit, proved of the definitions alone. Each function does nothing: what it ensures
//! is the law, and a caller's proof may cite it.
#![tactic(auto)]

ghost use Rattle.std.specs.Prelude.{◌≡◌, ◌≤◌, ℕ, Bool, true, List, length};
ghost use Rattle.omci_types.specs.declared.EntityId.{EntityId};
ghost use Rattle.omci_types.specs.declared.Boot.{Boot};
ghost use Rattle.slot_spec.specs.Slots.{SlotPair};
ghost use Rattle.mib_spec.specs.Database.{Database};
ghost use Rattle.mib_laws.specs.Made.{HoldsOnlyMade};
ghost use Rattle.alarm_spec.specs.Log.{Log, new_log, change};
ghost use Rattle.unit_spec.specs.Noticing.{may_alarm, onu_sensed, onu_alarmed};
ghost use Rattle.unit_spec.specs.Onu.{Onu, onu_started, onu_received, onu_ticked};
ghost use Rattle.unit_laws.specs.Own.{may_have, AreOwn};
ghost use Rattle.unit_laws.specs.Sound.{IsSound};

/// Seven entities may have alarms, of those that the unit makes at its start.
pub fn alarms_are_of_seven()
    ensures may { (one : EntityId) (database : Database) → HoldsOnlyMade database
        → may_alarm one database ≡ true → may_have one ≡ true }
    ensures none { AreOwn new_log.alarms }
    ensures change { (one : EntityId) (bitmap : List ℕ) (log : Log) → may_have one ≡ true
        → AreOwn log.alarms → AreOwn (change one bitmap log).log.alarms }
    ensures seven { (log : Log) → AreOwn log.alarms → length log.alarms ≤ 7 }
{}

/// A unit that starts is sound, and stays so whatever comes to it; so no more than seven of its
/// entities have an alarm.
pub fn unit_stays_sound()
    ensures started { (boot : Boot) (room : ℕ) (slots : SlotPair)
        → IsSound (onu_started boot room slots) }
    ensures received { (fails : Bool) (bytes : List ℕ) (u : Onu)
        → IsSound u → IsSound (onu_received fails bytes u).unit }
    ensures ticked { (u : Onu) → IsSound u → IsSound (onu_ticked u) }
    ensures sensed { (one : EntityId) (number : ℕ) (value : List ℕ) (u : Onu)
        → IsSound u → IsSound (onu_sensed one number value u).unit }
    ensures alarmed { (one : EntityId) (bitmap : List ℕ) (u : Onu)
        → IsSound u → IsSound (onu_alarmed one bitmap u).unit }
    ensures seven { (u : Onu) → IsSound u → length u.log.alarms ≤ 7 }
{}
