//! Laws of alarms, proved of the definitions alone, and a table and a log worked by hand.
//! Each function does nothing: what it ensures is the law, and a caller's proof may cite it.
#![tactic(auto)]

ghost use Rattle.std.specs.Prelude.{◌≡◌, ◌≢◌, ◌↔◌, ℕ, ◌+◌, ◌<◌, ◌≤◌, ◌^◌, true, false, List, []};
ghost use Rattle.std.specs.Prelude.{◌∷◌, ◌++◌, length, replicate, slice_get, Some, None, IfSome};
ghost use Rattle.omci_types.specs.declared.EntityId.{EntityId};
ghost use Rattle.message_spec.specs.declared.Notice.TheVariants.{Alarm as told_alarm};
ghost use Rattle.alarm_spec.specs.declared.TheConstants.{BITMAP_BYTES, MOST_WAITING};
ghost use Rattle.alarm_spec.specs.declared.TakenAlarm.TheVariants.{Unaudited, Repeat, Gap};
ghost use Rattle.alarm_spec.specs.declared.TakenAlarm.TheVariants.{Overflow, Taken};
ghost use Rattle.alarm_spec.specs.declared.BadRow.TheVariants.{Empty, Repeated};
ghost use Rattle.alarm_spec.specs.Alarms.{Alarm, Alarms, bitmap_of, with_bitmap, after};
ghost use Rattle.alarm_spec.specs.Alarms.{rows_of, row_at, IsAscending, IsWhole};
ghost use Rattle.alarm_spec.specs.Log.{Log, new_log, change, after_snapshot};
ghost use Rattle.alarm_spec.specs.Table.{Table, new_table, take_answer, after_take, wanted};
ghost use Rattle.alarm_spec.specs.Table.{is_gathering, begun, row_fault, after_row, finished};
ghost use Rattle.alarm_spec.specs.Table.{gathered};
ghost use Rattle.alarm_laws.specs.Worked.{port, bitmap, port_row, up_to, answers, after_numbers};
ghost use Rattle.alarm_laws.specs.Worked.{audited_table};
ghost use Rattle.alarm_laws.specs.Steps.{after_changes, notices_of, take_given, after_notices};
ghost use Rattle.alarm_laws.specs.Steps.{after_rows, AreGood, IsInStep, Audits};

/// A change at one entity leaves every other as it is, and the entity has the bitmap that it was
/// given, also a clear one.
pub fn others_stay()
    ensures other { (one other : EntityId) (bitmap : List ℕ) (alarms : Alarms) → one ≢ other
        → bitmap_of other (with_bitmap one bitmap alarms) ≡ bitmap_of other alarms }
    ensures here { (one : EntityId) (bitmap : List ℕ) (alarms : Alarms) → IsAscending alarms
        → bitmap_of one (with_bitmap one bitmap alarms) ≡ bitmap }
{}

/// What a unit holds stays in order and without a clear bitmap, and a change adds one entity at
/// most.
pub fn log_stays_whole()
    ensures whole { (one : EntityId) (bitmap : List ℕ) (log : Log) → one.class < 2 ^ 16
        → one.instance < 2 ^ 16 → length bitmap ≡ BITMAP_BYTES → IsWhole log.alarms
        → IsWhole (change one bitmap log).log.alarms }
    ensures more { (one : EntityId) (bitmap : List ℕ) (log : Log)
        → length (change one bitmap log).log.alarms ≤ length log.alarms + 1 }
    ensures ascending { (one : EntityId) (bitmap : List ℕ) (alarms : Alarms)
        → IsAscending alarms → IsAscending (with_bitmap one bitmap alarms) }
{}

/// When each answer to a notice comes.
pub fn answers_are_exact()
    ensures unaudited { (number : ℕ) (t : Table)
        → (take_answer number t ≡ Unaudited) ↔ (t.audited ≡ false) }
    ensures repeat { (number : ℕ) (t : Table) → (take_answer number t ≡ Repeat)
        ↔ ((t.audited ≡ true) × (number ≡ t.last) × (t.last ≢ 0)) }
    ensures gap { (number want have : ℕ) (t : Table) → (take_answer number t ≡ Gap want have)
        ↔ ((t.audited ≡ true) × (number ≡ t.last → t.last ≡ 0) × (number ≢ wanted t)
        × (want ≡ wanted t) × (have ≡ number)) }
    ensures overflow { (number : ℕ) (t : Table) → (take_answer number t ≡ Overflow)
        ↔ ((t.audited ≡ true) × (number ≡ wanted t) × (is_gathering t ≡ true)
        × (MOST_WAITING ≤ length t.waiting)) }
    ensures taken { (number : ℕ) (t : Table) → (take_answer number t ≡ Taken)
        ↔ ((t.audited ≡ true) × (number ≡ wanted t)
        × (is_gathering t ≡ true → length t.waiting < MOST_WAITING)) }
{}

/// The rows of what a unit holds, gathered one after the other, are that again, and none is bad.
pub fn rows_come_back()
    ensures good { (alarms : Alarms) (t : Table) → IsWhole alarms
        → AreGood (rows_of alarms) (begun t) }
    ensures gathered { (alarms : Alarms) (t : Table) → IsWhole alarms
        → after_rows (rows_of alarms) (begun t) ≡ record (begun t) { gathering = Some alarms } }
    ensures numbered { (alarms : Alarms) (number : ℕ)
        → row_at number alarms ≡ slice_get (rows_of alarms) number }
{}

/// The notices of changes, applied one after the other, make of what the unit held what it holds.
pub fn notices_give_the_map()
    ensures { (changes : List Alarm) (log : Log)
        → after log.alarms (notices_of changes log) ≡ (after_changes changes log).alarms }
{}

/// A table in step with the unit stays so, notice by notice.
pub fn table_stays_in_step()
    ensures one { (one : EntityId) (bitmap : List ℕ) (log : Log) (t : Table) → IsInStep log t
        → IsInStep (change one bitmap log).log (take_given one (change one bitmap log).notice t) }
    ensures all { (changes : List Alarm) (log : Log) (t : Table) → IsInStep log t
        → IsInStep (after_changes changes log) (after_notices changes log t) }
{}

/// An audit makes a table in step with the unit, in whatever order its rows and the unit's notices
/// come, as long as no more than 255 notices wait.
pub fn audits_come_out_right()
    ensures begins { (log : Log) (t : Table)
        → Audits log.alarms 0 (after_snapshot log) (begun t) }
    ensures row { (snapshot : Alarms) (read : ℕ) (log : Log) (t : Table) → IsWhole snapshot
        → Audits snapshot read log t → IfSome (row_at read snapshot)
        (λ row. (row_fault row (gathered t) ≡ None)
        × Audits snapshot (read + 1) log (after_row row t)) }
    ensures notice { (snapshot : Alarms) (read : ℕ) (one : EntityId) (bitmap : List ℕ) (log : Log)
        (t : Table) → Audits snapshot read log t → length t.waiting < MOST_WAITING
        → Audits snapshot read (change one bitmap log).log
        (take_given one (change one bitmap log).notice t) }
    ensures ends { (snapshot : Alarms) (log : Log) (t : Table)
        → Audits snapshot (length snapshot) log t → IsInStep log (finished t) }
{}

/// A table and a log worked by hand.
pub fn worked_rows()
    ensures all_numbers { answers (up_to 255) audited_table ≡ replicate 255 Taken }
    ensures after_the_last { answers (1 ∷ 1 ∷ 3 ∷ 4 ∷ []) (after_numbers (up_to 255) audited_table)
        ≡ Taken ∷ Repeat ∷ Gap 2 3 ∷ Unaudited ∷ [] }
    ensures anew { answers (1 ∷ []) (finished (begun (after_numbers (1 ∷ 3 ∷ []) audited_table)))
        ≡ Taken ∷ [] }
    ensures unaudited_at_first { answers (1 ∷ []) new_table ≡ Unaudited ∷ [] }
    ensures zero { answers (0 ∷ []) audited_table ≡ Gap 1 0 ∷ [] }
    ensures overflow { answers (up_to 255 ++ 1 ∷ 2 ∷ []) (begun new_table)
        ≡ replicate 255 Taken ++ Overflow ∷ Unaudited ∷ [] }
    ensures change { change port bitmap new_log ≡ record {
      log = record { alarms = (port, bitmap) ∷ []; number = 1 };
      notice = Some (told_alarm bitmap 1);
    } }
    ensures same { change port bitmap (record { alarms = (port, bitmap) ∷ []; number = 1 })
        ≡ record { log = record { alarms = (port, bitmap) ∷ []; number = 1 }; notice = None } }
    ensures clear { change port (replicate 28 0)
        (record { alarms = (port, bitmap) ∷ []; number = 255 })
        ≡ record {
          log = record { alarms = []; number = 1 };
          notice = Some (told_alarm (replicate 28 0) 1);
        } }
    ensures row { row_at 0 ((port, bitmap) ∷ []) ≡ Some port_row }
    ensures no_row { row_at 1 ((port, bitmap) ∷ []) ≡ None }
    ensures audit { (finished (after_row port_row (begun new_table))).rows
        ≡ (port, bitmap) ∷ [] }
    ensures empty { row_fault (replicate 32 0) [] ≡ Some Empty }
    ensures repeated { row_fault port_row ((port, bitmap) ∷ []) ≡ Some (Repeated port) }
    ensures notice_waits { (finished (after_row port_row
        (after_take port (replicate 28 0) 1 (begun new_table)))).rows ≡ [] }
{}
