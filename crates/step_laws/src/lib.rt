//! Laws of a manager in step with its unit, proved of the definitions alone.
//! Each function does nothing: what it ensures is the law, and a caller's proof may cite it.
#![tactic(auto)]

ghost use Rattle.std.specs.Prelude.{false, ◌≡◌, ℕ, List, Some};
ghost use Rattle.std.specs.List.{All};
ghost use Rattle.omci_types.specs.declared.Frame.{Frame};
ghost use Rattle.tci_spec.specs.Tci.{IsNumber};
ghost use Rattle.frame_spec.specs.Baseline.{spelling, packet_frame};
ghost use Rattle.lane_spec.specs.Command.{sync_entity, sync_request};
ghost use Rattle.manager_spec.specs.declared.Phase.TheVariants as Phase;
ghost use Rattle.manager_spec.specs.Manager.{Manager};
ghost use Rattle.unit_spec.specs.Onu.{Onu, answer};
ghost use Rattle.script_spec.specs.Script.{Header, Action, IsAction};
ghost use Rattle.world_spec.specs.Nodes.{Nodes};
ghost use Rattle.world_spec.specs.History.{Told};
ghost use Rattle.world_laws.specs.Facts.{AreReached};
ghost use Rattle.world_laws.specs.WorkedCopies.{resynchronised};
ghost use Rattle.step_laws.specs.InStep.{AreInStep, InStep, ScriptInStep, IsAtRest};
ghost use Rattle.step_laws.specs.InStep.{AgreeOutright, ChecksEqual};
ghost use Rattle.step_laws.specs.Worked.{created_alone, started_again, end_nodes, EndsInStep};
ghost use Rattle.step_laws.specs.Worked.{phase_of, unit_counter, copied_count};

use world_laws::{replies_are_own, requests_are_awaited, requests_follow_replies};

/// Whatever a script of both ends does, within its ranges: where the manager is in step and the
/// unit still lives as it did when it put by the database of the last resynchronisation, the unit's
/// database agrees with the manager's copy, but for one change that is outstanding.
pub fn copies_keep_step()
    ensures in_step { (n : Nodes) (t : Told) → AreReached n t → InStep n t }
    ensures script { (h : Header) (actions : List Action) → IsNumber h.low → IsNumber h.high
        → All IsAction actions
        → ScriptInStep h actions }
{
    requests_are_awaited();
    replies_are_own();
    requests_follow_replies();
}

/// What an operator reads out of the two ends while they are in step and no change is outstanding:
/// the unit's database agrees with the manager's copy outright; and the answer that the unit then
/// gives to the request of a check shows the manager two equal counters, and leaves it in step.
pub fn copies_are_read()
    ensures outright { (n : Nodes) (t : Told) (m : Manager) (u : Onu) (command : ℕ)
        → AreReached n t → AreInStep n t m u command → IsAtRest m → AgreeOutright m u }
    ensures checked { (n : Nodes) (t : Told) (m : Manager) (u : Onu) (command : ℕ)
        → AreReached n t → AreInStep n t m u command → IsAtRest m
        → (asked reply : Frame) → asked.entity ≡ sync_entity
        → packet_frame (spelling (answer false asked sync_request u).reply) ≡ Some reply
        → ChecksEqual m u reply }
{
    requests_are_awaited();
    replies_are_own();
    requests_follow_replies();
}

/// Scripts worked by hand: after a resynchronisation the two ends are in step with equal counters;
/// after a create that the unit has carried out and whose reply is under way they still are, and
/// the unit is ahead of the copy; and after a start of the unit they aren't, though the manager
/// doesn't know it.
pub fn worked_steps()
    ensures synced { EndsInStep resynchronised 2 }
    ensures synced_unit { unit_counter (end_nodes resynchronised).ends.unit ≡ Some 0 }
    ensures synced_copy { copied_count (end_nodes resynchronised).ends.manager ≡ Some 0 }
    ensures alone { EndsInStep created_alone 2 }
    ensures alone_unit { unit_counter (end_nodes created_alone).ends.unit ≡ Some 1 }
    ensures alone_copy { copied_count (end_nodes created_alone).ends.manager ≡ Some 0 }
    ensures again_phase { phase_of (end_nodes started_again).ends.manager ≡ Some Phase.InStep }
    ensures again_apart { (command : ℕ) → EndsInStep started_again command → ⊥ }
{}
