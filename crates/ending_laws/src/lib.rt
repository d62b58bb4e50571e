//! Laws that every command and every job of the manager ends, whatever comes, proved of the
//! definitions alone.
//! Each function does nothing: what it ensures is the law, and a caller's proof may cite it.
#![tactic(auto)]

ghost use Rattle.std.specs.Prelude.{◌≡◌, ℕ, ◌≤◌, List, Some};
ghost use Rattle.omci_types.specs.declared.Priority.{Priority};
ghost use Rattle.script_spec.specs.Script.{Header, Action};
ghost use Rattle.lane_spec.specs.Lane.{Waiting};
ghost use Rattle.manager_spec.specs.Manager.{Stage, Manager, lane_in, manager_started};
ghost use Rattle.world_spec.specs.Nodes.{first_nodes, nodes_after};
ghost use Rattle.manager_spec.specs.Jobs.{job_of};
ghost use Rattle.ending_spec.specs.Moves.{Move, AreMoves, after_moves, seconds_in};
ghost use Rattle.ending_spec.specs.Commands.{most_seconds, CommandEnds};
ghost use Rattle.ending_spec.specs.Jobs.{seconds_left, JobEnds};
ghost use Rattle.ending_spec.specs.Scripts.{ticks_in, StaysOn, CommandEndsIn};

/// Whatever has happened to a manager since it started, and whatever happens next, be it packets
/// of any bytes: a command that is outstanding in a lane is answered or given up, and that is
/// told, before the lane's seconds have passed, which are 9 in the low lane and 3 in the high
/// lane.
pub fn commands_end()
    ensures { (low high : ℕ) (past moves : List Move) (lane : Priority) (w : Waiting)
        → (lane_in lane (after_moves past (manager_started low high))).outstanding ≡ Some w
        → most_seconds lane ≤ seconds_in moves
        → CommandEnds lane w.tci moves (after_moves past (manager_started low high)) }
{}

/// The same over the lines of any script of both ends, whatever is delivered, lost, cut off or
/// started: within the lane's seconds in which the manager's power stays, one of the lines has the
/// reply that is taken, the report that the probe was answered, or the report that the command was
/// given up.
pub fn commands_of_scripts_end()
    ensures { (h : Header) (past lines : List Action) (lane : Priority) (m : Manager) (w : Waiting)
        → (nodes_after past (first_nodes h)).ends.manager ≡ Some m
        → (lane_in lane m).outstanding ≡ Some w → StaysOn lines
        → most_seconds lane ≤ ticks_in lines
        → CommandEndsIn lane w.tci lines (nodes_after past (first_nodes h)) }
{}

/// Whatever has happened to a manager since it started, and whatever happens next: a job that runs
/// ends, well or not, and reports it, before the seconds of its stage have passed. `seconds_left`
/// says how many these are.
pub fn jobs_end()
    ensures { (low high : ℕ) (past moves : List Move) (s : Stage) → AreMoves past → AreMoves moves
        → (after_moves past (manager_started low high)).job ≡ Some s
        → seconds_left s ≤ seconds_in moves
        → JobEnds (job_of s) moves (after_moves past (manager_started low high)) }
{}
