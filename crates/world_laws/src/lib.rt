//! Laws of the machine of both ends of the OMCI channel, proved of its definitions alone.
//! Each function does nothing: what it ensures is the law, and a caller's proof may cite it.
#![tactic(auto)]

ghost use Rattle.std.specs.Prelude.{◌≡◌, ℕ, ◌≤◌, true, false, List, [], ◌∷◌, map, Some};
ghost use Rattle.std.specs.List.{All, flat_map};
ghost use Rattle.omci_types.specs.declared.Priority.{Priority};
ghost use Rattle.tci_spec.specs.Tci.{IsNumber};
ghost use Rattle.link_spec.specs.declared.Direction.TheVariants.{Down, Up};
ghost use Rattle.link_spec.specs.Link.{Sent};
ghost use Rattle.lane_spec.specs.Command.{is_probe};
ghost use Rattle.lane_spec.specs.Lane.{Waiting};
ghost use Rattle.manager_spec.specs.Manager.{Manager, lane_in};
ghost use Rattle.unit_spec.specs.Onu.{Onu};
ghost use Rattle.script_spec.specs.Script.{Header, Script, Action, IsAction};
ghost use Rattle.history_spec.specs.History.{Once, Answered, WasCarried, LastReply};
ghost use Rattle.world_spec.specs.Nodes.{Nodes};
ghost use Rattle.world_spec.specs.History.{Told, drawn_in, name_at, history_of};
ghost use Rattle.world_spec.specs.Trace.{trace};
ghost use Rattle.world_laws.specs.Facts.{AreReached, MayCome, MayBeCarriedOut, MayBeTaken, IsAwaited, KeepsTci};
ghost use Rattle.world_laws.specs.Seen.{all_seen, lines_of, deed_of, deeds_after, ScriptHandsOn};
ghost use Rattle.world_laws.specs.Worked.{commands_in, probe_and_get, probe_and_get_trace, unproven, unproven_trace, occupied, occupied_trace, second_change, second_change_trace, reply_again, reply_again_trace, kept_reply, kept_reply_trace, two_kept, two_kept_trace, below_floor, below_floor_trace, given_up, given_up_trace, no_frames, no_frames_trace, unit_restarted, unit_restarted_trace, manager_restarted, manager_restarted_trace, number_comes_round, number_comes_round_trace};
ghost use Rattle.world_laws.specs.WorkedCopies.{resynchronised, synced_trace, created_and_checked, created_and_checked_trace, counter_goes_round, counter_goes_round_trace, values_too_wide, values_too_wide_trace, set_refused, set_refused_trace, deleted_absent, deleted_absent_trace, change_in_the_way, change_in_the_way_trace, restarted_meanwhile, restarted_meanwhile_trace, refusals_in_order, refusals_in_order_trace};

/// Whatever is delivered, lost, delivered again, sent again, given up, cut off or started: no
/// command is carried out twice in one life of the unit, and each reply that the manager takes is
/// the one that was made when its command was last carried out.
pub fn commands_act_once()
    ensures once { (h : Header) (actions : List Action) → IsNumber h.low → IsNumber h.high
        → All IsAction actions
        → Once (history_of h actions) }
    ensures answered { (h : Header) (actions : List Action) → IsNumber h.low → IsNumber h.high
        → All IsAction actions
        → Answered (history_of h actions) }
{}

/// Of a packet that the unit will carry out when it comes: its command was not carried out in this
/// life, and in a proved lane it is one of the outstanding command's packets.
pub fn requests_are_awaited()
    ensures fresh { (lane : Priority) (n : Nodes) (t : Told) (number : ℕ) (s : Sent) (u : Onu)
        → AreReached n t
        → MayBeCarriedOut lane n number s u
        → WasCarried n.ends.lives (name_at number t.names) t.history → ⊥ }
    ensures awaited { (lane : Priority) (n : Nodes) (t : Told) (number : ℕ) (s : Sent) (u : Onu)
        (m : Manager) → AreReached n t
        → n.ends.manager ≡ Some m → (lane_in lane m).proved ≡ true
        → MayBeCarriedOut lane n number s u
        → IsAwaited lane m t number s }
{}

/// Of a reply that may come under the TCI for which the manager waits in its lane: it is the
/// outstanding command's own, and a unit that is on keeps its TCI. Where the command isn't a probe,
/// it was carried out in this life of the unit, and this is the reply of the last time.
pub fn replies_are_own()
    ensures own { (lane : Priority) (n : Nodes) (t : Told) (number : ℕ) (s : Sent) (m : Manager)
        (w : Waiting) → AreReached n t
        → MayBeTaken lane n number s m w → name_at number t.names ≡ drawn_in lane t }
    ensures kept { (lane : Priority) (n : Nodes) (t : Told) (number : ℕ) (s : Sent) (m : Manager)
        (w : Waiting) (u : Onu) → AreReached n t
        → MayBeTaken lane n number s m w → n.ends.unit ≡ Some u → KeepsTci lane u w.tci }
    ensures carried { (lane : Priority) (n : Nodes) (t : Told) (number : ℕ) (s : Sent) (m : Manager)
        (w : Waiting) → AreReached n t
        → MayBeTaken lane n number s m w → is_probe w.command.purpose ≡ false
        → WasCarried n.ends.lives (drawn_in lane t) t.history }
    ensures reply { (lane : Priority) (n : Nodes) (t : Told) (number : ℕ) (s : Sent) (m : Manager)
        (w : Waiting) → AreReached n t
        → MayBeTaken lane n number s m w → is_probe w.command.purpose ≡ false
        → LastReply (drawn_in lane t) s.bytes t.history }
{}

/// No request that may come is of an older command than a reply that may come in its lane.
pub fn requests_follow_replies()
    ensures older { (lane : Priority) (n : Nodes) (t : Told) (up down : ℕ) (r s : Sent)
        → AreReached n t
        → MayCome Up lane n up r → MayCome Down lane n down s
        → name_at up t.names ≤ name_at down t.names }
{}

/// The history is told of the very machine whose trace a script has. The trace is the lines of all
/// that happens. The history has an entry for each request carried out, each snapshot, each reply
/// taken, each copy and each table, in the same order, with its bytes, and no other entry. Each
/// reply that the manager hands on (a line `took`) was taken right before: the history's newest
/// entry is of the packet whose frame it is.
pub fn history_is_of_the_machine()
    ensures seen { (s : Script) → trace s ≡ flat_map lines_of (all_seen s) }
    ensures entries { (s : Script)
        → map deed_of (history_of s.header s.actions) ≡ deeds_after (all_seen s) [] [] }
    ensures took { (h : Header) (actions : List Action) → All IsAction actions
        → ScriptHandsOn h actions }
{}

/// Scripts worked by hand have the traces that were worked with them, check values included, and
/// their histories name these commands, newest first.
pub fn worked_scripts()
    ensures probe_and_get { trace probe_and_get ≡ probe_and_get_trace }
    ensures unproven { trace unproven ≡ unproven_trace }
    ensures occupied { trace occupied ≡ occupied_trace }
    ensures second_change { trace second_change ≡ second_change_trace }
    ensures reply_again { trace reply_again ≡ reply_again_trace }
    ensures kept_reply { trace kept_reply ≡ kept_reply_trace }
    ensures two_kept { trace two_kept ≡ two_kept_trace }
    ensures below_floor { trace below_floor ≡ below_floor_trace }
    ensures given_up { trace given_up ≡ given_up_trace }
    ensures no_frames { trace no_frames ≡ no_frames_trace }
    ensures unit_restarted { trace unit_restarted ≡ unit_restarted_trace }
    ensures manager_restarted { trace manager_restarted ≡ manager_restarted_trace }
    ensures number_comes_round { trace number_comes_round ≡ number_comes_round_trace }
    ensures kept_reply_history { commands_in kept_reply ≡ 0 ∷ [] }
    ensures given_up_history { commands_in given_up ≡ 0 ∷ [] }
    ensures unit_restarted_history { commands_in unit_restarted ≡ 1 ∷ 1 ∷ 0 ∷ [] }
    ensures manager_restarted_history { commands_in manager_restarted ≡ 3 ∷ 3 ∷ 1 ∷ 1 ∷ 0 ∷ [] }
{}

/// So have scripts with a resynchronisation: the pieces and the copy of the first database, changes
/// that the copy follows, a check of both counters, refusals, and a unit that starts again amid it.
pub fn worked_resynchronisations()
    ensures resynchronised { trace resynchronised ≡ synced_trace }
    ensures created_and_checked { trace created_and_checked ≡ created_and_checked_trace }
    ensures counter_goes_round { trace counter_goes_round ≡ counter_goes_round_trace }
    ensures values_too_wide { trace values_too_wide ≡ values_too_wide_trace }
    ensures set_refused { trace set_refused ≡ set_refused_trace }
    ensures deleted_absent { trace deleted_absent ≡ deleted_absent_trace }
    ensures change_in_the_way { trace change_in_the_way ≡ change_in_the_way_trace }
    ensures restarted_meanwhile { trace restarted_meanwhile ≡ restarted_meanwhile_trace }
    ensures refusals_in_order { trace refusals_in_order ≡ refusals_in_order_trace }
    ensures created_and_checked_history { commands_in created_and_checked
        ≡ 17 ∷ 17 ∷ 16 ∷ 16 ∷ 15 ∷ 15 ∷ 14 ∷ 14 ∷ 13 ∷ 13 ∷ 12 ∷ 12 ∷ 11 ∷ 11 ∷ 10 ∷ 10 ∷ 9 ∷ 9 ∷ 8
        ∷ 8 ∷ 7 ∷ 7 ∷ 6 ∷ 6 ∷ 5 ∷ 5 ∷ 4 ∷ 4 ∷ 3 ∷ 3 ∷ 2 ∷ 2 ∷ 1 ∷ 0 ∷ [] }
    ensures restarted_meanwhile_history { commands_in restarted_meanwhile
        ≡ 5 ∷ 5 ∷ 4 ∷ 4 ∷ 3 ∷ 3 ∷ 2 ∷ 2 ∷ 1 ∷ 0 ∷ [] }
{}
