//! Laws of the machine of moves, proved of its definitions alone.
//! Each function does nothing: what it ensures is the law, and a caller's proof may cite it.
#![tactic(auto)]

ghost use Rattle.std.specs.Prelude.{◌≡◌, ℕ, ◌≤◌, Bool, true, false, List};
ghost use Rattle.omci_types.specs.declared.Priority.{Priority};
ghost use Rattle.history_spec.specs.History.{Once, Answered, WasCarried, LastReply};
ghost use Rattle.moves_spec.specs.Channel.{Transaction, Outstanding, Channel, lane_view, first_channel};
ghost use Rattle.moves_spec.specs.Moves.{Move, after_moves};
ghost use Rattle.moves_laws.specs.Facts.{IsReached, MayGoDown, MayBeCarriedOut, MayGoUp, MayBeTaken, IsAwaited, KeepsNumber};

/// Whatever moves are made, and whatever numbers the lanes begin with: no command is carried out
/// twice in one life of the unit, and each reply that the manager takes is that of the last time
/// that its command was carried out.
pub fn moves_act_once()
    ensures once { (low high : ℕ) (moves : List Move)
        → Once (after_moves moves (first_channel low high)).shared.history }
    ensures answered { (low high : ℕ) (moves : List Move)
        → Answered (after_moves moves (first_channel low high)).shared.history }
{}

/// What the unit may carry out next was not carried out in this life of it, and in a proved lane it
/// is the outstanding command.
pub fn requests_are_awaited()
    ensures fresh { (l : Priority) (w : Channel) (at : ℕ) (c : Transaction) → IsReached w
        → MayBeCarriedOut l w at c
        → WasCarried w.shared.life c.id w.shared.history → ⊥ }
    ensures awaited { (l : Priority) (w : Channel) (at : ℕ) (c : Transaction) → IsReached w
        → (lane_view l w).lane.proved ≡ true
        → MayBeCarriedOut l w at c → IsAwaited l w c }
{}

/// A reply that the manager may take next is the outstanding command's own, and the unit keeps that
/// command's number. Where the command isn't a probe, it was carried out in this life of the unit,
/// and the reply is that of the last time.
pub fn replies_are_own()
    ensures own { (l : Priority) (w : Channel) (at : ℕ) (c : Transaction) (bytes : List ℕ)
        (o : Outstanding) → IsReached w
        → MayBeTaken l w at c bytes o → c ≡ o.transaction }
    ensures kept { (l : Priority) (w : Channel) (at : ℕ) (c : Transaction) (bytes : List ℕ)
        (o : Outstanding) → IsReached w
        → MayBeTaken l w at c bytes o → KeepsNumber l w c }
    ensures carried { (l : Priority) (w : Channel) (at : ℕ) (c : Transaction) (bytes : List ℕ)
        (o : Outstanding) → IsReached w
        → MayBeTaken l w at c bytes o → c.probe ≡ false
        → WasCarried w.shared.life c.id w.shared.history }
    ensures reply { (l : Priority) (w : Channel) (at : ℕ) (c : Transaction) (bytes : List ℕ)
        (o : Outstanding) → IsReached w
        → MayBeTaken l w at c bytes o → c.probe ≡ false → LastReply c.id bytes w.shared.history }
{}

/// No request that may come is of an older command than a reply that may come in its lane.
pub fn requests_follow_replies()
    ensures older { (l : Priority) (w : Channel) (up down : ℕ) (c d : Transaction) (bytes : List ℕ)
        → IsReached w
        → MayGoUp l w up c bytes → MayGoDown l w down d → c.id ≤ d.id }
{}
