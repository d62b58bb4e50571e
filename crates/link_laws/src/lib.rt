//! What is held of a link answers for it: each answer is that of the whole link, and each step on
//! what is held gives what is held of the link after that step. Proved of the definitions alone.
//! Each function does nothing: what it ensures is the law, and a caller's proof may cite it.
#![tactic(auto)]

ghost use Rattle.std.specs.Prelude.{◌≡◌, ℕ, Bool};
ghost use Rattle.link_spec.specs.Link.{Sent, Link, empty_link, sent_on, allowed, delivered_on, link_after, fresh, emptied};
ghost use Rattle.link_spec.specs.Held.{held_of, nothing_held, held_sent, held_allowed, held_delivered, held_after, held_fresh, held_emptied};

/// What is held of a link answers as the link does.
pub fn held_answers_for_the_link()
    ensures allowed { (number : ℕ) (link : Link) → held_allowed number (held_of link)
        ≡ allowed number link }
    ensures fresh { (unit_on manager_on : Bool) (link : Link)
        → held_fresh unit_on manager_on (held_of link) ≡ fresh unit_on manager_on link }
{}

/// What is held after a step on the link is what the same step gives of what was held.
pub fn held_follows_the_link()
    ensures empty { held_of empty_link ≡ nothing_held }
    ensures sent { (packet : Sent) (link : Link) → held_of (sent_on packet link)
        ≡ held_sent packet (held_of link) }
    ensures delivered { (number : ℕ) (packet : Sent) (link : Link)
        → held_of (delivered_on number packet link) ≡ held_delivered number packet (held_of link) }
    ensures after { (number : ℕ) (link : Link) → held_of (link_after number link)
        ≡ held_after number (held_of link) }
    ensures emptied { (link : Link) → held_of (emptied link) ≡ held_emptied (held_of link) }
{}
