//! Laws of an end that runs alone, proved of the definitions alone. Each function does nothing:
//! what it ensures is the law, and a caller's proof may cite it.
#![tactic(auto)]

ghost use Rattle.std.specs.Prelude.{◌≡◌, ℕ, ◌<◌, List, [], ◌∷◌, ◌++◌, IsSome, codes};
ghost use Rattle.slot_spec.specs.Slots.{SlotPair, image_at};
ghost use Rattle.store_spec.specs.History.{Bootable};
ghost use Rattle.turn_spec.specs.UnitTurns.{Turn, unit_run};
ghost use Rattle.turn_laws.specs.Worked.{probed, rebooted, texts, line};

/// Whatever comes to a unit that runs alone, and whatever device calls fail: its slots are those
/// that the history of its run lets a unit start with, and their room stays.
pub fn runs_stay_explained()
    ensures boots { (room : ℕ) (s0 : SlotPair) (turns : List Turn) → s0.committed < 2
        → IsSome (image_at s0.committed s0) → Bootable (unit_run room s0 turns).stored s0
        (unit_run room s0 turns).unit.store.slots }
    ensures room { (room : ℕ) (s0 : SlotPair) (turns : List Turn)
        → (unit_run room s0 turns).unit.room ≡ room }
{}

/// Runs worked by hand: a probe, and a reboot.
pub fn worked_run()
    ensures probe_text { probed.text ≡ line (codes "0 unit 1 0 0 1:000000ff -") }
    ensures probe_sent { texts probed ≡ codes "0001 0a get-r 2 0 0080" ∷ [] }
    ensures probe_turns { probed.turns ≡ 3 }
    ensures reboot_text { rebooted.text ≡ line (codes "0 unit 1 0 0 1:000000ff -")
        ++ line (codes "2 unit 2 0 0 1:000000ff -") }
    ensures reboot_sent { texts rebooted ≡ codes "0001 0a reboot-r 256 0 -" ∷ [] }
{}
