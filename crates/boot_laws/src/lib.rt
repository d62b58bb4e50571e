//! Laws of the unit's image slots over scripts of both ends, proved of the definitions alone. Each
//! function does nothing: what it ensures is the law, and a caller's proof may cite it.
#![tactic(auto)]

ghost use Rattle.std.specs.Prelude.{◌≡◌, ◌⊎◌, List};
ghost use Rattle.script_spec.specs.Script.{Header, Action};
ghost use Rattle.store_spec.specs.History.{Bootable};
ghost use Rattle.history_spec.specs.History.{store_history};
ghost use Rattle.world_spec.specs.Ends.{factory_slots};
ghost use Rattle.world_spec.specs.Nodes.{Nodes, first_nodes, step, nodes_after};
ghost use Rattle.world_spec.specs.History.{history_of};
ghost use Rattle.boot_laws.specs.Slots.{slots_in, StartsWith};

/// Whatever a script does, with power cuts inside a write among it: after each of its lines the
/// unit's image slots, those of its store while it is on and those that it left while it is off,
/// are slots that the history lets a unit start with. The committed slot was committed last, or a
/// commit of it was begun since; it holds the image that was checked last for it, or that of the
/// beginning; and a commit of it was begun since that check.
pub fn every_life_boots()
    ensures { (h : Header) (actions : List Action)
        → Bootable (store_history (history_of h actions)) (factory_slots h.factory)
        (slots_in (nodes_after actions (first_nodes h)).ends) }
{}

/// The slots of the law above are those that each life starts with: the first life with those of
/// the factory, and where a line of a script begins another life, with those from before the line.
pub fn lives_start_with_these_slots()
    ensures first { (h : Header)
        → StartsWith (factory_slots h.factory) (first_nodes h).ends.unit }
    ensures next { (a : Action) (n : Nodes) → ((step a n).nodes.ends.lives ≡ n.ends.lives)
        ⊎ StartsWith (slots_in n.ends) (step a n).nodes.ends.unit }
{}
