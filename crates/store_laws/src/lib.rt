//! Laws of the unit's store, proved of the definitions alone, and a store worked by hand. Each
//! function does nothing: what it ensures is the law, and a caller's proof may cite it.
#![tactic(auto)]

ghost use Rattle.std.specs.Prelude.{◌≡◌, ◌⊎◌, ℕ, ◌<◌, Bool, true, List, [], ◌∷◌, ◌++◌};
ghost use Rattle.std.specs.Prelude.{IsSome};
ghost use Rattle.omci_types.specs.declared.Boot.{Boot};
ghost use Rattle.omci_types.specs.declared.EntityId.{EntityId};
ghost use Rattle.message_spec.specs.declared.Request.{Request};
ghost use Rattle.slot_spec.specs.Slots.{SlotPair, mid, image_at};
ghost use Rattle.slot_spec.specs.Layout.{StandsAmong};
ghost use Rattle.slot_spec.specs.Slots as change;
ghost use Rattle.store_spec.specs.declared.Handled.TheVariants.{Dropped, Held};
ghost use Rattle.store_spec.specs.History.{StoreEntry, Checked, CommitBegun, Committed, Ledger};
ghost use Rattle.store_spec.specs.History.{with_entries, first_ledger, ledger, BootableBy, Boots};
ghost use Rattle.store_spec.specs.History.{BootsEver};
ghost use Rattle.store_spec.specs.State.{StoreState, store_started};
ghost use Rattle.store_spec.specs.Deeds.{deed};
ghost use Rattle.store_spec.specs.Effects.{change_of, store_after, entries_by, answered};
ghost use Rattle.store_laws.specs.Explained.{ExplainedBy, StoreExplained};
ghost use Rattle.store_laws.specs.Deeds.{IsSound};
ghost use Rattle.store_laws.specs.Worked.{ask, after, answers, history, new_store, start};
ghost use Rattle.store_laws.specs.Worked.{download, commit, wrong_entities, wrong_starts};
ghost use Rattle.store_laws.specs.Worked.{without_download, too_many_sections, past_the_size};
ghost use Rattle.store_laws.specs.Worked.{other_target, wrong_size, wrong_check, failed_start};
ghost use Rattle.store_laws.specs.Worked.{with_second, refused, carried, taken};

/// Slots that papers explain are slots that they let a unit start with, and a history begins with
/// papers that explain its slots.
pub fn explained_slots_boot()
    ensures bootable { (l : Ledger) (s : SlotPair) → ExplainedBy l s → BootableBy l s }
    ensures first { (s : SlotPair) → s.committed < 2 → IsSome (image_at s.committed s)
        → ExplainedBy (first_ledger s) s }
{}

/// A unit starts with a store that is sound and explained, and each request keeps it so, with its
/// entries, whether or not a device call fails.
pub fn stores_stay_explained()
    ensures started { (boot : Boot) (s : SlotPair) → s.committed < 2
        → IsSound (store_started boot s) }
    ensures explained { (boot : Boot) (l : Ledger) (s : SlotPair) → ExplainedBy l s
        → StoreExplained l (store_started boot s) }
    ensures sound { (room tci : ℕ) (one : EntityId) (request : Request) (fails : Bool)
        (m : StoreState) → IsSound m → IsSound (store_after fails (deed room tci one request m) m) }
    ensures after { (room tci : ℕ) (one : EntityId) (request : Request) (fails : Bool) (l : Ledger)
        (m : StoreState) → IsSound m → StoreExplained l m
        → StoreExplained (with_entries (entries_by fails (deed room tci one request m)) l)
        (store_after fails (deed room tci one request m) m) }
{}

/// What a crash leaves of a store boots: while no request runs, by its whole history; inside one,
/// by its history at some moment.
pub fn each_crash_boots()
    ensures between { (room : ℕ) (s0 : SlotPair) (h : List StoreEntry) (m : StoreState)
        (bytes : List ℕ) → StoreExplained (ledger s0 h) m
        → StandsAmong room (mid m.doubt m.slots) bytes → Boots room s0 h bytes }
    ensures inside { (room tci : ℕ) (one : EntityId) (request : Request) (fails : Bool)
        (s0 : SlotPair) (h : List StoreEntry) (m : StoreState) (bytes : List ℕ) → IsSound m
        → StoreExplained (ledger s0 h) m
        → StandsAmong room (mid (change_of (deed room tci one request m)) m.slots) bytes
        ⊎ StandsAmong room (mid m.doubt m.slots) bytes
        → BootsEver room s0 (entries_by fails (deed room tci one request m) ++ h) bytes }
{}

/// Requests worked by hand: the whole way of an image, each refusal, windows, and a device fault.
pub fn worked_rows()
    ensures whole { answers download new_store
        ≡ carried ∷ taken ∷ carried ∷ answered 0 true true ∷ carried ∷ [] }
    ensures slots { (after download new_store).slots ≡ with_second }
    ensures history { history download new_store
        ≡ Committed 1 ∷ CommitBegun 1 ∷ Checked 1 (255 ∷ 255 ∷ []) 65535 ∷ [] }
    ensures again { answers (commit ∷ ask 7 (start 1 1) ∷ []) (after download new_store)
        ≡ carried ∷ refused 3 ∷ [] }
    ensures recommit { history (commit ∷ []) (after download new_store) ≡ Committed 1 ∷ [] }
    ensures entities { answers wrong_entities new_store
        ≡ refused 4 ∷ refused 2 ∷ refused 5 ∷ refused 3 ∷ [] }
    ensures starts { answers wrong_starts new_store ≡ refused 2 ∷ refused 3 ∷ refused 3 ∷ [] }
    ensures no_download { answers without_download new_store
        ≡ Dropped ∷ refused 1 ∷ refused 1 ∷ refused 3 ∷ refused 3 ∷ Dropped ∷ [] }
    ensures windows { answers too_many_sections new_store
        ≡ carried ∷ Held ∷ refused 3 ∷ refused 3 ∷ taken ∷ taken ∷ refused 3 ∷ [] }
    ensures past { answers past_the_size new_store ≡ carried ∷ Held ∷ Dropped ∷ refused 3 ∷ [] }
    ensures other_slot { answers other_target new_store
        ≡ carried ∷ Held ∷ refused 3 ∷ refused 3 ∷ [] }
    ensures sizes { answers wrong_size new_store ≡ carried ∷ taken ∷ refused 3 ∷ refused 1 ∷ [] }
    ensures checks { answers wrong_check new_store
        ≡ carried ∷ taken ∷ refused 1 ∷ refused 1 ∷ [] }
    ensures fault { answers failed_start new_store
        ≡ carried ∷ refused 1 ∷ refused 1 ∷ refused 4 ∷ [] }
    ensures doubt { (after failed_start new_store).doubt ≡ change.Clear 1 }
{}
