//! Laws of a software image that goes from a manager to a unit window by window, proved of the
//! definitions alone. Each function does nothing: what it ensures is the law, and a caller's proof
//! may cite it.
#![tactic(auto)]

ghost use Rattle.std.specs.Prelude.{◌≡◌, ℕ, ◌≤◌, Bool, true, false, List, length, Option, Some};
ghost use Rattle.std.specs.Prelude.{IfSome};
ghost use Rattle.omci_types.specs.declared.EntityId.{EntityId};
ghost use Rattle.message_spec.specs.declared.Request.TheVariants.{Section, End};
ghost use Rattle.window_spec.specs.Outgoing.{Outgoing, new_outgoing, section_count, is_last};
ghost use Rattle.window_spec.specs.Outgoing.{window_count, after_window};
ghost use Rattle.lane_spec.specs.Command.{command_packets};
ghost use Rattle.manager_spec.specs.Manager.{Order};
ghost use Rattle.manager_spec.specs.Upgrade.{image_entity, image_window};
ghost use Rattle.store_spec.specs.State.{Loading, StoreState};
ghost use Rattle.store_spec.specs.Deeds.{Begin, Seal, deed};
ghost use Rattle.store_spec.specs.Effects.{download_after, answered, handled_done};
ghost use Rattle.download_laws.specs.Carrying.{HasBefore, HasAll, IsSectionOf, Carried};
ghost use Rattle.download_laws.specs.Sending.{AreSent};

/// A download begins with nothing of its image. A section of the window that is sent is held, or
/// ends the window, which is then put, or is refused or dropped; whichever it is, the download has
/// the windows before it, or that one too; and that one too where it is answered with code 0. Then
/// the next one may be sent; after the last one the download has the image. An end that is answered
/// with code 0 seals what the download has, into its slot.
pub fn windows_carry_an_image()
    ensures begun { (image : List ℕ) (most slot granted : ℕ) (before : Option Loading)
        → IfSome (download_after (Begin slot (length image) granted) before)
        (HasBefore (new_outgoing image most)) }
    ensures section { (o : Outgoing) (room tci : ℕ) (one : EntityId) (number : ℕ) (bytes : List ℕ)
        (last : Bool) (m : StoreState) (l : Loading) → m.download ≡ Some l → HasBefore o l
        → IsSectionOf o number bytes last
        → Carried o (deed room tci one (Section number bytes last) m) l }
    ensures taken { (o : Outgoing) (room tci : ℕ) (one : EntityId) (number : ℕ) (bytes : List ℕ)
        (m : StoreState) (l : Loading) (grows leaves : Bool) → m.download ≡ Some l → HasBefore o l
        → IsSectionOf o number bytes true
        → handled_done (deed room tci one (Section number bytes true) m) ≡ answered 0 grows leaves
        → IfSome (download_after (deed room tci one (Section number bytes true) m) (Some l))
        (HasAll o) }
    ensures next { (o : Outgoing) (l : Loading) → HasAll o l → is_last o ≡ false
        → HasBefore (after_window o) l }
    ensures whole { (o : Outgoing) (l : Loading) → HasAll o l → is_last o ≡ true
        → o.first ≤ section_count o.image → l.put ≡ o.image }
    ensures sealed { (room tci : ℕ) (one : EntityId) (check size targets target : ℕ)
        (m : StoreState) (l : Loading) (slot : ℕ) (image : List ℕ) → m.download ≡ Some l
        → deed room tci one (End check size targets target) m ≡ Seal slot image
        → (slot ≡ l.target) × (image ≡ l.put) }
    ensures ended { (room tci : ℕ) (one : EntityId) (check size targets target : ℕ)
        (m : StoreState) (l : Loading) (grows leaves : Bool) → m.download ≡ Some l
        → handled_done (deed room tci one (End check size targets target) m)
        ≡ answered 0 grows leaves
        → deed room tci one (End check size targets target) m ≡ Seal l.target l.put }
{}

/// The packets that a manager sends for a window are those of its sections, the last one with AR.
pub fn windows_are_sent_by_sections()
    ensures { (order : Order) (o : Outgoing) (tci : ℕ) → 1 ≤ window_count o
        → AreSent o tci (image_entity order.slot)
        (command_packets tci (image_window order o)) }
{}
