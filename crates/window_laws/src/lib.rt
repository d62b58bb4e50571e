//! Laws of windows, proved of the definitions alone, and windows worked by hand. Each function does
//! nothing: what it ensures is the law, and a caller's proof may cite it.
#![tactic(auto)]

ghost use Rattle.std.specs.Prelude.{◌≡◌, ◌↔◌, ℕ, ◌+◌, ◌*◌, ◌-◌, ◌<◌, ◌≤◌, Bool, true, false};
ghost use Rattle.std.specs.Prelude.{List, [], ◌∷◌, ◌++◌, length, take, replicate, slice_get, Some};
ghost use Rattle.std.specs.List.{concat};
ghost use Rattle.window_spec.specs.declared.TheConstants.{SECTION_BYTES};
ghost use Rattle.window_spec.specs.declared.Arrived.TheVariants.{Held, Ignored, Whole, Broken};
ghost use Rattle.window_spec.specs.Incoming.{Section, Window, no_window, with_section};
ghost use Rattle.window_spec.specs.Incoming.{after_section, after_sections, answer, cut_window};
ghost use Rattle.window_spec.specs.Incoming.{tci_after, section};
ghost use Rattle.window_spec.specs.Outgoing.{section_count, section_at, sections_of, Outgoing};
ghost use Rattle.window_spec.specs.Outgoing.{new_outgoing, window_count, window_sections};
ghost use Rattle.window_spec.specs.Outgoing.{sections_before, is_last, after_window};
ghost use Rattle.window_laws.specs.Gathering.{Fits, window_of, held_of, AreWindow};
ghost use Rattle.window_laws.specs.Sending.{numbered, padding};
ghost use Rattle.window_laws.specs.Worked.{image, first_section, second_section, third_section};
ghost use Rattle.window_laws.specs.Worked.{first_window, second_window, coming, answers};
ghost use Rattle.window_laws.specs.Worked.{held_after, empty_sections};

/// When each answer to a section comes, and what is held then.
pub fn answers_are_exact()
    ensures whole { (s : Section) (last : Bool) (w : Window) (n : ℕ)
        → (answer s last w ≡ Whole n)
        ↔ ((last ≡ true) × Fits s w × ((after_section s w).sections ≡ n)) }
    ensures held { (s : Section) (last : Bool) (w : Window)
        → (answer s last w ≡ Held) ↔ ((last ≡ false) × Fits s w) }
    ensures broken { (s : Section) (last : Bool) (w : Window)
        → (answer s last w ≡ Broken) ↔ ((last ≡ true) × (Fits s w → ⊥)) }
    ensures ignored { (s : Section) (last : Bool) (w : Window)
        → (answer s last w ≡ Ignored) ↔ ((last ≡ false) × (Fits s w → ⊥)) }
    ensures begins { (s : Section) (w : Window) → s.number ≡ 0
        → after_section s w ≡ with_section s no_window }
    ensures apart { (s : Section) (w : Window) → (Fits s w → ⊥) → after_section s w ≡ w }
{}

/// Whatever sections come, those that are held are a window's first ones, in order and with none
/// missing, and so many bytes are held as they have.
pub fn windows_are_their_sections()
    ensures held { (came : List Section)
        → after_sections came no_window ≡ window_of (held_of came []) }
    ensures gapless { (came : List Section) → AreWindow (held_of came []) }
{}

/// The sections of a window that come in order under one TCI make the window whole, whatever was
/// held before.
pub fn windows_arrive_whole()
    ensures held { (tci : ℕ) (sections : List (List ℕ)) (w : Window) → 1 ≤ length sections
        → after_sections (numbered tci 0 sections) w
        ≡ record { sections = length sections; tci = tci; bytes = concat sections } }
    ensures whole { (tci : ℕ) (before : List (List ℕ)) (bytes : List ℕ) (w : Window)
        → answer (section tci (length before) bytes) true
        (after_sections (numbered tci 0 before) w) ≡ Whole (length before + 1) }
    ensures on_the_way { (tci : ℕ) (before : List (List ℕ)) (bytes : List ℕ) (w : Window)
        → answer (section tci (length before) bytes) false
        (after_sections (numbered tci 0 before) w) ≡ Held }
{}

/// The sections of an image have each of its bytes once, in order, and fewer than 31 zeros behind
/// the last one.
pub fn images_are_their_sections()
    ensures bytes { (image : List ℕ)
        → concat (sections_of image) ≡ image ++ replicate (padding image) 0 }
    ensures fewer { (image : List ℕ) → padding image < SECTION_BYTES }
    ensures long { (place : ℕ) (image : List ℕ)
        → length (section_at place image) ≡ SECTION_BYTES }
    ensures count { (image : List ℕ) → length (sections_of image) ≡ section_count image }
{}

/// The windows of an image have each of its sections once, in order: none stand before the first
/// window, each window adds its own, and with those of the last one they are all.
pub fn windows_have_each_section()
    ensures first { (image : List ℕ) (most : ℕ)
        → sections_before (new_outgoing image most) ≡ [] }
    ensures next { (o : Outgoing) → is_last o ≡ false
        → sections_before (after_window o) ≡ sections_before o ++ window_sections o }
    ensures last { (o : Outgoing) → is_last o ≡ true → o.first ≤ section_count o.image
        → sections_before o ++ window_sections o ≡ sections_of o.image }
    ensures within { (o : Outgoing) → o.first < section_count o.image
        → (after_window o).first < section_count o.image }
    ensures numbered { (o : Outgoing) (number : ℕ) → number < window_count o
        → slice_get (window_sections o) number ≡ Some (section_at (o.first + number) o.image) }
    ensures count { (o : Outgoing) → length (window_sections o) ≡ window_count o }
{}

/// The bytes of a window, cut where the image ends, go on where those of the windows before end;
/// with those of the last window they are the image.
pub fn windows_make_the_image()
    ensures joined { (o : Outgoing) → take (SECTION_BYTES * o.first) o.image
        ++ take (length o.image - SECTION_BYTES * o.first) (concat (window_sections o))
        ≡ take (SECTION_BYTES * (o.first + window_count o)) o.image }
    ensures last { (o : Outgoing) → is_last o ≡ true → o.first ≤ section_count o.image
        → take (SECTION_BYTES * (o.first + window_count o)) o.image ≡ o.image }
{}

/// What is held, cut where the image ends, is enough to go on with: it gives the same answers.
pub fn windows_may_be_cut()
    ensures window { (room : ℕ) (s : Section) (w : Window)
        → cut_window room (after_section s (cut_window room w))
        ≡ cut_window room (after_section s w) }
    ensures answer { (room : ℕ) (s : Section) (last : Bool) (w : Window)
        → answer s last (cut_window room w) ≡ answer s last w }
{}

/// An image of 63 bytes in windows of two sections, and sections that come in order, again, out of
/// order, and under other TCIs.
pub fn worked_rows()
    ensures sections { sections_of image
        ≡ first_section ∷ second_section ∷ third_section ∷ [] }
    ensures first_window { window_sections first_window ≡ first_section ∷ second_section ∷ [] }
    ensures second_window { window_sections second_window ≡ third_section ∷ [] }
    ensures last_window { is_last second_window ≡ true }
    ensures one_tci { answers (coming 3 0 first_section false ∷ coming 3 1 second_section true
        ∷ coming 4 0 third_section true ∷ []) no_window ≡ Held ∷ Whole 2 ∷ Whole 1 ∷ [] }
    ensures held { held_after (coming 3 0 first_section false ∷ coming 3 1 second_section true ∷ [])
        no_window ≡ record { sections = 2; tci = 3; bytes = first_section ++ second_section } }
    ensures next_tcis { answers (coming 2 0 first_section false
        ∷ coming 3 1 second_section true ∷ []) no_window ≡ Held ∷ Whole 2 ∷ [] }
    ensures other_tci { answers (coming 2 0 first_section false ∷ coming 4 1 second_section true
        ∷ coming 1 1 second_section false ∷ coming 2 1 second_section true ∷ []) no_window
        ≡ Held ∷ Broken ∷ Ignored ∷ Whole 2 ∷ [] }
    ensures missing { answers (coming 2 0 first_section false ∷ coming 2 2 third_section true ∷ [])
        no_window ≡ Held ∷ Broken ∷ [] }
    ensures twice { answers (coming 2 0 first_section false ∷ coming 2 1 second_section false
        ∷ coming 2 1 second_section true ∷ []) no_window ≡ Held ∷ Held ∷ Broken ∷ [] }
    ensures no_first { answers (coming 2 1 second_section true ∷ coming 2 1 second_section false
        ∷ []) no_window ≡ Broken ∷ Ignored ∷ [] }
    ensures anew { held_after (coming 2 0 first_section false ∷ coming 2 1 second_section false
        ∷ coming 9 0 third_section false ∷ []) no_window
        ≡ record { sections = 1; tci = 9; bytes = third_section } }
    ensures longest { answer (section 1 255 []) true
        (after_sections (numbered 1 0 (empty_sections 255)) no_window) ≡ Whole 256 }
    ensures tcis { (tci_after 32767 ≡ 1) × (tci_after 65535 ≡ 32769) × (tci_after 1 ≡ 2)
        × (tci_after 32769 ≡ 32770) × (tci_after 0 ≡ 1) × (tci_after 32768 ≡ 32769) }
{}
