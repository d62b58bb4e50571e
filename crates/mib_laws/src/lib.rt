//! Laws of the unit's database, proved of the definitions alone, and rows of the profile worked by
//! hand. Each function does nothing: what it ensures is the law, and a caller's proof may cite it.
#![tactic(auto)]

ghost use Rattle.std.specs.Prelude.{◌≡◌, ◌≢◌, ℕ, true, List, [], ◌∷◌, length, map, option_map};
ghost use Rattle.std.specs.Prelude.{replicate, Some};
ghost use Rattle.omci_types.specs.declared.EntityId.{EntityId};
ghost use Rattle.omci_types.specs.declared.Software.{Software};
ghost use Rattle.class_spec.specs.Classes.{class_table};
ghost use Rattle.mib_spec.specs.declared.Sensed.TheVariants.{Changed};
ghost use Rattle.mib_spec.specs.Database.{Database, Managed, Values, entity, managed_of, values_of};
ghost use Rattle.mib_spec.specs.Database.{with_entity, without_entity, with_values};
ghost use Rattle.mib_spec.specs.Database.{with_counter_grown, with_software, counter, bump};
ghost use Rattle.mib_spec.specs.Database.{has_unit_entities, first};
ghost use Rattle.mib_spec.specs.Requests.{create_outcome, delete_outcome, set_outcome, get_outcome};
ghost use Rattle.mib_spec.specs.Requests.{reset, sense_outcome};
ghost use Rattle.mib_laws.specs.Made.{HoldsOnlyMade};
ghost use Rattle.mib_laws.specs.Counted.{IsCounted, revalue};
ghost use Rattle.mib_laws.specs.Rows.{size_of, place_of_third, one_image, with_filter, after_sets};

/// A change at one entity leaves every other entity as it is, and that entity has what it was
/// given.
pub fn others_stay()
    ensures with_entity { (one other : EntityId) (managed : Managed) (database : Database)
        → one ≢ other
        → managed_of other (with_entity one managed database) ≡ managed_of other database }
    ensures without_entity { (one other : EntityId) (database : Database) → one ≢ other
        → managed_of other (without_entity one database) ≡ managed_of other database }
    ensures with_values { (one other : EntityId) (values : Values) (database : Database)
        → one ≢ other
        → managed_of other (with_values one values database) ≡ managed_of other database }
    ensures entity_is_there { (one : EntityId) (managed : Managed) (database : Database)
        → managed_of one (with_entity one managed database) ≡ Some managed }
    ensures values_are_there { (one : EntityId) (values : Values) (database : Database)
        → managed_of one (with_values one values database)
        ≡ option_map (revalue values) (managed_of one database) }
{}

/// The counter is one more, and 1 after 255, after a create and a delete with the code 0.
pub fn requests_are_counted()
    ensures grown { (database : Database) → IsCounted database
        → counter (with_counter_grown database) ≡ bump (counter database) }
    ensures create { (one : EntityId) (given : List ℕ) (database : Database) → IsCounted database
        → (create_outcome one given database).0 ≡ 0
        → counter (create_outcome one given database).1 ≡ bump (counter database) }
    ensures delete { (one : EntityId) (database : Database) → IsCounted database
        → (delete_outcome one database).0 ≡ 0
        → counter (delete_outcome one database).1 ≡ bump (counter database) }
{}

/// The entities that the unit makes at its start are there at first, and each request keeps them.
pub fn unit_entities_stay()
    ensures first { (software : Software) → has_unit_entities (first software) ≡ true }
    ensures create { (one : EntityId) (given : List ℕ) (database : Database)
        → has_unit_entities database ≡ true
        → has_unit_entities (create_outcome one given database).1 ≡ true }
    ensures delete { (one : EntityId) (database : Database)
        → has_unit_entities database ≡ true
        → has_unit_entities (delete_outcome one database).1 ≡ true }
    ensures set { (one : EntityId) (mask : ℕ) (given : List ℕ) (database : Database)
        → has_unit_entities database ≡ true
        → has_unit_entities (set_outcome one mask given database).database ≡ true }
    ensures reset { (database : Database) → has_unit_entities (reset database) ≡ true }
    ensures sense { (one : EntityId) (number : ℕ) (value : List ℕ) (database : Database)
        → has_unit_entities database ≡ true
        → has_unit_entities (sense_outcome one number value database).1 ≡ true }
    ensures grown { (database : Database) → has_unit_entities database ≡ true
        → has_unit_entities (with_counter_grown database) ≡ true }
    ensures software { (software : Software) (database : Database)
        → has_unit_entities database ≡ true
        → has_unit_entities (with_software software database) ≡ true }
{}

/// Of the classes whose instances the unit makes, the entities that it makes at its start are there
/// and no others, at first and after each request.
pub fn no_others_come()
    ensures first { (software : Software) → HoldsOnlyMade (first software) }
    ensures create { (one : EntityId) (given : List ℕ) (database : Database)
        → HoldsOnlyMade database → HoldsOnlyMade (create_outcome one given database).1 }
    ensures delete { (one : EntityId) (database : Database)
        → HoldsOnlyMade database → HoldsOnlyMade (delete_outcome one database).1 }
    ensures set { (one : EntityId) (mask : ℕ) (given : List ℕ) (database : Database)
        → HoldsOnlyMade database → HoldsOnlyMade (set_outcome one mask given database).database }
    ensures reset { (database : Database) → HoldsOnlyMade (reset database) }
    ensures sense { (one : EntityId) (number : ℕ) (value : List ℕ) (database : Database)
        → HoldsOnlyMade database → HoldsOnlyMade (sense_outcome one number value database).1 }
    ensures grown { (database : Database)
        → HoldsOnlyMade database → HoldsOnlyMade (with_counter_grown database) }
    ensures software { (software : Software) (database : Database)
        → HoldsOnlyMade database → HoldsOnlyMade (with_software software database) }
{}

/// Rows of the profile: each class's number, how many attributes it has, and their bytes together;
/// the first database; and requests to it.
pub fn worked_rows()
    ensures classes { map size_of class_table
        ≡ (2, 1, 1) ∷ (7, 4, 17) ∷ (11, 11, 13) ∷ (45, 10, 17) ∷ (47, 13, 24) ∷ (84, 3, 26)
        ∷ (130, 13, 45) ∷ (256, 8, 31) ∷ (257, 9, 31) ∷ (262, 3, 4) ∷ (266, 8, 12) ∷ (268, 8, 13)
        ∷ (272, 1, 2) ∷ [] }
    ensures third_attribute { place_of_third 84 ≡ 25 }
    ensures eleven { length (first one_image) ≡ 11 }
    ensures image { values_of (entity 7 0) (first one_image)
        ≡ (1, 255 ∷ replicate 13 0) ∷ (2, 1 ∷ []) ∷ (3, 1 ∷ []) ∷ (4, 1 ∷ []) ∷ [] }
    ensures set_is_refused { set_outcome (entity 11 257) 3328 (1 ∷ 1 ∷ 6 ∷ replicate 27 0)
        (first one_image)
        ≡ record { code = 9; unsupported = 0; failed = 1024; database = first one_image } }
    ensures get_is_too_wide { get_outcome (entity 84 1) 57344 with_filter
        ≡ record { code = 3; mask = 0; values = replicate 25 0; unsupported = 0 } }
    ensures create_grows { counter with_filter ≡ 1 }
    ensures counter_is_read { get_outcome (entity 2 0) 32768 with_filter
        ≡ record { code = 0; mask = 32768; values = 1 ∷ replicate 24 0; unsupported = 0 } }
    ensures sets_are_counted { counter after_sets ≡ 1 }
    ensures reset_is_first { reset with_filter ≡ first one_image }
    ensures absent_is_kept { (delete_outcome (entity 272 9) (first one_image)).0 ≡ 5 }
    ensures unit_deletes { (delete_outcome (entity 2 0) (first one_image)).0 ≡ 2 }
    ensures twice { (create_outcome (entity 84 1) (replicate 32 0) with_filter).0 ≡ 7 }
    ensures unit_creates { (create_outcome (entity 11 1) (replicate 32 0) (first one_image)).0 ≡ 2 }
    ensures no_class { (create_outcome (entity 9 1) (replicate 32 0) (first one_image)).0 ≡ 4 }
    ensures measured { (sense_outcome (entity 11 257) 2 (47 ∷ []) (first one_image)).0 ≡ Changed }
    ensures measured_is_read { get_outcome (entity 11 257) 16384
        (sense_outcome (entity 11 257) 2 (47 ∷ []) (first one_image)).1
        ≡ record { code = 0; mask = 16384; values = 47 ∷ replicate 24 0; unsupported = 0 } }
{}
