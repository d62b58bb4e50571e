//! Laws of plans, proved of the definitions alone, and rows worked by hand. Each function does
//! nothing: what it ensures is the law, and a caller's proof may cite it.
#![tactic(auto)]

ghost use Rattle.std.specs.Prelude.{◌≡◌, [], ◌∷◌, ◌++◌, replicate, Ok, Err, Some, None};
ghost use Rattle.mib_spec.specs.Database.{entity};
ghost use Rattle.plan_spec.specs.declared.PlanFault.TheVariants.{NotMade};
ghost use Rattle.plan_spec.specs.declared.WantedFault.TheVariants.{ClassUnknown, NotWritable, Width, Repeated};
ghost use Rattle.plan_spec.specs.Wanting.{wanted_fault, with_wanted};
ghost use Rattle.plan_spec.specs.Steps.{planned, Delete, Create, Set};
ghost use Rattle.plan_laws.specs.Rows.{counter_alone, gal, gal_more, t_cont, mapper, bridge};

/// Rows of plans: from what a copy has, what is wanted, and the steps or the refusal.
pub fn worked_rows()
    ensures another { planned (gal 1 48) (with_wanted (entity 272 2) 32768 (0 ∷ 64 ∷ []) [])
        ≡ Ok (Delete (entity 272 1) ∷ Create (entity 272 2) (0 ∷ 64 ∷ replicate 30 0) ∷ []) }
    ensures same { planned (gal 1 48) (with_wanted (entity 272 1) 32768 (0 ∷ 48 ∷ []) []) ≡ Ok [] }
    ensures differs { planned t_cont (with_wanted (entity 262 32769) 32768 (4 ∷ 1 ∷ []) [])
        ≡ Ok (Set (entity 262 32769) 32768 (4 ∷ 1 ∷ replicate 28 0) ∷ []) }
    ensures not_made { planned counter_alone (with_wanted (entity 262 1) 32768 (4 ∷ 1 ∷ []) [])
        ≡ Err (NotMade (entity 262 1)) }
    ensures least_is_not_made { planned counter_alone (with_wanted (entity 262 7) 32768 (4 ∷ 1 ∷ [])
        (with_wanted (entity 262 9) 32768 (4 ∷ 1 ∷ []) []))
        ≡ Err (NotMade (entity 262 7)) }
    ensures ascending { planned gal_more [] ≡ Ok (Delete (entity 272 1) ∷ Delete (entity 272 2) ∷ []) }
    ensures unnamed_stays { planned (gal 1 48) (with_wanted (entity 272 1) 0 [] []) ≡ Ok [] }
    ensures two_sets { planned counter_alone (with_wanted (entity 130 5) 65528 mapper [])
        ≡ Ok (Create (entity 130 5) (replicate 18 7 ++ 8 ∷ 10 ∷ 11 ∷ replicate 11 0)
        ∷ Set (entity 130 5) 32 (replicate 24 9 ++ replicate 6 0) ∷ []) }
    ensures greedy { planned bridge (with_wanted (entity 130 5) 65528 mapper [])
        ≡ Ok (Set (entity 130 5) 65472 (replicate 18 7 ++ 8 ∷ replicate 11 0)
        ∷ Set (entity 130 5) 56 (replicate 24 9 ++ 10 ∷ 11 ∷ replicate 4 0) ∷ []) }
    ensures unknown { wanted_fault (entity 9 1) 0 [] [] ≡ Some ClassUnknown }
    ensures counter { wanted_fault (entity 2 0) 32768 (1 ∷ []) [] ≡ Some ClassUnknown }
    ensures read_only { wanted_fault (entity 262 1) 57345 (0 ∷ 0 ∷ 0 ∷ []) []
        ≡ Some (NotWritable 16385) }
    ensures width { wanted_fault (entity 262 1) 40960 (0 ∷ 0 ∷ []) [] ≡ Some (Width 3 2) }
    ensures repeated { wanted_fault (entity 272 1) 0 []
        (with_wanted (entity 272 1) 32768 (0 ∷ 48 ∷ []) []) ≡ Some Repeated }
    ensures good { wanted_fault (entity 272 2) 32768 (0 ∷ 1 ∷ [])
        (with_wanted (entity 272 1) 32768 (0 ∷ 48 ∷ []) []) ≡ None }
{}
