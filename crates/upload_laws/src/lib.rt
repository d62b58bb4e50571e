//! Laws of uploads, proved of the definitions alone, and a worked upload.
//! Each function does nothing: what it ensures is the law, and a caller's proof may cite it.
#![tactic(auto)]

ghost use Rattle.std.specs.Prelude.{◌≡◌, true};
ghost use Rattle.upload_spec.specs.Pieces.{Copy, pieces, without_makers};
ghost use Rattle.upload_spec.specs.Copies.{join, copy_counter};
ghost use Rattle.upload_laws.specs.Shaped.{IsWhole};
ghost use Rattle.upload_laws.specs.Worked.{first_copy, first_pieces};

/// The pieces of a copy, joined one after the other, are that copy: each entity with all of its
/// values, in the order in which they were.
pub fn pieces_join()
    ensures { (copy : Copy) → IsWhole copy → join (pieces copy) ≡ copy }
{}

/// The first database goes up in these thirteen pieces, and they come back as it.
pub fn worked_upload()
    ensures pieces { pieces first_copy ≡ first_pieces }
    ensures joined { join first_pieces ≡ first_copy }
    ensures counter { copy_counter first_copy ≡ 0 }
{}
