//! Laws of resynchronisation, proved of the definitions alone.
//! Each function does nothing: what it ensures is the law, and a caller's proof may cite it.
#![tactic(auto)]

ghost use Rattle.std.specs.Prelude.{◌≡◌, ◌≢◌, ◌<◌, ◌≤◌, ◌^◌, ℕ, true, List, length, Some};
ghost use Rattle.std.specs.List.{All};
ghost use Rattle.omci_types.specs.declared.EntityId.{EntityId};
ghost use Rattle.omci_types.specs.declared.Software.{Software};
ghost use Rattle.class_spec.specs.declared.TheConstants.{ONU_DATA};
ghost use Rattle.tci_spec.specs.Tci.{IsNumber};
ghost use Rattle.message_spec.specs.declared.Request.TheVariants as request;
ghost use Rattle.mib_spec.specs.Database.{Database, first, counter, is_held};
ghost use Rattle.mib_spec.specs.Requests.{create_outcome, delete_outcome, set_outcome, reset, sense_outcome};
ghost use Rattle.upload_spec.specs.declared.TheConstants.{PIECE_BYTES};
ghost use Rattle.upload_spec.specs.Pieces.{Copy, without_makers, pieces, piece_at};
ghost use Rattle.upload_spec.specs.Copies.{join, copy_counter};
ghost use Rattle.manager_spec.specs.declared.Phase.{Phase};
ghost use Rattle.manager_spec.specs.Copying.{copy_after};
ghost use Rattle.unit_spec.specs.Onu.{Onu};
ghost use Rattle.script_spec.specs.Script.{Header, Action, IsAction};
ghost use Rattle.history_spec.specs.History.{SyncedRight};
ghost use Rattle.world_spec.specs.Nodes.{Nodes};
ghost use Rattle.world_spec.specs.History.{Told, history_of};
ghost use Rattle.world_laws.specs.Facts.{AreReached};
ghost use Rattle.resync_laws.specs.Databases.{IsWholeDatabase, HasVersions};
ghost use Rattle.resync_laws.specs.Agreeing.{IsCopied};

use world_laws::{replies_are_own, requests_are_awaited};

/// The database that a unit starts with is whole, and each request and each value that the unit
/// measures leaves a whole one whole. A
/// create's values are filled to their 32 bytes.
pub fn databases_stay_whole()
    ensures first { (software : Software) → HasVersions software
        → IsWholeDatabase (first software) }
    ensures create { (one : EntityId) (given : List ℕ) (database : Database)
        → one.instance < 2 ^ 16 → 32 ≤ length given → IsWholeDatabase database
        → IsWholeDatabase (create_outcome one given database).1 }
    ensures delete { (one : EntityId) (database : Database) → IsWholeDatabase database
        → IsWholeDatabase (delete_outcome one database).1 }
    ensures set { (one : EntityId) (mask : ℕ) (given : List ℕ) (database : Database)
        → IsWholeDatabase database
        → IsWholeDatabase (set_outcome one mask given database).database }
    ensures reset { (database : Database) → IsWholeDatabase database
        → IsWholeDatabase (reset database) }
    ensures sense { (one : EntityId) (number : ℕ) (value : List ℕ) (database : Database)
        → IsWholeDatabase database
        → IsWholeDatabase (sense_outcome one number value database).1 }
{}

/// A whole database goes up in so few pieces that their number goes into two bytes, each piece has
/// 32 bytes, and joined they are the database without its makers.
pub fn whole_databases_go_up()
    ensures counted { (database : Database) → IsWholeDatabase database
        → length (pieces (without_makers database)) < 2 ^ 16 }
    ensures long { (database : Database) (number : ℕ) (piece : List ℕ) → IsWholeDatabase database
        → piece_at number (without_makers database) ≡ Some piece → length piece ≡ PIECE_BYTES }
    ensures joined { (database : Database) → IsWholeDatabase database
        → join (pieces (without_makers database)) ≡ without_makers database }
{}

/// The copy that a resynchronisation gives agrees with the database; a change that is answered by
/// code 0 and followed in the copy keeps the two agreeing, their counters too; and one that is
/// answered by another code changes nothing at the unit.
pub fn copies_follow_changes()
    ensures snapshot { (database : Database) → IsWholeDatabase database
        → is_held ONU_DATA database ≡ true
        → IsCopied database (without_makers database) }
    ensures counter { (database : Database) (copy : Copy) → IsCopied database copy
        → counter database ≡ copy_counter copy }
    ensures create { (phase : Phase) (one : EntityId) (given : List ℕ) (database : Database)
        (copy : Copy) → one.instance < 2 ^ 16 → 32 ≤ length given → IsCopied database copy
        → (create_outcome one given database).0 ≡ 0
        → IsCopied (create_outcome one given database).1
        (copy_after phase one (request.Create given) copy) }
    ensures delete { (phase : Phase) (one : EntityId) (database : Database) (copy : Copy)
        → IsCopied database copy
        → (delete_outcome one database).0 ≡ 0
        → IsCopied (delete_outcome one database).1 (copy_after phase one request.Delete copy) }
    ensures set { (phase : Phase) (one : EntityId) (mask : ℕ) (given : List ℕ)
        (database : Database) (copy : Copy) → IsCopied database copy
        → (set_outcome one mask given database).code ≡ 0
        → IsCopied (set_outcome one mask given database).database
        (copy_after phase one (request.Set mask given) copy) }
    ensures create_refused { (one : EntityId) (given : List ℕ) (database : Database)
        → (create_outcome one given database).0 ≢ 0
        → (create_outcome one given database).1 ≡ database }
    ensures delete_refused { (one : EntityId) (database : Database)
        → (delete_outcome one database).0 ≢ 0
        → (delete_outcome one database).1 ≡ database }
    ensures set_refused { (one : EntityId) (mask : ℕ) (given : List ℕ) (database : Database)
        → (set_outcome one mask given database).code ≢ 0
        → (set_outcome one mask given database).database ≡ database }
{}

/// Whatever a script of both ends does, within its ranges: the copy of each resynchronisation that
/// is completed is the database, without its makers, that its upload put by last; and the database
/// of a unit that is on is whole.
pub fn copies_are_snapshots()
    ensures synced { (h : Header) (actions : List Action) → IsNumber h.low → IsNumber h.high
        → All IsAction actions
        → SyncedRight (history_of h actions) }
    ensures whole { (n : Nodes) (t : Told) (u : Onu) → AreReached n t → n.ends.unit ≡ Some u
        → IsWholeDatabase u.database }
{
    requests_are_awaited();
    replies_are_own();
}
