//! Laws of scripts and of orders: which bytes write them, which have a fault, and that reading from
//! left to right finds out. Each law is the clause of a function with an empty body.
#![tactic(auto)]

ghost use Rattle.std.specs.Prelude.{◌≡◌, ◌⊎◌, ℕ, List, Some, None, Ok, Err};
ghost use Rattle.script_spec.specs.Script.{Script, IsScript, Orders, IsOrders};
ghost use Rattle.script_spec.specs.Grammar.{Writes, WritesOrders};
ghost use Rattle.script_spec.specs.Fault.{fault, orders_fault};
ghost use Rattle.script_spec.specs.Reading.{reading, orders_reading};
ghost use Rattle.script_spec.specs.Canonical.{canonical};

/// Reading gives exactly the script that the bytes write.
pub fn reading_gives_what_is_written()
    ensures written { (bytes : List ℕ) (script : Script) → reading bytes ≡ Ok script
        → Writes script bytes }
    ensures read { (bytes : List ℕ) (script : Script) → Writes script bytes
        → reading bytes ≡ Ok script }
{}

/// Reading stops exactly at the first fault.
pub fn reading_stops_at_the_fault()
    ensures found { (bytes : List ℕ) (line reason : ℕ) → reading bytes ≡ Err (line, reason)
        → fault bytes ≡ Some (line, reason) }
    ensures stops { (bytes : List ℕ) (line reason : ℕ) → fault bytes ≡ Some (line, reason)
        → reading bytes ≡ Err (line, reason) }
{}

/// No bytes are written by two different scripts.
pub fn bytes_write_one_script()
    ensures one { (bytes : List ℕ) (script other : Script) → Writes script bytes
        → Writes other bytes → script ≡ other }
{}

/// Bytes write a script, or they have a first fault, and never both.
pub fn bytes_write_a_script_or_have_a_fault()
    ensures either { (bytes : List ℕ)
        → ((script : Script) × Writes script bytes)
        ⊎ ((line reason : ℕ) × (fault bytes ≡ Some (line, reason))) }
    ensures no_fault { (bytes : List ℕ) (script : Script) → Writes script bytes
        → fault bytes ≡ None }
{}

/// The numbers and bytes of a script that some bytes write lie in their ranges.
pub fn scripts_lie_in_their_ranges()
    ensures ranges { (bytes : List ℕ) (script : Script) → Writes script bytes → IsScript script }
{}

/// The canonical text of a script in its ranges is one of its texts, and is read as the script.
pub fn canonical_texts_are_read()
    ensures written { (script : Script) → IsScript script → Writes script (canonical script) }
    ensures read { (script : Script) → IsScript script → reading (canonical script) ≡ Ok script }
{}

/// Reading orders gives exactly the orders that the bytes write.
pub fn reading_gives_the_orders_written()
    ensures written { (bytes : List ℕ) (orders : Orders) → orders_reading bytes ≡ Ok orders
        → WritesOrders orders bytes }
    ensures read { (bytes : List ℕ) (orders : Orders) → WritesOrders orders bytes
        → orders_reading bytes ≡ Ok orders }
{}

/// Reading orders stops exactly at the first fault.
pub fn reading_of_orders_stops_at_the_fault()
    ensures found { (bytes : List ℕ) (line reason : ℕ) → orders_reading bytes ≡ Err (line, reason)
        → orders_fault bytes ≡ Some (line, reason) }
    ensures stops { (bytes : List ℕ) (line reason : ℕ) → orders_fault bytes ≡ Some (line, reason)
        → orders_reading bytes ≡ Err (line, reason) }
{}

/// No bytes are written by two different orders.
pub fn bytes_write_one_orders()
    ensures one { (bytes : List ℕ) (orders other : Orders) → WritesOrders orders bytes
        → WritesOrders other bytes → orders ≡ other }
{}

/// Bytes write orders, or they have a first fault as orders, and never both.
pub fn bytes_write_orders_or_have_a_fault()
    ensures either { (bytes : List ℕ)
        → ((orders : Orders) × WritesOrders orders bytes)
        ⊎ ((line reason : ℕ) × (orders_fault bytes ≡ Some (line, reason))) }
    ensures no_fault { (bytes : List ℕ) (orders : Orders) → WritesOrders orders bytes
        → orders_fault bytes ≡ None }
{}

/// The numbers and bytes of orders that some bytes write lie in their ranges, and each order is one
/// of the manager's.
pub fn orders_lie_in_their_ranges()
    ensures ranges { (bytes : List ℕ) (orders : Orders) → WritesOrders orders bytes
        → IsOrders orders }
{}
