//! Laws of the interval counters over lines of requests, counts and ticks, proved of the
//! definitions alone, and runs worked by hand. Each function does nothing: what it ensures is the
//! law, and a caller's proof may cite it.
#![tactic(auto)]

ghost use Rattle.std.specs.Prelude.{◌≡◌, ◌++◌, [], List, Ok, codes};
ghost use Rattle.meter_lines_spec.specs.declared.MeterLine.{MeterLine};
ghost use Rattle.meter_lines_spec.specs.Replies.{meter_text};
ghost use Rattle.meter_laws.specs.Carried.{AreCarriedOut};

/// None of the requests of lines comes again: each is carried out, and answered by the reply that
/// the counters give after all events before it. So each request of an input writes a line.
pub fn requests_are_carried_out()
    ensures law { (lines : List MeterLine) → AreCarriedOut 1 lines [] }
{}

/// A run worked by hand: a sum stays at its greatest number.
pub fn worked_row()
    ensures law { meter_text (codes "meter 1\ncreate 257\ncount 257 3 4294967295\n"
        ++ codes "count 257 3 1\ncurrent 257 2000\n")
        ≡ Ok (codes "1 0001 0a create-r 24 257 -\n4 0002 0a type-3c 24 257 002000ffffffff\n") }
{}

/// A run worked by hand: the counts of an interval of 900 ticks, and a count that is absent.
pub fn worked_interval()
    ensures law { meter_text (codes "meter 1\ncreate 257\ncount 257 3 5\ntick 899\n"
        ++ codes "get 257 2000\ntick 1\nget 257 2000\ncurrent 257 2000\ncount 258 3 1\n")
        ≡ Ok (codes "1 0001 0a create-r 24 257 -\n4 0002 0a get-r 24 257 0020\n"
        ++ codes "6 0003 0a get-r 24 257 00200000000005\n7 0004 0a type-3c 24 257 0020\n"
        ++ codes "8 absent\n") }
{}
