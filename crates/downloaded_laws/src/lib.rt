//! The law of software downloads over scripts of both ends, proved of the definitions alone.
//! Its function does nothing: what it ensures is the law, and a caller's proof may cite it.
#![tactic(auto)]

ghost use Rattle.std.specs.Prelude.{List};
ghost use Rattle.std.specs.List.{All};
ghost use Rattle.tci_spec.specs.Tci.{IsNumber};
ghost use Rattle.script_spec.specs.Script.{Header, Action, IsAction};
ghost use Rattle.history_spec.specs.History.{DownloadedRight};
ghost use Rattle.world_spec.specs.History.{history_of};

use world_laws::{replies_are_own, requests_are_awaited};

/// Whatever a script of both ends does, within its ranges: the image of each download that has
/// ended is, byte for byte, the one that the unit checked last for its slot.
pub fn downloads_are_what_was_checked()
    ensures { (h : Header) (actions : List Action) → IsNumber h.low → IsNumber h.high
        → All IsAction actions
        → DownloadedRight (history_of h actions) }
{
    requests_are_awaited();
    replies_are_own();
}
