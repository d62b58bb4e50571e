//! Laws of audits, proved of the definitions alone.
//! Each function does nothing: what it ensures is the law, and a caller's proof may cite it.
#![tactic(auto)]

ghost use Rattle.std.specs.Prelude.{◌≡◌, List};
ghost use Rattle.std.specs.List.{All};
ghost use Rattle.tci_spec.specs.Tci.{IsNumber};
ghost use Rattle.script_spec.specs.Script.{Header, Action, IsAction};
ghost use Rattle.history_spec.specs.History.{AuditedRight};
ghost use Rattle.world_spec.specs.History.{history_of};
ghost use Rattle.world_spec.specs.Trace.{trace};
ghost use Rattle.audit_laws.specs.Worked.{audited, audited_trace, noticed, noticed_trace, job_in_the_way, job_in_the_way_trace};

use world_laws::{replies_are_own, requests_are_awaited};

/// Whatever a script of both ends does, within its ranges: the table of each audit that is
/// completed is what its get all alarms command put by last, followed by the notices that the
/// manager took since that command's reply.
pub fn audits_are_snapshots()
    ensures { (h : Header) (actions : List Action) → IsNumber h.low → IsNumber h.high
        → All IsAction actions
        → AuditedRight (history_of h actions) }
{
    requests_are_awaited();
    replies_are_own();
}

/// Scripts with an audit, worked by hand, have the traces that were worked with them: an alarm that
/// was told before the audit is in its table, and so is one that was told meanwhile; beside an
/// audit the lane is occupied, and no other lane is probed.
pub fn worked_audits()
    ensures audited { trace audited ≡ audited_trace }
    ensures noticed { trace noticed ≡ noticed_trace }
    ensures job_in_the_way { trace job_in_the_way ≡ job_in_the_way_trace }
{}
