//! Laws of downloads of software images, proved of the definitions alone. Each function does
//! nothing: what it ensures is the law, and a caller's proof may cite it.
#![tactic(auto)]

ghost use Rattle.std.specs.Prelude.{◌≡◌};
ghost use Rattle.world_spec.specs.Trace.{trace};
ghost use Rattle.image_laws.specs.Worked.{windows_sent, windows_sent_trace, wrong_check, wrong_check_trace, cut_before, cut_before_trace, cut_behind, cut_behind_trace, cut_after, cut_after_trace, cut_to_byte, cut_to_byte_trace, committed_and_cut, committed_and_cut_trace, activated, activated_trace};

/// Scripts with downloads, worked by hand, have the traces that were worked with them, check values
/// included.
pub fn worked_downloads()
    ensures windows_sent { trace windows_sent ≡ windows_sent_trace }
    ensures wrong_check { trace wrong_check ≡ wrong_check_trace }
{}

/// So have scripts in which the power goes amid a commit, after it, and after an activate.
pub fn worked_cuts()
    ensures cut_before { trace cut_before ≡ cut_before_trace }
    ensures cut_behind { trace cut_behind ≡ cut_behind_trace }
    ensures cut_after { trace cut_after ≡ cut_after_trace }
    ensures cut_to_byte { trace cut_to_byte ≡ cut_to_byte_trace }
    ensures committed_and_cut { trace committed_and_cut ≡ committed_and_cut_trace }
    ensures activated { trace activated ≡ activated_trace }
{}
