//! The reply that a unit gave last in each priority, which it gives again where the request comes
//! again (ITU-T G.988, clause 11.2.2). Definitions alone.
#![tactic(auto)]
