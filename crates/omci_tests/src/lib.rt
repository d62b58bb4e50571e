//! What the crate that all others stand on does where no clause says it, and what of it has no
//! text: sources and sinks that fail at a call. The crate has tests alone.
#![tactic(auto)]

#[cfg(test)]
mod core_types;
