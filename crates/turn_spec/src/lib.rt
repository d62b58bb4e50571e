//! The turns of an end that runs alone over a link: what each turn takes from the link, and what a
//! run of turns sends and writes. Definitions alone.
#![tactic(auto)]
