//! The manager alone, over orders and a link: each turn gives it the next order where it waits for
//! nothing, and then hands it what the link gives.
#![tactic(auto)]

mod run;

pub use olt_seat::OltFault;
pub use run::run_olt;
