//! What may happen to a manager, what it tells of it, and within how many seconds a command and a
//! job end. Definitions alone.
#![tactic(auto)]
