//! The unit's database and what each request does to it. The crate has types and definitions alone.
#![tactic(auto)]

/// What became of a value that the unit measured.
#[derive(Clone, Copy, Debug, PartialEq, Eq)]
pub enum Sensed {
    /// The value may not be measured, and nothing has changed.
    NotAllowed,
    /// The attribute holds this value already.
    Same,
    /// The attribute holds the value now.
    Changed,
}

/// No database has more entities.
pub const MOST_ENTITIES: usize = 4096;

/// How many entities the unit makes when it starts. No request removes one of them.
pub const UNIT_ENTITIES: usize = 11;
