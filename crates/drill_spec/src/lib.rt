//! What the drill is: the script that a number makes by draws and a table of weights, the numbers
//! of lines of some kinds in a trace, and the one line that tells them. The crate has definitions,
//! two plain types and the numbers.
#![tactic(auto)]

/// What a step of the drill does. Each kind has its lines.
#[derive(Clone, Copy, Debug, PartialEq, Eq)]
pub enum StepKind {
    Create,
    Set,
    Delete,
    Get,
    Flow,
    Tick,
    Alarm,
    Audit,
    Resync,
}

/// How many lines of a trace are of which kind, by the word after the event's number.
#[derive(Clone, Copy, Debug, PartialEq, Eq)]
pub struct Counts {
    /// Packets that went onto the link.
    pub sent: u64,
    /// Requests that the unit carried out.
    pub carried: u64,
    /// Replies that it gave again.
    pub kept: u64,
    /// Replies that the manager took.
    pub took: u64,
    /// Resynchronisations that ended with a copy.
    pub synced: u64,
    /// Commands that the manager refused to submit.
    pub refused: u64,
}

/// How many steps the drill has.
pub const STEPS: u64 = 5_000;
/// After so many steps the unit loses its power, each time anew.
pub const STEPS_TO_A_CUT: u64 = 1_000;

/// A draw's state is multiplied by this.
pub const DRAW_FACTOR: u64 = 1_664_525;
/// And this is added.
pub const DRAW_SUMMAND: u64 = 1_013_904_223;
/// A state of the draws is below this: of the sum the rest by this number is taken.
pub const DRAW_STATES: u64 = 4_294_967_296;
/// What is drawn is the state divided by this, without the rest: a number below 65,536.
pub const DRAWN_PART: u64 = 65_536;

/// The sum of the weights of all kinds of steps.
pub const ALL_WEIGHTS: u64 = 16;

/// The class of the entities that the drill creates: the GAL Ethernet profile (ITU-T G.988, clause
/// 9.2.7).
pub const DRILL_CLASS: u16 = 272;
/// Their instances are below this.
pub const DRILL_INSTANCES: u64 = 512;
/// The mask of their first attribute.
pub const FIRST_ATTRIBUTE: u16 = 0x8000;
/// The class of the entity whose alarms change: the physical path termination point Ethernet UNI
/// (ITU-T G.988, clause 9.5.1).
pub const PORT_CLASS: u16 = 11;
/// Its instance: the first port.
pub const PORT_INSTANCE: u16 = 257;

/// The room of an image slot of the drill's unit, in bytes.
pub const DRILL_ROOM: u32 = 4_096;

/// Deliveries after the first resynchronisation is begun.
pub const FIRST_FLOW: u32 = 100;
/// Deliveries after a command that is answered: both packets come.
pub const FLOW_BOTH: u32 = 2;
/// Deliveries of one packet alone.
pub const FLOW_ONE: u32 = 1;
/// Deliveries after an audit is begun.
pub const FLOW_AUDIT: u32 = 20;
/// Deliveries after a resynchronisation is begun.
pub const FLOW_RESYNC: u32 = 2_000;
