//! A recorded run.
use el_world::Log;

/// How a recorded run ended.
#[derive(Clone, Copy, PartialEq, Eq)]
pub enum RunEnd {
    /// With this status.
    Status(u8),
    /// A unit was due, and none was left.
    Spent,
}

/// A recorded run: its events, and how it ended.
#[derive(Drop)]
pub struct Trace {
    pub log: Log,
    pub end: RunEnd,
}
