//! One turn of a loop.
use el_room::Pid;

/// What came of a turn's start.
#[derive(Clone, Copy, PartialEq, Eq)]
pub enum Turn {
    /// Nothing runs, and the turn counts as ended with this code: 127 where its command isn't found, 126 where it can't be
    /// started, and 0 where there are no words.
    Over(u8),
    /// It was started as this process, and wasn't waited for yet.
    Pending(Pid),
}
