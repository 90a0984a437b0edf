//! What a walk along the words keeps in mind.

use crate::fault::TestKind;
use crate::operators::Question;
use std::alloc::AllocFailed;

/// A fault, and how many words are left from its word on.
#[derive(Clone, Copy, PartialEq, Eq)]
pub struct Stop {
    pub kind: TestKind,
    pub left: usize,
}

/// What the tests of a level say so far.
#[derive(Clone, Copy, PartialEq, Eq)]
pub enum Standing {
    /// The next test decides.
    Open,
    /// The conjunction is false: its other tests aren't asked.
    Lost,
    /// The expression is true, or isn't asked at all.
    Settled,
}

/// What is open around the place.
#[derive(Clone, Copy, PartialEq, Eq)]
pub enum Frame {
    /// A `!`.
    Not,
    /// A `(`, and what stands outside of it.
    Group(Standing),
}

/// What begins at a place where a test is due.
#[derive(Clone, Copy, PartialEq, Eq)]
pub enum Look {
    /// A comparison and whether it holds.
    Compared(bool),
    /// An operator on one word, and what it says of it.
    Known(bool),
    /// A question on the next word.
    Asks(Question),
    Not,
    Open,
}

/// Why a walk ends early.
#[derive(Clone, Copy, PartialEq, Eq)]
pub enum Halt {
    Wrong(Stop),
    Failed,
    NoMemory,
}

impl<T: Drop> From<AllocFailed<T>> for Halt {
    ghost use Rattle.std.specs.Prelude.{◌≡◌};
    ghost use Rattle.el_test.specs.declared.walking.Halt.TheVariants.{NoMemory as no_memory};

    ghost from_gives = { λ _ e. e ≡ no_memory };

    fn from(_: AllocFailed<T>) -> Self {
        Halt::NoMemory
    }
}

impl From<Stop> for Halt {
    ghost use Rattle.std.specs.Prelude.{◌≡◌};
    ghost use Rattle.el_test.specs.declared.walking.Halt.TheVariants.{Wrong};

    ghost from_gives = { λ stopped e. e ≡ Wrong stopped };

    fn from(stopped: Stop) -> Self {
        Halt::Wrong(stopped)
    }
}
