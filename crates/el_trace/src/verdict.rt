//! What is said of a recorded run.
ghost use Rattle.std.specs.Prelude.{◌≡◌};
ghost use Rattle.el_trace.specs.declared.verdict.RunFault.TheVariants.{NoMemory as no_memory};
ghost use Rattle.el_trace.specs.Replayed.{fault_of};

use el_check::{CheckFault, CheckKind};
use el_words::NoMemory;

/// What is said of a recorded run.
#[derive(Clone, Copy, PartialEq, Eq)]
pub enum Verdict {
    /// It keeps the rule on new handles, and is a run of the script.
    Yes,
    /// It keeps the rule and is no run of the script: so many events are as the script's meaning has them.
    Differs { at: usize },
    /// The event at this place is the first to give a handle that isn't new.
    Unlawful { at: usize },
}

/// Why nothing is said of a recorded run.
#[derive(Clone, Copy, PartialEq, Eq)]
pub enum RunFault {
    /// The script isn't accepted: its first fault, and the line of that.
    Script { kind: CheckKind, line: u32 },
    /// There was no memory.
    NoMemory,
}

impl From<NoMemory> for RunFault {
    ghost from_gives = { λ _ fault. fault ≡ no_memory };

    fn from(_: NoMemory) -> Self {
        RunFault::NoMemory
    }
}

impl From<CheckFault> for RunFault {
    ghost from_gives = { λ found fault. fault ≡ fault_of found };

    fn from(found: CheckFault) -> Self {
        match found.kind {
            CheckKind::NoMemory => RunFault::NoMemory,
            kind => RunFault::Script {
                kind,
                line: found.line,
            },
        }
    }
}
