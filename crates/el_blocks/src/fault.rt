//! Why tokens have no spelling.
ghost use Rattle.std.specs.Prelude.{◌≡◌};
ghost use Rattle.el_blocks.specs.declared.fault.SpellFault.TheVariants.{NoMemory as no_memory};
ghost use Rattle.el_blocks.specs.Faults.{fault_name};

use el_words::NoMemory;
use std::error::Error;
use std::fmt;

/// Why tokens have no spelling.
#[derive(Clone, Copy, Debug, PartialEq, Eq)]
pub enum SpellFault {
    /// A Close on this line closes no block.
    StrayClose { line: u32 },
    /// The Open on this line would make 256 levels.
    TooDeep { line: u32 },
    /// The first Open that is never closed stands on this line.
    Unclosed { line: u32 },
    /// There is no memory for the words.
    NoMemory,
}

impl SpellFault {
    /// The name by which messages call the kind.
    #[tactic(auto, unfolding(crate::specs::Faults::fault_name))]
    pub fn name(self) -> &'static str
        ensures { result.now ≡ fault_name self }
    {
        match self {
            SpellFault::StrayClose { .. } => "StrayClose",
            SpellFault::TooDeep { .. } => "TooDeep",
            SpellFault::Unclosed { .. } => "Unclosed",
            SpellFault::NoMemory => "NoMemory",
        }
    }
}

/// Writes the line and the name of the kind, as `line 3: StrayClose`.
impl fmt::Display for SpellFault {
    ghost use Rattle.std.specs.Prelude.{Some};
    ghost use Rattle.el_blocks.specs.Faults.{fault_text};

    ghost output = { λ fault. Some (fault_text fault) };

    #[tactic(auto, unfolding(crate::specs::Faults::fault_text))]
    fn fmt<W: fmt::Write>(&self, f: &mut fmt::Formatter<W>) -> fmt::Result {
        match self {
            SpellFault::StrayClose { line }
            | SpellFault::TooDeep { line }
            | SpellFault::Unclosed { line } => write!(f, "line {line}: {}", self.name()),
            SpellFault::NoMemory => f.write_str("no memory"),
        }
    }
}

impl Error for SpellFault {}

impl From<NoMemory> for SpellFault {
    ghost from_gives = { λ _ fault. fault ≡ no_memory };

    fn from(_: NoMemory) -> Self {
        SpellFault::NoMemory
    }
}
