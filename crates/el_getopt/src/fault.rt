//! Why words aren't parsed.
ghost use Rattle.std.specs.Prelude.{◌≡◌};
ghost use Rattle.el_getopt.specs.declared.fault.ParseFault.TheVariants.{NoMemory as no_memory};
ghost use Rattle.el_getopt.specs.Faults.{fault_of};

use el_env::EnvFault;
use el_proc::Trouble;
use el_words::NoMemory;
use std::alloc::AllocFailed;

/// Why nothing is run.
#[derive(Clone, Copy, PartialEq, Eq)]
pub(crate) enum ParseFault {
    /// The call is to be refused for this.
    Refused(Trouble),
    /// There was no memory for it.
    NoMemory,
}

impl From<NoMemory> for ParseFault {
    ghost from_gives = { λ _ fault. fault ≡ no_memory };

    fn from(_: NoMemory) -> Self {
        ParseFault::NoMemory
    }
}

impl<T: Drop> From<AllocFailed<T>> for ParseFault {
    ghost from_gives = { λ _ fault. fault ≡ no_memory };

    fn from(_: AllocFailed<T>) -> Self {
        ParseFault::NoMemory
    }
}

impl From<EnvFault> for ParseFault {
    ghost from_gives = { λ fault parsing. parsing ≡ fault_of fault };

    fn from(fault: EnvFault) -> Self {
        match fault {
            EnvFault::NoFrame => ParseFault::Refused(Trouble::NoFrame),
            _ => ParseFault::NoMemory,
        }
    }
}
