//! Laws over the definitions: which numbers stand in them.
ghost use Rattle.std.specs.Prelude.{◌≡◌};
ghost use Rattle.el_proc.specs.Troubles.{trouble_status};
ghost use Rattle.el_proc.specs.Statuses.{status_written};
ghost use Rattle.el_proc.specs.declared.trouble.Trouble.{Trouble};

use crate::{KILLED, NUMBERS};

/// The status behind each trouble; what is added to the signal that killed a child; and how many descriptors a process has.
#[tactic(auto, unfolding(crate::specs::Troubles::trouble_status))]
pub fn numbers_are_these()
    ensures troubles { (trouble : Trouble) → trouble_status trouble ≡ status_written trouble }
    ensures killed { KILLED ≡ 128 }
    ensures numbers { NUMBERS ≡ 64 }
{}
