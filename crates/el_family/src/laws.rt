//! What is true of all families: functions that do nothing, whose contracts are the laws.
ghost use Rattle.std.specs.Prelude.{◌≡◌, ℕ, List};
ghost use Rattle.el_world.specs.declared.answer.Answer.{Answer};
ghost use Rattle.el_family.specs.Processes.{Process};
ghost use Rattle.el_family.specs.Courses.{run_with, AreAnsweredFrom};
ghost use Rattle.el_family.specs.Reports.{IsWhole, GrowsBeyond};
ghost use Rattle.el_family.specs.Meant.{MembersMeanTheirTrees};

use crate::MAX_MEMBERS;
use crate::asked::MAX_BUDGET;

/// The greatest number of members of a family, and of units that may be asked for.
pub fn numbers_are_these()
    ensures members { MAX_MEMBERS ≡ 10000 }
    ensures budget { MAX_BUDGET ≡ 1000000 }
{}

/// Each answer that a member finds is the one that a new world in memory with its answers gives.
pub fn answers_are_due()
    ensures { (process : Process) (answers : List Answer) (budget : ℕ) → AreAnsweredFrom answers (run_with process answers budget).events }
{}

/// There is one family of a process in which all have run; and where there is one, it doesn't get more members than it may.
pub fn families_are_determined()
    ensures one { (words : List (List ℕ)) (budget : ℕ) (family other : List Process) → IsWhole words budget family → IsWhole words budget other → family ≡ other }
    ensures within { (words : List (List ℕ)) (budget : ℕ) (family : List Process) → IsWhole words budget family → GrowsBeyond words budget → ⊥ }
{}

/// A member whose words are those of an accepted tree, in a scope that meets its marks, and begin with a program of a chain makes just the
/// calls of the tree's whole meaning in that scope, and ends as it does: a block or a rest that was started means there what the script says.
pub fn members_mean_their_trees()
    ensures { MembersMeanTheirTrees }
{}
