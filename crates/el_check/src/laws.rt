//! Laws of the definitions: functions that do nothing, whose contracts are the laws.

ghost use Rattle.std.specs.Prelude.{◌≡◌, ℕ, List, []};
ghost use Rattle.el_check.specs.declared.params.Params.TheVariants.{Frame, Leave};
ghost use Rattle.el_check.specs.Scripts.{first_scope};
ghost use Rattle.el_check.specs.ScopeLaws.{FirstScopeMeets, ShiftedScopeMeets, ValuesKeepScripts, ArgumentsKeepScripts, ShiftedArgumentsKeepScripts};
ghost use Rattle.el_check.specs.Fronts.{FrontIsRead};
ghost use Rattle.el_check.specs.Laws.{OneTree, OneFault, NeverBoth, TreeIsComputed, FaultIsComputed, MemoryIsNeverComputed};

pub use el_tree::laws::fixed_places_stay;

/// A script is accepted with one tree at most.
pub fn one_tree()
    ensures { OneTree }
{}

/// A script has one first fault at most.
pub fn one_fault()
    ensures { OneFault }
{}

/// An accepted script has no fault.
pub fn never_both()
    ensures { NeverBoth }
{}

/// The tree with which a script is accepted and its first fault are what is computed of it, so that each script has one of
/// them; want of memory is never computed.
pub fn what_is_computed()
    ensures tree { TreeIsComputed }
    ensures fault { FaultIsComputed }
    ensures memory { MemoryIsNeverComputed }
{}

/// The first scope of a script meets its first marks, also where `@` leaves out the first arguments; where the words behind it
/// aren't put in the script's words it is empty.
pub fn first_scope_meets()
    ensures meets { FirstScopeMeets }
    ensures shifted { ShiftedScopeMeets }
    ensures frame { (zero : List ℕ) (args : List (List ℕ)) → first_scope Frame zero args ≡ [] }
    ensures leave { (zero : List ℕ) (args : List (List ℕ)) → first_scope Leave zero args ≡ [] }
{}

/// No value changes the structure of an accepted script: neither those that stand in a scope that meets its first
/// marks, nor the arguments with which it is called, nor where `@` leaves out the first of these.
pub fn values_keep_structure()
    ensures values { ValuesKeepScripts }
    ensures arguments { ArgumentsKeepScripts }
    ensures shifted { ShiftedArgumentsKeepScripts }
{}

/// What is read at the front of a program of a tree is what stands there, and what remains are the words of its rest: in each scope that
/// meets the marks.
pub fn front_is_read()
    ensures { FrontIsRead }
{}
