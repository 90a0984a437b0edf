//! What holds of the definitions, whatever the environment.

ghost use Rattle.std.specs.Prelude.{◌≡◌, ◌⊎◌, ◌↔◌, ◌<◌, ◌^◌, ℕ, List, [], length, Contains};
ghost use Rattle.el_env.specs.Name.{IsBadName};
ghost use Rattle.el_env.specs.Vars.{Vars};
ghost use Rattle.el_env.specs.Frames.{pushed, popped, IsTooDeep};
ghost use Rattle.el_env.specs.Positionals.{ArePositionals, with_positionals};

/// The names that no variable has are the empty one and those that hold an equals sign (61).
pub fn bad_names_are_empty_or_hold_equals()
    ensures { (name : List ℕ) → IsBadName name ↔ ((name ≡ []) ⊎ Contains name 61) }
{}

/// A pop after a push gives the first variables back, where no name is at the greatest depth.
pub fn pop_undoes_push()
    ensures { (vars : Vars) → (IsTooDeep vars → ⊥) → popped (pushed vars) ≡ vars }
{}

/// An environment has at most one list of positional parameters.
pub fn positionals_are_one()
    ensures { (vars : Vars) (zero zero2 : List ℕ) (args args2 : List (List ℕ)) → ArePositionals vars zero args → ArePositionals vars zero2 args2 → (zero ≡ zero2) × (args ≡ args2) }
{}

/// The positional parameters that were set are those of the environment.
pub fn positionals_are_those_set()
    ensures { (zero : List ℕ) (args : List (List ℕ)) (vars : Vars) → length args < 2 ^ 64 → ArePositionals (with_positionals zero args vars) zero args }
{}
