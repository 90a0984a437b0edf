//! Laws of the definitions: functions that do nothing, whose contracts are the laws.

ghost use Rattle.std.specs.Prelude.{[], ◌∷◌, codes};
ghost use Rattle.std.specs.FinMap as finite;
ghost use Rattle.el_tree.specs.Accepted.{IsAccepted};
ghost use Rattle.el_check.specs.declared.params.Params.TheVariants.{Subst};
ghost use Rattle.el_check.specs.Scripts.{IsAcceptedScript};
ghost use Rattle.el_meaning.specs.Meaning.{meaning, whole_meaning};
ghost use Rattle.el_meaning.specs.Rows.{IsMade, Ends, Hands, whole, begun_with, wrapper, wrapper_text, wrapper_scope, wrapper_members, home, told, wrapper_events, wrapped_events, vanishing, vanishing_events, importing, x_set, imported_events, unset_events, turning, turning_events, ticking, put_events, refused_events};
ghost use Rattle.el_meaning.specs.Laws.{RunIsMeaning, BoundSaysNothing, ReadsSayNothing, TurnsSayNothing, LoopReadsSayNothing};
ghost use Rattle.el_meaning.specs.Turns.{TurnWordsAreBody, TurnMeetsMarks, TurnIsMeaning};
ghost use Rattle.el_meaning.specs.Starts.{StartsAreOfTheTree};
ghost use Rattle.el_meaning.specs.LoopValues.{ValuesAreSplit, PiecesSayNothing, TurnsComeInTime};

/// The run of an accepted tree's words makes what the tree means.
pub fn run_is_meaning()
    ensures { RunIsMeaning }
{}

/// A turn of a loop runs the loop's body in the turn's scope: that of the loop, with the value put last under `E`. This scope meets the
/// marks that are in force for the body. So the run of a turn makes what the body means there.
pub fn turn_is_meaning()
    ensures words { TurnWordsAreBody }
    ensures marks { TurnMeetsMarks }
    ensures run { TurnIsMeaning }
{}

/// Each process that a tree means to start gets the words of the tree's command, of a block, of the rest of ifte or loopwhilex, or of a
/// turn. That part of the tree is accepted, and its scope meets the marks that are in force for it.
pub fn starts_are_of_the_tree()
    ensures { StartsAreOfTheTree }
{}

/// The bounds on programs, on reads and on turns say nothing where they are above the units.
pub fn bounds_say_nothing()
    ensures programs { BoundSaysNothing }
    ensures reads { ReadsSayNothing }
    ensures turns { TurnsSayNothing }
    ensures loop_reads { LoopReadsSayNothing }
{}

/// forstdin and forbacktickx make a turn for each value of their input split at the delimiters, in order, crunched if that is asked for,
/// whatever the pieces in which it is read. Each turn comes after the read that brings the delimiter of its value, and before the next.
pub fn loops_split_their_input()
    ensures values { ValuesAreSplit }
    ensures pieces { PiecesSayNothing }
    ensures in_time { TurnsComeInTime }
{}

/// The wrapper is accepted, as a tree and as a script. With a command as its arguments it makes the calls that it should and ends with
/// it; with a program it hands the words on behind the child.
pub fn wrapper_rows()
    ensures accepted { IsAccepted wrapper_members wrapper }
    ensures script { IsAcceptedScript (Subst 1) wrapper_text wrapper }
    ensures ended { IsMade (meaning wrapper (wrapper_scope (codes "date" ∷ codes "-u" ∷ [])) (begun_with home)) 9 (wrapper_events (wrapped_events (codes "date" ∷ codes "-u" ∷ []) (told home) 101)) (Ends 0) 4 }
    ensures handed { IsMade (meaning wrapper (wrapper_scope (codes "foreground" ∷ codes " a" ∷ [] ∷ codes "b" ∷ [])) (begun_with home)) 9 (wrapper_events []) (Hands (codes "foreground" ∷ codes " a" ∷ [] ∷ codes "b" ∷ [])) 5 }
{}

/// A command whose first word vanishes is accepted; where the next word names a program, its words are
/// handed on without a call, and run.
pub fn vanishing_rows()
    ensures accepted { IsAccepted [] vanishing }
    ensures handed { IsMade (meaning vanishing [] (begun_with finite.empty)) 9 [] (Hands (codes "foreground" ∷ codes " a" ∷ [] ∷ codes "b" ∷ [])) 8 }
    ensures run_on { IsMade (whole (whole_meaning vanishing [] (begun_with finite.empty))) 9 vanishing_events (Ends 0) 6 }
{}

/// import puts the variable's word in, or says that it isn't set.
pub fn import_rows()
    ensures put { IsMade (meaning importing [] (begun_with x_set)) 9 imported_events (Ends 0) 7 }
    ensures unset { IsMade (meaning importing [] (begun_with finite.empty)) 9 unset_events (Ends 100) 8 }
{}

/// Under `E` a value is put in the words of its turn, and that of backtick in the rest; where there is none backtick refuses.
pub fn value_rows()
    ensures turns { IsMade (meaning turning [] (begun_with finite.empty)) 9 turning_events (Ends 0) 6 }
    ensures put { IsMade (meaning (ticking (codes "-E")) [] (begun_with finite.empty)) 9 put_events (Ends 0) 5 }
    ensures refused { IsMade (meaning (ticking (codes "-IE")) [] (begun_with finite.empty)) 9 refused_events (Ends 100) 6 }
{}
