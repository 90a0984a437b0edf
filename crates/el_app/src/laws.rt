//! The laws by which the headline follows, and what users may conclude besides: functions that do nothing, whose contracts are the laws.

ghost use Rattle.el_room.specs.Vocabulary.{End, Left};
ghost use Rattle.el_app.specs.Calls.{Ending};
ghost use Rattle.el_app.specs.Budgets.{MoreUnitsGoOn, LeftIsEnough, EventsBegin, StatusStays};
ghost use Rattle.el_app.specs.Layouts.{LayoutIsAccepted, LayoutHasTheWords, CallRunsWhatItReads, LayoutChangesNoCall, SameTokensRunAlike, UpgradedTextsMeanAlike};
ghost use Rattle.el_app.specs.SampleTrees.{SamplesAreAccepted, SamplesAreRun};
ghost use Rattle.el_app.specs.SampleRuns.{SamplesEnd, SamplesAreTold};
ghost use Rattle.el_app.specs.ClosedHandles.{RunsNameWhatIsHeld, ClosedIsNamedNoMore};
ghost use Rattle.el_app.specs.Waits.{RunsWaitForTheirOwn, CallsWaitForTheirOwn};
ghost use Rattle.el_app.specs.Comments.{LayoutIsAlike, UpgradeIsWider, TokensAreTheTree, CommentsStay, CommentsSpread, FirstLineStays, EmptyLinesAreFew, SecondTimeIsTheFirst};
ghost use Rattle.el_app.specs.Modes.{FewerMarksAcceptMore, SubstIsStrictest, LeastSaysNothing, FrameIsAsLeave};
ghost use Rattle.el_app.specs.Vectors.{VectorsMeanTheirTrees};

pub use el_check::laws::{
    first_scope_meets, fixed_places_stay, front_is_read, values_keep_structure,
};
pub use el_meaning::laws::{
    bounds_say_nothing, loops_split_their_input, run_is_meaning, turn_is_meaning, vanishing_rows,
    wrapper_rows,
};
pub use el_tree::laws::values_keep_structure as values_keep_trees;
pub use el_upgrade::laws::{upgrade_is_accepted, upgrade_means_alike};

/// A larger budget only goes on: where execlineb ends with a status, it makes the same calls under every larger one and ends with this
/// status; a run that its budget cut off made a beginning of them.
pub fn larger_budgets_go_on()
    ensures same { MoreUnitsGoOn Ending ⊥ }
    ensures tasks { MoreUnitsGoOn End Left }
    ensures left { LeftIsEnough Ending ⊥ }
    ensures begins { EventsBegin Ending ⊥ }
    ensures execlineb { StatusStays }
{}

/// elfmt changes no call: the layout of an accepted script, where it isn't too long, is accepted with the same tree, and execlineb makes the
/// same calls behind it as behind the script.
pub fn layouts_change_no_call()
    ensures accepted { LayoutIsAccepted }
    ensures words { LayoutHasTheWords }
    ensures reads { CallRunsWhatItReads }
    ensures calls { LayoutChangesNoCall }
{}

/// Two scripts that read as the same tokens, whatever stands between these and on which lines, are the same to execlineb: it makes the same
/// calls with both.
pub fn same_tokens_run_alike()
    ensures { SameTokensRunAlike }
{}

/// The text that `elfmt -u` writes of an accepted script is accepted too, unless it is too long for a script. It means what the script
/// means: the same calls but for `importas` in the place of `import` in messages and in the words of blocks, and the same end.
pub fn upgraded_texts_mean_alike()
    ensures { UpgradedTextsMeanAlike }
{}

/// el_keep's laws hold of each script that has a tree and of its layouts: that of the tree has the script's tokens, and that of the upgraded
/// tree has more words, each last on its line.
pub fn layouts_meet_their_scripts()
    ensures alike { LayoutIsAlike }
    ensures wider { UpgradeIsWider }
{}

/// What `elfmt -k` writes of a script that has a tree reads as this tree's tokens, or with `-u` as those of the upgraded tree. It has the
/// script's comments, each once, in order, to the byte, and before the same token; with `-u` none stands before the second name of an
/// importas. A first line that is a comment stays the first, and no two empty lines follow each other. Where it isn't too long for a
/// script, it is one with this tree, and is written again as it is.
pub fn comments_are_kept()
    ensures tokens { TokensAreTheTree }
    ensures comments { CommentsStay }
    ensures upgraded { CommentsSpread }
    ensures first { FirstLineStays }
    ensures lines { EmptyLinesAreFew }
    ensures again { SecondTimeIsTheFirst }
{}

/// A script is checked once: what elcheck accepts under one `-S n` it accepts under each other, without it and under `-P`. `-s n` is checked
/// as `-S n`.
pub fn modes_are_ordered()
    ensures marks { FewerMarksAcceptMore }
    ensures strictest { SubstIsStrictest }
    ensures least { LeastSaysNothing }
    ensures frame { FrameIsAsLeave }
{}

/// A sample is accepted, so that `elcheck --sample` tells its run.
pub fn samples_are_accepted()
    ensures accepted { SamplesAreAccepted }
    ensures run { SamplesAreRun }
{}

/// A sample's run ends with status 0, and its units and events are counted by its lines: `elcheck --sample` writes these counts.
pub fn samples_end_well()
    ensures played { SamplesEnd }
    ensures told { SamplesAreTold }
{}

/// No handle is named after it was closed, and none is closed twice: of a run, as the clause `run` of execlineb and of `run` has it, each call
/// names only the process's own handles and what is held when it is made, and what was closed isn't given again.
pub fn closed_handles_are_named_no_more()
    ensures held { RunsNameWhatIsHeld Ending ⊥ }
    ensures closed { ClosedIsNamedNoMore Ending ⊥ }
    ensures tasks_held { RunsNameWhatIsHeld End Left }
    ensures tasks_closed { ClosedIsNamedNoMore End Left }
{}

/// A block or a rest that a process is started with means there what it means in its tree: the top call on the words of an accepted tree,
/// of which a program is the first, makes what the tree means in a process at its start.
pub fn vectors_mean_their_trees()
    ensures { VectorsMeanTheirTrees }
{}

/// Each wait is for a process that this run, or this call, started before and hasn't waited for: at each wait its process was started more
/// often than it was waited for. So where no two starts were answered by the same process, each is waited for once at most, behind its
/// start.
pub fn each_wait_is_due()
    ensures runs { RunsWaitForTheirOwn }
    ensures calls { CallsWaitForTheirOwn }
{}
