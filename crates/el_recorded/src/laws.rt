//! Laws of the definitions: functions that do nothing, whose contracts are the laws.

ghost use Rattle.el_recorded.specs.Recorded.{RecordedScriptsAreAnsweredYes};

/// What elrecord writes of `execlineb -P -c SCRIPT` is answered `yes`: whatever eltrace answers to this trace and an accepted script, from
/// the same variables and directory, is `yes`.
pub fn recorded_scripts_are_answered_yes()
    ensures { RecordedScriptsAreAnsweredYes }
{}
