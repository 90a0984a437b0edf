//! Laws over the definitions: functions that do nothing, whose contracts are the laws.
ghost use Rattle.el_trace.specs.Laws.{YesSaysRun, VerdictIsOne};

/// The verdict is yes exactly where the events keep the rule on new handles and are a run.
pub fn yes_says_run()
    ensures { YesSaysRun }
{}

/// There is one verdict at most.
pub fn verdict_is_one()
    ensures { VerdictIsOne }
{}
