//! Laws over the definitions: what a reader may conclude from them, whatever the code does.

ghost use Rattle.el_record.specs.Laws.{EventsAreRead, NoneIsRead, EndsAreRead, NoEndIsRead, TraceIsOne, BadIsNoTrace, BadPlaceIsOne, TextsAreReadBack};

/// `event_at` and `run_end_at` read a record exactly where it stands, and are None exactly where none stands.
pub fn records_are_read()
    ensures event { EventsAreRead }
    ensures no_event { NoneIsRead }
    ensures end { EndsAreRead }
    ensures no_end { NoEndIsRead }
{}

/// A text is that of one trace at most.
pub fn trace_is_one()
    ensures { TraceIsOne }
{}

/// A text that is bad somewhere is no trace's.
pub fn bad_is_no_trace()
    ensures { BadIsNoTrace }
{}

/// A text is bad at one place at most.
pub fn bad_place_is_one()
    ensures { BadPlaceIsOne }
{}

/// The text of events in their ranges is read back as they are, which those of a recorder always are.
pub fn texts_are_read_back()
    ensures { TextsAreReadBack }
{}
