//! Laws over the definitions: what a child of the system reads, and what stands in a line before a message.
ghost use Rattle.el_real.specs.Laws.{EntriesReadBack, LinesAreSingle};

/// A child reads back just the variables that it was started with, where each has a name that a variable can have.
pub fn entries_read_back()
    ensures { EntriesReadBack }
{}

/// A line before a message is one line: it has no control byte but the newline at its end, whatever words, names, file names or
/// texts of the system it shows.
pub fn lines_are_single()
    ensures { LinesAreSingle }
{}
