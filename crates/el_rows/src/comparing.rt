//! What came of a run, against what its row says.

use crate::event_text::EventText;
use crate::failing::{FailedCalls, failed_calls, failing_difference};
use crate::row::{Count, ExpectedLog, Run};
use crate::running::{Events, Outcome, failing_outcome_of, finish_of, outcome_of};
use el_app::Finish;
use el_words::NoMemory;
use el_world::Event;
use std::alloc::{AllocError, Global};
use std::fmt::{self, Display, Formatter, Write};

/// The first thing in which a run comes out otherwise than its row says.
#[derive(Drop)]
pub struct Difference {
    pub subject: Subject,
    pub expected: String,
    pub came: String,
}

#[derive(Clone, Copy)]
pub enum Subject {
    /// An event, by its number from 1.
    Event(usize),
    /// How many events there are of a kind.
    Events,
    End,
    Faults,
    Units,
    /// What follows where the call with this number fails.
    Failing(u64),
}

impl Display for Difference {
    fn fmt<W: Write>(&self, f: &mut Formatter<W>) -> fmt::Result {
        match self.subject {
            Subject::Event(number) => write!(f, "event {number}")?,
            Subject::Events => f.write_str("events")?,
            Subject::End => f.write_str("end")?,
            Subject::Faults => f.write_str("faults")?,
            Subject::Units => f.write_str("units")?,
            Subject::Failing(call) => write!(f, "where call {call} fails")?,
        }
        write!(f, ": expected {}, came {}", self.expected, self.came)
    }
}

/// The first difference, or None where all comes out as `run` says, and a failure of each of its calls in
/// turn as the rules on failures say.
// To end an outcome takes a long proof, so that a function which has one does nothing else.
pub fn first_difference(alloc: Global, run: &Run) -> Result<Option<Difference>, NoMemory> {
    let whole = outcome_of(alloc, run, run.budget)?;
    difference_from(alloc, run, &whole)
}

// The same, from what came of the whole run.
fn difference_from(
    alloc: Global,
    run: &Run,
    whole: &Outcome,
) -> Result<Option<Difference>, NoMemory> {
    let calls = failed_calls(alloc, whole.events())?;
    match run.fuse {
        Some(k) => fused_difference(alloc, run, k, calls.place_of(k)),
        None => whole_difference(alloc, run, whole, &calls),
    }
}

// The same of a row whose `k`-th call is made to fail, behind so many events.
fn fused_difference(
    alloc: Global,
    run: &Run,
    k: u64,
    place: usize,
) -> Result<Option<Difference>, NoMemory> {
    let failing = failing_outcome_of(alloc, run, k, place)?;
    outcome_difference(alloc, run, &failing)
}

// The same of a row in which no call is made to fail, by its whole run.
fn whole_difference(
    alloc: Global,
    run: &Run,
    whole: &Outcome,
    calls: &FailedCalls,
) -> Result<Option<Difference>, NoMemory> {
    if let Some(difference) = outcome_difference(alloc, run, whole)? {
        return Ok(Some(difference));
    }
    // A run of which events are only counted is too long to fail at each of them.
    if run.log.counts.is_empty() {
        if let Some(difference) = failing_difference(alloc, run, whole, calls)? {
            return Ok(Some(difference));
        }
    }
    match run.units {
        Some(units) => units_difference(alloc, run, units),
        None => Ok(None),
    }
}

fn outcome_difference(
    alloc: Global,
    run: &Run,
    outcome: &Outcome,
) -> Result<Option<Difference>, NoMemory> {
    let differs = if run.log.counts.is_empty() {
        log_difference(alloc, &run.log, outcome.events())?
    } else {
        count_difference(alloc, &run.log.counts, outcome.events())?
    };
    if differs.is_some() {
        return Ok(differs);
    }
    if run.end != Some(outcome.finish) {
        return Ok(Some(Difference {
            subject: Subject::End,
            expected: End(run.end).to_string(alloc)?,
            came: End(Some(outcome.finish)).to_string(alloc)?,
        }));
    }
    let came = outcome.faults();
    match run.faults {
        Some(expected) if expected != came => Ok(Some(Difference {
            subject: Subject::Faults,
            expected: expected.to_string(alloc)?,
            came: came.to_string(alloc)?,
        })),
        _ => Ok(None),
    }
}

fn log_difference(
    alloc: Global,
    expected: &ExpectedLog,
    log: Events<'_>,
) -> Result<Option<Difference>, AllocError> {
    let skipped = if expected.is_tail {
        log.len().saturating_sub(expected.events.len())
    } else {
        0
    };
    let compared = log.len().saturating_sub(skipped);
    for place in 0..expected.events.len().max(compared) {
        let line = expected.events.get(place).map(|line| line.as_str());
        let event = log.get(skipped + place);
        if !comes_as_expected(alloc, line, event)? {
            return Ok(Some(Difference {
                subject: Subject::Event(skipped + place + 1),
                expected: String::from_str(alloc, line.unwrap_or("no event"))?,
                came: came_text(alloc, event)?,
            }));
        }
    }
    Ok(None)
}

fn count_difference(
    alloc: Global,
    counts: &[Count],
    log: Events<'_>,
) -> Result<Option<Difference>, AllocError> {
    for count in counts {
        let came = fitting_events(alloc, count.line.as_str(), log)?;
        if came != count.events {
            return Ok(Some(Difference {
                subject: Subject::Events,
                expected: format!(in alloc; "{} {}", count.events, count.line)?,
                came: came.to_string(alloc)?,
            }));
        }
    }
    Ok(None)
}

fn fitting_events(alloc: Global, line: &str, log: Events<'_>) -> Result<usize, AllocError> {
    let mut fitting = 0usize;
    for number in 0..log.len() {
        if comes_as_expected(alloc, Some(line), log.get(number))? {
            fitting = fitting.saturating_add(1);
        }
    }
    Ok(fitting)
}

fn comes_as_expected(
    alloc: Global,
    line: Option<&str>,
    event: Option<&Event>,
) -> Result<bool, AllocError> {
    match (line, event) {
        (Some(line), Some(event)) => EventText(event).fits(alloc, line),
        _ => Ok(false),
    }
}

pub fn came_text(alloc: Global, event: Option<&Event>) -> Result<String, AllocError> {
    match event {
        Some(event) => EventText(event).on_one_line(alloc),
        None => String::from_str(alloc, "no event"),
    }
}

// The run with exactly these units, and with one less, tells whether it takes so many.
fn units_difference(alloc: Global, run: &Run, units: u64) -> Result<Option<Difference>, NoMemory> {
    let came = if finish_of(alloc, run, units)? == Finish::Spent {
        "more"
    } else if units > 0 && finish_of(alloc, run, units - 1)? != Finish::Spent {
        "fewer"
    } else {
        return Ok(None);
    };
    Ok(Some(Difference {
        subject: Subject::Units,
        expected: units.to_string(alloc)?,
        came: String::from_str(alloc, came)?,
    }))
}

// How a run ends, as rows write it.
#[derive(Drop)]
struct End(Option<Finish>);

impl Display for End {
    fn fmt<W: Write>(&self, f: &mut Formatter<W>) -> fmt::Result {
        match self.0 {
            Some(Finish::Status(code)) => write!(f, "{code}"),
            Some(Finish::Spent) => f.write_str("Spent"),
            Some(Finish::NoMemory) => f.write_str("NoMemory"),
            None => f.write_str("an end, which the row lacks"),
        }
    }
}
