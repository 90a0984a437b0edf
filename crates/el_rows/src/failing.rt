//! What follows where a call of a row fails.

use crate::comparing::{Difference, Subject, came_text};
use crate::event_text::EventText;
use crate::row::Run;
use crate::running::{Events, Outcome, failing_outcome_of};
use bstr::ByteSlice;
use el_app::Finish;
use el_words::{NoMemory, Words};
use el_world::Event;
use std::alloc::{AllocError, Global};

/// The places of a run's events whose calls can fail: all that aren't closes.
#[derive(Drop)]
pub struct FailedCalls {
    places: Vec<usize>,
}

impl FailedCalls {
    /// How many events come before the `k`-th of these, counted from 1; all of them where there are fewer.
    pub fn place_of(&self, k: u64) -> usize {
        let number = usize::try_from(k.saturating_sub(1)).unwrap_or(usize::MAX);
        self.places.get(number).map_or(usize::MAX, |place| *place)
    }
}

/// The places among these events.
pub fn failed_calls(alloc: Global, events: Events<'_>) -> Result<FailedCalls, AllocError> {
    let mut places = Vec::new(alloc);
    for place in 0..events.len() {
        if !matches!(events.get(place), Some(Event::Close { .. }) | None) {
            places.push(place)?;
        }
    }
    Ok(FailedCalls { places })
}

/// Lets each call of `whole`, a run of the row, fail in turn. The events before it are those of the whole run,
/// and so is the call itself. Behind a message that couldn't be written the same call comes as without that,
/// and behind a tool's output the end with 111. Behind an open that failed anything may come where the row's words
/// have `envfile -I`, which goes on then. Otherwise the process closes handles, writes one message at most and ends
/// with 111.
pub fn failing_difference(
    alloc: Global,
    run: &Run,
    whole: &Outcome,
    calls: &FailedCalls,
) -> Result<Option<Difference>, NoMemory> {
    let mut k = 0u64;
    for place in &calls.places {
        k = k.saturating_add(1);
        if let Some(difference) = call_difference(alloc, run, whole, k, *place)? {
            return Ok(Some(difference));
        }
    }
    Ok(None)
}

// The difference where the `k`-th call fails, behind so many events.
fn call_difference(
    alloc: Global,
    run: &Run,
    whole: &Outcome,
    k: u64,
    place: usize,
) -> Result<Option<Difference>, NoMemory> {
    let failing = failing_outcome_of(alloc, run, k, place)?;
    rule_difference(alloc, &run.words, whole, &failing, k, place)
}

// The same, from what came of that run.
fn rule_difference(
    alloc: Global,
    words: &Words,
    whole: &Outcome,
    failing: &Outcome,
    k: u64,
    place: usize,
) -> Result<Option<Difference>, NoMemory> {
    match broken_rule(alloc, words, whole, failing, place)? {
        Some(expected) => Ok(Some(Difference {
            subject: Subject::Failing(k),
            expected: String::from_str(alloc, expected)?,
            came: came_text(alloc, failing.events().failed())?,
        })),
        None => Ok(None),
    }
}

// The first rule that doesn't hold where the event at this place failed.
fn broken_rule(
    alloc: Global,
    words: &Words,
    whole: &Outcome,
    failing: &Outcome,
    place: usize,
) -> Result<Option<&'static str>, AllocError> {
    let (was, is) = (whole.events(), failing.events());
    let behind = place.saturating_add(1);
    if !are_same(alloc, was, is, 0, place)? {
        return Ok(Some("the same events before it"));
    }
    if !is_same_call(alloc, was.get(place), is.failed())? {
        return Ok(Some("the same call"));
    }
    if let Some(Event::Write { .. }) = is.failed() {
        let ends = failing.finish == Finish::Status(111) && is.len() == behind;
        let goes_on = ends || goes_on_alike(alloc, whole, failing, behind)?;
        return Ok((!goes_on).then_some("the same call behind it, or the status 111"));
    }
    let ends = failing.finish == Finish::Status(111) && is_ending(is, behind);
    let may_go_on = matches!(is.failed(), Some(Event::Opened { .. })) && may_pass_over(words);
    Ok((!ends && !may_go_on).then_some("closes, one message and the status 111"))
}

// Whether the words have an envfile that goes on behind an open that failed.
fn may_pass_over(words: &Words) -> bool {
    has_text(words, b"envfile") && has_text(words, b"-I")
}

// Whether one of the words has this text.
fn has_text(words: &Words, text: &[u8]) -> bool {
    words.iter().any(|word| word.contains_str(text))
}

// Whether the events from one place to another are the same.
fn are_same(
    alloc: Global,
    one: Events<'_>,
    other: Events<'_>,
    from: usize,
    to: usize,
) -> Result<bool, AllocError> {
    for place in from..to {
        if came_text(alloc, one.get(place))? != came_text(alloc, other.get(place))? {
            return Ok(false);
        }
    }
    Ok(true)
}

// Whether both go on with the same call at this place, or end alike. What comes of the call may differ: a failed call
// leaves its answer to the next one.
fn goes_on_alike(
    alloc: Global,
    whole: &Outcome,
    failing: &Outcome,
    place: usize,
) -> Result<bool, AllocError> {
    match (whole.events().get(place), failing.events().get(place)) {
        (None, None) => Ok(whole.finish == failing.finish),
        (was, is) => is_same_call(alloc, was, is),
    }
}

// Whether two events have the same call, whatever came of it.
fn is_same_call(
    alloc: Global,
    event: Option<&Event>,
    other: Option<&Event>,
) -> Result<bool, AllocError> {
    match (event, other) {
        (Some(event), Some(other)) => {
            let call = EventText(event).call(alloc)?;
            Ok(call == EventText(other).call(alloc)?)
        }
        _ => Ok(false),
    }
}

// Whether from this place on there are closes and one message at most.
fn is_ending(events: Events<'_>, from: usize) -> bool {
    let mut messages = 0;
    for place in from..events.len() {
        match events.get(place) {
            Some(Event::Close { .. }) => {}
            Some(Event::Write { .. }) if messages == 0 => messages = 1,
            _ => return false,
        }
    }
    true
}
