//! The rule on new handles.
ghost use Rattle.el_room.specs.Vocabulary.{option_copied, given_by, opened_handles, piped_handles, events_of};
ghost use Rattle.std.specs.Prelude.{◌≡◌, ◌+◌, true};
ghost use Rattle.el_trace.specs.NewHandles.{first_number, IsFirstBreach, IsRaised};

use el_world::{Event, Fault, Handle, Log, PipeEnds};

/// The greatest of a process's own handles: those given to it lie above.
pub(crate) const LAST_OWN: u64 = 2;

/// The place of the first event that gives a handle which isn't above all that were given before it; None
/// exactly where there is none.
pub(crate) fn first_breach(log: &Log) -> Option<usize>
    ensures { IsFirstBreach first_number (events_of log.now) result }
{
    let mut greatest = LAST_OWN;
    for place in 0..log.len() {
        let Some(event) = log.get(place) else {
            unreachable!();
        };
        match raised(greatest, event) {
            Some(raised) => greatest = raised,
            None => return Some(place),
        }
    }
    None
}

/// The greatest handle given so far, behind an event; None exactly where one that it gives isn't new.
pub(crate) fn raised(greatest: u64, event: &Event) -> Option<u64>
    ensures { IsRaised (greatest + 1) (given_by event.now) result }
{
    match event {
        Event::Opened { answer, .. } => raised_by_one(greatest, answer),
        Event::Feed { answer, .. } => raised_by_one(greatest, answer),
        Event::Pipe { answer } => raised_by_two(greatest, answer),
        _ => Some(greatest),
    }
}

fn raised_by_one(greatest: u64, answer: &Result<Handle, Fault>) -> Option<u64>
    ensures { IsRaised (greatest + 1) (opened_handles answer.now) result }
{
    match answer {
        Ok(handle) if handle.number > greatest => Some(handle.number),
        Ok(_) => None,
        Err(_) => Some(greatest),
    }
}

fn raised_by_two(greatest: u64, answer: &Result<PipeEnds, Fault>) -> Option<u64>
    ensures { IsRaised (greatest + 1) (piped_handles answer.now) result }
{
    match answer {
        Ok(ends) if ends.reader.number > greatest && ends.writer.number > ends.reader.number => {
            Some(ends.writer.number)
        }
        Ok(_) => None,
        Err(_) => Some(greatest),
    }
}
