//! What is counted of a call.
ghost use Rattle.el_room.specs.Vocabulary.{given_by, is_fault};
ghost use Rattle.std.specs.Prelude.{◌≡◌, ◌≤◌, length};
ghost use Rattle.el_world.specs.World.{is_failed};

use el_world::{Event, Fault, StartFault};

/// How many handles a call gave.
pub(crate) fn given_count(event: &Event) -> usize
    ensures count { result ≡ length (given_by event.now) }
    ensures most { result ≤ 2 }
{
    match event {
        Event::Opened { answer: Ok(_), .. } | Event::Feed { answer: Ok(_), .. } => 1,
        Event::Pipe { answer: Ok(_) } => 2,
        _ => 0,
    }
}

/// Whether a call failed.
pub(crate) fn is_fault(event: &Event) -> bool
    ensures { result ≡ is_fault event.now }
{
    match event {
        Event::Start { answer, .. } => matches!(answer, Err(StartFault::Failed)),
        Event::Wait { answer, .. } => is_failed(answer),
        Event::Opened { answer, .. } => is_failed(answer),
        Event::Pipe { answer } => is_failed(answer),
        Event::Feed { answer, .. } => is_failed(answer),
        Event::Read { answer, .. } => is_failed(answer),
        Event::Write { answer, .. } => is_failed(answer),
        Event::Close { .. } => false,
        Event::Enter { answer, .. } => is_failed(answer),
    }
}

fn is_failed<T>(answer: &Result<T, Fault>) -> bool
    ensures { result ≡ is_failed answer.now }
{
    matches!(answer, Err(Fault::Failed))
}
