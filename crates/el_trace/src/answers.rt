//! The answers of recorded events to calls.
ghost use Rattle.el_room.specs.Vocabulary.{option_copied, start as start_call, wait as wait_call, open_file as open_call, pipe as pipe_call, feed as feed_call, read as read_call, write as write_call, close as close_call, enter as enter_call};
ghost use Rattle.std.specs.Prelude.{◌≡◌, IfOk, Err};
ghost use Rattle.el_trace.specs.Answers.{IsAnswer};
ghost use Rattle.el_trace.specs.Replays.{or_failed};

use crate::same::{same_ends, same_env, same_words};
use el_env::Env;
use el_words::{Bytes, NoMemory, Word, Words};
use el_world::{Ended, Event, Fault, Handle, Mode, Pid, PipeEnds, StartFault};
use std::alloc::Global;

/// The answer where the event is this start; None exactly where it is another call, or there is none.
pub(crate) fn start_answer(
    event: Option<&Event>,
    words: &Words,
    env: &Env,
    dir: &Word,
    ends: &[Option<Handle>; 3],
) -> Result<Option<Result<Pid, StartFault>>, NoMemory>
    ensures { IfOk result (λ found. IsAnswer (option_copied event.entry) (start_call words.now env.now dir.now ends.now) found) }
{
    match event {
        Some(
            Event::Start {
                words: other_words,
                env: other_env,
                dir: other_dir,
                ends: other_ends,
                answer,
            },
        ) if same_words(other_words, words)
            && other_dir.as_bytes() == dir.as_bytes()
            && same_ends(other_ends, ends)
            && same_env(other_env, env)? => { Ok(Some(*answer)) }
        _ => Ok(None),
    }
}

/// The same of a wait.
pub(crate) fn wait_answer(event: Option<&Event>, pid: Pid) -> Option<Result<Ended, Fault>>
    ensures { IsAnswer (option_copied event.entry) (wait_call pid) result }
{
    match event {
        Some(Event::Wait { pid: other, answer }) if *other == pid => Some(*answer),
        _ => None,
    }
}

/// The same of an open.
pub(crate) fn open_answer(
    event: Option<&Event>,
    dir: &Word,
    path: &Word,
    mode: Mode,
) -> Option<Result<Handle, Fault>>
    ensures { IsAnswer (option_copied event.entry) (open_call dir.now path.now mode) result }
{
    match event {
        Some(
            Event::Opened {
                dir: other_dir,
                path: other_path,
                mode: other_mode,
                answer,
            },
        ) if other_dir.as_bytes() == dir.as_bytes()
            && other_path.as_bytes() == path.as_bytes()
            && *other_mode == mode => { Some(*answer) }
        _ => None,
    }
}

/// The same of a pipe.
pub(crate) fn pipe_answer(event: Option<&Event>) -> Option<Result<PipeEnds, Fault>>
    ensures { IsAnswer (option_copied event.entry) pipe_call result }
{
    match event {
        Some(Event::Pipe { answer }) => Some(*answer),
        _ => None,
    }
}

/// The same of a feed.
pub(crate) fn feed_answer(event: Option<&Event>, bytes: &[u8]) -> Option<Result<Handle, Fault>>
    ensures { IsAnswer (option_copied event.entry) (feed_call bytes.now) result }
{
    match event {
        Some(
            Event::Feed {
                bytes: other,
                answer,
            },
        ) if other.as_bytes() == bytes => Some(*answer),
        _ => None,
    }
}

/// The same of a read.
pub(crate) fn read_answer(event: Option<&Event>, handle: Handle) -> Option<&Result<Bytes, Fault>>
    ensures { IsAnswer (option_copied event.entry) (read_call handle) (option_copied result) }
{
    match event {
        Some(
            Event::Read {
                handle: other,
                answer,
            },
        ) if *other == handle => Some(answer),
        _ => None,
    }
}

/// The same of a write.
pub(crate) fn write_answer(
    event: Option<&Event>,
    handle: Handle,
    bytes: &[u8],
) -> Option<Result<(), Fault>>
    ensures { IsAnswer (option_copied event.entry) (write_call handle bytes.now) result }
{
    match event {
        Some(
            Event::Write {
                handle: other_handle,
                bytes: other_bytes,
                answer,
            },
        ) if *other_handle == handle && other_bytes.as_bytes() == bytes => Some(*answer),
        _ => None,
    }
}

/// The same of a close, which has but one answer.
pub(crate) fn close_answer(event: Option<&Event>, handle: Handle) -> Option<()>
    ensures { IsAnswer (option_copied event.entry) (close_call handle) result }
{
    match event {
        Some(Event::Close { handle: other }) if *other == handle => Some(()),
        _ => None,
    }
}

/// The same of an enter.
pub(crate) fn enter_answer<'a>(
    event: Option<&'a Event>,
    dir: &Word,
    path: &Word,
) -> Option<&'a Result<Word, Fault>>
    ensures { IsAnswer (option_copied event.entry) (enter_call dir.now path.now) (option_copied result) }
{
    match event {
        Some(
            Event::Enter {
                dir: other_dir,
                path: other_path,
                answer,
            },
        ) if other_dir.as_bytes() == dir.as_bytes() && other_path.as_bytes() == path.as_bytes() => {
            Some(answer)
        }
        _ => None,
    }
}

/// What was recorded, or else a failure.
pub(crate) fn or_failed<T>(found: Option<Result<T, Fault>>) -> Result<T, Fault>
    ensures { result ≡ or_failed (Err Fault.Failed) found }
{
    match found {
        Some(answer) => answer,
        None => Err(Fault::Failed),
    }
}

/// The same of a start.
pub(crate) fn start_or_failed(found: Option<Result<Pid, StartFault>>) -> Result<Pid, StartFault>
    ensures { result ≡ or_failed (Err StartFault.Failed) found }
{
    match found {
        Some(answer) => answer,
        None => Err(StartFault::Failed),
    }
}

/// The same of a read, as a copy.
pub(crate) fn copy_of_piece(
    alloc: Global,
    found: Option<&Result<Bytes, Fault>>,
) -> Result<Result<Bytes, Fault>, NoMemory>
    ensures { IfOk result (λ answer. answer ≡ or_failed (Err Fault.Failed) (option_copied found.entry)) }
{
    match found {
        Some(Ok(bytes)) => Ok(Ok(Bytes::from_slice(alloc, bytes.as_bytes())?)),
        Some(Err(fault)) => Ok(Err(*fault)),
        None => Ok(Err(Fault::Failed)),
    }
}

/// The same of an enter, as a copy.
pub(crate) fn copy_of_dir(
    found: Option<&Result<Word, Fault>>,
) -> Result<Result<Word, Fault>, NoMemory>
    ensures { IfOk result (λ answer. answer ≡ or_failed (Err Fault.Failed) (option_copied found.entry)) }
{
    match found {
        Some(Ok(dir)) => Ok(Ok(dir.copy()?)),
        Some(Err(fault)) => Ok(Err(*fault)),
        None => Ok(Err(Fault::Failed)),
    }
}
