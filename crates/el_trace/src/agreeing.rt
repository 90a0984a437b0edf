//! How far two logs agree.
ghost use Rattle.el_room.specs.Vocabulary.{option_copied, Decides, events_of, Start as start_event, Wait as wait_event, Opened as opened_event, Pipe as pipe_event, Feed as feed_event, Write as write_event, Close as close_event, Enter as enter_event};
ghost use Rattle.std.specs.Prelude.{◌≡◌, IfOk, Some};
ghost use Rattle.el_world.specs.declared.event.Event.TheVariants.{Read as read_event};
ghost use Rattle.el_trace.specs.Agreeing.{AgreeUpto};

use crate::answers::{
    close_answer, enter_answer, feed_answer, open_answer, pipe_answer, read_answer, start_answer,
    wait_answer, write_answer,
};
use el_env::Env;
use el_words::{Bytes, NoMemory, Word, Words};
use el_world::{Ended, Event, Fault, Handle, Log, Mode, Pid, PipeEnds, StartFault};

/// The length of the longest beginning that both logs have.
pub(crate) fn common_length(one: &Log, other: &Log) -> Result<usize, NoMemory>
    ensures { IfOk result (λ at. AgreeUpto at (events_of one.now) (events_of other.now)) }
{
    let shorter = one.len().min(other.len());
    for place in 0..shorter {
        let (Some(event), Some(found)) = (one.get(place), other.get(place)) else {
            unreachable!();
        };
        if !same_event(event, found)? {
            return Ok(place);
        }
    }
    Ok(shorter)
}

/// Whether two events are the same call, with the same answer.
pub(crate) fn same_event(one: &Event, other: &Event) -> Result<bool, NoMemory>
    ensures { IfOk result (λ same. Decides same (one.now ≡ other.now)) }
{
    match one {
        Event::Start {
            words,
            env,
            dir,
            ends,
            answer,
        } => is_start(words, env, dir, ends, answer, other),
        Event::Wait { pid, answer } => Ok(is_wait(*pid, answer, other)),
        Event::Opened {
            dir,
            path,
            mode,
            answer,
        } => Ok(is_opened(dir, path, *mode, answer, other)),
        Event::Pipe { answer } => Ok(is_pipe(answer, other)),
        Event::Feed { bytes, answer } => Ok(is_feed(bytes, answer, other)),
        Event::Read { handle, answer } => Ok(is_read(*handle, answer, other)),
        Event::Write {
            handle,
            bytes,
            answer,
        } => Ok(is_write(*handle, bytes, answer, other)),
        Event::Close { handle } => Ok(is_close(*handle, other)),
        Event::Enter { dir, path, answer } => Ok(is_enter(dir, path, answer, other)),
    }
}

fn is_start(
    words: &Words,
    env: &Env,
    dir: &Word,
    ends: &[Option<Handle>; 3],
    answer: &Result<Pid, StartFault>,
    other: &Event,
) -> Result<bool, NoMemory>
    ensures { IfOk result (λ same. Decides same (start_event words.now env.now dir.now ends.now answer.now ≡ other.now)) }
{
    match start_answer(Some(other), words, env, dir, ends)? {
        Some(found) => Ok(found == *answer),
        None => Ok(false),
    }
}

fn is_wait(pid: Pid, answer: &Result<Ended, Fault>, other: &Event) -> bool
    ensures { Decides result (wait_event pid answer.now ≡ other.now) }
{
    match wait_answer(Some(other), pid) {
        Some(found) => found == *answer,
        None => false,
    }
}

fn is_opened(
    dir: &Word,
    path: &Word,
    mode: Mode,
    answer: &Result<Handle, Fault>,
    other: &Event,
) -> bool
    ensures { Decides result (opened_event dir.now path.now mode answer.now ≡ other.now) }
{
    match open_answer(Some(other), dir, path, mode) {
        Some(found) => found == *answer,
        None => false,
    }
}

fn is_pipe(answer: &Result<PipeEnds, Fault>, other: &Event) -> bool
    ensures { Decides result (pipe_event answer.now ≡ other.now) }
{
    match pipe_answer(Some(other)) {
        Some(found) => found == *answer,
        None => false,
    }
}

fn is_feed(bytes: &Bytes, answer: &Result<Handle, Fault>, other: &Event) -> bool
    ensures { Decides result (feed_event bytes.now answer.now ≡ other.now) }
{
    match feed_answer(Some(other), bytes.as_bytes()) {
        Some(found) => found == *answer,
        None => false,
    }
}

fn is_read(handle: Handle, answer: &Result<Bytes, Fault>, other: &Event) -> bool
    ensures { Decides result (read_event handle answer.now ≡ other.now) }
{
    match read_answer(Some(other), handle) {
        Some(found) => same_piece(found, answer),
        None => false,
    }
}

fn is_write(handle: Handle, bytes: &Bytes, answer: &Result<(), Fault>, other: &Event) -> bool
    ensures { Decides result (write_event handle bytes.now answer.now ≡ other.now) }
{
    match write_answer(Some(other), handle, bytes.as_bytes()) {
        Some(found) => found == *answer,
        None => false,
    }
}

fn is_close(handle: Handle, other: &Event) -> bool
    ensures { Decides result (close_event handle ≡ other.now) }
{
    close_answer(Some(other), handle).is_some()
}

fn is_enter(dir: &Word, path: &Word, answer: &Result<Word, Fault>, other: &Event) -> bool
    ensures { Decides result (enter_event dir.now path.now answer.now ≡ other.now) }
{
    match enter_answer(Some(other), dir, path) {
        Some(found) => same_dir(found, answer),
        None => false,
    }
}

// Whether two reads were answered alike.
fn same_piece(one: &Result<Bytes, Fault>, other: &Result<Bytes, Fault>) -> bool
    ensures { Decides result (one.now ≡ other.now) }
{
    match (one, other) {
        (Ok(one), Ok(other)) => one.as_bytes() == other.as_bytes(),
        (Err(one), Err(other)) => one == other,
        _ => false,
    }
}

// Whether two enters were answered alike.
fn same_dir(one: &Result<Word, Fault>, other: &Result<Word, Fault>) -> bool
    ensures { Decides result (one.now ≡ other.now) }
{
    match (one, other) {
        (Ok(one), Ok(other)) => one.as_bytes() == other.as_bytes(),
        (Err(one), Err(other)) => one == other,
        _ => false,
    }
}
