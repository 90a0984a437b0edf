//! What a run in memory called, by its log.
ghost use Rattle.el_room.specs.Vocabulary.{decimal, events_of};
ghost use Rattle.std.specs.Prelude.{◌≡◌, ◌+◌, ◌<◌, ◌^◌, ◌++◌, cond, IfOk, IfSome, OnOk};
ghost use Rattle.el_app.specs.Played.{first_numbers};
ghost use Rattle.el_app.specs.Plain.{IsPlain, numbers_behind, ArePlain};
ghost use Rattle.el_app.specs.Tallies.{is_start, is_wait, is_pipe, is_close, tally_of, tally_line};

use el_words::{Bytes, NoMemory, put_u64};
use el_world::{Ended, Event, Log, PipeEnds};
use std::alloc::Global;

/// The numbers that a world in memory gives next to a process and to a handle.
#[derive(Clone, Copy)]
pub(crate) struct Numbers {
    pub(crate) process: u64,
    pub(crate) handle: u64,
}

/// How many processes were started and waited for, pipes made and handles closed.
#[derive(Clone, Copy)]
pub(crate) struct Tally {
    pub(crate) starts: u64,
    pub(crate) waits: u64,
    pub(crate) pipes: u64,
    pub(crate) closes: u64,
}

/// Counts the events of a log, which begins with the first numbers. None where an answer isn't the plain
/// one, or an event is of a kind that no sample makes.
pub(crate) fn tally_of(log: &Log) -> Option<Tally>
    ensures plain { IfSome result (λ tally. ArePlain (events_of log.now) first_numbers) }
    ensures counts { IfSome result (λ tally. tally ≡ tally_of (events_of log.now)) }
{
    let mut numbers = first_numbers();
    let mut tally = Tally {
        starts: 0,
        waits: 0,
        pipes: 0,
        closes: 0,
    };
    for place in 0..log.len() {
        let event = log.get(place)?;
        numbers = numbers_behind(event, numbers)?;
        count(event, &mut tally);
    }
    Some(tally)
}

fn first_numbers() -> Numbers
    ensures { result ≡ first_numbers }
{
    Numbers {
        process: 100,
        handle: 3,
    }
}

// The next numbers behind an event, where its answer is the plain one.
fn numbers_behind(event: &Event, numbers: Numbers) -> Option<Numbers>
    ensures plain { IfSome result (λ next. IsPlain event.now numbers) }
    ensures next { IfSome result (λ next. next ≡ numbers_behind event.now numbers) }
{
    match event {
        Event::Start {
            answer: Ok(pid),
            ..
        } if u64::from(pid.number) == numbers.process => Some(Numbers {
            process: numbers.process + 1,
            handle: numbers.handle,
        }),
        Event::Wait {
            answer: Ok(Ended::Exited(0)),
            ..
        }
        | Event::Close { .. } => Some(numbers),
        Event::Pipe { answer: Ok(ends) } => behind_pipe(*ends, numbers),
        _ => None,
    }
}

// The same behind a pipe with these ends.
fn behind_pipe(ends: PipeEnds, numbers: Numbers) -> Option<Numbers>
    ensures plain { IfSome result (λ next. ends ≡ record { reader = record { number = numbers.handle }; writer = record { number = numbers.handle + 1 } }) }
    ensures next { IfSome result (λ next. next ≡ record numbers { handle = numbers.handle + 2 }) }
{
    let writer = numbers.handle.checked_add(1)?;
    let handle = writer.checked_add(1)?;
    if ends.reader.number == numbers.handle && ends.writer.number == writer {
        Some(Numbers {
            process: numbers.process,
            handle,
        })
    } else {
        None
    }
}

// One more of the event's kind.
fn count(event: &Event, tally: &mut Tally)
    requires starts { tally.old.starts + 1 < 2 ^ 64 }
    requires waits { tally.old.waits + 1 < 2 ^ 64 }
    requires pipes { tally.old.pipes + 1 < 2 ^ 64 }
    requires closes { tally.old.closes + 1 < 2 ^ 64 }
    ensures starts { tally.new.starts ≡ tally.old.starts + cond (is_start event.now) 1 0 }
    ensures waits { tally.new.waits ≡ tally.old.waits + cond (is_wait event.now) 1 0 }
    ensures pipes { tally.new.pipes ≡ tally.old.pipes + cond (is_pipe event.now) 1 0 }
    ensures closes { tally.new.closes ≡ tally.old.closes + cond (is_close event.now) 1 0 }
{
    match event {
        Event::Start { .. } => tally.starts += 1,
        Event::Wait { .. } => tally.waits += 1,
        Event::Pipe { .. } => tally.pipes += 1,
        Event::Close { .. } => tally.closes += 1,
        _ => {}
    }
}

/// The line that tells of a run: its units, its tally and its status.
#[tactic(auto, unfolding(crate::specs::Tallies::tally_line))]
pub(crate) fn tally_line(
    alloc: Global,
    units: u64,
    tally: Tally,
    code: u8,
) -> Result<Bytes, NoMemory>
    ensures { IfOk result (λ line. line ≡ tally_line units tally code) }
{
    let mut line = Bytes::new(alloc);
    put_count(alloc, b"units ", units, &mut line)?;
    put_count(alloc, b" starts ", tally.starts, &mut line)?;
    put_count(alloc, b" waits ", tally.waits, &mut line)?;
    put_count(alloc, b" pipes ", tally.pipes, &mut line)?;
    put_count(alloc, b" closes ", tally.closes, &mut line)?;
    put_count(alloc, b" status ", u64::from(code), &mut line)?;
    line.append(b"\n")?;
    Ok(line)
}

// Puts a count behind its name.
fn put_count(alloc: Global, name: &[u8], count: u64, line: &mut Bytes) -> Result<(), NoMemory>
    ensures { OnOk result (line.new ≡ line.old ++ name.now ++ decimal count) }
{
    let number = put_u64(alloc, count)?;
    line.append(name)?;
    line.append(number.as_bytes())
}
