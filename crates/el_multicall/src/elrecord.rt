//! elrecord file prog.. · elrecord file tool args..
#![tactic(auto, using(el_world::proofs::Runs::runs, el_app::proofs::Standard::standard, crate::proofs::Recorded::recordings), unfolding(crate::specs::Record::saved))]

ghost use Rattle.el_room.specs.Vocabulary.{events_of, ended, NoMemory as no_memory, is_held, Ran, Tells};
ghost use Rattle.std.specs.Prelude.{◌≡◌, ◌<◌, ◌≤◌, nat_le, [], length, drop, slice_index_or, true, Some, Ok, IfOk, IfSome, option_map};
ghost use Rattle.el_record.specs.Recordable.{IsRunEnd};
ghost use Rattle.el_record.specs.TraceText.{trace_text};
ghost use Rattle.el_app.specs.Calls.{outcome_of};
ghost use Rattle.el_multicall.specs.Record.{elrecord_name, elrecord_call, saved, after_open, complained, ending_in, IsRecorded, RanAndSavedOrBegun, IsSavedOrStays};

use el_app::execline;
use el_env::Env;
use el_proc::{Fds, Trouble, refused_as};
use el_record::{Recorder, RunEnd, Trace, print_trace};
use el_words::{NoMemory, Word, Words};
use el_world::{Finish, Handle, Log, Mode, World, call};
use std::alloc::Global;

// elrecord's name and the file.
const OWN_WORDS: usize = 2;

/// Runs elrecord with these words, of which the first is its name and the second a file: the top call is run on
/// those behind it, in this directory, over `world`, with at most `budget` units, and its answer is the
/// answer. Where it ends with a status or for want of units, the text of its trace, as
/// `el_record::print_trace` says it, is then written to the file, which is opened for writing from this directory,
/// in one write; and the file is closed.
///
/// Without a file the words are refused with `elrecord: wrong usage` and status 100. Where the file can't be opened
/// or written, `elrecord: system call failed` is complained of, once an opened file is closed, and the status is
/// 111. The world must hold no handle, and is given back.
///
/// Where memory is wanting, the calls that were made begin those of the run, and no file is opened; besides them the
/// world may tell one read or enter that it answered with want of memory, after which only handles were closed. Where
/// memory is wanting behind a run that was recorded whole, they are all the calls of the run, and begin those by which
/// its trace is saved.
///
/// elrecord is this project's own.
pub fn elrecord<W: World>(
    alloc: Global,
    words: &Words,
    env: Env,
    dir: Word,
    mut world: W,
    budget: u64,
) -> (Finish, W)
    requires named { 0 < length words.now }
    requires free { (W.seen world).held ≡ [] }
    ensures told { (result.0 ≡ no_memory → ⊥) → Tells (W.seen world) (W.seen result.1) (elrecord_call words.now env dir budget) 0 (outcome_of result.0) }
    ensures recorded { IsRecorded (W.seen world) (W.seen result.1) words.now env dir budget result.0 }
{
    if !has_file(words) {
        let finish = complain(alloc, Trouble::Usage, &mut world);
        return (finish, world);
    }
    match Recording::new(alloc, words, &dir) {
        Ok(recording) => recording.run(alloc, env, dir, world, budget),
        Err(NoMemory) => (Finish::NoMemory, world),
    }
}

// Behind its own name.
fn has_file(words: &Words) -> bool
    ensures { result ≡ nat_le 2 (length words.now) }
{
    words.len() >= OWN_WORDS
}

// What is recorded: the words of the run, and the file, by its name and the directory from which it is named.
#[derive(Drop)]
struct Recording {
    words: Words,
    file: Word,
    dir: Word,
}

impl Recording {
    // By the words of elrecord's call, in this directory.
    fn new(alloc: Global, words: &Words, dir: &Word) -> Result<Recording, NoMemory>
        requires { 2 ≤ length words.now }
        ensures words { IfOk result (λ recording. recording.words ≡ drop 2 words.now) }
        ensures file { IfOk result (λ recording. recording.file ≡ slice_index_or words.now 1 []) }
        ensures dir { IfOk result (λ recording. recording.dir ≡ dir.now) }
    {
        let mut behind = words.copy()?;
        behind.drop_front(OWN_WORDS);
        Ok(Recording {
            words: behind,
            file: Word::of(alloc, words.at(1))?,
            dir: dir.copy()?,
        })
    }

    fn run<W: World>(self, alloc: Global, env: Env, dir: Word, world: W, budget: u64) -> (Finish, W)
        requires { (W.seen world).held ≡ [] }
        ensures { RanAndSavedOrBegun (W.seen world) (W.seen result.1) self.words self.file self.dir env dir budget result.0 }
    {
        let mut recorder = Recorder::new(alloc, world);
        let ran = execline(alloc, &self.words, env, dir, &mut recorder, budget);
        let is_whole = recorder.is_whole();
        let (mut world, log) = recorder.into_parts();
        let finish = self.settle(alloc, log, is_whole, ran, &mut world);
        (finish, world)
    }

    // Saves the trace of a run that finished so, where all of it was recorded.
    fn settle<W: World>(
        &self,
        alloc: Global,
        log: Log,
        is_whole: bool,
        ran: Finish,
        world: &mut W,
    ) -> Finish
        ensures { IsSavedOrStays (W.seen world.old) (W.seen world.new) self.now.dir self.now.file (events_of log) is_whole ran result }
    {
        match end_of(ran) {
            Some(end) if is_whole => self.save(alloc, &Trace { log, end }, world),
            _ => Finish::NoMemory,
        }
    }

    // Writes the text of the trace to the file, and ends as the run did.
    fn save<W: World>(&self, alloc: Global, trace: &Trace, world: &mut W) -> Finish
        ensures { Ran (W.seen world.old) (W.seen world.new) (saved self.now.dir self.now.file (trace_text (events_of trace.now.log) trace.now.end) (ending_in trace.now.end)) 0 (outcome_of result) 0 }
    {
        let Ok(text) = print_trace(alloc, trace) else {
            return Finish::NoMemory;
        };
        match call::open_file(&self.dir, &self.file, Mode::Write, world) {
            Ok(Ok(file)) => put(alloc, file, text.as_bytes(), trace.end, world),
            Ok(Err(_)) => complain(alloc, Trouble::Failed, world),
            Err(NoMemory) => Finish::NoMemory,
        }
    }
}

// How a run ended; none where memory was wanting.
#[tactic(auto, unfolding(el_record::specs::Recordable::IsRunEnd))]
fn end_of(finish: Finish) -> Option<RunEnd>
    ensures end { option_map (λ end. ended (ending_in end)) result ≡ outcome_of finish }
    ensures fits { IfSome result IsRunEnd }
{
    match finish {
        Finish::Status(code) => Some(RunEnd::Status(code)),
        Finish::Spent => Some(RunEnd::Spent),
        Finish::NoMemory => None,
    }
}

// Writes the text to the file, closes it, and ends as the run did.
fn put<W: World>(alloc: Global, file: Handle, text: &[u8], end: RunEnd, world: &mut W) -> Finish
    requires { is_held (W.seen world.old).held file ≡ true }
    ensures { Ran (W.seen world.old) (W.seen world.new) (after_open text.now (ending_in end) (Ok file)) 0 (outcome_of result) 0 }
{
    let Ok(written) = call::write(file, text, world) else {
        return Finish::NoMemory;
    };
    call::close(file, world);
    match written {
        Ok(()) => finish_of(end),
        Err(_) => complain(alloc, Trouble::Failed, world),
    }
}

// The end of elrecord as the run's.
fn finish_of(end: RunEnd) -> Finish
    ensures { outcome_of result ≡ Some (ended (ending_in end)) }
{
    match end {
        RunEnd::Status(code) => Finish::Status(code),
        RunEnd::Spent => Finish::Spent,
    }
}

// The end of elrecord behind a message.
fn complain<W: World>(alloc: Global, trouble: Trouble, world: &mut W) -> Finish
    ensures { Ran (W.seen world.old) (W.seen world.new) (complained trouble) 0 (outcome_of result) 0 }
{
    refused_as(
        alloc,
        &Fds::standard(),
        elrecord_name(),
        trouble,
        None,
        world,
    )
}

/// The name under which it is called, and under which it complains.
#[tactic(auto, unfolding(crate::specs::Record::elrecord_name))]
pub fn elrecord_name() -> &'static [u8]
    ensures { result.now ≡ elrecord_name }
{
    b"elrecord"
}
