//! A world that tells what it passes on.
ghost use Rattle.std.specs.Prelude.{◌≡◌, ◌<◌, ◌≤◌, ◌+◌, ◌∷◌, ◌++◌, [], true, cond, length, IfOk, OnOk};
ghost use Rattle.el_world.specs.World.{extended, started, waited, file_opened, pipe_made, fed, written, HasCause, IsWaitStatus};
ghost use Rattle.el_world.specs.Lawful.{TellsOrLoses};
ghost use Rattle.el_world.specs.Handles.{is_held, is_usable, are_usable, without, opened_handles, piped_handles, Gave, Keeps};
ghost use Rattle.el_world.specs.Log.{events_of};
ghost use Rattle.el_world.specs.Runs.{Added};
ghost use Rattle.el_world.specs.declared.event.Event.TheVariants.{Close as close_event, Read as read_event, Enter as enter_event};
ghost use Rattle.el_record.specs.Lost.{AddedButForLost};
ghost use Rattle.el_record.specs.Recordable.{AreRecordable};
ghost use Rattle.el_record.specs.Fits.{IsTellable};
ghost use Rattle.el_record.specs.Recorded.{seen_of, IsCopyOf, Passed, Handed, has_event, has_start_event};

use crate::fits::{copy_of_variables, event_fits, handle_fits};
use el_env::Env;
use el_words::{Bytes, NoMemory, Word, Words};
use el_world::{
    Ended, Event, Fault, Handle, Log, MAX_PIECE, Mode, Pid, PipeEnds, StartFault, Subject, Tape,
    World,
};
use std::alloc::Global;
use std::marker::Model;
use std::snapshot::Snapshot;

/// A world that passes each call on to an inner one and tells its own log of what it passed on, so that a
/// log is there too where the inner world tells none. Its faults, handles and next number are the inner
/// ones, and its origin is the inner world as it was handed in.
///
/// The memory for an event is taken before the call is passed on, but for the answer of a read or an
/// enter: where that can't be copied, it is recorded, and the caller gets `NoMemory`.
///
/// The inner world may tell a read or an enter that it answered with `NoMemory`. That event is lost. From then on
/// the recorder passes on nothing but closes, and answers each other call with `NoMemory`.
#[derive(Drop)]
pub struct Recorder<W: World> {
    alloc: Global,
    world: W,
    // The inner world as it was handed in, for clauses alone.
    before: Snapshot<W>,
    tape: Tape,
    whole: bool,
}

impl<W: World> Model for Recorder<W> {
    ghost use Rattle.std.specs.Coded.{codes};
    ghost use Rattle.el_record.specs.Recorded.{Recorded, IsKept};
    ghost use Rattle.el_world.specs.contracts.event.Event as event_type;

    ghost Value = { Recorded W };

    ghost coded = { Prim.hlevel (codes, event_type.the_row.coded, W.code) };

    ghost view = { λ r. record { world = r.world; before = r.before.value; log = r.tape.events; whole = r.whole } };

    ghost invariant = { λ r. IsKept W.seen (record { world = r.world; before = r.before.value; log = r.tape.events; whole = r.whole }) r.tape.closes };
}

impl<W: World> Recorder<W> {
    /// A recorder of the calls of `world` from then on, with no events. The world must hold no handle. Its
    /// events take memory from `alloc`; this takes none.
    pub fn new(alloc: Global, world: W) -> Recorder<W>
        requires { (W.seen world).held ≡ [] }
        ensures { result ≡ record { world = world; before = world; log = []; whole = true } }
    {
        let before = Snapshot::of(&world);
        Recorder {
            alloc,
            world,
            before,
            tape: Tape::new(alloc),
            whole: true,
        }
    }

    /// The events so far, which a trace's text can hold.
    pub fn log(&self) -> &Log
        ensures same { events_of result.now ≡ self.now.log }
        ensures fits { AreRecordable self.now.log }
    {
        self.tape.log()
    }

    /// Whether the inner world was given the recorded events alone. It is so unless the inner world
    /// answered `NoMemory` to a read or an enter, whose event it may have told all the same.
    pub fn is_whole(&self) -> bool
        ensures { result ≡ self.now.whole }
    {
        self.whole
    }

    /// The inner world, and the events, which a trace's text can hold. The inner world was given these events, and
    /// at most one that was lost: a read or an enter that it answered with `NoMemory` and told all the same, after
    /// which only handles were closed. It takes no memory.
    pub fn into_parts(self) -> (W, Log)
        ensures world { result.0 ≡ self.world }
        ensures log { events_of result.1 ≡ self.log }
        ensures in_step { self.whole ≡ true → Added (W.seen self.before) (W.seen result.0) self.log }
        ensures but_for_lost { AddedButForLost (W.seen self.before) (W.seen result.0) self.log }
        ensures fits { AreRecordable self.log }
    {
        (self.world, self.tape.into_log())
    }
}

impl<W: World> World for Recorder<W> {
    ghost seen = { λ r. seen_of W.seen r };

    fn start(
        &mut self,
        words: &Words,
        env: &Env,
        dir: &Word,
        ends: &[Option<Handle>; 3],
    ) -> Result<Pid, StartFault>
        requires words { 0 < length words.now }
        requires ends { are_usable (W.seen self.old.world).held ends.now ≡ true }
        ensures log { (seen_of W.seen self.new).log ≡ extended (seen_of W.seen self.old).log (started words.now env.now dir.now ends.now result) }
        ensures cause { HasCause (seen_of W.seen self.old).faults (seen_of W.seen self.new).faults result StartFault.Failed }
        ensures handles { Keeps (seen_of W.seen self.old) (seen_of W.seen self.new) }
        ensures passed { Passed W.seen self.old self.new (started words.now env.now dir.now ends.now result) }
    {
        let kept_words = words.copy()?;
        let kept_env = copy_of_variables(env)?;
        let kept_dir = dir.copy()?;
        make_room(self.whole, &mut self.tape, 0)?;
        let answer = self.world.start(words, env, dir, ends);
        let event = Event::Start {
            words: kept_words,
            env: kept_env,
            dir: kept_dir,
            ends: *ends,
            answer,
        };
        tell(&mut self.tape, has_start_event(&answer), event, 0);
        answer
    }

    fn wait(&mut self, pid: Pid) -> Result<Ended, Fault>
        ensures log { (seen_of W.seen self.new).log ≡ extended (seen_of W.seen self.old).log (waited pid result) }
        ensures cause { HasCause (seen_of W.seen self.old).faults (seen_of W.seen self.new).faults result Fault.Failed }
        ensures handles { Keeps (seen_of W.seen self.old) (seen_of W.seen self.new) }
        ensures signal { IfOk result IsWaitStatus }
        ensures passed { Passed W.seen self.old self.new (waited pid result) }
    {
        make_room(self.whole, &mut self.tape, 0)?;
        let answer = self.world.wait(pid);
        let event = Event::Wait { pid, answer };
        tell(&mut self.tape, has_event(&answer), event, 0);
        answer
    }

    fn open_file(&mut self, dir: &Word, path: &Word, mode: Mode) -> Result<Handle, Fault>
        ensures log { (seen_of W.seen self.new).log ≡ extended (seen_of W.seen self.old).log (file_opened dir.now path.now mode result) }
        ensures cause { HasCause (seen_of W.seen self.old).faults (seen_of W.seen self.new).faults result Fault.Failed }
        ensures handles { Gave (seen_of W.seen self.old) (seen_of W.seen self.new) (opened_handles result) }
        ensures passed { Passed W.seen self.old self.new (file_opened dir.now path.now mode result) }
    {
        let kept_dir = dir.copy()?;
        let kept_path = path.copy()?;
        make_room(self.whole, &mut self.tape, 1)?;
        let answer = self.world.open_file(dir, path, mode);
        let event = Event::Opened {
            dir: kept_dir,
            path: kept_path,
            mode,
            answer,
        };
        tell(
            &mut self.tape,
            has_event(&answer),
            event,
            opened_count(&answer),
        );
        answer
    }

    fn pipe(&mut self) -> Result<PipeEnds, Fault>
        ensures log { (seen_of W.seen self.new).log ≡ extended (seen_of W.seen self.old).log (pipe_made result) }
        ensures cause { HasCause (seen_of W.seen self.old).faults (seen_of W.seen self.new).faults result Fault.Failed }
        ensures handles { Gave (seen_of W.seen self.old) (seen_of W.seen self.new) (piped_handles result) }
        ensures passed { Passed W.seen self.old self.new (pipe_made result) }
    {
        make_room(self.whole, &mut self.tape, 2)?;
        let answer = self.world.pipe();
        let event = Event::Pipe { answer };
        tell(
            &mut self.tape,
            has_event(&answer),
            event,
            piped_count(&answer),
        );
        answer
    }

    fn feed(&mut self, bytes: &[u8]) -> Result<Handle, Fault>
        ensures log { (seen_of W.seen self.new).log ≡ extended (seen_of W.seen self.old).log (fed bytes.now result) }
        ensures cause { HasCause (seen_of W.seen self.old).faults (seen_of W.seen self.new).faults result Fault.Failed }
        ensures handles { Gave (seen_of W.seen self.old) (seen_of W.seen self.new) (opened_handles result) }
        ensures passed { Passed W.seen self.old self.new (fed bytes.now result) }
    {
        let kept_bytes = Bytes::from_slice(self.alloc, bytes)?;
        make_room(self.whole, &mut self.tape, 1)?;
        let answer = self.world.feed(bytes);
        let event = Event::Feed {
            bytes: kept_bytes,
            answer,
        };
        tell(
            &mut self.tape,
            has_event(&answer),
            event,
            opened_count(&answer),
        );
        answer
    }

    fn read(&mut self, handle: Handle) -> Result<Bytes, Fault>
        requires { is_usable (W.seen self.old.world).held handle ≡ true }
        ensures log { TellsOrLoses (seen_of W.seen self.old) (seen_of W.seen self.new) (read_event handle) result }
        ensures cause { HasCause (seen_of W.seen self.old).faults (seen_of W.seen self.new).faults result Fault.Failed }
        ensures handles { Keeps (seen_of W.seen self.old) (seen_of W.seen self.new) }
        ensures piece { IfOk result (λ bytes. length bytes ≤ MAX_PIECE) }
        ensures handed { Handed W.seen self.old self.new (read_event handle) result }
    {
        make_room(self.whole, &mut self.tape, 0)?;
        let answer = self.world.read(handle);
        let copy = copy_of_piece(self.alloc, &answer);
        let told = has_event(&answer);
        self.whole &= told;
        tell(&mut self.tape, told, Event::Read { handle, answer }, 0);
        copy
    }

    fn write(&mut self, handle: Handle, bytes: &[u8]) -> Result<(), Fault>
        requires { is_usable (W.seen self.old.world).held handle ≡ true }
        ensures log { (seen_of W.seen self.new).log ≡ extended (seen_of W.seen self.old).log (written handle bytes.now result) }
        ensures cause { HasCause (seen_of W.seen self.old).faults (seen_of W.seen self.new).faults result Fault.Failed }
        ensures handles { Keeps (seen_of W.seen self.old) (seen_of W.seen self.new) }
        ensures passed { Passed W.seen self.old self.new (written handle bytes.now result) }
    {
        let kept_bytes = Bytes::from_slice(self.alloc, bytes)?;
        make_room(self.whole, &mut self.tape, 0)?;
        let answer = self.world.write(handle, bytes);
        let event = Event::Write {
            handle,
            bytes: kept_bytes,
            answer,
        };
        tell(&mut self.tape, has_event(&answer), event, 0);
        answer
    }

    fn close(&mut self, handle: Handle)
        requires { is_held (W.seen self.old.world).held handle ≡ true }
        ensures log { (seen_of W.seen self.new).log ≡ extended (seen_of W.seen self.old).log (close_event handle ∷ []) }
        ensures later { (seen_of W.seen self.old).faults ≤ (seen_of W.seen self.new).faults }
        ensures held { (W.seen self.new.world).held ≡ without (W.seen self.old.world).held handle }
        ensures next { (W.seen self.new.world).next ≡ (W.seen self.old.world).next }
        ensures origin { (seen_of W.seen self.new).origin ≡ (seen_of W.seen self.old).origin }
        ensures passed { Passed W.seen self.old self.new (close_event handle ∷ []) }
    {
        handle_fits(handle);
        self.world.close(handle);
        self.tape.put_close(handle);
    }

    fn enter(&mut self, dir: &Word, path: &Word) -> Result<Word, Fault>
        ensures log { TellsOrLoses (seen_of W.seen self.old) (seen_of W.seen self.new) (enter_event dir.now path.now) result }
        ensures cause { HasCause (seen_of W.seen self.old).faults (seen_of W.seen self.new).faults result Fault.Failed }
        ensures handles { Keeps (seen_of W.seen self.old) (seen_of W.seen self.new) }
        ensures handed { Handed W.seen self.old self.new (enter_event dir.now path.now) result }
    {
        let kept_dir = dir.copy()?;
        let kept_path = path.copy()?;
        make_room(self.whole, &mut self.tape, 0)?;
        let answer = self.world.enter(dir, path);
        let copy = copy_of_dir(&answer);
        let told = has_event(&answer);
        self.whole &= told;
        let event = Event::Enter {
            dir: kept_dir,
            path: kept_path,
            answer,
        };
        tell(&mut self.tape, told, event, 0);
        copy
    }

    fn explain(&mut self, subject: Subject<'_>)
        ensures seen { seen_of W.seen self.new ≡ seen_of W.seen self.old }
    {
        self.world.explain(subject);
    }

    ghost held_are_given = { λ recorder. W.held_are_given recorder.world };
}

// Makes room for the event of a call that gives at most so many handles. There is none once an event was lost.
fn make_room(is_whole: bool, tape: &mut Tape, given: usize) -> Result<(), NoMemory>
    ensures events { tape.new.events ≡ tape.old.events }
    ensures closes { tape.new.closes ≡ tape.old.closes }
    ensures room { OnOk result (given + 1 ≤ tape.new.room) }
    ensures whole { OnOk result (is_whole ≡ true) }
{
    if !is_whole {
        return Err(NoMemory);
    }
    tape.make_room(given)
}

// Puts last the event of a call that gave so many handles, unless there was no memory for the call.
fn tell(tape: &mut Tape, told: bool, event: Event, given: usize)
    requires room { given + 1 ≤ tape.old.room }
    requires tellable { told ≡ true → IsTellable event }
    ensures events { tape.new.events ≡ tape.old.events ++ cond told (event ∷ []) [] }
    ensures closes { tape.new.closes ≡ tape.old.closes + cond told given 0 }
    ensures fits { AreRecordable (cond told (event ∷ []) []) }
{
    if told {
        event_fits(&event);
        tape.put(event, given);
    }
}

// The call has an event: there was memory for it.
fn has_event<T>(answer: &Result<T, Fault>) -> bool
    ensures { result ≡ has_event answer.now }
{
    match answer {
        Ok(_) | Err(Fault::Failed) => true,
        Err(Fault::NoMemory) => false,
    }
}

// The same of a start.
fn has_start_event(answer: &Result<Pid, StartFault>) -> bool
    ensures { result ≡ has_start_event answer.now }
{
    match answer {
        Ok(_) | Err(StartFault::NotFound | StartFault::NotStartable | StartFault::Failed) => true,
        Err(StartFault::NoMemory) => false,
    }
}

// How many handles an answer gave.
fn opened_count(answer: &Result<Handle, Fault>) -> usize
    ensures count { result ≡ length (opened_handles answer.now) }
    ensures most { result ≤ 1 }
{
    match answer {
        Ok(_) => 1,
        Err(_) => 0,
    }
}

// The same of a pipe.
fn piped_count(answer: &Result<PipeEnds, Fault>) -> usize
    ensures count { result ≡ length (piped_handles answer.now) }
    ensures most { result ≤ 2 }
{
    match answer {
        Ok(_) => 2,
        Err(_) => 0,
    }
}

// The same answer of a read, or want of memory in place of its bytes.
fn copy_of_piece(alloc: Global, answer: &Result<Bytes, Fault>) -> Result<Bytes, Fault>
    ensures { IsCopyOf answer.now result }
{
    match answer {
        Ok(bytes) => match Bytes::from_slice(alloc, bytes.as_bytes()) {
            Ok(copy) => Ok(copy),
            Err(NoMemory) => Err(Fault::NoMemory),
        },
        Err(fault) => Err(*fault),
    }
}

// The same answer of an enter, or want of memory in place of its word.
fn copy_of_dir(answer: &Result<Word, Fault>) -> Result<Word, Fault>
    ensures { IsCopyOf answer.now result }
{
    match answer {
        Ok(dir) => match dir.copy() {
            Ok(copy) => Ok(copy),
            Err(NoMemory) => Err(Fault::NoMemory),
        },
        Err(fault) => Err(*fault),
    }
}
