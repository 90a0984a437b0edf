//! A world in memory, which answers from a list.
ghost use Rattle.std.specs.Prelude.{◌≡◌, ◌≢◌, ◌<◌, ◌≤◌, ◌+◌, ◌^◌, [], ◌∷◌, length, Err, IfOk, OnOk, OnErr, true, nat_lt};
ghost use Rattle.std.specs.List.{list_all};
ghost use Rattle.std.specs.Option.{option_copied};
ghost use Rattle.el_world.specs.Scripted.{Script, seen_of, begun, or_plain, due, noted, holding, numbered, with_given, after_call, Replied, Replays};
ghost use Rattle.el_world.specs.World.{extended, started, waited, file_opened, pipe_made, fed, written, is_start_failed, is_failed, HasCause, IsWaitStatus};
ghost use Rattle.el_world.specs.Handles.{is_held, without, opened_handles, piped_handles, Gave, Keeps};
ghost use Rattle.el_world.specs.Lawful.{TellsOrLoses};
ghost use Rattle.el_world.specs.Calls.{call_of, start as start_call, wait as wait_call, open_file as open_call, pipe as pipe_call, feed as feed_call, read as read_call, write as write_call, close as close_call, enter as enter_call};
ghost use Rattle.el_world.specs.Log.{events_of};
ghost use Rattle.el_world.specs.declared.event.Event.TheVariants.{Read as read_event, Close as close_event, Enter as enter_event};

mod replies;

use crate::{
    Answer, Answers, Ended, Event, Fault, Handle, Log, MAX_PIECE, Mode, Pid, PipeEnds, StartFault,
    Tape, World,
};
use el_env::Env;
use el_words::{Bytes, NoMemory, Word, Words};
use replies::{
    enter_reply, is_failed, is_start_failed, next_after, open_reply, pipe_reply, read_reply,
    start_reply, wait_reply, write_reply,
};
use std::alloc::Global;
use std::marker::Model;

/// A world in memory, which answers from a list and then plainly, and tells its log.
#[derive(Drop)]
pub struct Scripted {
    alloc: Global,
    tape: Tape,
    answers: Answers,
    taken: usize,
    faults: u64,
    held: Vec<Handle>,
    next_pid: u64,
    next_handle: u64,
}

impl Model for Scripted {
    ghost use Rattle.std.specs.Prelude.{drop};
    ghost use Rattle.el_world.specs.Scripted.{Script, IsSound};
    ghost use Rattle.std.specs.Coded.{codes};
    ghost use Rattle.el_world.specs.contracts.event.Event as event;
    ghost use Rattle.el_world.specs.contracts.answer.Answer as answer;
    ghost use Rattle.el_world.specs.contracts.event.Handle as handle;

    ghost Value = { Script };

    ghost coded = { Prim.hlevel (codes, event.the_row.coded, answer.the_row.coded, handle.the_row.coded) };

    ghost view = { λ s. record { origin = s.answers; log = s.tape.events; answers = drop s.taken s.answers; faults = s.faults; held = s.held.items; next_pid = s.next_pid; next_handle = s.next_handle } };

    ghost invariant = { λ s. IsSound (record { origin = s.answers; log = s.tape.events; answers = drop s.taken s.answers; faults = s.faults; held = s.held.items; next_pid = s.next_pid; next_handle = s.next_handle }) s.taken s.tape.closes };
}

impl Scripted {
    /// A world with no events and no faults, whose processes are numbered from 100 and whose handles
    /// from 3 on.
    pub fn new(alloc: Global, answers: Answers) -> Result<Scripted, NoMemory>
        ensures { IfOk result (λ world. world ≡ begun answers) }
    {
        Ok(Scripted {
            alloc,
            tape: Tape::new(alloc),
            answers,
            taken: 0,
            faults: 0,
            held: Vec::new(alloc),
            next_pid: 100,
            next_handle: 3,
        })
    }

    /// The events so far. Their answers are the ones that the answers give with which it was made.
    pub fn log(&self) -> &Log
        ensures log { events_of result.now ≡ self.now.log }
        ensures replays { Replays self.now }
    {
        self.tape.log()
    }

    /// The same, without the world. It takes no memory.
    pub fn into_log(self) -> Log
        ensures log { events_of result ≡ self.log }
        ensures replays { Replays self }
    {
        self.tape.into_log()
    }

    /// How many calls have failed. It stands still at the greatest u64.
    pub fn faults(&self) -> u64
        ensures { result ≡ self.now.faults }
    {
        self.faults
    }

    // The next answer; None is a plain one.
    fn due(&self) -> Option<&Answer>
        ensures { or_plain (option_copied result) ≡ due self.now.answers }
    {
        self.answers.get(self.taken)
    }

    // Adds the event of a call, takes an answer, counts a fault, and holds what was given; the numbers are
    // the next ones then.
    fn give(
        &mut self,
        event: Event,
        failed: bool,
        given: &[Handle],
        next_pid: u64,
        next_handle: u64,
    ) -> Result<(), NoMemory>
        requires later { self.old.next_handle ≤ next_handle }
        requires below { list_all (λ handle. nat_lt handle.number next_handle) given.now ≡ true }
        requires reply { numbered (holding (noted self.old event failed) given.now next_handle) next_pid ≡ after_call self.old (call_of event) }
        ensures ok { OnOk result (self.new ≡ numbered (holding (noted self.old event failed) given.now next_handle) next_pid) }
        ensures err { OnErr result (self.new ≡ self.old) }
    {
        self.tape.make_room(given.len())?;
        self.held.extend_from_slice(given)?;
        self.tape.put(event, given.len());
        self.taken = self.taken.saturating_add(1).min(self.answers.len());
        self.faults = self.faults.saturating_add(u64::from(failed));
        self.next_pid = next_pid;
        self.next_handle = next_handle;
        Ok(())
    }

    // The same for a call that gives nothing.
    fn note(&mut self, event: Event, failed: bool) -> Result<(), NoMemory>
        requires { noted self.old event failed ≡ after_call self.old (call_of event) }
        ensures ok { OnOk result (self.new ≡ noted self.old event failed) }
        ensures err { OnErr result (self.new ≡ self.old) }
    {
        let (next_pid, next_handle) = (self.next_pid, self.next_handle);
        self.give(event, failed, &[], next_pid, next_handle)?;
        Ok(())
    }

    // The same for a call that gives the next handle, or fails.
    fn give_one(&mut self, event: Event, answer: Result<Handle, Fault>) -> Result<(), NoMemory>
        requires next { IfOk answer (λ handle. (handle.number ≡ self.old.next_handle) × (self.old.next_handle + 1 < 2 ^ 64)) }
        requires reply { with_given (noted self.old event (is_failed answer)) (opened_handles answer) ≡ after_call self.old (call_of event) }
        ensures ok { OnOk result (self.new ≡ with_given (noted self.old event (is_failed answer)) (opened_handles answer)) }
        ensures err { OnErr result (self.new ≡ self.old) }
    {
        let (next_pid, next_handle) = (self.next_pid, self.next_handle);
        match answer {
            Ok(handle) => self.give(event, false, &[handle], next_pid, next_handle + 1)?,
            Err(_) => self.note(event, is_failed(&answer))?,
        }
        Ok(())
    }
}

// Takes a handle out, which is held.
fn take_out(held: &mut Vec<Handle>, handle: Handle)
    requires { is_held held.old.items handle ≡ true }
    ensures items { held.new.items ≡ without held.old.items handle }
    ensures fewer { length held.new.items < length held.old.items }
{
    held.retain(|other| other.number != handle.number);
}

impl World for Scripted {
    ghost use Rattle.el_world.specs.Handles.{is_given};
    ghost use Rattle.el_world.specs.Scripted.{all_filtered};

    ghost seen = { λ s. seen_of s };

    fn start(
        &mut self,
        words: &Words,
        env: &Env,
        dir: &Word,
        ends: &[Option<Handle>; 3],
    ) -> Result<Pid, StartFault>
        ensures log { (seen_of self.new).log ≡ extended (seen_of self.old).log (started words.now env.now dir.now ends.now result) }
        ensures cause { HasCause self.old.faults self.new.faults result StartFault.Failed }
        ensures handles { Keeps (seen_of self.old) (seen_of self.new) }
        ensures no_memory { result ≡ Err StartFault.NoMemory → self.new ≡ self.old }
        ensures exact { result ≢ Err StartFault.NoMemory → Replied self.old self.new (start_call words.now env.now dir.now ends.now) result }
    {
        let answer = start_reply(self.due(), self.next_pid);
        let event = Event::Start {
            words: words.copy()?,
            env: env.copy()?,
            dir: dir.copy()?,
            ends: *ends,
            answer,
        };
        let next_pid = next_after(&answer, self.next_pid);
        let next_handle = self.next_handle;
        self.give(event, is_start_failed(&answer), &[], next_pid, next_handle)?;
        answer
    }

    fn wait(&mut self, pid: Pid) -> Result<Ended, Fault>
        ensures log { (seen_of self.new).log ≡ extended (seen_of self.old).log (waited pid result) }
        ensures cause { HasCause self.old.faults self.new.faults result Fault.Failed }
        ensures handles { Keeps (seen_of self.old) (seen_of self.new) }
        ensures signal { IfOk result IsWaitStatus }
        ensures no_memory { result ≡ Err Fault.NoMemory → self.new ≡ self.old }
        ensures exact { result ≢ Err Fault.NoMemory → Replied self.old self.new (wait_call pid) result }
    {
        let answer = wait_reply(self.due());
        self.note(Event::Wait { pid, answer }, is_failed(&answer))?;
        answer
    }

    fn open_file(&mut self, dir: &Word, path: &Word, mode: Mode) -> Result<Handle, Fault>
        ensures log { (seen_of self.new).log ≡ extended (seen_of self.old).log (file_opened dir.now path.now mode result) }
        ensures cause { HasCause self.old.faults self.new.faults result Fault.Failed }
        ensures handles { Gave (seen_of self.old) (seen_of self.new) (opened_handles result) }
        ensures no_memory { result ≡ Err Fault.NoMemory → self.new ≡ self.old }
        ensures exact { result ≢ Err Fault.NoMemory → Replied self.old self.new (open_call dir.now path.now mode) result }
    {
        let answer = open_reply(self.due(), self.next_handle);
        let event = Event::Opened {
            dir: dir.copy()?,
            path: path.copy()?,
            mode,
            answer,
        };
        self.give_one(event, answer)?;
        answer
    }

    fn pipe(&mut self) -> Result<PipeEnds, Fault>
        ensures log { (seen_of self.new).log ≡ extended (seen_of self.old).log (pipe_made result) }
        ensures cause { HasCause self.old.faults self.new.faults result Fault.Failed }
        ensures handles { Gave (seen_of self.old) (seen_of self.new) (piped_handles result) }
        ensures no_memory { result ≡ Err Fault.NoMemory → self.new ≡ self.old }
        ensures exact { result ≢ Err Fault.NoMemory → Replied self.old self.new pipe_call result }
    {
        let (pid, next) = (self.next_pid, self.next_handle);
        let answer = pipe_reply(self.due(), next);
        let event = Event::Pipe { answer };
        match answer {
            Ok(ends) => self.give(event, false, &[ends.reader, ends.writer], pid, next + 2)?,
            Err(_) => self.note(event, is_failed(&answer))?,
        }
        answer
    }

    fn feed(&mut self, bytes: &[u8]) -> Result<Handle, Fault>
        ensures log { (seen_of self.new).log ≡ extended (seen_of self.old).log (fed bytes.now result) }
        ensures cause { HasCause self.old.faults self.new.faults result Fault.Failed }
        ensures handles { Gave (seen_of self.old) (seen_of self.new) (opened_handles result) }
        ensures no_memory { result ≡ Err Fault.NoMemory → self.new ≡ self.old }
        ensures exact { result ≢ Err Fault.NoMemory → Replied self.old self.new (feed_call bytes.now) result }
    {
        let answer = open_reply(self.due(), self.next_handle);
        let event = Event::Feed {
            bytes: Bytes::from_slice(self.alloc, bytes)?,
            answer,
        };
        self.give_one(event, answer)?;
        answer
    }

    fn read(&mut self, handle: Handle) -> Result<Bytes, Fault>
        ensures log { TellsOrLoses (seen_of self.old) (seen_of self.new) (read_event handle) result }
        ensures cause { HasCause self.old.faults self.new.faults result Fault.Failed }
        ensures handles { Keeps (seen_of self.old) (seen_of self.new) }
        ensures piece { IfOk result (λ bytes. length bytes ≤ MAX_PIECE) }
        ensures no_memory { result ≡ Err Fault.NoMemory → self.new ≡ self.old }
        ensures exact { result ≢ Err Fault.NoMemory → Replied self.old self.new (read_call handle) result }
    {
        let answer = read_reply(self.alloc, self.due())?;
        let event = Event::Read {
            handle,
            answer: read_reply(self.alloc, self.due())?,
        };
        self.note(event, is_failed(&answer))?;
        answer
    }

    fn write(&mut self, handle: Handle, bytes: &[u8]) -> Result<(), Fault>
        ensures log { (seen_of self.new).log ≡ extended (seen_of self.old).log (written handle bytes.now result) }
        ensures cause { HasCause self.old.faults self.new.faults result Fault.Failed }
        ensures handles { Keeps (seen_of self.old) (seen_of self.new) }
        ensures no_memory { result ≡ Err Fault.NoMemory → self.new ≡ self.old }
        ensures exact { result ≢ Err Fault.NoMemory → Replied self.old self.new (write_call handle bytes.now) result }
    {
        let answer = write_reply(self.due());
        let event = Event::Write {
            handle,
            bytes: Bytes::from_slice(self.alloc, bytes)?,
            answer,
        };
        self.note(event, is_failed(&answer))?;
        answer
    }

    fn close(&mut self, handle: Handle)
        requires { is_held (seen_of self.old).held handle ≡ true }
        ensures log { (seen_of self.new).log ≡ extended (seen_of self.old).log (close_event handle ∷ []) }
        ensures later { self.old.faults ≤ self.new.faults }
        ensures held { (seen_of self.new).held ≡ without (seen_of self.old).held handle }
        ensures next { self.new.next_handle ≡ self.old.next_handle }
        ensures origin { (seen_of self.new).origin ≡ (seen_of self.old).origin }
        ensures exact { self.new ≡ after_call self.old (close_call handle) }
    {
        take_out(&mut self.held, handle);
        self.tape.put_close(handle);
    }

    fn enter(&mut self, dir: &Word, path: &Word) -> Result<Word, Fault>
        ensures log { TellsOrLoses (seen_of self.old) (seen_of self.new) (enter_event dir.now path.now) result }
        ensures cause { HasCause self.old.faults self.new.faults result Fault.Failed }
        ensures handles { Keeps (seen_of self.old) (seen_of self.new) }
        ensures no_memory { result ≡ Err Fault.NoMemory → self.new ≡ self.old }
        ensures exact { result ≢ Err Fault.NoMemory → Replied self.old self.new (enter_call dir.now path.now) result }
    {
        let answer = enter_reply(self.due(), path)?;
        let event = Event::Enter {
            dir: dir.copy()?,
            path: path.copy()?,
            answer: enter_reply(self.due(), path)?,
        };
        self.note(event, is_failed(&answer))?;
        answer
    }

    ghost held_are_given = { λ script. all_filtered is_given script.held };
}
