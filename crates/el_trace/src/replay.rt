//! A world that answers calls as recorded events say.
ghost use Rattle.el_room.specs.Vocabulary.{option_copied, Handle as HandleValue, Close as close_event, Enter as enter_event, events_of, IsWaitStatus, is_lawful, are_lawful, given_by, is_held, opened_handles, piped_handles};
ghost use Rattle.std.specs.Prelude.{◌≡◌, ◌<◌, ◌≤◌, [], ◌∷◌, ◌++◌, length, drop, true, if◌then◌else◌, List, IfOk, OnOk, OnErr, slice_get};
ghost use Rattle.el_world.specs.declared.event.Event.TheVariants.{Read as read_event};
ghost use Rattle.el_world.specs.World.{extended, started, waited, file_opened, pipe_made, fed, written, HasCause};
ghost use Rattle.el_world.specs.Lawful.{TellsOrLoses};
ghost use Rattle.el_world.specs.Handles.{held_after, without, Gave, Keeps};
ghost use Rattle.el_trace.specs.NewHandles.{first_number, keep_numbers};
ghost use Rattle.el_trace.specs.Replays.{begun, seen_of, Fits, behind, Retraces};

use crate::answers::{
    close_answer, copy_of_dir, copy_of_piece, enter_answer, feed_answer, open_answer, or_failed,
    pipe_answer, read_answer, start_answer, start_or_failed, wait_answer, write_answer,
};
use crate::counts::{given_count, is_fault};
use crate::new_handles::{LAST_OWN, raised};
use el_env::Env;
use el_words::{Bytes, NoMemory, Word, Words};
use el_world::{
    Ended, Event, Fault, Handle, Log, MAX_PIECE, Mode, Pid, PipeEnds, StartFault, Tape, World,
};
use std::alloc::Global;
use std::marker::Model;

/// A world that answers each call as the recorded event does that is due, while the calls are the recorded
/// ones. From the first one on that isn't, or for which none was recorded, every call but a close fails. It
/// tells its log.
#[derive(Drop)]
pub(crate) struct Replay<'a> {
    alloc: Global,
    recorded: &'a Log,
    // The place of the recorded event that is due.
    at: usize,
    tape: Tape,
    faults: u64,
    greatest: u64,
}

impl<'a> Model for Replay<'a> {
    ghost use Rattle.std.specs.Prelude.{◌+◌, drop};
    ghost use Rattle.std.specs.Coded.{codes};
    ghost use Rattle.el_world.specs.Log.{events_of};
    ghost use Rattle.el_world.specs.contracts.event.Event as event;
    ghost use Rattle.el_trace.specs.Replays.{Replaying, IsSound};

    ghost Value = { Replaying };

    ghost coded = { Prim.hlevel (codes, event.the_row.coded) };

    ghost view = { λ r. record { recorded = events_of r.recorded.now; log = r.tape.events; left = drop r.at (events_of r.recorded.now); faults = r.faults; next = r.greatest + 1 } };

    ghost invariant = { λ r. IsSound (record { recorded = events_of r.recorded.now; log = r.tape.events; left = drop r.at (events_of r.recorded.now); faults = r.faults; next = r.greatest + 1 }) r.tape.closes };
}

impl<'a> Replay<'a> {
    /// A world that has told nothing yet, over lawful events that keep the rule on new handles. Its events take
    /// memory from `alloc`; this takes none.
    pub(crate) fn new(alloc: Global, recorded: &'a Log) -> Replay<'a>
        requires numbers { keep_numbers first_number (events_of recorded.now) ≡ true }
        requires lawful { are_lawful (events_of recorded.now) ≡ true }
        ensures { result ≡ begun (events_of recorded.now) }
    {
        Replay {
            alloc,
            recorded,
            at: 0,
            tape: Tape::new(alloc),
            faults: 0,
            greatest: LAST_OWN,
        }
    }

    /// The events so far, without the world. It takes no memory.
    pub(crate) fn into_log(self) -> Log
        ensures log { events_of result ≡ self.entry.log }
        ensures retraces { Retraces self.entry.recorded self.entry.log }
    {
        self.tape.into_log()
    }

    // The recorded event that is due.
    fn due(&self) -> Option<&'a Event>
        ensures { option_copied result ≡ slice_get self.now.left 0 }
    {
        self.recorded.get(self.at)
    }

    // Tells a call other than a close, counts it where it failed, and goes on: to the next recorded event where
    // it was the one that is due, and else to the end.
    fn tell(&mut self, event: Event, fits: bool) -> Result<(), NoMemory>
        requires adds { (held : List HandleValue) → held_after held event ≡ held ++ given_by event }
        requires fits { Fits self.old.left event fits }
        ensures ok { OnOk result (self.new ≡ behind self.old event fits) }
        ensures err { OnErr result (self.new ≡ self.old) }
        ensures lawful { is_lawful event ≡ true }
        ensures gave { OnOk result (Gave (seen_of self.old) (seen_of self.new) (given_by event)) }
    {
        let given = given_count(&event);
        let failed = is_fault(&event);
        let at = self.place_behind(fits);
        let Some(greatest) = raised(self.greatest, &event) else {
            unreachable!();
        };
        self.tape.make_room(given)?;
        self.tape.put(event, given);
        self.at = at;
        self.faults = self.faults.saturating_add(u64::from(failed));
        self.greatest = greatest;
        Ok(())
    }

    // The place that is due behind a call.
    fn place_behind(&self, fits: bool) -> usize
        requires { fits ≡ true → 0 < length self.now.left }
        ensures { drop result self.now.recorded ≡ (if fits then drop 1 self.now.left else []) }
    {
        if fits {
            self.at + 1
        } else {
            self.recorded.len()
        }
    }
}

impl<'a> World for Replay<'a> {
    ghost use Rattle.el_world.specs.Handles.{is_given, held_after_all};
    ghost use Rattle.el_world.specs.Scripted.{all_filtered};

    ghost seen = { λ r. seen_of r };

    fn start(
        &mut self,
        words: &Words,
        env: &Env,
        dir: &Word,
        ends: &[Option<Handle>; 3],
    ) -> Result<Pid, StartFault>
        ensures log { (seen_of self.new).log ≡ extended (seen_of self.old).log (started words.now env.now dir.now ends.now result) }
        ensures cause { HasCause self.old.faults self.new.faults result StartFault.Failed }
        ensures handles { Keeps (seen_of self.old) (seen_of self.new) }
    {
        let found = start_answer(self.due(), words, env, dir, ends)?;
        let answer = start_or_failed(found);
        let event = Event::Start {
            words: words.copy()?,
            env: env.copy()?,
            dir: dir.copy()?,
            ends: *ends,
            answer,
        };
        self.tell(event, found.is_some())?;
        answer
    }

    fn wait(&mut self, pid: Pid) -> Result<Ended, Fault>
        ensures log { (seen_of self.new).log ≡ extended (seen_of self.old).log (waited pid result) }
        ensures cause { HasCause self.old.faults self.new.faults result Fault.Failed }
        ensures handles { Keeps (seen_of self.old) (seen_of self.new) }
        ensures signal { IfOk result IsWaitStatus }
    {
        let found = wait_answer(self.due(), pid);
        let answer = or_failed(found);
        self.tell(Event::Wait { pid, answer }, found.is_some())?;
        answer
    }

    fn open_file(&mut self, dir: &Word, path: &Word, mode: Mode) -> Result<Handle, Fault>
        ensures log { (seen_of self.new).log ≡ extended (seen_of self.old).log (file_opened dir.now path.now mode result) }
        ensures cause { HasCause self.old.faults self.new.faults result Fault.Failed }
        ensures handles { Gave (seen_of self.old) (seen_of self.new) (opened_handles result) }
    {
        let found = open_answer(self.due(), dir, path, mode);
        let answer = or_failed(found);
        let event = Event::Opened {
            dir: dir.copy()?,
            path: path.copy()?,
            mode,
            answer,
        };
        self.tell(event, found.is_some())?;
        answer
    }

    fn pipe(&mut self) -> Result<PipeEnds, Fault>
        ensures log { (seen_of self.new).log ≡ extended (seen_of self.old).log (pipe_made result) }
        ensures cause { HasCause self.old.faults self.new.faults result Fault.Failed }
        ensures handles { Gave (seen_of self.old) (seen_of self.new) (piped_handles result) }
    {
        let found = pipe_answer(self.due());
        let answer = or_failed(found);
        self.tell(Event::Pipe { answer }, found.is_some())?;
        answer
    }

    fn feed(&mut self, bytes: &[u8]) -> Result<Handle, Fault>
        ensures log { (seen_of self.new).log ≡ extended (seen_of self.old).log (fed bytes.now result) }
        ensures cause { HasCause self.old.faults self.new.faults result Fault.Failed }
        ensures handles { Gave (seen_of self.old) (seen_of self.new) (opened_handles result) }
    {
        let found = feed_answer(self.due(), bytes);
        let answer = or_failed(found);
        let event = Event::Feed {
            bytes: Bytes::from_slice(self.alloc, bytes)?,
            answer,
        };
        self.tell(event, found.is_some())?;
        answer
    }

    fn read(&mut self, handle: Handle) -> Result<Bytes, Fault>
        ensures log { TellsOrLoses (seen_of self.old) (seen_of self.new) (read_event handle) result }
        ensures cause { HasCause self.old.faults self.new.faults result Fault.Failed }
        ensures handles { Keeps (seen_of self.old) (seen_of self.new) }
        ensures piece { IfOk result (λ bytes. length bytes ≤ MAX_PIECE) }
    {
        let found = read_answer(self.due(), handle);
        let answer = copy_of_piece(self.alloc, found)?;
        let event = Event::Read {
            handle,
            answer: copy_of_piece(self.alloc, found)?,
        };
        self.tell(event, found.is_some())?;
        answer
    }

    fn write(&mut self, handle: Handle, bytes: &[u8]) -> Result<(), Fault>
        ensures log { (seen_of self.new).log ≡ extended (seen_of self.old).log (written handle bytes.now result) }
        ensures cause { HasCause self.old.faults self.new.faults result Fault.Failed }
        ensures handles { Keeps (seen_of self.old) (seen_of self.new) }
    {
        let found = write_answer(self.due(), handle, bytes);
        let answer = or_failed(found);
        let event = Event::Write {
            handle,
            bytes: Bytes::from_slice(self.alloc, bytes)?,
            answer,
        };
        self.tell(event, found.is_some())?;
        answer
    }

    fn close(&mut self, handle: Handle)
        requires { is_held (seen_of self.old).held handle ≡ true }
        ensures log { (seen_of self.new).log ≡ extended (seen_of self.old).log (close_event handle ∷ []) }
        ensures later { self.old.faults ≤ self.new.faults }
        ensures held { (seen_of self.new).held ≡ without (seen_of self.old).held handle }
        ensures next { self.new.next ≡ self.old.next }
        ensures origin { (seen_of self.new).origin ≡ (seen_of self.old).origin }
    {
        let fits = close_answer(self.due(), handle).is_some();
        let at = self.place_behind(fits);
        self.tape.put_close(handle);
        self.at = at;
    }

    fn enter(&mut self, dir: &Word, path: &Word) -> Result<Word, Fault>
        ensures log { TellsOrLoses (seen_of self.old) (seen_of self.new) (enter_event dir.now path.now) result }
        ensures cause { HasCause self.old.faults self.new.faults result Fault.Failed }
        ensures handles { Keeps (seen_of self.old) (seen_of self.new) }
    {
        let found = enter_answer(self.due(), dir, path);
        let answer = copy_of_dir(found)?;
        let event = Event::Enter {
            dir: dir.copy()?,
            path: path.copy()?,
            answer: copy_of_dir(found)?,
        };
        self.tell(event, found.is_some())?;
        answer
    }

    ghost held_are_given = { λ r. all_filtered is_given (held_after_all [] r.log) };
}
