//! A World in which one call fails.
ghost use Rattle.std.specs.Prelude.{◌≡◌, ◌≤◌, ◌∷◌, [], true, length, IfOk, OnErr, Some, Err, ◌<◌};
ghost use Rattle.std.specs.Option.{option_copied};
ghost use Rattle.el_world.specs.World.{extended, started, waited, file_opened, pipe_made, fed, written, HasCause, IsWaitStatus};
ghost use Rattle.el_world.specs.Lawful.{TellsOrLoses};
ghost use Rattle.el_world.specs.Handles.{is_held, is_usable, are_usable, without, opened_handles, piped_handles, Gave, Keeps};
ghost use Rattle.el_world.specs.Runs.{Added};
ghost use Rattle.el_world.specs.Fuse.{whole, blown, failed_event, seen_through, is_due, counted_down, Fuses, FusesOrLoses, FusesStart};
ghost use Rattle.el_world.specs.declared.event.Event.TheVariants.{Start as start_event, Wait as wait_event, Opened as opened_event, Pipe as pipe_event, Feed as feed_event, Read as read_event, Write as write_event, Close as close_event, Enter as enter_event};

use crate::{
    Ended, Event, Fault, Handle, MAX_PIECE, Mode, Pid, PipeEnds, StartFault, Subject, World,
};
use el_env::Env;
use el_words::{Bytes, NoMemory, Word, Words};
use std::alloc::Global;
use std::marker::Model;
use std::snapshot::Snapshot;

/// A World that passes calls on to an inner one and lets one of them fail. Its log is the inner log with the
/// failed call's event at its place, and its count of faults is one more once that call has come.
#[derive(Drop)]
pub struct Fuse<W: World> {
    alloc: Global,
    world: W,
    wire: Wire<W>,
}

// Whether the call that fails has come.
#[derive(Drop)]
enum Wire<W> {
    // So many calls are due up to it, itself among them; 0 if none fails.
    Whole(u64),
    // It has come; None is one that had no memory for its event.
    Blown(Option<Failure<W>>),
}

#[derive(Drop)]
struct Failure<W> {
    event: Event,
    // The inner world at that moment, for clauses alone.
    before: Snapshot<W>,
}

impl<W: World> Model for Fuse<W> {
    ghost use Rattle.std.specs.Prelude.{◌≡◌, true};
    ghost use Rattle.el_world.specs.Fuse.{Fused, wire_of, is_in_place};
    ghost use Rattle.std.specs.Coded.{codes};
    ghost use Rattle.el_world.specs.contracts.event.Event as event_type;

    ghost Value = { Fused W };

    ghost coded = { Prim.hlevel (codes, event_type.the_row.coded, W.code) };

    ghost view = { λ f. record { world = f.world; wire = wire_of f.wire } };

    ghost invariant = { λ f. is_in_place W.seen (wire_of f.wire) f.world ≡ true };
}

impl<W: World> Fuse<W> {
    /// A world whose `k`-th call that isn't a close fails, counted from 1; with 0 none does. Its event takes
    /// memory from `alloc`.
    pub fn new(alloc: Global, world: W, k: u64) -> Fuse<W>
        ensures { result ≡ record { world = world; wire = whole k } }
    {
        Fuse {
            alloc,
            world,
            wire: Wire::Whole(k),
        }
    }

    /// The world to which calls are passed on.
    pub fn inner(&self) -> &W
        ensures { result.now ≡ self.now.world }
    {
        &self.world
    }

    /// The event of the call that failed, or None exactly where no such event was added.
    pub fn failed(&self) -> Option<&Event>
        ensures { option_copied result ≡ failed_event self.now.wire }
    {
        match &self.wire {
            Wire::Blown(Some(failure)) => Some(&failure.event),
            _ => None,
        }
    }

    // Counts a call that isn't a close. True says that it is the one that fails.
    fn count(&mut self) -> bool
        ensures due { result ≡ is_due self.old.wire }
        ensures count { self.new ≡ record self.old { wire = counted_down self.old.wire } }
    {
        match self.wire {
            Wire::Whole(left) => {
                self.wire = Wire::Whole(left.saturating_sub(1));
                left == 1
            }
            Wire::Blown(_) => false,
        }
    }

    // Lets the call fail that has this event, or that had no memory for it.
    fn fail(&mut self, event: Result<Event, NoMemory>) -> Fault
        ensures world { self.new.world ≡ self.old.world }
        ensures told { IfOk event (λ event. (result ≡ Fault.Failed) × (self.new.wire ≡ blown (Some (record { event = event; before = self.old.world })))) }
        ensures untold { OnErr event ((result ≡ Fault.NoMemory) × (self.new.wire ≡ blown None)) }
    {
        match event {
            Ok(event) => {
                let before = Snapshot::of(&self.world);
                self.wire = Wire::Blown(Some(Failure { event, before }));
                Fault::Failed
            }
            Err(NoMemory) => {
                self.wire = Wire::Blown(None);
                Fault::NoMemory
            }
        }
    }
}

impl<W: World> World for Fuse<W> {
    ghost seen = { λ f. seen_through W.seen f };

    fn start(
        &mut self,
        words: &Words,
        env: &Env,
        dir: &Word,
        ends: &[Option<Handle>; 3],
    ) -> Result<Pid, StartFault>
        requires words { 0 < length words.now }
        requires ends { are_usable (W.seen self.old.world).held ends.now ≡ true }
        ensures log { (seen_through W.seen self.new).log ≡ extended (seen_through W.seen self.old).log (started words.now env.now dir.now ends.now result) }
        ensures cause { HasCause (seen_through W.seen self.old).faults (seen_through W.seen self.new).faults result StartFault.Failed }
        ensures handles { Keeps (seen_through W.seen self.old) (seen_through W.seen self.new) }
        ensures exact { FusesStart W.seen self.old self.new (start_event words.now env.now dir.now ends.now) result }
    {
        if self.count() {
            let event = failed_start(words, env, dir, ends);
            return Err(start_fault(self.fail(event)));
        }
        self.world.start(words, env, dir, ends)
    }

    fn wait(&mut self, pid: Pid) -> Result<Ended, Fault>
        ensures log { (seen_through W.seen self.new).log ≡ extended (seen_through W.seen self.old).log (waited pid result) }
        ensures cause { HasCause (seen_through W.seen self.old).faults (seen_through W.seen self.new).faults result Fault.Failed }
        ensures handles { Keeps (seen_through W.seen self.old) (seen_through W.seen self.new) }
        ensures signal { IfOk result IsWaitStatus }
        ensures exact { Fuses W.seen self.old self.new (wait_event pid) result }
    {
        if self.count() {
            let event = Ok(Event::Wait {
                pid,
                answer: Err(Fault::Failed),
            });
            return Err(self.fail(event));
        }
        self.world.wait(pid)
    }

    fn open_file(&mut self, dir: &Word, path: &Word, mode: Mode) -> Result<Handle, Fault>
        ensures log { (seen_through W.seen self.new).log ≡ extended (seen_through W.seen self.old).log (file_opened dir.now path.now mode result) }
        ensures cause { HasCause (seen_through W.seen self.old).faults (seen_through W.seen self.new).faults result Fault.Failed }
        ensures handles { Gave (seen_through W.seen self.old) (seen_through W.seen self.new) (opened_handles result) }
        ensures exact { Fuses W.seen self.old self.new (opened_event dir.now path.now mode) result }
    {
        if self.count() {
            let event = failed_open(dir, path, mode);
            return Err(self.fail(event));
        }
        self.world.open_file(dir, path, mode)
    }

    fn pipe(&mut self) -> Result<PipeEnds, Fault>
        ensures log { (seen_through W.seen self.new).log ≡ extended (seen_through W.seen self.old).log (pipe_made result) }
        ensures cause { HasCause (seen_through W.seen self.old).faults (seen_through W.seen self.new).faults result Fault.Failed }
        ensures handles { Gave (seen_through W.seen self.old) (seen_through W.seen self.new) (piped_handles result) }
        ensures exact { Fuses W.seen self.old self.new pipe_event result }
    {
        if self.count() {
            let event = Ok(Event::Pipe {
                answer: Err(Fault::Failed),
            });
            return Err(self.fail(event));
        }
        self.world.pipe()
    }

    fn feed(&mut self, bytes: &[u8]) -> Result<Handle, Fault>
        ensures log { (seen_through W.seen self.new).log ≡ extended (seen_through W.seen self.old).log (fed bytes.now result) }
        ensures cause { HasCause (seen_through W.seen self.old).faults (seen_through W.seen self.new).faults result Fault.Failed }
        ensures handles { Gave (seen_through W.seen self.old) (seen_through W.seen self.new) (opened_handles result) }
        ensures exact { Fuses W.seen self.old self.new (feed_event bytes.now) result }
    {
        if self.count() {
            let event = failed_feed(self.alloc, bytes);
            return Err(self.fail(event));
        }
        self.world.feed(bytes)
    }

    fn read(&mut self, handle: Handle) -> Result<Bytes, Fault>
        requires { is_usable (W.seen self.old.world).held handle ≡ true }
        ensures log { TellsOrLoses (seen_through W.seen self.old) (seen_through W.seen self.new) (read_event handle) result }
        ensures cause { HasCause (seen_through W.seen self.old).faults (seen_through W.seen self.new).faults result Fault.Failed }
        ensures handles { Keeps (seen_through W.seen self.old) (seen_through W.seen self.new) }
        ensures piece { IfOk result (λ bytes. length bytes ≤ MAX_PIECE) }
        ensures exact { FusesOrLoses W.seen self.old self.new (read_event handle) result }
    {
        if self.count() {
            let event = Ok(Event::Read {
                handle,
                answer: Err(Fault::Failed),
            });
            return Err(self.fail(event));
        }
        self.world.read(handle)
    }

    fn write(&mut self, handle: Handle, bytes: &[u8]) -> Result<(), Fault>
        requires { is_usable (W.seen self.old.world).held handle ≡ true }
        ensures log { (seen_through W.seen self.new).log ≡ extended (seen_through W.seen self.old).log (written handle bytes.now result) }
        ensures cause { HasCause (seen_through W.seen self.old).faults (seen_through W.seen self.new).faults result Fault.Failed }
        ensures handles { Keeps (seen_through W.seen self.old) (seen_through W.seen self.new) }
        ensures exact { Fuses W.seen self.old self.new (write_event handle bytes.now) result }
    {
        if self.count() {
            let event = failed_write(self.alloc, handle, bytes);
            return Err(self.fail(event));
        }
        self.world.write(handle, bytes)
    }

    fn close(&mut self, handle: Handle)
        requires { is_held (W.seen self.old.world).held handle ≡ true }
        ensures log { (seen_through W.seen self.new).log ≡ extended (seen_through W.seen self.old).log (close_event handle ∷ []) }
        ensures later { (seen_through W.seen self.old).faults ≤ (seen_through W.seen self.new).faults }
        ensures held { (W.seen self.new.world).held ≡ without (W.seen self.old.world).held handle }
        ensures next { (W.seen self.new.world).next ≡ (W.seen self.old.world).next }
        ensures origin { (W.seen self.new.world).origin ≡ (W.seen self.old.world).origin }
        ensures wire { self.new.wire ≡ self.old.wire }
        ensures passed { Added (W.seen self.old.world) (W.seen self.new.world) (close_event handle ∷ []) }
    {
        self.world.close(handle);
    }

    fn enter(&mut self, dir: &Word, path: &Word) -> Result<Word, Fault>
        ensures log { TellsOrLoses (seen_through W.seen self.old) (seen_through W.seen self.new) (enter_event dir.now path.now) result }
        ensures cause { HasCause (seen_through W.seen self.old).faults (seen_through W.seen self.new).faults result Fault.Failed }
        ensures handles { Keeps (seen_through W.seen self.old) (seen_through W.seen self.new) }
        ensures exact { FusesOrLoses W.seen self.old self.new (enter_event dir.now path.now) result }
    {
        if self.count() {
            let event = failed_enter(dir, path);
            return Err(self.fail(event));
        }
        self.world.enter(dir, path)
    }

    fn explain(&mut self, subject: Subject<'_>)
        ensures seen { seen_through W.seen self.new ≡ seen_through W.seen self.old }
    {
        self.world.explain(subject);
    }

    ghost held_are_given = { λ fuse. W.held_are_given fuse.world };
}

// The event of a start that failed.
fn failed_start(
    words: &Words,
    env: &Env,
    dir: &Word,
    ends: &[Option<Handle>; 3],
) -> Result<Event, NoMemory>
    ensures { IfOk result (λ event. event ≡ start_event words.now env.now dir.now ends.now (Err StartFault.Failed)) }
{
    Ok(Event::Start {
        words: words.copy()?,
        env: env.copy()?,
        dir: dir.copy()?,
        ends: *ends,
        answer: Err(StartFault::Failed),
    })
}

fn failed_open(dir: &Word, path: &Word, mode: Mode) -> Result<Event, NoMemory>
    ensures { IfOk result (λ event. event ≡ opened_event dir.now path.now mode (Err Fault.Failed)) }
{
    Ok(Event::Opened {
        dir: dir.copy()?,
        path: path.copy()?,
        mode,
        answer: Err(Fault::Failed),
    })
}

fn failed_feed(alloc: Global, bytes: &[u8]) -> Result<Event, NoMemory>
    ensures { IfOk result (λ event. event ≡ feed_event bytes.now (Err Fault.Failed)) }
{
    Ok(Event::Feed {
        bytes: Bytes::from_slice(alloc, bytes)?,
        answer: Err(Fault::Failed),
    })
}

fn failed_write(alloc: Global, handle: Handle, bytes: &[u8]) -> Result<Event, NoMemory>
    ensures { IfOk result (λ event. event ≡ write_event handle bytes.now (Err Fault.Failed)) }
{
    Ok(Event::Write {
        handle,
        bytes: Bytes::from_slice(alloc, bytes)?,
        answer: Err(Fault::Failed),
    })
}

fn failed_enter(dir: &Word, path: &Word) -> Result<Event, NoMemory>
    ensures { IfOk result (λ event. event ≡ enter_event dir.now path.now (Err Fault.Failed)) }
{
    Ok(Event::Enter {
        dir: dir.copy()?,
        path: path.copy()?,
        answer: Err(Fault::Failed),
    })
}

// The same fault of a start.
fn start_fault(fault: Fault) -> StartFault
    ensures failed { fault ≡ Fault.Failed → result ≡ StartFault.Failed }
    ensures no_memory { fault ≡ Fault.NoMemory → result ≡ StartFault.NoMemory }
{
    match fault {
        Fault::Failed => StartFault::Failed,
        Fault::NoMemory => StartFault::NoMemory,
    }
}
