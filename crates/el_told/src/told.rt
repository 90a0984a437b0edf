//! A world that tells what it passes on.
ghost use Rattle.std.specs.Prelude.{◌≡◌, ◌<◌, ◌≤◌, [], ◌∷◌, true, length, IfOk};
ghost use Rattle.el_world.specs.World.{extended, started, waited, file_opened, pipe_made, fed, written, HasCause, IsWaitStatus};
ghost use Rattle.el_world.specs.Lawful.{TellsOrLoses};
ghost use Rattle.el_world.specs.Handles.{is_held, is_usable, are_usable, without, opened_handles, piped_handles, Gave, Keeps};
ghost use Rattle.el_world.specs.declared.event.Event.TheVariants.{Close as close_event, Read as read_event, Enter as enter_event};
ghost use Rattle.el_told.specs.Telling.{seen_of, Passed, Handed};

use crate::note::Note;
use crate::trail::Trail;
use el_env::Env;
use el_words::{Bytes, Word, Words};
use el_world::{Ended, Fault, Handle, MAX_PIECE, Mode, Pid, PipeEnds, StartFault, Subject, World};

/// A world that passes each call on to an inner one and tells it, so that a log is there too where the inner
/// world tells none. The log is for clauses alone: it has no bytes, and nothing is done for it. The faults, the handles,
/// the next number and the origin are the inner ones.
#[derive(Drop)]
pub struct Told<W: World> {
    world: W,
    trail: Trail,
}

impl<W: World> Told<W> {
    /// The same world, which tells its calls from then on.
    pub fn new(world: W) -> Told<W>
        ensures world { result.world ≡ world }
        ensures log { result.trail.events ≡ [] }
    {
        Told {
            world,
            trail: Trail::new(),
        }
    }

    /// The inner world.
    pub fn into_inner(self) -> W
        ensures { result ≡ self.world }
    {
        self.world
    }
}

impl<W: World> World for Told<W> {
    ghost seen = { λ told. seen_of W.seen told };

    #[tactic(auto, unfolding(el_world::specs::World::extended))]
    fn start(
        &mut self,
        words: &Words,
        env: &Env,
        dir: &Word,
        ends: &[Option<Handle>; 3],
    ) -> Result<Pid, StartFault>
        requires words { 0 < length words.now }
        requires ends { are_usable (W.seen self.old.world).held ends.now ≡ true }
        ensures log { (seen_of W.seen self.new).log ≡ extended (seen_of W.seen self.old).log (started words.now env.now dir.now ends.now result) }
        ensures cause { HasCause (W.seen self.old.world).faults (W.seen self.new.world).faults result StartFault.Failed }
        ensures handles { Keeps (seen_of W.seen self.old) (seen_of W.seen self.new) }
        ensures passed { Passed W.seen self.old self.new (started words.now env.now dir.now ends.now result) }
    {
        let answer = self.world.start(words, env, dir, ends);
        self.trail = self.trail.then(&Note::Start {
            words,
            env,
            dir,
            ends,
            answer: &answer,
        });
        answer
    }

    #[tactic(auto, unfolding(el_world::specs::World::extended))]
    fn wait(&mut self, pid: Pid) -> Result<Ended, Fault>
        ensures log { (seen_of W.seen self.new).log ≡ extended (seen_of W.seen self.old).log (waited pid result) }
        ensures cause { HasCause (W.seen self.old.world).faults (W.seen self.new.world).faults result Fault.Failed }
        ensures handles { Keeps (seen_of W.seen self.old) (seen_of W.seen self.new) }
        ensures signal { IfOk result IsWaitStatus }
        ensures passed { Passed W.seen self.old self.new (waited pid result) }
    {
        let answer = self.world.wait(pid);
        self.trail = self.trail.then(&Note::Wait {
            pid,
            answer: &answer,
        });
        answer
    }

    #[tactic(auto, unfolding(el_world::specs::World::extended))]
    fn open_file(&mut self, dir: &Word, path: &Word, mode: Mode) -> Result<Handle, Fault>
        ensures log { (seen_of W.seen self.new).log ≡ extended (seen_of W.seen self.old).log (file_opened dir.now path.now mode result) }
        ensures cause { HasCause (W.seen self.old.world).faults (W.seen self.new.world).faults result Fault.Failed }
        ensures handles { Gave (seen_of W.seen self.old) (seen_of W.seen self.new) (opened_handles result) }
        ensures passed { Passed W.seen self.old self.new (file_opened dir.now path.now mode result) }
    {
        let answer = self.world.open_file(dir, path, mode);
        self.trail = self.trail.then(&Note::Opened {
            dir,
            path,
            mode,
            answer: &answer,
        });
        answer
    }

    #[tactic(auto, unfolding(el_world::specs::World::extended))]
    fn pipe(&mut self) -> Result<PipeEnds, Fault>
        ensures log { (seen_of W.seen self.new).log ≡ extended (seen_of W.seen self.old).log (pipe_made result) }
        ensures cause { HasCause (W.seen self.old.world).faults (W.seen self.new.world).faults result Fault.Failed }
        ensures handles { Gave (seen_of W.seen self.old) (seen_of W.seen self.new) (piped_handles result) }
        ensures passed { Passed W.seen self.old self.new (pipe_made result) }
    {
        let answer = self.world.pipe();
        self.trail = self.trail.then(&Note::Pipe { answer: &answer });
        answer
    }

    #[tactic(auto, unfolding(el_world::specs::World::extended))]
    fn feed(&mut self, bytes: &[u8]) -> Result<Handle, Fault>
        ensures log { (seen_of W.seen self.new).log ≡ extended (seen_of W.seen self.old).log (fed bytes.now result) }
        ensures cause { HasCause (W.seen self.old.world).faults (W.seen self.new.world).faults result Fault.Failed }
        ensures handles { Gave (seen_of W.seen self.old) (seen_of W.seen self.new) (opened_handles result) }
        ensures passed { Passed W.seen self.old self.new (fed bytes.now result) }
    {
        let answer = self.world.feed(bytes);
        self.trail = self.trail.then(&Note::Feed {
            bytes,
            answer: &answer,
        });
        answer
    }

    #[tactic(auto, using(el_world::proofs::Calls::none_is_lost), unfolding(el_world::specs::World::extended))]
    fn read(&mut self, handle: Handle) -> Result<Bytes, Fault>
        requires { is_usable (W.seen self.old.world).held handle ≡ true }
        ensures log { TellsOrLoses (seen_of W.seen self.old) (seen_of W.seen self.new) (read_event handle) result }
        ensures cause { HasCause (W.seen self.old.world).faults (W.seen self.new.world).faults result Fault.Failed }
        ensures handles { Keeps (seen_of W.seen self.old) (seen_of W.seen self.new) }
        ensures piece { IfOk result (λ bytes. length bytes ≤ MAX_PIECE) }
        ensures handed { Handed W.seen self.old self.new (read_event handle) result }
    {
        let answer = self.world.read(handle);
        self.trail = self.trail.then(&Note::Read {
            handle,
            answer: &answer,
        });
        answer
    }

    #[tactic(auto, unfolding(el_world::specs::World::extended))]
    fn write(&mut self, handle: Handle, bytes: &[u8]) -> Result<(), Fault>
        requires { is_usable (W.seen self.old.world).held handle ≡ true }
        ensures log { (seen_of W.seen self.new).log ≡ extended (seen_of W.seen self.old).log (written handle bytes.now result) }
        ensures cause { HasCause (W.seen self.old.world).faults (W.seen self.new.world).faults result Fault.Failed }
        ensures handles { Keeps (seen_of W.seen self.old) (seen_of W.seen self.new) }
        ensures passed { Passed W.seen self.old self.new (written handle bytes.now result) }
    {
        let answer = self.world.write(handle, bytes);
        self.trail = self.trail.then(&Note::Write {
            handle,
            bytes,
            answer: &answer,
        });
        answer
    }

    #[tactic(auto, unfolding(el_world::specs::World::extended))]
    fn close(&mut self, handle: Handle)
        requires { is_held (W.seen self.old.world).held handle ≡ true }
        ensures log { (seen_of W.seen self.new).log ≡ extended (seen_of W.seen self.old).log (close_event handle ∷ []) }
        ensures later { (W.seen self.old.world).faults ≤ (W.seen self.new.world).faults }
        ensures held { (W.seen self.new.world).held ≡ without (W.seen self.old.world).held handle }
        ensures next { (W.seen self.new.world).next ≡ (W.seen self.old.world).next }
        ensures origin { (W.seen self.new.world).origin ≡ (W.seen self.old.world).origin }
        ensures passed { Passed W.seen self.old self.new (close_event handle ∷ []) }
    {
        self.world.close(handle);
        self.trail = self.trail.then(&Note::Close { handle });
    }

    #[tactic(auto, using(el_world::proofs::Calls::none_is_lost), unfolding(el_world::specs::World::extended))]
    fn enter(&mut self, dir: &Word, path: &Word) -> Result<Word, Fault>
        ensures log { TellsOrLoses (seen_of W.seen self.old) (seen_of W.seen self.new) (enter_event dir.now path.now) result }
        ensures cause { HasCause (W.seen self.old.world).faults (W.seen self.new.world).faults result Fault.Failed }
        ensures handles { Keeps (seen_of W.seen self.old) (seen_of W.seen self.new) }
        ensures handed { Handed W.seen self.old self.new (enter_event dir.now path.now) result }
    {
        let answer = self.world.enter(dir, path);
        self.trail = self.trail.then(&Note::Enter {
            dir,
            path,
            answer: &answer,
        });
        answer
    }

    fn explain(&mut self, subject: Subject<'_>)
        ensures seen { seen_of W.seen self.new ≡ seen_of W.seen self.old }
    {
        self.world.explain(subject);
    }

    ghost held_are_given = { λ told. W.held_are_given told.world };
}
