//! What lies outside: processes, descriptors, files and directories.
ghost use Rattle.std.specs.Prelude.{◌≡◌, ◌<◌, ◌≤◌, true, length, IfOk, [], ◌∷◌};
ghost use Rattle.el_world.specs.World.{Seen, extended, started, waited, file_opened, pipe_made, fed, written, HasCause, IsWaitStatus};
ghost use Rattle.el_world.specs.Lawful.{TellsOrLoses};
ghost use Rattle.el_world.specs.Handles.{is_held, is_usable, are_usable, are_given, without, opened_handles, piped_handles, Gave, Keeps};
ghost use Rattle.el_world.specs.declared.event.Event.TheVariants.{Read as read_event, Close as close_event, Enter as enter_event};

use crate::{Ended, Fault, Handle, MAX_PIECE, Mode, Pid, PipeEnds, StartFault, Subject};
use el_env::Env;
use el_words::{Bytes, Word, Words};

/// What lies outside: processes, descriptors, files and directories.
///
/// A call that answers `NoMemory` adds no event to the log; every other adds exactly one, itself with
/// its arguments and its answer. But a `read` or an `enter` whose answer came and couldn't be handed on
/// for want of memory answers `NoMemory` and may add itself with the value that came. The count of
/// faults never falls, and `Failed` comes only where it rose in the call.
///
/// The handles held are those that were given and not closed. A given handle is new: it is none of the
/// process's own 0, 1 and 2, none that is held, and of at least the next number, which then lies above
/// it. A call may name a handle that is the process's own or held.
///
/// What a world was made of, its origin, no call changes.
pub trait World {
    /// The events so far, where this world tells them; how many calls have failed; the handles held;
    /// the next number; and the origin.
    ghost seen: { Self → Seen };

    /// Starts a process with these words, of which the first names it, this environment alone, this
    /// directory, and these handles as its descriptors 0 to 2; None is the null device.
    fn start(
        &mut self,
        words: &Words,
        env: &Env,
        dir: &Word,
        ends: &[Option<Handle>; 3],
    ) -> Result<Pid, StartFault>
        requires words { 0 < length words.now }
        requires ends { are_usable (seen self.old).held ends.now ≡ true }
        ensures log { (seen self.new).log ≡ extended (seen self.old).log (started words.now env.now dir.now ends.now result) }
        ensures cause { HasCause (seen self.old).faults (seen self.new).faults result StartFault.Failed }
        ensures handles { Keeps (seen self.old) (seen self.new) };

    /// Waits until the process ends.
    fn wait(&mut self, pid: Pid) -> Result<Ended, Fault>
        ensures log { (seen self.new).log ≡ extended (seen self.old).log (waited pid result) }
        ensures cause { HasCause (seen self.old).faults (seen self.new).faults result Fault.Failed }
        ensures handles { Keeps (seen self.old) (seen self.new) }
        ensures signal { IfOk result IsWaitStatus };

    /// Opens the file that `path` names from the directory `dir`.
    fn open_file(&mut self, dir: &Word, path: &Word, mode: Mode) -> Result<Handle, Fault>
        ensures log { (seen self.new).log ≡ extended (seen self.old).log (file_opened dir.now path.now mode result) }
        ensures cause { HasCause (seen self.old).faults (seen self.new).faults result Fault.Failed }
        ensures handles { Gave (seen self.old) (seen self.new) (opened_handles result) };

    /// Makes a pipe.
    fn pipe(&mut self) -> Result<PipeEnds, Fault>
        ensures log { (seen self.new).log ≡ extended (seen self.old).log (pipe_made result) }
        ensures cause { HasCause (seen self.old).faults (seen self.new).faults result Fault.Failed }
        ensures handles { Gave (seen self.old) (seen self.new) (piped_handles result) };

    /// Gives a handle from which these bytes can be read.
    fn feed(&mut self, bytes: &[u8]) -> Result<Handle, Fault>
        ensures log { (seen self.new).log ≡ extended (seen self.old).log (fed bytes.now result) }
        ensures cause { HasCause (seen self.old).faults (seen self.new).faults result Fault.Failed }
        ensures handles { Gave (seen self.old) (seen self.new) (opened_handles result) };

    /// Reads from 1 to `MAX_PIECE` bytes, or none at the end of input.
    fn read(&mut self, handle: Handle) -> Result<Bytes, Fault>
        requires { is_usable (seen self.old).held handle ≡ true }
        ensures log { TellsOrLoses (seen self.old) (seen self.new) (read_event handle) result }
        ensures cause { HasCause (seen self.old).faults (seen self.new).faults result Fault.Failed }
        ensures handles { Keeps (seen self.old) (seen self.new) }
        ensures piece { IfOk result (λ bytes. length bytes ≤ MAX_PIECE) };

    /// Writes all of the bytes, or fails; how much went out then isn't known.
    fn write(&mut self, handle: Handle, bytes: &[u8]) -> Result<(), Fault>
        requires { is_usable (seen self.old).held handle ≡ true }
        ensures log { (seen self.new).log ≡ extended (seen self.old).log (written handle bytes.now result) }
        ensures cause { HasCause (seen self.old).faults (seen self.new).faults result Fault.Failed }
        ensures handles { Keeps (seen self.old) (seen self.new) };

    /// Closes a handle that the world gave. It can't be refused, and takes no memory.
    fn close(&mut self, handle: Handle)
        requires { is_held (seen self.old).held handle ≡ true }
        ensures log { (seen self.new).log ≡ extended (seen self.old).log (close_event handle ∷ []) }
        ensures later { (seen self.old).faults ≤ (seen self.new).faults }
        ensures held { (seen self.new).held ≡ without (seen self.old).held handle }
        ensures next { (seen self.new).next ≡ (seen self.old).next }
        ensures origin { (seen self.new).origin ≡ (seen self.old).origin };

    /// The name of the directory that `path` means from the directory `dir`.
    fn enter(&mut self, dir: &Word, path: &Word) -> Result<Word, Fault>
        ensures log { TellsOrLoses (seen self.old) (seen self.new) (enter_event dir.now path.now) result }
        ensures cause { HasCause (seen self.old).faults (seen self.new).faults result Fault.Failed }
        ensures handles { Keeps (seen self.old) (seen self.new) };

    /// Takes note of what the next message is about. It is no call: nothing that is seen changes.
    fn explain(&mut self, _subject: Subject<'_>)
        ensures seen { seen self.new ≡ seen self.old }
    {}

    // All handles held are such as the world gave.
    ghost held_are_given: { (world : Self) → are_given (seen world).held ≡ true };
}
