//! The World over the operating system.
ghost use Rattle.std.specs.Prelude.{◌≡◌, ◌<◌, ◌≤◌, true, [], codes, length, IfOk, string_bytes};
ghost use Rattle.std.specs.FinMap as map;
ghost use Rattle.el_world.specs.World.{extended, HasCause};
ghost use Rattle.el_world.specs.Handles.{are_given};
ghost use Rattle.el_real.specs.Commands.{program_of};
ghost use Rattle.el_real.specs.Held.{handles_of, untold, are_below};
ghost use Rattle.el_real.specs.Lacks.{answer_of};
ghost use Rattle.el_real.specs.Reasons.{line_before, place_before, line_at_end, write_call, IsKeptOf, IsKeptOfStart, IsKeptOfUnstarted};
ghost use Rattle.el_real.specs.Starts.{start_answer_of};
ghost use Rattle.el_real.specs.declared.reason.Call.TheVariants.{Start as start_call};

use crate::command::program_of;
use crate::hint::Hint;
use crate::lack::Lack;
use crate::null_streams::NullStreams;
use crate::parent::Parent;
use crate::reason::{Call, reason_of, tells_of_call};
use crate::stream::{Held, Stream, next_piece, stream_of};
use crate::unstartable::{unfound_line, unstartable_line};
use crate::unstarted::{Unstarted, command_fault};
use el_env::Env as Variables;
use el_words::{Bytes, NoMemory, Word, Words};
use el_world::{Ended, Fault, Handle, MAX_PIECE, Mode, Pid, PipeEnds, StartFault, Subject, World};
use std::alloc::{Alloc, Global};
use std::fs::File;
use std::io::{self, Write};
use std::process::{Process, Processes};
use std::rt::{Env, Files, Stderr, Stdin, Stdout};
use std::{env, mem};

mod files;
mod handles;
mod processes;
mod streams;

// The process's own output.
const OUTPUT: u64 = 1;

// The process's own standard error.
const ERRORS: u64 = 2;

// So many bytes a pipe takes while nobody reads.
const PIPE_ROOM: usize = 4096;

// What is written before some bytes, and where.
#[derive(Drop)]
struct Due {
    line: Bytes,
    to: Handle,
}

/// The outside itself. It tells no log; each failure raises its count of faults, which stands still at
/// the greatest u64. Handles are numbered from 3 on and never again.
#[derive(Drop)]
pub struct RealWorld<R: Files<File = File> + Processes + Env + Alloc<A = Global> + Drop> {
    rt: R,
    alloc: Global,
    process: Process,
    parent: Parent,
    null: NullStreams,
    input: Stdin,
    output: Stdout,
    errors: Stderr,
    // Reads go into it; it has no length before the first.
    buffer: Vec<u8>,
    // The last call, but a close.
    last: Call,
    // The line that tells why it failed; none where it didn't, or nothing is known.
    reason: Bytes,
    // What is said before the next write.
    hint: Hint,
    faults: u64,
    held: Vec<Held>,
    next: u64,
    ghost own_below: { 3 ≤ next },
    ghost all_below: { are_below next held.items ≡ true },
    ghost all_given: { are_given (handles_of held.items) ≡ true },
}

impl<R: Files<File = File> + Processes + Env + Alloc<A = Global> + Drop> RealWorld<R> {
    /// The outside, before any call of this process, which was started with what `parent` holds, and has the null
    /// device where a stream was closed.
    pub fn new(
        rt: R,
        process: Process,
        parent: Parent,
        null: NullStreams,
        input: Stdin,
        output: Stdout,
        errors: Stderr,
    ) -> RealWorld<R>
        ensures faults { result.faults ≡ 0 }
        ensures held { result.held.items ≡ [] }
        ensures next { result.next ≡ 3 }
        ensures reason { result.reason ≡ [] }
    {
        let alloc = rt.alloc();
        RealWorld {
            rt,
            alloc,
            process,
            parent,
            null,
            input,
            output,
            errors,
            buffer: Vec::new(alloc),
            last: Call::Start,
            reason: Bytes::new(alloc),
            hint: Hint::none(alloc),
            faults: 0,
            held: Vec::new(alloc),
            next: 3,
        }
    }

    /// Says on standard error why the last call failed, if that was to write what the process puts out, and no message tells
    /// of it. A process calls it before it ends.
    pub fn tell_lost_output(&mut self)
        ensures faults { self.new.faults ≡ self.old.faults }
        ensures held { self.new.held.items ≡ self.old.held.items }
        ensures next { self.new.next ≡ self.old.next }
    {
        let line = self.due_at_end();
        // Nothing can be said of a failure.
        let _ = self.try_write(Handle { number: ERRORS }, line.as_bytes());
    }

    // Forgets why the last call failed, and gives the line that is due at the end.
    fn due_at_end(&mut self) -> Bytes
        ensures line { result ≡ line_at_end self.old.last self.old.reason }
        ensures reason { self.new.reason ≡ [] }
        ensures faults { self.new.faults ≡ self.old.faults }
        ensures held { self.new.held.items ≡ self.old.held.items }
        ensures next { self.new.next ≡ self.old.next }
    {
        let reason = mem::replace(&mut self.reason, Bytes::new(self.alloc));
        match self.last {
            Call::Output => reason,
            _ => Bytes::new(self.alloc),
        }
    }

    // The answer to a call. Where it failed the count is raised, and why is kept for its message.
    fn answered<T>(&mut self, call: Call, name: &[u8], answer: Result<T, Lack>) -> Result<T, Fault>
        ensures answer { result ≡ answer_of answer }
        ensures cause { HasCause self.old.faults self.new.faults result Fault.Failed }
        ensures reason { IsKeptOf call name.now answer self.new.reason }
        ensures last { self.new.last ≡ call }
        ensures held { self.new.held.items ≡ self.old.held.items }
        ensures next { self.new.next ≡ self.old.next }
    {
        self.last = call;
        match answer {
            Ok(value) => {
                self.reason = Bytes::new(self.alloc);
                Ok(value)
            }
            Err(lack) => {
                self.reason = reason_of(self.alloc, call, name, lack);
                let fault = Fault::from(lack);
                if fault == Fault::Failed {
                    self.faults = self.faults.saturating_add(1);
                }
                Err(fault)
            }
        }
    }

    // The same of a start. A command that isn't found or can't be run is no failure.
    fn start_answered(
        &mut self,
        words: &Words,
        env: &Variables,
        dir: &Word,
        answer: Result<Pid, Unstarted>,
    ) -> Result<Pid, StartFault>
        requires { 0 < length words.now }
        ensures answer { result ≡ start_answer_of answer }
        ensures cause { HasCause self.old.faults self.new.faults result StartFault.Failed }
        ensures reason { IsKeptOfStart (map.get env.now (codes "PATH")) dir.now (program_of (string_bytes self.old.parent.binary.file) words.now) answer self.new.reason }
        ensures last { self.new.last ≡ start_call }
        ensures held { self.new.held.items ≡ self.old.held.items }
        ensures next { self.new.next ≡ self.old.next }
    {
        self.last = Call::Start;
        match answer {
            Ok(pid) => {
                self.reason = Bytes::new(self.alloc);
                Ok(pid)
            }
            Err(unstarted) => {
                self.reason = self.reason_of_start(words, env, dir, unstarted);
                let fault = unstarted.fault();
                if fault == StartFault::Failed {
                    self.faults = self.faults.saturating_add(1);
                }
                Err(fault)
            }
        }
    }

    // The line that tells why nothing was started.
    fn reason_of_start(
        &self,
        words: &Words,
        env: &Variables,
        dir: &Word,
        unstarted: Unstarted,
    ) -> Bytes
        requires { 0 < length words.now }
        ensures { IsKeptOfUnstarted (map.get env.now (codes "PATH")) dir.now (program_of (string_bytes self.now.parent.binary.file) words.now) unstarted result }
    {
        let (rt, alloc, dir) = (&self.rt, self.alloc, dir.as_bytes());
        let program = program_of(self.parent.binary.file.as_str(), words);
        match unstarted {
            Unstarted::Lacking(lack) => reason_of(alloc, Call::Start, program, lack),
            Unstarted::NoDirectory(lack) => reason_of(alloc, Call::Enter, dir, lack),
            Unstarted::Refused(lack) => match command_fault(lack) {
                StartFault::NotFound => unfound_line(rt, alloc, program, env.get(b"PATH"), dir),
                StartFault::NotStartable => unstartable_line(rt, alloc, program, dir, lack),
                StartFault::Failed | StartFault::NoMemory => {
                    reason_of(alloc, Call::Start, program, lack)
                }
            },
        }
    }

    // Forgets why the last call failed and what was to be said, and gives what is due before these bytes.
    fn due_before(&mut self, handle: Handle, bytes: &[u8]) -> Result<Due, NoMemory>
        ensures line { IfOk result (λ due. due.line ≡ line_before self.old.reason self.old.hint.line bytes.now) }
        ensures place { IfOk result (λ due. due.to ≡ place_before self.old.hint.is_of_output handle) }
        ensures reason { self.new.reason ≡ [] }
        ensures hint { self.new.hint.line ≡ [] }
        ensures faults { self.new.faults ≡ self.old.faults }
        ensures held { self.new.held.items ≡ self.old.held.items }
        ensures next { self.new.next ≡ self.old.next }
    {
        let reason = mem::replace(&mut self.reason, Bytes::new(self.alloc));
        let hint = mem::replace(&mut self.hint, Hint::none(self.alloc));
        let mut line = if tells_of_call(bytes) {
            reason
        } else {
            Bytes::new(self.alloc)
        };
        line.append(hint.line.as_bytes())?;
        Ok(Due {
            line,
            to: place_before(hint.is_of_output, handle),
        })
    }

    fn try_read(&mut self, handle: Handle) -> Result<Bytes, Lack>
        ensures faults { self.new.faults ≡ self.old.faults }
        ensures held { self.new.held.items ≡ self.old.held.items }
        ensures next { self.new.next ≡ self.old.next }
        ensures piece { IfOk result (λ bytes. length bytes ≤ MAX_PIECE) }
    {
        if handle.number == 0 {
            return next_piece(self.alloc, &mut self.input, &mut self.buffer);
        }
        match stream_of(&self.held, handle) {
            Some(stream) => stream.read(self.alloc, &mut self.buffer),
            None => Err(Lack::Failed),
        }
    }

    fn try_write(&mut self, handle: Handle, bytes: &[u8]) -> Result<(), Lack>
        ensures faults { self.new.faults ≡ self.old.faults }
        ensures held { self.new.held.items ≡ self.old.held.items }
        ensures next { self.new.next ≡ self.old.next }
    {
        match handle.number {
            OUTPUT => Ok(self.output.write_all(bytes)?),
            ERRORS => Ok(self.errors.write_all(bytes)?),
            _ => match stream_of(&self.held, handle) {
                Some(stream) => stream.write(bytes),
                None => Err(Lack::Failed),
            },
        }
    }
}

impl<R: Files<File = File> + Processes + Env + Alloc<A = Global> + Drop> World for RealWorld<R> {
    ghost seen = { λ w. untold w.faults w.held.items w.next };

    #[tactic(auto, unfolding(el_world::specs::World::extended))]
    fn start(
        &mut self,
        words: &Words,
        env: &Variables,
        dir: &Word,
        ends: &[Option<Handle>; 3],
    ) -> Result<Pid, StartFault> {
        let answer = self.spawn(words, env, dir, ends);
        self.start_answered(words, env, dir, answer)
    }

    #[tactic(auto, unfolding(el_world::specs::World::extended))]
    fn wait(&mut self, pid: Pid) -> Result<Ended, Fault> {
        let answer = self.try_wait(pid);
        self.answered(Call::Wait, b"", answer)
    }

    #[tactic(auto, unfolding(el_world::specs::World::extended))]
    fn open_file(&mut self, dir: &Word, path: &Word, mode: Mode) -> Result<Handle, Fault> {
        self.null.give_back();
        let answer = match self.opened(dir, path, mode) {
            Ok(stream) => self.hold(stream),
            Err(lack) => Err(lack),
        };
        self.answered(Call::Open, path.as_bytes(), answer)
    }

    #[tactic(auto, unfolding(el_world::specs::World::extended))]
    fn pipe(&mut self) -> Result<PipeEnds, Fault> {
        self.null.give_back();
        let answer = match io::pipe(&self.rt) {
            Ok((reader, writer)) => self.hold_pipe(Stream::Reader(reader), Stream::Writer(writer)),
            Err(error) => Err(Lack::from(error)),
        };
        self.answered(Call::Pipe, b"", answer)
    }

    #[tactic(auto, unfolding(el_world::specs::World::extended))]
    fn feed(&mut self, bytes: &[u8]) -> Result<Handle, Fault> {
        self.null.give_back();
        if bytes.len() <= PIPE_ROOM {
            let answer = match self.piped(bytes) {
                Ok(stream) => self.hold(stream),
                Err(lack) => Err(lack),
            };
            return self.answered(Call::Pipe, b"", answer);
        }
        let folder = match env::temp_dir(&self.rt) {
            Ok(folder) => folder,
            Err(error) => return self.answered(Call::Feed, b"", Err(Lack::from(error))),
        };
        let answer = match self.filled(folder.as_path(), bytes) {
            Ok(stream) => self.hold(stream),
            Err(lack) => Err(lack),
        };
        self.answered(Call::Feed, folder.as_path().as_str().as_bytes(), answer)
    }

    #[tactic(auto, using(el_world::proofs::Calls::none_is_lost), unfolding(el_world::specs::World::extended))]
    fn read(&mut self, handle: Handle) -> Result<Bytes, Fault> {
        let answer = self.try_read(handle);
        self.answered(Call::Read, b"", answer)
    }

    #[tactic(auto, unfolding(el_world::specs::World::extended))]
    fn write(&mut self, handle: Handle, bytes: &[u8]) -> Result<(), Fault> {
        if let Ok(due) = self.due_before(handle, bytes) {
            // The bytes are written in any case.
            let _ = self.try_write(due.to, due.line.as_bytes());
        }
        let answer = self.try_write(handle, bytes);
        self.answered(write_call(handle), b"", answer)
    }

    #[tactic(auto, unfolding(el_world::specs::World::extended))]
    fn close(&mut self, handle: Handle) {
        handles::take_out(&mut self.held, handle);
    }

    #[tactic(auto, using(el_world::proofs::Calls::none_is_lost), unfolding(el_world::specs::World::extended))]
    fn enter(&mut self, dir: &Word, path: &Word) -> Result<Word, Fault> {
        let answer = self.entered(dir, path);
        self.answered(Call::Enter, path.as_bytes(), answer)
    }

    #[tactic(auto, unfolding(el_world::specs::World::extended))]
    fn explain(&mut self, subject: Subject<'_>) {
        self.hint = Hint::of(self.alloc, subject);
    }

    ghost held_are_given = { λ w. w.all_given };
}

// Where the lines go that are due before a write to this handle.
fn place_before(is_of_output: bool, handle: Handle) -> Handle
    ensures { result ≡ place_before is_of_output handle }
{
    if is_of_output {
        Handle { number: ERRORS }
    } else {
        handle
    }
}

// The call that a write to this handle is.
fn write_call(handle: Handle) -> Call
    ensures { result ≡ write_call handle }
{
    if handle.number == OUTPUT {
        Call::Output
    } else {
        Call::Write
    }
}
