//! Starts and waits.
ghost use Rattle.std.specs.Prelude.{◌≡◌, ◌<◌, true, false, None, [], IfOk, IfErr, IfSome, length, slice_index_or};
ghost use Rattle.std.specs.Process.{exit_code, exit_signal};
ghost use Rattle.el_world.specs.World.{IsWaitStatus};
ghost use Rattle.el_real.specs.Commands.{is_own};
ghost use Rattle.el_real.specs.Ends.{EndedAs};
ghost use Rattle.el_real.specs.Starts.{is_refused};

use crate::binary::{RUNNING, Runner};
use crate::command::{Command, command_of, is_beside, is_own, program_of};
use crate::lack::Lack;
use crate::real_world::RealWorld;
use crate::start::{last_lack, start};
use crate::text::text;
use crate::unstarted::{Unstarted, command_fault};
use el_env::Env as Variables;
use el_words::{Word, Words};
use el_world::{Ended, Handle, Pid, StartFault};
use libc::{EINTR, ENOENT};
use std::alloc::{Alloc, Global};
use std::fs::File;
use std::os::fd::RawFd;
use std::os::unix::process::ExitStatusExt;
use std::path::Path;
use std::process::{ExitStatus, Processes};
use std::rt::{Env, Files};

impl<R: Files<File = File> + Processes + Env + Alloc<A = Global> + Drop> RealWorld<R> {
    /// Starts the words, or the own binary with them. That one is there, since it runs or was found: where it can't be
    /// started that is no command's fault.
    pub(super) fn spawn(
        &mut self,
        words: &Words,
        env: &Variables,
        dir: &Word,
        ends: &[Option<Handle>; 3],
    ) -> Result<Pid, Unstarted>
        requires { 0 < length words.now }
        ensures own { is_own (slice_index_or words.now 0 []) ≡ true → IfErr result (λ unstarted. is_refused unstarted ≡ false) }
        ensures faults { self.new.faults ≡ self.old.faults }
        ensures held { self.new.held.items ≡ self.old.held.items }
        ensures next { self.new.next ≡ self.old.next }
    {
        let command = command_of(self.alloc, &self.parent.dir, words, env, dir).map_err(
            Lack::from,
        )?;
        let ends = self.ends(ends)?;
        let program = program_of(self.parent.binary.file.as_str(), words);
        match self.spawn_by(program, &command, ends) {
            Err(Unstarted::Refused(lack)) if is_own(words.at(0)) => {
                self.spawn_running(lack, &command, ends)
            }
            Err(Unstarted::Refused(Lack::Refused(ENOENT))) if is_beside(words.at(0)) => {
                self.spawn_beside(words.at(0), &command, ends)
            }
            started => started,
        }
    }

    // Starts the program of this name, which PATH hasn't, from the folder of the own binary.
    fn spawn_beside(
        &self,
        name: &[u8],
        command: &Command<'_>,
        ends: [RawFd; 3],
    ) -> Result<Pid, Unstarted> {
        let binary = self.parent.binary.file.as_str();
        if !binary.as_bytes().contains(&b'/') {
            return Err(Unstarted::Refused(Lack::Refused(ENOENT)));
        }
        let file = Path::new(binary)
            .with_file_name(self.alloc, text(name)?)
            .map_err(Lack::from)?;
        self.spawn_by(file.as_path().as_str().as_bytes(), command, ends)
    }

    // Starts the own binary, whose file the system doesn't run, by the name that it has while it runs, if it does.
    fn spawn_running(
        &self,
        lack: Lack,
        command: &Command<'_>,
        ends: [RawFd; 3],
    ) -> Result<Pid, Unstarted>
        ensures own { IfErr result (λ unstarted. is_refused unstarted ≡ false) }
    {
        let is_there = self.parent.binary.runner == Runner::Itself;
        if !is_there || StartFault::from(lack) == command_fault(lack) {
            return Err(Unstarted::Lacking(lack));
        }
        match self.spawn_by(RUNNING.as_bytes(), command, ends) {
            Err(Unstarted::Refused(lack)) => Err(Unstarted::Lacking(lack)),
            started => started,
        }
    }

    // Starts the program of this name.
    fn spawn_by(
        &self,
        program: &[u8],
        command: &Command<'_>,
        ends: [RawFd; 3],
    ) -> Result<Pid, Unstarted> {
        match start(&self.rt, self.alloc, command, program, ends) {
            Ok(pid) => Ok(pid),
            Err(Lack::NoMemory) => Err(Unstarted::Lacking(Lack::NoMemory)),
            Err(lack) => Err(self.refusal(command.dir, lack)),
        }
    }

    // Why a command wasn't started in this directory, of which the system says this. One that can't be entered looks like a
    // missing command.
    fn refusal(&self, dir: &[u8], lack: Lack) -> Unstarted {
        if dir.is_empty() {
            return Unstarted::Refused(lack);
        }
        match text(dir).and_then(|dir| self.check_directory(dir)) {
            Ok(()) | Err(Lack::NotText) => Unstarted::Refused(lack),
            Err(lack) => Unstarted::NoDirectory(lack),
        }
    }

    /// Waits for a process that was started.
    pub(super) fn try_wait(&self, pid: Pid) -> Result<Ended, Lack>
        ensures signal { IfOk result IsWaitStatus }
    {
        let number = i32::try_from(pid.number).map_err(|_| Lack::Failed)?;
        ended(status_of(number)?).ok_or(Lack::Failed)
    }
}

// How a child of this number ended, once it has; a signal that comes meanwhile is no answer.
fn status_of(number: i32) -> Result<ExitStatus, Lack> {
    if number <= 0 {
        return Err(Lack::Failed);
    }
    for _ in 0..usize::MAX {
        let mut status = 0;
        // std waits only for what it started itself.
        if unsafe { libc::waitpid(number, &mut status, 0) } >= 0 {
            return Ok(ExitStatus::from_raw(status));
        }
        match last_lack() {
            Lack::Refused(EINTR) => {}
            lack => return Err(lack),
        }
    }
    Err(Lack::Failed)
}

fn ended(status: ExitStatus) -> Option<Ended>
    ensures signal { IfSome result IsWaitStatus }
    ensures told { IfSome result (EndedAs status) }
    ensures no_code { result ≡ None → exit_code status ≡ None }
    ensures no_signal { result ≡ None → exit_signal status ≡ None }
{
    match (status.code(), status.signal()) {
        (Some(code), _) => u8::try_from(code).ok().map(Ended::Exited),
        (None, Some(signal)) => match u8::try_from(signal) {
            Ok(signal) if 0 < signal && signal < 128 => Some(Ended::Killed(signal)),
            _ => None,
        },
        (None, None) => None,
    }
}
