//! A command's start by the system.
ghost use Rattle.std.specs.Prelude.{◌≡◌, IfOk};
ghost use Rattle.el_real.specs.Unstartable.{file_in};

use crate::command::Command;
use crate::lack::Lack;
use el_words::NoMemory;
use el_world::Pid;
use libc::{EACCES, ENOENT, ENOTDIR};
use std::alloc::Global;
use std::fs::File;
use std::io;
use std::os::fd::RawFd;
use std::path::Path;
use std::rt::Files;

/// Starts the command, whose program has this name, with these descriptors as its 0 to 2; of which one below 0 is this process's
/// own. A name that is no path is searched as execvp(3) does, but no file is handed to a shell.
pub fn start(
    rt: &impl Files<File = File>,
    alloc: Global,
    command: &Command<'_>,
    program: &[u8],
    ends: [RawFd; 3],
) -> Result<Pid, Lack> {
    if program.is_empty() || program.contains(&b'/') {
        return start_file(command, program, ends);
    }
    let mut refused = ENOENT;
    for folder in command.path.split(|byte| *byte == b':') {
        let file = file_in(alloc, folder, program)?;
        match start_found(rt, command, &file, ends) {
            Err(Lack::Refused(EACCES)) => refused = EACCES,
            Err(Lack::Refused(ENOENT | ENOTDIR)) => {}
            started => return started,
        }
    }
    Err(Lack::Refused(refused))
}

/// The program's file in a folder; an empty one is the child's own directory. `NoMemory` if there is no memory for its name.
pub fn file_in(alloc: Global, folder: &[u8], program: &[u8]) -> Result<Vec<u8>, NoMemory>
    ensures { IfOk result (λ file. file.items ≡ file_in folder.now program.now) }
{
    let mut file = Vec::from_slice(alloc, folder)?;
    if !folder.is_empty() {
        file.push(b'/')?;
    }
    file.extend_from_slice(program)?;
    Ok(file)
}

// Makes no process for a file that isn't there. It looks where the name means the same here and in the child.
fn start_found(
    rt: &impl Files<File = File>,
    command: &Command<'_>,
    file: &[u8],
    ends: [RawFd; 3],
) -> Result<Pid, Lack> {
    if command.dir.is_empty() || file.starts_with(b"/") {
        if let Ok(name) = str::from_utf8(file) {
            if !Path::new(name).exists(rt) {
                return Err(Lack::Refused(ENOENT));
            }
        }
    }
    start_file(command, file, ends)
}

fn start_file(command: &Command<'_>, file: &[u8], ends: [RawFd; 3]) -> Result<Pid, Lack> {
    let number = os::spawn(
        file,
        &command.arguments,
        &command.entries,
        command.dir,
        ends,
    );
    match u32::try_from(number) {
        Ok(number) if number > 0 => Ok(Pid { number }),
        _ => Err(last_lack()),
    }
}

/// What the last call of the system lacked, by its number.
pub fn last_lack() -> Lack {
    Lack::from(io::Error::from_raw_os_error(os::errno()))
}
