//! Files and directories.
ghost use Rattle.std.specs.Prelude.{◌≡◌, ◌≢◌, [], IfOk, OnOk, string_bytes};
ghost use Rattle.el_real.specs.Files.{options_of, told_name};

use crate::lack::Lack;
use crate::real_world::RealWorld;
use crate::stream::Stream;
use crate::text::{joined, text};
use el_words::Word;
use el_world::Mode;
use std::alloc::{Alloc, Global};
use std::fs::{self, File, OpenOptions};
use std::io::{self, ErrorKind, Seek, SeekFrom, Write};
use std::os::unix::fs::OpenOptionsExt;
use std::path::Path;
use std::process::{self, Processes};
use std::rt::{Env, Files};

// The owner alone reads and writes it.
const OWNER_ONLY: u32 = 0o600;

// How many names are tried for a file.
const NAMES: u32 = 1000;

// There is no such file.
const ENOENT: i32 = 2;

// Each name that was tried is taken.
const EEXIST: i32 = 17;

impl<R: Files<File = File> + Processes + Env + Alloc<A = Global> + Drop> RealWorld<R> {
    /// Opens the file that `path` names from `dir`.
    pub(super) fn opened(&self, dir: &Word, path: &Word, mode: Mode) -> Result<Stream, Lack> {
        let name = name_from(self.alloc, &self.parent.dir, dir, path)?;
        let file = options_of(mode).open(&self.rt, name.as_str())?;
        Ok(Stream::File(file))
    }

    /// The reading end of a pipe that holds the bytes, and whose writing end is closed. They must be so few that it takes them
    /// all while nobody reads.
    pub(super) fn piped(&self, bytes: &[u8]) -> Result<Stream, Lack> {
        let (reader, writer) = io::pipe(&self.rt)?;
        Stream::Writer(writer).write(bytes)?;
        Ok(Stream::Reader(reader))
    }

    /// A file in the folder, which holds the bytes and is read from its start. Its name is gone before
    /// any byte is written.
    pub(super) fn filled(&self, folder: Path<'_>, bytes: &[u8]) -> Result<Stream, Lack> {
        let mut options = OpenOptions::new();
        options
            .read(true)
            .write(true)
            .create_new(true)
            .mode(OWNER_ONLY);
        let process = process::id(self.process);
        for turn in 0..NAMES {
            let name = format!(in self.alloc; ".execline.{process}.{}.{turn}", self.next)?;
            let path = folder.join(self.alloc, name.as_str())?;
            match options.open(&self.rt, &path) {
                Ok(mut file) => {
                    fs::remove_file(&self.rt, &path)?;
                    file.write_all(bytes)?;
                    file.seek(SeekFrom::Start(0))?;
                    return Ok(Stream::File(file));
                }
                Err(error) if error.kind() == ErrorKind::AlreadyExists => {}
                Err(error) => return Err(Lack::from(error)),
            }
        }
        Err(Lack::Refused(EEXIST))
    }

    /// The name of the directory that `path` means from `dir`, without links.
    pub(super) fn entered(&self, dir: &Word, path: &Word) -> Result<Word, Lack> {
        let name = name_from(self.alloc, &self.parent.dir, dir, path)?;
        self.check_directory(name.as_str())?;
        let name = fs::canonicalize(&self.rt, name.as_str())?;
        Ok(Word::from_bytes(self.alloc, name.as_path().as_str().as_bytes())?)
    }

    /// Fails where the directory isn't there or can't be entered: the search for `.` in it needs the leave to.
    pub(super) fn check_directory(&self, dir: &str) -> Result<(), Lack> {
        let inside = format!(in self.alloc; "{dir}/.")?;
        fs::metadata(&self.rt, inside.as_str())?;
        Ok(())
    }
}

// How a file is opened.
fn options_of(mode: Mode) -> OpenOptions
    ensures { result ≡ options_of mode }
{
    let mut options = OpenOptions::new();
    match mode {
        Mode::Read => options.read(true),
        Mode::Write => options.write(true).create(true).truncate(true),
        Mode::Update => options.read(true).write(true),
        Mode::Append => options.append(true).create(true),
        Mode::AppendOld => options.append(true),
        Mode::Create => options.write(true).create_new(true),
    };
    options
}

// What `path` means from the directory `dir`, as the system is told it: the path alone from this process's own one, in which
// it stands, also where that was renamed. The empty name means nothing, as to
// the system.
fn name_from(alloc: Global, own: &Word, dir: &Word, path: &Word) -> Result<String, Lack>
    ensures told { IfOk result (λ name. string_bytes name ≡ told_name own.now dir.now path.now) }
    ensures named { OnOk result (path.now ≢ []) }
{
    if path.as_bytes().is_empty() {
        return Err(Lack::Refused(ENOENT));
    }
    let path = text(path.as_bytes())?;
    if dir.as_bytes() == own.as_bytes() {
        return Ok(String::from_str(alloc, path)?);
    }
    joined(alloc, dir.as_bytes(), path)
}
