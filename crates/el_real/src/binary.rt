//! The binary that runs the programs of this project.
ghost use Rattle.std.specs.Prelude.{◌≡◌, IfOk, string_bytes};
ghost use Rattle.el_words.specs.Word.{HasNul};
ghost use Rattle.el_real.specs.Commands.{execline_name, binary_beside};

use crate::lack::Lack;
use crate::text::{joined, text};
use el_words::NoMemory;
use std::alloc::{Alloc, Global};
use std::env;
use std::fs::File;
use std::io::ErrorKind;
use std::path::Path;
use std::rt::Files;

/// Which binary that is.
#[derive(Clone, Copy, PartialEq, Eq)]
pub enum Runner {
    /// The program that runs.
    Itself,
    /// `execline` in the folder of the program that runs, which is another one; where there is none, that of PATH.
    Beside,
}

/// That binary, as a start names it.
#[derive(Drop)]
pub struct Binary {
    /// Its file, or its name alone, for which PATH is searched.
    pub file: String,
    /// Which it is.
    pub runner: Runner,
}

/// The name of the program that runs, for as long as it runs: its file may have another one by then, or none.
pub const RUNNING: &str = "/proc/self/exe";

/// The name of the installed binary, and its first word wherever it is started.
#[tactic(auto, unfolding(crate::specs::Commands::execline_name))]
pub fn execline_name() -> &'static str
    ensures name { result.now ≡ execline_name }
    ensures no_nul { HasNul result.now → ⊥ }
{
    "execline"
}

impl Binary {
    /// The binary of a process that was called by this first word in this directory. Only where the system doesn't tell
    /// which program runs, that is taken to be the file that was called.
    pub fn find(
        rt: &(impl Files<File = File> + Alloc<A = Global>),
        runner: Runner,
        called: &[u8],
        dir: &[u8],
    ) -> Result<Binary, NoMemory> {
        let alloc = rt.alloc();
        let file = match (env::current_exe(rt), runner) {
            (Ok(running), Runner::Itself) => running.into_string(),
            (Ok(running), Runner::Beside) => sibling(rt, running.as_path())?,
            (Err(error), _) if error.kind() == ErrorKind::OutOfMemory => return Err(NoMemory),
            (Err(error), Runner::Itself) if error.kind() == ErrorKind::InvalidFilename => {
                String::from_str(alloc, RUNNING)?
            }
            (Err(_), _) => told_or_searched(alloc, called, dir)?,
        };
        Ok(Binary { file, runner })
    }
}

// The file beside the program that runs, or where there is none, the name alone.
fn sibling(
    rt: &(impl Files<File = File> + Alloc<A = Global>),
    running: Path<'_>,
) -> Result<String, NoMemory> {
    let alloc = rt.alloc();
    let file = running.with_file_name(alloc, execline_name())?;
    if file.as_path().exists(rt) {
        return Ok(file.into_string());
    }
    Ok(String::from_str(alloc, execline_name())?)
}

// The file beside the one that was called, or where its name isn't UTF-8, the name alone.
fn told_or_searched(alloc: Global, called: &[u8], dir: &[u8]) -> Result<String, NoMemory> {
    match beside(alloc, called, dir) {
        Ok(file) => Ok(file),
        Err(Lack::NoMemory) => Err(NoMemory),
        Err(_) => Ok(String::from_str(alloc, execline_name())?),
    }
}

// The file beside the one that was called, as meant from this directory; for a bare name a bare one.
fn beside(alloc: Global, called: &[u8], dir: &[u8]) -> Result<String, Lack>
    ensures { IfOk result (λ file. string_bytes file ≡ binary_beside dir.now called.now) }
{
    if !called.contains(&b'/') {
        return Ok(String::from_str(alloc, execline_name())?);
    }
    let file = Path::new(text(called)?).with_file_name(alloc, execline_name())?;
    joined(alloc, dir, file.as_path().as_str())
}
