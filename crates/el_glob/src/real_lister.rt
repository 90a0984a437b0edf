//! The lister over the operating system.
ghost use Rattle.std.specs.Prelude.{◌≡◌, IfOk};
ghost use Rattle.el_world.specs.World.{HasCause};
ghost use Rattle.el_glob.specs.Names.{IsListing};
ghost use Rattle.std.specs.Option.{option_copied};
ghost use Rattle.el_glob.specs.RealLister.{untold, is_wanted, is_dots};

use crate::component::Component;
use crate::listed::{ListFault, Listed};
use crate::lister::Lister;
use crate::names::are_entry_names;
use bstr::ByteSlice;
use el_proc::before_nul;
use el_real::{Lack, system_text};
use el_words::{Bytes, NoMemory, Word, Words};
use std::alloc::Global;
use std::io::{ErrorKind, Read};
use std::rt::Files;

// How many bytes of names are read at once.
const PIECE: usize = 32_768;

/// The outside itself. It tells no log; each failure raises its count of faults, which stands still at the
/// greatest u64, and is told on standard error with its cause.
#[derive(Drop)]
pub struct RealLister<R: Files + Eprint + Drop> {
    rt: R,
    alloc: Global,
    // The directory of this process.
    own: Word,
    faults: u64,
}

// Why it isn't told what is at a path.
#[derive(Clone, Copy)]
enum Cause {
    // The system doesn't serve.
    Lacking(Lack),
    // It gives what are no names of a directory.
    BadNames,
}

impl<R: Files + Eprint + Drop> RealLister<R> {
    /// The outside, before any listing by this process, whose directory is `own`.
    pub fn new(rt: R, alloc: Global, own: Word) -> RealLister<R>
        ensures { result.faults ≡ 0 }
    {
        RealLister {
            rt,
            alloc,
            own,
            faults: 0,
        }
    }

    // Answers for a listing, all of it or what fits a component.
    fn answer(
        &mut self,
        dir: &Word,
        path: &Word,
        component: Option<&Component>,
    ) -> Result<Listed, ListFault>
        ensures cause { HasCause self.old.faults self.new.faults result ListFault.Failed }
        ensures names { IfOk result IsListing }
    {
        match self.listed(dir, path, component) {
            Ok(listed) => Ok(listed),
            Err(Cause::Lacking(Lack::NoMemory)) => Err(ListFault::NoMemory),
            Err(cause) => {
                let _ = self.tell(path, cause);
                self.faults = self.faults.saturating_add(1);
                Err(ListFault::Failed)
            }
        }
    }

    // What is at a path, all of it or what fits a component.
    fn listed(
        &self,
        dir: &Word,
        path: &Word,
        component: Option<&Component>,
    ) -> Result<Listed, Cause>
        ensures { IfOk result IsListing }
    {
        match self.names_at(dir, path, component) {
            Ok(Some(names)) => checked(self.alloc, names),
            Ok(None) => Ok(Listed::NoDirectory),
            Err(lack) => Err(Cause::Lacking(lack)),
        }
    }

    // The wanted names at a path. No entry, something else than a directory, and a loop of links have none.
    fn names_at(
        &self,
        dir: &Word,
        path: &Word,
        component: Option<&Component>,
    ) -> Result<Option<Words>, Lack> {
        let name = listed_name(self.alloc, &self.own, dir, path)?;
        match self.rt.open_dir(name.as_str()) {
            Ok(mut entries) => Ok(Some(names_in(self.alloc, &mut entries, component)?)),
            Err(error) if is_no_directory(error.kind()) => Ok(None),
            Err(error) => Err(Lack::from(error)),
        }
    }

    // Tells why it isn't told what is at a path; the empty one is told as `.`.
    fn tell(&self, path: &Word, cause: Cause) -> Result<(), NoMemory> {
        let text = text_of(self.alloc, cause)?;
        let text = text.as_bytes().as_bstr();
        let path = shown(path.as_bytes()).as_bstr();
        let _ = eprintln!(self.rt; "elglob: list {path}: {text}");
        Ok(())
    }
}

impl<R: Files + Eprint + Drop> Lister for RealLister<R> {
    ghost seen = { λ l. untold l.faults };

    #[tactic(auto, unfolding(crate::specs::Listers::extended))]
    fn list(&mut self, dir: &Word, path: &Word) -> Result<Listed, ListFault> {
        self.answer(dir, path, None)
    }

    fn list_for(
        &mut self,
        dir: &Word,
        path: &Word,
        component: &Component,
    ) -> Result<Listed, ListFault> {
        self.answer(dir, path, Some(component))
    }
}

// What a path means from a directory, as the system is told it: from the process's own one the path alone, in which
// it stands, also where that was renamed.
fn listed_name(alloc: Global, own: &Word, dir: &Word, path: &Word) -> Result<String, Lack> {
    let path = text(path.as_bytes())?;
    let mut name = String::new(alloc);
    if dir.as_bytes() != own.as_bytes() && !path.starts_with('/') {
        name.push_str(text(dir.as_bytes())?)?;
        name.push('/')?;
    }
    name.push_str(if path.is_empty() { "." } else { path })?;
    // So that a link is followed.
    name.push('/')?;
    Ok(name)
}

fn text(bytes: &[u8]) -> Result<&str, Lack> {
    bytes.to_str().map_err(|_| Lack::NotText)
}

// Whether the system says that there is no directory.
fn is_no_directory(kind: ErrorKind) -> bool {
    matches!(
        kind,
        ErrorKind::NotFound | ErrorKind::NotADirectory | ErrorKind::FilesystemLoop
    )
}

// The names of an open directory that are wanted, without `.` and `..`. It is read as names, each with a NUL behind
// it, and no read ends inside of one.
fn names_in<D: Read>(
    alloc: Global,
    entries: &mut D,
    component: Option<&Component>,
) -> Result<Words, Lack> {
    let mut buffer = vec![in alloc; 0u8; PIECE]?;
    let mut names = Words::new(alloc);
    for _ in 0..u64::MAX {
        let read = entries.read(buffer.as_mut_slice())?;
        if read == 0 {
            break;
        }
        add_names(&mut names, buffer.get(..read).unwrap_or(b""), component)?;
    }
    Ok(names)
}

// Adds the wanted ones of names that stand with a NUL behind each. Most aren't, and are never copied.
fn add_names(
    names: &mut Words,
    entries: &[u8],
    component: Option<&Component>,
) -> Result<(), NoMemory> {
    let mut rest = entries;
    while !rest.is_empty() {
        let name = before_nul(rest);
        rest = &rest[(name.len() + 1).min(rest.len())..];
        if is_wanted(component, name) && !is_dots(name) {
            names.push(name)?;
        }
    }
    Ok(())
}

// Whether a name is wanted: one that fits, or any where no component is asked for.
fn is_wanted(component: Option<&Component>, name: &[u8]) -> bool
    ensures { result ≡ is_wanted (option_copied component.entry) name.now }
{
    match component {
        Some(component) => component.fits(name),
        None => true,
    }
}

// Whether it is `.` or `..`, which each directory has, or none at all.
fn is_dots(name: &[u8]) -> bool
    ensures { result ≡ is_dots name.now }
{
    name.is_empty() || name == b".".as_slice() || name == b"..".as_slice()
}

// These names, if a directory may have them.
fn checked(alloc: Global, names: Words) -> Result<Listed, Cause>
    ensures { IfOk result IsListing }
{
    match are_entry_names(alloc, &names) {
        Ok(true) => Ok(Listed::Names(names)),
        Ok(false) => Err(Cause::BadNames),
        Err(NoMemory) => Err(Cause::Lacking(Lack::NoMemory)),
    }
}

// The path as it is told.
fn shown(path: &[u8]) -> &[u8] {
    if path.is_empty() { b"." } else { path }
}

// What is told of a cause.
fn text_of(alloc: Global, cause: Cause) -> Result<Bytes, NoMemory> {
    match cause {
        Cause::Lacking(Lack::Refused(number)) => system_text(alloc, number),
        Cause::Lacking(Lack::NotText) => Bytes::from_slice(alloc, b"bytes that aren't UTF-8"),
        Cause::Lacking(_) => Bytes::from_slice(alloc, b"listing failed"),
        Cause::BadNames => Bytes::from_slice(alloc, b"no names of a directory"),
    }
}
