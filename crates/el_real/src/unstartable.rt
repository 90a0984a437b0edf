//! Why a command doesn't run, in a line that is written before its message.
ghost use Rattle.std.specs.Prelude.{◌≡◌, ◌⊎◌, [], ◌++◌, IfOk, OnOk, IfSome, codes, map};
ghost use Rattle.std.specs.Option.{option_copied};
ghost use Rattle.el_real.specs.Unstartable.{folders_of, file_named, folder_of, without_dot, absent_text, broken_text, directory_text, no_name_text, in_path_text, no_path_text, missing_line, in_path_line, no_path_line, searched_line, absent_line, broken_line, directory_line, IsFileOf, IsUnfoundLine};
ghost use Rattle.el_real.specs.Reasons.{IsKept};
ghost use Rattle.el_real.specs.declared.reason.Call.TheVariants.{Start as start_call};

use crate::command::default_path;
use crate::lack::Lack;
use crate::reason::{Call, reason_of};
use crate::shown::put_shown;
use crate::start::file_in;
use el_words::{Bytes, NoMemory};
use std::alloc::{AllocError, Global};
use std::fs::File;
use std::path::Path;
use std::rt::{Env, Files};

/// The line of a command that isn't found, of this program in the directory `dir`, with this `PATH`; an empty one if there
/// is no memory for it.
pub fn unfound_line(
    rt: &(impl Files<File = File> + Env),
    alloc: Global,
    program: &[u8],
    path: Option<&[u8]>,
    dir: &[u8],
) -> Bytes
    ensures { (result ≡ []) ⊎ IsUnfoundLine (option_copied path.entry) dir.now program.now result }
{
    match told_unfound(rt, alloc, program, path, dir) {
        Ok(line) => line,
        Err(NoMemory) => Bytes::new(alloc),
    }
}

/// The line of a command that the system doesn't run for want of this: that it is a directory, or what the system says. It
/// is empty if there is no memory for it.
pub fn unstartable_line(
    rt: &(impl Files<File = File> + Env),
    alloc: Global,
    program: &[u8],
    dir: &[u8],
    lack: Lack,
) -> Bytes
    ensures { IsKept start_call program.now lack result ⊎ (result ≡ directory_line (file_named dir.now program.now)) }
{
    match told_directory(rt, alloc, program, dir) {
        Ok(Some(line)) => line,
        Ok(None) => reason_of(alloc, Call::Start, program, lack),
        Err(NoMemory) => Bytes::new(alloc),
    }
}

fn told_unfound(
    rt: &(impl Files<File = File> + Env),
    alloc: Global,
    program: &[u8],
    path: Option<&[u8]>,
    dir: &[u8],
) -> Result<Bytes, NoMemory>
    ensures { IfOk result (IsUnfoundLine (option_copied path.entry) dir.now program.now) }
{
    let searched = path.unwrap_or(default_path());
    match file_there(rt, alloc, program, searched, dir)? {
        Some(file) => broken_line(alloc, file.as_bytes()),
        None => absent_line(alloc, program, path, dir),
    }
}

// The file of the program, if there is one.
fn file_there(
    rt: &(impl Files<File = File> + Env),
    alloc: Global,
    program: &[u8],
    path: &[u8],
    dir: &[u8],
) -> Result<Option<Bytes>, NoMemory>
    ensures { IfOk result (λ file. IfSome file (IsFileOf path.now dir.now program.now)) }
{
    if program.contains(&b'/') {
        let file = file_named(alloc, dir, program)?;
        return Ok(if is_there(rt, file.as_bytes()) {
            Some(file)
        } else {
            None
        });
    }
    if program.is_empty() {
        return Ok(None);
    }
    for folder in &folders_of(alloc, path)? {
        let file = file_named(alloc, dir, &file_in(alloc, folder, program)?)?;
        if is_there(rt, file.as_bytes()) {
            return Ok(Some(file));
        }
    }
    Ok(None)
}

// The folders between the colons of a `PATH`.
fn folders_of(alloc: Global, path: &[u8]) -> Result<Vec<&[u8]>, AllocError>
    ensures { IfOk result (λ folders. map (λ folder. folder.now) folders.items ≡ folders_of path.now) }
{
    path.split(|byte| *byte == b':').collect(alloc)
}

fn is_there(rt: &(impl Files<File = File> + Env), file: &[u8]) -> bool {
    str::from_utf8(file).is_ok_and(|name| Path::new(name).exists(rt))
}

fn broken_line(alloc: Global, file: &[u8]) -> Result<Bytes, NoMemory>
    ensures { IfOk result (λ line. line ≡ broken_line file.now) }
{
    let mut line = Bytes::from_slice(alloc, b"execline: ")?;
    put_shown(file, &mut line)?;
    line.append(broken_text())?;
    Ok(line)
}

fn absent_line(
    alloc: Global,
    program: &[u8],
    path: Option<&[u8]>,
    dir: &[u8],
) -> Result<Bytes, NoMemory>
    ensures { IfOk result (λ line. line ≡ absent_line (option_copied path.entry) dir.now program.now) }
{
    if program.contains(&b'/') {
        let file = file_named(alloc, dir, program)?;
        return missing_line(alloc, file.as_bytes());
    }
    searched_line(alloc, program, path)
}

fn missing_line(alloc: Global, file: &[u8]) -> Result<Bytes, NoMemory>
    ensures { IfOk result (λ line. line ≡ missing_line file.now) }
{
    let mut line = Bytes::from_slice(alloc, b"execline: ")?;
    put_shown(file, &mut line)?;
    line.append(absent_text())?;
    Ok(line)
}

#[tactic(auto, using(crate::proofs::Showing::searched_names))]
fn searched_line(alloc: Global, program: &[u8], path: Option<&[u8]>) -> Result<Bytes, NoMemory>
    ensures { IfOk result (λ line. line ≡ searched_line (option_copied path.entry) program.now) }
{
    if program.is_empty() {
        return no_name_line(alloc);
    }
    match path {
        Some(path) => in_path_line(alloc, program, path),
        None => no_path_line(alloc, program),
    }
}

fn no_name_line(alloc: Global) -> Result<Bytes, NoMemory>
    ensures { IfOk result (λ line. line ≡ codes "execline: " ++ no_name_text) }
{
    let mut line = Bytes::from_slice(alloc, b"execline: ")?;
    line.append(no_name_text())?;
    Ok(line)
}

fn in_path_line(alloc: Global, program: &[u8], path: &[u8]) -> Result<Bytes, NoMemory>
    ensures { IfOk result (λ line. line ≡ in_path_line path.now program.now) }
{
    let mut line = Bytes::from_slice(alloc, b"execline: no ")?;
    put_shown(program, &mut line)?;
    line.append(in_path_text())?;
    put_shown(path, &mut line)?;
    line.append(b"\n")?;
    Ok(line)
}

fn no_path_line(alloc: Global, program: &[u8]) -> Result<Bytes, NoMemory>
    ensures { IfOk result (λ line. line ≡ no_path_line program.now) }
{
    let mut line = Bytes::from_slice(alloc, b"execline: ")?;
    line.append(no_path_text())?;
    put_shown(program, &mut line)?;
    line.append(b"\n")?;
    Ok(line)
}

// The line of a program whose name is that of a directory.
fn told_directory(
    rt: &(impl Files<File = File> + Env),
    alloc: Global,
    program: &[u8],
    dir: &[u8],
) -> Result<Option<Bytes>, NoMemory>
    ensures { IfOk result (λ line. IfSome line (λ line. line ≡ directory_line (file_named dir.now program.now))) }
{
    if !program.contains(&b'/') {
        return Ok(None);
    }
    let file = file_named(alloc, dir, program)?;
    if !is_directory(rt, file.as_bytes()) {
        return Ok(None);
    }
    let mut line = Bytes::from_slice(alloc, b"execline: ")?;
    put_shown(file.as_bytes(), &mut line)?;
    line.append(directory_text())?;
    Ok(Some(line))
}

fn is_directory(rt: &(impl Files<File = File> + Env), file: &[u8]) -> bool {
    str::from_utf8(file).is_ok_and(|name| Path::new(name).is_dir(rt))
}

// The file that a name means in a directory.
fn file_named(alloc: Global, dir: &[u8], name: &[u8]) -> Result<Bytes, NoMemory>
    ensures { IfOk result (λ file. file ≡ file_named dir.now name.now) }
{
    if name.starts_with(b"/") {
        return Bytes::from_slice(alloc, name);
    }
    let mut file = Bytes::from_slice(alloc, dir)?;
    if !dir.ends_with(b"/") {
        file.append(b"/")?;
    }
    file.append(without_dot(name))?;
    Ok(file)
}

fn without_dot(name: &[u8]) -> &[u8]
    ensures { result.now ≡ without_dot name.now }
{
    if name.starts_with(b"./") {
        &name[2..]
    } else {
        name
    }
}

#[tactic(auto, unfolding(crate::specs::Unstartable::absent_text))]
fn absent_text() -> &'static [u8]
    ensures { result.now ≡ absent_text }
{
    b" isn't there\n"
}

#[tactic(auto, unfolding(crate::specs::Unstartable::broken_text))]
fn broken_text() -> &'static [u8]
    ensures { result.now ≡ broken_text }
{
    b" is there, but the interpreter in its first line (or its loader) isn't\n"
}

#[tactic(auto, unfolding(crate::specs::Unstartable::directory_text))]
fn directory_text() -> &'static [u8]
    ensures { result.now ≡ directory_text }
{
    b" is a directory\n"
}

#[tactic(auto, unfolding(crate::specs::Unstartable::no_name_text))]
fn no_name_text() -> &'static [u8]
    ensures { result.now ≡ no_name_text }
{
    b"the command's name is empty\n"
}

#[tactic(auto, unfolding(crate::specs::Unstartable::in_path_text))]
fn in_path_text() -> &'static [u8]
    ensures { result.now ≡ in_path_text }
{
    b" in PATH, which is "
}

#[tactic(auto, unfolding(crate::specs::Unstartable::no_path_text))]
fn no_path_text() -> &'static [u8]
    ensures { result.now ≡ no_path_text }
{
    b"PATH isn't set, and neither /bin nor /usr/bin has "
}
