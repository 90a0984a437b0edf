//! The scripts in a folder and in the folders below it.

use crate::lint_found;
use crate::reading::tell_error;
use el_check::Params;
use el_words::NoMemory;
use std::alloc::Global;
use std::fs::DirEntry;
use std::{fs, io};

/// Tells of the scripts in a folder, in the order of their names, and gives the greatest status. Hidden files and symbolic links are
/// passed over.
pub(crate) fn lint_folder(
    rt: &HostRuntime,
    alloc: Global,
    mode: Option<Params>,
    folder: &str,
) -> Result<u8, NoMemory> {
    let mut left = Vec::new(alloc);
    let mut greatest = put_entries(rt, alloc, folder, &mut left)?;
    for _ in 0..u64::MAX {
        let Some(path) = left.pop() else {
            break;
        };
        greatest = greatest.max(lint_entry(rt, alloc, mode, path.as_str(), &mut left)?);
    }
    Ok(greatest)
}

// Tells of a file; what is in a folder is left for later.
fn lint_entry(
    rt: &HostRuntime,
    alloc: Global,
    mode: Option<Params>,
    path: &str,
    left: &mut Vec<String>,
) -> Result<u8, NoMemory> {
    match fs::symlink_metadata(rt, path) {
        Ok(data) if data.is_dir() => put_entries(rt, alloc, path, left),
        Ok(data) if data.is_file() => lint_found(rt, alloc, mode, path),
        Ok(_) => Ok(0),
        Err(error) => tell_error(rt, alloc, path, error),
    }
}

// Puts the paths of a folder's entries so that the last one is the first by its name.
fn put_entries(
    rt: &HostRuntime,
    alloc: Global,
    folder: &str,
    left: &mut Vec<String>,
) -> Result<u8, NoMemory> {
    let mut entries = match entries_of(rt, alloc, folder) {
        Ok(entries) => entries,
        Err(error) => return tell_error(rt, alloc, folder, error),
    };
    entries.sort_unstable();
    entries.reverse();
    left.append(&mut entries)?;
    Ok(0)
}

fn entries_of(rt: &HostRuntime, alloc: Global, folder: &str) -> io::Result<Vec<String>> {
    let mut entries = Vec::new(alloc);
    for entry in fs::read_dir(rt, folder)? {
        put_entry(alloc, &entry?, &mut entries)?;
    }
    Ok(entries)
}

fn put_entry(
    alloc: Global,
    entry: &DirEntry<HostRuntime>,
    entries: &mut Vec<String>,
) -> io::Result<()> {
    if !entry.file_name().starts_with('.') {
        entries.push(String::from_str(alloc, entry.path().as_str())?)?;
    }
    Ok(())
}
