//! The paths that a pattern matches.
ghost use Rattle.std.specs.Prelude.{◌≡◌, [], ◌∷◌, IfOk, OnOk};
ghost use Rattle.el_words.specs.Word.{HasNul};
ghost use Rattle.el_glob.specs.Listings.{listed, part_step, globbed_from, globbed, start_path, with_joined, with_listed};
ghost use Rattle.el_glob.specs.Lists.{ListsFor, Follows, GlobsAs};

use crate::component::Component;
use crate::listed::{ListFault, Listed};
use crate::lister::Lister;
use crate::part::Part;
use crate::paths::Paths;
use crate::pattern::Pattern;
use el_words::{NoMemory, Word, Words};
use std::alloc::Global;

/// The paths that a pattern matches from the directory `dir`, each once, rising by their bytes.
///
/// Component after component, the directories are listed in the order of the paths' bytes. `Failed` comes exactly where a
/// listing answered it, which is then the last one.
pub fn glob<L: Lister>(
    alloc: Global,
    pattern: &Pattern,
    dir: &Word,
    lister: &mut L,
) -> Result<Words, ListFault>
    ensures { GlobsAs (L.seen lister.old) (L.seen lister.new) (globbed dir.now pattern.now) result }
{
    let start = start(alloc, pattern.rooted)?;
    through(alloc, &pattern.parts, start, dir, lister)
}

// The path where all begins.
fn start(alloc: Global, rooted: bool) -> Result<Words, NoMemory>
    ensures { IfOk result (λ paths. paths ≡ start_path rooted ∷ []) }
{
    let mut paths = Words::new(alloc);
    paths.push(if rooted { b"/" } else { b"" })?;
    Ok(paths)
}

// The paths behind all of the parts.
fn through<L: Lister>(
    alloc: Global,
    parts: &[Part],
    mut paths: Words,
    dir: &Word,
    lister: &mut L,
) -> Result<Words, ListFault>
    ensures { GlobsAs (L.seen lister.old) (L.seen lister.new) (globbed_from dir.now parts.now paths) result }
{
    for part in parts {
        match next_paths(alloc, part, dir, &paths, lister) {
            Ok(next) => paths = next,
            Err(fault) => return Err(fault),
        }
    }
    Ok(paths)
}

// The paths behind one more part.
fn next_paths<L: Lister>(
    alloc: Global,
    part: &Part,
    dir: &Word,
    paths: &Words,
    lister: &mut L,
) -> Result<Words, ListFault>
    ensures { Follows (L.seen lister.old) (L.seen lister.new) (part_step dir.now part.now paths.now) result }
{
    match part {
        Part::Dot => Ok(all_joined(alloc, paths, b".")?),
        Part::DotDot => Ok(all_joined(alloc, paths, b"..")?),
        Part::Names(component) => fitting(alloc, component, dir, paths, lister),
    }
}

// Each of these paths with a name behind it.
fn all_joined(alloc: Global, paths: &Words, name: &[u8]) -> Result<Words, NoMemory>
    requires { HasNul name.now → ⊥ }
    ensures { IfOk result (λ all. all ≡ with_joined name.now paths.now []) }
{
    let mut all = Paths::new(alloc);
    all.add_joined(paths, name)?;
    all.to_words()
}

// The paths of the names that fit, from a listing of each of these directories in order.
fn fitting<L: Lister>(
    alloc: Global,
    component: &Component,
    dir: &Word,
    paths: &Words,
    lister: &mut L,
) -> Result<Words, ListFault>
    ensures { Follows (L.seen lister.old) (L.seen lister.new) (listed dir.now component.now paths.now []) result }
{
    let mut found = Paths::new(alloc);
    for path in paths {
        match list_at(alloc, component, dir, path, lister) {
            Ok(listed) => add_listed(component, path, &listed, &mut found)?,
            Err(fault) => return Err(fault),
        }
    }
    Ok(found.to_words()?)
}

// Lists the directory at a path, for the names that fit.
fn list_at<L: Lister>(
    alloc: Global,
    component: &Component,
    dir: &Word,
    path: &[u8],
    lister: &mut L,
) -> Result<Listed, ListFault>
    requires { HasNul path.now → ⊥ }
    ensures { ListsFor (L.seen lister.old) (L.seen lister.new) dir.now path.now component.now result }
{
    let word = Word::of(alloc, path)?;
    lister.list_for(dir, &word, component)
}

// Adds the paths of the names that fit, where there is a directory.
fn add_listed(
    component: &Component,
    path: &[u8],
    listed: &Listed,
    found: &mut Paths,
) -> Result<(), NoMemory>
    requires { HasNul path.now → ⊥ }
    ensures { OnOk result (found.new ≡ with_listed component.now path.now listed.now found.old) }
{
    match listed {
        Listed::Names(names) => found.add_names(component, path, names),
        Listed::NoDirectory => Ok(()),
    }
}
