//! Paths, each once, in the order of their bytes.
ghost use Rattle.std.specs.Prelude.{◌≡◌, ◌++◌, [], ◌∷◌, map, IfOk, OnOk};
ghost use Rattle.el_words.specs.Word.{HasNul};
ghost use Rattle.el_glob.specs.Listings.{placed, join, with_names, with_joined};
ghost use Rattle.el_glob.specs.PathsKept.{all_placed, HaveNoNul};

use crate::component::Component;
use el_words::{NoMemory, Words};
use std::alloc::Global;
use std::collections::BTreeSet;
use std::marker::Model;

/// Paths, each once, rising by their bytes, none of which is NUL. A contract sees their list.
#[derive(Drop)]
pub(crate) struct Paths {
    alloc: Global,
    // As they came; they are put in order once.
    paths: Words,
}

impl Model for Paths {
    ghost use Rattle.std.specs.Prelude.{List, ℕ, []};
    ghost use Rattle.el_glob.specs.PathsKept.{all_placed};

    ghost Value = { List (List ℕ) };

    ghost view = { λ p. all_placed p.paths [] };
}

impl Paths {
    /// No paths. Later ones take their memory from `alloc`.
    pub(crate) fn new(alloc: Global) -> Paths
        ensures { result ≡ [] }
    {
        Paths {
            alloc,
            paths: Words::new(alloc),
        }
    }

    // Puts the path of a name in a directory at its place, unless it is there.
    fn place(&mut self, path: &[u8], name: &[u8]) -> Result<(), NoMemory>
        requires path { HasNul path.now → ⊥ }
        requires name { HasNul name.now → ⊥ }
        ensures { OnOk result (self.new ≡ placed self.old (join path.now name.now)) }
    {
        // No copy where all begins.
        if path.is_empty() {
            return self.paths.push(name);
        }
        let whole = joined(self.alloc, path, name)?;
        self.paths.push(&whole)
    }

    /// Adds each of these paths with a name behind it.
    pub(crate) fn add_joined(&mut self, paths: &Words, name: &[u8]) -> Result<(), NoMemory>
        requires { HasNul name.now → ⊥ }
        ensures { OnOk result (self.new ≡ with_joined name.now paths.now self.old) }
    {
        for path in paths {
            self.place(path, name)?;
        }
        Ok(())
    }

    /// Adds the paths of the names of a directory that fit.
    pub(crate) fn add_names(
        &mut self,
        component: &Component,
        path: &[u8],
        names: &Words,
    ) -> Result<(), NoMemory>
        requires { HasNul path.now → ⊥ }
        ensures { OnOk result (self.new ≡ with_names component.now path.now names.now self.old) }
    {
        for name in names {
            if component.fits(name) {
                self.place(path, name)?;
            }
        }
        Ok(())
    }

    /// The paths in their order.
    pub(crate) fn to_words(&self) -> Result<Words, NoMemory>
        ensures { IfOk result (λ words. words ≡ self.now) }
    {
        let mut words = Words::new(self.alloc);
        for path in &rising(self.alloc, &self.paths)? {
            words.push(path)?;
        }
        Ok(words)
    }
}

// Paths in the order of their bytes, each once.
fn rising(alloc: Global, paths: &Words) -> Result<BTreeSet<&[u8]>, NoMemory>
    ensures same { IfOk result (λ set. map (λ path. path.now) set.keys ≡ all_placed paths.now []) }
    ensures no_nul { IfOk result (λ set. HaveNoNul (map (λ path. path.now) set.keys)) }
{
    Ok(paths.iter().collect(alloc)?)
}

/// The path of a name in a directory.
fn joined(alloc: Global, path: &[u8], name: &[u8]) -> Result<Vec<u8>, NoMemory>
    requires path { HasNul path.now → ⊥ }
    requires name { HasNul name.now → ⊥ }
    ensures same { IfOk result (λ whole. whole.items ≡ join path.now name.now) }
    ensures no_nul { IfOk result (λ whole. HasNul whole.items → ⊥) }
{
    let mut whole = path.to_vec(alloc)?;
    if !path.is_empty() && path != b"/".as_slice() {
        whole.push(b'/')?;
    }
    whole.extend_from_slice(name)?;
    Ok(whole)
}
