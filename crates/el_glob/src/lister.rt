//! Who lists directories.
ghost use Rattle.std.specs.Prelude.{◌≡◌, IfOk};
ghost use Rattle.el_world.specs.World.{HasCause};
ghost use Rattle.el_glob.specs.Names.{IsListing};
ghost use Rattle.el_glob.specs.Listers.{ListerSeen, extended, listing};
ghost use Rattle.el_glob.specs.Lists.{ListsFor};

use crate::component::Component;
use crate::listed::{ListFault, Listed};
use el_words::Word;

/// Who lists directories.
///
/// A listing that answers `NoMemory` adds no event to the log; every other adds exactly one, itself with
/// its answer. The count of faults never falls, and `Failed` comes only where it rose in the call.
pub trait Lister {
    /// The listings so far, where this lister tells them, and how many have failed.
    ghost seen: { Self → ListerSeen };

    /// Lists the directory that `path` names from the directory `dir`; the empty path is `dir` itself.
    fn list(&mut self, dir: &Word, path: &Word) -> Result<Listed, ListFault>
        ensures log { (seen self.new).log ≡ extended (seen self.old).log (listing dir.now path.now result) }
        ensures cause { HasCause (seen self.old).faults (seen self.new).faults result ListFault.Failed }
        ensures names { IfOk result IsListing };

    /// The same for a component of a pattern: names that don't fit it may be left out of the answer.
    fn list_for(
        &mut self,
        dir: &Word,
        path: &Word,
        component: &Component,
    ) -> Result<Listed, ListFault>
        ensures { ListsFor (seen self.old) (seen self.new) dir.now path.now component.now result }
    {
        self.list(dir, path)
    }
}
