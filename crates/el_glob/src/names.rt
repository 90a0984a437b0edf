//! Which names a directory may have.
ghost use Rattle.std.specs.Prelude.{◌≡◌, IfOk};
ghost use Rattle.el_glob.specs.Names.{is_entry_name, are_entry_names};

use el_words::{NoMemory, Words};
use std::alloc::Global;
use std::collections::HashSet;

/// Whether these may be the names of a directory: none is empty or holds `/`, none is `.` or `..`, and none
/// stands twice.
pub(crate) fn are_entry_names(alloc: Global, names: &Words) -> Result<bool, NoMemory>
    ensures { IfOk result (λ good. good ≡ are_entry_names names.now) }
{
    let mut seen: HashSet<&[u8]> = HashSet::with_capacity(alloc, names.len())?;
    for place in (0..names.len()).rev() {
        let name = names.at(place);
        if !is_entry_name(name) || !seen.insert(name)? {
            return Ok(false);
        }
    }
    Ok(true)
}

fn is_entry_name(name: &[u8]) -> bool
    ensures { result ≡ is_entry_name name.now }
{
    !name.is_empty() && !name.contains(&b'/') && name != b".".as_slice() && name != b"..".as_slice()
}
