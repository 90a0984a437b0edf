//! Names that are put in for nothing.
ghost use Rattle.el_script.specs.Vocabulary.{filter, letters_of};
ghost use Rattle.std.specs.Prelude.{◌≡◌, ◌++◌, map, OnOk};
ghost use Rattle.el_lint.specs.declared.lint.Lint.TheVariants.{Unused};
ghost use Rattle.el_lint.specs.Lints.{is_unused, unused_names};

use crate::known::is_among;
use crate::letters::does_more;
use crate::lint::Lint;
use crate::names::names_put;
use el_tree::Places;
use el_words::{Bytes, NoMemory, Prog, Words};
use std::alloc::Global;

/// Puts the names behind that a program or a directive puts in, and to which none of the keys that are used refers.
pub(crate) fn put_unused(
    alloc: Global,
    used: &[Bytes],
    program: Prog,
    options: &Words,
    places: &Places,
    lints: &mut Vec<Lint>,
) -> Result<(), NoMemory>
    ensures { OnOk result (lints.new.items ≡ lints.old.items ++ unused_names used.now program (letters_of program options.now) places.now) }
{
    if does_more(alloc, program, options)? {
        return Ok(());
    }
    let names = names_put(alloc, program, options, places)?;
    put_names(alloc, used, &names, lints)
}

fn put_names(
    alloc: Global,
    used: &[Bytes],
    names: &Words,
    lints: &mut Vec<Lint>,
) -> Result<(), NoMemory>
    ensures { OnOk result (lints.new.items ≡ lints.old.items ++ map Unused (filter (is_unused used.now) names.now)) }
{
    for name in names {
        if is_unused(used, name) {
            lints.push(Lint::Unused {
                name: Bytes::from_slice(alloc, name)?,
            })?;
        }
    }
    Ok(())
}

fn is_unused(used: &[Bytes], name: &[u8]) -> bool
    ensures { result ≡ is_unused used.now name.now }
{
    !name.is_empty() && !is_among(used, name)
}
