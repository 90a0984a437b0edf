//! Programs that do another thing than it seems, or than they do under skarnet's execline.
ghost use Rattle.el_script.specs.Vocabulary.{option_copied, letters_of};
ghost use Rattle.std.specs.Prelude.{◌≡◌, ◌++◌, OnOk};
ghost use Rattle.el_lint.specs.Differing.{is_descriptor_path, path_lints, opened_lints, worded_lints, risked_lints, unchecked_lints, differing_lints};

use crate::inherited::put_inherited;
use crate::known::is_among;
use crate::letters::{has_delimiters, is_guarded};
use crate::lint::Lint;
use el_proc::NUMBERS;
use el_words::{Bytes, NoMemory, Prog, Words};
use std::alloc::Global;

/// Puts those of a program behind, which has these option words and single words, where these keys are risked, and these descriptors
/// are made.
pub(crate) fn put_differing(
    alloc: Global,
    risked: &[Bytes],
    made: &[bool; NUMBERS],
    program: Prog,
    options: &Words,
    texts: &Words,
    lints: &mut Vec<Lint>,
) -> Result<(), NoMemory>
    ensures { OnOk result (lints.new.items ≡ lints.old.items ++ differing_lints risked.now made.now program (letters_of program options.now) texts.now) }
{
    put_opened(alloc, program, texts.get(1), lints)?;
    put_worded(alloc, program, options, lints)?;
    put_unchecked(alloc, risked, program, options, texts.get(0), lints)?;
    put_inherited(alloc, made, program, texts, lints)
}

fn put_opened(
    alloc: Global,
    program: Prog,
    path: Option<&[u8]>,
    lints: &mut Vec<Lint>,
) -> Result<(), NoMemory>
    ensures { OnOk result (lints.new.items ≡ lints.old.items ++ opened_lints program (option_copied path.entry)) }
{
    match program {
        Prog::Redirfd => put_path(alloc, path, lints),
        _ => Ok(()),
    }
}

fn put_path(alloc: Global, path: Option<&[u8]>, lints: &mut Vec<Lint>) -> Result<(), NoMemory>
    ensures { OnOk result (lints.new.items ≡ lints.old.items ++ path_lints (option_copied path.entry)) }
{
    match path {
        Some(path) if is_descriptor_path(path) => {
            lints.push(Lint::Opened {
                word: Bytes::from_slice(alloc, path)?,
            })?;
            Ok(())
        }
        _ => Ok(()),
    }
}

// A path that stands for a descriptor of the process that opens it.
#[tactic(auto, unfolding(crate::specs::Differing::is_descriptor_path))]
fn is_descriptor_path(path: &[u8]) -> bool
    ensures { result ≡ is_descriptor_path path.now }
{
    path.starts_with(b"/dev/fd/".as_slice())
        || path.starts_with(b"/dev/std".as_slice())
        || path.starts_with(b"/proc/self/fd/".as_slice())
}

fn put_worded(
    alloc: Global,
    program: Prog,
    options: &Words,
    lints: &mut Vec<Lint>,
) -> Result<(), NoMemory>
    ensures { OnOk result (lints.new.items ≡ lints.old.items ++ worded_lints program (letters_of program options.now)) }
{
    if !has_delimiters(alloc, program, options)? {
        lints.push(Lint::Worded { program })?;
    }
    Ok(())
}

fn put_unchecked(
    alloc: Global,
    risked: &[Bytes],
    program: Prog,
    options: &Words,
    name: Option<&[u8]>,
    lints: &mut Vec<Lint>,
) -> Result<(), NoMemory>
    ensures { OnOk result (lints.new.items ≡ lints.old.items ++ unchecked_lints risked.now program (letters_of program options.now) (option_copied name.entry)) }
{
    if is_guarded(alloc, program, options)? {
        return Ok(());
    }
    put_risked(alloc, risked, name, lints)
}

fn put_risked(
    alloc: Global,
    risked: &[Bytes],
    name: Option<&[u8]>,
    lints: &mut Vec<Lint>,
) -> Result<(), NoMemory>
    ensures { OnOk result (lints.new.items ≡ lints.old.items ++ risked_lints risked.now (option_copied name.entry)) }
{
    match name {
        Some(name) if is_among(risked, name) => {
            lints.push(Lint::Unchecked {
                name: Bytes::from_slice(alloc, name)?,
            })?;
            Ok(())
        }
        _ => Ok(()),
    }
}
