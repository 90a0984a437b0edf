//! The letters in force among a program's option words.
#![tactic(auto, using(crate::proofs::LettersFound::letters), unfolding(el_options::specs::Shapes::shape_of))]

ghost use Rattle.el_room.specs.Vocabulary.{option_copied, read_from, in_force, are_good_opts, groups_told, value_by, chosen_by};
ghost use Rattle.el_script.specs.Vocabulary.{letters_of, has_letter};
ghost use Rattle.std.specs.Prelude.{◌≡◌, ◌≤◌, ◌&&◌, [], ◌∷◌, true, None, is_some, codes, IfOk};
ghost use Rattle.el_tree.specs.OptionWords.{letters_in};
ghost use Rattle.el_lint.specs.Differing.{has_delimiters, is_guarded};
ghost use Rattle.el_lint.specs.Negated.{tests_block, tests_rest};
ghost use Rattle.el_lint.specs.Refused.{is_empty_value, has_no_delimiters};
ghost use Rattle.el_lint.specs.Lints.{does_more};
ghost use Rattle.el_lint.specs.LetterTables.{stands_in, puts_value};

use el_front::read_call;
use el_options::{
    BACKTICK, DEFINE, FORBACKTICKX, FORSTDIN, FORX, IF, IFELSE, IFTE, IMPORTAS, LOOPWHILEX,
    MULTIDEFINE, Table,
};
use el_words::{NoMemory, Prog, Word, Words};
use std::alloc::Global;

/// Whether a loop or backtick puts a value in, by its letter `E`.
pub(crate) fn puts_value(alloc: Global, program: Prog, options: &Words) -> Result<bool, NoMemory>
    ensures { IfOk result (λ puts. puts ≡ puts_value program (letters_of program options.now)) }
{
    match program {
        Prog::Forx => has_letter(alloc, &[b"ox"], &FORX, options, b'E'),
        Prog::Forstdin => has_letter(alloc, &[b"ox"], &FORSTDIN, options, b'E'),
        Prog::Forbacktickx => has_letter(alloc, &[b"ox"], &FORBACKTICKX, options, b'E'),
        Prog::Backtick => has_letter(alloc, &[b"iID", b"nN"], &BACKTICK, options, b'E'),
        _ => Ok(false),
    }
}

/// Whether define reads netstrings: it splits, by its letter `s`, and `d` gives no delimiters.
pub(crate) fn defines_netstrings(alloc: Global, options: &Words) -> Result<bool, NoMemory>
    ensures { IfOk result (λ are. are ≡ (has_letter Prog.Define (codes "s") (letters_of Prog.Define options.now) && has_no_delimiters Prog.Define (letters_of Prog.Define options.now))) }
{
    Ok(
        has_letter(alloc, &[], &DEFINE, options, b's')?
            && has_no_delimiters(alloc, &DEFINE, options)?,
    )
}

/// Whether multidefine does, which always splits.
pub(crate) fn multidefines_netstrings(alloc: Global, options: &Words) -> Result<bool, NoMemory>
    ensures { IfOk result (λ are. are ≡ has_no_delimiters Prog.Multidefine (letters_of Prog.Multidefine options.now)) }
{
    has_no_delimiters(alloc, &MULTIDEFINE, options)
}

/// Whether a loop over an input has its delimiters, by its letter `d`.
pub(crate) fn has_delimiters(
    alloc: Global,
    program: Prog,
    options: &Words,
) -> Result<bool, NoMemory>
    ensures { IfOk result (λ has. has ≡ has_delimiters program (letters_of program options.now)) }
{
    match program {
        Prog::Forstdin => has_letter(alloc, &[b"ox"], &FORSTDIN, options, b'd'),
        Prog::Forbacktickx => has_letter(alloc, &[b"ox"], &FORBACKTICKX, options, b'd'),
        _ => Ok(true),
    }
}

/// Whether backtick says what comes of a block that fails, by its letters `i`, `I` and `D`. No other program needs to.
pub(crate) fn is_guarded(alloc: Global, program: Prog, options: &Words) -> Result<bool, NoMemory>
    ensures { IfOk result (λ is. is ≡ is_guarded program (letters_of program options.now)) }
{
    match program {
        Prog::Backtick => Ok(
            has_letter(alloc, &[b"iID", b"nN"], &BACKTICK, options, b'i')?
                || has_letter(alloc, &[b"iID", b"nN"], &BACKTICK, options, b'I')?
                || has_letter(alloc, &[b"iID", b"nN"], &BACKTICK, options, b'D')?,
        ),
        _ => Ok(true),
    }
}

/// Whether the block at a program's first place is a test under `-n`.
pub(crate) fn tests_block(alloc: Global, program: Prog, options: &Words) -> Result<bool, NoMemory>
    ensures { IfOk result (λ tests. tests ≡ tests_block program (letters_of program options.now)) }
{
    match program {
        Prog::If => has_letter(alloc, &[b"tx"], &IF, options, b'n'),
        Prog::Ifelse => has_letter(alloc, &[], &IFELSE, options, b'n'),
        _ => Ok(false),
    }
}

/// Whether a program's rest is such a test, where the chain that it stands in may be one.
pub(crate) fn tests_rest(
    alloc: Global,
    is_test: bool,
    program: Prog,
    options: &Words,
) -> Result<bool, NoMemory>
    ensures { IfOk result (λ tests. tests ≡ tests_rest is_test program (letters_of program options.now)) }
{
    Ok(match program {
        Prog::Loopwhilex => is_test || has_letter(alloc, &[], &LOOPWHILEX, options, b'n')?,
        Prog::Ifte => has_letter(alloc, &[], &IFTE, options, b'n')?,
        Prog::Exit => false,
        _ => is_test,
    })
}

/// Whether a name that the program puts in is more than a name, by the letters `i` and `u` of importas.
pub(crate) fn does_more(alloc: Global, program: Prog, options: &Words) -> Result<bool, NoMemory>
    ensures { IfOk result (λ does. does ≡ does_more program (letters_of program options.now)) }
{
    match program {
        Prog::Importas | Prog::Import => imports_more(alloc, options),
        _ => Ok(false),
    }
}

fn imports_more(alloc: Global, options: &Words) -> Result<bool, NoMemory>
    ensures { IfOk result (λ does. does ≡ does_more Prog.Importas (letters_of Prog.Importas options.now)) }
{
    Ok(
        has_letter(alloc, &[b"iD"], &IMPORTAS, options, b'i')?
            || has_letter(alloc, &[b"iD"], &IMPORTAS, options, b'u')?,
    )
}

// Whether a letter of the table is in force, where the letters of a group exclude each other.
fn has_letter<const N: usize>(
    alloc: Global,
    groups: &[&[u8]],
    table: &Table<N>,
    options: &Words,
    letter: u8,
) -> Result<bool, NoMemory>
    requires few { N ≤ 16 }
    requires good { are_good_opts table.now.opts ≡ true }
    requires stands { stands_in table.now.opts letter ≡ true }
    ensures { IfOk result (λ has. has ≡ is_some (in_force (groups_told groups.now) letter (letters_in (read_from table.now.opts 1 None options.now)))) }
{
    let words = named(alloc, options)?;
    match read_call(alloc, groups, table, &words)? {
        Ok(letters) => Ok(letters.has(letter)),
        Err(_) => Ok(false),
    }
}

// The option words behind a name, which isn't looked at.
fn named(alloc: Global, options: &Words) -> Result<Words, NoMemory>
    ensures { IfOk result (λ words. words ≡ [] ∷ options.now) }
{
    let mut words = Words::new(alloc);
    words.push(b"")?;
    for option in options {
        words.push(option)?;
    }
    Ok(words)
}

// Whether the letter `d` gives no delimiters, where no letters exclude each other.
fn has_no_delimiters<const N: usize>(
    alloc: Global,
    table: &Table<N>,
    options: &Words,
) -> Result<bool, NoMemory>
    requires few { N ≤ 16 }
    requires good { are_good_opts table.now.opts ≡ true }
    ensures { IfOk result (λ has. has ≡ is_empty_value (value_by (chosen_by [] table.now.opts (letters_in (read_from table.now.opts 1 None options.now))) 100)) }
{
    let words = named(alloc, options)?;
    match read_call(alloc, &[], table, &words)? {
        Ok(letters) => Ok(is_empty_value(letters.value(b'd'))),
        Err(_) => Ok(false),
    }
}

fn is_empty_value(value: Option<&Word>) -> bool
    ensures { result ≡ is_empty_value (option_copied value.entry) }
{
    match value {
        Some(value) => value.as_bytes().is_empty(),
        None => false,
    }
}
