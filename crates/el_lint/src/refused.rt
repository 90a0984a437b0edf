//! Literal words that their program refuses where it is reached.
ghost use Rattle.el_room.specs.Vocabulary.{option_copied, filter, Multidefine, listed_rules, words_by};
ghost use Rattle.el_script.specs.Vocabulary.{letters_of, names_in};
ghost use Rattle.std.specs.Prelude.{◌≡◌, true, false, [], ◌∷◌, ◌++◌, Some, is_ok, map, IfOk, OnOk};
ghost use Rattle.el_lint.specs.declared.lint.Lint.TheVariants.{Refused};
ghost use Rattle.el_lint.specs.declared.wanted.Wanted.TheVariants.{Key};
ghost use Rattle.el_lint.specs.LetterTables.{puts_value};
ghost use Rattle.el_lint.specs.Refused.{value_wanted, wanted_first, wanted_second, is_right, is_refused, refused_as, is_bad_part, netstrings_where, refused_parts, refused_lints};

use crate::letters::{defines_netstrings, multidefines_netstrings, puts_value};
use crate::lint::Lint;
use crate::names::names_in;
use crate::wanted::Wanted;
use el_env::is_good_name;
use el_subst::is_good_key;
use el_transform::{How, TransformFault, transform};
use el_tree::Places;
use el_words::{ByteSet, Bytes, NoMemory, Prog, Word, Words, parse_u64};
use std::alloc::Global;

// The greatest status, and the number behind the greatest descriptor.
const MOST_STATUS: u64 = 255;

const DESCRIPTORS: u64 = 64;

/// Puts behind those among the words at a program's places, of which these are the single ones.
pub(crate) fn put_refused(
    alloc: Global,
    program: Prog,
    options: &Words,
    places: &Places,
    texts: &Words,
    lints: &mut Vec<Lint>,
) -> Result<(), NoMemory>
    ensures { OnOk result (lints.new.items ≡ lints.old.items ++ refused_lints program (letters_of program options.now) texts.now (names_in places.now)) }
{
    let first = wanted_first(alloc, program, options)?;
    put_refused_as(alloc, program, first, texts.get(0), lints)?;
    let second = wanted_second(alloc, program, options)?;
    put_refused_as(alloc, program, second, texts.get(1), lints)?;
    put_refused_parts(alloc, program, places, lints)
}

// What a program's first word must be.
fn wanted_first(alloc: Global, program: Prog, options: &Words) -> Result<Option<Wanted>, NoMemory>
    ensures { IfOk result (λ wanted. wanted ≡ wanted_first program (letters_of program options.now)) }
{
    Ok(match program {
        Prog::Exit => Some(Wanted::Status),
        Prog::Redirfd
        | Prog::Fdmove
        | Prog::Fdclose
        | Prog::Fdswap
        | Prog::Piperw
        | Prog::Heredoc => Some(Wanted::Descriptor),
        Prog::Export | Prog::Unexport | Prog::Withstdinas => Some(Wanted::Name),
        Prog::Define | Prog::Importas => Some(Wanted::Key),
        Prog::Import => Some(Wanted::NameAndKey),
        Prog::Forx | Prog::Forstdin | Prog::Forbacktickx | Prog::Backtick => {
            value_wanted(alloc, program, options)?
        }
        Prog::Multidefine => netstrings_where(multidefines_netstrings(alloc, options)?),
        _ => None,
    })
}

// What the word of a loop's or backtick's value must be.
fn value_wanted(alloc: Global, program: Prog, options: &Words) -> Result<Option<Wanted>, NoMemory>
    ensures { IfOk result (λ wanted. wanted ≡ value_wanted (puts_value program (letters_of program options.now))) }
{
    if puts_value(alloc, program, options)? {
        Ok(Some(Wanted::Key))
    } else {
        Ok(Some(Wanted::Name))
    }
}

// What its second word must be.
fn wanted_second(alloc: Global, program: Prog, options: &Words) -> Result<Option<Wanted>, NoMemory>
    ensures { IfOk result (λ wanted. wanted ≡ wanted_second program (letters_of program options.now)) }
{
    Ok(match program {
        Prog::Fdmove | Prog::Fdswap | Prog::Piperw => Some(Wanted::Descriptor),
        Prog::Importas => Some(Wanted::Name),
        Prog::Define => netstrings_where(defines_netstrings(alloc, options)?),
        _ => None,
    })
}

fn netstrings_where(are: bool) -> Option<Wanted>
    ensures { result ≡ netstrings_where are }
{
    if are { Some(Wanted::Netstrings) } else { None }
}

fn put_refused_as(
    alloc: Global,
    program: Prog,
    wanted: Option<Wanted>,
    text: Option<&[u8]>,
    lints: &mut Vec<Lint>,
) -> Result<(), NoMemory>
    ensures { OnOk result (lints.new.items ≡ lints.old.items ++ refused_as program wanted (option_copied text.entry)) }
{
    match wanted {
        Some(wanted) => put_refused_text(alloc, program, wanted, text, lints),
        None => Ok(()),
    }
}

fn put_refused_text(
    alloc: Global,
    program: Prog,
    wanted: Wanted,
    text: Option<&[u8]>,
    lints: &mut Vec<Lint>,
) -> Result<(), NoMemory>
    ensures { OnOk result (lints.new.items ≡ lints.old.items ++ refused_as program (Some wanted) (option_copied text.entry)) }
{
    match text {
        Some(text) => put_if_refused(alloc, program, wanted, text, lints),
        None => Ok(()),
    }
}

fn put_if_refused(
    alloc: Global,
    program: Prog,
    wanted: Wanted,
    text: &[u8],
    lints: &mut Vec<Lint>,
) -> Result<(), NoMemory>
    ensures { OnOk result (lints.new.items ≡ lints.old.items ++ refused_as program (Some wanted) (Some text.now)) }
{
    if is_refused(alloc, wanted, text)? {
        put_one(alloc, program, wanted, text, lints)
    } else {
        Ok(())
    }
}

fn put_one(
    alloc: Global,
    program: Prog,
    wanted: Wanted,
    text: &[u8],
    lints: &mut Vec<Lint>,
) -> Result<(), NoMemory>
    ensures { OnOk result (lints.new.items ≡ lints.old.items ++ Refused program wanted text.now ∷ []) }
{
    lints.push(Lint::Refused {
        program,
        wanted,
        word: Bytes::from_slice(alloc, text)?,
    })?;
    Ok(())
}

fn is_refused(alloc: Global, wanted: Wanted, text: &[u8]) -> Result<bool, NoMemory>
    ensures { IfOk result (λ is. is ≡ is_refused wanted text.now) }
{
    Ok(!text.contains(&b'$') && !is_right(alloc, wanted, text)?)
}

fn is_right(alloc: Global, wanted: Wanted, text: &[u8]) -> Result<bool, NoMemory>
    ensures { IfOk result (λ is. is ≡ is_right wanted text.now) }
{
    Ok(match wanted {
        Wanted::Status => parse_u64(text).is_some_and(|code| code <= MOST_STATUS),
        Wanted::Descriptor => parse_u64(text).is_some_and(|number| number < DESCRIPTORS),
        Wanted::Name => is_good_name(text),
        Wanted::Key => is_good_key(text),
        Wanted::NameAndKey => is_good_key(text) && is_good_name(text),
        Wanted::Netstrings => are_netstrings(alloc, text)?,
    })
}

// Whether a value without delimiters can be split.
#[tactic(auto, using(crate::proofs::Netstrings::netstrings))]
fn are_netstrings(alloc: Global, text: &[u8]) -> Result<bool, NoMemory>
    ensures { IfOk result (λ are. are ≡ is_ok (words_by (listed_rules false false true []) text.now)) }
{
    let how = How {
        crunch: false,
        chomp: false,
        split: true,
        delims: ByteSet::of(b""),
    };
    // A script's words hold no NUL.
    let Ok(value) = Word::from_bytes(alloc, text) else {
        return Err(NoMemory);
    };
    match transform(alloc, &how, &value) {
        Ok(_) => Ok(true),
        Err(TransformFault::BadNetstring { .. }) => Ok(false),
        Err(TransformFault::NoMemory) => Err(NoMemory),
    }
}

fn put_refused_parts(
    alloc: Global,
    program: Prog,
    places: &Places,
    lints: &mut Vec<Lint>,
) -> Result<(), NoMemory>
    ensures { OnOk result (lints.new.items ≡ lints.old.items ++ refused_parts program (names_in places.now)) }
{
    match program {
        Prog::Multidefine => put_bad_parts(alloc, &names_in(alloc, places)?, lints),
        _ => Ok(()),
    }
}

// The names of a block of multidefine's that are refused.
fn put_bad_parts(alloc: Global, names: &Words, lints: &mut Vec<Lint>) -> Result<(), NoMemory>
    ensures { OnOk result (lints.new.items ≡ lints.old.items ++ map (Refused Multidefine Key) (filter is_bad_part names.now)) }
{
    for name in names {
        if is_bad_part(name) {
            put_one(alloc, Prog::Multidefine, Wanted::Key, name, lints)?;
        }
    }
    Ok(())
}

// An empty name passes over its word.
fn is_bad_part(name: &[u8]) -> bool
    ensures { result ≡ is_bad_part name.now }
{
    !name.is_empty() && !is_good_key(name)
}
