//! The names that have values put in, where a program or a command stands.
#![tactic(auto, using(crate::proofs::Knowing::knowing))]

ghost use Rattle.el_script.specs.Vocabulary.{letters_of, directives_of, is_positional, is_plain_number, own_member, directives_member};
ghost use Rattle.std.specs.Prelude.{◌≡◌, ◌++◌, length, take, OnOk};
ghost use Rattle.el_tree.specs.Marks.{block_member};
ghost use Rattle.el_lint.specs.Known.{first_known, known_with, known_behind, is_among, is_known};
ghost use Rattle.el_lint.specs.KnownTold.{known_told};

use crate::names::names_put;
use el_check::Params;
use el_tree::{Directives, Place, Places};
use el_words::{Bytes, NoMemory, Prog, Words, are_digits};
use std::alloc::Global;

/// These names, and those of the positionals where they are put in.
#[derive(Drop)]
pub(crate) struct KnownNames {
    pub(crate) names: Vec<Bytes>,
    pub(crate) positional: bool,
}

/// How far names were known.
#[derive(Clone, Copy)]
pub(crate) struct Mark {
    pub(crate) count: usize,
    pub(crate) positional: bool,
}

impl KnownNames {
    /// Those at the beginning of a script.
    pub(crate) fn first(alloc: Global, params: Params) -> KnownNames
        ensures { known_told result ≡ first_known params }
    {
        KnownNames {
            names: Vec::new(alloc),
            positional: matches!(params, Params::Subst(_)),
        }
    }

    /// Whether a value is put in for the key.
    pub(crate) fn has(&self, key: &[u8]) -> bool
        ensures { result ≡ is_known (known_told self.now) key.now }
    {
        is_among(&self.names, key) || (self.positional && is_positional(key))
    }

    /// How far names are known.
    pub(crate) fn mark(&self) -> Mark
        ensures count { result.count ≡ length self.now.names.items }
        ensures positional { result.positional ≡ self.now.positional }
    {
        Mark {
            count: self.names.len(),
            positional: self.positional,
        }
    }

    /// Leaves those that were known there.
    pub(crate) fn back_to(&mut self, mark: Mark)
        ensures names { self.new.names.items ≡ take mark.count self.old.names.items }
        ensures positional { self.new.positional ≡ mark.positional }
    {
        self.names.truncate(mark.count);
        self.positional = mark.positional;
    }

    /// Adds those that a program with these option words and places puts in.
    pub(crate) fn learn(
        &mut self,
        alloc: Global,
        program: Prog,
        options: &Words,
        places: &Places,
    ) -> Result<(), NoMemory>
        ensures { OnOk result (known_told self.new ≡ known_behind (known_told self.old) program options.now places.now) }
    {
        match program {
            Prog::Multisubstitute => self.learn_block(alloc, places),
            _ => self.learn_own(alloc, program, options, places),
        }
    }

    fn learn_block(&mut self, alloc: Global, places: &Places) -> Result<(), NoMemory>
        ensures { OnOk result (known_told self.new ≡ known_with (known_told self.old) (block_member places.now)) }
    {
        match places.get(0) {
            Some(Place::Directives(directives)) => self.learn_directives(alloc, directives),
            _ => Ok(()),
        }
    }

    fn learn_directives(&mut self, alloc: Global, directives: &Directives) -> Result<(), NoMemory>
        ensures { OnOk result (known_told self.new ≡ known_with (known_told self.old) (directives_member (directives_of directives.now))) }
    {
        for directive in directives.iter() {
            self.learn_own(alloc, directive.prog, &directive.options, &directive.places)?;
        }
        Ok(())
    }

    fn learn_own(
        &mut self,
        alloc: Global,
        program: Prog,
        options: &Words,
        places: &Places,
    ) -> Result<(), NoMemory>
        ensures { OnOk result (known_told self.new ≡ known_with (known_told self.old) (own_member program (letters_of program options.now) places.now)) }
    {
        let names = names_put(alloc, program, options, places)?;
        self.put_names(alloc, &names)?;
        self.positional |= program == Prog::Elgetpositionals;
        Ok(())
    }

    fn put_names(&mut self, alloc: Global, names: &Words) -> Result<(), NoMemory>
        ensures names { OnOk result (self.new.names.items ≡ self.old.names.items ++ names.now) }
        ensures positional { self.new.positional ≡ self.old.positional }
    {
        for name in names {
            self.names.push(Bytes::from_slice(alloc, name)?)?;
        }
        Ok(())
    }
}

/// Whether `name` is one of these.
pub(crate) fn is_among(names: &[Bytes], name: &[u8]) -> bool
    ensures { result ≡ is_among names.now name.now }
{
    names.iter().any(|other| other.as_bytes() == name)
}

/// Whether `key` is one of the positionals'.
pub(crate) fn is_positional(key: &[u8]) -> bool
    ensures { result ≡ is_positional key.now }
{
    matches!(key, b"@") || matches!(key, b"#") || is_plain_number(key)
}

// Whether `key` is a decimal number without leading zeros.
fn is_plain_number(key: &[u8]) -> bool
    ensures { result ≡ is_plain_number key.now }
{
    match key {
        [] => false,
        [digit] => digit.is_ascii_digit(),
        [first, ..] => *first != b'0' && are_digits(key),
    }
}
