//! The words of commands, and those at places.
#![tactic(auto, using(crate::proofs::Gathering::gathering))]

ghost use Rattle.el_script.specs.Vocabulary.{args_of, places_of};
ghost use Rattle.std.specs.Prelude.{◌≡◌, ◌+◌, [], ◌∷◌, ◌++◌, IfOk, OnOk};
ghost use Rattle.el_lint.specs.Lints.{texts_in, place_texts};
ghost use Rattle.el_lint.specs.Findings.{tokens_in};

use el_tree::{Arg, Args, Group, Place, Places};
use el_words::{NoMemory, Words};
use std::alloc::Global;

/// Words in order, and how many tokens they are with the braces between them.
#[derive(Drop)]
pub(crate) struct Texts {
    pub(crate) words: Words,
    pub(crate) tokens: usize,
}

/// Those of a command, those in its blocks too.
pub(crate) fn command_texts(alloc: Global, args: &Args) -> Result<Texts, NoMemory>
    ensures words { IfOk result (λ texts. texts.words ≡ texts_in args.now) }
    ensures tokens { IfOk result (λ texts. texts.tokens ≡ tokens_in args.now) }
{
    let mut texts = Texts::new(alloc);
    for item in args.iter() {
        texts.put_item(item)?;
    }
    Ok(texts)
}

/// The words at a program's places: single ones, and those of blocks of values.
pub(crate) fn place_texts(alloc: Global, places: &Places) -> Result<Words, NoMemory>
    ensures { IfOk result (λ texts. texts ≡ place_texts places.now) }
{
    let mut texts = Texts::new(alloc);
    for place in places.iter() {
        texts.put_place(place)?;
    }
    Ok(texts.words)
}

/// How many tokens the items of a block of values are.
pub(crate) fn group_tokens(alloc: Global, group: &Group) -> Result<usize, NoMemory>
    ensures { IfOk result (λ tokens. tokens ≡ tokens_in group.now) }
{
    let mut texts = Texts::new(alloc);
    texts.put_group(group)?;
    Ok(texts.tokens)
}

impl Texts {
    fn new(alloc: Global) -> Texts
        ensures words { result.words ≡ [] }
        ensures tokens { result.tokens ≡ 0 }
    {
        Texts {
            words: Words::new(alloc),
            tokens: 0,
        }
    }

    fn put_place(&mut self, place: &Place) -> Result<(), NoMemory>
        ensures { OnOk result (self.new.words ≡ self.old.words ++ place_texts (places_of (place.now ∷ []))) }
    {
        match place {
            Place::Text(text) => self.words.push(text.as_bytes()),
            Place::Values(values) => self.put_group(values),
            Place::Block(_) | Place::Names(_) | Place::Directives(_) => Ok(()),
        }
    }

    #[cycle(texts)]
    fn put_group(&mut self, group: &Group) -> Result<(), NoMemory>
        ensures words { OnOk result (self.new.words ≡ self.old.words ++ texts_in group.now) }
        ensures tokens { OnOk result (self.new.tokens ≡ self.old.tokens + tokens_in group.now) }
    {
        for item in group.iter() {
            self.put_item(item)?;
        }
        Ok(())
    }

    #[cycle(texts)]
    fn put_item(&mut self, item: &Arg) -> Result<(), NoMemory>
        ensures words { OnOk result (self.new.words ≡ self.old.words ++ texts_in (args_of (item.now ∷ []))) }
        ensures tokens { OnOk result (self.new.tokens ≡ self.old.tokens + tokens_in (args_of (item.now ∷ []))) }
    {
        match item {
            Arg::Word(word) => {
                self.words.push(word.as_bytes())?;
                self.count(1)
            }
            Arg::Group(group) => {
                self.put_group(group)?;
                self.count(2)
            }
        }
    }

    // So many tokens more. No more fit in memory than can be counted.
    fn count(&mut self, more: usize) -> Result<(), NoMemory>
        ensures words { self.new.words ≡ self.old.words }
        ensures tokens { OnOk result (self.new.tokens ≡ self.old.tokens + more) }
    {
        self.tokens = self.tokens.checked_add(more).ok_or(NoMemory)?;
        Ok(())
    }
}
