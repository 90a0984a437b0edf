//! A substitution: the pairs of a key and its words.
ghost use Rattle.std.specs.Prelude.{◌≡◌, ◌+◌, ◌-◌, ◌++◌, ◌∷◌, [], true, false, Err, ◌==◌, ◌||◌, IfOk, OnOk, OnErr, IsErrOf};
ghost use Rattle.std.specs.List.{list_any};
ghost use Rattle.el_words.specs.Word.{HasNul};
ghost use Rattle.el_subst.specs.Pairs.{is_good_key, positional_pairs, shifted_pairs, numbered_pairs, numbered};

use el_env::Positionals;
use el_words::{NoMemory, Word, Words, put_u64};
use std::alloc::{AllocFailed, Global};
use std::marker::Model;
use thiserror::Error;

/// Why a pair isn't added.
#[derive(Clone, Copy, Debug, PartialEq, Eq, Error)]
pub enum SubstFault {
    /// The key is empty, or holds `$` or `}`.
    #[error("bad variable name")]
    BadKey,
    /// There is no memory for the pair.
    #[error("no memory")]
    NoMemory,
}

impl<T: Drop> From<AllocFailed<T>> for SubstFault {
    ghost use Rattle.std.specs.Prelude.{◌≡◌};
    ghost use Rattle.el_subst.specs.declared.subst.SubstFault.TheVariants.{NoMemory};

    ghost from_gives = { λ _ e. e ≡ NoMemory };

    fn from(_: AllocFailed<T>) -> Self {
        SubstFault::NoMemory
    }
}

/// Pairs of a key and a list of words, all used in parallel. Of two pairs with one key the first
/// counts. A contract sees the list of the pairs.
#[derive(Drop)]
pub struct Subst {
    pairs: Vec<(Word, Words)>,
}

impl Model for Subst {
    ghost use Rattle.el_subst.specs.Values.{Pairs};

    ghost Value = { Pairs };

    ghost view = { λ s. s.pairs.items };
}

impl Subst {
    /// No pairs. Later calls take their memory from `alloc`.
    pub fn new(alloc: Global) -> Subst
        ensures { result ≡ [] }
    {
        Subst {
            pairs: Vec::new(alloc),
        }
    }

    /// Adds the pair of `key` and `value`, behind the others. It is `BadKey` exactly where the key is
    /// empty or holds `$` or `}`: no reference could have such a key. After an error the pairs are as
    /// before.
    pub fn add(&mut self, key: Word, value: Words) -> Result<(), SubstFault>
        ensures ok { OnOk result (self.new ≡ self.old ++ (key, value) ∷ []) }
        ensures good { OnOk result (is_good_key key ≡ true) }
        ensures bad { IsErrOf result SubstFault.BadKey → is_good_key key ≡ false }
        ensures refused { is_good_key key ≡ false → result ≡ Err SubstFault.BadKey }
        ensures err { OnErr result (self.new ≡ self.old) }
    {
        if !is_good_key(key.as_bytes()) {
            return Err(SubstFault::BadKey);
        }
        self.pairs.push((key, value))?;
        Ok(())
    }

    /// Adds `#`, `0`, `1` to the greater of the number of arguments and `least` (a missing one is the
    /// empty word), and `@`, all arguments that are there. After an error the pairs are as before.
    pub fn add_positionals(&mut self, from: &Positionals, least: u64) -> Result<(), NoMemory>
        ensures ok { OnOk result (self.new ≡ self.old ++ positional_pairs from.now.zero from.now.args least) }
        ensures err { OnErr result (self.new ≡ self.old) }
    {
        self.add_numbered(from, least, from.args.copy()?)
    }

    /// Adds what `add_positionals` adds, but that `@` is the arguments behind the first `least`: no words
    /// where there are no more. After an error the pairs are as before.
    pub fn add_positionals_shifted(
        &mut self,
        from: &Positionals,
        least: u64,
    ) -> Result<(), NoMemory>
        ensures ok { OnOk result (self.new ≡ self.old ++ shifted_pairs from.now.zero from.now.args least) }
        ensures err { OnErr result (self.new ≡ self.old) }
    {
        let mut all = from.args.copy()?;
        all.drop_front(all.len().min(least as usize));
        self.add_numbered(from, least, all)
    }

    // The positional parameters, with `@` for `all`.
    fn add_numbered(&mut self, from: &Positionals, least: u64, all: Words) -> Result<(), NoMemory>
        ensures ok { OnOk result (self.new ≡ self.old ++ numbered_pairs from.now.zero from.now.args least all) }
        ensures err { OnErr result (self.new ≡ self.old) }
    {
        let mut pairs = numbered_pairs(*self.pairs.allocator(), from, least, all)?;
        self.pairs.append(&mut pairs)?;
        Ok(())
    }

    /// The pairs in their order.
    pub(crate) fn pairs(&self) -> &[(Word, Words)]
        ensures { result.now ≡ self.now }
    {
        &self.pairs
    }
}

/// Whether a reference can have the key: it isn't empty, and holds neither `$` nor `}`.
pub fn is_good_key(key: &[u8]) -> bool
    ensures { result ≡ is_good_key key.now }
{
    !key.is_empty() && !ends_keys(key)
}

fn ends_keys(bytes: &[u8]) -> bool
    ensures { result ≡ list_any (λ byte. (byte == 36) || (byte == 125)) bytes.now }
{
    bytes.iter().any(|byte| *byte == b'$' || *byte == b'}')
}

type PairList = Vec<(Word, Words)>;

// Room is taken at once, so that a `least` that no memory holds is refused before any pair is made.
fn numbered_pairs(
    alloc: Global,
    from: &Positionals,
    least: u64,
    all: Words,
) -> Result<PairList, NoMemory>
    ensures { IfOk result (λ pairs. pairs.items ≡ numbered_pairs from.now.zero from.now.args least all) }
{
    let count = from.args.len() as u64;
    let mut pairs = Vec::with_capacity(alloc, count.max(least).saturating_add(3) as usize)?;
    let number = put_u64(alloc, count)?;
    pairs.push((Word::of(alloc, b"#")?, one_word(alloc, number.as_bytes())?))?;
    pairs.push((
        Word::of(alloc, b"0")?,
        one_word(alloc, from.zero.as_bytes())?,
    ))?;
    put_args(alloc, &from.args, &mut pairs)?;
    put_missing(alloc, count, least, &mut pairs)?;
    pairs.push((Word::of(alloc, b"@")?, all))?;
    Ok(pairs)
}

fn one_word(alloc: Global, word: &[u8]) -> Result<Words, NoMemory>
    requires { HasNul word.now → ⊥ }
    ensures { IfOk result (λ words. words ≡ word.now ∷ []) }
{
    let mut words = Words::new(alloc);
    words.push(word)?;
    Ok(words)
}

// The arguments under their numbers, which count from 1.
fn put_args(alloc: Global, args: &Words, pairs: &mut PairList) -> Result<(), NoMemory>
    ensures { OnOk result (pairs.new.items ≡ pairs.old.items ++ numbered 1 0 args.now) }
{
    for (place, arg) in args.iter().enumerate() {
        let number = put_u64(alloc, place as u64 + 1)?;
        pairs.push((number, one_word(alloc, arg)?))?;
    }
    Ok(())
}

// Empty words under the numbers above `count` up to `least`.
fn put_missing(alloc: Global, count: u64, least: u64, pairs: &mut PairList) -> Result<(), NoMemory>
    ensures { OnOk result (pairs.new.items ≡ pairs.old.items ++ numbered (count + 1) (least - count) []) }
{
    for number in count..least {
        pairs.push((put_u64(alloc, number + 1)?, one_word(alloc, b"")?))?;
    }
    Ok(())
}
