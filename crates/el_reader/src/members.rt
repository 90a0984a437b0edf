//! Members with an index of their keys.

ghost use Rattle.el_script.specs.Vocabulary.{list_any, position_or_len, has_many};
ghost use Rattle.std.specs.Prelude.{◌≡◌, ◌<◌, ◌++◌, [], ◌∷◌, suc, length, take, drop, slice_index_or, OnOk, OnErr};
ghost use Rattle.el_tree.specs.Marks.{marks};
ghost use Rattle.el_reader.specs.Index.{ArePut};

use crate::member::{Member, is_positional};
use el_tree::Mark;
use el_words::{NoMemory, Word};
use indexmap::IndexMap;
use std::alloc::Global;
use std::marker::Model;
use std::mem;

/// A member, and the index of those before it: how many keys it had, and the rest as in `Members`.
#[derive(Drop)]
struct Entered {
    member: Member,
    keys: usize,
    positional: Option<usize>,
    many: usize,
}

/// Members in order, with an index of their keys, so that a look-up takes no longer where there are many. A contract sees
/// the list of the members.
#[derive(Drop)]
pub(crate) struct Members {
    alloc: Global,
    entered: Vec<Entered>,
    // The place of the first member that has the key of its own.
    firsts: IndexMap<Vec<u8>, usize>,
    // The place of the first member that has the keys of the positionals.
    positional: Option<usize>,
    // The place of the last member that has a key of many words; 0 where none has.
    many: usize,
}

impl Model for Members {
    ghost use Rattle.std.specs.Prelude.{List};
    ghost use Rattle.el_tree.specs.Marks.{Member};

    ghost Value = { List Member };

    ghost use Rattle.el_reader.specs.Index.{entered_members, IsIndexOf};

    ghost view = { λ m. entered_members m.entered.items };

    ghost invariant = { λ m. IsIndexOf m.entered.items m.firsts.entries m.positional m.many };
}

impl Members {
    /// No members.
    pub(crate) fn new(alloc: Global) -> Members
        ensures { result ≡ [] }
    {
        Members {
            alloc,
            entered: Vec::new(alloc),
            firsts: IndexMap::new(alloc),
            positional: None,
            many: 0,
        }
    }

    /// Puts `member` last. After an error there are none.
    pub(crate) fn push(&mut self, member: Member) -> Result<(), NoMemory>
        ensures ok { OnOk result (self.new ≡ self.old ++ member ∷ []) }
        ensures err { OnErr result (self.new ≡ []) }
    {
        let none = Members::new(self.alloc);
        let Members {
            alloc,
            mut entered,
            mut firsts,
            positional,
            many,
        } = mem::replace(self, none);
        let place = entered.len();
        let keys = firsts.len();
        let has_positionals = member.positional;
        let has_many = member.has_many();
        put_keys(alloc, &mut firsts, &member.marked, place)?;
        entered.push(Entered {
            member,
            keys,
            positional,
            many,
        })?;
        *self = Members {
            alloc,
            entered,
            firsts,
            positional: positional.or(has_positionals.then_some(place)),
            many: if has_many { place } else { many },
        };
        Ok(())
    }

    /// How many there are.
    pub(crate) fn len(&self) -> usize
        ensures { result ≡ length self.now }
    {
        self.entered.len()
    }

    /// Leaves the first, so many.
    pub(crate) fn truncate(&mut self, len: usize)
        ensures { self.new ≡ take len self.old }
    {
        while self.len() > len {
            self.pop();
        }
    }

    // The last goes.
    fn pop(&mut self)
        requires { 0 < length self.old }
        ensures less { suc (length self.new) ≡ length self.old }
        ensures kept { self.new ≡ take (length self.new) self.old }
    {
        if let Some(last) = self.entered.pop() {
            self.firsts.truncate(last.keys);
            self.positional = last.positional;
            self.many = last.many;
        }
    }

    /// The member at `place`.
    pub(crate) fn at(&self, place: usize) -> &Member
        requires { place < length self.now }
        ensures { result.now ≡ slice_index_or self.now place result.now }
    {
        &self.entered[place].member
    }

    /// The place of the first that marks `key`; their number where none does.
    pub(crate) fn first_marking(&self, key: &[u8]) -> usize
        ensures { result ≡ position_or_len (λ member. marks member key.now) self.now }
    {
        let own = self.firsts.get(key).copied().unwrap_or(self.len());
        if is_positional(key) {
            own.min(self.positional.unwrap_or(self.len()))
        } else {
            own
        }
    }

    /// Whether one of them behind `place` has a key of many words.
    pub(crate) fn has_many_behind(&self, place: usize) -> bool
        ensures { result ≡ list_any has_many (drop (suc place) self.now) }
    {
        place < self.many
    }
}

// Puts in those keys that aren't there, with this place.
fn put_keys(
    alloc: Global,
    firsts: &mut IndexMap<Vec<u8>, usize>,
    marked: &[(Word, Mark)],
    place: usize,
) -> Result<(), NoMemory>
    ensures { OnOk result (ArePut marked.now place firsts.old.entries firsts.new.entries) }
{
    for one in marked {
        let key = one.0.as_bytes();
        if !firsts.contains_key(key) {
            firsts.insert(key.to_vec(alloc)?, place)?;
        }
    }
    Ok(())
}
