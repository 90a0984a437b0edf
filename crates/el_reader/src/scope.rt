//! The members in force, and the test of fixed places.
#![tactic(auto, using(crate::proofs::Scopes::scopes))]

ghost use Rattle.el_script.specs.Vocabulary.{list_any, position_or_len, marks_many};
ghost use Rattle.std.specs.Prelude.{◌≡◌, ◌%◌, ◌==◌, ◌&&◌, not, false, IfOk, OnOk};
ghost use Rattle.el_subst.specs.Parts.{parts_of};
ghost use Rattle.el_tree.specs.Marks.{puts_many, touches};
ghost use Rattle.el_tree.specs.Faults.{place_fault, scope_fault};
ghost use Rattle.el_reader.specs.Inspections.{scope_told, first_scope, IsMore};
ghost use Rattle.el_reader.specs.Known.{entered};

use crate::faults::is_literal;
use crate::member::Member;
use crate::members::Members;
use el_subst::{Referred, next_reference};
use el_tree::{Fault, PlacedFault};
use el_words::NoMemory;
use std::alloc::Global;

/// How the words at fixed places are tested.
#[derive(Clone, Copy, PartialEq, Eq)]
pub enum FixedPlaces {
    /// Not at all.
    Untested,
    /// By the members in force, of which that of the positionals may be the first.
    Tested { positionals: bool },
}

/// The members in force that mark something, from the outermost on. Where fixed places aren't tested there are none.
#[derive(Drop)]
pub(crate) struct TestScope {
    pub(crate) tested: bool,
    pub(crate) members: Members,
}

impl TestScope {
    /// The scope of a script.
    pub(crate) fn new(alloc: Global, places: FixedPlaces) -> Result<TestScope, NoMemory>
        ensures { IfOk result (λ scope. scope_told scope ≡ first_scope places) }
    {
        let mut members = Members::new(alloc);
        if let FixedPlaces::Tested { positionals: true } = places {
            members.push(Member::new(alloc, true))?;
        }
        Ok(TestScope {
            tested: places != FixedPlaces::Untested,
            members,
        })
    }

    /// One member more, unless it marks nothing: such a one changes no test. Where fixed places aren't tested none is kept.
    pub(crate) fn enter(&mut self, member: Member) -> Result<(), NoMemory>
        ensures entered { OnOk result (scope_told self.new ≡ entered (scope_told self.old) member) }
        ensures more { OnOk result (IsMore self.old self.new) }
    {
        if self.tested && !member.is_empty() {
            self.members.push(member)?;
        }
        Ok(())
    }

    /// What is wrong with a word at a fixed place.
    #[inline(always)]
    pub(crate) fn fault(&self, text: &[u8]) -> Option<PlacedFault>
        ensures { result ≡ scope_fault (scope_told self.now) text.now }
    {
        if !self.tested || is_literal(text) {
            return None;
        }
        place_fault(&self.members, text).map(PlacedFault::At)
    }
}

// What the members do to a word with `$`, from the outermost on: behind the first that touches it none may have a key
// of many words.
#[cold]
#[inline(never)]
fn place_fault(members: &Members, text: &[u8]) -> Option<Fault>
    ensures { result ≡ place_fault false members.now (parts_of text.now) }
{
    let place = first_touching(members, text);
    if place == members.len() {
        return None;
    }
    let puts = puts_many(members.at(place), text).then_some(Fault::ManyWordsInOnePlace);
    let behind = members.has_many_behind(place);
    puts.or(behind.then_some(Fault::ManyAfterValue))
}

// The place of the first member that has the key of a reference; their number where none has.
fn first_touching(members: &Members, text: &[u8]) -> usize
    ensures { result ≡ position_or_len (λ member. list_any (touches member) (parts_of text.now)) members.now }
{
    let mut first = members.len();
    let mut rest = text;
    while let Some(found) = next_reference(rest) {
        first = first.min(members.first_marking(found.key));
        rest = found.rest;
    }
    first
}

// Whether `member` may put any number of words in the place of a reference.
fn puts_many(member: &Member, text: &[u8]) -> bool
    ensures { result ≡ list_any (puts_many member.now) (parts_of text.now) }
{
    let mut rest = text;
    while let Some(found) = next_reference(rest) {
        if puts_many_at(member, &found) {
            return true;
        }
        rest = found.rest;
    }
    false
}

// The same of one reference. Behind an odd number of backslashes it stays as it is.
fn puts_many_at(member: &Member, found: &Referred<'_>) -> bool
    ensures { result ≡ (not (found.now.slashes % 2 == 1) && marks_many member.now found.now.key.now) }
{
    found.slashes % 2 == 0 && member.marks_many(found.key)
}
