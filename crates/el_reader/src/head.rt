//! A program or directive as far as it is read.
#![tactic(auto, using(crate::proofs::Told::heads))]

ghost use Rattle.std.specs.Prelude.{◌≡◌, OnOk};
ghost use Rattle.el_reader.specs.Inspections.{scope_told};
ghost use Rattle.el_reader.specs.Roles.{next_told, first_kind, part_at};
ghost use Rattle.el_reader.specs.Known.{left, first_judged, head_judged, started, placed, taken};

use crate::faults::{kind_fault, or_else, unended_fault, value_fault, verdict};
use crate::member::{Member, first_mark, reads_positionals};
use crate::next::Next;
use crate::options::judge_option;
use crate::role::Part;
use crate::scope::TestScope;
use crate::seen::LettersSeen;
use el_options::{PlaceKind, is_number_text, needs_letter, places_of, reads_options};
use el_tree::{Fault, PlacedFault};
use el_words::{NoMemory, Prog, Word};
use std::alloc::Global;
use std::mem;

/// What is known of a program that is being read: enough to judge what comes next, and to tell what it marks.
#[derive(Drop)]
pub(crate) struct Head {
    pub(crate) program: Prog,
    /// The letter that waits for its value.
    pub(crate) waiting: Option<u8>,
    /// Which letters were read.
    pub(crate) seen: LettersSeen,
    /// Whether no option word may follow: `--` was read, or the program reads no options.
    pub(crate) ended: bool,
    /// How many of its places are read.
    pub(crate) count: usize,
    /// What it marks, as far as its places are read.
    pub(crate) marks: Member,
}

impl Head {
    /// A program of which nothing but its name is read.
    pub(crate) fn new(alloc: Global, program: Prog) -> Head
        ensures { result ≡ started program }
    {
        Head {
            program,
            waiting: None,
            seen: LettersSeen::default(),
            ended: !reads_options(program),
            count: 0,
            marks: Member::new(alloc, reads_positionals(program)),
        }
    }

    /// What comes next is to the program, if it is its own, or what is wrong with it, where these members are in force.
    // Behind its first place, and where no option may follow and none is missing, none is looked for.
    #[inline(always)]
    pub(crate) fn judge(
        &self,
        scope: &TestScope,
        in_directives: bool,
        next: Next<'_>,
    ) -> Result<Option<Part>, PlacedFault>
        ensures { result ≡ head_judged (scope_told scope.now) self.now in_directives (next_told next.entry) }
    {
        if self.count == 0
            && (!self.ended || self.waiting.is_some() || needs_letter(self.program))
        {
            return self.judge_first(scope, in_directives, next);
        }
        let kind = self.next_kind();
        let fault = kind_fault(scope, self.program, in_directives, kind, next);
        verdict(fault, part_at(kind, next))
    }

    // Before its first place, where an option may stand, or one is missing.
    #[inline(never)]
    fn judge_first(
        &self,
        scope: &TestScope,
        in_directives: bool,
        next: Next<'_>,
    ) -> Result<Option<Part>, PlacedFault>
        ensures { result ≡ first_judged (scope_told scope.now) self.now self.now.waiting in_directives (next_told next.entry) }
    {
        if let Some(letter) = self.waiting {
            return verdict(value_fault(self.program, letter, next), Some(Part::Value));
        }
        if let Some(judged) = judge_option(self.program, self.ended, next) {
            return Ok(Some(judged?));
        }
        let kind = self.next_kind();
        let lacks_letter = needs_letter(self.program) && !self.seen.any;
        let missing = lacks_letter.then_some(PlacedFault::Before(Fault::BadOption));
        let place = kind_fault(scope, self.program, in_directives, kind, next);
        let found = or_else(place, unended_fault(self.program, self.ended, next));
        verdict(or_else(missing, found), part_at(kind, next))
    }

    // What must stand at the next place, if any.
    fn next_kind(&self) -> Option<PlaceKind>
        ensures { result ≡ first_kind (left self.now) }
    {
        places_of(self.program).get(self.count).copied()
    }

    /// Reads a word, which is this to it.
    pub(crate) fn take(&mut self, part: Part, word: &Word) -> Result<(), NoMemory>
        ensures { OnOk result (self.new ≡ taken self.old part word.now) }
    {
        match part {
            Part::Value => self.waiting = None,
            Part::Option { seen, ended } => {
                self.seen = self.seen.and(seen);
                self.ended = ended;
            }
            Part::Waiting { seen, letter } => {
                self.seen = self.seen.and(seen);
                self.waiting = Some(letter);
            }
            Part::Place => {
                // At the first place it is the key that some programs mark.
                if self.count == 0 {
                    if let Some(mark) = first_mark(self.program, self.seen) {
                        self.marks.mark(word.copy()?, mark)?;
                    }
                }
                self.place_read();
            }
            Part::Block(_) => {}
        }
        Ok(())
    }

    /// Something stands at the next place.
    pub(crate) fn place_read(&mut self)
        ensures { self.new ≡ placed self.old }
    {
        if self.count < places_of(self.program).len() {
            self.count += 1;
        }
    }

    /// Takes out what it marks, where it is whole.
    pub(crate) fn take_marks(&mut self, alloc: Global) -> Member
        ensures marks { result ≡ self.old.marks }
        ensures program { self.new.program ≡ self.old.program }
    {
        mem::replace(&mut self.marks, Member::new(alloc, false))
    }
}

// What comes next at such a place is to the program; None behind the last one, and of what isn't its own.
#[inline(always)]
fn part_at(kind: Option<PlaceKind>, next: Next<'_>) -> Option<Part>
    ensures { result ≡ part_at kind (next_told next.entry) }
{
    let kind = kind?;
    match (kind, next) {
        (PlaceKind::OptionalNumber, Next::Text(text)) if !is_number_text(text) => None,
        (_, Next::Text(_)) => Some(Part::Place),
        (
            PlaceKind::ProgramBlock
            | PlaceKind::ValueBlock
            | PlaceKind::NameBlock
            | PlaceKind::DirectiveBlock,
            Next::Group,
        ) => Some(Part::Block(kind)),
        _ => None,
    }
}
