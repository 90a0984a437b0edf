//! Families: a process, and those of this project that it and its children start, kept in memory.
ghost use Rattle.std.specs.Prelude.{◌≡◌, ◌≤◌, ◌<◌, ◌+◌, ◌++◌, ◌⊎◌, [], ◌∷◌, length, slice_get, IfOk, IfErr, OnOk, OnErr, IsErrOf, Some, None, Err, option_map, List};
ghost use Rattle.std.specs.Option.{option_copied};
ghost use Rattle.el_world.specs.declared.answer.Answer.{Answer};
ghost use Rattle.el_family.specs.Processes.{new_process, process_of, processes_of, run_of};
ghost use Rattle.el_family.specs.Agreement.{agrees, child_agrees, child_told, events_of_process, events_in_log};
ghost use Rattle.el_family.specs.Families.{with_run, after_run, unready, refusal, AllRanRight};

use crate::agreement::{all_fit, started_by};
use crate::children::children_of;
use crate::member::{Member, Origin, Ran};
use crate::run::ran_with;
use el_env::Env;
use el_real::status_of;
use el_words::{NoMemory, Word, Words};
use el_world::{Answers, Log};
use std::alloc::{AllocError, Global};
use std::marker::Model;

/// Why a process wasn't run.
#[derive(Clone, Copy, Debug, PartialEq, Eq)]
pub enum FamilyFault {
    /// There is no member with this number.
    NoMember,
    /// It has run.
    AlreadyRun,
    /// With its children there would be more than `MAX_MEMBERS`.
    Full,
    /// There was no memory for it.
    NoMemory,
}

impl From<NoMemory> for FamilyFault {
    ghost use Rattle.el_family.specs.declared.family.FamilyFault.TheVariants.{NoMemory as no_memory};

    ghost from_gives = { λ _ fault. fault ≡ no_memory };

    fn from(_: NoMemory) -> Self {
        FamilyFault::NoMemory
    }
}

impl From<AllocError> for FamilyFault {
    ghost use Rattle.el_family.specs.declared.family.FamilyFault.TheVariants.{NoMemory as no_memory};

    ghost from_gives = { λ _ fault. fault ≡ no_memory };

    fn from(_: AllocError) -> Self {
        FamilyFault::NoMemory
    }
}

/// The most members of a family.
pub const MAX_MEMBERS: usize = 10_000;

/// A process, and those of this project that it and its children start. A contract sees the list of its processes.
#[derive(Drop)]
pub struct Family {
    alloc: Global,
    members: Vec<Member>,
}

impl Model for Family {
    ghost use Rattle.std.specs.Prelude.{List};
    ghost use Rattle.std.specs.Coded.{codes};
    ghost use Rattle.el_family.specs.contracts.member.Member as member;
    ghost use Rattle.el_world.specs.contracts.event.Event as event;
    ghost use Rattle.el_env.specs.Vars.{vars_code};
    ghost use Rattle.el_family.specs.Processes.{Process, processes_of};
    ghost use Rattle.el_family.specs.Agreement.{agrees, child_agrees, child_told, events_of_process, events_in_log};
    ghost use Rattle.el_family.specs.Families.{IsFamily};

    ghost Value = { List Process };

    ghost coded = { Prim.hlevel (codes, member.the_row.coded, event.the_row.coded, vars_code) };

    ghost view = { λ f. processes_of f.members.items };

    ghost invariant = { λ f. IsFamily (processes_of f.members.items) };
}

impl Family {
    /// A family of one process, member 0, which hasn't run.
    pub fn new(alloc: Global, words: Words, env: Env, dir: Word) -> Result<Family, NoMemory>
        ensures { IfOk result (λ family. family ≡ new_process words env dir None ∷ []) }
    {
        let mut members = Vec::new(alloc);
        members.push(Member {
            words,
            env,
            dir,
            origin: None,
            ran: None,
        })?;
        Ok(Family { alloc, members })
    }

    /// How many members there are.
    pub fn len(&self) -> usize
        ensures { result ≡ length self.now }
    {
        self.members.len()
    }

    /// The member with this number, or None exactly where the number is at least the length.
    pub fn member(&self, place: usize) -> Option<&Member>
        ensures { option_map process_of (option_copied result) ≡ slice_get self.now place }
    {
        self.members.get(place)
    }

    /// Every member that has run did what the top call does with what it was handed, whatever the order in which
    /// they ran: a law, which does nothing.
    pub fn each_ran_right(&self)
        ensures { AllRanRight self.now }
    {
        let _ = &self.alloc;
    }

    /// Runs the member with this number by the top call with this budget, over a new world in memory with these
    /// answers; keeps how it ran; and puts its children last, in the order of their starts.
    ///
    /// A family that isn't run stays as it is. NoMember exactly where the number is at least the length; then
    /// AlreadyRun exactly where the member has run; then Full exactly where there would be more than `MAX_MEMBERS`
    /// members. NoMemory where there is no memory for it, also where the top call answers so.
    pub fn run_member(
        &mut self,
        place: usize,
        answers: Answers,
        budget: u64,
    ) -> Result<(), FamilyFault>
        ensures ok { OnOk result (self.new ≡ after_run self.old place answers budget) }
        ensures due { OnOk result (refusal self.old place answers budget ≡ None) }
        ensures err { OnErr result (self.new ≡ self.old) }
        ensures refused { IfErr result (λ fault. (fault ≡ FamilyFault.NoMemory) ⊎ (refusal self.old place answers budget ≡ Some fault)) }
        ensures first { (fault : FamilyFault) → unready (slice_get self.old place) ≡ Some fault → result ≡ Err fault }
        ensures right { AllRanRight self.new }
    {
        let member = self.to_run(place)?;
        let ran = ran_with(self.alloc, member, answers, budget)?;
        let children = children_of(self.alloc, place, &ran.log)?;
        settle(place, ran, children, &mut self.members)
    }

    /// Whether each wait of a member for a child that has run was answered Exited(s), where s is the child's status, or
    /// 109 where its budget was spent. It takes no memory.
    pub fn agrees(&self) -> bool
        ensures { result ≡ agrees self.now }
    {
        for number in 0..self.len() {
            let Some(child) = self.member(number) else {
                unreachable!();
            };
            if !self.child_agrees(child) {
                return false;
            }
        }
        true
    }

    // Whether the parent was told how this child ended.
    fn child_agrees(&self, child: &Member) -> bool
        ensures { result ≡ child_agrees self.now child.now.origin (option_map run_of child.now.ran) }
    {
        match (child.origin, &child.ran) {
            (Some(origin), Some(ran)) => self.told_of(origin, status_of(ran.finish)),
            _ => true,
        }
    }

    // Whether each wait for the process that was started there was answered with this status.
    fn told_of(&self, origin: Origin, code: u8) -> bool
        ensures { result ≡ child_told (events_of_process (slice_get self.now origin.member)) origin.event code }
    {
        match self.log_of(origin.member) {
            Some(log) => all_fit(started_by(log.get(origin.event)), code, log),
            None => true,
        }
    }

    // The log of a member that has run.
    fn log_of(&self, number: usize) -> Option<&Log>
        ensures { events_in_log (option_copied result) ≡ events_of_process (slice_get self.now number) }
    {
        match &self.member(number)?.ran {
            Some(ran) => Some(&ran.log),
            None => None,
        }
    }

    // The member with this number, which hasn't run.
    fn to_run(&self, place: usize) -> Result<&Member, FamilyFault>
        ensures there { IfOk result (λ member. slice_get self.now place ≡ Some (process_of member.now)) }
        ensures ready { OnOk result (unready (slice_get self.now place) ≡ None) }
        ensures unready { IfErr result (λ fault. unready (slice_get self.now place) ≡ Some fault) }
    {
        let member = self.member(place).ok_or(FamilyFault::NoMember)?;
        match &member.ran {
            None => Ok(member),
            Some(_) => Err(FamilyFault::AlreadyRun),
        }
    }
}

// Keeps how a member ran, and puts its children last.
fn settle(
    place: usize,
    ran: Ran,
    mut children: Vec<Member>,
    members: &mut Vec<Member>,
) -> Result<(), FamilyFault>
    requires place { place < length members.old.items }
    requires within { length members.old.items ≤ MAX_MEMBERS }
    ensures ok { OnOk result (processes_of members.new.items ≡ with_run place (run_of ran) (processes_of members.old.items) ++ processes_of children.items) }
    ensures fits { OnOk result (length members.old.items + length children.items ≤ MAX_MEMBERS) }
    ensures err { OnErr result (members.new.items ≡ members.old.items) }
    ensures full { IsErrOf result FamilyFault.Full → MAX_MEMBERS < length members.old.items + length children.items }
    ensures only { IfErr result (λ fault. (fault ≡ FamilyFault.Full) ⊎ (fault ≡ FamilyFault.NoMemory)) }
{
    if children.len() > MAX_MEMBERS - members.len() {
        return Err(FamilyFault::Full);
    }
    members.append(&mut children)?;
    members[place].ran = Some(ran);
    Ok(())
}
