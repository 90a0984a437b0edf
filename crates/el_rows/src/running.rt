//! Runs a row.

use crate::row::Run;
use el_app::{Finish, execline};
use el_words::{Bytes, NoMemory};
use el_world::{Answer, Answers, Event, Fuse, Log, Scripted};
use std::alloc::Global;

/// What came of a run.
#[derive(Drop)]
pub struct Outcome {
    world: Fuse<Scripted>,
    pub finish: Finish,
    // How many events come before the failed call's, where one was made to fail.
    place: usize,
}

/// The events of a run in their order.
#[derive(Clone, Copy)]
pub struct Events<'a> {
    passed_on: &'a Log,
    failed: Option<&'a Event>,
    place: usize,
}

/// Runs the top call as `run` says, with this budget.
pub fn outcome_of(alloc: Global, run: &Run, budget: u64) -> Result<Outcome, NoMemory> {
    outcome_over(alloc, run, budget, 0, 0)
}

/// How that run ends.
pub fn finish_of(alloc: Global, run: &Run, budget: u64) -> Result<Finish, NoMemory> {
    Ok(outcome_of(alloc, run, budget)?.finish)
}

/// What comes of the run where the `k`-th call that isn't a close fails, whose event comes behind so many.
pub fn failing_outcome_of(
    alloc: Global,
    run: &Run,
    k: u64,
    place: usize,
) -> Result<Outcome, NoMemory> {
    outcome_over(alloc, run, run.budget, k, place)
}

impl Outcome {
    pub fn events(&self) -> Events<'_> {
        Events {
            passed_on: self.world.inner().log(),
            failed: self.world.failed(),
            place: self.place,
        }
    }

    /// How many calls failed.
    pub fn faults(&self) -> u64 {
        let failed = u64::from(self.world.failed().is_some());
        self.world.inner().faults().saturating_add(failed)
    }
}

impl<'a> Events<'a> {
    pub fn len(self) -> usize {
        self.passed_on
            .len()
            .saturating_add(usize::from(self.failed.is_some()))
    }

    pub fn get(self, number: usize) -> Option<&'a Event> {
        match self.failed {
            Some(failed) if number == self.place => Some(failed),
            Some(_) if number > self.place => self.passed_on.get(number - 1),
            _ => self.passed_on.get(number),
        }
    }

    /// The event of the call that was made to fail.
    pub fn failed(self) -> Option<&'a Event> {
        self.failed
    }
}

fn outcome_over(
    alloc: Global,
    run: &Run,
    budget: u64,
    k: u64,
    place: usize,
) -> Result<Outcome, NoMemory> {
    let env = run.env.copy()?;
    let dir = run.dir.copy()?;
    let mut world = world_of(alloc, &run.answers, k)?;
    let finish = execline(alloc, &run.words, env, dir, &mut world, budget);
    Ok(Outcome {
        world,
        finish,
        place,
    })
}

// The World that answers so, and lets the `k`-th call fail.
fn world_of(alloc: Global, answers: &[Answer], k: u64) -> Result<Fuse<Scripted>, NoMemory> {
    let answers = copies_of(alloc, answers)?;
    Ok(Fuse::new(alloc, Scripted::new(alloc, answers)?, k))
}

fn copies_of(alloc: Global, answers: &[Answer]) -> Result<Answers, NoMemory> {
    let mut copies = Answers::new(alloc);
    for answer in answers {
        copies.push(copy_of(alloc, answer)?)?;
    }
    Ok(copies)
}

fn copy_of(alloc: Global, answer: &Answer) -> Result<Answer, NoMemory> {
    Ok(match answer {
        Answer::Plain => Answer::Plain,
        Answer::Fault => Answer::Fault,
        Answer::NotFound => Answer::NotFound,
        Answer::NotStartable => Answer::NotStartable,
        Answer::Ended(ended) => Answer::Ended(*ended),
        Answer::Piece(bytes) => Answer::Piece(Bytes::from_slice(alloc, bytes.as_bytes())?),
        Answer::Path(dir) => Answer::Path(dir.copy()?),
    })
}
