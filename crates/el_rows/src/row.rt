//! What a row of the table says.

use el_app::Finish;
use el_env::Env;
use el_words::{NoMemory, Word, Words};
use el_world::Answer;
use std::alloc::Global;

/// A row, under the name by which it is reported.
#[derive(Drop)]
pub struct Row {
    pub name: String,
    pub run: Run,
}

/// A run of the top call over a scripted World, and what must come of it.
#[derive(Drop)]
pub struct Run {
    pub words: Words,
    pub env: Env,
    pub dir: Word,
    pub budget: u64,
    /// What the World answers; behind the last it answers plainly.
    pub answers: Vec<Answer>,
    /// The number of the World's call that fails, counted from 1 among those that aren't closes.
    pub fuse: Option<u64>,
    pub log: ExpectedLog,
    /// Each row has an end: none differs from every end that comes.
    pub end: Option<Finish>,
    /// How many units the run takes, where it isn't spent.
    pub units: Option<u64>,
    /// How many calls fail.
    pub faults: Option<u64>,
}

/// The events that must come, each in the notation of `EventText` less what the row leaves open.
#[derive(Drop)]
pub struct ExpectedLog {
    pub events: Vec<String>,
    /// Whether other events may come before these.
    pub is_tail: bool,
    /// How many events must come of some kinds. Where any are counted, the others aren't compared.
    pub counts: Vec<Count>,
}

/// So many events fit a line, in the notation of `EventText` less what the row leaves open.
#[derive(Drop)]
pub struct Count {
    pub events: usize,
    pub line: String,
}

impl Run {
    /// A run without words, variables, answers and events, in `/`, with the greatest budget.
    pub fn new(alloc: Global) -> Result<Run, NoMemory> {
        Ok(Run {
            words: Words::new(alloc),
            env: Env::new(alloc),
            dir: Word::of(alloc, b"/")?,
            budget: u64::MAX,
            answers: Vec::new(alloc),
            fuse: None,
            log: ExpectedLog {
                events: Vec::new(alloc),
                is_tail: false,
                counts: Vec::new(alloc),
            },
            end: None,
            units: None,
            faults: None,
        })
    }
}
