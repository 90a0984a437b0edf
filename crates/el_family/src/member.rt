//! The processes of a family, and how they ran.
use el_env::Env;
use el_words::{Word, Words};
use el_world::{Finish, Log};

/// A process of a family.
#[derive(Drop)]
pub struct Member {
    /// What it was handed.
    pub words: Words,
    pub env: Env,
    pub dir: Word,
    /// The start that it comes from; None for the first one.
    pub origin: Option<Origin>,
    /// How it ran; None until it has.
    pub ran: Option<Ran>,
}

/// The start that a process comes from.
#[derive(Clone, Copy)]
pub struct Origin {
    /// The number of the member that made it.
    pub member: usize,
    /// Its place in that member's log.
    pub event: usize,
}

/// How a process ran.
#[derive(Drop)]
pub struct Ran {
    pub budget: u64,
    pub log: Log,
    /// It isn't `NoMemory`.
    pub finish: Finish,
}
