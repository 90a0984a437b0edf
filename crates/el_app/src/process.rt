//! Processes at their start.
ghost use Rattle.std.specs.Prelude.{◌≡◌};
ghost use Rattle.el_proc.specs.Processes.{state_of};
ghost use Rattle.el_app.specs.First.{first_state};

use el_env::Env;
use el_proc::{Fds, Kids, Proc};
use el_words::{Word, Words};
use std::alloc::Global;

/// A process at its start: it has no words yet.
pub(crate) fn first_process(alloc: Global, env: Env, dir: Word, budget: u64) -> Proc
    ensures state { state_of result ≡ first_state env dir }
    ensures budget { result.budget ≡ budget }
{
    Proc {
        words: Words::new(alloc),
        env,
        fds: Fds::standard(),
        dir,
        kids: Kids::new(alloc),
        budget,
    }
}
