//! One process runs by itself, in memory.
ghost use Rattle.std.specs.Prelude.{◌≡◌, IfOk};
ghost use Rattle.el_family.specs.Processes.{process_of, run_of};
ghost use Rattle.el_family.specs.Courses.{run_with, has_ended, IsRunOf};

use crate::member::{Member, Ran};
use el_app::execline;
use el_words::NoMemory;
use el_world::{Answers, Finish, Scripted};
use std::alloc::Global;

/// How the top call runs what the member was handed, over a new world with these answers.
pub(crate) fn ran_with(
    alloc: Global,
    member: &Member,
    answers: Answers,
    budget: u64,
) -> Result<Ran, NoMemory>
    ensures run { IfOk result (λ ran. run_of ran ≡ run_with (process_of member.now) answers budget) }
    ensures right { IfOk result (λ ran. IsRunOf (process_of member.now) (run_of ran)) }
{
    let mut world = Scripted::new(alloc, answers)?;
    let finish = execline(
        alloc,
        &member.words,
        member.env.copy()?,
        member.dir.copy()?,
        &mut world,
        budget,
    );
    if !has_ended(finish) {
        return Err(NoMemory);
    }
    Ok(Ran {
        budget,
        log: world.into_log(),
        finish,
    })
}

// Whether a run came to an end.
fn has_ended(finish: Finish) -> bool
    ensures { result ≡ has_ended finish }
{
    !matches!(finish, Finish::NoMemory)
}
