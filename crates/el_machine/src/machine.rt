//! The run of a process, and one program of it.
ghost use Rattle.el_room.specs.Vocabulary.{Prog, Handle, are_usable, Follows, finished, Tells, state_of, left_of, entered, IsRefusal};
ghost use Rattle.std.specs.Prelude.{◌≡◌, ◌<◌, ◌≤◌, true, length, List, Some, None, Err, is_some};
ghost use Rattle.el_proc.specs.Processes.{way_of};
ghost use Rattle.el_machine.specs.Effects.{effect, takes_no_memory};
ghost use Rattle.el_machine.specs.Flat.{first_program, flat_step, flat_run};
ghost use Rattle.el_machine.specs.Exact.{HoldsExactly, HoldsBehind, HoldsAtEnd};
ghost use Rattle.el_machine.specs.Changes.{ChangesBehind};
ghost use Rattle.el_machine.specs.Causes.{NoneFailed, EndsWith111, HasCause, HasCauseUnlessFailed, RunCause, HasCauseOf111};

use crate::command::run_last;
use crate::dispatch::act;
use el_front::read_front;
use el_proc::{Next, next_of, take_words};
use el_room::{Finish, Proc, Prog, World, first_word, take_unit};
use el_words::name_of;
use std::alloc::Global;

/// The run of a process: program after program, until the words are over (status 0), a program ends
/// it, or the last command has ended. Each program takes a unit before it is entered, and so does the
/// last command before its start; where none is left the answer is `Spent`.
///
/// Each handle of the process must be 0, 1, 2 or held by the world. After `NoMemory` the calls made are
/// a prefix of those due, and the process may have changed. Where the world holds exactly a base, which no
/// number holds, and its handles at numbers, it does so too at an end with a status. A run that ends with 111
/// though none of its calls failed comes to a program that was given this code or waited for a process that ended
/// with it, to one that must find a handle at a number that holds none, or to the last command, whose status that is.
///
/// That each program leaves its rest to be run is execline's rule (https://skarnet.org/software/execline/); the
/// units, and that the last command is waited for, are this project's own.
pub fn run<W: World>(alloc: Global, proc: &mut Proc, world: &mut W) -> Finish
    requires { are_usable (W.seen world.old).held proc.old.fds ≡ true }
    ensures run { Follows {A = ⊥} {B = ⊥} (W.seen world.old) (W.seen world.new) (flat_run proc.old.words (state_of proc.old)) proc.old.budget (Err result) (λ never. never) (state_of proc.new) proc.new.budget }
    ensures told { Tells (W.seen world.old) (W.seen world.new) (flat_run proc.old.words (state_of proc.old)) proc.old.budget (finished result (state_of proc.new)) }
    ensures usable { are_usable (W.seen world.new).held proc.new.fds ≡ true }
    ensures exact { (base : List Handle) → HoldsExactly base (W.seen world.old).held proc.old.fds → HoldsAtEnd result base (W.seen world.new).held proc.new.fds }
    ensures calls { result ≡ Finish.Status 111 → HasCauseUnlessFailed (W.seen world.old) (W.seen world.new) (RunCause proc.old.words (state_of proc.old) proc.old.budget) }
    ensures cause { result ≡ Finish.Status 111 → NoneFailed (W.seen world.old) (W.seen world.new) → HasCauseOf111 (W.seen world.old) (W.seen world.new) proc.old.words (state_of proc.old) proc.old.budget }
{
    let units = proc.budget;
    run_with(alloc, units, proc, world)
}

// The run of a process with so many units.
fn run_with<W: World>(alloc: Global, units: u64, proc: &mut Proc, world: &mut W) -> Finish
    requires units { units ≡ proc.old.budget }
    requires usable { are_usable (W.seen world.old).held proc.old.fds ≡ true }
    ensures run { Follows {A = ⊥} {B = ⊥} (W.seen world.old) (W.seen world.new) (flat_run proc.old.words (state_of proc.old)) proc.old.budget (Err result) (λ never. never) (state_of proc.new) proc.new.budget }
    ensures usable { are_usable (W.seen world.new).held proc.new.fds ≡ true }
{
    'programs: while !proc.words.is_empty() {
        match name_of(first_word(&proc.words)) {
            Some(program) => match step_as(alloc, program, proc, world) {
                Ok(()) => {}
                Err(finish) => return finish,
            },
            None => return run_last(alloc, proc, world),
        }
    }
    Finish::Status(0)
}

/// Takes a unit, and does the program that the first word names; `Spent` exactly where no unit is left.
/// On `Go` the words that it read are gone.
///
/// The first word must name a program, and each handle of the process be 0, 1, 2 or held. Where the world
/// holds exactly a base, which no number holds, and its handles at numbers, it does so too behind a program
/// that goes on or ends. Behind one that goes on the state is as it was, but for what this program may change
/// (`MayChange`), and the units haven't grown. One that ends with 111 though none of its calls failed was given this
/// code (`if`, exit), waited for a process that ended with it (backtick, the loops), or must find a handle at a number
/// that holds none. exit, fdmove, fdclose and fdswap take memory only for the
/// message of a refusal, and only where number 2 holds a handle.
///
/// The programs' rules are execline's (https://skarnet.org/software/execline/), as the comment of each one says;
/// the units are this project's own.
pub fn step<W: World>(alloc: Global, proc: &mut Proc, world: &mut W) -> Next
    requires named { is_some (first_program proc.old.words) ≡ true }
    requires usable { are_usable (W.seen world.old).held proc.old.fds ≡ true }
    ensures run { (program : Prog) → first_program proc.old.words ≡ Some program → Follows (W.seen world.old) (W.seen world.new) (flat_step program proc.old.words (state_of proc.old)) proc.old.budget (way_of result) (λ _. left_of proc.new) (state_of proc.new) proc.new.budget }
    ensures usable { are_usable (W.seen world.new).held proc.new.fds ≡ true }
    ensures exact { (base : List Handle) → HoldsExactly base (W.seen world.old).held proc.old.fds → HoldsBehind result base (W.seen world.new).held proc.new.fds }
    ensures changes { (program : Prog) → first_program proc.old.words ≡ Some program → ChangesBehind result program (state_of proc.old) (state_of proc.new) }
    ensures calls { (program : Prog) → first_program proc.old.words ≡ Some program → result ≡ Next.End 111 → HasCauseUnlessFailed (W.seen world.old) (W.seen world.new) (EndsWith111 program proc.old.words (state_of proc.old)) }
    ensures cause { (program : Prog) → first_program proc.old.words ≡ Some program → result ≡ Next.End 111 → NoneFailed (W.seen world.old) (W.seen world.new) → HasCause (W.seen world.old) (W.seen world.new) (EndsWith111 program proc.old.words (state_of proc.old)) }
    ensures fewer { result ≡ Next.Go → proc.new.budget ≤ proc.old.budget }
    ensures memory { (program : Prog) → first_program proc.old.words ≡ Some program → takes_no_memory program ≡ true → result ≡ Next.NoMemory → IsRefusal program (state_of proc.old) (entered (effect program) program proc.old.words (state_of proc.old)) }
{
    match name_of(first_word(&proc.words)) {
        Some(program) => next_of(step_as(alloc, program, proc, world)),
        None => Next::Go,
    }
}

// Takes a unit, and does this program.
#[tactic(auto, using(el_world::proofs::Follows::stops), unfolding(crate::specs::Flat::flat_step))]
fn step_as<W: World>(
    alloc: Global,
    program: Prog,
    proc: &mut Proc,
    world: &mut W,
) -> Result<(), Finish>
    requires named { 0 < length proc.old.words }
    requires usable { are_usable (W.seen world.old).held proc.old.fds ≡ true }
    ensures run { Follows (W.seen world.old) (W.seen world.new) (flat_step program proc.old.words (state_of proc.old)) proc.old.budget result (λ _. left_of proc.new) (state_of proc.new) proc.new.budget }
    ensures usable { are_usable (W.seen world.new).held proc.new.fds ≡ true }
    ensures memory { takes_no_memory program ≡ true → result ≡ Err Finish.NoMemory → IsRefusal program (state_of proc.old) (entered (effect program) program proc.old.words (state_of proc.old)) }
{
    if !take_unit(proc) {
        return Err(Finish::Spent);
    }
    enter(alloc, program, proc, world)
}

// Reads the front of the program, whose name is the first word, and does it.
fn enter<W: World>(
    alloc: Global,
    program: Prog,
    proc: &mut Proc,
    world: &mut W,
) -> Result<(), Finish>
    requires named { 0 < length proc.old.words }
    requires usable { are_usable (W.seen world.old).held proc.old.fds ≡ true }
    ensures run { Follows (W.seen world.old) (W.seen world.new) (entered (effect program) program proc.old.words (state_of proc.old)) proc.old.budget result (λ _. left_of proc.new) (state_of proc.new) proc.new.budget }
    ensures usable { are_usable (W.seen world.new).held proc.new.fds ≡ true }
    ensures memory { takes_no_memory program ≡ true → result ≡ Err Finish.NoMemory → IsRefusal program (state_of proc.old) (entered (effect program) program proc.old.words (state_of proc.old)) }
{
    let words = take_words(alloc, &mut proc.words);
    let front = read_front(alloc, words, proc, program, world)?;
    act(alloc, program, front, proc, world)
}
