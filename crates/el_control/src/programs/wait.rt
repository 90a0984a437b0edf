//! wait { numbers } prog..
#![tactic(auto, using(el_front::proofs::Rooms::rooms), unfolding(el_front::specs::Steps::acting, crate::specs::Wait::wait))]

ghost use Rattle.el_room.specs.Vocabulary.{are_usable, Follows, state_of, left_of, read_of, Acts};
ghost use Rattle.std.specs.Prelude.{◌≡◌, ◌<◌, true, length, IfOk};
ghost use Rattle.el_control.specs.Wait.{waiting_one, waiting, are_numbers, waited_numbers, wait};

use el_proc::Kids;
use el_room::{
    Finish, Front, NoMemory, Nth, Proc, Prog, Subject, Trouble, Words, World, call, parse_u64,
    refused,
};
use std::alloc::Global;

/// Waits for the children whose numbers the words write, in the order of the words, or for all in order of
/// start where there are no words. Each leaves the children before it is waited for. A number of no child is
/// passed over. Then the process goes on with the rest.
///
/// The process ends with 100 where a word is no number, before anything is waited for, and with 111 where a
/// wait fails, each behind a message.
///
/// The rule is execline's (https://skarnet.org/software/execline/wait.html), without its options; that the
/// block must be there is this project's own.
pub fn wait<W: World>(
    alloc: Global,
    front: Front,
    proc: &mut Proc,
    world: &mut W,
) -> Result<(), Finish>
    requires { are_usable (W.seen world.old).held proc.old.fds ≡ true }
    ensures { Acts (W.seen world.old) (W.seen world.new) wait (read_of front) proc.old proc.new result }
{
    let words = front.block(alloc, Nth::First)?;
    if !are_numbers(&words) {
        let subject = no_number(&words);
        return Err(refused(
            alloc,
            &proc.fds,
            Prog::Wait,
            Trouble::BadNumber,
            subject,
            world,
        ));
    }
    let numbers = waited_numbers(alloc, &words, &proc.kids)?;
    wait_for_all(alloc, &numbers, proc, world)?;
    proc.words = front.into_rest();
    Ok(())
}

// The first word that is no number.
fn no_number(words: &Words) -> Option<Subject<'_>> {
    for word in words {
        if parse_u64(word).is_none() {
            let subject = Subject::of(b"process", word);
            return Some(subject.with_note(b"a number is wanted, as $! gives it"));
        }
    }
    None
}

fn are_numbers(words: &Words) -> bool
    ensures { result ≡ are_numbers words.now }
{
    words.iter().all(|word| parse_u64(word).is_some())
}

// The numbers that the words write, or those of all children where there are no words.
fn waited_numbers(alloc: Global, words: &Words, kids: &Kids) -> Result<Vec<u64>, NoMemory>
    ensures { IfOk result (λ numbers. numbers.items ≡ waited_numbers words.now kids.now) }
{
    if words.is_empty() {
        return kids.numbers(alloc);
    }
    Ok(
        words
            .iter()
            .filter_map(|word| parse_u64(word))
            .collect(alloc)?,
    )
}

// Waits for the children of these numbers, in turn.
#[tactic(auto, using(el_world::proofs::Follows::stops))]
fn wait_for_all<W: World>(
    alloc: Global,
    numbers: &[u64],
    proc: &mut Proc,
    world: &mut W,
) -> Result<(), Finish>
    requires { are_usable (W.seen world.old).held proc.old.fds ≡ true }
    ensures run { Follows (W.seen world.old) (W.seen world.new) (waiting numbers.now (state_of proc.old)) proc.old.budget result (λ _. state_of proc.new) (state_of proc.new) proc.new.budget }
    ensures usable { are_usable (W.seen world.new).held proc.new.fds ≡ true }
{
    for place in 0..numbers.len() {
        wait_for(alloc, numbers[place], proc, world)?;
    }
    Ok(())
}

// The child of this number leaves the children and is waited for; a number of none is passed over.
#[tactic(auto, using(el_front::proofs::Rooms::rooms), unfolding(crate::specs::Wait::waiting_one))]
fn wait_for<W: World>(
    alloc: Global,
    number: u64,
    proc: &mut Proc,
    world: &mut W,
) -> Result<(), Finish>
    requires { are_usable (W.seen world.old).held proc.old.fds ≡ true }
    ensures run { Follows (W.seen world.old) (W.seen world.new) (waiting_one number (state_of proc.old)) proc.old.budget result (λ _. state_of proc.new) (state_of proc.new) proc.new.budget }
    ensures usable { are_usable (W.seen world.new).held proc.new.fds ≡ true }
{
    let Some(kid) = proc.kids.take(number) else {
        return Ok(());
    };
    match call::wait(kid, world)? {
        Ok(_) => Ok(()),
        Err(_) => Err(refused(alloc, &proc.fds, Prog::Wait, Trouble::Failed, None, world)),
    }
}
