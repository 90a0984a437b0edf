//! The turns of a loop over values.
#![tactic(auto, using(el_front::proofs::Rooms::rooms))]

ghost use Rattle.el_room.specs.Vocabulary.{HasNul, are_usable, Follows, state_of, read_of, onward};
ghost use Rattle.std.specs.Prelude.{◌≡◌, ◌++◌, ◌∷◌, [], true, Err, IfOk, OnOk, IsTrue, None};
ghost use Rattle.el_pipes.specs.Putting.{names_well};
ghost use Rattle.el_loops.specs.Turns.{needing_words, begun, turn_words, started, turn_code, after_started, turn, turns, first_ending, loop_end};
ghost use Rattle.el_loops.specs.Loops.{looping_of, CanTurn, MayTurn, BreaksOff, env_for_turns, vars_set};

use crate::codes::{is_ending, or_first};
use crate::turn::Turn;
use el_pipes::{badly_named, names_well, puts_values, value_pairs};
use el_room::{
    Env, Fault, Finish, Front, Handle, NoMemory, Nth, Proc, Prog, Trouble, Word, Words, World,
    call, close_lost, code_of, nul_in, refused, start_child, take_unit, tell_unstarted,
};
use el_subst::apply;
use std::alloc::Global;

/// What stays the same in the turns of a loop.
#[derive(Clone, Copy)]
pub(crate) struct Loop<'a> {
    pub program: Prog,
    pub front: &'a Front,
    /// The words of each turn.
    pub rest: &'a Words,
    /// What a turn finds at its numbers 0 to 2.
    pub streams: [Option<Handle>; 3],
    /// What its values are read from, where they are.
    pub input: Option<Handle>,
    /// The reader that the loop holds at no number.
    pub reader: Option<Handle>,
}

/// What changes from turn to turn.
#[derive(Drop)]
pub(crate) struct Turns {
    /// A copy of the process's variables, in which each turn sets the loop's own. With `-E` it isn't in them.
    pub env: Env,
    /// The turns that weren't waited for, in order of start.
    pub made: Vec<Turn>,
}

impl Turns {
    /// No turn was made yet.
    pub(crate) fn new(alloc: Global, front: &Front, env: &Env) -> Result<Turns, NoMemory>
        ensures env { IfOk result (λ turns. turns.env ≡ env_for_turns (read_of front.now) env.now) }
        ensures made { IfOk result (λ turns. turns.made.items ≡ []) }
    {
        Ok(Turns {
            env: env_for_turns(front, env)?,
            made: Vec::new(alloc),
        })
    }
}

// A copy of the variables; with `-E` without the loop's own.
fn env_for_turns(front: &Front, env: &Env) -> Result<Env, NoMemory>
    ensures { IfOk result (λ made. made ≡ env_for_turns (read_of front.now) env.now) }
{
    let mut copy = env.copy()?;
    if puts_values(front) {
        copy.unset(front.text(Nth::First));
    }
    Ok(copy)
}

/// Refuses a loop without a rest, and one with a name that no variable, or with `-E` no reference, can have.
#[tactic(auto, using(el_front::proofs::Rooms::rooms), unfolding(crate::specs::Turns::begun))]
pub(crate) fn begin<W: World>(
    alloc: Global,
    each: &Loop<'_>,
    proc: &Proc,
    world: &mut W,
) -> Result<(), Finish>
    requires { are_usable (W.seen world.old).held proc.now.fds ≡ true }
    ensures run { Follows (W.seen world.old) (W.seen world.new) (begun each.now.program (looping_of each.now (state_of proc.now)).read (state_of proc.now)) proc.now.budget result (λ done. done) (state_of proc.now) proc.now.budget }
    ensures usable { are_usable (W.seen world.new).held proc.now.fds ≡ true }
    ensures good { IfOk result (λ _. IsTrue (names_well (read_of each.now.front.now))) }
{
    need_words(alloc, proc, each.program, each.rest, world)?;
    if !names_well(each.front) {
        let subject = badly_named(each.front);
        return Err(refused(
            alloc,
            &proc.fds,
            each.program,
            Trouble::BadName,
            Some(subject),
            world,
        ));
    }
    Ok(())
}

/// Refuses a loop whose turns have no words.
pub(crate) fn need_words<W: World>(
    alloc: Global,
    proc: &Proc,
    program: Prog,
    words: &Words,
    world: &mut W,
) -> Result<(), Finish>
    requires { are_usable (W.seen world.old).held proc.now.fds ≡ true }
    ensures run { Follows (W.seen world.old) (W.seen world.new) (needing_words program words.now (state_of proc.now)) proc.now.budget result (λ done. done) (state_of proc.now) proc.now.budget }
    ensures usable { are_usable (W.seen world.new).held proc.now.fds ≡ true }
{
    if words.is_empty() {
        return Err(refused(alloc, &proc.fds, program, Trouble::Missing, None, world));
    }
    Ok(())
}

/// Makes a turn for each value. Where one ends the loop the process ends with its code.
#[tactic(auto)]
pub(crate) fn make_turns<W: World>(
    alloc: Global,
    each: &Loop<'_>,
    values: &Words,
    all: &mut Turns,
    proc: &mut Proc,
    world: &mut W,
) -> Result<(), Finish>
    requires { MayTurn (W.seen world.old).held each.now proc.old all.old.env }
    ensures run { Follows (W.seen world.old) (W.seen world.new) (turns (looping_of each.now (state_of proc.old)) all.old.made.items values.now) proc.old.budget result (λ _. all.new.made.items) (state_of proc.new) proc.new.budget }
    ensures state { state_of proc.new ≡ state_of proc.old }
    ensures more { IfOk result (λ _. MayTurn (W.seen world.new).held each.now proc.new all.new.env) }
    ensures usable { are_usable (W.seen world.new).held proc.new.fds ≡ true }
{
    for value in values {
        make_turn(alloc, each, value, all, proc, world)?;
    }
    Ok(())
}

/// Makes one turn, which takes a unit.
#[tactic(auto, using(el_front::proofs::Rooms::rooms), unfolding(crate::specs::Turns::turn))]
pub(crate) fn make_turn<W: World>(
    alloc: Global,
    each: &Loop<'_>,
    value: &[u8],
    all: &mut Turns,
    proc: &mut Proc,
    world: &mut W,
) -> Result<(), Finish>
    requires may { MayTurn (W.seen world.old).held each.now proc.old all.old.env }
    requires no_nul { HasNul value.now → ⊥ }
    ensures run { Follows (W.seen world.old) (W.seen world.new) (turn (looping_of each.now (state_of proc.old)) all.old.made.items value.now) proc.old.budget result (λ _. all.new.made.items) (state_of proc.new) proc.new.budget }
    ensures state { state_of proc.new ≡ state_of proc.old }
    ensures more { IfOk result (λ _. MayTurn (W.seen world.new).held each.now proc.new all.new.env) }
    ensures usable { are_usable (W.seen world.new).held proc.new.fds ≡ true }
{
    if !take_unit(proc) {
        return Err(Finish::Spent);
    }
    set_variable(alloc, each, value, &mut all.env)?;
    let turn = start_turn(alloc, each, value, &all.env, proc, world)?;
    settle(alloc, each, turn, &mut all.made, proc, world)
}

// The loop's variable takes a value; with `-E` no variable does.
#[tactic(auto)]
fn set_variable(alloc: Global, each: &Loop<'_>, value: &[u8], env: &mut Env) -> Result<(), NoMemory>
    requires good { IsTrue (names_well (read_of each.now.front.now)) }
    requires no_nul { HasNul value.now → ⊥ }
    ensures { OnOk result (env.new ≡ vars_set (read_of each.now.front.now) env.old value.now) }
{
    if puts_values(each.front) {
        return Ok(());
    }
    env.insert(each.front.text(Nth::First), Word::of(alloc, value)?)
}

// Starts the turn of a value with these variables.
#[tactic(auto, using(el_front::proofs::Rooms::rooms))]
fn start_turn<W: World>(
    alloc: Global,
    each: &Loop<'_>,
    value: &[u8],
    env: &Env,
    proc: &Proc,
    world: &mut W,
) -> Result<Turn, Finish>
    requires can { CanTurn (W.seen world.old).held proc.now.fds each.now }
    requires good { IsTrue (names_well (read_of each.now.front.now)) }
    requires no_nul { HasNul value.now → ⊥ }
    ensures run { Follows (W.seen world.old) (W.seen world.new) (started (looping_of each.now (state_of proc.now)) (turn_words (looping_of each.now (state_of proc.now)).read value.now) env.now) proc.now.budget result (λ turn. turn) (state_of proc.now) proc.now.budget }
    ensures more { IfOk result (λ _. CanTurn (W.seen world.new).held proc.now.fds each.now) }
    ensures usable { are_usable (W.seen world.new).held proc.now.fds ≡ true }
{
    if !puts_values(each.front) {
        return start(alloc, each, each.rest, env, proc, world);
    }
    let pairs = value_pairs(alloc, each.front, value)?;
    let words = apply(alloc, &pairs, each.rest)?;
    start(alloc, each, &words, env, proc, world)
}

// Starts a turn of these words with these variables. One that doesn't run is told of.
#[tactic(auto, using(el_front::proofs::Rooms::rooms, crate::proofs::Breaks::breaks), unfolding(crate::specs::Turns::started))]
fn start<W: World>(
    alloc: Global,
    each: &Loop<'_>,
    words: &Words,
    env: &Env,
    proc: &Proc,
    world: &mut W,
) -> Result<Turn, Finish>
    requires { CanTurn (W.seen world.old).held proc.now.fds each.now }
    ensures run { Follows (W.seen world.old) (W.seen world.new) (started (looping_of each.now (state_of proc.now)) words.now env.now) proc.now.budget result (λ turn. turn) (state_of proc.now) proc.now.budget }
    ensures more { IfOk result (λ _. CanTurn (W.seen world.new).held proc.now.fds each.now) }
    ensures usable { are_usable (W.seen world.new).held proc.now.fds ≡ true }
{
    let started = match start_child(words, env, &proc.dir, &each.streams, world) {
        Ok(started) => started,
        Err(Fault::Failed) => return Err(break_off(alloc, each, proc, Trouble::Failed, world)),
        Err(Fault::NoMemory) => return Err(Finish::NoMemory),
    };
    match started.pid() {
        Some(pid) => Ok(Turn::Pending(pid)),
        None => {
            let code = tell_unstarted(alloc, &proc.fds, words, started, world)?;
            Ok(Turn::Over(code))
        }
    }
}

// A turn that was started is waited for, or kept for the wait behind the last one.
#[tactic(auto, using(el_front::proofs::Rooms::rooms), unfolding(crate::specs::Turns::after_started, crate::specs::Turns::ending))]
fn settle<W: World>(
    alloc: Global,
    each: &Loop<'_>,
    turn: Turn,
    made: &mut Vec<Turn>,
    proc: &Proc,
    world: &mut W,
) -> Result<(), Finish>
    requires { CanTurn (W.seen world.old).held proc.now.fds each.now }
    ensures run { Follows (W.seen world.old) (W.seen world.new) (after_started (looping_of each.now (state_of proc.now)) made.old.items turn) proc.now.budget result (λ _. made.new.items) (state_of proc.now) proc.now.budget }
    ensures more { IfOk result (λ _. CanTurn (W.seen world.new).held proc.now.fds each.now) }
    ensures usable { are_usable (W.seen world.new).held proc.now.fds ≡ true }
{
    if each.front.has(b'p') {
        made.push(turn).map_err(|_| NoMemory)?;
        return Ok(());
    }
    let code = code_of_turn(alloc, each, turn, proc, world)?;
    if is_ending(each.front, code) {
        close_lost(&proc.fds, each.reader, world);
        return Err(Finish::Status(code));
    }
    Ok(())
}

/// Waits for the turns that weren't waited for. The process is to end with the first code that ends the loop,
/// or with 0.
#[tactic(auto, using(el_front::proofs::Rooms::rooms), unfolding(crate::specs::Turns::loop_end))]
pub(crate) fn end_loop<W: World>(
    alloc: Global,
    each: &Loop<'_>,
    made: &[Turn],
    proc: &Proc,
    world: &mut W,
) -> Finish
    requires { CanTurn (W.seen world.old).held proc.now.fds each.now }
    ensures run { Follows (W.seen world.old) (W.seen world.new) (loop_end (looping_of each.now (state_of proc.now)) made.now) proc.now.budget (Err result) (λ (_ : Unit {0}). onward (state_of proc.now)) (state_of proc.now) proc.now.budget }
    ensures usable { are_usable (W.seen world.new).held proc.now.fds ≡ true }
{
    match first_ending(alloc, each, made, proc, world) {
        Ok(found) => Finish::Status(found.unwrap_or(0)),
        Err(finish) => finish,
    }
}

// The first code among those of the turns that ends the loop.
#[tactic(auto)]
fn first_ending<W: World>(
    alloc: Global,
    each: &Loop<'_>,
    made: &[Turn],
    proc: &Proc,
    world: &mut W,
) -> Result<Option<u8>, Finish>
    requires { CanTurn (W.seen world.old).held proc.now.fds each.now }
    ensures run { Follows (W.seen world.old) (W.seen world.new) (first_ending (looping_of each.now (state_of proc.now)) None made.now) proc.now.budget result (λ found. found) (state_of proc.now) proc.now.budget }
    ensures usable { are_usable (W.seen world.new).held proc.now.fds ≡ true }
{
    let mut found = None;
    for place in 0..made.len() {
        let code = code_of_turn(alloc, each, made[place], proc, world)?;
        found = or_first(each.front, found, code);
    }
    Ok(found)
}

// The code of a turn, which is waited for where it may still run.
#[tactic(auto, using(el_front::proofs::Rooms::rooms, crate::proofs::Breaks::breaks), unfolding(crate::specs::Turns::turn_code))]
fn code_of_turn<W: World>(
    alloc: Global,
    each: &Loop<'_>,
    turn: Turn,
    proc: &Proc,
    world: &mut W,
) -> Result<u8, Finish>
    requires { CanTurn (W.seen world.old).held proc.now.fds each.now }
    ensures run { Follows (W.seen world.old) (W.seen world.new) (turn_code (looping_of each.now (state_of proc.now)) turn) proc.now.budget result (λ code. code) (state_of proc.now) proc.now.budget }
    ensures more { IfOk result (λ _. CanTurn (W.seen world.new).held proc.now.fds each.now) }
    ensures usable { are_usable (W.seen world.new).held proc.now.fds ≡ true }
{
    match turn {
        Turn::Over(code) => Ok(code),
        Turn::Pending(pid) => match call::wait(pid, world)? {
            Ok(ended) => Ok(code_of(ended)),
            Err(_) => Err(break_off(alloc, each, proc, Trouble::Failed, world)),
        },
    }
}

/// Ends a loop before its input: the reader is closed before the message.
#[tactic(auto)]
pub(crate) fn break_off<W: World>(
    alloc: Global,
    each: &Loop<'_>,
    proc: &Proc,
    trouble: Trouble,
    world: &mut W,
) -> Finish
    requires { CanTurn (W.seen world.old).held proc.now.fds each.now }
    ensures run { BreaksOff (W.seen world.old) (W.seen world.new) (looping_of each.now (state_of proc.now)) trouble result }
    ensures usable { are_usable (W.seen world.new).held proc.now.fds ≡ true }
{
    close_lost(&proc.fds, each.reader, world);
    let subject = match trouble {
        Trouble::NulInput => Some(nul_in(each.front.text(Nth::First))),
        _ => None,
    };
    refused(alloc, &proc.fds, each.program, trouble, subject, world)
}
