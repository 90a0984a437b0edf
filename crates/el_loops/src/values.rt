//! A turn for each value of an input.
#![tactic(auto, using(el_front::proofs::Rooms::rooms, crate::proofs::Breaks::breaks))]

ghost use Rattle.el_room.specs.Vocabulary.{are_usable, Follows, has_nul, before_nul, state_of, read_of};
ghost use Rattle.std.specs.Prelude.{◌≡◌, [], ◌∷◌, true, false, Some, IfOk};
ghost use Rattle.std.specs.FinSet as set;
ghost use Rattle.el_transform.specs.Splitter.{fed, values_of};
ghost use Rattle.el_loops.specs.Turns.{turns};
ghost use Rattle.el_loops.specs.Values.{delimiters_of, used, turns_over};
ghost use Rattle.el_loops.specs.Loops.{looping_of, CanTurn, MayTurn, listed};

use crate::turning::{Loop, Turns, break_off, make_turn, make_turns};
use el_proc::before_nul;
use el_room::{
    ByteSet, Finish, Front, Handle, Proc, Trouble, Word, World, call, has_nul, take_unit,
};
use el_transform::Splitter;
use std::alloc::Global;

/// Reads a handle to its end, with a unit before each read, and makes a turn for each value once its
/// delimiter was read, and at the end for the bytes that are left. No byte of a value that was used is kept.
/// A NUL ends the process with 100, and a read that fails with 111, behind a message.
#[tactic(auto)]
pub(crate) fn turns_over<W: World>(
    alloc: Global,
    each: &Loop<'_>,
    handle: Handle,
    all: &mut Turns,
    proc: &mut Proc,
    world: &mut W,
) -> Result<(), Finish>
    requires may { MayTurn (W.seen world.old).held each.now proc.old all.old.env }
    requires input { each.now.input ≡ Some handle }
    requires first { all.old.made.items ≡ [] }
    ensures run { Follows (W.seen world.old) (W.seen world.new) (turns_over (looping_of each.now (state_of proc.old)) handle) proc.old.budget result (λ _. all.new.made.items) (state_of proc.new) proc.new.budget }
    ensures state { state_of proc.new ≡ state_of proc.old }
    ensures can { IfOk result (λ _. CanTurn (W.seen world.new).held proc.new.fds each.now) }
    ensures usable { are_usable (W.seen world.new).held proc.new.fds ≡ true }
{
    // Named for its range alone: no budget has as many units as the bound on reads.
    let _units = proc.budget;
    let mut splitter = Splitter::new(alloc, each.front.has(b'C'), delimiters(each.front));
    'pieces: loop {
        if !take_unit(proc) {
            return Err(Finish::Spent);
        }
        match call::read(handle, world)? {
            Ok(piece) if piece.len() == 0 => {
                return use_last(alloc, each, splitter.finish(), all, proc, world);
            }
            Ok(piece) => use_piece(
                alloc,
                each,
                piece.as_bytes(),
                &mut splitter,
                all,
                proc,
                world,
            )?,
            Err(_) => return Err(break_off(alloc, each, proc, Trouble::Failed, world)),
        }
    }
}

// The delimiters of the values.
#[tactic(auto)]
fn delimiters(front: &Front) -> ByteSet
    ensures set { result ≡ set.from_list (delimiters_of (read_of front.now)) }
    ensures some { result ≡ set.empty → ⊥ }
{
    ByteSet::of(delimiter_bytes(front))
}

// The bytes that are given for them, or the usual ones.
#[tactic(auto)]
fn delimiter_bytes(front: &Front) -> &[u8]
    ensures same { result.now ≡ delimiters_of (read_of front.now) }
    ensures some { result.now ≡ [] → ⊥ }
{
    match front.value(b'd') {
        Some(bytes) if !bytes.is_empty() => bytes,
        _ => b" \n\r\t",
    }
}

// A turn for each value that ends in a piece, up to a NUL in it.
#[tactic(auto, using(el_front::proofs::Rooms::rooms, crate::proofs::Breaks::breaks), unfolding(crate::specs::Values::used))]
fn use_piece<W: World>(
    alloc: Global,
    each: &Loop<'_>,
    piece: &[u8],
    splitter: &mut Splitter,
    all: &mut Turns,
    proc: &mut Proc,
    world: &mut W,
) -> Result<(), Finish>
    requires { MayTurn (W.seen world.old).held each.now proc.old all.old.env }
    ensures run { Follows (W.seen world.old) (W.seen world.new) (used (looping_of each.now (state_of proc.old)) all.old.made.items (values_of splitter.old (before_nul piece.now)) (has_nul piece.now)) proc.old.budget result (λ _. all.new.made.items) (state_of proc.new) proc.new.budget }
    ensures fed { IfOk result (λ _. splitter.new ≡ fed splitter.old (before_nul piece.now)) }
    ensures no_nul { IfOk result (λ _. has_nul piece.now ≡ false) }
    ensures state { state_of proc.new ≡ state_of proc.old }
    ensures more { IfOk result (λ _. MayTurn (W.seen world.new).held each.now proc.new all.new.env) }
    ensures usable { are_usable (W.seen world.new).held proc.new.fds ≡ true }
{
    let values = splitter.feed(before_nul(piece))?;
    make_turns(alloc, each, &values, all, proc, world)?;
    if has_nul(piece) {
        return Err(break_off(alloc, each, proc, Trouble::NulInput, world));
    }
    Ok(())
}

// A turn for the last value, where there is one.
#[tactic(auto, using(el_front::proofs::Rooms::rooms), unfolding(crate::specs::Turns::turns))]
fn use_last<W: World>(
    alloc: Global,
    each: &Loop<'_>,
    last: Option<Word>,
    all: &mut Turns,
    proc: &mut Proc,
    world: &mut W,
) -> Result<(), Finish>
    requires { MayTurn (W.seen world.old).held each.now proc.old all.old.env }
    ensures run { Follows (W.seen world.old) (W.seen world.new) (turns (looping_of each.now (state_of proc.old)) all.old.made.items (listed last)) proc.old.budget result (λ _. all.new.made.items) (state_of proc.new) proc.new.budget }
    ensures state { state_of proc.new ≡ state_of proc.old }
    ensures can { IfOk result (λ _. CanTurn (W.seen world.new).held proc.new.fds each.now) }
    ensures usable { are_usable (W.seen world.new).held proc.new.fds ≡ true }
{
    let Some(value) = last else {
        return Ok(());
    };
    make_turn(alloc, each, value.as_bytes(), all, proc, world)?;
    Ok(())
}
