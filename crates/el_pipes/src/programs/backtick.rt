//! backtick [-i|-I|-D default] [-n|-N] [-E] var { a } prog..
#![tactic(auto, using(el_front::proofs::Rooms::rooms), unfolding(el_front::specs::Steps::acting, crate::specs::Backtick::backtick))]

ghost use Rattle.el_room.specs.Vocabulary.{is_good_name, is_good_key, IsWaitStatus, are_usable, Follows, gives, and_then, state_of, left_of, the_text, read_of, Acts, First};
ghost use Rattle.std.specs.Prelude.{◌≡◌, ℕ, List, Option, true, Err, IfOk, OnOk, IsTrue};
ghost use Rattle.el_front.specs.Steps.{left_by};
ghost use Rattle.el_pipes.specs.Pipes.{AreLoose};
ghost use Rattle.el_pipes.specs.Putting.{names_well};
ghost use Rattle.el_pipes.specs.Backtick.{after_reads, waited_for, read_from, no_output, written_by, output_of, is_trouble, word_of, default_of, ending_by, in_trouble, value_from, env_with, put_in, going_on, backtick};

use crate::output::Output;
use crate::pipes::{close_end, close_ends, make_pipe, start_at};
use crate::putting::{badly_named, names_well, puts_values, value_pairs};
use crate::side::Side;
use el_room::{
    Bytes, Ended, Env, Finish, Front, NoMemory, Nth, Pid, PipeEnds, Proc, Prog, Subject, Trouble,
    Word, Words, World, call, close_handle, code_of, gather, has_nul, input_word, nul_in, refused,
    tell_unstarted, text_or_end,
};
use el_subst::apply_to;
use std::alloc::Global;

/// Runs the block, and the variable takes what it writes, up to the first NUL and without one newline at its
/// end; then the process goes on with the rest. An empty block starts nothing, writes nothing and counts as
/// ended with 0; a command that isn't found or can't be started counts as ended with 127 or 126, behind a
/// message with its own name. Where the block doesn't end with 0, or a NUL is in its output, `-i` ends the
/// process, `-I` removes the variable, and `-D` gives it that default; of the three the last counts, and
/// without one the variable takes the output all the same. With `-N` the newline stays; of `-n` and `-N` the
/// last counts. With `-E` the variable is removed, and its value is put in the rest as one word.
///
/// With `-i` the process ends with the block's code, which is 128 and the signal where it was killed, or with
/// 100 where that is 0 and a NUL is in the output, behind a message. It ends with 100 where no variable, or
/// with `-E` no reference, can have the name, and where `-I` leaves `-E` without a value, and with 111 where
/// there is no pipe, and where a start, a read or a wait fails, each behind a message. It takes a unit before
/// each read; where none is left the answer is `Spent`.
///
/// The rule is execline's (https://skarnet.org/software/execline/backtick.html), without `-x`; `-I`, what it
/// is with `-E`, and that the variable takes what a failed block wrote, are this project's own.
pub fn backtick<W: World>(
    alloc: Global,
    front: Front,
    proc: &mut Proc,
    world: &mut W,
) -> Result<(), Finish>
    requires { are_usable (W.seen world.old).held proc.old.fds ≡ true }
    ensures { Acts (W.seen world.old) (W.seen world.new) backtick (read_of front) proc.old proc.new result }
{
    if !names_well(&front) {
        let subject = badly_named(&front);
        return Err(refused(
            alloc,
            &proc.fds,
            Prog::Backtick,
            Trouble::BadName,
            Some(subject),
            world,
        ));
    }
    let block = front.block(alloc, Nth::First)?;
    let output = output_of(alloc, proc, &block, world)?;
    let value = value_from(alloc, proc, &front, &output, world)?;
    go_on(alloc, front, value, proc, world)
}

// What the block writes, and how it ends. Without words no call is made.
#[tactic(auto, using(el_front::proofs::Rooms::rooms), unfolding(crate::specs::Backtick::output_of))]
fn output_of<W: World>(
    alloc: Global,
    proc: &mut Proc,
    block: &Words,
    world: &mut W,
) -> Result<Output, Finish>
    requires { are_usable (W.seen world.old).held proc.old.fds ≡ true }
    ensures run { Follows (W.seen world.old) (W.seen world.new) (output_of (state_of proc.old) block.now) proc.old.budget result (λ output. output) (state_of proc.new) proc.new.budget }
    ensures state { state_of proc.new ≡ state_of proc.old }
    ensures usable { are_usable (W.seen world.new).held proc.new.fds ≡ true }
    ensures signal { IfOk result (λ output. IsWaitStatus output.ended) }
{
    if block.is_empty() {
        return Ok(no_output(alloc, 0));
    }
    written_by(alloc, proc, block, world)
}

// The same of a block that has words.
#[tactic(auto, using(el_front::proofs::Rooms::rooms), unfolding(crate::specs::Backtick::written_by))]
fn written_by<W: World>(
    alloc: Global,
    proc: &mut Proc,
    block: &Words,
    world: &mut W,
) -> Result<Output, Finish>
    requires { are_usable (W.seen world.old).held proc.old.fds ≡ true }
    ensures run { Follows (W.seen world.old) (W.seen world.new) (written_by (state_of proc.old) block.now) proc.old.budget result (λ output. output) (state_of proc.new) proc.new.budget }
    ensures state { state_of proc.new ≡ state_of proc.old }
    ensures usable { are_usable (W.seen world.new).held proc.new.fds ≡ true }
    ensures signal { IfOk result (λ output. IsWaitStatus output.ended) }
{
    let ends = make_pipe(alloc, proc, Prog::Backtick, world)?;
    let started = start_at(
        alloc,
        proc,
        Prog::Backtick,
        block,
        Side::Output,
        ends,
        world,
    )?;
    match started.pid() {
        Some(pid) => read_from(alloc, proc, ends, pid, world),
        None => {
            close_ends(&proc.fds, ends, world);
            let code = tell_unstarted(alloc, &proc.fds, block, started, world)?;
            Ok(no_output(alloc, code))
        }
    }
}

// Nothing was written, and this is the end's code.
fn no_output(alloc: Global, code: u8) -> Output
    ensures { result ≡ no_output code }
{
    Output {
        text: Bytes::new(alloc),
        ended: Ended::Exited(code),
    }
}

// Reads all that the block writes, and then waits for it.
#[tactic(auto, using(el_front::proofs::Rooms::rooms), unfolding(crate::specs::Backtick::read_from))]
fn read_from<W: World>(
    alloc: Global,
    proc: &mut Proc,
    ends: PipeEnds,
    pid: Pid,
    world: &mut W,
) -> Result<Output, Finish>
    requires usable { are_usable (W.seen world.old).held proc.old.fds ≡ true }
    requires loose { AreLoose (W.seen world.old).held proc.old.fds ends }
    ensures run { Follows (W.seen world.old) (W.seen world.new) (read_from (state_of proc.old) ends pid) proc.old.budget result (λ output. output) (state_of proc.new) proc.new.budget }
    ensures state { state_of proc.new ≡ state_of proc.old }
    ensures usable { are_usable (W.seen world.new).held proc.new.fds ≡ true }
    ensures signal { IfOk result (λ output. IsWaitStatus output.ended) }
{
    close_end(&proc.fds, Side::Output, ends, world);
    let text = text_or_end(gather(alloc, proc, ends.reader, world))?;
    close_handle(&proc.fds, ends.reader, world);
    wait_behind(alloc, proc, text, pid, world)
}

// Waits for the block, unless a read failed.
fn wait_behind<W: World>(
    alloc: Global,
    proc: &Proc,
    text: Option<Bytes>,
    pid: Pid,
    world: &mut W,
) -> Result<Output, Finish>
    requires { are_usable (W.seen world.old).held proc.now.fds ≡ true }
    ensures run { Follows (W.seen world.old) (W.seen world.new) (after_reads (state_of proc.now) pid text) proc.now.budget result (λ output. output) (state_of proc.now) proc.now.budget }
    ensures usable { are_usable (W.seen world.new).held proc.now.fds ≡ true }
    ensures signal { IfOk result (λ output. IsWaitStatus output.ended) }
{
    let Some(text) = text else {
        return Err(refused(
            alloc,
            &proc.fds,
            Prog::Backtick,
            Trouble::Failed,
            None,
            world,
        ));
    };
    let ended = wait_for(alloc, proc, pid, world)?;
    Ok(Output { text, ended })
}

#[tactic(auto, using(el_front::proofs::Rooms::rooms), unfolding(crate::specs::Backtick::waited_for))]
fn wait_for<W: World>(alloc: Global, proc: &Proc, pid: Pid, world: &mut W) -> Result<Ended, Finish>
    requires { are_usable (W.seen world.old).held proc.now.fds ≡ true }
    ensures run { Follows (W.seen world.old) (W.seen world.new) (waited_for (state_of proc.now) pid) proc.now.budget result (λ ended. ended) (state_of proc.now) proc.now.budget }
    ensures usable { are_usable (W.seen world.new).held proc.now.fds ≡ true }
    ensures signal { IfOk result IsWaitStatus }
{
    match call::wait(pid, world)? {
        Ok(ended) => Ok(ended),
        Err(_) => Err(refused(
            alloc,
            &proc.fds,
            Prog::Backtick,
            Trouble::Failed,
            None,
            world,
        )),
    }
}

// The value; none where trouble leaves none, and the end where it ends the process.
#[tactic(auto, using(el_front::proofs::Rooms::rooms), unfolding(crate::specs::Backtick::value_from))]
fn value_from<W: World>(
    alloc: Global,
    proc: &Proc,
    front: &Front,
    output: &Output,
    world: &mut W,
) -> Result<Option<Word>, Finish>
    requires usable { are_usable (W.seen world.old).held proc.now.fds ≡ true }
    requires signal { IsWaitStatus output.now.ended }
    ensures run { Follows (W.seen world.old) (W.seen world.new) (value_from (read_of front.now) (state_of proc.now) output.now) proc.now.budget result (λ value. value) (state_of proc.now) proc.now.budget }
    ensures usable { are_usable (W.seen world.new).held proc.now.fds ≡ true }
{
    if is_trouble(output) {
        return in_trouble(alloc, proc, front, output, world);
    }
    Ok(Some(word_of(alloc, front, output)?))
}

// Whether the block's end isn't 0, or its output holds a NUL.
fn is_trouble(output: &Output) -> bool
    requires { IsWaitStatus output.now.ended }
    ensures { result ≡ is_trouble output.now }
{
    code_of(output.ended) != 0 || has_nul(output.text.as_bytes())
}

// The same with trouble, by the letter in force.
fn in_trouble<W: World>(
    alloc: Global,
    proc: &Proc,
    front: &Front,
    output: &Output,
    world: &mut W,
) -> Result<Option<Word>, Finish>
    requires usable { are_usable (W.seen world.old).held proc.now.fds ≡ true }
    requires signal { IsWaitStatus output.now.ended }
    ensures run { Follows (W.seen world.old) (W.seen world.new) (in_trouble (read_of front.now) (state_of proc.now) output.now) proc.now.budget result (λ value. value) (state_of proc.now) proc.now.budget }
    ensures usable { are_usable (W.seen world.new).held proc.now.fds ≡ true }
{
    if front.has(b'i') {
        return Err(end_by(alloc, proc, front, output.ended, world));
    }
    if front.has(b'I') {
        return Ok(None);
    }
    Ok(Some(default_of(alloc, front, output)?))
}

// The process ends with the block's code; where that is 0, a NUL is what is refused.
fn end_by<W: World>(
    alloc: Global,
    proc: &Proc,
    front: &Front,
    ended: Ended,
    world: &mut W,
) -> Finish
    requires usable { are_usable (W.seen world.old).held proc.now.fds ≡ true }
    requires signal { IsWaitStatus ended }
    ensures run { Follows (W.seen world.old) (W.seen world.new) (ending_by (state_of proc.now) ended) proc.now.budget (Err result) (λ (value : Option (List ℕ)). value) (state_of proc.now) proc.now.budget }
    ensures usable { are_usable (W.seen world.new).held proc.now.fds ≡ true }
{
    match code_of(ended) {
        0 => {
            let subject = nul_in(front.text(Nth::First));
            refused(
                alloc,
                &proc.fds,
                Prog::Backtick,
                Trouble::NulInput,
                Some(subject),
                world,
            )
        }
        code => Finish::Status(code),
    }
}

// The default, or the output where there is none.
fn default_of(alloc: Global, front: &Front, output: &Output) -> Result<Word, NoMemory>
    ensures { IfOk result (λ word. word ≡ default_of (read_of front.now) output.now) }
{
    match front.value(b'D') {
        Some(value) => Word::of(alloc, value),
        None => word_of(alloc, front, output),
    }
}

// The output up to the first NUL.
fn word_of(alloc: Global, front: &Front, output: &Output) -> Result<Word, NoMemory>
    ensures { IfOk result (λ word. word ≡ word_of (read_of front.now) output.now) }
{
    input_word(alloc, output.text.as_bytes(), front.has(b'N'))
}

// The process goes on with the value, or with none.
#[tactic(auto, using(el_front::proofs::Rooms::rooms), unfolding(crate::specs::Backtick::going_on))]
fn go_on<W: World>(
    alloc: Global,
    front: Front,
    value: Option<Word>,
    proc: &mut Proc,
    world: &mut W,
) -> Result<(), Finish>
    requires usable { are_usable (W.seen world.old).held proc.old.fds ≡ true }
    requires good { IsTrue (names_well (read_of front)) }
    ensures run { Follows (W.seen world.old) (W.seen world.new) (and_then (going_on (read_of front) (state_of proc.old) value) (λ way. gives (left_by (read_of front) way))) proc.old.budget result (λ _. left_of proc.new) (state_of proc.new) proc.new.budget }
    ensures usable { are_usable (W.seen world.new).held proc.new.fds ≡ true }
{
    if puts_values(&front) {
        return put_in(alloc, front, value, proc, world);
    }
    set_variable(&front, value, &mut proc.env)?;
    proc.words = front.into_rest();
    Ok(())
}

// The variable isn't set, and the value is put in the rest. Where there is none that is refused.
fn put_in<W: World>(
    alloc: Global,
    front: Front,
    value: Option<Word>,
    proc: &mut Proc,
    world: &mut W,
) -> Result<(), Finish>
    requires usable { are_usable (W.seen world.old).held proc.old.fds ≡ true }
    requires good { IsTrue (is_good_key (the_text First (read_of front))) }
    ensures run { Follows (W.seen world.old) (W.seen world.new) (and_then (put_in (read_of front) (state_of proc.old) value) (λ way. gives (left_by (read_of front) way))) proc.old.budget result (λ _. left_of proc.new) (state_of proc.new) proc.new.budget }
    ensures usable { are_usable (W.seen world.new).held proc.new.fds ≡ true }
{
    proc.env.unset(front.text(Nth::First));
    let Some(value) = value else {
        let name = front.text(Nth::First);
        let subject = Subject::of(b"variable", name).with_note(b"its block failed");
        return Err(refused(
            alloc,
            &proc.fds,
            Prog::Backtick,
            Trouble::NotSet,
            Some(subject),
            world,
        ));
    };
    let pairs = value_pairs(alloc, &front, value.as_bytes())?;
    proc.words = apply_to(alloc, &pairs, front.into_rest())?;
    Ok(())
}

// The variable has the value, and isn't set where there is none.
fn set_variable(front: &Front, value: Option<Word>, env: &mut Env) -> Result<(), NoMemory>
    requires { IsTrue (is_good_name (the_text First (read_of front.now))) }
    ensures { OnOk result (env.new ≡ env_with (read_of front.now) env.old value) }
{
    let name = front.text(Nth::First);
    match value {
        Some(value) => env.insert(name, value),
        None => {
            env.unset(name);
            Ok(())
        }
    }
}
