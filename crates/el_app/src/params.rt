//! What becomes of the words behind a script: the positional parameters.
#![tactic(auto, using(el_world::proofs::Follows::stops, el_proc::proofs::Refusals::refusals), unfolding(crate::specs::Params::placed))]

ghost use Rattle.el_room.specs.Vocabulary.{words_value, positional_pairs, shifted_pairs, standard_fds, Follows, state_of, left_of};
ghost use Rattle.std.specs.Prelude.{◌≡◌, true, false, not, IfOk};
ghost use Rattle.el_app.specs.Params.{is_too_deep, in_new_frame, placed};

use crate::asked::Placement;
use crate::names::execlineb_name;
use crate::refusal::refused;
use el_check::Params;
use el_env::{Env, EnvFault, Positionals};
use el_proc::{Proc, Trouble};
use el_subst::{Subst, apply_to};
use el_words::{NoMemory, Words};
use el_world::{Finish, Subject, World};
use std::alloc::Global;

/// Makes the script's words what is to be run next, with the words behind the script put in, or set as the
/// positionals of a new frame, or left, as is asked for. A frame that can't be pushed ends the process with 100,
/// behind a message.
pub(crate) fn place<W: World>(
    alloc: Global,
    placement: Placement,
    positionals: &Positionals,
    script: Words,
    proc: &mut Proc,
    world: &mut W,
) -> Result<(), Finish>
    requires { proc.old.fds ≡ standard_fds }
    ensures run { Follows (W.seen world.old) (W.seen world.new) (placed placement positionals.now.zero positionals.now.args script (state_of proc.old)) proc.old.budget result (λ _. left_of proc.new) (state_of proc.new) proc.new.budget }
    ensures fds { proc.new.fds ≡ proc.old.fds }
{
    proc.words = match placement {
        Placement::By(Params::Leave) => script,
        Placement::By(Params::Subst(least)) => put_in(alloc, positionals, least, script)?,
        Placement::Shifted(least) => put_in_shifted(alloc, positionals, least, script)?,
        Placement::By(Params::Frame) => {
            if !push(positionals, &mut proc.env)? {
                let trouble = Trouble::FrameTooDeep;
                let subject = Subject::saying(
                    b"a variable of the last frame is set, as #:18446744073709551615",
                );
                return Err(refused(alloc, execlineb_name(), proc, trouble, Some(subject), world));
            }
            script
        }
    };
    Ok(())
}

// The script's words with the positionals put in.
fn put_in(
    alloc: Global,
    positionals: &Positionals,
    least: u64,
    script: Words,
) -> Result<Words, NoMemory>
    ensures { IfOk result (λ made. made ≡ words_value (positional_pairs positionals.now.zero positionals.now.args least) script) }
{
    let mut subst = Subst::new(alloc);
    subst.add_positionals(positionals, least)?;
    apply_to(alloc, &subst, script)
}

// The same, where `@` leaves out as many as there are at least.
fn put_in_shifted(
    alloc: Global,
    positionals: &Positionals,
    least: u64,
    script: Words,
) -> Result<Words, NoMemory>
    ensures { IfOk result (λ made. made ≡ words_value (shifted_pairs positionals.now.zero positionals.now.args least) script) }
{
    let mut subst = Subst::new(alloc);
    subst.add_positionals_shifted(positionals, least)?;
    apply_to(alloc, &subst, script)
}

// Sets the positionals in a new frame; false, and nothing is changed, where it can't be pushed.
#[tactic(auto, using(crate::proofs::Depth::deep_found, crate::proofs::Depth::none_deep))]
fn push(positionals: &Positionals, env: &mut Env) -> Result<bool, NoMemory>
    ensures deep { IfOk result (λ is_pushed. is_pushed ≡ not (is_too_deep env.old)) }
    ensures pushed { IfOk result (λ is_pushed. is_pushed ≡ true → env.new ≡ in_new_frame positionals.now.zero positionals.now.args env.old) }
    ensures same { IfOk result (λ is_pushed. is_pushed ≡ false → env.new ≡ env.old) }
{
    match env.push_frame() {
        Ok(()) => {
            env.set_positionals(&positionals.zero, &positionals.args)?;
            Ok(true)
        }
        Err(EnvFault::TooDeep) => Ok(false),
        Err(_) => Err(NoMemory),
    }
}
