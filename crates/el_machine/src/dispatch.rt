//! Which function does which program.
ghost use Rattle.el_room.specs.Vocabulary.{are_usable, read_of, Acts, OnlyToRefuse};
ghost use Rattle.std.specs.Prelude.{◌≡◌, true};
ghost use Rattle.el_machine.specs.Effects.{effect, takes_no_memory};

use el_control::{background, cd, exec, exit, foreground, if_then, ifelse, ifte, ifthenelse, wait};
use el_loops::{forbacktickx, forstdin, forx, loopwhilex};
use el_pipes::{backtick, pipeline};
use el_redir::{fdclose, fdmove, fdswap, heredoc, piperw, redirfd};
use el_room::{Finish, Front, Proc, Prog, World};
use el_vars::{
    define, elgetpositionals, emptyenv, envfile, export, import_var, importas, multidefine,
    multisubstitute, shift, unexport, withstdinas,
};
use std::alloc::Global;

/// Does the program, which has read its front.
#[tactic(auto, unfolding(crate::specs::Effects::effect))]
pub(crate) fn act<W: World>(
    alloc: Global,
    program: Prog,
    front: Front,
    proc: &mut Proc,
    world: &mut W,
) -> Result<(), Finish>
    requires { are_usable (W.seen world.old).held proc.old.fds ≡ true }
    ensures acts { Acts (W.seen world.old) (W.seen world.new) (effect program) (read_of front) proc.old proc.new result }
    ensures memory { takes_no_memory program ≡ true → OnlyToRefuse program (effect program) (read_of front) proc.old result }
{
    macro_rules! dispatch {
        ($($program:ident => $does:ident,)*) => {
            match program { $(Prog::$program => $does(alloc, front, proc, world),)* }
        };
    }
    dispatch! {
        Define => define,
        Importas => importas,
        Import => import_var,
        Multidefine => multidefine,
        Multisubstitute => multisubstitute,
        Elgetpositionals => elgetpositionals,
        Export => export,
        Unexport => unexport,
        Emptyenv => emptyenv,
        Envfile => envfile,
        Withstdinas => withstdinas,
        Shift => shift,
        Foreground => foreground,
        Background => background,
        If => if_then,
        Ifelse => ifelse,
        Ifte => ifte,
        Ifthenelse => ifthenelse,
        Wait => wait,
        Cd => cd,
        Exec => exec,
        Exit => exit,
        Pipeline => pipeline,
        Backtick => backtick,
        Redirfd => redirfd,
        Fdmove => fdmove,
        Fdclose => fdclose,
        Fdswap => fdswap,
        Piperw => piperw,
        Heredoc => heredoc,
        Loopwhilex => loopwhilex,
        Forx => forx,
        Forstdin => forstdin,
        Forbacktickx => forbacktickx,
    }
}
