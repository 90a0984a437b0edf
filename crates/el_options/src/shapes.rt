//! The shapes of the programs.
ghost use Rattle.std.specs.Prelude.{◌≡◌, is_some};
ghost use Rattle.el_options.specs.Reading.{takes};
ghost use Rattle.el_options.specs.Shapes.{shape_of, takes_of};

use crate::reader::place_of;
use crate::tables::{
    BACKGROUND, BACKTICK, DEFINE, ELGETPOSITIONALS, EMPTYENV, ENVFILE, EXEC, FDMOVE, FORBACKTICKX,
    FORSTDIN, FORX, HEREDOC, IF, IFELSE, IFTE, IFTHENELSE, IMPORTAS, LOOPWHILEX, MULTIDEFINE,
    PIPELINE, REDIRFD, WAIT, WITHSTDINAS,
};
use crate::{PlaceKind, Table};
use el_words::Prog;

/// Whether a program reads options. Where it reads none, a word that begins with `-` is an ordinary word.
#[tactic(auto, unfolding(crate::specs::Shapes::shape_of))]
pub fn reads_options(program: Prog) -> bool
    ensures { result ≡ is_some (shape_of program).letters }
{
    !matches!(
        program,
        Prog::Multisubstitute
            | Prog::Export
            | Prog::Unexport
            | Prog::Shift
            | Prog::Foreground
            | Prog::Cd
            | Prog::Exit
            | Prog::Fdclose
            | Prog::Fdswap
            | Prog::Piperw
    )
}

/// Whether a letter of a program takes a value, or None where the program has no such letter.
#[tactic(auto, unfolding(crate::specs::Shapes::shape_of))]
pub fn takes_value(program: Prog, letter: u8) -> Option<bool>
    ensures { result ≡ takes_of (shape_of program) letter }
{
    match program {
        Prog::Define => takes_in(&DEFINE, letter),
        Prog::Importas | Prog::Import => takes_in(&IMPORTAS, letter),
        Prog::Multidefine => takes_in(&MULTIDEFINE, letter),
        Prog::Elgetpositionals => takes_in(&ELGETPOSITIONALS, letter),
        Prog::Emptyenv => takes_in(&EMPTYENV, letter),
        Prog::Envfile => takes_in(&ENVFILE, letter),
        Prog::Withstdinas => takes_in(&WITHSTDINAS, letter),
        Prog::Background => takes_in(&BACKGROUND, letter),
        Prog::If => takes_in(&IF, letter),
        Prog::Ifelse => takes_in(&IFELSE, letter),
        Prog::Ifte => takes_in(&IFTE, letter),
        Prog::Ifthenelse => takes_in(&IFTHENELSE, letter),
        Prog::Wait => takes_in(&WAIT, letter),
        Prog::Exec => takes_in(&EXEC, letter),
        Prog::Loopwhilex => takes_in(&LOOPWHILEX, letter),
        Prog::Forx => takes_in(&FORX, letter),
        Prog::Forstdin => takes_in(&FORSTDIN, letter),
        Prog::Forbacktickx => takes_in(&FORBACKTICKX, letter),
        Prog::Pipeline => takes_in(&PIPELINE, letter),
        Prog::Backtick => takes_in(&BACKTICK, letter),
        Prog::Redirfd => takes_in(&REDIRFD, letter),
        Prog::Fdmove => takes_in(&FDMOVE, letter),
        Prog::Heredoc => takes_in(&HEREDOC, letter),
        _ => None,
    }
}

#[tactic(auto, using(crate::proofs::Slots::placed, crate::proofs::Slots::unknown))]
fn takes_in<const N: usize>(table: &Table<N>, letter: u8) -> Option<bool>
    ensures { result ≡ takes table.now.opts letter }
{
    match place_of(table, letter) {
        Some(place) => Some(table.opts[place].takes),
        None => None,
    }
}

/// Whether one of a program's letters must stand.
#[tactic(auto, unfolding(crate::specs::Shapes::shape_of))]
pub fn needs_letter(program: Prog) -> bool
    ensures { result ≡ (shape_of program).needs_letter }
{
    matches!(program, Prog::Redirfd)
}

/// What stands at the places of a program, in order.
#[tactic(auto, unfolding(crate::specs::Shapes::shape_of))]
pub fn places_of(program: Prog) -> &'static [PlaceKind]
    ensures { result.now ≡ (shape_of program).places }
{
    match program {
        Prog::Define | Prog::Importas => &[PlaceKind::Name, PlaceKind::Fixed],
        Prog::Multidefine => &[PlaceKind::Fixed, PlaceKind::NameBlock],
        Prog::Multisubstitute => &[PlaceKind::DirectiveBlock],
        Prog::Elgetpositionals | Prog::Emptyenv | Prog::Exec | Prog::Loopwhilex => &[],
        Prog::Unexport | Prog::Envfile | Prog::Cd | Prog::Fdclose => &[PlaceKind::Fixed],
        Prog::Withstdinas | Prog::Forstdin | Prog::Import => &[PlaceKind::Name],
        Prog::Shift => &[PlaceKind::OptionalNumber],
        Prog::Exit => &[PlaceKind::OptionalWord],
        Prog::Foreground | Prog::Background | Prog::If | Prog::Pipeline => {
            &[PlaceKind::ProgramBlock]
        }
        Prog::Ifelse | Prog::Ifte => &[PlaceKind::ProgramBlock, PlaceKind::ProgramBlock],
        Prog::Ifthenelse => &[
            PlaceKind::ProgramBlock,
            PlaceKind::ProgramBlock,
            PlaceKind::ProgramBlock,
        ],
        Prog::Wait => &[PlaceKind::ValueBlock],
        Prog::Forx => &[PlaceKind::Name, PlaceKind::ValueBlock],
        Prog::Forbacktickx | Prog::Backtick => &[PlaceKind::Name, PlaceKind::ProgramBlock],
        Prog::Export | Prog::Redirfd | Prog::Fdmove | Prog::Fdswap | Prog::Piperw | Prog::Heredoc =>
            &[PlaceKind::Fixed, PlaceKind::Fixed],
    }
}
