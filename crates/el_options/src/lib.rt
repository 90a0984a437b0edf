//! Options, shapes and fronts: the one reader of option letters of all programs, and what a program
//! reads at the front of its words.
#![tactic(auto)]

pub mod laws;
mod place;
mod read;
mod reader;
mod rules;
mod shapes;
mod strictness;
mod table;
mod tables;

pub use place::{PlaceKind, is_number_text};
pub use read::{Read, Slot, UsageFault, read_options};
pub use rules::{Rule, is_bad_number, is_wrong_use, rule_on, rule_on_positionals};
pub use shapes::{needs_letter, places_of, reads_options, takes_value};
pub use strictness::Strictness;
pub use table::{Opt, Table};
pub use tables::{
    BACKGROUND, BACKTICK, DEFINE, ELCHECK, ELFMT, ELGETPOSITIONALS, EMPTYENV, ENVFILE, EXEC,
    EXECLINEB, FDMOVE, FORBACKTICKX, FORSTDIN, FORX, HEREDOC, IF, IFELSE, IFTE, IFTHENELSE,
    IMPORTAS, LOOPWHILEX, MULTIDEFINE, PIPELINE, REDIRFD, WAIT, WITHSTDINAS,
};
