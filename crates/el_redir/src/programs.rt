//! One file a program.
pub(crate) mod fdclose;
pub(crate) mod fdmove;
pub(crate) mod fdswap;
pub(crate) mod heredoc;
pub(crate) mod piperw;
pub(crate) mod redirfd;
