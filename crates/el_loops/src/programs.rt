//! The loops, one a file.
pub(crate) mod forbacktickx;
pub(crate) mod forstdin;
pub(crate) mod forx;
pub(crate) mod loopwhilex;
