//! The tools.
pub(crate) mod elcheck;
pub(crate) mod elfmt;
pub(crate) mod execline;
pub(crate) mod execlineb;
pub(crate) mod sample;
