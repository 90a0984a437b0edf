//! The programs of pipes, one a file.
pub(crate) mod backtick;
pub(crate) mod pipeline;
