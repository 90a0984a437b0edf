//! What becomes of the words behind a script.
/// What becomes of the words behind a script.
#[derive(Clone, Copy)]
pub enum Params {
    /// They are the positional parameters of a new frame.
    Frame,
    /// They aren't used.
    Leave,
    /// They are put in the script's words as positional parameters, of which there are so many at least.
    Subst(u64),
}
