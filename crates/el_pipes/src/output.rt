//! What a block wrote.
use el_room::{Bytes, Ended};

/// What a block wrote, and how it ended.
#[derive(Drop)]
pub(crate) struct Output {
    pub text: Bytes,
    pub ended: Ended,
}
