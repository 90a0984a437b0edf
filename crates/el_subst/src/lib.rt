//! Substitution: references in words, replaced by values.
#![tactic(auto)]

mod application;
pub mod laws;
mod lookup;
mod paired;
mod piece;
mod product;
mod reference;
mod referred;
mod size;
mod subst;
mod text;

pub use application::{apply, apply_to};
pub use referred::{Referred, next_reference};
pub use subst::{Subst, SubstFault, is_good_key};
