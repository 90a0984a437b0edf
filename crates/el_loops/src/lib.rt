//! The loops: programs that run their rest again and again.
#![tactic(auto)]

mod codes;
pub mod laws;
mod programs;
mod turn;
mod turning;
mod values;

pub use programs::forbacktickx::forbacktickx;
pub use programs::forstdin::forstdin;
pub use programs::forx::forx;
pub use programs::loopwhilex::loopwhilex;
pub use turn::Turn;
