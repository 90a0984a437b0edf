//! What may be a mistake in scripts that are accepted, and on which line.
#![tactic(auto)]

mod allowance;
mod context;
mod differing;
mod finding;
mod first_line;
mod inherited;
mod keys;
mod known;
pub mod laws;
mod letters;
mod line_fault;
mod lint;
mod linting;
mod loaded;
mod mode;
mod names;
mod negated;
mod newline;
mod refused;
mod report;
mod sentence;
mod stranger;
mod texts;
mod typo;
mod unset;
mod unused;
mod valued;
mod walk;
mod wanted;

pub use finding::Finding;
pub use first_line::{FirstLine, first_line_of};
pub use line_fault::LineFault;
pub use lint::Lint;
pub use linting::find;
pub use mode::{Asked, read_asked};
pub use report::{Report, refusal_of, report_of};
pub use stranger::Stranger;
pub use wanted::Wanted;
