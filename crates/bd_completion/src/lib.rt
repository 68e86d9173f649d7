//! Completion functions (Hosabettu, Srivas and Gopalakrishnan 1998): whether a pipeline is right by an abstraction that
//! is given in place of flushing, and whether it agrees with flushing.
#![tactic(auto)]

mod answer;
mod completing;
mod judging;

pub use answer::Complete;
pub use bd_goal::Abstraction;
pub use bd_model::agreement_keeps_right;
pub use bd_syntax::{CompAst, read_completion};
pub use bd_typer::{Joined, join_completion};
pub use completing::complete;
pub use judging::{judge_by, values_given};
