//! The verdict on a design, and what the answer of a solver comes to, once it is checked.
#![tactic(auto)]

mod asking;
mod deciding;
mod edges;
mod formula;
mod laws;
mod numbers;
mod reduction;
mod settling;
mod verdict;

pub use asking::one_cycle;
pub use deciding::{Decided, decide, decide_by};
pub use formula::{kept, kept_in};
pub use laws::{kept_decides, positive_have_no_edge, spent_is_bounded, verdicts_agree};
pub use reduction::negated;
pub use settling::{Settled, settle};
pub use verdict::{Mode, Question, Verdict, Work, broken, verify};
