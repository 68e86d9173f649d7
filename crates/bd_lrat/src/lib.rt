//! Logs of clausal proofs, the check of their lines, and the textual LRAT.
#![tactic(auto)]

mod checker;
mod hints;
mod laws;
mod line;
mod log;
mod propagation;
mod refused;
mod refutation;
mod store;
mod text;
mod trail;

pub use checker::Checker;
pub use hints::{Hints, HintsIter};
pub use laws::{
    deletions_are_few, fresh_logs_are_short, needed_clause_is_not_covered,
    needed_clause_is_not_deleted, nothing_is_not_deleted, reached_decision_settles, refutation_law,
    square_is_unsettled, square_line_is_fresh, true_clause_is_covered, two_decisions_unsettle,
    weakened_line_is_not_fresh,
};
pub use line::{ClauseIds, Hint, Line};
pub use log::Log;
pub use refused::{AddError, Refused};
pub use refutation::{adds_empty, refused_line, refutes};
pub use text::lrat_text;
