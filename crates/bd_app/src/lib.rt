//! The program's one call.
#![tactic(auto)]

mod answer;
mod command;
mod fault;
mod laws;
mod load;
pub mod loading;
mod program;
mod proof_fault;
mod read;
mod report;
mod save;
mod verdict;
pub mod words;

pub use answer::{Ended, Which};
pub use bd_typer::Text;
pub use command::bounded::bounded_report;
pub use command::retrace::retraced_line;
pub use laws::{
    cases_read, completions_denote, completions_denote_once, runs_answer, some_design, trails_read,
};
pub use program::run;
pub use proof_fault::cause_text;
pub use verdict::{Asked, decide, verdict_report};
