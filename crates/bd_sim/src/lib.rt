//! A concrete simulator: cycles, flushing, and judgement of cases and trails by running the two machines.
#![tactic(auto)]

mod cycle;
mod judgement;
mod run;
mod trail;
mod value;
mod writes;

pub use bd_model::{Condition, Judged, TrailJudged};
pub use cycle::{
    flush, flushed, idle_inputs, let_values, look, spec_step, step, values_after, values_of_lets,
};
pub use judgement::{exact_counts, judge, meets_invariant, same, steps_join};
pub use run::{trace, trace_is_run};
pub use trail::judge_trail;
pub use value::{eval, table_at};
