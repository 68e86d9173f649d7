//! What a pipeline is found to be over a bounded number of cycles.
use bd_model::Trail;
use bd_verify::Work;

/// What a pipeline is found to be over so many cycles, with the work of the question.
#[derive(Drop)]
pub enum Bounded {
    /// Each trail of at most so many cycles is right.
    Kept(Work),
    /// The cycle of this number, from 1, is the first of this trail that breaks.
    Broken(u32, Trail, Work),
    /// The budget was spent.
    Undecided(Work),
}
