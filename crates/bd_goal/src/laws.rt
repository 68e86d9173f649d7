//! Laws about the roots, which callers cite as facts.
//!
//! A case that breaks a condition has words for the fresh addresses at which its memories differ, for each memory and
//! each number of steps one of its own; so the formula is false there. And a world in which a root is false is, as far
//! as the root reaches, that of a case.
ghost use Rattle.bd_goal.specs.Bounded.{BoundedDecides};
ghost use Rattle.bd_goal.specs.Laws.{GoalDecides, MeetsDecides, AgreeDecides};

/// The correspondence formula is valid exactly where no fitting case breaks a condition.
pub fn goal_decides()
    ensures { GoalDecides }
{}

/// The formula that the invariant is false is valid exactly where no fitting case meets it.
pub fn meets_decides()
    ensures { MeetsDecides }
{}

/// The formula of agreement is valid exactly where the abstraction agrees with flushing.
pub fn agree_decides()
    ensures { AgreeDecides }
{}

/// The formula of a bounded run is valid exactly where no fitting trail of so many cycles is broken.
pub fn bounded_decides()
    ensures { BoundedDecides }
{}
