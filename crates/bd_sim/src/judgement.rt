//! What a case shows.
//!
//! The conditions are tested by running both machines. For `commute` the pipeline is flushed once before the cycle
//! and once after it; then the specification is led on a step at a time, and each state that it reaches is compared,
//! from no step to the design's most. Which numbers of steps are allowed rests on the cycle alone, so the counts of
//! the exact items that are true are found once. Memories are compared by their rows and defaults, which decides
//! whether they read equal at every word.
ghost use Rattle.std.specs.Prelude.{◌≡◌, ◌↔◌, ℕ, IfOk, IsTrue, map};
ghost use Rattle.std.specs.List.{AllZip, AllByRecursion};
ghost use Rattle.bd_model.specs.DesignView.{design_view, exact_view};
ghost use Rattle.bd_model.specs.Cycle.{step, invariant};
ghost use Rattle.bd_model.specs.Lawful.{IsLawful};
ghost use Rattle.bd_model.specs.Same.{SameValue, Same};
ghost use Rattle.bd_model.specs.Conditions.{IsAllowed, Commutes, IsJudged};
ghost use Rattle.bd_sim.specs.ExactCounts.{counts_in, counts_of};
ghost use Rattle.bd_sim.specs.StepsJoin.{StepsJoin};
ghost use Rattle.bd_sim.specs.inner.Env.{env_view};

use crate::cycle::{flushed, spec_step, step};
use crate::value::{Env, truth};
use bd_model::{Case, Condition, Design, Exact, Inputs, Interp, Judged, State, Value};
use std::alloc::{AllocError, Global};

/// What the case shows of the design; where both conditions are false, the invariant is named.
pub fn judge(alloc: Global, design: &Design, case: &Case) -> Result<Judged, AllocError>
    requires lawful { IsLawful (design_view design.now) }
    ensures { IfOk result (λ j. IsJudged (design_view design.now) case.now j) }
{
    if !meets_invariant(alloc, design, &case.interp, &case.state)? {
        return Ok(Judged::Outside);
    }
    let next = step(alloc, design, &case.interp, &case.state, &case.inputs)?;
    if !meets_invariant(alloc, design, &case.interp, &next)? {
        return Ok(Judged::Broken(Condition::Invariant));
    }
    if commutes(alloc, design, case, &next)? {
        Ok(Judged::Holds)
    } else {
        Ok(Judged::Broken(Condition::Commute))
    }
}

/// Whether the invariant is true in a state.
pub fn meets_invariant(
    alloc: Global,
    design: &Design,
    interp: &Interp,
    state: &State,
) -> Result<bool, AllocError>
    requires lawful { IsLawful (design_view design.now) }
    ensures { IfOk result (λ b. b ≡ invariant (design_view design.now) interp.now state.now) }
{
    let (interp, state) = (interp.as_slice(), state.as_slice());
    let env = Env::new(alloc, design.inv_locals.as_slice(), interp, state, &[])?;
    truth(&env, &design.inv)
}

/// Whether the flushed pipeline stands, after the cycle that ends in `next`, where some number of steps of the
/// specification, at most the design's and allowed, lead from where it stood before.
fn commutes(alloc: Global, design: &Design, case: &Case, next: &State) -> Result<bool, AllocError>
    requires lawful { IsLawful (design_view design.now) }
    requires next { next.now
        ≡ step (design_view design.now).pipe case.now.interp case.now.state case.now.inputs }
    ensures { IfOk result (λ b. IsTrue b
        ↔ Commutes (design_view design.now) case.now.interp case.now.state case.now.inputs) }
{
    let before = flushed(alloc, design, &case.interp, &case.state)?;
    let after = flushed(alloc, design, &case.interp, next)?;
    let (interp, state, inputs) = (&case.interp, &case.state, &case.inputs);
    steps_join(alloc, design, interp, state, inputs, before, &after)
}

/// Whether some number of steps of the specification leads from the visible state `before` to one that is the same
/// as `after`, where it is at most the design's and allowed in the cycle from this state, with these inputs. What a
/// state stands for by any abstraction can be asked about so: flushing gives one such pair.
pub fn steps_join(
    alloc: Global,
    design: &Design,
    interp: &Interp,
    state: &State,
    inputs: &Inputs,
    before: State,
    after: &State,
) -> Result<bool, AllocError>
    requires lawful { IsLawful (design_view design.now) }
    ensures { IfOk result (λ b. IsTrue b ↔ StepsJoin (design_view design.now)
        interp.now state.now inputs.now before after.now) }
{
    let counts = counts_of_cycle(alloc, design, interp, state, inputs)?;
    let mut reached = before;
    for count in 0..design.steps {
        if stands(counts.as_slice(), count, after, &reached) {
            return Ok(true);
        }
        reached = spec_step(alloc, design, interp, &reached)?;
    }
    Ok(stands(counts.as_slice(), design.steps, after, &reached))
}

/// The counts of the exact items whose condition is true in the case's cycle, in the design's order: each must be the
/// number of steps.
pub fn exact_counts(alloc: Global, design: &Design, case: &Case) -> Result<Vec<u32>, AllocError>
    requires lawful { IsLawful (design_view design.now) }
    ensures counts { IfOk result (λ v. v.items
        ≡ counts_of (design_view design.now) case.now.interp case.now.state case.now.inputs) }
    ensures allow { IfOk result (λ v. (j : ℕ) → AllByRecursion (λ n. n ≡ j) v.items
        ↔ IsAllowed (design_view design.now) case.now.interp case.now.state case.now.inputs j) }
{
    counts_of_cycle(alloc, design, &case.interp, &case.state, &case.inputs)
}

/// The counts of the exact items whose condition is true in the cycle from a state, in the design's order.
fn counts_of_cycle(
    alloc: Global,
    design: &Design,
    interp: &Interp,
    state: &State,
    inputs: &Inputs,
) -> Result<Vec<u32>, AllocError>
    ensures counts { IfOk result (λ v. v.items
        ≡ counts_of (design_view design.now) interp.now state.now inputs.now) }
    ensures allow { IfOk result (λ v. (j : ℕ) → AllByRecursion (λ n. n ≡ j) v.items
        ↔ IsAllowed (design_view design.now) interp.now state.now inputs.now j) }
{
    let (interp, state, inputs) = (interp.as_slice(), state.as_slice(), inputs.as_slice());
    let env = Env::new(alloc, design.pipe.locals.as_slice(), interp, state, inputs)?;
    true_counts(&env, design.exact.as_slice())
}

/// The counts of the exact items whose condition is true where names stand for these values, in order.
fn true_counts(env: &Env, items: &[Exact]) -> Result<Vec<u32>, AllocError>
    ensures { IfOk result (λ v. v.items ≡ counts_in (env_view env.now) (map exact_view items.now)) }
{
    let mut counts = Vec::new(env.alloc);
    for item in items {
        if truth(env, &item.when)? {
            counts.push(item.count)?;
        }
    }
    Ok(counts)
}

/// Whether a number of steps is allowed and leads to a state that can't be told from the flushed one.
fn stands(counts: &[u32], count: u32, after: &State, reached: &State) -> bool
    ensures { IsTrue result
        ↔ (AllByRecursion (λ n. n ≡ count) counts.now × Same after.now reached.now) }
{
    counts.iter().all(|n| *n == count) && same(after.as_slice(), reached.as_slice())
}

/// Whether two states can't be told apart.
pub fn same(first: &[Value], second: &[Value]) -> bool
    ensures { IsTrue result ↔ Same first.now second.now }
{
    if first.len() != second.len() {
        return false;
    }
    for (value, other) in first.iter().zip(second) {
        if !value.same(other) {
            return false;
        }
    }
    true
}
