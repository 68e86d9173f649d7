//! The specification after each number of steps, compared with what the pipeline's state stands for after the cycle.
ghost use Rattle.std.specs.Prelude.{◌≡◌, ◌↔◌, suc, length, IfOk, IsTrue};
ghost use Rattle.std.specs.List.{AllByRecursion};
ghost use Rattle.bd_model.specs.DesignView.{design_view};
ghost use Rattle.bd_diagram.specs.Diagrams.{AreComparisonsOf, IsOther};
ghost use Rattle.bd_diagram.specs.inner.Compared.{IsCompared};
ghost use Rattle.bd_model.specs.Lawful.{IsLawful};

use crate::difference::{Differences, differences_of};
use bd_model::{Case, Design, Sequence, State};
use bd_sim::{exact_counts, same, spec_step};
use std::alloc::{AllocError, Global};

/// A number of steps of the specification: the visible entries after them, whether the cycle may stand for so many
/// steps, whether the pipeline stands there after the cycle, and else where the two part.
#[derive(PartialEq, Drop)]
pub struct Comparison {
    pub visible: State,
    pub allowed: bool,
    pub same: bool,
    pub differences: Differences,
}

/// A list of comparisons, that of no step first.
pub type Comparisons = Sequence<Comparison>;

/// Each number of steps, up to the design's, where the pipeline's state stands for `first` before the cycle and for
/// `stands` after it.
pub fn comparisons_of(
    alloc: Global,
    design: &Design,
    case: &Case,
    first: &State,
    stands: &State,
) -> Result<Comparisons, AllocError>
    requires lawful { IsLawful (design_view design.now) }
    ensures counts { IfOk result (λ xs. length xs ≡ suc design.now.steps) }
    ensures each { IfOk result
        (AreComparisonsOf (design_view design.now) case.now first.now stands.now) }
{
    let counts = exact_counts(alloc, design, case)?;
    let mut comparisons = Vec::new(alloc);
    let mut reached = first.clone()?;
    for count in 0..design.steps {
        let next = spec_step(alloc, design, &case.interp, &reached)?;
        comparisons.push(comparison_of(alloc, counts.as_slice(), count, reached, stands)?)?;
        reached = next;
    }
    let steps = design.steps;
    comparisons.push(comparison_of(alloc, counts.as_slice(), steps, reached, stands)?)?;
    Ok(Sequence::from_vec(comparisons))
}

/// How a number of steps, which leads to `reached`, compares with what the pipeline's state stands for.
fn comparison_of(
    alloc: Global,
    counts: &[u32],
    count: u32,
    reached: State,
    stands: &State,
) -> Result<Comparison, AllocError>
    ensures { IfOk result (λ x. IsCompared counts.now count reached stands.now x) }
{
    Ok(Comparison {
        allowed: allows(counts, count),
        same: same(stands.as_slice(), reached.as_slice()),
        differences: differences_of(alloc, stands.as_slice(), reached.as_slice())?,
        visible: reached,
    })
}

/// What else the state stands for, compared with what is visible once the pipeline is flushed.
pub fn other_of(alloc: Global, flushed: &State, other: State) -> Result<Comparison, AllocError>
    ensures { IfOk result (IsOther flushed.now other) }
{
    Ok(Comparison {
        allowed: true,
        same: same(flushed.as_slice(), other.as_slice()),
        differences: differences_of(alloc, flushed.as_slice(), other.as_slice())?,
        visible: other,
    })
}

/// Whether each count that is forced is this one.
fn allows(counts: &[u32], count: u32) -> bool
    ensures { IsTrue result ↔ AllByRecursion (λ n. n ≡ count) counts.now }
{
    counts.iter().all(|n| *n == count)
}
