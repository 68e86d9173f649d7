//! Whether a pipeline is right for so many cycles.
ghost use Rattle.std.specs.Prelude.{◌≡◌, ◌≤◌, ℕ, [], IfOk, OnOk, length};
ghost use Rattle.bd_cdcl.specs.Asks.{Asks, AsksAtMost};
ghost use Rattle.bd_model.specs.DesignView.{design_view};
ghost use Rattle.bd_model.specs.Lawful.{IsLawful};
ghost use Rattle.bd_model.specs.TrailJudged.{IsTrailJudged};
ghost use Rattle.bd_goal.specs.Bounded.{IsBroken};
ghost use Rattle.bd_bounded.specs.Answer.{HasWork, HasWorkIn, IsAnswerSaid, Says};
ghost use Rattle.bd_bounded.specs.Kept.{IsRunRoot};
ghost use Rattle.bd_model.specs.Limits.{most_cycles};

use crate::answer::Bounded;
use bd_cdcl::HonestSolver;
use bd_goal::bounded_goal;
use bd_model::{Design, Trail, TrailJudged, trails_decide};
use bd_sim::judge_trail;
use bd_terms::{Graph, Id};
use bd_verify::{Decided, Mode, decide_by};
use std::alloc::{AllocError, Global};

/// Whether a lawful design is right for so many cycles, from every state in which its invariant is true, by any honest
/// solver, which may add `budget` clauses. Nothing is asked of the invariant after the first state.
pub fn bounded<S: HonestSolver>(
    alloc: Global,
    solver: &mut S,
    design: &Design,
    cycles: u32,
    budget: u32,
) -> Result<Bounded, AllocError>
    requires lawful { IsLawful (design_view design.now) }
    requires few { cycles ≤ most_cycles }
    ensures says { IfOk result (Says (design_view design.now) cycles) }
    ensures work { IfOk result (HasWork (design_view design.now) cycles budget) }
    ensures asked { IfOk result (IsAnswerSaid (S.says solver.old solver.new) budget) }
    ensures counted { OnOk result (Asks (S.asked solver.old) (S.asked solver.new) 1) }
    ensures at_most { AsksAtMost (S.asked solver.old) (S.asked solver.new) 1 }
{
    bounded_by(alloc, solver, design, cycles, budget, Mode::Plain)
}

/// The same in this mode.
#[tactic(auto, using(bd_cdcl::proofs::Questions::none_asked))]
pub fn bounded_by<S: HonestSolver>(
    alloc: Global,
    solver: &mut S,
    design: &Design,
    cycles: u32,
    budget: u32,
    mode: Mode,
) -> Result<Bounded, AllocError>
    requires lawful { IsLawful (design_view design.now) }
    requires few { cycles ≤ most_cycles }
    ensures says { IfOk result (Says (design_view design.now) cycles) }
    ensures work { IfOk result (HasWorkIn (design_view design.now) cycles mode budget) }
    ensures asked { IfOk result (IsAnswerSaid (S.says solver.old solver.new) budget) }
    ensures counted { OnOk result (Asks (S.asked solver.old) (S.asked solver.new) 1) }
    ensures at_most { AsksAtMost (S.asked solver.old) (S.asked solver.new) 1 }
{
    trails_decide();
    let mut graph = Graph::new(alloc);
    let root = run_root(alloc, &mut graph, design, cycles)?;
    match decide_by(alloc, solver, design, &graph, root, cycles, budget, mode)? {
        Decided::Valid(work) => Ok(Bounded::Kept(work)),
        Decided::False(trail, work) => {
            let cycle = broken_cycle(alloc, design, &trail)?;
            Ok(Bounded::Broken(cycle, trail, work))
        }
        Decided::Spent(work) => Ok(Bounded::Undecided(work)),
    }
}

/// The root that decides whether so many cycles are right.
fn run_root(
    alloc: Global,
    graph: &mut Graph,
    design: &Design,
    cycles: u32,
) -> Result<Id, AllocError>
    requires lawful { IsLawful (design_view design.now) }
    requires few { cycles ≤ most_cycles }
    requires empty { graph.old ≡ [] }
    ensures { IfOk result (IsRunRoot (design_view design.now) cycles graph.new) }
{
    let goal = bounded_goal(alloc, graph, design, cycles)?;
    Ok(goal.root)
}

/// The first cycle that breaks, of a trail of which one does.
fn broken_cycle(alloc: Global, design: &Design, trail: &Trail) -> Result<u32, AllocError>
    requires lawful { IsLawful (design_view design.now) }
    requires broken { IsBroken (design_view design.now) trail.now }
    requires short { length trail.now.inputs ≤ most_cycles }
    ensures { IfOk result (λ cycle.
        IsTrailJudged (design_view design.now) trail.now (TrailJudged.Broken cycle)) }
{
    let judged = judge_trail(alloc, design, trail)?;
    Ok(cycle_of(judged))
}

/// The cycle that is judged to be broken.
fn cycle_of(judged: TrailJudged) -> u32
    requires { (cycle : ℕ) × (judged ≡ TrailJudged.Broken cycle) }
    ensures { judged ≡ TrailJudged.Broken result }
{
    match judged {
        TrailJudged::Broken(cycle) => cycle,
        _ => unreachable!(),
    }
}
