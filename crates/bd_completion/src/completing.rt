//! Whether a pipeline is right by an abstraction, and whether the abstraction agrees with flushing.
ghost use Rattle.std.specs.Prelude.{◌≡◌, [], IfOk, OnOk};
ghost use Rattle.bd_model.specs.Abstraction.{IsLawfulAbstraction, abstraction_view};
ghost use Rattle.bd_cdcl.specs.Asks.{Asks, AsksAtMost};
ghost use Rattle.bd_model.specs.DesignView.{design_view};
ghost use Rattle.bd_model.specs.Lawful.{IsLawful};
ghost use Rattle.bd_completion.specs.Answer.{HasWork, IsAnswerSaid, Says};
ghost use Rattle.bd_completion.specs.Kept.{IsRootBy};

use crate::answer::Complete;
use crate::judging::judge_by;
use bd_cdcl::HonestSolver;
use bd_goal::{agree_goal, goal_by};
use bd_model::{Abstraction, Design};
use bd_terms::{Graph, Id};
use bd_verify::{Decided, broken, decide, one_cycle};
use std::alloc::{AllocError, Global};

/// Whether a lawful design is right by an abstraction, or where `agree` is true whether the abstraction agrees with
/// flushing, by any honest solver, which may add `budget` clauses. Whether a state meets the invariant isn't asked.
#[tactic(auto, using(bd_cdcl::proofs::Questions::none_asked))]
pub fn complete<S: HonestSolver>(
    alloc: Global,
    solver: &mut S,
    design: &Design,
    abs: &Abstraction,
    agree: bool,
    budget: u32,
) -> Result<Complete, AllocError>
    requires lawful { IsLawful (design_view design.now) }
    requires abstraction { IsLawfulAbstraction (design_view design.now) abs.now }
    ensures says { IfOk result (Says (design_view design.now) (abstraction_view abs.now) agree) }
    ensures work { IfOk result (HasWork (design_view design.now)
        (abstraction_view abs.now) agree budget) }
    ensures asked { IfOk result (IsAnswerSaid (S.says solver.old solver.new) budget) }
    ensures counted { OnOk result (Asks (S.asked solver.old) (S.asked solver.new) 1) }
    ensures at_most { AsksAtMost (S.asked solver.old) (S.asked solver.new) 1 }
{
    let mut graph = Graph::new(alloc);
    let root = root_by(alloc, &mut graph, design, abs, agree)?;
    match decide(alloc, solver, design, &graph, root, 1, budget)? {
        Decided::Valid(work) => {
            if agree {
                Ok(Complete::Agree(work))
            } else {
                Ok(Complete::Right(work))
            }
        }
        Decided::False(trail, work) => {
            let case = one_cycle(trail);
            if agree {
                return Ok(Complete::Differ(case, work));
            }
            let condition = broken(judge_by(alloc, design, abs, &case)?);
            Ok(Complete::Wrong(condition, case, work))
        }
        Decided::Spent(work) => Ok(Complete::Undecided(work)),
    }
}

/// The root that decides the question: that the abstraction agrees with flushing, or that a cycle is right by it.
fn root_by(
    alloc: Global,
    graph: &mut Graph,
    design: &Design,
    abs: &Abstraction,
    agree: bool,
) -> Result<Id, AllocError>
    requires lawful { IsLawful (design_view design.now) }
    requires abstraction { IsLawfulAbstraction (design_view design.now) abs.now }
    requires empty { graph.old ≡ [] }
    ensures { IfOk result (IsRootBy (design_view design.now)
        (abstraction_view abs.now) agree graph.new) }
{
    if agree {
        let agreement = agree_goal(alloc, graph, design, abs)?;
        Ok(agreement.root)
    } else {
        let correspondence = goal_by(alloc, graph, design, abs)?;
        Ok(correspondence.root)
    }
}
