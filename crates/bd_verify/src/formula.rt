//! The kept formula alone, for those who bring a proof of their own.
ghost use Rattle.std.specs.Prelude.{IfOk};
ghost use Rattle.bd_model.specs.DesignView.{design_view};
ghost use Rattle.bd_model.specs.Lawful.{IsLawful};
ghost use Rattle.bd_verify.specs.Kept.{IsKept};
ghost use Rattle.bd_verify.specs.Verdict.{IsAsked, Keeps};

use crate::asking::root_of;
use crate::reduction::{Reduction, reduced};
use crate::verdict::{Mode, Question};
use bd_cnf::Cnf;
use bd_model::Design;
use bd_terms::Graph;
use bd_tseitin::Formula;
use std::alloc::{AllocError, Global};

/// The formula that is kept of the question whether a case breaks a condition, in plain mode: it is satisfiable exactly
/// where one does.
pub fn kept(alloc: Global, design: &Design) -> Result<Cnf, AllocError>
    requires { IsLawful (design_view design.now) }
    ensures kept { IfOk result (IsKept (design_view design.now) Question.Breaks Mode.Plain) }
    ensures decides { IfOk result (Keeps (design_view design.now)
        (IsAsked Question.Breaks (design_view design.now))) }
{
    kept_in(alloc, design, Mode::Plain)
}

/// The formula that is kept of the question whether a case breaks a condition, in a mode: it is satisfiable exactly
/// where one does.
pub fn kept_in(alloc: Global, design: &Design, mode: Mode) -> Result<Cnf, AllocError>
    requires { IsLawful (design_view design.now) }
    ensures kept { IfOk result (IsKept (design_view design.now) Question.Breaks mode) }
    ensures decides { IfOk result (Keeps (design_view design.now)
        (IsAsked Question.Breaks (design_view design.now))) }
{
    let mut graph = Graph::new(alloc);
    let root = root_of(alloc, &mut graph, design, Question::Breaks)?;
    let reduction = reduced(alloc, design, &graph, root, mode)?;
    let Reduction { formula, .. } = reduction;
    let Formula { cnf, .. } = formula;
    Ok(cnf)
}
