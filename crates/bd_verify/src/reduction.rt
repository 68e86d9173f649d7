//! From a root to the formula that is kept of it, layer by layer.
ghost use Rattle.std.specs.Prelude.{◌<◌, ℕ, IfOk, length, option_copied};
ghost use Rattle.bd_model.specs.DesignView.{design_view};
ghost use Rattle.bd_model.specs.declared.design.Sort.TheVariants as sort;
ghost use Rattle.bd_symbolic.specs.Widened.{widened};
ghost use Rattle.bd_terms.specs.Graph.{HasSort};
ghost use Rattle.bd_verify.specs.Decided.{IsThis};
ghost use Rattle.bd_verify.specs.Kept.{AreMarks, IsFlatOf, IsFormulaOf, IsNegation};
ghost use Rattle.bd_verify.specs.inner.Reduced.{HasFlatOf, HasFormulaOf};

use crate::edges::with_edges;
use crate::verdict::Mode;
use bd_diverse::{marked, positive};
use bd_equality::encode;
use bd_function::{Flat, Marked, flatten};
use bd_memory::forward;
use bd_model::Design;
use bd_prop::{Gathered, Prop, gather};
use bd_terms::{Graph, Id};
use bd_transitive::{Order, order};
use bd_tseitin::{Formula, clauses};
use bd_walk::in_walk_order;
use std::alloc::{AllocError, Global};

/// The formula that is kept of a root, and what leads from its assignments back to a case.
#[derive(Drop)]
pub(crate) struct Reduction {
    pub flat: Flat,
    /// The variables that are taken as different from all others.
    pub marked: Option<Marked>,
    pub order: Order,
    pub formula: Formula,
}

/// The formula of a root, over inputs of as many cycles as it may reach.
pub(crate) fn reduced(
    alloc: Global,
    design: &Design,
    graph: &Graph,
    root: Id,
    mode: Mode,
) -> Result<Reduction, AllocError>
    requires { HasSort graph.now root sort.Bool }
    ensures flat { IfOk result (HasFlatOf graph.now root mode) }
    ensures formula { IfOk result (λ r. (cycles : ℕ) →
        HasFormulaOf (widened (design_view design.now) cycles) r) }
{
    let (flat, marked) = flat_of(alloc, graph, root, mode)?;
    let (order, formula) = formula_of(alloc, design, &flat, marked.as_ref())?;
    Ok(Reduction {
        flat,
        marked,
        order,
        formula,
    })
}

/// The clauses of a flat formula's negation, and the order of its edges.
fn formula_of(
    alloc: Global,
    design: &Design,
    flat: &Flat,
    marked: Option<&Marked>,
) -> Result<(Order, Formula), AllocError>
    ensures { IfOk result (λ r. (cycles : ℕ) →
        IsFormulaOf (widened (design_view design.now) cycles)
        flat.now.graph flat.now.root flat.now.syms
        (option_copied marked.entry) r.0 r.1.cnf r.1.atoms) }
{
    let encoded = encode(alloc, flat, &design.distinct, marked)?;
    let denied = negated(alloc, encoded.prop, encoded.root)?;
    let nodes = denied.prop.nodes();
    prove!(nodes.len() < 1 << 60);
    let formula = clauses(alloc, &denied.prop, denied.root)?;
    let order = order(alloc, &encoded.edges)?;
    let formula = with_edges(alloc, formula, &order, encoded.apart.as_slice())?;
    Ok((order, formula))
}

/// The negated root, whose choices are gathered into trees.
pub fn negated(alloc: Global, prop: Prop, root: usize) -> Result<Gathered, AllocError>
    requires { root < length prop }
    ensures { IfOk result (λ g. IsNegation prop root g.prop g.root) }
{
    let mut prop = prop;
    let negation = prop.mk_not(root)?;
    let gathered = gather(alloc, &prop, negation)?;
    Ok(gathered)
}

/// The root without memories and functions, and in diverse mode the variables that are taken as different from all
/// others.
fn flat_of(
    alloc: Global,
    graph: &Graph,
    root: Id,
    mode: Mode,
) -> Result<(Flat, Option<Marked>), AllocError>
    requires { HasSort graph.now root sort.Bool }
    ensures { IfOk result (λ r. IsFlatOf (IsThis graph.now root) mode
        r.0.graph r.0.root r.0.syms r.1) }
{
    prove!(root.index() < graph.len());
    let (built, built_root) = forward(alloc, graph, root)?;
    let (plain, plain_root) = in_walk_order(alloc, &built, built_root)?;
    let flat = flatten(alloc, &plain, plain_root)?;
    let marked = marks(alloc, &plain, plain_root, &flat, mode)?;
    Ok((flat, marked))
}

/// In diverse mode the variables of the applications of positive symbols.
fn marks(
    alloc: Global,
    plain: &Graph,
    root: Id,
    flat: &Flat,
    mode: Mode,
) -> Result<Option<Marked>, AllocError>
    requires { root < length plain.now }
    ensures { IfOk result (AreMarks mode plain.now root flat.now.syms) }
{
    match mode {
        Mode::Plain => Ok(None),
        Mode::Diverse => {
            let symbols = positive(alloc, plain, root)?;
            Ok(Some(marked(alloc, flat, &symbols)?))
        }
    }
}
