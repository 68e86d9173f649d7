//! The case that a flat form lifts to, where no atom has a value.
ghost use Rattle.std.specs.Prelude.{◌≡◌, [], IfOk};
ghost use Rattle.bd_model.specs.DesignView.{design_view};
ghost use Rattle.bd_model.specs.Lawful.{IsLawful};
ghost use Rattle.bd_model.specs.declared.design.Sort.TheVariants as sort;
ghost use Rattle.bd_terms.specs.Graph.{HasSort};
ghost use Rattle.bd_goal.specs.Symbols.{ReachesKnown};
ghost use Rattle.bd_transitive.specs.Orders.{IsOrder};
ghost use Rattle.bd_lift.specs.Lifted.{AreKnown};

use crate::graphs::has_no_memory;
use crate::texts::read_with;
use bd_case::case_text;
use bd_function::{Flat, flatten};
use bd_goal::meets;
use bd_lift::lift;
use bd_model::{Case, Design};
use bd_prop::AtomValues;
use bd_terms::{Graph, Id};
use bd_transitive::{Edges, Order, Vertices};
use std::alloc::{AllocError, Global};
use std::process::Abort;
use std::test::Fail;

/// Symbols of each kind, of which two constants are kept apart.
static PIPE: &[u8] = b"(pipeline
 (predicate j 1) (function n 1) (function a 0) (function b 0) (function c 0) (distinct a b)
 (latch p word) (latch v bool) (input s bool true) (input d word p)
 (next p d) (next v s) (flush 0) (steps 0))";

static SPEC: &[u8] = b"(specification (latch p word) (next p p))";

/// The formula that this is false reaches three applications, in this order: p, a and n.
static INV: &[u8] = b"(invariant (= (n (a)) p))";

/// After the classes of two vertices, variable x in no edge has 2 + 2x, and constant f without a variable, which is
/// the symbol of that place, 2 + 2f + 1. All else is 0 or false.
const CASE: &[u8] = b"(case 2
 (predicate j false)
 (function n 0 (4 6))
 (constant a 4)
 (constant b 9)
 (function c 11)
 (latch p 2)
 (latch v false)
 (input s false)
 (input d 0))
";

/// An order of two vertices that no edge joins.
fn unjoined(alloc: Global) -> Result<Order, AllocError>
    ensures order { IfOk result IsOrder }
    ensures edges { IfOk result (λ order. order.edges ≡ []) }
{
    let numbers = vec![in alloc; 8, 9]?;
    let vertices = Vertices::from_vec(numbers);
    let edges = Edges::new(alloc);
    Ok(Order { vertices, edges })
}

/// Whether the case is the one that was worked out by hand.
fn is_expected(alloc: Global, design: &Design, case: &Case) -> Result<bool, AllocError> {
    let text = case_text(alloc, design, case)?;
    Ok(text.as_slice() == CASE)
}

/// Whether the flat form lifts to that case over an order without edges, where no atom has a value.
fn lifts(alloc: Global, design: &Design, flat: &Flat, order: &Order) -> Result<bool, AllocError>
    requires lawful { IsLawful (design_view design.now) }
    requires known { AreKnown (design_view design.now) flat.now.graph flat.now.syms }
    requires order { IsOrder order.now }
    requires edges { order.now.edges ≡ [] }
{
    let values = AtomValues::new(alloc);
    let case = lift(alloc, design, flat, order, &values)?;
    is_expected(alloc, design, &case)
}

/// Whether the flat form of a root over the design's symbols lifts to that case.
fn lifts_root(
    rt: &(impl Abort + AllocGlobal),
    design: &Design,
    graph: &Graph,
    root: Id,
) -> Result<bool, AllocError>
    requires lawful { IsLawful (design_view design.now) }
    requires sorted { HasSort graph.now root sort.Bool }
    requires known { ReachesKnown (design_view design.now) 0 graph.now root }
{
    assert!(rt; has_no_memory(graph, root));
    let order = unjoined(rt.alloc())?;
    let flat = flatten(rt.alloc(), graph, root)?;
    lifts(rt.alloc(), design, &flat, &order)
}

/// Whether the flat form of the formula that the design's invariant is false lifts to that case.
fn lifts_invariant(rt: &(impl Abort + AllocGlobal), design: &Design) -> Result<bool, AllocError>
    requires { IsLawful (design_view design.now) }
{
    let mut graph = Graph::new(rt.alloc());
    let root = meets(rt.alloc(), &mut graph, design)?;
    lifts_root(rt, design, &graph, root)
}

/// Reads the small design, and lifts.
fn lifts_example(rt: &(impl Abort + AllocGlobal)) -> Result<bool, AllocError> {
    match read_with(rt, PIPE, SPEC, INV) {
        Some(design) => lifts_invariant(rt, &design),
        None => Ok(false),
    }
}

/// Each symbol that the formula applies has its decoded table, and each other constant a number of its own.
#[test]
fn a_flat_form_lifts_to_a_case(rt: HostRuntime) -> Result<(), Fail> {
    assert!(&rt; lifts_example(&rt)?);
    Ok(())
}
