//! Cycles of the small design, with their terms counted by hand.
ghost use Rattle.bd_model.specs.DesignView.{design_view};
ghost use Rattle.bd_model.specs.Lawful.{IsLawful};
ghost use Rattle.bd_symbolic.specs.DesignSymbols.{KeepsDesign};

use crate::graphs::is_shown;
use crate::texts::read;
use bd_model::Design;
use bd_symbolic::{SymState, TermIds, project, sym_flush, sym_spec_step, sym_state, sym_step};
use bd_terms::Graph;
use std::alloc::AllocError;
use std::process::Abort;
use std::test::Fail;

/// Each form of expressions, but for a constant that is false.
static PIPE: &[u8] = b"(pipeline
 (function n 1) (predicate j 1) (function z 0)
 (memory m) (latch p word) (latch v bool)
 (input s bool (not v)) (input d word (z))
 (let fetched memory (ite v (write m p d) m))
 (let data word (read fetched p))
 (let quiet bool (implies (iff v s) (= p data)))
 (next m fetched)
 (next p (ite s p (n data)))
 (next v (and (not s) (or (j p) quiet) true))
 (flush 1) (steps 1))";

static SPEC: &[u8] = b"(specification
 (function n 1) (function z 0)
 (memory m) (latch p word)
 (let step word (n p))
 (next m (write m p (z)))
 (next p step))";

/// The terms: before the first cycle; the lets of the first cycle; its next expressions; the lets of the flush cycle,
/// with the inputs before it; the flush expressions; the lets with their values; the next expressions; a step of the
/// specification.
const TERMS: &str = "init 0, E 1, E? 2, I? 0, I 1, \
write 0 1 4, ite 2 5 0, read 6 1, not 3, ite 2 3 8, = 1 7, not 9, or 11 10, \
F 0 7, ite 3 1 13, true, not 15, F? 1 1, or 17 12, and 8 18, \
write 6 14 4, ite 19 20 6, read 21 14, ite 19 3 8, = 14 22, not 23, or 25 24, \
not 19, F 2, \
write 6 14 28, ite 19 29 6, read 30 14, ite 19 27 19, = 14 31, not 32, or 34 33, \
F 0 31, ite 27 14 36, F? 1 14, or 38 35, and 19 39, \
F 0 1, write 0 1 28";

/// Checks that these names stand for the terms at these places.
fn are_at(rt: &impl Abort, ids: &TermIds, places: &[usize]) {
    assert_eq!(rt; ids.len(), places.len());
    for (id, place) in ids.as_slice().iter().zip(places) {
        assert_eq!(rt; id.index(), *place);
    }
}

/// Checks that a symbolic state has its entries and its inputs at these places of the graph.
fn state_is(rt: &impl Abort, state: &SymState, entries: &[usize], inputs: &[usize]) {
    are_at(rt, &state.entries, entries);
    are_at(rt, &state.inputs, inputs);
}

/// Checks where the terms of a cycle, of its flush and of a step of the specification stand.
fn runs(
    rt: &(impl Abort + AllocGlobal),
    graph: &mut Graph,
    design: &Design,
) -> Result<(), AllocError>
    requires lawful { IsLawful (design_view design.now) }
    requires keeps { KeepsDesign (design_view design.now) graph.old }
{
    let alloc = rt.alloc();
    let state = sym_state(alloc, graph, design)?;
    state_is(rt, &state, &[0, 1, 2], &[3, 4]);
    let next = sym_step(alloc, graph, design, &state)?;
    state_is(rt, &next, &[6, 14, 19], &[3, 4]);
    let flushed = sym_flush(alloc, graph, design, &next)?;
    state_is(rt, &flushed, &[30, 37, 40], &[3, 4]);
    let visible = project(alloc, design, &state)?;
    state_is(rt, &visible, &[0, 1], &[]);
    let stepped = sym_spec_step(alloc, graph, design, &visible)?;
    state_is(rt, &stepped, &[42, 41], &[]);
    Ok(())
}

/// Checks the cycles of a design in a graph of their own, and all terms that they leave there.
fn runs_alone(rt: &(impl Abort + AllocGlobal), design: &Design) -> Result<(), AllocError>
    requires { IsLawful (design_view design.now) }
{
    let mut graph = Graph::new(rt.alloc());
    runs(rt, &mut graph, design)?;
    assert!(rt; is_shown(rt, &graph, TERMS));
    Ok(())
}

/// Reads the small design, and checks its cycles.
fn runs_example(rt: &(impl Abort + AllocGlobal)) -> Result<(), AllocError> {
    match read(rt, PIPE, SPEC) {
        Some(design) => runs_alone(rt, &design),
        None => Ok(()),
    }
}

/// A cycle, its flush and a step of the specification make the terms written by hand.
#[test]
fn cycles_have_their_terms(rt: HostRuntime) -> Result<(), Fail> {
    runs_example(&rt)?;
    Ok(())
}
