//! Terms of expressions.
ghost use Rattle.std.specs.Prelude.{◌≡◌, IfOk};
ghost use Rattle.bd_model.specs.ExprView.{expr_view, expr_views};
ghost use Rattle.bd_model.specs.ExprView.{And, Or};
ghost use Rattle.bd_model.specs.declared.design.Sort.TheVariants as sort;
ghost use Rattle.bd_model.specs.declared.design.Sort.{Sort};
ghost use Rattle.bd_model.specs.DesignView.{design_view};
ghost use Rattle.bd_model.specs.Lawful.{HasSort, IsWithinLimits};
ghost use Rattle.bd_symbolic.specs.DesignSymbols.{GrowsWithin};
ghost use Rattle.bd_symbolic.specs.Symbolic.{AreTerms, DenotesExpr, context_in};
ghost use Rattle.bd_symbolic.specs.Terms.{terms_of};
ghost use Rattle.bd_symbolic.specs.inner.Names.{names_view};
ghost use Rattle.bd_symbolic.specs.inner.Evaluates.{IsReady, AreReady, Evaluates, EvaluatesWords};

use crate::build::{apply, constant, iff, implies};
use crate::state::{SymState, TermIds};
use bd_model::{Design, Expr, Exprs};
use bd_terms::{Graph, Id};
use std::alloc::{AllocError, Global};

// What names stand for where an expression is built.
#[derive(Drop)]
pub(crate) struct Context<'a> {
    pub(crate) alloc: Global,
    pub(crate) design: &'a Design,
    pub(crate) entries: &'a [Id],
    pub(crate) inputs: &'a [Id],
    pub(crate) lets: &'a [Id],
}

/// The term of an expression of the design, where names stand for these terms: its entries and inputs for those of the
/// state, its lets for those of the list. If memory runs out, the graph may keep further nodes.
pub fn sym_eval(
    alloc: Global,
    graph: &mut Graph,
    design: &Design,
    expr: &Expr,
    state: &SymState,
    lets: &TermIds,
) -> Result<Id, AllocError>
    requires terms { AreTerms graph.old (terms_of (design_view design.now) state.now lets.now) }
    requires sorted { (s : Sort) × HasSort (context_in graph.old
        (terms_of (design_view design.now) state.now lets.now)) (expr_view expr.now) s }
    requires limits { IsWithinLimits (expr_view expr.now) }
    ensures term { IfOk result (λ id. DenotesExpr graph.old graph.new
        (terms_of (design_view design.now) state.now lets.now) (expr_view expr.now) id) }
    ensures grows { GrowsWithin (design_view design.now) graph.old graph.new }
{
    let names = Context {
        alloc,
        design,
        entries: state.entries.as_slice(),
        inputs: state.inputs.as_slice(),
        lets: lets.as_slice(),
    };
    eval(graph, &names, expr)
}

/// The term of an expression over the terms that its names stand for.
#[cycle(eval)]
pub(crate) fn eval(graph: &mut Graph, names: &Context, expr: &Expr) -> Result<Id, AllocError>
    requires { IsReady graph.old (names_view names.now) (expr_view expr.now) }
    ensures { Evaluates graph.old graph.new (names_view names.now) (expr_view expr.now) result }
{
    match expr {
        Expr::Bool(value) => constant(graph, *value),
        Expr::Entry(i) => Ok(names.entries[*i as usize]),
        Expr::Input(i) => Ok(names.inputs[*i as usize]),
        Expr::Local(i) => Ok(names.lets[*i as usize]),
        Expr::Not(a) => {
            let part = eval(graph, names, a)?;
            graph.mk_not(part)
        }
        Expr::And(parts) => all_of(graph, names, parts),
        Expr::Or(parts) => any_of(graph, names, parts),
        Expr::Implies(a, b) => {
            let first = eval(graph, names, a)?;
            let second = eval(graph, names, b)?;
            implies(graph, first, second)
        }
        Expr::Iff(a, b) => {
            let first = eval(graph, names, a)?;
            let second = eval(graph, names, b)?;
            iff(graph, first, second)
        }
        Expr::Equal(a, b) => {
            let first = eval(graph, names, a)?;
            let second = eval(graph, names, b)?;
            graph.mk_eq(first, second)
        }
        Expr::Ite(p, a, b) => {
            let control = eval(graph, names, p)?;
            let yes = eval(graph, names, a)?;
            let no = eval(graph, names, b)?;
            graph.mk_ite(control, yes, no)
        }
        Expr::Read(m, a) => {
            let memory = eval(graph, names, m)?;
            let address = eval(graph, names, a)?;
            graph.mk_read(memory, address)
        }
        Expr::Write(m, a, d) => {
            let memory = eval(graph, names, m)?;
            let address = eval(graph, names, a)?;
            let word = eval(graph, names, d)?;
            graph.mk_write(memory, address, word)
        }
        Expr::Apply(f, parts) => {
            let args = words_of(graph, names, parts)?;
            apply(graph, names.design, *f, args.as_slice())
        }
    }
}

/// The conjunction of the terms of expressions: true where there is none.
#[cycle(eval)]
fn all_of(graph: &mut Graph, names: &Context, parts: &Exprs) -> Result<Id, AllocError>
    requires { AreReady graph.old (names_view names.now) (expr_views parts.now) sort.Bool }
    ensures { Evaluates graph.old graph.new
        (names_view names.now) (And (expr_views parts.now)) result }
{
    let mut all = constant(graph, true)?;
    for part in &parts.items {
        let next = eval(graph, names, part)?;
        all = graph.mk_and(all, next)?;
    }
    Ok(all)
}

/// The disjunction of the terms of expressions: false where there is none.
#[cycle(eval)]
fn any_of(graph: &mut Graph, names: &Context, parts: &Exprs) -> Result<Id, AllocError>
    requires { AreReady graph.old (names_view names.now) (expr_views parts.now) sort.Bool }
    ensures { Evaluates graph.old graph.new
        (names_view names.now) (Or (expr_views parts.now)) result }
{
    let mut any = constant(graph, false)?;
    for part in &parts.items {
        let next = eval(graph, names, part)?;
        any = graph.mk_or(any, next)?;
    }
    Ok(any)
}

/// The terms of expressions of words, in order, as a symbol's arguments.
#[cycle(eval)]
fn words_of(graph: &mut Graph, names: &Context, parts: &Exprs) -> Result<Vec<Id>, AllocError>
    requires { AreReady graph.old (names_view names.now) (expr_views parts.now) sort.Word }
    ensures { EvaluatesWords graph.old graph.new
        (names_view names.now) (expr_views parts.now) result }
{
    let mut args = Vec::new(names.alloc);
    for part in &parts.items {
        args.push(eval(graph, names, part)?)?;
    }
    Ok(args)
}
