//! Values of expressions, each with what it rests on.
//!
//! Of a choice that is its condition and the branch taken, of a conjunction the first part that is false, of a read the
//! comparisons with the addresses written and the word that it meets. Lets are valued once, in order.
ghost use Rattle.std.specs.Prelude.{◌≡◌, ◌==◌, ◌||◌, IfOk, IsTrue, List, map, not, ℕ};
ghost use Rattle.std.specs.List.{list_all, list_any};
ghost use mathlib.Core.Bool.{beq};
ghost use Rattle.bd_model.specs.ExprView.{expr_view, expr_views, Not, Implies, Iff, Equal, Ite, Read, Write, Apply};
ghost use Rattle.bd_model.specs.Table.{at};
ghost use Rattle.bd_model.specs.Value.{is_true, scalar_truth, scalar_word, table_of, value_of, values_of, word_of};
ghost use Rattle.bd_slice.specs.inner.Followed.{Other, Holds, Grows, Follows, Combines};
ghost use Rattle.bd_slice.specs.inner.Env.{InOthers, Traces, TracesScalar};

use crate::graph::SupportGraph;
use crate::kept::{Kept, Traced, kept_at, traced_at};
use crate::place::CasePlace;
use bd_model::{Case, Expr, Exprs, Local, Scalar, Sequence, Words};
use bd_sim::table_at;
use std::alloc::{AllocError, Global};

/// What names stand for where an expression is valued.
#[derive(Drop)]
pub struct Names<'a> {
    pub alloc: Global,
    pub case: &'a Case,
    pub state: &'a [Kept],
    pub inputs: &'a [Traced],
    pub lets: Vec<Kept>,
}

/// Words, and the node of what they rest on.
#[derive(Drop)]
struct Arguments {
    words: Words,
    node: usize,
}

impl SupportGraph {
    /// Whether the first scalar implies the second: what decides is the first where it is false, else the second where
    /// it is true, else both.
    fn implied(&mut self, p: Traced, q: Traced) -> Result<Traced, AllocError>
        ensures grows { IfOk result (λ t. Grows self.old.nodes self.new.nodes) }
        ensures follows { IfOk result (λ t. Combines self.new.nodes p q t
            (λ x y. Scalar.Bool (not (scalar_truth x) || scalar_truth y))) }
    {
        if !p.value.truth() {
            return Ok(Traced {
                value: Scalar::Bool(true),
                node: p.node,
            });
        }
        if q.value.truth() {
            return Ok(Traced {
                value: Scalar::Bool(true),
                node: q.node,
            });
        }
        Ok(Traced {
            value: Scalar::Bool(false),
            node: self.both(p.node, q.node)?,
        })
    }

    /// Whether two scalars have the same truth value, which rests on both.
    fn same_truth(&mut self, p: Traced, q: Traced) -> Result<Traced, AllocError>
        ensures grows { IfOk result (λ t. Grows self.old.nodes self.new.nodes) }
        ensures follows { IfOk result (λ t. Combines self.new.nodes p q t
            (λ x y. Scalar.Bool (beq (scalar_truth x) (scalar_truth y)))) }
    {
        Ok(Traced {
            value: Scalar::Bool(p.value.truth() == q.value.truth()),
            node: self.both(p.node, q.node)?,
        })
    }

    /// Whether two scalars are the same word, which rests on both.
    fn same_word(&mut self, p: Traced, q: Traced) -> Result<Traced, AllocError>
        ensures grows { IfOk result (λ t. Grows self.old.nodes self.new.nodes) }
        ensures follows { IfOk result (λ t. Combines self.new.nodes p q t
            (λ x y. Scalar.Bool (scalar_word x == scalar_word y))) }
    {
        Ok(Traced {
            value: Scalar::Bool(p.value.word() == q.value.word()),
            node: self.both(p.node, q.node)?,
        })
    }

    /// What a symbol's table has at arguments, which rests on these and on the table's row for them.
    fn applied(&mut self, case: &Case, f: u32, args: Arguments) -> Result<Traced, AllocError>
        ensures grows { IfOk result (λ t. Grows self.old.nodes self.new.nodes) }
        ensures follows { IfOk result (λ t. (o : Other) (ns : List ℕ) →
            Holds case.now self.new.nodes o →
            (IsTrue (o.has args.node) → ns ≡ args.words) →
            Follows o t (at (table_of o.case.interp f) ns)) }
    {
        let value = table_at(case.interp.as_slice(), f, args.words.as_slice());
        let row = self.place(CasePlace::Row(f, args.words))?;
        Ok(Traced {
            value,
            node: self.both(args.node, row)?,
        })
    }
}

/// The value of an expression, with what it rests on.
#[cycle(trace)]
pub fn trace(graph: &mut SupportGraph, names: &Names, expr: &Expr) -> Result<Kept, AllocError>
    ensures grows { IfOk result (λ k. Grows graph.old.nodes graph.new.nodes) }
    ensures follows { IfOk result (λ k. Traces graph.new.nodes names.now (expr_view expr.now) k) }
{
    match expr {
        Expr::Bool(b) => Ok(Kept::Scalar(Traced::constant(Scalar::Bool(*b)))),
        Expr::Entry(i) => Ok(kept_at(names.state, *i)?),
        Expr::Input(i) => Ok(Kept::Scalar(traced_at(names.inputs, *i))),
        Expr::Local(i) => Ok(kept_at(names.lets.as_slice(), *i)?),
        Expr::Not(a) => trace_not(graph, names, a),
        Expr::And(parts) => Ok(Kept::Scalar(trace_all(graph, names, parts)?)),
        Expr::Or(parts) => Ok(Kept::Scalar(trace_any(graph, names, parts)?)),
        Expr::Implies(a, b) => trace_implies(graph, names, a, b),
        Expr::Iff(a, b) => trace_iff(graph, names, a, b),
        Expr::Equal(a, b) => trace_equal(graph, names, a, b),
        Expr::Ite(p, a, b) => trace_choice(graph, names, p, a, b),
        Expr::Read(m, a) => trace_read(graph, names, m, a),
        Expr::Write(m, a, d) => trace_written(graph, names, m, a, d),
        Expr::Apply(f, args) => trace_applied(graph, names, *f, args),
    }
}

/// The value of a `not`, which rests on what its part rests on.
#[cycle(trace)]
fn trace_not(graph: &mut SupportGraph, names: &Names, a: &Expr) -> Result<Kept, AllocError>
    ensures grows { IfOk result (λ k. Grows graph.old.nodes graph.new.nodes) }
    ensures follows { IfOk result (λ k. Traces graph.new.nodes names.now
        (Not (expr_view a.now)) k) }
{
    let part = trace_scalar(graph, names, a)?;
    Ok(Kept::Scalar(Traced {
        value: Scalar::Bool(!part.value.truth()),
        node: part.node,
    }))
}

/// The value of an `implies`, with what decides it.
#[cycle(trace)]
fn trace_implies(
    graph: &mut SupportGraph,
    names: &Names,
    a: &Expr,
    b: &Expr,
) -> Result<Kept, AllocError>
    ensures grows { IfOk result (λ k. Grows graph.old.nodes graph.new.nodes) }
    ensures follows { IfOk result (λ k. Traces graph.new.nodes names.now
        (Implies (expr_view a.now) (expr_view b.now)) k) }
{
    let p = trace_scalar(graph, names, a)?;
    let q = trace_scalar(graph, names, b)?;
    Ok(Kept::Scalar(graph.implied(p, q)?))
}

/// The value of an `iff`, which rests on both of its parts.
#[cycle(trace)]
fn trace_iff(
    graph: &mut SupportGraph,
    names: &Names,
    a: &Expr,
    b: &Expr,
) -> Result<Kept, AllocError>
    ensures grows { IfOk result (λ k. Grows graph.old.nodes graph.new.nodes) }
    ensures follows { IfOk result (λ k. Traces graph.new.nodes names.now
        (Iff (expr_view a.now) (expr_view b.now)) k) }
{
    let p = trace_scalar(graph, names, a)?;
    let q = trace_scalar(graph, names, b)?;
    Ok(Kept::Scalar(graph.same_truth(p, q)?))
}

/// The value of an `=`, which rests on both of its parts.
#[cycle(trace)]
fn trace_equal(
    graph: &mut SupportGraph,
    names: &Names,
    a: &Expr,
    b: &Expr,
) -> Result<Kept, AllocError>
    ensures grows { IfOk result (λ k. Grows graph.old.nodes graph.new.nodes) }
    ensures follows { IfOk result (λ k. Traces graph.new.nodes names.now
        (Equal (expr_view a.now) (expr_view b.now)) k) }
{
    let p = trace_scalar(graph, names, a)?;
    let q = trace_scalar(graph, names, b)?;
    Ok(Kept::Scalar(graph.same_word(p, q)?))
}

/// The value of an `ite`: that of the branch taken, which rests on the condition too.
#[cycle(trace)]
fn trace_choice(
    graph: &mut SupportGraph,
    names: &Names,
    p: &Expr,
    a: &Expr,
    b: &Expr,
) -> Result<Kept, AllocError>
    ensures grows { IfOk result (λ k. Grows graph.old.nodes graph.new.nodes) }
    ensures follows { IfOk result (λ k. Traces graph.new.nodes names.now
        (Ite (expr_view p.now) (expr_view a.now) (expr_view b.now)) k) }
{
    let condition = trace_scalar(graph, names, p)?;
    if condition.value.truth() {
        let taken = trace(graph, names, a)?;
        let chosen = graph.under(names.alloc, condition.node, taken)?;
        Ok(chosen)
    } else {
        let taken = trace(graph, names, b)?;
        let chosen = graph.under(names.alloc, condition.node, taken)?;
        Ok(chosen)
    }
}

/// The value of a `read`: the word of its memory at its address.
#[cycle(trace)]
fn trace_read(
    graph: &mut SupportGraph,
    names: &Names,
    m: &Expr,
    a: &Expr,
) -> Result<Kept, AllocError>
    ensures grows { IfOk result (λ k. Grows graph.old.nodes graph.new.nodes) }
    ensures follows { IfOk result (λ k. Traces graph.new.nodes names.now
        (Read (expr_view m.now) (expr_view a.now)) k) }
{
    let memory = trace(graph, names, m)?.memory(names.alloc)?;
    let address = trace_scalar(graph, names, a)?.word();
    let read = graph.read(names.case, &memory, address)?;
    Ok(Kept::Scalar(read.scalar()))
}

/// The value of a `write`: its memory with the word at the address.
#[cycle(trace)]
fn trace_written(
    graph: &mut SupportGraph,
    names: &Names,
    m: &Expr,
    a: &Expr,
    d: &Expr,
) -> Result<Kept, AllocError>
    ensures grows { IfOk result (λ k. Grows graph.old.nodes graph.new.nodes) }
    ensures follows { IfOk result (λ k. Traces graph.new.nodes names.now
        (Write (expr_view m.now) (expr_view a.now) (expr_view d.now)) k) }
{
    let memory = trace(graph, names, m)?.memory(names.alloc)?;
    let address = trace_scalar(graph, names, a)?.word();
    let word = trace_scalar(graph, names, d)?.word();
    Ok(Kept::Memory(memory.written(names.alloc, address, word)?))
}

/// The value of an application: what its table has at its arguments.
#[cycle(trace)]
fn trace_applied(
    graph: &mut SupportGraph,
    names: &Names,
    f: u32,
    args: &Exprs,
) -> Result<Kept, AllocError>
    ensures grows { IfOk result (λ k. Grows graph.old.nodes graph.new.nodes) }
    ensures follows { IfOk result (λ k. Traces graph.new.nodes names.now
        (Apply f (expr_views args.now)) k) }
{
    let args = trace_words(graph, names, args)?;
    Ok(Kept::Scalar(graph.applied(names.case, f, args)?))
}

/// The value of an expression as a scalar.
#[cycle(trace)]
pub fn trace_scalar(
    graph: &mut SupportGraph,
    names: &Names,
    expr: &Expr,
) -> Result<Traced, AllocError>
    ensures grows { IfOk result (λ t. Grows graph.old.nodes graph.new.nodes) }
    ensures follows { IfOk result (λ t.
        TracesScalar graph.new.nodes names.now (expr_view expr.now) t) }
{
    Ok(trace(graph, names, expr)?.scalar())
}

/// Whether all expressions of a list are true: the first that is false decides, else all.
#[cycle(trace)]
fn trace_all(graph: &mut SupportGraph, names: &Names, parts: &Exprs) -> Result<Traced, AllocError>
    ensures grows { IfOk result (λ t. Grows graph.old.nodes graph.new.nodes) }
    ensures follows { IfOk result (λ t. InOthers graph.new.nodes names.now (λ o env.
        Follows o t (Scalar.Bool (list_all is_true (values_of env (expr_views parts.now)))))) }
{
    let mut node = 0;
    for part in &parts.items {
        let traced = trace_scalar(graph, names, part)?;
        if !traced.value.truth() {
            return Ok(Traced {
                value: Scalar::Bool(false),
                node: traced.node,
            });
        }
        node = graph.both(node, traced.node)?;
    }
    Ok(Traced {
        value: Scalar::Bool(true),
        node,
    })
}

/// Whether some expression of a list is true: the first that is true decides, else all.
#[cycle(trace)]
fn trace_any(graph: &mut SupportGraph, names: &Names, parts: &Exprs) -> Result<Traced, AllocError>
    ensures grows { IfOk result (λ t. Grows graph.old.nodes graph.new.nodes) }
    ensures follows { IfOk result (λ t. InOthers graph.new.nodes names.now (λ o env.
        Follows o t (Scalar.Bool (list_any is_true (values_of env (expr_views parts.now)))))) }
{
    let mut node = 0;
    for part in &parts.items {
        let traced = trace_scalar(graph, names, part)?;
        if traced.value.truth() {
            return Ok(Traced {
                value: Scalar::Bool(true),
                node: traced.node,
            });
        }
        node = graph.both(node, traced.node)?;
    }
    Ok(Traced {
        value: Scalar::Bool(false),
        node,
    })
}

/// The words of expressions, and the node of what they rest on.
#[cycle(trace)]
fn trace_words(
    graph: &mut SupportGraph,
    names: &Names,
    parts: &Exprs,
) -> Result<Arguments, AllocError>
    ensures grows { IfOk result (λ a. Grows graph.old.nodes graph.new.nodes) }
    ensures follows { IfOk result (λ a. InOthers graph.new.nodes names.now (λ o env.
        IsTrue (o.has a.node) → map word_of (values_of env (expr_views parts.now)) ≡ a.words)) }
{
    let mut words = Vec::new(names.alloc);
    let mut node = 0;
    for part in &parts.items {
        let traced = trace_scalar(graph, names, part)?;
        words.push(traced.value.word())?;
        node = graph.both(node, traced.node)?;
    }
    Ok(Arguments {
        words: Sequence::from_vec(words),
        node,
    })
}
