//! On what rests what is wanted.
ghost use Rattle.std.specs.Prelude.{◌≡◌, ◌<◌, ◌++◌, ◌∷◌, [], true, false, OnOk, length, map, slice_get};
ghost use Rattle.bd_equality.specs.inner.Split.{AreAlike, IsWanted, arguments_at, equations, node_parts, part, parts, visit_of};

use crate::rows::arguments_at;
use crate::split::sides;
use crate::wanted::{RowPair, Visit, Wanted, Way, between};
use bd_function::Flat;
use bd_terms::{Graph, Id, Node};
use std::alloc::AllocError;

/// Puts a visit on the stack: one that makes a node in this way, or one that looks at what is wanted.
pub(crate) fn push(
    visits: &mut Vec<Visit>,
    wanted: Wanted,
    way: Option<Way>,
) -> Result<(), AllocError>
    ensures { OnOk result (visits.new.items ≡ visits.old.items ++ visit_of wanted way ∷ []) }
{
    match way {
        Some(way) => visits.push(Visit::Finish(wanted, way))?,
        None => visits.push(Visit::Enter(wanted))?,
    }
    Ok(())
}

/// Puts on the stack what the wanted rests on.
pub(crate) fn push_parts(
    visits: &mut Vec<Visit>,
    flat: &Flat,
    wanted: &Wanted,
    way: &Way,
) -> Result<(), AllocError>
    requires wanted { IsWanted flat.now.graph wanted.now }
    requires way { AreAlike flat.now.syms way.now }
    ensures { OnOk result (visits.new.items
        ≡ visits.old.items ++ map Visit.Enter (parts flat.now.graph flat.now.syms wanted.now way.now)) }
{
    match wanted {
        Wanted::Truth(id) => push_truths(visits, &flat.graph, *id),
        Wanted::Equation(left, right) => match way {
            Way::Control(control) => push_sides(visits, &flat.graph, *control, *left, *right),
            Way::Arguments(pair) => push_arguments(visits, flat, *pair),
            _ => Ok(()),
        },
    }
}

/// Puts the parts of a truth value on the stack, the first one on top.
fn push_truths(visits: &mut Vec<Visit>, graph: &Graph, id: Id) -> Result<(), AllocError>
    requires { id < length graph.now }
    ensures { OnOk result (visits.new.items
        ≡ visits.old.items ++ map Visit.Enter (node_parts (slice_get graph.now id))) }
{
    match graph.node(id) {
        Node::Not(a) => push(visits, Wanted::Truth(*a), None),
        Node::And(a, b) => {
            push(visits, Wanted::Truth(*b), None)?;
            push(visits, Wanted::Truth(*a), None)
        }
        Node::Or(a, b) => {
            push(visits, Wanted::Truth(*b), None)?;
            push(visits, Wanted::Truth(*a), None)
        }
        Node::Ite(control, yes, no) => {
            push(visits, Wanted::Truth(*no), None)?;
            push(visits, Wanted::Truth(*yes), None)?;
            push(visits, Wanted::Truth(*control), None)
        }
        Node::Eq(a, b) => push(visits, between(*a, *b), None),
        _ => Ok(()),
    }
}

/// Puts a control and the equations of what two words are under it on the stack.
fn push_sides(
    visits: &mut Vec<Visit>,
    graph: &Graph,
    control: Id,
    left: Id,
    right: Id,
) -> Result<(), AllocError>
    requires left { left < length graph.now }
    requires right { right < length graph.now }
    ensures { OnOk result (visits.new.items ≡ visits.old.items ++ Visit.Enter (Wanted.Truth control)
        ∷ Visit.Enter (part graph.now false control left right)
        ∷ Visit.Enter (part graph.now true control left right) ∷ []) }
{
    let (yes, no) = sides(graph, control, left, right);
    push(visits, Wanted::Truth(control), None)?;
    push(visits, no, None)?;
    push(visits, yes, None)
}

/// Puts the equations of the arguments of two rows on the stack.
fn push_arguments(visits: &mut Vec<Visit>, flat: &Flat, pair: RowPair) -> Result<(), AllocError>
    requires { length (arguments_at flat.now.syms pair.symbol pair.left)
        ≡ length (arguments_at flat.now.syms pair.symbol pair.right) }
    ensures { OnOk result (visits.new.items ≡ visits.old.items ++ map Visit.Enter (equations
        (arguments_at flat.now.syms pair.symbol pair.left)
        (arguments_at flat.now.syms pair.symbol pair.right))) }
{
    let left = arguments_at(flat, pair.symbol, pair.left);
    let right = arguments_at(flat, pair.symbol, pair.right);
    for index in 0..left.len() {
        push(visits, between(left[index], right[index]), None)?;
    }
    Ok(())
}
