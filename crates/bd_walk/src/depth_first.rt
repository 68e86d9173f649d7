//! A depth-first walk from a root, with a stack of its own. Two graphs in which the roots stand for the same tree give
//! the same order, in whichever order their terms were made.
ghost use Rattle.std.specs.Prelude.{◌≡◌, ◌<◌, ◌++◌, length, IfOk, OnOk};
ghost use Rattle.bd_terms.specs.Graph.{children};
ghost use Rattle.bd_walk.specs.Walk.{walk};
ghost use Rattle.bd_walk.specs.inner.Visits.{entries};

use bd_terms::{Graph, Id, Node};
use std::alloc::{AllocError, Global};

// What is still to be done: to enter a term, or to finish one whose children are finished.
#[derive(Clone, Copy)]
pub(crate) enum Visit {
    Enter(Id),
    Finish(Id),
}

/// The terms that the root reaches, in the order in which a depth-first walk finishes them.
pub fn walk(alloc: Global, graph: &Graph, root: Id) -> Result<Vec<Id>, AllocError>
    requires { root < length graph.now }
    ensures { IfOk result (λ order. order.items ≡ walk graph.now root) }
{
    let mut is_finished = vec![in alloc; false; graph.len()]?;
    let mut finished = Vec::new(alloc);
    let mut visits = Vec::new(alloc);
    visits.push(Visit::Enter(root))?;
    while let Some(visit) = visits.pop() {
        match visit {
            Visit::Enter(id) => {
                if !is_finished[id.index()] {
                    visits.push(Visit::Finish(id))?;
                    push_children(&mut visits, graph.node(id))?;
                }
            }
            Visit::Finish(id) => {
                is_finished[id.index()] = true;
                finished.push(id)?;
            }
        }
    }
    Ok(finished)
}

/// Puts a visit to each child on the stack, to the first one on top.
fn push_children(visits: &mut Vec<Visit>, node: &Node) -> Result<(), AllocError>
    ensures { OnOk result (visits.new.items ≡ visits.old.items ++ entries (children node.now)) }
{
    match node {
        Node::True | Node::Init(_) => Ok(()),
        Node::Not(a) => push_all(visits, &[*a]),
        Node::And(a, b) | Node::Or(a, b) | Node::Eq(a, b) | Node::Read(a, b) => {
            push_all(visits, &[*a, *b])
        }
        Node::Ite(a, b, c) | Node::Write(a, b, c) => push_all(visits, &[*a, *b, *c]),
        Node::App(_, args) | Node::Pred(_, args) => push_all(visits, args.as_slice()),
    }
}

/// Puts a visit to each of these terms on the stack, to the first one on top.
fn push_all(visits: &mut Vec<Visit>, ids: &[Id]) -> Result<(), AllocError>
    ensures { OnOk result (visits.new.items ≡ visits.old.items ++ entries ids.now) }
{
    for index in (0..ids.len()).rev() {
        visits.push(Visit::Enter(ids[index]))?;
    }
    Ok(())
}
