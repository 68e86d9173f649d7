//! The clauses that define one gate: a connective of its children, or a tree of choices.
ghost use Rattle.std.specs.Prelude.{◌≡◌, ◌≤◌, ◌++◌, [], ◌∷◌, Some, None, IsSome, slice_index_or, IfOk, OnOk, drop, length};
ghost use Rattle.bd_prop.specs.Node.{children, named};
ghost use Rattle.bd_tseitin.specs.Definition.{and_clauses, definition, leaf_clauses, or_clauses, tree_clauses, whole};
ghost use Rattle.bd_tseitin.specs.inner.Step.{known, AreKnown, Pushes, PushesBranch};

use bd_cnf::{Clause, Lit};
use bd_prop::{Choice, PropNode};
use std::alloc::{AllocError, Global};

/// The literal of a node that has one.
pub(crate) fn literal(literals: &[Option<Lit>], id: usize) -> Lit
    requires { IsSome (slice_index_or literals.now id None) }
    ensures { slice_index_or literals.now id None ≡ Some result }
{
    literals[id].unwrap()
}

/// Puts the clause of these literals after the others, unless it is always true.
pub(crate) fn push(alloc: Global, clauses: &mut Vec<Clause>, lits: &[Lit]) -> Result<(), AllocError>
    ensures { OnOk result (Pushes clauses.old.items (lits.now ∷ []) clauses.new.items) }
{
    if let Some(clause) = Clause::of(alloc, lits)? {
        clauses.push(clause)?;
    }
    Ok(())
}

/// Puts the clauses that define the gate after the others.
pub(crate) fn define(
    alloc: Global,
    clauses: &mut Vec<Clause>,
    literals: &[Option<Lit>],
    gate: Lit,
    node: &PropNode,
) -> Result<(), AllocError>
    requires { AreKnown literals.now (children node.now) }
    ensures { OnOk result (Pushes clauses.old.items
        (definition (known literals.now) gate node.now) clauses.new.items) }
{
    match node {
        PropNode::True => push(alloc, clauses, &[gate]),
        PropNode::Atom(_) | PropNode::Not(_) => Ok(()),
        PropNode::And(a, b) => {
            let a = literal(literals, *a);
            let b = literal(literals, *b);
            define_and(alloc, clauses, gate, a, b)
        }
        PropNode::Or(a, b) => {
            let a = literal(literals, *a);
            let b = literal(literals, *b);
            define_or(alloc, clauses, gate, a, b)
        }
        PropNode::Ite(a, b, c) => {
            let items = [Choice::Test(*a), Choice::Leaf(*b), Choice::Leaf(*c)];
            define_tree(alloc, clauses, literals, gate, &items)
        }
        PropNode::Tree(choices) => {
            define_tree(alloc, clauses, literals, gate, choices.as_slice())
        }
    }
}

/// gate = a and b.
fn define_and(
    alloc: Global,
    clauses: &mut Vec<Clause>,
    gate: Lit,
    a: Lit,
    b: Lit,
) -> Result<(), AllocError>
    ensures { OnOk result (Pushes clauses.old.items (and_clauses gate a b) clauses.new.items) }
{
    push(alloc, clauses, &[gate.negated(), a])?;
    push(alloc, clauses, &[gate.negated(), b])?;
    push(alloc, clauses, &[gate, a.negated(), b.negated()])
}

/// gate = a or b.
fn define_or(
    alloc: Global,
    clauses: &mut Vec<Clause>,
    gate: Lit,
    a: Lit,
    b: Lit,
) -> Result<(), AllocError>
    ensures { OnOk result (Pushes clauses.old.items (or_clauses gate a b) clauses.new.items) }
{
    push(alloc, clauses, &[gate, a.negated()])?;
    push(alloc, clauses, &[gate, b.negated()])?;
    push(alloc, clauses, &[gate.negated(), a, b])
}

/// gate = the tree that the items spell.
fn define_tree(
    alloc: Global,
    clauses: &mut Vec<Clause>,
    literals: &[Option<Lit>],
    gate: Lit,
    items: &[Choice],
) -> Result<(), AllocError>
    requires { AreKnown literals.now (named items.now) }
    ensures { OnOk result (Pushes clauses.old.items
        (tree_clauses (known literals.now) items.now (whole gate)) clauses.new.items) }
{
    branch(alloc, clauses, literals, gate, &[], items, 0)?;
    Ok(())
}

/// Puts the clauses of the branch that begins at a place of the items after the others, two for each leaf, and answers
/// with the place after it. The path has the literals that the controls above it falsify.
fn branch(
    alloc: Global,
    clauses: &mut Vec<Clause>,
    literals: &[Option<Lit>],
    gate: Lit,
    path: &[Lit],
    items: &[Choice],
    from: usize,
) -> Result<usize, AllocError>
    requires known { AreKnown literals.now (named items.now) }
    requires inside { from ≤ length items.now }
    ensures inside { IfOk result (λ next. next ≤ length items.now) }
    ensures after { IfOk result (λ next. from ≤ next) }
    ensures branch { IfOk result (λ next. PushesBranch (known literals.now) path.now gate
        (drop from items.now) (drop next items.now) clauses.old.items clauses.new.items) }
{
    if from == items.len() {
        let missing = joined(alloc, path, &[gate.negated()])?;
        push(alloc, clauses, &missing)?;
        return Ok(from);
    }
    match items[from] {
        Choice::Test(a) => {
            let control = literal(literals, a);
            let yes = joined(alloc, path, &[control.negated()])?;
            let next = branch(alloc, clauses, literals, gate, &yes, items, from + 1)?;
            let no = joined(alloc, path, &[control])?;
            branch(alloc, clauses, literals, gate, &no, items, next)
        }
        Choice::Not => {
            let below = gate.negated();
            branch(alloc, clauses, literals, below, path, items, from + 1)
        }
        Choice::Leaf(a) => {
            let leaf = literal(literals, a);
            define_leaf(alloc, clauses, gate, path, leaf)?;
            Ok(from + 1)
        }
    }
}

/// At the end of a path the gate has the leaf's value.
fn define_leaf(
    alloc: Global,
    clauses: &mut Vec<Clause>,
    gate: Lit,
    path: &[Lit],
    leaf: Lit,
) -> Result<(), AllocError>
    ensures { OnOk result
        (Pushes clauses.old.items (leaf_clauses path.now gate leaf) clauses.new.items) }
{
    let below = joined(alloc, path, &[gate.negated(), leaf])?;
    push(alloc, clauses, &below)?;
    let above = joined(alloc, path, &[gate, leaf.negated()])?;
    push(alloc, clauses, &above)
}

/// The first literals, and then the others.
fn joined(alloc: Global, lits: &[Lit], more: &[Lit]) -> Result<Vec<Lit>, AllocError>
    ensures { IfOk result (λ all. all.items ≡ lits.now ++ more.now) }
{
    let mut all = Vec::from_slice(alloc, lits)?;
    all.extend_from_slice(more)?;
    Ok(all)
}
