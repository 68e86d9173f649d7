//! Tseitin's form, by one pass over the nodes in rising order. Children stand before parents, so
//! each node finds its children's literals in a table.
ghost use Rattle.std.specs.Prelude.{◌≡◌, ◌↔◌, ℕ, Bool, ◌<◌, ◌+◌, ◌++◌, ◌^◌, true, length, IfOk, OnOk};
ghost use Rattle.bd_tseitin.specs.Definition.{is_gate};
ghost use Rattle.bd_tseitin.specs.Form.{AreLocal, IsTseitin, Extends, ReachesAtom, rows_of};
ghost use Rattle.bd_prop.specs.declared.atom.Atom.{Atom};
ghost use Rattle.bd_prop.specs.Graph.{IsGraph, HasOneId};
ghost use Rattle.bd_prop.specs.Truth.{truth_at};
ghost use Rattle.bd_cnf.specs.Clause.{Satisfies};
ghost use Rattle.bd_tseitin.specs.Rows.{AreRows, Agree, HasAtom};
ghost use Rattle.bd_prop.specs.Node.{children};
ghost use Rattle.bd_tseitin.specs.inner.Step.{AreKnown, AddsNode};

use crate::definition::{define, literal, push};
use crate::formula::Formula;
use crate::row::{AtomVar, AtomVars};
use bd_cnf::{Clause, Clauses, Cnf, Lit};
use bd_prop::{Prop, PropNode, reached};
use std::alloc::{AllocError, Global};

/// The form of the nodes so far.
#[derive(Drop)]
struct PartialForm {
    /// The literals of the nodes that the root reaches.
    literals: Vec<Option<Lit>>,
    vars: u64,
    clauses: Vec<Clause>,
    atoms: Vec<AtomVar>,
}

/// Adds the row of an atom, and none for another node.
fn push_row(atoms: &mut Vec<AtomVar>, node: &PropNode, var: u64) -> Result<(), AllocError>
    ensures { OnOk result (atoms.new.items ≡ atoms.old.items ++ rows_of node.now var) }
{
    if let PropNode::Atom(atom) = node {
        atoms.push(AtomVar { atom: *atom, var })?;
    }
    Ok(())
}

/// Adds a node that has a variable.
fn add_gate(alloc: Global, parts: &mut PartialForm, node: &PropNode) -> Result<(), AllocError>
    requires gate { is_gate node.now ≡ true }
    requires known { AreKnown parts.old.literals.items (children node.now) }
    requires room { parts.old.vars + 1 < 2 ^ 64 }
    ensures { OnOk result (AddsNode parts.old node.now parts.new) }
{
    let var = parts.vars + 1;
    let gate = Lit::new(var, true);
    let literals = &parts.literals;
    define(alloc, &mut parts.clauses, literals, gate, node)?;
    push_row(&mut parts.atoms, node, var)?;
    parts.literals.push(Some(gate))?;
    parts.vars = var;
    Ok(())
}

/// Adds a node that has a literal.
fn add(alloc: Global, parts: &mut PartialForm, node: &PropNode) -> Result<(), AllocError>
    requires known { AreKnown parts.old.literals.items (children node.now) }
    requires room { parts.old.vars + 1 < 2 ^ 64 }
    ensures { OnOk result (AddsNode parts.old node.now parts.new) }
{
    if let PropNode::Not(a) = node {
        let negated = literal(&parts.literals, *a).negated();
        parts.literals.push(Some(negated))?;
        return Ok(());
    }
    add_gate(alloc, parts, node)
}

/// The form of all nodes, with the unit clause of the root.
fn parts_of(alloc: Global, prop: &Prop, root: usize) -> Result<PartialForm, AllocError>
    requires { root < length prop.now }
    ensures graph { OnOk result (IsGraph prop.now) }
    ensures different { OnOk result (HasOneId prop.now) }
    ensures form { IfOk result (λ p. IsTseitin prop.now root p.vars p.clauses.items p.atoms.items) }
{
    let marked = reached(alloc, prop, root)?;
    let marks = marked.as_slice();
    let nodes = prop.nodes();
    let mut parts = PartialForm {
        literals: Vec::with_capacity(alloc, nodes.len())?,
        vars: 0,
        clauses: Vec::new(alloc),
        atoms: Vec::new(alloc),
    };
    for (id, node) in nodes.iter().enumerate() {
        if marks[id] {
            add(alloc, &mut parts, node)?;
        } else {
            parts.literals.push(None)?;
        }
    }
    let unit = literal(&parts.literals, root);
    push(alloc, &mut parts.clauses, &[unit])?;
    Ok(parts)
}

/// The clauses that are satisfiable exactly where the root can be true, and the variables that stand
/// for the atoms that it reaches.
pub fn clauses(alloc: Global, prop: &Prop, root: usize) -> Result<Formula, AllocError>
    requires { root < length prop.now }

    // The form, whose clauses but the root's each have literals of one node and its children alone, and that
    // its assignments come from values that make the root true.
    ensures form { IfOk result (λ f. (t : IsTseitin prop.now root f.cnf.vars f.cnf.clauses f.atoms)
        × AreLocal prop.now root t.literal_of f.cnf.clauses
        × ((v : Atom → Bool) → truth_at v prop.now root ≡ true →
        Extends prop.now root v f.cnf.clauses f.atoms t.literal_of)) }
    ensures different { OnOk result (HasOneId prop.now) }
    ensures inputs { IfOk result (λ f. (a : ℕ → Bool) (v : Atom → Bool) →
        Satisfies a f.cnf.clauses → Agree a v f.atoms → truth_at v prop.now root ≡ true) }

    // The rows are those of the atoms that the root reaches.
    ensures atoms { IfOk result (λ f. (a : Atom) →
        HasAtom f.atoms a ↔ ReachesAtom prop.now root a) }
{
    let parts = parts_of(alloc, prop, root)?;
    Ok(Formula {
        cnf: Cnf::new(parts.vars, Clauses::from_vec(parts.clauses)),
        atoms: AtomVars::from_vec(parts.atoms),
    })
}
