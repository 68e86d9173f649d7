//! Edges between constants that are kept apart, whether the formula compares them or not.
ghost use Rattle.std.specs.Prelude.{◌≡◌, ◌↔◌, ◌⊎◌, ◌∷◌, ℕ, [], Contains, IfOk, IsTrue, OnOk, option_copied, Some, if◌then◌else◌, ◌==◌};
ghost use Rattle.bd_function.specs.Values.{is_marked};
ghost use Rattle.bd_transitive.specs.declared.graph.Edge.{Edge as TheEdge};
ghost use Rattle.bd_equality.specs.Edges.{IsApart, IsConstant, IsVertex};
ghost use Rattle.bd_equality.specs.inner.Sets.{variable_of};
ghost use Rattle.bd_equality.specs.inner.Apart.{AddsConstant, HasVariable, IsFirst, IsListed, JoinsAll};

use crate::leaf::{has_mark, symbol_variable};
use crate::pairs::Pairs;
use bd_function::{Flat, FlatSym, Marked};
use bd_model::{Distinct, Places};
use bd_terms::{Node, Sym};
use indexmap::IndexMap;
use std::alloc::{AllocError, Global};
use std::marker::Model;

/// The variables of constants, by the numbers of their functions.
#[derive(Drop)]
struct Constants {
    variables: IndexMap<u32, u64>,
}

impl Model for Constants {
    ghost use Rattle.std.specs.Prelude.{List, ℕ};

    ghost Value = { List (ℕ × ℕ) };

    ghost view = { λ c. c.variables.entries };
}

impl Constants {
    /// The map that holds no constant. It takes no memory.
    fn new(alloc: Global) -> Constants
        ensures { result ≡ [] }
    {
        Constants {
            variables: IndexMap::new(alloc),
        }
    }

    /// The variable of the constant whose function has this number, if it is held.
    fn get(&self, function: u32) -> Option<u64>
        ensures { result ≡ variable_of self.now function }
    {
        self.variables.get(&function).copied()
    }

    /// Keeps the variable of the constant whose function has this number.
    fn insert(&mut self, function: u32, variable: u64) -> Result<(), AllocError>
        ensures { OnOk result ((f : ℕ) → variable_of self.new f
            ≡ (if function == f then Some variable else variable_of self.old f)) }
    {
        self.variables.insert(function, variable)?;
        Ok(())
    }
}

/// The edges between the vertices of two constants of one group that is kept apart.
pub(crate) fn apart(
    alloc: Global,
    flat: &Flat,
    distinct: &Distinct,
    marked: Option<&Marked>,
) -> Result<Pairs, AllocError>
    ensures { IfOk result (λ pairs. (e : TheEdge) → Contains pairs e
        ↔ IsApart flat.now.graph flat.now.syms distinct.now (option_copied marked.entry) e) }
{
    let constants = constant_vertices(alloc, flat, marked)?;
    let mut pairs = Pairs::new(alloc);
    for group in distinct.as_slice() {
        let vertices = group_vertices(alloc, &constants, group)?;
        join_all(&mut pairs, &vertices)?;
    }
    Ok(pairs)
}

/// The variables of the formula's constants that are vertices.
fn constant_vertices(
    alloc: Global,
    flat: &Flat,
    marked: Option<&Marked>,
) -> Result<Constants, AllocError>
    ensures { IfOk result (λ c. (f x : ℕ) → (variable_of c f ≡ Some x)
        ↔ IsConstant flat.now.graph flat.now.syms (option_copied marked.entry) f x) }
{
    let vertices = vertices(alloc, flat, marked)?;
    known_constants(alloc, flat, &vertices)
}

/// The variables of the formula's constants that are among the vertices.
fn known_constants(alloc: Global, flat: &Flat, vertices: &Marked) -> Result<Constants, AllocError>
    ensures { IfOk result (λ c. (f x : ℕ) → (variable_of c f ≡ Some x)
        ↔ IsListed flat.now.syms vertices.now f x) }
{
    let mut constants = Constants::new(alloc);
    for sym in flat.syms.as_slice() {
        add_constant(&mut constants, vertices, sym)?;
    }
    Ok(constants)
}

/// Keeps the variable of a constant, if it is a vertex.
fn add_constant(
    constants: &mut Constants,
    vertices: &Marked,
    sym: &FlatSym,
) -> Result<(), AllocError>
    ensures { OnOk result (AddsConstant vertices.now sym.now constants.old constants.new) }
{
    if let Some((function, variable)) = constant(sym) {
        if vertices.has(variable) {
            constants.insert(function, variable)?;
        }
    }
    Ok(())
}

/// The words that are variables of the formula, but for marked ones.
fn vertices(alloc: Global, flat: &Flat, marked: Option<&Marked>) -> Result<Marked, AllocError>
    ensures { IfOk result (λ v. (x : ℕ) → IsTrue (is_marked v x)
        ↔ IsVertex flat.now.graph (option_copied marked.entry) x) }
{
    let mut vertices = Marked::new(alloc);
    for index in 0..flat.graph.len() {
        if let Node::App(sym, _) = flat.graph.node(flat.graph.id(index)) {
            let variable = symbol_variable(*sym);
            if !has_mark(marked, variable) {
                vertices.insert(variable)?;
            }
        }
    }
    Ok(vertices)
}

/// The number of the function and the variable of its first application, if it has no argument.
fn constant(sym: &FlatSym) -> Option<(u32, u64)>
    ensures { (f x : ℕ) → (result ≡ Some (f, x)) ↔ IsFirst sym.now f x }
{
    let Sym::Function(function) = sym.sym else {
        return None;
    };
    let (first, _) = sym.rows.as_slice().split_first()?;
    if first.args.as_slice().is_empty() {
        Some((function, first.var))
    } else {
        None
    }
}

/// The vertices of the constants of a group.
fn group_vertices(
    alloc: Global,
    constants: &Constants,
    group: &Places,
) -> Result<Vec<u64>, AllocError>
    ensures { IfOk result (λ v. (x : ℕ) → Contains v.items x ↔ HasVariable constants.now group.now
        x) }
{
    let mut vertices = Vec::new(alloc);
    for function in group.as_slice() {
        if let Some(variable) = constants.get(*function) {
            vertices.push(variable)?;
        }
    }
    Ok(vertices)
}

/// Joins each two of the vertices that are different.
fn join_all(pairs: &mut Pairs, vertices: &[u64]) -> Result<(), AllocError>
    ensures { OnOk result ((e : TheEdge) → Contains pairs.new e ↔ (Contains pairs.old e
        ⊎ JoinsAll vertices.now vertices.now e)) }
{
    for from in vertices {
        join(pairs, *from, vertices)?;
    }
    Ok(())
}

/// Joins a vertex to each greater one.
fn join(pairs: &mut Pairs, from: u64, vertices: &[u64]) -> Result<(), AllocError>
    ensures { OnOk result ((e : TheEdge) → Contains pairs.new e ↔ (Contains pairs.old e
        ⊎ JoinsAll (from ∷ []) vertices.now e)) }
{
    for to in vertices {
        if from < *to {
            pairs.insert(from, *to)?;
        }
    }
    Ok(())
}
