//! Atoms.
ghost use Rattle.std.specs.Prelude.{◌≡◌, ◌||◌, IfOk, option_copied};
ghost use Rattle.bd_model.specs.declared.design.Sort.TheVariants as sort;
ghost use Rattle.bd_terms.specs.Graph.{HasSort};
ghost use Rattle.bd_terms.specs.declared.node.Node.TheVariants as node;
ghost use Rattle.bd_equality.specs.Encoding.{has_mark};
ghost use Rattle.bd_equality.specs.inner.Split.{IsWhole};
ghost use Rattle.bd_equality.specs.Made.{Words, symbol_variable};
ghost use Rattle.bd_equality.specs.inner.Means.{Gives, IsAny, node_variable};

use bd_function::{Flat, Marked};
use bd_prop::{Atom, Prop};
use bd_terms::{Id, Node, Sym};
use std::alloc::AllocError;

/// Whether the variable is marked.
pub(crate) fn has_mark(marked: Option<&Marked>, variable: u64) -> bool
    ensures { result ≡ has_mark (option_copied marked.entry) variable }
{
    match marked {
        Some(marked) => marked.has(variable),
        None => false,
    }
}

/// Whether one of the two variables is marked.
fn has_either_mark(marked: Option<&Marked>, a: u64, b: u64) -> bool
    ensures { result ≡ (has_mark (option_copied marked.entry) a
        || has_mark (option_copied marked.entry) b) }
{
    has_mark(marked, a) || has_mark(marked, b)
}

/// The variable that the symbol is.
pub(crate) fn symbol_variable(sym: Sym) -> u64
    ensures { result ≡ symbol_variable sym }
{
    match sym {
        Sym::Var(variable) => variable,
        _ => 0,
    }
}

/// The variable that the word is.
fn word_variable(node: &Node) -> u64
    ensures { result ≡ node_variable node.now }
{
    match node {
        Node::App(sym, _) => symbol_variable(*sym),
        _ => 0,
    }
}

/// An equation of two words of which none is taken apart: true between one word and itself, false between two
/// variables of which one is marked, and else the atom of the edge between the two.
pub(crate) fn leaf(
    prop: &mut Prop,
    flat: &Flat,
    marked: Option<&Marked>,
    a: Id,
    b: Id,
) -> Result<usize, AllocError>
    requires first { HasSort flat.now.graph a sort.Word }
    requires second { HasSort flat.now.graph b sort.Word }
    requires whole { IsWhole flat.now.graph a b }
    ensures { IfOk result (λ id. Gives flat.now.graph flat.now.syms (option_copied marked.entry)
        IsAny prop.old prop.new id (Words a b)) }
{
    if a == b {
        return prop.mk_true();
    }
    let a = word_variable(flat.graph.node(a));
    let b = word_variable(flat.graph.node(b));
    if a == b {
        prop.mk_true()
    } else if has_either_mark(marked, a, b) {
        let truth = prop.mk_true()?;
        prop.mk_not(truth)
    } else {
        prop.mk_atom(Atom::Edge(a.min(b), a.max(b)))
    }
}
