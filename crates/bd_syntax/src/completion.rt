//! Reading a completion file.

ghost use Rattle.std.specs.Prelude.{◌≡◌, IfOk, map};
ghost use Rattle.bd_text.specs.Written.{AreShallow};
ghost use Rattle.bd_text.specs.View.{node_of, nodes_of, nodes_of_all};
ghost use Rattle.bd_syntax.specs.Completion.{IsCompAst, IsLimitedCompAst, abstract_form, abstract_view, abstracted_form, before_abstracts, completion_form, completion_view, from_abstracts, is_abstract, misplaced_form};
ghost use Rattle.bd_syntax.specs.Reading.{Gives, each_form};
ghost use Rattle.bd_syntax.specs.WellFormed.{AreWithinLimits};

use crate::expression::expression;
use crate::fault::bad;
use crate::head::Place;
use crate::lists::{open, two};
use crate::read::file;
use crate::read_item::{head_of, items};
use crate::{Abstract, Abstracts, CompAst, FormFault, atoms};
use bd_text::{Code, Tree, Trees};
use std::alloc::Global;

/// What an expression of a visible entry begins with.
const ABSTRACT: &[u8] = b"abstract";

/// Whether a tree is a list that begins with `abstract`.
fn is_abstract(tree: &Tree) -> bool
    ensures { result ≡ is_abstract (node_of tree.now) }
{
    let Tree::List { parts, .. } = tree else {
        return false;
    };
    match parts.as_slice().first() {
        Some(Tree::Atom { text, .. }) => text.as_slice() == ABSTRACT,
        _ => false,
    }
}

/// The parts before the first `abstract`, and the others.
fn split_abstracts(parts: &[Tree]) -> (&[Tree], &[Tree])
    ensures before { before_abstracts (nodes_of_all parts.now) ≡ nodes_of_all result.0.now }
    ensures others { from_abstracts (nodes_of_all parts.now) ≡ nodes_of_all result.1.now }
{
    for (i, tree) in parts.iter().enumerate() {
        if is_abstract(tree) {
            return parts.split_at(i);
        }
    }
    (parts, &[])
}

/// `(abstract NAME EXPR)`
#[tactic(auto, unfolding(crate::specs::Completion::abstracted_form))]
fn abstracted(alloc: Global, offset: usize, parts: &[Tree]) -> Result<Abstract, FormFault>
    ensures { Gives abstract_view result (abstracted_form offset (nodes_of_all parts.now)) }
{
    if parts.len() != 2 {
        return Err(bad(offset, Code::Malformed));
    }
    let (name, value) = two(parts);
    Ok(Abstract {
        offset,
        name: atoms::name(alloc, name)?,
        value: expression(alloc, value)?,
    })
}

/// Refuses what stands after an `abstract` and isn't one.
#[tactic(auto, unfolding(crate::specs::Completion::misplaced_form))]
fn misplaced(offset: usize, text: &[u8], parts: usize) -> Result<Abstract, FormFault>
    ensures { Gives abstract_view result (misplaced_form offset text.now parts) }
{
    head_of(Place::Pipeline, offset, text, parts)?;
    Err(bad(offset, Code::NotOfThisFile))
}

/// The `abstract` that a tree is.
#[tactic(auto, unfolding(crate::specs::Completion::abstract_form))]
fn abstract_part(alloc: Global, tree: &Tree) -> Result<Abstract, FormFault>
    ensures { Gives abstract_view result (abstract_form (node_of tree.now)) }
{
    match tree {
        Tree::Atom { offset, .. } => Err(bad(*offset, Code::Malformed)),
        Tree::List { offset, parts } => {
            let list = open(*offset, parts)?;
            if list.first == ABSTRACT {
                abstracted(alloc, *offset, list.parts)
            } else {
                misplaced(*offset, list.first, list.parts.len())
            }
        }
    }
}

/// The `abstract`s that trees are.
fn abstracts(alloc: Global, trees: &[Tree]) -> Result<Abstracts, FormFault>
    ensures { Gives (map abstract_view) result (each_form abstract_form (nodes_of_all trees.now)) }
{
    let mut parts = Vec::new(alloc);
    for tree in trees {
        parts.push(abstract_part(alloc, tree)?)?;
    }
    Ok(Abstracts::from_vec(parts))
}

/// The lets and the expressions of a completion file.
#[tactic(auto, unfolding(crate::specs::Completion::completion_form))]
fn completion(alloc: Global, trees: &Trees) -> Result<CompAst, FormFault>
    ensures { Gives completion_view result (completion_form (nodes_of trees.now)) }
{
    let (offset, parts) = file(trees, b"completion")?;
    let (lets, abstracted) = split_abstracts(parts);
    let lets = items(alloc, Place::Invariant, lets)?;
    let parts = abstracts(alloc, abstracted)?;
    Ok(CompAst {
        offset,
        lets,
        parts,
    })
}

/// The lets and the expressions of a completion file. Its faults are those of an invariant file, with `E05` at an
/// `abstract` of other than three parts, and `E14` at a let after an `abstract`; a file without parts has none.
pub fn read_completion(alloc: Global, trees: &Trees) -> Result<CompAst, FormFault>
    requires shallow { AreShallow (nodes_of trees.now) }
    ensures exact { Gives completion_view result (completion_form (nodes_of trees.now)) }
    ensures well_formed { IfOk result (λ ast. IsCompAst (completion_view ast)) }
    ensures limited { AreWithinLimits (nodes_of trees.now)
        → IfOk result (λ ast. IsLimitedCompAst (completion_view ast)) }
{
    completion(alloc, trees)
}
