//! Atoms: names, numbers and sorts.

ghost use Rattle.std.specs.Prelude.{◌≡◌, ◌≤◌, IfOk};
ghost use Rattle.bd_text.specs.View.{node_of};
ghost use Rattle.bd_syntax.specs.Reading.{Gives, atom_form, name_form, number_form, scalar_form, sort_form, spot as spot_of};

use crate::fault::bad;
use crate::name::is_name;
use crate::number::number_within;
use crate::{FormFault, Spot};
use bd_model::Sort;
use bd_text::{Bytes, Code, Tree};
use std::alloc::Global;

/// The offset and the bytes of an atom.
pub fn atom(tree: &Tree) -> Result<(usize, &[u8]), FormFault>
    ensures { Gives (λ a. spot_of a.0 a.1.now) result (atom_form (node_of tree.now)) }
{
    match tree {
        Tree::Atom { offset, text } => Ok((*offset, text.as_slice())),
        Tree::List { offset, .. } => Err(bad(*offset, Code::Malformed)),
    }
}

/// A copy of an atom's bytes, with its offset.
pub(crate) fn spot(alloc: Global, offset: usize, text: &[u8]) -> Result<Spot, FormFault>
    ensures { Gives (λ s. s) result (Ok (spot_of offset text.now)) }
{
    let text = Bytes::from_vec(Vec::from_slice(alloc, text)?);
    Ok(Spot { offset, text })
}

/// The offset and the bytes of a name.
#[tactic(auto, unfolding(crate::specs::Reading::name_form))]
pub fn name_text(tree: &Tree) -> Result<(usize, &[u8]), FormFault>
    ensures { Gives (λ a. spot_of a.0 a.1.now) result (name_form (node_of tree.now)) }
{
    let (offset, text) = atom(tree)?;
    if !is_name(text) {
        return Err(bad(offset, Code::NotName));
    }
    Ok((offset, text))
}

/// A name.
pub(crate) fn name(alloc: Global, tree: &Tree) -> Result<Spot, FormFault>
    ensures { Gives (λ s. s) result (name_form (node_of tree.now)) }
{
    let (offset, text) = name_text(tree)?;
    spot(alloc, offset, text)
}

/// A number of at most so much.
#[tactic(auto, unfolding(crate::specs::Reading::number_form))]
pub fn number(tree: &Tree, most: u64) -> Result<u64, FormFault>
    ensures exact { Gives (λ n. n) result (number_form most (node_of tree.now)) }
    ensures within { IfOk result (λ n. n ≤ most) }
{
    let (offset, text) = atom(tree)?;
    match number_within(text, most) {
        Some(value) => Ok(value),
        None => Err(bad(offset, Code::NotNumber)),
    }
}

/// A number of at most so much, where that has 32 bits.
pub(crate) fn count(tree: &Tree, most: u32) -> Result<u32, FormFault>
    ensures { Gives (λ n. n) result (number_form most (node_of tree.now)) }
{
    Ok(number(tree, u64::from(most))? as u32)
}

/// The sort of a latch or an input.
#[tactic(auto, unfolding(crate::specs::Reading::scalar_form))]
pub(crate) fn scalar(tree: &Tree) -> Result<Sort, FormFault>
    ensures { Gives (λ s. s) result (scalar_form (node_of tree.now)) }
{
    let (offset, text) = atom(tree)?;
    if text == b"word".as_slice() {
        Ok(Sort::Word)
    } else if text == b"bool".as_slice() {
        Ok(Sort::Bool)
    } else {
        Err(bad(offset, Code::Malformed))
    }
}

/// The sort of a let.
#[tactic(auto, unfolding(crate::specs::Reading::sort_form))]
pub(crate) fn sort(tree: &Tree) -> Result<Sort, FormFault>
    ensures { Gives (λ s. s) result (sort_form (node_of tree.now)) }
{
    let (_, text) = atom(tree)?;
    if text == b"memory".as_slice() {
        return Ok(Sort::Memory);
    }
    scalar(tree)
}
