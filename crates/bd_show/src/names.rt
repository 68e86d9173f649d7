//! The names of lets. A design doesn't keep them, so its texts are read once more. They were read before, so none has a
//! fault.
ghost use Rattle.std.specs.Prelude.{◌≡◌, IfOk, map};
ghost use Rattle.bd_syntax.specs.Forms.{item_view};
ghost use Rattle.bd_text.specs.Faults.{HasNoFault};
ghost use Rattle.bd_text.specs.Grammar.{Spells};
ghost use Rattle.bd_text.specs.View.{nodes_of};
ghost use Rattle.bd_text.specs.Written.{AreShallow};
ghost use Rattle.bd_show.specs.LetNames.{AreInvariantLets, AreMachineLets, IsInvariantText, IsMachineText, let_names, texts_of};

use bd_syntax::{FormFault, Item, Kind, read_invariant, read_machine};
use bd_text::laws::one_reading;
use bd_text::{TextFault, Trees, read_trees};
use std::alloc::{AllocError, Global};

/// The trees of a text that has no fault.
fn trees_of(alloc: Global, text: &[u8]) -> Result<Trees, AllocError>
    requires { HasNoFault text.now }
    ensures spelled { IfOk result (λ trees. Spells text.now (nodes_of trees)) }
    ensures shallow { IfOk result (λ trees. AreShallow (nodes_of trees)) }
{
    match read_trees(alloc, text) {
        Ok(trees) => Ok(trees),
        Err(TextFault::Memory) => Err(AllocError),
        Err(TextFault::Bad { .. }) => unreachable!(),
    }
}

/// The names of the lets among items.
fn lets_of(alloc: Global, items: &[Item]) -> Result<Vec<Vec<u8>>, AllocError>
    ensures { IfOk result (λ names.
        texts_of names.items ≡ let_names (map item_view items.now)) }
{
    let mut names = Vec::new(alloc);
    for item in items {
        if let Item::Let { name, .. } = item {
            names.push(Vec::from_slice(alloc, name.text.as_slice())?)?;
        }
    }
    Ok(names)
}

/// The names of the lets in a machine's text.
pub fn machine_lets(alloc: Global, text: &[u8], kind: Kind) -> Result<Vec<Vec<u8>>, AllocError>
    requires { IsMachineText kind text.now }
    ensures { IfOk result (λ names. AreMachineLets kind text.now names.items) }
{
    one_reading();
    let trees = trees_of(alloc, text)?;
    match read_machine(alloc, &trees, kind) {
        Ok(ast) => lets_of(alloc, ast.items.as_slice()),
        Err(FormFault::Memory) => Err(AllocError),
        Err(FormFault::Bad { .. }) => unreachable!(),
    }
}

/// The names of the lets in an invariant's text.
pub fn invariant_lets(alloc: Global, text: &[u8]) -> Result<Vec<Vec<u8>>, AllocError>
    requires { IsInvariantText text.now }
    ensures { IfOk result (λ names. AreInvariantLets text.now names.items) }
{
    one_reading();
    let trees = trees_of(alloc, text)?;
    match read_invariant(alloc, &trees) {
        Ok(ast) => lets_of(alloc, ast.items.as_slice()),
        Err(FormFault::Memory) => Err(AllocError),
        Err(FormFault::Bad { .. }) => unreachable!(),
    }
}
