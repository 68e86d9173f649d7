//! Reading an expression.

ghost use Rattle.std.specs.Prelude.{◌≡◌, ◌||◌};
ghost use Rattle.bd_text.specs.View.{node_of};
ghost use Rattle.bd_syntax.specs.Forms.{expression_of};
ghost use Rattle.bd_syntax.specs.Reading.{Gives, expression_form, operator_form, spot as spot_of, leaf_form};
ghost use Rattle.bd_syntax.specs.Words.{is_truth, operator_of};

use crate::atoms::spot;
use crate::fault::bad;
use crate::lists::open;
use crate::name::is_name;
use crate::{Form, FormFault, Forms, Operator};
use bd_text::{Code, Tree};
use std::alloc::Global;

/// Whether a text is `true` or `false`.
fn is_truth(text: &[u8]) -> bool
    ensures { result ≡ is_truth text.now }
{
    text == b"true".as_slice() || text == b"false".as_slice()
}

/// The expression of an atom: a name, `true` or `false`.
#[tactic(auto, unfolding(crate::specs::Reading::leaf_form))]
fn leaf(alloc: Global, offset: usize, text: &[u8]) -> Result<Form, FormFault>
    ensures { Gives expression_of result (leaf_form offset text.now) }
{
    if !is_name(text) && !is_truth(text) {
        return Err(bad(offset, Code::NotName));
    }
    Ok(Form::Atom(spot(alloc, offset, text)?))
}

/// Tests what a list begins with: an operator with as many parts as it takes, or a name.
fn test_head(offset: usize, at: usize, text: &[u8], parts: usize) -> Result<(), FormFault>
    ensures { Gives (λ _. spot_of at text.now) result
        (operator_form offset (spot_of at text.now) parts (operator_of text.now)) }
{
    match Operator::from_text(text) {
        Some(operator) if operator.takes(parts) => Ok(()),
        Some(_) => Err(bad(offset, Code::Malformed)),
        None if is_name(text) => Ok(()),
        None => Err(bad(at, Code::NotName)),
    }
}

/// The expression that a tree is. It goes as deep as the tree nests.
pub fn expression(alloc: Global, tree: &Tree) -> Result<Form, FormFault>
    ensures { Gives expression_of result (expression_form (node_of tree.now)) }
{
    match tree {
        Tree::Atom { offset, text } => leaf(alloc, *offset, text.as_slice()),
        Tree::List { offset, parts } => {
            let list = open(*offset, parts)?;
            test_head(*offset, list.at, list.first, list.parts.len())?;
            let head = spot(alloc, list.at, list.first)?;
            let mut parts = Vec::new(alloc);
            for part in list.parts {
                parts.push(expression(alloc, part)?)?;
            }
            Ok(Form::List {
                offset: *offset,
                head,
                parts: Forms::from_vec(parts),
            })
        }
    }
}
