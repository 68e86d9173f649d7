//! Reading a file.

ghost use Rattle.std.specs.Prelude.{◌≡◌, IfOk, codes, map};
ghost use Rattle.bd_text.specs.Written.{AreShallow};
ghost use Rattle.bd_text.specs.View.{nodes_of, nodes_of_all};
ghost use Rattle.bd_syntax.specs.Forms.{ast_view, expression_of, invariant_view};
ghost use Rattle.bd_syntax.specs.Reading.{Gives, file_form, invariant_form, kind_place, kind_text, machine_form};
ghost use Rattle.bd_syntax.specs.WellFormed.{AreLimited, AreWithinLimits, IsAst, IsInvAst, IsLimitedInvAst};

use crate::expression::expression;
use crate::fault::bad;
use crate::head::Place;
use crate::lists::{end, headed, split_last};
use crate::read_item::items;
use crate::{Ast, FormFault, InvAst, Kind};
use bd_text::{Code, Tree, Trees};
use std::alloc::Global;

/// The one tree of a file, which begins with this text: its offset, and the parts after it.
pub(crate) fn file<'a>(trees: &'a Trees, head: &[u8]) -> Result<(usize, &'a [Tree]), FormFault>
    ensures { Gives (λ file. (file.0, nodes_of_all file.1.now)) result
        (file_form head.now (nodes_of trees.now)) }
{
    let Some((tree, further)) = trees.as_slice().split_first() else {
        return Err(bad(0, Code::WrongHead));
    };
    let inside = headed(tree, head)?;
    end(further)?;
    Ok(inside)
}

/// What the tree of such a file begins with.
fn text_of(kind: Kind) -> &'static [u8]
    ensures { result.now ≡ kind_text kind }
{
    match kind {
        Kind::Pipeline => b"pipeline",
        Kind::Specification => b"specification",
    }
}

/// Where the items of such a file stand.
fn place_of(kind: Kind) -> Place
    ensures { result ≡ kind_place kind }
{
    match kind {
        Kind::Pipeline => Place::Pipeline,
        Kind::Specification => Place::Specification,
    }
}

/// The items of a machine file.
#[tactic(auto, unfolding(crate::specs::Reading::machine_form))]
fn machine(alloc: Global, trees: &Trees, kind: Kind) -> Result<Ast, FormFault>
    ensures { Gives ast_view result (machine_form kind (nodes_of trees.now)) }
{
    let (offset, parts) = file(trees, text_of(kind))?;
    let items = items(alloc, place_of(kind), parts)?;
    Ok(Ast {
        kind,
        offset,
        items,
    })
}

/// The lets and the expression of a file that begins with this text.
#[tactic(auto, unfolding(crate::specs::Reading::invariant_form))]
fn invariant(alloc: Global, trees: &Trees, head: &[u8]) -> Result<InvAst, FormFault>
    ensures { Gives invariant_view result (invariant_form head.now (nodes_of trees.now)) }
{
    let (offset, parts) = file(trees, head)?;
    let Some((value, lets)) = split_last(parts) else {
        return Err(bad(offset, Code::Malformed));
    };
    let items = items(alloc, Place::Invariant, lets)?;
    let value = expression(alloc, value)?;
    Ok(InvAst {
        offset,
        items,
        value,
    })
}

/// The items of a machine file. Expressions are read as deep as they nest, so the trees have to be shallow, as
/// those of a text are.
///
/// The first fault from left to right refuses it, where a list's own shape is tested before its parts: `E04`
/// without a tree (at 0), at a first tree that isn't a list with the head of this kind of file, and at a second
/// tree; `E05` at a malformed form; `E06` at an atom that is no name where one must stand; `E11` at an atom that
/// is no number in range; and `E14` at an item that doesn't belong to this kind of file.
pub fn read_machine(alloc: Global, trees: &Trees, kind: Kind) -> Result<Ast, FormFault>
    requires shallow { AreShallow (nodes_of trees.now) }
    ensures exact { Gives ast_view result (machine_form kind (nodes_of trees.now)) }
    ensures well_formed { IfOk result (λ ast. IsAst (ast_view ast)) }
    ensures limited { AreWithinLimits (nodes_of trees.now)
        → IfOk result (λ ast. AreLimited (ast_view ast).items) }
{
    machine(alloc, trees, kind)
}

/// The lets and the expression of an invariant file. Its faults are those of a machine file, and `E05` at its
/// tree where it has no expression.
pub fn read_invariant(alloc: Global, trees: &Trees) -> Result<InvAst, FormFault>
    requires shallow { AreShallow (nodes_of trees.now) }
    ensures exact { Gives invariant_view result
        (invariant_form (codes "invariant") (nodes_of trees.now)) }
    ensures well_formed { IfOk result (λ ast. IsInvAst (invariant_view ast)) }
    ensures limited { AreWithinLimits (nodes_of trees.now)
        → IfOk result (λ ast. IsLimitedInvAst (invariant_view ast)) }
{
    invariant(alloc, trees, b"invariant")
}

/// The lets and the expression of a file of starts, which reads like an invariant with the head `start`.
pub fn read_start(alloc: Global, trees: &Trees) -> Result<InvAst, FormFault>
    requires shallow { AreShallow (nodes_of trees.now) }
    ensures exact { Gives invariant_view result
        (invariant_form (codes "start") (nodes_of trees.now)) }
    ensures well_formed { IfOk result (λ ast. IsInvAst (invariant_view ast)) }
    ensures limited { AreWithinLimits (nodes_of trees.now)
        → IfOk result (λ ast. IsLimitedInvAst (invariant_view ast)) }
{
    invariant(alloc, trees, b"start")
}
