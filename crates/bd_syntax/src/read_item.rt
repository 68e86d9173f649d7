//! Reading items. What is wrong with an item as a whole is seen before its parts are looked at: first its shape,
//! then whether it may stand in this file.

ghost use Rattle.std.specs.Prelude.{◌≡◌, ◌≤◌, true, length, IfOk, map};
ghost use Rattle.bd_text.specs.View.{node_of, nodes_of, nodes_of_all};
ghost use Rattle.bd_text.specs.Nodes.{list};
ghost use Rattle.bd_syntax.specs.Forms.{item_view};
ghost use Rattle.bd_syntax.specs.Reading.{Gives, each_form, head_form, item_form, name_form, parts_form};
ghost use Rattle.bd_syntax.specs.Words.{head_of, head_takes};

use crate::expression::expression;
use crate::fault::bad;
use crate::head::{Head, Place};
use crate::lists::{one, open, three, two};
use crate::{FormFault, Item, Items, Spots, atoms};
use bd_text::{Code, Tree, Trees};
use std::alloc::Global;

/// The most words that a function or predicate takes.
const MAX_ARITY: u32 = 8;

/// The most steps.
const MAX_STEPS: u32 = 8;

/// The most flush cycles.
const MAX_FLUSH: u32 = 64;

/// `(latch NAME SORT)`
#[tactic(auto, unfolding(crate::specs::Reading::latch_form))]
fn latch(alloc: Global, offset: usize, parts: &[Tree]) -> Result<Item, FormFault>
    requires { length parts.now ≡ 2 }
    ensures { Gives item_view result (parts_form offset Head.Latch (nodes_of_all parts.now)) }
{
    let (name, sort) = two(parts);
    Ok(Item::Latch {
        offset,
        name: atoms::name(alloc, name)?,
        sort: atoms::scalar(sort)?,
    })
}

/// `(memory NAME)`
#[tactic(auto, unfolding(crate::specs::Reading::memory_form))]
fn memory(alloc: Global, offset: usize, parts: &[Tree]) -> Result<Item, FormFault>
    requires { length parts.now ≡ 1 }
    ensures { Gives item_view result (parts_form offset Head.Memory (nodes_of_all parts.now)) }
{
    let name = one(parts);
    Ok(Item::Memory {
        offset,
        name: atoms::name(alloc, name)?,
    })
}

/// `(input NAME SORT EXPR)`
#[tactic(auto, unfolding(crate::specs::Reading::input_form))]
fn input(alloc: Global, offset: usize, parts: &[Tree]) -> Result<Item, FormFault>
    requires { length parts.now ≡ 3 }
    ensures { Gives item_view result (parts_form offset Head.Input (nodes_of_all parts.now)) }
{
    let (name, sort, idle) = three(parts);
    Ok(Item::Input {
        offset,
        name: atoms::name(alloc, name)?,
        sort: atoms::scalar(sort)?,
        idle: expression(alloc, idle)?,
    })
}

/// `(function NAME N)`
#[tactic(auto, unfolding(crate::specs::Reading::function_form))]
fn function(alloc: Global, offset: usize, parts: &[Tree]) -> Result<Item, FormFault>
    requires { length parts.now ≡ 2 }
    ensures { Gives item_view result (parts_form offset Head.Function (nodes_of_all parts.now)) }
{
    let (name, arity) = two(parts);
    Ok(Item::Function {
        offset,
        name: atoms::name(alloc, name)?,
        arity: atoms::count(arity, MAX_ARITY)?,
    })
}

/// `(predicate NAME N)`
#[tactic(auto, unfolding(crate::specs::Reading::predicate_form))]
fn predicate(alloc: Global, offset: usize, parts: &[Tree]) -> Result<Item, FormFault>
    requires { length parts.now ≡ 2 }
    ensures { Gives item_view result (parts_form offset Head.Predicate (nodes_of_all parts.now)) }
{
    let (name, arity) = two(parts);
    Ok(Item::Predicate {
        offset,
        name: atoms::name(alloc, name)?,
        arity: atoms::count(arity, MAX_ARITY)?,
    })
}

/// `(let NAME SORT EXPR)`
#[tactic(auto, unfolding(crate::specs::Reading::let_form))]
fn local(alloc: Global, offset: usize, parts: &[Tree]) -> Result<Item, FormFault>
    requires { length parts.now ≡ 3 }
    ensures { Gives item_view result (parts_form offset Head.Let (nodes_of_all parts.now)) }
{
    let (name, sort, value) = three(parts);
    Ok(Item::Let {
        offset,
        name: atoms::name(alloc, name)?,
        sort: atoms::sort(sort)?,
        value: expression(alloc, value)?,
    })
}

/// `(next NAME EXPR)`
#[tactic(auto, unfolding(crate::specs::Reading::next_form))]
fn next(alloc: Global, offset: usize, parts: &[Tree]) -> Result<Item, FormFault>
    requires { length parts.now ≡ 2 }
    ensures { Gives item_view result (parts_form offset Head.Next (nodes_of_all parts.now)) }
{
    let (name, value) = two(parts);
    Ok(Item::Next {
        offset,
        name: atoms::name(alloc, name)?,
        value: expression(alloc, value)?,
    })
}

/// `(flush N)`
#[tactic(auto, unfolding(crate::specs::Reading::flush_form))]
fn flush(offset: usize, parts: &[Tree]) -> Result<Item, FormFault>
    requires { length parts.now ≡ 1 }
    ensures { Gives item_view result (parts_form offset Head.Flush (nodes_of_all parts.now)) }
{
    Ok(Item::Flush {
        offset,
        count: atoms::count(one(parts), MAX_FLUSH)?,
    })
}

/// `(steps N)`
#[tactic(auto, unfolding(crate::specs::Reading::steps_form))]
fn steps(offset: usize, parts: &[Tree]) -> Result<Item, FormFault>
    requires { length parts.now ≡ 1 }
    ensures { Gives item_view result (parts_form offset Head.Steps (nodes_of_all parts.now)) }
{
    Ok(Item::Steps {
        offset,
        count: atoms::count(one(parts), MAX_STEPS)?,
    })
}

/// `(exact N EXPR)`
#[tactic(auto, unfolding(crate::specs::Reading::exact_form))]
fn exact(alloc: Global, offset: usize, parts: &[Tree]) -> Result<Item, FormFault>
    requires { length parts.now ≡ 2 }
    ensures { Gives item_view result (parts_form offset Head.Exact (nodes_of_all parts.now)) }
{
    let (count, when) = two(parts);
    Ok(Item::Exact {
        offset,
        count: atoms::count(count, MAX_STEPS)?,
        when: expression(alloc, when)?,
    })
}

/// Each part as a name.
fn names(alloc: Global, parts: &[Tree]) -> Result<Spots, FormFault>
    ensures { Gives (λ names. names) result (each_form name_form (nodes_of_all parts.now)) }
{
    let mut names = Vec::new(alloc);
    for part in parts {
        names.push(atoms::name(alloc, part)?)?;
    }
    Ok(Spots::from_vec(names))
}

/// `(distinct NAME NAME ..)`
#[tactic(auto, unfolding(crate::specs::Reading::distinct_form))]
fn distinct(alloc: Global, offset: usize, parts: &[Tree]) -> Result<Item, FormFault>
    ensures { Gives item_view result (parts_form offset Head.Distinct (nodes_of_all parts.now)) }
{
    Ok(Item::Distinct {
        offset,
        names: names(alloc, parts)?,
    })
}

/// The item of that head.
fn item_of_head(alloc: Global, offset: usize, head: Head, parts: &[Tree]) -> Result<Item, FormFault>
    requires { head_takes head (length parts.now) ≡ true }
    ensures { Gives item_view result (parts_form offset head (nodes_of_all parts.now)) }
{
    match head {
        Head::Latch => latch(alloc, offset, parts),
        Head::Memory => memory(alloc, offset, parts),
        Head::Input => input(alloc, offset, parts),
        Head::Function => function(alloc, offset, parts),
        Head::Predicate => predicate(alloc, offset, parts),
        Head::Let => local(alloc, offset, parts),
        Head::Next => next(alloc, offset, parts),
        Head::Flush => flush(offset, parts),
        Head::Steps => steps(offset, parts),
        Head::Exact => exact(alloc, offset, parts),
        Head::Distinct => distinct(alloc, offset, parts),
    }
}

/// The head that a text is, where so many parts may follow it and it may stand in that place.
pub(crate) fn head_of(
    place: Place,
    offset: usize,
    text: &[u8],
    parts: usize,
) -> Result<Head, FormFault>
    ensures head { Gives (λ head. head) result (head_form place offset parts (head_of text.now)) }
    ensures takes { IfOk result (λ head. head_takes head parts ≡ true) }
{
    match Head::from_text(text) {
        Some(head) if !head.takes(parts) => Err(bad(offset, Code::Malformed)),
        Some(head) if !head.is_item_of(place) => Err(bad(offset, Code::NotOfThisFile)),
        Some(head) => Ok(head),
        None => Err(bad(offset, Code::Malformed)),
    }
}

/// The item that a tree is.
#[tactic(auto, unfolding(crate::specs::Reading::item_form))]
fn item(alloc: Global, place: Place, tree: &Tree) -> Result<Item, FormFault>
    ensures { Gives item_view result (item_form place (node_of tree.now)) }
{
    match tree {
        Tree::Atom { offset, .. } => Err(bad(*offset, Code::Malformed)),
        Tree::List { offset, parts } => {
            let list = open(*offset, parts)?;
            let head = head_of(place, *offset, list.first, list.parts.len())?;
            item_of_head(alloc, *offset, head, list.parts)
        }
    }
}

/// The items that trees are.
pub fn items(alloc: Global, place: Place, trees: &[Tree]) -> Result<Items, FormFault>
    ensures { Gives (map item_view) result (each_form (item_form place) (nodes_of_all trees.now)) }
{
    let mut items = Vec::new(alloc);
    for tree in trees {
        items.push(item(alloc, place, tree)?)?;
    }
    Ok(Items::from_vec(items))
}
