//! The items of a text: its lets, inputs and next values, each with its tree.

use crate::source::Source;
use bd_syntax::lists::offset_of;
use bd_text::outline::{atom_at, is_headed, parts_of, trees_of};
use bd_text::{Tree, Trees};
use std::alloc::{AllocError, Global};

/// An item: where its list begins, its name, and its expression.
#[derive(Clone, Copy)]
pub struct ListedItem<'a> {
    pub offset: usize,
    pub name: &'a [u8],
    pub expression: &'a Tree,
}

/// The trees of a text, and which parts of its list are lets, inputs and next values, each in the text's order.
#[derive(Drop)]
pub struct Listing<'a> {
    pub source: Source<'a>,
    trees: Trees,
    lets: Vec<usize>,
    inputs: Vec<usize>,
    nexts: Vec<usize>,
}

/// The item that a list is, where its name comes second and its expression last.
fn item_of(tree: &Tree) -> Option<ListedItem<'_>> {
    let parts = parts_of(tree)?;
    let name = atom_at(parts, 1)?;
    let expression = parts.last()?;
    Some(ListedItem {
        offset: offset_of(tree),
        name,
        expression,
    })
}

/// The parts of the list that a text is.
fn list_of(trees: &Trees) -> &[Tree] {
    match trees.get(0) {
        Some(tree) => parts_of(tree).unwrap_or(&[]),
        None => &[],
    }
}

/// The places of the lists that begin with this atom.
fn headed(alloc: Global, parts: &[Tree], head: &[u8]) -> Result<Vec<usize>, AllocError> {
    let mut places = Vec::new(alloc);
    for (place, part) in parts.iter().enumerate() {
        if is_headed(part, head) {
            places.push(place)?;
        }
    }
    Ok(places)
}

impl<'a> Listing<'a> {
    /// The items of a text.
    pub fn new(alloc: Global, source: Source<'a>) -> Result<Listing<'a>, AllocError> {
        let trees = trees_of(alloc, source.text)?;
        let parts = list_of(&trees);
        let lets = headed(alloc, parts, b"let")?;
        let inputs = headed(alloc, parts, b"input")?;
        let nexts = headed(alloc, parts, b"next")?;
        Ok(Listing {
            source,
            trees,
            lets,
            inputs,
            nexts,
        })
    }

    /// The item that stands at a place of the text's list, if there is such a place.
    fn item(&self, place: Option<&usize>) -> Option<ListedItem<'_>> {
        item_of(list_of(&self.trees).get(*place?)?)
    }

    /// The let of this number, from 0.
    pub fn local(&self, number: u32) -> Option<ListedItem<'_>> {
        self.item(self.lets.get(number as usize))
    }

    /// The input of this number, from 0.
    pub fn input(&self, number: u32) -> Option<ListedItem<'_>> {
        self.item(self.inputs.get(number as usize))
    }

    /// The next value of the entry of this name.
    pub fn next_of(&self, name: &[u8]) -> Option<ListedItem<'_>> {
        for place in &self.nexts {
            if let Some(item) = self.item(Some(place)) {
                if item.name == name {
                    return Some(item);
                }
            }
        }
        None
    }

    /// The function of this name.
    pub fn symbol_of(&self, name: &[u8]) -> Option<ListedItem<'_>> {
        for part in list_of(&self.trees) {
            if is_headed(part, b"function") {
                if let Some(item) = item_of(part) {
                    if item.name == name {
                        return Some(item);
                    }
                }
            }
        }
        None
    }

    /// The number of flush cycles.
    pub fn flush(&self) -> Option<ListedItem<'_>> {
        for part in list_of(&self.trees) {
            if is_headed(part, b"flush") {
                return item_of(part);
            }
        }
        None
    }

    /// The last part of the text's list, which is the expression of an invariant.
    pub fn last(&self) -> Option<ListedItem<'_>> {
        let expression = list_of(&self.trees).last()?;
        Some(ListedItem {
            offset: offset_of(expression),
            name: b"invariant",
            expression,
        })
    }
}
