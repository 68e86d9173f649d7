//! The way down to a place of a file.

use crate::file::Headed;
use bd_syntax::lists::offset_of;
use bd_text::Tree;
use bd_text::outline::{atom_at, atom_of, parts_of};
use std::alloc::{AllocError, Global};

/// More levels than a text has.
const MOST_LEVELS: usize = 202;

/// A list on the way, where it stands, and the place of the part that the way goes into. The first is of the file's
/// trees.
#[derive(Clone, Copy)]
pub struct Level<'t> {
    pub offset: usize,
    pub parts: &'t [Tree],
    pub place: usize,
}

/// The lists on the way, from the file's on, and the tree at its end.
#[derive(Drop)]
pub struct Way<'t> {
    pub levels: Vec<Level<'t>>,
    pub end: Option<&'t Tree>,
}

/// How many trees begin at an offset or before it.
fn begun(parts: &[Tree], offset: usize) -> usize {
    parts
        .iter()
        .take_while(|part| offset_of(part) <= offset)
        .count()
}

/// The way down to the tree that begins at an offset, or that the offset stands in.
pub fn way_to<'t>(alloc: Global, trees: &'t [Tree], offset: usize) -> Result<Way<'t>, AllocError> {
    let mut way = Way {
        levels: Vec::new(alloc),
        end: None,
    };
    let mut level = Level {
        offset: 0,
        parts: trees,
        place: 0,
    };
    for _ in 0..MOST_LEVELS {
        level.place = begun(level.parts, offset).saturating_sub(1);
        let Some(tree) = level.parts.get(level.place) else {
            break;
        };
        way.levels.push(level)?;
        way.end = Some(tree);
        match parts_of(tree) {
            Some(parts) if offset_of(tree) < offset => {
                level.parts = parts;
                level.offset = offset_of(tree);
            }
            _ => break,
        }
    }
    Ok(way)
}

impl<'t> Way<'t> {
    /// The innermost list around the end of the way.
    pub fn last(&self) -> Option<Level<'t>> {
        self.levels.as_slice().last().copied()
    }

    /// The atom at the end of the way.
    pub fn atom(&self) -> Option<&'t [u8]> {
        atom_of(self.end?)
    }

    /// The item around the end of the way, where it stands, and the place of the part that the way goes into.
    pub fn item(&self) -> Option<(Headed<'t>, usize)> {
        let level = self.levels.as_slice().get(2).copied()?;
        let item = Headed {
            offset: level.offset,
            head: atom_at(level.parts, 0)?,
            parts: level.parts,
        };
        Some((item, level.place))
    }

    /// How many lists there are around the end of the way.
    pub fn depth(&self) -> usize {
        self.levels.len().saturating_sub(1)
    }

    /// Whether the way ends at the name of an item of this head.
    pub fn is_name_of(&self, head: &[u8]) -> bool {
        match self.item() {
            Some((item, place)) => self.depth() == 2 && place == 1 && item.head == head,
            None => false,
        }
    }

    /// How many parts follow the end of the way, where that is what an expression's list begins with.
    pub fn applied(&self) -> Option<u64> {
        let last = self.last()?;
        if last.place == 0 && self.depth() >= 2 {
            Some(last.parts.len().saturating_sub(1) as u64)
        } else {
            None
        }
    }
}
