//! By which control an equation of two ite trees is taken apart. With marked variables by one of the word that has more
//! different leaves, where the word of a row is one leaf: as a memory with more writes, that has more done before it.
//! Without, by the one that was made later, as in a decision diagram.
ghost use Rattle.std.specs.Prelude.{◌<◌, IfOk, length};
ghost use Rattle.bd_equality.specs.inner.Split.{IsChosen};

use crate::rows::RowWords;
use crate::split::head;
use bd_terms::{Graph, Id, Node};
use std::alloc::{AllocError, Global};

/// How many different leaves words have, as far as they are counted: more by one, and 0 where they aren't. A walk
/// marks the words that it comes to.
#[derive(Drop)]
pub(crate) struct Trees {
    alloc: Global,
    by_leaves: bool,
    counts: Vec<usize>,
    marks: Vec<u64>,
    walk: u64,
}

impl Trees {
    /// No word counted, with room for so many terms; `by_leaves` says whether leaves count.
    pub(crate) fn new(alloc: Global, words: usize, by_leaves: bool) -> Result<Trees, AllocError> {
        Ok(Trees {
            by_leaves,
            counts: vec![in alloc; 0; words]?,
            marks: vec![in alloc; 0; words]?,
            walk: 0,
            alloc,
        })
    }

    /// The control by which an equation is taken apart; none if no word is an ite.
    pub(crate) fn control(
        &mut self,
        graph: &Graph,
        rows: &RowWords,
        left: Id,
        right: Id,
    ) -> Result<Option<Id>, AllocError>
        requires left { left < length graph.now }
        requires right { right < length graph.now }
        ensures { IfOk result (IsChosen graph.now left right) }
    {
        let Some(earlier) = head(graph, left) else {
            return Ok(head(graph, right));
        };
        let Some(later) = head(graph, right) else {
            return Ok(Some(earlier));
        };
        if self.is_right_first(graph, rows, left, right)? {
            Ok(Some(later))
        } else {
            Ok(Some(earlier))
        }
    }

    /// Whether the right word of two ites is taken apart first: the other one is a row, or has no more leaves.
    fn is_right_first(
        &mut self,
        graph: &Graph,
        rows: &RowWords,
        left: Id,
        right: Id,
    ) -> Result<bool, AllocError> {
        if !self.by_leaves || rows.row(left).is_some() {
            return Ok(true);
        }
        if rows.row(right).is_some() {
            return Ok(false);
        }
        Ok(self.leaves(graph, rows, right)? >= self.leaves(graph, rows, left)?)
    }

    /// How many different leaves a word has, and one more.
    fn leaves(&mut self, graph: &Graph, rows: &RowWords, id: Id) -> Result<usize, AllocError> {
        let place = id.index();
        if place >= self.counts.len() {
            return Ok(0);
        }
        if self.counts[place] == 0 {
            let count = self.count(graph, rows, id)?;
            if place < self.counts.len() {
                self.counts[place] = count;
            }
        }
        Ok(self.counts.get(place).copied().unwrap_or(0))
    }

    /// Walks over a word's tree. Each of its words puts two others on the stack at most, and once.
    fn count(&mut self, graph: &Graph, rows: &RowWords, root: Id) -> Result<usize, AllocError> {
        self.walk = self.walk.wrapping_add(1);
        let mut leaves: usize = 1;
        let mut open = Vec::new(self.alloc);
        open.push(root)?;
        for _ in 0..graph.len().saturating_mul(2).saturating_add(1) {
            let Some(id) = open.pop() else {
                break;
            };
            let place = id.index();
            if place < self.marks.len() && place < graph.len() && self.marks[place] != self.walk {
                self.marks[place] = self.walk;
                match (graph.node(id), rows.row(id)) {
                    (Node::Ite(_, yes, no), None) => {
                        open.push(*no)?;
                        open.push(*yes)?;
                    }
                    _ => leaves = leaves.wrapping_add(1),
                }
            }
        }
        Ok(leaves)
    }
}
