//! The text of an invariant that asks more.
use bd_model::Design;
use bd_text::Tree;
use bd_text::outline::{parts_of, trees_of};
use std::alloc::{AllocError, Global};

/// Where a tree begins.
fn offset_of(tree: &Tree) -> usize {
    match tree {
        Tree::Atom { offset, .. } => *offset,
        Tree::List { offset, .. } => *offset,
    }
}

/// Where the expression of an invariant's text begins: the last part of its only tree.
fn value_offset(alloc: Global, inv: &[u8]) -> Result<Option<usize>, AllocError> {
    let trees = trees_of(alloc, inv)?;
    let Some(parts) = trees.as_slice().first().and_then(parts_of) else {
        return Ok(None);
    };
    Ok(parts.last().map(offset_of))
}

/// Puts conditions that these entries are false.
fn push_false(text: &mut Vec<u8>, design: &Design, latches: &[usize]) -> Result<(), AllocError> {
    for place in latches {
        if let Some(entry) = design.pipe.entries.as_slice().get(*place) {
            text.extend_from_slice(b"(not ")?;
            text.extend_from_slice(entry.name.as_slice())?;
            text.extend_from_slice(b") ")?;
        }
    }
    Ok(())
}

/// The text of the invariant that is true where this one is, if there is one, and these latches are false; none where the
/// text has no expression.
pub(crate) fn narrowed(
    alloc: Global,
    inv: Option<&[u8]>,
    design: &Design,
    latches: &[usize],
) -> Result<Option<Vec<u8>>, AllocError> {
    let given = inv.unwrap_or(b"(invariant true)");
    let Some(at) = value_offset(alloc, given)? else {
        return Ok(None);
    };
    let (Some(before), Some(after)) = (given.get(..at), given.get(at..)) else {
        return Ok(None);
    };
    let mut text = Vec::from_slice(alloc, before)?;
    text.extend_from_slice(b"(and ")?;
    push_false(&mut text, design, latches)?;
    text.extend_from_slice(after)?;
    text.extend_from_slice(b"\n)\n")?;
    Ok(Some(text))
}
