//! Writing a tree.

ghost use Rattle.std.specs.Prelude.{◌≡◌, ◌<◌, ◌++◌, IfOk, IfSome, OnOk};
ghost use Rattle.bd_text.specs.Nodes.{node_at, node_count};
ghost use Rattle.bd_text.specs.View.{node_of, nodes_of};
ghost use Rattle.bd_text.specs.Written.{AreShallow, written};

use crate::{Tree, Trees};
use std::alloc::{AllocError, Global};

/// The text of one of the trees: an atom as it is, a list as `(`, its parts with one space between
/// two, and `)`. It goes as deep as the tree nests, so it asks for trees that are shallow, as those
/// that are read; it fails only when out of memory.
pub fn write_tree(alloc: Global, trees: &Trees, which: usize) -> Result<Vec<u8>, AllocError>
    requires which { which < node_count (nodes_of trees.now) }
    requires shallow { AreShallow (nodes_of trees.now) }
    ensures { IfOk result (λ text.
        IfSome (node_at (nodes_of trees.now) which) (λ t. text.items ≡ written t)) }
{
    let mut out = Vec::new(alloc);
    push_tree(&mut out, &trees.items[which])?;
    Ok(out)
}

/// Writes a tree at the end of a text.
fn push_tree(out: &mut Vec<u8>, tree: &Tree) -> Result<(), AllocError>
    ensures { OnOk result (out.new.items ≡ out.old.items ++ written (node_of tree.now)) }
{
    match tree {
        Tree::Atom { offset: _, text } => {
            out.extend_from_slice(text.as_slice())?;
            Ok(())
        }
        Tree::List { offset: _, parts } => {
            out.push(b'(')?;
            for (i, part) in parts.items.iter().enumerate() {
                if i > 0 {
                    out.push(b' ')?;
                }
                push_tree(out, part)?;
            }
            out.push(b')')?;
            Ok(())
        }
    }
}
