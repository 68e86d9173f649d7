//! The trees of a file.

use crate::source::NamedFile;
use bd_syntax::lists::offset_of;
use bd_text::outline::{atom_at, atom_of, parts_of, trees_of};
use bd_text::{Tree, Trees};
use bd_typer::Text;
use std::alloc::{AllocError, Global};

/// A file and its trees, none where its brackets don't match or a byte isn't allowed.
#[derive(Drop)]
pub struct File<'a> {
    pub source: NamedFile<'a>,
    trees: Trees,
}

/// An item, an entry or an expression: a list that begins with a word.
#[derive(Clone, Copy)]
pub struct Headed<'t> {
    pub offset: usize,
    pub head: &'t [u8],
    /// The head and what follows it.
    pub parts: &'t [Tree],
}

/// A list that begins with a word.
pub fn list_of(tree: &Tree) -> Option<Headed<'_>> {
    let parts = parts_of(tree)?;
    Some(Headed {
        offset: offset_of(tree),
        head: atom_at(parts, 0)?,
        parts,
    })
}

impl<'t> Headed<'t> {
    /// The name of an item, and where that stands.
    pub fn name(self) -> Option<(usize, &'t [u8])> {
        let tree = self.parts.get(1)?;
        Some((offset_of(tree), atom_of(tree)?))
    }

    /// How many parts follow the head.
    pub fn count(self) -> usize {
        self.parts.len().saturating_sub(1)
    }
}

/// The bytes of a case, in which the line of a verdict is a comment.
fn commented(alloc: Global, text: &[u8]) -> Result<Vec<u8>, AllocError> {
    let mut bytes = Vec::new(alloc);
    if let Some((first, rest)) = text.split_first() {
        let is_verdict = *first == b'w' || *first == b'c';
        bytes.push(if is_verdict { b';' } else { *first })?;
        bytes.extend_from_slice(rest)?;
    }
    Ok(bytes)
}

impl<'a> File<'a> {
    /// A file with its trees.
    pub fn new(alloc: Global, source: NamedFile<'a>) -> Result<File<'a>, AllocError> {
        let trees = match source.file {
            Text::Case | Text::Trail => {
                let text = commented(alloc, source.text)?;
                trees_of(alloc, text.as_slice())?
            }
            Text::Proof => Trees::from_vec(Vec::new(alloc)),
            _ => trees_of(alloc, source.text)?,
        };
        Ok(File { source, trees })
    }

    /// The trees of the file, which should be one.
    pub fn trees(&self) -> &[Tree] {
        self.trees.as_slice()
    }

    /// The word that the file's list begins with.
    pub fn head(&self) -> Option<&[u8]> {
        Some(list_of(self.trees().first()?)?.head)
    }

    /// What follows the first word of the file's list.
    pub fn items(&self) -> &[Tree] {
        match self.trees().first() {
            Some(tree) => parts_of(tree).unwrap_or(&[]).get(1..).unwrap_or(&[]),
            None => &[],
        }
    }
}
