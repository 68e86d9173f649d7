//! What the lets and conjuncts of an invariant are called where their values are shown: the line of each, with the let's
//! name or the conjunct's text.

use bd_syntax::lists::offset_of;
use bd_text::Tree;
use bd_text::outline::{atom_at, is_headed, parts_of, trees_of};
use itoa::Buffer;
use std::alloc::{AllocError, Global};

/// The most bytes of a conjunct that are shown.
const WIDTH: usize = 60;

/// A text, a place in it, and the line in which that stands, from 1.
#[derive(Clone, Copy)]
struct Cursor<'a> {
    text: &'a [u8],
    at: usize,
    line: u64,
}

impl Cursor<'_> {
    /// Goes on to a later place.
    fn go_to(&mut self, offset: usize) {
        let between = self.text.get(self.at..offset).unwrap_or(&[]);
        for byte in between {
            if *byte == b'\n' {
                self.line = self.line.saturating_add(1);
            }
        }
        self.at = offset;
    }
}

/// The parts of a list; an atom has none.
fn inside(tree: &Tree) -> &[Tree] {
    parts_of(tree).unwrap_or(&[])
}

/// The word that stands second in a list, empty where there is none.
fn word_after_head(tree: &Tree) -> &[u8] {
    atom_at(inside(tree), 1).unwrap_or(&[])
}

/// The text of a tree as far as it is shown, and whether that is all of it.
#[derive(Clone, Copy)]
struct TreeText<'a> {
    shown: &'a [u8],
    is_whole: bool,
}

/// The text up to a place.
fn up_to(text: &[u8], end: usize, is_whole: bool) -> TreeText<'_> {
    TreeText {
        shown: text.get(..end).unwrap_or(text),
        is_whole,
    }
}

/// The tree with which a text begins, as far as it stands on one line and has room.
fn excerpt(text: &[u8]) -> TreeText<'_> {
    let mut depth = 0usize;
    for (at, byte) in text.iter().enumerate() {
        match *byte {
            b'\n' | b'\r' | b';' => return up_to(text, at, depth == 0),
            b' ' | b'\t' if depth == 0 => return up_to(text, at, true),
            b')' if depth == 0 => return up_to(text, at, true),
            b')' if depth == 1 => return up_to(text, at.saturating_add(1), true),
            _ if at == WIDTH => return up_to(text, at, false),
            b'(' => depth = depth.saturating_add(1),
            b')' => depth = depth.saturating_sub(1),
            _ => {}
        }
    }
    up_to(text, text.len(), true)
}

/// Puts the text of a tree after a name, `..` in place of what stands on further lines or has no room.
fn push_excerpt(out: &mut Vec<u8>, text: &[u8], tree: &Tree) -> Result<(), AllocError> {
    let part = excerpt(text.get(offset_of(tree)..).unwrap_or(&[]));
    out.extend_from_slice(part.shown)?;
    if part.is_whole {
        Ok(())
    } else {
        out.extend_from_slice(b" ..")
    }
}

/// The name of what stands at a tree: its line.
fn numbered(alloc: Global, cursor: &mut Cursor<'_>, tree: &Tree) -> Result<Vec<u8>, AllocError> {
    cursor.go_to(offset_of(tree));
    let mut buffer = Buffer::new();
    let mut name = Vec::from_slice(alloc, b"line ")?;
    name.extend_from_slice(buffer.format(cursor.line).as_bytes())?;
    name.extend_from_slice(b": ")?;
    Ok(name)
}

/// The name of a let.
fn let_name(alloc: Global, cursor: &mut Cursor<'_>, tree: &Tree) -> Result<Vec<u8>, AllocError> {
    let mut name = numbered(alloc, cursor, tree)?;
    name.extend_from_slice(b"let ")?;
    name.extend_from_slice(word_after_head(tree))?;
    Ok(name)
}

/// The name of a conjunct.
fn conjunct_name(
    alloc: Global,
    cursor: &mut Cursor<'_>,
    tree: &Tree,
) -> Result<Vec<u8>, AllocError> {
    let mut name = numbered(alloc, cursor, tree)?;
    push_excerpt(&mut name, cursor.text, tree)?;
    Ok(name)
}

/// Puts the names of an expression's conjuncts: the parts of an `and`, or the expression itself.
fn push_conjuncts(
    alloc: Global,
    names: &mut Vec<Vec<u8>>,
    cursor: &mut Cursor<'_>,
    whole: &Tree,
) -> Result<(), AllocError> {
    if !is_headed(whole, b"and") {
        names.push(conjunct_name(alloc, cursor, whole)?)?;
        return Ok(());
    }
    for part in inside(whole).get(1..).unwrap_or(&[]) {
        names.push(conjunct_name(alloc, cursor, part)?)?;
    }
    Ok(())
}

/// The names in a text that is read as an invariant: of its lets, and after them of its conjuncts.
fn names_in(alloc: Global, text: &[u8], invariant: &Tree) -> Result<Vec<Vec<u8>>, AllocError> {
    let mut names = Vec::new(alloc);
    let mut cursor = Cursor {
        text,
        at: 0,
        line: 1,
    };
    for part in inside(invariant) {
        if is_headed(part, b"let") {
            names.push(let_name(alloc, &mut cursor, part)?)?;
        }
    }
    if let Some(whole) = inside(invariant).last() {
        push_conjuncts(alloc, &mut names, &mut cursor, whole)?;
    }
    Ok(names)
}

/// The names of the lets and conjuncts of an invariant's text, none without one.
pub fn claim_names(alloc: Global, text: &Option<Vec<u8>>) -> Result<Vec<Vec<u8>>, AllocError> {
    let Some(text) = text else {
        return Ok(Vec::new(alloc));
    };
    let trees = trees_of(alloc, text.as_slice())?;
    match trees.get(0) {
        Some(invariant) => names_in(alloc, text.as_slice(), invariant),
        None => Ok(Vec::new(alloc)),
    }
}
