//! Reading a text.
//!
//! One pass over the bytes keeps the trees of the innermost open list, and for each list around it
//! the trees before it, so a `)` makes a tree of what is there and goes on with what was before: no
//! call goes deeper however the text nests. After each step the text up to the offset is just what
//! is kept (`HasRead`), no fault stands before it, and it lies outside comments. So a fault that is
//! found is the first, and where no list is open at the end the text is the trees.

ghost use Rattle.std.specs.Prelude.{◌≡◌, ◌+◌, ◌^◌, ◌<◌, ◌≤◌, ◌⊎◌, false, [], ◌∷◌, length, slice_index, slice_range, IfOk, IfErr, IsTrue};
ghost use Rattle.bd_text.specs.Layout.{IsAllowed, IsAtomByte, IsSeparator};
ghost use Rattle.bd_text.specs.Faults.{HasNoFault, IsFirstFault, OnBad};
ghost use Rattle.bd_text.specs.Grammar.{Spells};
ghost use Rattle.bd_text.specs.Nodes.{atom, add_node};
ghost use Rattle.bd_text.specs.inner.Progress.{ClosesList, HasRead, IsComment, IsAtomRun, openings_of};
ghost use Rattle.bd_text.specs.View.{nodes_of, nodes_of_all};
ghost use Rattle.bd_text.specs.Written.{AreShallow};

use crate::{Bytes, Code, TextFault, Tree, Trees};
use std::alloc::Global;
use std::mem;

/// How many lists may be open at once.
const MAX_DEPTH: usize = 200;

/// A fault at an offset.
fn bad(offset: usize, code: Code) -> TextFault
    ensures { result ≡ TextFault.Bad offset code }
{
    TextFault::Bad { offset, code }
}

/// A list whose `)` hasn't come yet.
#[derive(Drop)]
struct OpenList {
    offset: usize,
    before: Vec<Tree>,
}

/// The trees of the innermost list so far, and the lists around them.
#[derive(Drop)]
struct Reader {
    alloc: Global,
    parts: Vec<Tree>,
    open_lists: Vec<OpenList>,
}

impl Reader {
    /// A reader that has read nothing.
    fn new(alloc: Global) -> Reader
        ensures parts { result.parts.items ≡ [] }
        ensures open_lists { result.open_lists.items ≡ [] }
    {
        Reader {
            alloc,
            parts: Vec::new(alloc),
            open_lists: Vec::new(alloc),
        }
    }

    /// Reads what begins at an offset, and answers where it ends.
    fn step(&mut self, bytes: &[u8], at: usize) -> Result<usize, TextFault>
        requires inside { at < length bytes.now }
        requires read { HasRead bytes.now at self.old }
        ensures further { IfOk result (λ next. at < next) }
        ensures read { IfOk result (λ next. HasRead bytes.now next self.new) }
        ensures fault { IfErr result (λ fault. OnBad fault (IsFirstFault bytes.now)) }
    {
        match bytes[at] {
            byte if is_separator(byte) => Ok(at + 1),
            b';' => comment_end(bytes, at),
            b'(' => self.begin_list(at),
            b')' => self.end_list(at),
            b'!'..=b'~' => self.read_atom(bytes, at),
            _ => Err(bad(at, Code::ByteNotAllowed)),
        }
    }

    /// Begins a list at its `(`.
    fn begin_list(&mut self, at: usize) -> Result<usize, TextFault>
        requires fits { at + 1 < 2 ^ 64 }
        ensures ok { IfOk result (λ next. (next ≡ at + 1) × (length self.old.open_lists.items < 200)
            × (self.new.parts.items ≡ [])
            × (openings_of self.new.open_lists.items
            ≡ (at, nodes_of_all self.old.parts.items) ∷ openings_of self.old.open_lists.items)) }
        ensures fault { IfErr result (λ fault. OnBad fault (λ offset code.
            (offset ≡ at) × (code ≡ Code.TooDeep) × (200 ≤ length self.old.open_lists.items))) }
    {
        if self.open_lists.len() >= MAX_DEPTH {
            return Err(bad(at, Code::TooDeep));
        }
        let before = mem::replace(&mut self.parts, Vec::new(self.alloc));
        self.open_lists.push(OpenList { offset: at, before })?;
        Ok(at + 1)
    }

    /// Ends the innermost list at its `)`.
    fn end_list(&mut self, at: usize) -> Result<usize, TextFault>
        requires fits { at + 1 < 2 ^ 64 }
        ensures ok { IfOk result (λ next. (next ≡ at + 1)
            × ClosesList (nodes_of_all self.old.parts.items) (openings_of self.old.open_lists.items)
            (nodes_of_all self.new.parts.items) (openings_of self.new.open_lists.items)) }
        ensures fault { IfErr result (λ fault. OnBad fault (λ offset code.
            (offset ≡ at) × (code ≡ Code.Unbalanced) × (self.old.open_lists.items ≡ []))) }
    {
        let Some(inner) = self.open_lists.pop() else {
            return Err(bad(at, Code::Unbalanced));
        };
        let parts = mem::replace(&mut self.parts, inner.before);
        self.parts.push(Tree::List {
            offset: inner.offset,
            parts: Trees::from_vec(parts),
        })?;
        Ok(at + 1)
    }

    /// Reads the atom that begins at an offset.
    fn read_atom(&mut self, bytes: &[u8], at: usize) -> Result<usize, TextFault>
        requires inside { at < length bytes.now }
        requires begins { IsAtomByte (slice_index bytes.now at) }
        ensures ok { IfOk result (λ end. IsAtomRun bytes.now at end
            × (nodes_of_all self.new.parts.items
            ≡ add_node (nodes_of_all self.old.parts.items) (atom at (slice_range bytes.now at end)))
            × (self.new.open_lists.items ≡ self.old.open_lists.items)) }
        ensures fault { IfErr result (λ fault. fault ≡ TextFault.Memory) }
    {
        let end = atom_end(bytes, at);
        let text = Bytes::from_vec(Vec::from_slice(self.alloc, &bytes[at..end])?);
        self.parts.push(Tree::Atom { offset: at, text })?;
        Ok(end)
    }

    /// The trees, where every list was closed before the end.
    fn finish(self, end: usize) -> Result<Trees, TextFault>
        ensures ok { IfOk result (λ trees.
            (self.open_lists.items ≡ []) × (nodes_of trees ≡ nodes_of_all self.parts.items)) }
        ensures fault { IfErr result (λ fault. OnBad fault (λ offset code.
            (offset ≡ end) × (code ≡ Code.Unbalanced) × (0 < length self.open_lists.items))) }
    {
        let Reader {
            alloc: _,
            parts,
            open_lists,
        } = self;
        if !open_lists.is_empty() {
            return Err(bad(end, Code::Unbalanced));
        }
        Ok(Trees::from_vec(parts))
    }
}

/// Whether a byte separates trees.
fn is_separator(byte: u8) -> bool
    ensures separator { IsTrue result → IsSeparator byte }
    ensures other { (result ≡ false) → ¬ IsSeparator byte }
{
    matches!(byte, b' ' | b'\t' | b'\r' | b'\n')
}

/// Whether a byte may stand in an atom.
fn is_atom_byte(byte: u8) -> bool
    ensures atom_byte { IsTrue result → IsAtomByte byte }
    ensures other { (result ≡ false) → ¬ IsAtomByte byte }
{
    matches!(byte, b'!'..=b'~') && !matches!(byte, b'(' | b')' | b';')
}

/// Whether a byte may stand in a text.
fn is_allowed(byte: u8) -> bool
    ensures allowed { IsTrue result → IsAllowed byte }
    ensures other { (result ≡ false) → ¬ IsAllowed byte }
{
    matches!(byte, b'\t' | b'\n' | b'\r' | b' '..=b'~')
}

/// Where the atom that begins at an offset ends.
fn atom_end(bytes: &[u8], at: usize) -> usize
    requires inside { at < length bytes.now }
    requires begins { IsAtomByte (slice_index bytes.now at) }
    ensures { IsAtomRun bytes.now at result }
{
    for end in at + 1..bytes.len() {
        if !is_atom_byte(bytes[end]) {
            return end;
        }
    }
    bytes.len()
}

/// Where the comment that begins at an offset ends: before a line feed, or at the end.
fn comment_end(bytes: &[u8], at: usize) -> Result<usize, TextFault>
    requires inside { at < length bytes.now }
    ensures ok { IfOk result (λ end. IsComment bytes.now at end
        × ((end ≡ length bytes.now) ⊎ (slice_index bytes.now end ≡ 10))) }
    ensures fault { IfErr result (λ fault. OnBad fault (λ offset code. IsComment bytes.now at offset
        × (offset < length bytes.now) × (code ≡ Code.ByteNotAllowed)
        × (¬ IsAllowed (slice_index bytes.now offset)))) }
{
    for end in at + 1..bytes.len() {
        let byte = bytes[end];
        if !is_allowed(byte) {
            return Err(bad(end, Code::ByteNotAllowed));
        }
        if byte == b'\n' {
            return Ok(end);
        }
    }
    Ok(bytes.len())
}

/// The trees of a text, each with its offset in bytes from 0, in one pass over the bytes.
///
/// The first fault from the left refuses the text: `E01` at a byte that isn't allowed, in a comment
/// too, `E02` at a `)` with no list open, or at the text's length where a list is open there, and
/// `E03` at a `(` that would be the 201st list open. Which fault it is depends on the bytes alone,
/// unless memory runs out.
pub fn read_trees(alloc: Global, bytes: &[u8]) -> Result<Trees, TextFault>
    ensures no_fault { IfOk result (λ _. HasNoFault bytes.now) }
    ensures trees { IfOk result (λ trees. Spells bytes.now (nodes_of trees)) }
    ensures shallow { IfOk result (λ trees. AreShallow (nodes_of trees)) }
    ensures fault { IfErr result (λ fault. OnBad fault (IsFirstFault bytes.now)) }
{
    let mut reader = Reader::new(alloc);
    let mut at = 0;
    while at < bytes.len() {
        at = reader.step(bytes, at)?;
    }
    reader.finish(at)
}
