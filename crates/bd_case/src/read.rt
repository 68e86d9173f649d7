//! Reading a case or a trail.

ghost use Rattle.std.specs.Prelude.{◌≡◌, ◌≤◌, ℕ, IfOk, length, map};
ghost use Rattle.bd_text.specs.View.{node_of, nodes_of, nodes_of_all};
ghost use Rattle.bd_syntax.specs.Reading.{Gives, number_form, offset_of};
ghost use Rattle.bd_model.specs.DesignView.{design_view};
ghost use Rattle.bd_model.specs.Fits.{Fits, TrailFits};
ghost use Rattle.bd_model.specs.Lawful.{IsLawful};
ghost use Rattle.bd_case.specs.Reading.{HasCycles, cycles_part, file_form, layout_form, nothing_given, text_form, version_part, walk_form};
ghost use Rattle.bd_case.specs.Reads.{AnswerReads, IsRead, IsTrailRead};
ghost use Rattle.bd_model.specs.Limits.{most_cycles};

use crate::entry::entries;
use crate::frame::Frame;
use crate::kind::{EntryKind, Layout, Subject, Version};
use crate::whole::{case_of, distinct, trail_from, whole};
use crate::{CaseFault, TrailFault};
use bd_model::{Case, Design, Table, Trail};
use bd_syntax::atoms::number;
use bd_syntax::lists::{end, headed, offset_of};
use bd_syntax::{FormFault, bad};
use bd_text::{Code, Tree, Trees, read_trees};
use std::alloc::{AllocError, Global};

/// The most cycles of a trail.
const MOST_CYCLES: u64 = 16;

/// The layout of a case, by the version that a tree is.
fn version_of(tree: &Tree) -> Result<Layout, FormFault>
    ensures { Gives (λ l. l) result (version_part (node_of tree.now)) }
{
    if let Tree::Atom { text, .. } = tree {
        if text.as_slice() == b"1".as_slice() {
            return Ok(Layout {
                version: Version::One,
                cycles: 1,
            });
        }
        if text.as_slice() == b"2".as_slice() {
            return Ok(Layout {
                version: Version::Two,
                cycles: 1,
            });
        }
    }
    Err(bad(offset_of(tree), Code::WrongHead))
}

/// The layout of a trail, by the number of cycles that a tree is.
fn cycles_of(tree: &Tree) -> Result<Layout, FormFault>
    ensures { Gives (λ l. l) result
        (cycles_part (offset_of (node_of tree.now)) (number_form most_cycles (node_of tree.now))) }
{
    match number(tree, MOST_CYCLES) {
        Ok(cycles) => Ok(Layout {
            version: Version::Two,
            cycles: cycles as u32,
        }),
        Err(FormFault::Bad { .. }) => Err(bad(offset_of(tree), Code::WrongHead)),
        Err(FormFault::Memory) => Err(FormFault::Memory),
    }
}

/// The layout of a text, and the entries after it.
fn layout(subject: Subject, offset: usize, parts: &[Tree]) -> Result<(Layout, &[Tree]), FormFault>
    ensures { Gives (λ p. (p.0, nodes_of_all p.1.now)) result
        (layout_form subject offset (nodes_of_all parts.now)) }
{
    let Some((first, entries)) = parts.split_first() else {
        return Err(bad(offset, Code::WrongHead));
    };
    match subject {
        Subject::Case => Ok((version_of(first)?, entries)),
        Subject::Trail => Ok((cycles_of(first)?, entries)),
    }
}

/// The one tree of a text.
#[derive(Clone, Copy)]
struct File<'a> {
    offset: usize,
    layout: Layout,
    entries: &'a [Tree],
}

impl<'a> File<'a> {
    /// The one tree of a text, with its layout and entries.
    fn of(subject: Subject, trees: &'a Trees) -> Result<File<'a>, FormFault>
        ensures { Gives (λ file. (file.offset, (file.layout, nodes_of_all file.entries.now)))
            result
            (file_form subject (nodes_of trees.now)) }
    {
        let Some((tree, further)) = trees.as_slice().split_first() else {
            return Err(bad(0, Code::WrongHead));
        };
        let (offset, parts) = headed(tree, subject.text())?;
        let (layout, entries) = layout(subject, offset, parts)?;
        end(further)?;
        Ok(File {
            offset,
            layout,
            entries,
        })
    }
}

/// Nothing for each kind.
fn nothing_given(alloc: Global, kinds: &[EntryKind]) -> Result<Vec<Option<Table>>, AllocError>
    ensures { IfOk result (λ given. given.items ≡ nothing_given kinds.now) }
{
    let mut given = Vec::with_capacity(alloc, kinds.len())?;
    for kind in kinds {
        given.push(None)?;
    }
    Ok(given)
}

/// What entries give, in the list at an offset.
#[tactic(auto, unfolding(crate::specs::Reading::walk_form))]
fn walk(
    alloc: Global,
    design: &Design,
    layout: Layout,
    offset: usize,
    parts: &[Tree],
) -> Result<Trail, FormFault>
    ensures { Gives (λ t. t) result
        (walk_form layout (design_view design.now) offset (nodes_of_all parts.now)) }
{
    let frame = Frame::new(alloc, design, layout)?;
    let mut given = nothing_given(alloc, &frame.kinds)?;
    entries(alloc, &frame, &mut given, parts)?;
    let tables = whole(alloc, offset, &frame.kinds, given)?;
    let trail = trail_from(alloc, design, layout.cycles, tables)?;
    distinct(alloc, design, offset, trail)
}

/// What trees are the text of.
#[tactic(auto, unfolding(crate::specs::Reading::text_form))]
fn trail_of_trees(
    alloc: Global,
    design: &Design,
    subject: Subject,
    trees: &Trees,
) -> Result<Trail, FormFault>
    ensures { Gives (λ t. t) result
        (text_form subject (design_view design.now) (nodes_of trees.now)) }
{
    let file = File::of(subject, trees)?;
    walk(alloc, design, file.layout, file.offset, file.entries)
}

/// What a text is, where a case is a trail of one cycle.
fn read_text(
    alloc: Global,
    design: &Design,
    subject: Subject,
    bytes: &[u8],
) -> Result<Trail, FormFault>
    ensures exact { AnswerReads (text_form subject (design_view design.now)) bytes.now result }
    ensures fits { IsLawful (design_view design.now)
        → IfOk result (λ t. TrailFits (design_view design.now) t) }
    ensures cycles { IfOk result (λ t. HasCycles subject (length t.inputs)) }
{
    match read_trees(alloc, bytes) {
        Ok(trees) => trail_of_trees(alloc, design, subject, &trees),
        Err(fault) => Err(fault),
    }
}

/// The case that a text is. Both versions are read for every design.
///
/// The first fault refuses the text: `E01` to `E03` of any text; then `E04` without a tree (at 0), at a first tree
/// that isn't a list with the head `case`, at it where it has no version, at a version other than `1` and `2`, and at
/// a second tree; then from left to right, of each entry, `E05` at a form that no entry has, `E06` at a name that is
/// none, `E08` at one that the design doesn't have, `E09` at one of another kind, `E07` at one that was given before,
/// `E09` and `E11` at a value that is no truth value or no word, and `E10` at a row with a wrong number of
/// parts; then at the case's tree `E12` where a latch, memory, input or, in version 2, a constant that is kept apart
/// has no entry, and `E19` where two constants that are kept apart have equal values.
pub fn read_case(alloc: Global, design: &Design, bytes: &[u8]) -> Result<Case, CaseFault>
    ensures exact { IsRead (design_view design.now) bytes.now result }
    ensures fits { IsLawful (design_view design.now)
        → IfOk result (λ c. Fits (design_view design.now) c) }
{
    let trail = read_text(alloc, design, Subject::Case, bytes)?;
    Ok(case_of(alloc, trail))
}

/// The trail that a text is, of at most 16 cycles. It's read as a case in version 2, but for the head `trail`, and a
/// number of cycles from 0 to 16 in the version's place, `E04` otherwise; an input has a value for each cycle, and
/// `E05` stands at its entry where it has more or fewer.
pub fn read_trail(alloc: Global, design: &Design, bytes: &[u8]) -> Result<Trail, TrailFault>
    ensures exact { IsTrailRead (design_view design.now) bytes.now result }
    ensures fits { IsLawful (design_view design.now)
        → IfOk result (λ t. TrailFits (design_view design.now) t) }
    ensures cycles { IfOk result (λ t. length t.inputs ≤ most_cycles) }
{
    read_text(alloc, design, Subject::Trail, bytes)
}
