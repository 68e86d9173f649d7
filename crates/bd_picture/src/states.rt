//! The states of both ways, side by side.
//!
//! The columns are the states before the cycle and after each flush cycle from there, and those after the cycle and
//! after each flush cycle from there. An input stands under the state that its cycle led to. Where the invariant is
//! broken only the states before the cycle and after it are shown.
ghost use Rattle.std.specs.Prelude.{◌≡◌, IfOk, IsTrue};
ghost use Rattle.std.specs.List.{All, AllZip};
ghost use Rattle.bd_picture.specs.Cells.{IsContent, IsStatesCell, IsStatesRow, Stays, earlier, flush_input, input_in, state_value, value_in};

use crate::differing::Spots;
use crate::grid::{Cell, Content, Grid, GridRow, Head, Look, Signal, is_shown};
use crate::line::{RowLabel, entry_lines, push_inputs};
use crate::marks::ShownValues;
use crate::picture::{Outcome, ShownCase};
use crate::words::value_of;
use bd_diagram::Flushing;
use bd_label::push_number;
use bd_model::{Condition, Judged, Scalar, State};
use bd_slice::{Column, Location};
use std::alloc::{AllocError, Global};

/// The state before this one on the same way.
fn earlier(column: Column) -> Option<Column>
    ensures { result ≡ earlier column }
{
    match column {
        Column::Before(n) => {
            if n == 0 {
                None
            } else {
                Some(Column::Before(n - 1))
            }
        }
        Column::After(n) => {
            if n == 0 {
                None
            } else {
                Some(Column::After(n - 1))
            }
        }
        Column::Steps(n) => {
            if n == 0 {
                None
            } else {
                Some(Column::Steps(n - 1))
            }
        }
    }
}

/// The value of an input in the flush cycle that ends in the state of this number.
fn flush_input(flushing: &Flushing, state: u32, number: u32) -> Option<Scalar>
    ensures { result ≡ flush_input flushing.now state number }
{
    if state == 0 {
        return None;
    }
    match flushing.inputs.as_slice().get((state - 1) as usize) {
        Some(inputs) => inputs.as_slice().get(number as usize).copied(),
        None => None,
    }
}

/// The value of an input in the cycle that leads to a state.
fn input_at(view: &ShownCase<'_>, number: u32, column: Column) -> Option<Scalar>
    ensures { result ≡ input_in view.now.case.now view.now.diagram.now number column }
{
    match column {
        Column::Before(n) => flush_input(&view.diagram.before, n, number),
        Column::After(n) => {
            if n == 0 {
                view.case.inputs.as_slice().get(number as usize).copied()
            } else {
                flush_input(&view.diagram.after, n, number)
            }
        }
        Column::Steps(_) => None,
    }
}

/// A value of the state of this number.
fn state_value(states: &[State], number: u32, spot: Location) -> Option<Scalar>
    ensures { result ≡ state_value states.now number spot }
{
    match states.get(number as usize) {
        Some(state) => Some(value_of(state.as_slice(), spot)),
        None => None,
    }
}

/// The value that a line has in a column.
fn value_at(view: &ShownCase<'_>, place: Signal, column: Column) -> Option<Scalar>
    ensures { result ≡ value_in view.now.case.now view.now.diagram.now place column }
{
    match place {
        Signal::Input(number) => input_at(view, number, column),
        Signal::Value(spot) => match column {
            Column::Before(n) => state_value(view.diagram.before.states.as_slice(), n, spot),
            Column::After(n) => state_value(view.diagram.after.states.as_slice(), n, spot),
            Column::Steps(_) => None,
        },
    }
}

/// Whether the value of a line in a column is shown, and still the one that is shown in the state before.
fn stays(view: &ShownCase<'_>, marks: &ShownValues, place: Signal, column: Column) -> bool
    ensures { IsTrue result → Stays view.now.case.now view.now.diagram.now place column }
{
    match earlier(column) {
        Some(before) => {
            marks.has(place, before)
                && value_at(view, place, column) == value_at(view, place, before)
        }
        None => false,
    }
}

/// What the cell of a line shows in a column.
fn content_of(view: &ShownCase<'_>, marks: &ShownValues, place: Signal, column: Column) -> Content
    ensures { IsContent view.now.case.now view.now.diagram.now place column result }
{
    match value_at(view, place, column) {
        None => Content::Nothing,
        Some(value) => {
            if !marks.has(place, column) {
                Content::Hidden
            } else if stays(view, marks, place, column) {
                Content::Unchanged
            } else {
                Content::Value(value)
            }
        }
    }
}

/// The cell of a line in a column.
fn cell_of(view: &ShownCase<'_>, marks: &ShownValues, place: Signal, column: Column) -> Cell
    ensures { IsContent view.now.case.now view.now.diagram.now place column result.content }
{
    let content = content_of(view, marks, place, column);
    let look = match content {
        Content::Value(_) if earlier(column).is_some() => Look::Changed,
        _ => Look::Plain,
    };
    Cell {
        content,
        look,
        number: marks.number(place, column),
    }
}

/// The number of the last state that is printed of each way: by a completion function nothing is flushed.
fn last_state(view: &ShownCase<'_>) -> u32 {
    match view.outcome {
        Outcome::Flushed(Judged::Broken(Condition::Invariant)) | Outcome::Completed(_) => 0,
        Outcome::Flushed(_) | Outcome::Compared(_) => view.design.flush,
    }
}

/// The states of the diagram, or those before the cycle and after it. What is compared in one state has none after it.
fn states(alloc: Global, view: &ShownCase<'_>) -> Result<Vec<Column>, AllocError> {
    let last = last_state(view);
    let mut columns = Vec::new(alloc);
    for number in 0..last {
        columns.push(Column::Before(number))?;
    }
    columns.push(Column::Before(last))?;
    if matches!(view.outcome, Outcome::Compared(_)) {
        return Ok(columns);
    }
    for number in 0..last {
        columns.push(Column::After(number))?;
    }
    columns.push(Column::After(last))?;
    Ok(columns)
}

/// Whether some line shows a value in a column.
fn shows(view: &ShownCase<'_>, marks: &ShownValues, lines: &[RowLabel], column: Column) -> bool {
    lines
        .iter()
        .any(|line| is_shown(&cell_of(view, marks, line.place, column)))
}

/// A column that is printed, and the last one that is folded into it.
#[derive(Clone, Copy)]
struct Folded {
    first: Column,
    last: Column,
}

/// The columns that are printed: the first of each way, and those in which a value is shown.
fn columns(
    alloc: Global,
    view: &ShownCase<'_>,
    marks: &ShownValues,
    lines: &[RowLabel],
) -> Result<Vec<Folded>, AllocError> {
    let mut columns: Vec<Folded> = Vec::new(alloc);
    for column in states(alloc, view)? {
        let stays = earlier(column).is_some() && !shows(view, marks, lines, column);
        match columns.last_mut() {
            Some(folded) if stays => folded.last = column,
            _ => columns.push(Folded {
                first: column,
                last: column,
            })?,
        }
    }
    Ok(columns)
}

/// Puts the heading of a state, so many flush cycles from the first of its way.
fn push_state(out: &mut Vec<u8>, start: &[u8], cycles: u32) -> Result<(), AllocError> {
    if cycles == 0 {
        return out.extend_from_slice(start);
    }
    out.push(b'f')?;
    push_number(out, u64::from(cycles))
}

/// Whether a column is on the way before the cycle.
fn is_before(column: Column) -> bool {
    matches!(column, Column::Before(_))
}

/// The heading of a column, `before`, `after`, `f2` or `f2-f5`.
fn heading(alloc: Global, folded: Folded) -> Result<Head, AllocError> {
    let mut text = Vec::new(alloc);
    let start: &[u8] = if is_before(folded.first) {
        b"before"
    } else {
        b"after"
    };
    push_state(&mut text, start, folded.first.number())?;
    if folded.first != folded.last {
        text.push(b'-')?;
        push_state(&mut text, start, folded.last.number())?;
    }
    Ok(Head {
        text,
        column: folded.first,
        allowed: true,
    })
}

/// The headings of these columns.
fn headings(alloc: Global, columns: &[Folded]) -> Result<Vec<Head>, AllocError> {
    let mut heads = Vec::new(alloc);
    for folded in columns {
        heads.push(heading(alloc, *folded)?)?;
    }
    Ok(heads)
}

/// The cells of a line under these headings.
fn cells_of(
    alloc: Global,
    view: &ShownCase<'_>,
    marks: &ShownValues,
    place: Signal,
    heads: &[Head],
) -> Result<Vec<Cell>, AllocError>
    ensures { IfOk result (λ cells. AllZip
        (IsStatesCell view.now.case.now view.now.diagram.now place) heads.now cells.items) }
{
    let mut cells = Vec::new(alloc);
    for head in heads {
        cells.push(cell_of(view, marks, place, head.column))?;
    }
    Ok(cells)
}

/// The row of a line.
fn row(
    alloc: Global,
    view: &ShownCase<'_>,
    marks: &ShownValues,
    line: &RowLabel,
    heads: &[Head],
) -> Result<GridRow, AllocError>
    ensures { IfOk result
        (IsStatesRow view.now.case.now view.now.diagram.now heads.now) }
{
    let cells = cells_of(alloc, view, marks, line.place, heads)?;
    Ok(GridRow {
        name: line.name.clone()?,
        place: line.place,
        visible: line.visible,
        differs: line.differs,
        cells,
    })
}

/// The lines that show a value in some column.
fn shown_lines(
    alloc: Global,
    view: &ShownCase<'_>,
    marks: &ShownValues,
    lines: Vec<RowLabel>,
    columns: &[Folded],
) -> Result<Vec<RowLabel>, AllocError> {
    let mut shown = Vec::new(alloc);
    for line in lines {
        let place = line.place;
        if columns.iter().any(|folded| is_shown(&cell_of(view, marks, place, folded.first))) {
            shown.push(line)?;
        }
    }
    Ok(shown)
}

/// The rows of these lines.
fn rows(
    alloc: Global,
    view: &ShownCase<'_>,
    marks: &ShownValues,
    lines: &[RowLabel],
    heads: &[Head],
) -> Result<Vec<GridRow>, AllocError>
    ensures { IfOk result (λ rows.
        All (IsStatesRow view.now.case.now view.now.diagram.now heads.now) rows.items) }
{
    let mut rows = Vec::new(alloc);
    for line in lines {
        rows.push(row(alloc, view, marks, line, heads)?)?;
    }
    Ok(rows)
}

/// The number of columns on the way before the cycle.
fn bar_of(columns: &[Folded]) -> usize {
    columns
        .iter()
        .filter(|folded| is_before(folded.first))
        .count()
}

/// The states under their headings, and the inputs. A line that shows no value is left out.
pub fn states_grid(
    alloc: Global,
    view: &ShownCase<'_>,
    marks: &ShownValues,
    spots: &Spots,
) -> Result<Grid, AllocError>
    ensures { IfOk result (λ g.
        All (IsStatesRow view.now.case.now view.now.diagram.now g.heads.items) g.rows.items) }
{
    let mut lines = entry_lines(alloc, view, marks, spots)?;
    push_inputs(alloc, &mut lines, view.design)?;
    let columns = columns(alloc, view, marks, lines.as_slice())?;
    let lines = shown_lines(alloc, view, marks, lines, columns.as_slice())?;
    let heads = headings(alloc, columns.as_slice())?;
    let rows = rows(alloc, view, marks, lines.as_slice(), heads.as_slice())?;
    Ok(Grid {
        title: "states",
        bar: bar_of(columns.as_slice()),
        heads,
        rows,
    })
}
