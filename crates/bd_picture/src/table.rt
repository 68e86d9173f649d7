//! A picture as a text.
ghost use Rattle.std.specs.Prelude.{◌≡◌, ◌++◌, ℕ, List, IfOk};

use crate::grid::{Cell, Grid, GridRow, content_text, is_shown, sign_of};
use crate::list::{ListItem, TitledList};
use crate::picture::Picture;
use std::alloc::{AllocError, Global};

/// The most bytes that a line has, unless a single cell is longer.
const WIDTH: usize = 100;

/// A text to which spaces are put only before something else, so that no line ends in one.
#[derive(Drop)]
struct Pen {
    out: Vec<u8>,
    column: usize,
    spaces: usize,
}

impl Pen {
    /// Puts a text.
    fn put(&mut self, text: &[u8]) -> Result<(), AllocError> {
        if text.is_empty() {
            return Ok(());
        }
        for _space in 0..self.spaces {
            self.out.push(b' ')?;
        }
        self.column = self.column.saturating_add(self.spaces);
        self.spaces = 0;
        self.out.extend_from_slice(text)?;
        self.column = self.column.saturating_add(text.len());
        Ok(())
    }

    /// Goes to a column. Where the text is past it, it stays.
    fn go_to(&mut self, column: usize) {
        self.spaces = column.saturating_sub(self.column);
    }

    /// Ends the line.
    fn end(&mut self) -> Result<(), AllocError> {
        self.out.push(b'\n')?;
        self.column = 0;
        self.spaces = 0;
        Ok(())
    }
}

/// How many bytes a cell takes.
fn width_of(alloc: Global, cell: &Cell) -> Result<usize, AllocError> {
    let width = content_text(alloc, cell.content)?.len();
    match sign_of(cell.look) {
        Some(_) => Ok(width.saturating_add(2)),
        None => Ok(width),
    }
}

/// How many bytes a column takes.
fn column_width(alloc: Global, grid: &Grid, column: usize) -> Result<usize, AllocError> {
    let mut most = match grid.heads.get(column) {
        Some(head) => head.text.len(),
        None => 0,
    };
    for row in grid.rows.as_slice() {
        if let Some(cell) = row.cells.get(column) {
            most = most.max(width_of(alloc, cell)?);
        }
    }
    Ok(most)
}

/// How many bytes the names of rows take, with the mark.
fn names_width(grid: &Grid) -> usize {
    let mut most = grid.title.len();
    for row in grid.rows.as_slice() {
        most = most.max(row.name.len().saturating_add(1));
    }
    most
}

/// A column of a block: its number and where it begins.
#[derive(Clone, Copy)]
struct ColumnStart {
    column: usize,
    start: usize,
}

/// The columns from this one on that one line has room for, at least one.
fn block_from(alloc: Global, grid: &Grid, from: usize) -> Result<Vec<ColumnStart>, AllocError> {
    let mut places = Vec::new(alloc);
    let mut at = names_width(grid).saturating_add(2);
    for column in from..grid.heads.len() {
        let bar = if column != 0 && column == grid.bar {
            2
        } else {
            0
        };
        let start = at.saturating_add(bar);
        let end = start.saturating_add(column_width(alloc, grid, column)?);
        if column != from && end > WIDTH {
            break;
        }
        places.push(ColumnStart { column, start })?;
        at = end.saturating_add(2);
    }
    Ok(places)
}

/// Goes to a column, with the bar before it if it has one.
fn go_to(pen: &mut Pen, grid: &Grid, place: ColumnStart) -> Result<(), AllocError> {
    if place.column != 0 && place.column == grid.bar {
        pen.go_to(place.start.saturating_sub(2));
        pen.put(b"|")?;
    }
    pen.go_to(place.start);
    Ok(())
}

/// Puts the headings of a block.
fn put_heads(pen: &mut Pen, grid: &Grid, block: &[ColumnStart]) -> Result<(), AllocError> {
    pen.put(grid.title.as_bytes())?;
    for place in block {
        go_to(pen, grid, *place)?;
        if let Some(head) = grid.heads.get(place.column) {
            pen.put(head.text.as_slice())?;
        }
    }
    pen.end()
}

/// Puts a row of a block.
fn put_row(
    alloc: Global,
    pen: &mut Pen,
    grid: &Grid,
    row: &GridRow,
    block: &[ColumnStart],
) -> Result<(), AllocError> {
    pen.put(row.name.as_slice())?;
    if row.visible {
        pen.put(b"*")?;
    }
    for place in block {
        go_to(pen, grid, *place)?;
        if let Some(cell) = row.cells.get(place.column) {
            if let Some(sign) = sign_of(cell.look) {
                pen.put(&[sign, b' '])?;
            }
            pen.put(content_text(alloc, cell.content)?.as_slice())?;
        }
    }
    pen.end()
}

/// Whether a row shows no value in a block.
fn is_blank(row: &GridRow, block: &[ColumnStart]) -> bool {
    block.iter().all(|place| match row.cells.get(place.column) {
        Some(cell) => !is_shown(cell),
        None => true,
    })
}

/// Puts a grid, in as many blocks as it has columns for, and an empty line before each. A block has only the rows that
/// show a value there.
fn put_grid(alloc: Global, pen: &mut Pen, grid: &Grid) -> Result<(), AllocError> {
    let mut next = 0;
    for column in 0..grid.heads.len() {
        if column < next {
            continue;
        }
        let block = block_from(alloc, grid, column)?;
        next = column.saturating_add(block.len());
        pen.end()?;
        put_heads(pen, grid, block.as_slice())?;
        for row in grid.rows.as_slice() {
            if !is_blank(row, block.as_slice()) {
                put_row(alloc, pen, grid, row, block.as_slice())?;
            }
        }
    }
    Ok(())
}

/// Where lists begin.
const INDENT: usize = 11;

/// Where the items of lists begin: after the longest heading.
fn items_indent(lets: &TitledList, rows: &TitledList) -> usize {
    let mut most = 0;
    for part in lets.parts.iter().chain(&rows.parts) {
        if !part.heading.is_empty() {
            most = most.max(part.heading.len().saturating_add(2));
        }
    }
    most.saturating_add(INDENT)
}

/// Puts lists, and an empty line before them unless both are empty.
fn put_lists(pen: &mut Pen, lets: &TitledList, rows: &TitledList) -> Result<(), AllocError> {
    if !lets.parts.is_empty() || !rows.parts.is_empty() {
        pen.end()?;
    }
    let indent = items_indent(lets, rows);
    put_list(pen, lets, indent)?;
    put_list(pen, rows, indent)
}

/// Puts a list, each part on a line of its own.
fn put_list(pen: &mut Pen, list: &TitledList, indent: usize) -> Result<(), AllocError> {
    for (number, part) in list.parts.iter().enumerate() {
        if number == 0 {
            pen.put(list.title.as_bytes())?;
        }
        pen.go_to(INDENT);
        pen.put(part.heading.as_slice())?;
        put_items(pen, part.items.as_slice(), indent)?;
    }
    Ok(())
}

/// Puts items, as many a line as it has room for.
fn put_items(pen: &mut Pen, items: &[ListItem], indent: usize) -> Result<(), AllocError> {
    for (number, item) in items.iter().enumerate() {
        let next = pen.column.saturating_add(2);
        if number != 0 && next.saturating_add(item.text.len()) > WIDTH {
            pen.end()?;
            pen.go_to(indent);
        } else {
            pen.go_to(next.max(indent));
        }
        pen.put(item.text.as_slice())?;
    }
    pen.end()
}

/// What is printed under a picture's sentence, an empty line before each table and before the lists.
fn tables(alloc: Global, picture: &Picture) -> Result<Vec<u8>, AllocError> {
    let mut pen = Pen {
        out: Vec::new(alloc),
        column: 0,
        spaces: 0,
    };
    let tables = &picture.tables;
    pen.end()?;
    if let Some(claims) = &tables.claims {
        put_grid(alloc, &mut pen, claims)?;
    }
    put_grid(alloc, &mut pen, &tables.states)?;
    if let Some(steps) = &tables.steps {
        put_grid(alloc, &mut pen, steps)?;
    }
    put_lists(&mut pen, &tables.lets, &tables.rows)?;
    let Pen { out, .. } = pen;
    Ok(out)
}

/// The text of a picture, which begins with its sentence.
pub fn text_of(alloc: Global, picture: &Picture) -> Result<Vec<u8>, AllocError>
    ensures { IfOk result (λ text. (rest : List ℕ)
        × (text.items ≡ picture.now.sentence.items ++ rest)) }
{
    let mut text = Vec::from_slice(alloc, picture.sentence.as_slice())?;
    let tables = tables(alloc, picture)?;
    text.extend_from_slice(tables.as_slice())?;
    Ok(text)
}
