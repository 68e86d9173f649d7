//! What nothing reads, as lines that a designer reads.
ghost use Rattle.std.specs.Prelude.{◌≡◌, ◌++◌, codes, map, OnOk};
ghost use Rattle.bd_model.specs.DesignView.{design_view, port_view};
ghost use Rattle.bd_about.specs.UnreadLines.{entry_kind, entry_line, input_line, let_line, lines_at, symbol_kind, symbol_line, unread_line, unread_lines};

use crate::unread::Unread;
use bd_model::{Design, Entry, Port, Sort, Symbol};
use std::alloc::AllocError;

/// The names of a design's lets, which the design doesn't keep.
#[derive(Clone, Copy)]
pub struct LetNames<'a> {
    pub lets: &'a [Vec<u8>],
    pub spec_lets: &'a [Vec<u8>],
    pub inv_lets: &'a [Vec<u8>],
}

/// What an entry of a sort is.
pub(crate) fn entry_kind(sort: Sort) -> &'static str
    ensures { result.now ≡ entry_kind sort }
{
    match sort {
        Sort::Memory => "memory ",
        Sort::Bool | Sort::Word => "latch ",
    }
}

/// What a symbol is, a predicate or not.
fn symbol_kind(predicate: bool) -> &'static str
    ensures { result.now ≡ symbol_kind predicate }
{
    if predicate { "predicate " } else { "function " }
}

/// Puts a line of three parts after a text.
pub(crate) fn push_parts(
    out: &mut Vec<u8>,
    head: &str,
    kind: &str,
    name: &[u8],
) -> Result<(), AllocError>
    ensures { OnOk result (out.new.items
        ≡ out.old.items ++ (head.now ++ kind.now ++ name.now ++ codes "\n")) }
{
    out.extend_from_slice(head.as_bytes())?;
    out.extend_from_slice(kind.as_bytes())?;
    out.extend_from_slice(name)?;
    out.extend_from_slice(b"\n")
}

/// Puts the line of a thing that nothing reads after a text.
fn push_line(out: &mut Vec<u8>, kind: &str, name: &[u8]) -> Result<(), AllocError>
    ensures { OnOk result (out.new.items ≡ out.old.items ++ unread_line kind.now name.now) }
{
    push_parts(out, "read by nothing  ", kind, name)
}

/// Puts a line for each latch or memory that nothing reads after a text.
fn push_entry_lines(out: &mut Vec<u8>, entries: &[Entry], places: &[u32]) -> Result<(), AllocError>
    ensures { OnOk result (out.new.items
        ≡ out.old.items ++ lines_at entry_line entries.now places.now) }
{
    for place in places {
        if let Some(entry) = entries.get(*place as usize) {
            push_line(out, entry_kind(entry.sort), entry.name.as_slice())?;
        }
    }
    Ok(())
}

/// Puts a line for each input that nothing reads after a text.
fn push_input_lines(out: &mut Vec<u8>, ports: &[Port], places: &[u32]) -> Result<(), AllocError>
    ensures { OnOk result (out.new.items
        ≡ out.old.items ++ lines_at input_line (map port_view ports.now) places.now) }
{
    for place in places {
        if let Some(port) = ports.get(*place as usize) {
            push_line(out, "input ", port.name.as_slice())?;
        }
    }
    Ok(())
}

/// Puts a line for each function or predicate that nothing applies after a text.
fn push_symbol_lines(
    out: &mut Vec<u8>,
    symbols: &[Symbol],
    places: &[u32],
) -> Result<(), AllocError>
    ensures { OnOk result (out.new.items
        ≡ out.old.items ++ lines_at symbol_line symbols.now places.now) }
{
    for place in places {
        if let Some(symbol) = symbols.get(*place as usize) {
            push_line(out, symbol_kind(symbol.predicate), symbol.name.as_slice())?;
        }
    }
    Ok(())
}

/// Puts a line for each let that nothing reads after a text.
fn push_let_lines(
    out: &mut Vec<u8>,
    kind: &str,
    names: &[Vec<u8>],
    places: &[u32],
) -> Result<(), AllocError>
    ensures { OnOk result (out.new.items
        ≡ out.old.items ++ lines_at (let_line kind.now) names.now places.now) }
{
    for place in places {
        if let Some(name) = names.get(*place as usize) {
            push_line(out, kind, name.as_slice())?;
        }
    }
    Ok(())
}

/// Puts the lines of what nothing reads after a text.
pub fn push_unread(
    out: &mut Vec<u8>,
    design: &Design,
    names: LetNames<'_>,
    unread: &Unread,
) -> Result<(), AllocError>
    ensures { OnOk result (out.new.items
        ≡ out.old.items ++ unread_lines (design_view design.now) names.entry unread.now) }
{
    push_entry_lines(
        out,
        design.pipe.entries.as_slice(),
        unread.entries.as_slice(),
    )?;
    push_input_lines(out, design.pipe.ports.as_slice(), unread.inputs.as_slice())?;
    push_symbol_lines(out, design.symbols.as_slice(), unread.symbols.as_slice())?;
    push_let_lines(out, "let ", names.lets, unread.lets.as_slice())?;
    let kind = "let of the specification ";
    push_let_lines(out, kind, names.spec_lets, unread.spec_lets.as_slice())?;
    let kind = "let of the invariant ";
    push_let_lines(out, kind, names.inv_lets, unread.inv_lets.as_slice())
}
