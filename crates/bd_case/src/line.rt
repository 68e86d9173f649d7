//! Writing entries.

ghost use Rattle.std.specs.Prelude.{◌≡◌, ◌++◌, ◌∷◌, [], false, map, slice_index_or, OnOk, decimal};
ghost use Rattle.bd_text.specs.View.{nodes_from};
ghost use Rattle.bd_text.specs.Written.{written, written_rest};
ghost use Rattle.bd_case.specs.Kinds.{entry_kind, head_text};
ghost use Rattle.std.specs.List.{AllByRecursion};
ghost use Rattle.bd_model.specs.declared.table.Scalar.TheVariants as TheScalar;
ghost use Rattle.bd_case.specs.Content.{IsShort, IsShortRow, IsShortScalar, IsShortTable, column, constant_table, row_of, table_of_value, values_table};
ghost use Rattle.bd_case.specs.Text.{entry_node, row_node, scalar_node, scalar_text, values_node};
ghost use Rattle.bd_case.specs.declared.kind.EntryHead.TheVariants.{Input};

use crate::kind::{EntryHead, EntryKind};
use bd_model::{Entry, Inputs, Port, Row, Scalar, Slot, Table, Value};
use std::alloc::AllocError;
use std::io::Write;

/// A word in decimal digits.
pub fn push_word(out: &mut Vec<u8>, word: u64) -> Result<(), AllocError>
    ensures text { OnOk result (out.new.items ≡ out.old.items ++ decimal word) }
    ensures short { IsShort word }
{
    write!(out, "{word}").map_err(|_| AllocError)
}

/// A truth value or a word.
fn push_scalar(out: &mut Vec<u8>, scalar: Scalar) -> Result<(), AllocError>
    ensures text { OnOk result (out.new.items ≡ out.old.items ++ scalar_text scalar) }
    ensures short { IsShortScalar scalar }
{
    match scalar {
        Scalar::Bool(true) => out.extend_from_slice(b"true"),
        Scalar::Bool(false) => out.extend_from_slice(b"false"),
        Scalar::Word(word) => push_word(out, word),
    }
}

/// A space, and the row of these arguments.
fn push_row(out: &mut Vec<u8>, args: &[u64], value: Scalar) -> Result<(), AllocError>
    ensures text { OnOk result (out.new.items
        ≡ out.old.items ++ 32 ∷ written (row_node (record { args = args.now; value = value }))) }
    ensures short { OnOk result (IsShortRow (record { args = args.now; value = value })) }
{
    out.extend_from_slice(b" (")?;
    for arg in args {
        push_word(out, *arg)?;
        out.push(b' ')?;
    }
    push_scalar(out, value)?;
    out.push(b')')?;
    Ok(())
}

/// A space and a row, for each row.
fn push_rows(out: &mut Vec<u8>, rows: &[Row]) -> Result<(), AllocError>
    ensures text { OnOk result (out.new.items
        ≡ out.old.items ++ written_rest (nodes_from (map row_node rows.now))) }
    ensures short { OnOk result (AllByRecursion IsShortRow rows.now) }
{
    for row in rows {
        push_row(out, row.args.as_slice(), row.value)?;
    }
    Ok(())
}

/// A space and a row, for each row of a memory.
fn push_slots(out: &mut Vec<u8>, slots: &[Slot]) -> Result<(), AllocError>
    ensures text { OnOk result (out.new.items
        ≡ out.old.items ++ written_rest (nodes_from (map row_node (map row_of slots.now)))) }
    ensures short { OnOk result (AllByRecursion IsShortRow (map row_of slots.now)) }
{
    for slot in slots {
        push_row(out, &[slot.address], Scalar::Word(slot.value))?;
    }
    Ok(())
}

/// An entry up to its rows.
fn begin_entry(
    out: &mut Vec<u8>,
    head: EntryHead,
    name: &[u8],
    default: Scalar,
) -> Result<(), AllocError>
    ensures text { OnOk result (out.new.items ≡ out.old.items
        ++ 40 ∷ head_text head ++ 32 ∷ name.now ++ 32 ∷ scalar_text default) }
    ensures short { OnOk result (IsShortScalar default) }
{
    out.push(b'(')?;
    out.extend_from_slice(head.text())?;
    out.push(b' ')?;
    out.extend_from_slice(name)?;
    out.push(b' ')?;
    push_scalar(out, default)
}

/// The entry of a function, a predicate or a constant.
pub fn push_table(
    out: &mut Vec<u8>,
    head: EntryHead,
    name: &[u8],
    table: &Table,
) -> Result<(), AllocError>
    ensures text { OnOk result (out.new.items
        ≡ out.old.items ++ written (entry_node head name.now table.now)) }
    ensures short { OnOk result (IsShortTable table.now) }
{
    begin_entry(out, head, name, table.default)?;
    push_rows(out, table.rows.as_slice())?;
    out.push(b')')?;
    Ok(())
}

/// The entry of a latch or a memory.
pub fn push_value(out: &mut Vec<u8>, entry: &Entry, value: &Value) -> Result<(), AllocError>
    ensures text { OnOk result (out.new.items ≡ out.old.items
        ++ written (entry_node (entry_kind entry.now).head entry.now.name
        (table_of_value value.now))) }
    ensures short { OnOk result (IsShortTable (table_of_value value.now)) }
{
    let head = EntryKind::of_entry(entry.sort).head;
    match value {
        Value::Scalar(scalar) => push_scalar_entry(out, head, entry.name.as_slice(), *scalar),
        Value::Memory(memory) => {
            begin_entry(
                out,
                head,
                entry.name.as_slice(),
                Scalar::Word(memory.default),
            )?;
            push_slots(out, memory.rows.as_slice())?;
            out.push(b')')?;
            Ok(())
        }
    }
}

/// An entry without rows.
fn push_scalar_entry(
    out: &mut Vec<u8>,
    head: EntryHead,
    name: &[u8],
    value: Scalar,
) -> Result<(), AllocError>
    ensures text { OnOk result (out.new.items
        ≡ out.old.items ++ written (entry_node head name.now (constant_table value))) }
    ensures short { OnOk result (IsShortTable (constant_table value)) }
{
    begin_entry(out, head, name, value)?;
    out.push(b')')?;
    Ok(())
}

/// The value of the input at a place; where there is none, it's false.
fn input_at(inputs: &[Scalar], i: usize) -> Scalar
    ensures { result ≡ slice_index_or inputs.now i (TheScalar.Bool false) }
{
    match inputs.get(i) {
        Some(scalar) => *scalar,
        None => Scalar::Bool(false),
    }
}

/// A space and the value of the input at a place, for each cycle.
fn push_column(out: &mut Vec<u8>, i: usize, inputs: &[Inputs]) -> Result<(), AllocError>
    ensures text { OnOk result (out.new.items
        ≡ out.old.items ++ written_rest (nodes_from (map scalar_node (column i inputs.now)))) }
    ensures short { OnOk result (AllByRecursion IsShortScalar (column i inputs.now)) }
{
    for list in inputs {
        out.push(b' ')?;
        push_scalar(out, input_at(list.as_slice(), i))?;
    }
    Ok(())
}

/// The entry of the input at a place, with its value in each cycle.
pub fn push_input(
    out: &mut Vec<u8>,
    port: &Port,
    i: usize,
    inputs: &[Inputs],
) -> Result<(), AllocError>
    ensures text { OnOk result (out.new.items
        ≡ out.old.items ++ written (values_node Input port.now.name (column i inputs.now))) }
    ensures short { OnOk result
        (IsShortTable (values_table port.now.sort (column i inputs.now))) }
{
    out.extend_from_slice(b"(input ")?;
    out.extend_from_slice(port.name.as_slice())?;
    push_column(out, i, inputs)?;
    out.push(b')')?;
    Ok(())
}
