//! What is left of a case, by the fates of its rows and values.
//!
//! The fates are taken in order, while the parts of the case that they speak of are copied.
ghost use Rattle.std.specs.Prelude.{◌≡◌, ◌++◌, drop, IfOk, OnOk};
ghost use Rattle.bd_shrink.specs.Remnant.{after_each, after_one, after_table, after_value, row_left, slot_left, rows_left, slots_left, table_left, tables_left, memory_left, value_left, values_left, scalars_left, remnant};

use crate::fate::{Fate, next_fate, zero};
use bd_model::{
    Case, Inputs, Interp, Memory, Row, Rows, Scalar, Sequence, Slot, Slots, State, Table, Value,
};
use std::alloc::{AllocError, Global};

/// What the fates leave of the case.
pub fn remnant_of(alloc: Global, case: &Case, fates: &[Fate]) -> Result<Case, AllocError>
    ensures { IfOk result (λ s. s ≡ remnant fates.now case.now) }
{
    let mut at = 0;
    let interp = left_of_tables(alloc, case.interp.as_slice(), fates, &mut at)?;
    let state = left_of_values(alloc, case.state.as_slice(), fates, &mut at)?;
    let inputs = left_of_scalars(alloc, case.inputs.as_slice(), fates, &mut at)?;
    Ok(Case {
        interp,
        state,
        inputs,
    })
}

/// What is left of an interpretation, by the fates from a place on; the place moves past those that are used.
fn left_of_tables(
    alloc: Global,
    tables: &[Table],
    fates: &[Fate],
    at: &mut usize,
) -> Result<Interp, AllocError>
    ensures left { IfOk result (λ ts. ts ≡ tables_left (drop at.old fates.now) tables.now) }
    ensures rest { OnOk result (drop at.new fates.now
        ≡ after_each after_table (drop at.old fates.now) tables.now) }
{
    let mut left = Vec::new(alloc);
    for table in tables {
        left.push(left_of_table(alloc, table, fates, at)?)?;
    }
    Ok(Sequence::from_vec(left))
}

/// What is left of a table: its default, which can't go, and each row that stays or has its value made 0.
fn left_of_table(
    alloc: Global,
    table: &Table,
    fates: &[Fate],
    at: &mut usize,
) -> Result<Table, AllocError>
    ensures left { IfOk result (λ t. t ≡ table_left (drop at.old fates.now) table.now) }
    ensures rest { OnOk result (drop at.new fates.now
        ≡ after_table (drop at.old fates.now) table.now) }
{
    let default = next_fate(fates, at).scalar(table.default);
    let rows = left_of_rows(alloc, table.rows.as_slice(), fates, at)?;
    Ok(Table { default, rows })
}

/// What is left of a table's rows, a fate for each.
fn left_of_rows(
    alloc: Global,
    rows: &[Row],
    fates: &[Fate],
    at: &mut usize,
) -> Result<Rows, AllocError>
    ensures left { IfOk result (λ rs. rs ≡ rows_left (drop at.old fates.now) rows.now) }
    ensures rest { OnOk result (drop at.new fates.now
        ≡ after_each after_one (drop at.old fates.now) rows.now) }
{
    let mut left = Vec::new(alloc);
    for row in rows {
        push_row(&mut left, row, next_fate(fates, at))?;
    }
    Ok(Sequence::from_vec(left))
}

/// Puts a row as its fate leaves it: whole, with the value 0 or false, or not at all.
fn push_row(left: &mut Vec<Row>, row: &Row, fate: Fate) -> Result<(), AllocError>
    ensures { OnOk result (left.new.items ≡ left.old.items ++ row_left fate row.now) }
{
    match fate {
        Fate::Stays => left.push(row.clone()?)?,
        Fate::Zero => left.push(Row {
            args: row.args.clone()?,
            value: zero(row.value),
        })?,
        Fate::Gone => {}
    }
    Ok(())
}

/// What is left of a state, by the fates from a place on; the place moves past those that are used.
fn left_of_values(
    alloc: Global,
    values: &[Value],
    fates: &[Fate],
    at: &mut usize,
) -> Result<State, AllocError>
    ensures left { IfOk result (λ vs. vs ≡ values_left (drop at.old fates.now) values.now) }
    ensures rest { OnOk result (drop at.new fates.now
        ≡ after_each after_value (drop at.old fates.now) values.now) }
{
    let mut left = Vec::new(alloc);
    for value in values {
        left.push(left_of_value(alloc, value, fates, at)?)?;
    }
    Ok(Sequence::from_vec(left))
}

/// What is left of an entry's value: a scalar by one fate, a memory by one for its default and one for each row.
fn left_of_value(
    alloc: Global,
    value: &Value,
    fates: &[Fate],
    at: &mut usize,
) -> Result<Value, AllocError>
    ensures left { IfOk result (λ v. v ≡ value_left (drop at.old fates.now) value.now) }
    ensures rest { OnOk result (drop at.new fates.now
        ≡ after_value (drop at.old fates.now) value.now) }
{
    let fate = next_fate(fates, at);
    match value {
        Value::Scalar(scalar) => Ok(Value::Scalar(fate.scalar(*scalar))),
        Value::Memory(memory) => {
            let default = fate.word(memory.default);
            let rows = left_of_slots(alloc, memory.rows.as_slice(), fates, at)?;
            Ok(Value::Memory(Memory { default, rows }))
        }
    }
}

/// What is left of a memory's rows, a fate for each.
fn left_of_slots(
    alloc: Global,
    slots: &[Slot],
    fates: &[Fate],
    at: &mut usize,
) -> Result<Slots, AllocError>
    ensures left { IfOk result (λ ss. ss ≡ slots_left (drop at.old fates.now) slots.now) }
    ensures rest { OnOk result (drop at.new fates.now
        ≡ after_each after_one (drop at.old fates.now) slots.now) }
{
    let mut left = Vec::new(alloc);
    for slot in slots {
        push_slot(&mut left, *slot, next_fate(fates, at))?;
    }
    Ok(Sequence::from_vec(left))
}

/// Puts a memory's row as its fate leaves it: whole, with the word 0, or not at all.
fn push_slot(left: &mut Vec<Slot>, slot: Slot, fate: Fate) -> Result<(), AllocError>
    ensures { OnOk result (left.new.items ≡ left.old.items ++ slot_left fate slot) }
{
    match fate {
        Fate::Stays => left.push(slot)?,
        Fate::Zero => left.push(Slot {
            address: slot.address,
            value: 0,
        })?,
        Fate::Gone => {}
    }
    Ok(())
}

/// What is left of the inputs: each as it is, or 0 or false.
fn left_of_scalars(
    alloc: Global,
    scalars: &[Scalar],
    fates: &[Fate],
    at: &mut usize,
) -> Result<Inputs, AllocError>
    ensures { IfOk result (λ xs. xs ≡ scalars_left (drop at.old fates.now) scalars.now) }
{
    let mut left = Vec::new(alloc);
    for scalar in scalars {
        left.push(next_fate(fates, at).scalar(*scalar))?;
    }
    Ok(Sequence::from_vec(left))
}
