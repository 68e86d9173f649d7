//! The fates by which all of a case stays.
ghost use Rattle.std.specs.Prelude.{◌≡◌, ◌++◌, replicate, IfOk, OnOk};
ghost use Rattle.std.specs.List.{flat_map};
ghost use Rattle.bd_shrink.specs.Remnant.{remnant};
ghost use Rattle.bd_shrink.specs.inner.Whole.{stay_table, stay_value};

use crate::fate::Fate;
use bd_model::{Case, Table, Value};
use std::alloc::{AllocError, Global};

/// The fates by which each row and each value of a case stays.
pub fn whole(alloc: Global, case: &Case) -> Result<Vec<Fate>, AllocError>
    ensures { IfOk result (λ fates. remnant fates.items case.now ≡ case.now) }
{
    let mut fates = Vec::new(alloc);
    push_tables(&mut fates, case.interp.as_slice())?;
    push_values(&mut fates, case.state.as_slice())?;
    push_stays(&mut fates, case.inputs.len())?;
    Ok(fates)
}

/// Puts a fate that stays for each table's default and each of its rows.
fn push_tables(fates: &mut Vec<Fate>, tables: &[Table]) -> Result<(), AllocError>
    ensures { OnOk result (fates.new.items ≡ fates.old.items ++ flat_map stay_table tables.now) }
{
    for table in tables {
        fates.push(Fate::Stays)?;
        push_stays(fates, table.rows.len())?;
    }
    Ok(())
}

/// Puts a fate that stays for each entry's value and each row of its memory.
fn push_values(fates: &mut Vec<Fate>, values: &[Value]) -> Result<(), AllocError>
    ensures { OnOk result (fates.new.items ≡ fates.old.items ++ flat_map stay_value values.now) }
{
    for value in values {
        push_value(fates, value)?;
    }
    Ok(())
}

/// Puts a fate that stays for a value, and one for each of its rows if it is a memory.
fn push_value(fates: &mut Vec<Fate>, value: &Value) -> Result<(), AllocError>
    ensures { OnOk result (fates.new.items ≡ fates.old.items ++ stay_value value.now) }
{
    fates.push(Fate::Stays)?;
    match value {
        Value::Scalar(_) => Ok(()),
        Value::Memory(memory) => push_stays(fates, memory.rows.len()),
    }
}

/// Puts so many fates that stay.
fn push_stays(fates: &mut Vec<Fate>, count: usize) -> Result<(), AllocError>
    ensures { OnOk result (fates.new.items ≡ fates.old.items ++ replicate count Fate.Stays) }
{
    for _place in 0..count {
        fates.push(Fate::Stays)?;
    }
    Ok(())
}
