//! What differs in a case, after each number of steps: where the two sides of its diagram part, and with which values.
ghost use Rattle.std.specs.Prelude.{◌≡◌, ◌++◌, ◌↔◌, IfOk, OnOk, IsTrue};
ghost use Rattle.std.specs.List.{AllZip};
ghost use Rattle.bd_model.specs.DesignView.{design_view};
ghost use Rattle.bd_diagram.specs.Alike.{IsAlike};
ghost use Rattle.bd_model.specs.Lawful.{IsLawful};
ghost use Rattle.bd_shrink.specs.Apart.{values_at, values_where, words_at, word_elsewhere};
ghost use Rattle.bd_shrink.specs.inner.Found.{IsApart, IsSameScalar};

use bd_diagram::{Comparison, Diagram, Difference, MemoryDifference, are_alike, diagram_of};
use bd_model::{Case, Design, Inputs, Memory, Scalar, Sequence, Value};
use std::alloc::{AllocError, Global};

/// The diagram of a case, and the values that its two sides have where they part.
#[derive(Drop)]
pub struct Apart {
    pub diagram: Diagram,
    pub values: Inputs,
}

/// The diagram of a case, and the values that its two sides have where they part.
pub fn apart_of(alloc: Global, design: &Design, case: &Case) -> Result<Apart, AllocError>
    requires lawful { IsLawful (design_view design.now) }
    ensures { IfOk result (λ x. IsApart (design_view design.now) case.now x) }
{
    let diagram = diagram_of(alloc, design, case)?;
    let mut values = Vec::new(alloc);
    for comparison in diagram.comparisons.as_slice() {
        push_compared(&mut values, diagram.visible.as_slice(), comparison)?;
    }
    Ok(Apart {
        diagram,
        values: Sequence::from_vec(values),
    })
}

/// Whether two cases differ at the same entries and addresses, with the same values.
pub fn is_same(first: &Apart, second: &Apart) -> bool
    ensures { IsTrue result
        ↔ (AllZip IsAlike first.now.diagram.comparisons second.now.diagram.comparisons
        × AllZip IsSameScalar first.now.values second.now.values) }
{
    are_alike(
        first.diagram.comparisons.as_slice(),
        second.diagram.comparisons.as_slice(),
    ) && are_same(first.values.as_slice(), second.values.as_slice())
}

/// Whether two lists have the same values in order.
fn are_same(first: &[Scalar], second: &[Scalar]) -> bool
    ensures { IsTrue result ↔ AllZip IsSameScalar first.now second.now }
{
    if first.len() != second.len() {
        return false;
    }
    for (scalar, other) in first.iter().zip(second) {
        if scalar != other {
            return false;
        }
    }
    true
}

/// Puts what differs after a number of steps: the values of the pipeline, then those of the specification.
fn push_compared(
    values: &mut Vec<Scalar>,
    visible: &[Value],
    comparison: &Comparison,
) -> Result<(), AllocError>
    ensures { OnOk result (values.new.items ≡ values.old.items
        ++ (values_where comparison.now.differences visible.now
        ++ values_where comparison.now.differences comparison.now.visible)) }
{
    let differences = comparison.differences.as_slice();
    push_where(values, differences, visible)?;
    push_where(values, differences, comparison.visible.as_slice())
}

/// Puts what a state has wherever its entries differ, in the order of the entries.
fn push_where(
    values: &mut Vec<Scalar>,
    differences: &[Difference],
    state: &[Value],
) -> Result<(), AllocError>
    ensures { OnOk result (values.new.items ≡ values.old.items
        ++ values_where differences.now state.now) }
{
    for (difference, value) in differences.iter().zip(state) {
        push_at(values, difference, value)?;
    }
    Ok(())
}

/// Puts what an entry has where it differs: a latch's value, or a memory's words.
fn push_at(
    values: &mut Vec<Scalar>,
    difference: &Difference,
    value: &Value,
) -> Result<(), AllocError>
    ensures { OnOk result (values.new.items ≡ values.old.items
        ++ values_at difference.now value.now) }
{
    match (difference, value) {
        (Difference::Latch, Value::Scalar(scalar)) => values.push(*scalar)?,
        (Difference::Memory(difference), Value::Memory(memory)) => {
            push_words(values, difference, memory)?
        }
        _ => {}
    }
    Ok(())
}

/// Puts the words that a memory has at the addresses that differ, and its default if that differs too.
fn push_words(
    values: &mut Vec<Scalar>,
    difference: &MemoryDifference,
    memory: &Memory,
) -> Result<(), AllocError>
    ensures { OnOk result (values.new.items ≡ values.old.items
        ++ (words_at memory.now difference.now.addresses
        ++ word_elsewhere memory.now difference.now.elsewhere)) }
{
    for address in difference.addresses.as_slice() {
        values.push(Scalar::Word(memory.at(*address)))?;
    }
    if difference.elsewhere {
        values.push(Scalar::Word(memory.default))?;
    }
    Ok(())
}
