//! The case, or the trail, that values of atoms stand for.
ghost use Rattle.std.specs.Prelude.{◌≡◌, ◌*◌, IfOk, length};
ghost use Rattle.bd_model.specs.DesignView.{design_view};
ghost use Rattle.bd_model.specs.Fits.{Fits, TrailFits};
ghost use Rattle.bd_model.specs.Lawful.{IsLawful};
ghost use Rattle.bd_symbolic.specs.Widened.{HasLawfulSymbols, case_of_trail, cut, trail_of, widened};
ghost use Rattle.bd_transitive.specs.Orders.{IsOrder};
ghost use Rattle.bd_transitive.specs.Triangle.{MeetsTriangles, value_at};
ghost use Rattle.bd_lift.specs.Counting.{EachRowCounts};
ghost use Rattle.bd_lift.specs.Decoded.{edge_truths};
ghost use Rattle.bd_lift.specs.Lifted.{AreKnown, IsLifted, TellsApart};

use crate::build::case_of;
use crate::decode::{decode, edge_values};
use crate::first::first_tables;
use bd_function::{Flat, tables};
use bd_model::{Case, Design, InputLists, Inputs, Scalar, Trail};
use bd_prop::AtomValues;
use bd_transitive::{Order, classes};
use std::alloc::{AllocError, Global};

/// A case in whose world each symbol has the table of the values that the atoms stand for: a word variable has the
/// class of its vertex, one in no edge a number of its own, and a truth variable its atom's value. Of rows with the
/// same arguments the first one stays.
pub fn lift(
    alloc: Global,
    design: &Design,
    flat: &Flat,
    order: &Order,
    values: &AtomValues,
) -> Result<Case, AllocError>
    requires lawful { IsLawful (design_view design.now) }
    requires known { AreKnown (design_view design.now) flat.now.graph flat.now.syms }
    requires order { IsOrder order.now }
    requires triangles { MeetsTriangles order.now
        (value_at (edge_truths values.now order.now.edges)) }
    requires constants { TellsApart (design_view design.now) flat.now.syms order.now
        (value_at (edge_truths values.now order.now.edges)) }
    ensures fits { IfOk result (λ c. Fits (design_view design.now) c) }
    ensures lifted { IfOk result (λ c.
        IsLifted flat.now.graph flat.now.syms order.now values.now c) }
    ensures counts { IfOk result EachRowCounts }
{
    lifted(alloc, design, flat, order, values, 1)
}

/// A trail with inputs for so many cycles, in whose world each symbol has the table of the values that the atoms stand
/// for: a word variable has the class of its vertex, one in no edge a number of its own, and a truth variable its
/// atom's value. Of rows with the same arguments the first one stays. Input i of q inputs in cycle t, from 0, is the
/// input of number t * q + i.
pub fn lift_trail(
    alloc: Global,
    design: &Design,
    flat: &Flat,
    order: &Order,
    values: &AtomValues,
    cycles: u32,
) -> Result<Trail, AllocError>
    requires lawful { HasLawfulSymbols (design_view design.now) }
    requires known { AreKnown (widened (design_view design.now) cycles)
        flat.now.graph flat.now.syms }
    requires order { IsOrder order.now }
    requires triangles { MeetsTriangles order.now
        (value_at (edge_truths values.now order.now.edges)) }
    requires constants { TellsApart (widened (design_view design.now) cycles) flat.now.syms
        order.now (value_at (edge_truths values.now order.now.edges)) }
    ensures fits { IfOk result (λ t. TrailFits (design_view design.now) t) }
    ensures cycles { IfOk result (λ t. length t.inputs ≡ cycles) }
    ensures lifted { IfOk result (λ t.
        IsLifted flat.now.graph flat.now.syms order.now values.now (case_of_trail t)) }
    ensures counts { IfOk result (λ t. EachRowCounts (case_of_trail t)) }
{
    let case = lifted(alloc, design, flat, order, values, cycles)?;
    trail_of(alloc, case, cycles, design.pipe.ports.len())
}

/// The case that an order and the atoms' values stand for, with the inputs of all cycles one after another.
fn lifted(
    alloc: Global,
    design: &Design,
    flat: &Flat,
    order: &Order,
    values: &AtomValues,
    cycles: u32,
) -> Result<Case, AllocError>
    requires lawful { HasLawfulSymbols (design_view design.now) }
    requires known { AreKnown (widened (design_view design.now) cycles)
        flat.now.graph flat.now.syms }
    requires order { IsOrder order.now }
    requires triangles { MeetsTriangles order.now
        (value_at (edge_truths values.now order.now.edges)) }
    requires constants { TellsApart (widened (design_view design.now) cycles) flat.now.syms
        order.now (value_at (edge_truths values.now order.now.edges)) }
    ensures fits { IfOk result (λ c. Fits (widened (design_view design.now) cycles) c) }
    ensures lifted { IfOk result (λ c.
        IsLifted flat.now.graph flat.now.syms order.now values.now c) }
    ensures counts { IfOk result EachRowCounts }
{
    let edges = edge_values(alloc, order, values)?;
    let classes = classes(alloc, order, &edges)?;
    let decoded = decode(alloc, flat, order, &classes, values)?;
    let tables = tables(alloc, flat, &decoded)?;
    let first = first_tables(alloc, tables)?;
    case_of(alloc, design, cycles, order.vertices.as_slice(), first)
}

/// The trail of a case that has the inputs of all cycles one after another, so many each.
fn trail_of(alloc: Global, case: Case, cycles: u32, width: usize) -> Result<Trail, AllocError>
    requires { length case.inputs ≡ cycles * width }
    ensures { IfOk result (λ t. t ≡ trail_of cycles width case) }
{
    let Case {
        interp,
        state,
        inputs,
    } = case;
    let inputs = cut(alloc, inputs.as_slice(), cycles, width)?;
    Ok(Trail {
        interp,
        state,
        inputs,
    })
}

/// The inputs of each cycle, from those of all cycles one after another.
fn cut(
    alloc: Global,
    inputs: &[Scalar],
    cycles: u32,
    width: usize,
) -> Result<InputLists, AllocError>
    requires { length inputs.now ≡ cycles * width }
    ensures { IfOk result (λ lists. lists ≡ cut cycles width inputs.now) }
{
    let mut lists = Vec::new(alloc);
    let mut rest = inputs;
    for _ in 0..cycles {
        let (first, later) = rest.split_at(width);
        lists.push(Inputs::from_vec(first.to_vec(alloc)?))?;
        rest = later;
    }
    Ok(InputLists::from_vec(lists))
}
