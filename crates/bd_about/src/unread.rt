//! What nothing in a design reads.
ghost use Rattle.std.specs.Prelude.{◌≤◌, ◌||◌, ◌&&◌, ◌≡◌, [], ◌∷◌, ◌++◌, false, length, map, slice_index_or, IfOk, OnOk};
ghost use Rattle.bd_model.specs.DesignView.{DesignView, ExactView, PortView, design_view, exact_view, local_view, port_view};
ghost use Rattle.bd_model.specs.ExprView.{Entry, expr_view, expr_views, list_of_views};
ghost use Rattle.bd_model.specs.Lawful.{IsLawful};
ghost use Rattle.bd_about.specs.Named.{any_of, names};
ghost use Rattle.bd_about.specs.Marked.{Adds, is_marked};
ghost use Rattle.bd_about.specs.Reached.{pipe_roots};
ghost use Rattle.bd_about.specs.Unread.{IsUnread};
ghost use Rattle.bd_about.specs.inner.Marking.{AreMarked, AreReached, LeadsOn, UseEarlier, unset_below};
ghost use Rattle.bd_model.specs.Limits.{most_items};

use crate::marks::{NameMarks, add_expr, add_exprs, is_set};
use crate::named::Named;
use bd_model::{Design, Exact, Local, Places, Port, Sequence};
use std::alloc::{AllocError, Global};

/// What nothing reads: lets of the pipeline, the specification and the invariant, entries and inputs of the pipeline,
/// and symbols, each by its number. Every entry of the specification is visible, so it is read.
#[derive(Drop)]
pub struct Unread {
    pub lets: Places,
    pub spec_lets: Places,
    pub inv_lets: Places,
    pub entries: Places,
    pub inputs: Places,
    pub symbols: Places,
}

/// Marks what the flush values of inputs name.
fn add_ports(marks: &mut NameMarks, ports: &[Port]) -> Result<(), AllocError>
    ensures { OnOk result (Adds marks.old marks.new (λ x.
        any_of x (map (λ (p : PortView). p.idle) (map port_view ports.now)))) }
{
    for port in ports {
        add_expr(marks, &port.idle)?;
    }
    Ok(())
}

/// Marks what the conditions of exact items name.
fn add_exacts(marks: &mut NameMarks, items: &[Exact]) -> Result<(), AllocError>
    ensures { OnOk result (Adds marks.old marks.new (λ x.
        any_of x (map (λ (e : ExactView). e.when) (map exact_view items.now)))) }
{
    for item in items {
        add_expr(marks, &item.when)?;
    }
    Ok(())
}

/// Marks entries.
fn add_entries(marks: &mut NameMarks, places: &[u32]) -> Result<(), AllocError>
    ensures { OnOk result (Adds marks.old marks.new (λ x. any_of x (map Entry places.now))) }
{
    for place in places {
        marks.add(Named::Entry(*place))?;
    }
    Ok(())
}

/// Marks what a let names, where it is marked.
fn add_let(marks: &mut NameMarks, i: usize, local: &Local) -> Result<(), AllocError>
    ensures { OnOk result (Adds marks.old marks.new (λ x.
        is_marked marks.old (Named.Local i) && names x (local_view local.now).value)) }
{
    if marks.has_local(i) {
        add_expr(marks, &local.value)
    } else {
        Ok(())
    }
}

/// Marks what the values of marked lets name, the last let first, since a let names earlier ones alone.
fn add_lets(marks: &mut NameMarks, lets: &[Local]) -> Result<(), AllocError>
    requires { UseEarlier (map local_view lets.now) }
    ensures { OnOk result (LeadsOn (map local_view lets.now) marks.old marks.new) }
{
    let mut i = lets.len();
    while i > 0 {
        i -= 1;
        add_let(marks, i, &lets[i])?;
    }
    Ok(())
}

/// Marks what the pipeline works with.
fn pipe_roots(alloc: Global, design: &Design) -> Result<NameMarks, AllocError>
    ensures { IfOk result (AreMarked (pipe_roots (design_view design.now))) }
{
    let mut marks = NameMarks::new(alloc);
    add_exprs(&mut marks, &design.pipe.nexts)?;
    add_ports(&mut marks, design.pipe.ports.as_slice())?;
    add_exacts(&mut marks, design.exact.as_slice())?;
    add_entries(&mut marks, design.visible.as_slice())?;
    Ok(marks)
}

/// What the pipeline reaches.
fn in_pipe(alloc: Global, design: &Design) -> Result<NameMarks, AllocError>
    requires { IsLawful (design_view design.now) }
    ensures { IfOk result (AreReached (pipe_roots (design_view design.now))
        (design_view design.now).pipe.locals) }
{
    let mut marks = pipe_roots(alloc, design)?;
    add_lets(&mut marks, design.pipe.locals.as_slice())?;
    Ok(marks)
}

/// What the specification reaches.
fn in_spec(alloc: Global, design: &Design) -> Result<NameMarks, AllocError>
    requires { IsLawful (design_view design.now) }
    ensures { IfOk result (AreReached (design_view design.now).spec.nexts
        (design_view design.now).spec.locals) }
{
    let mut marks = NameMarks::new(alloc);
    add_exprs(&mut marks, &design.spec.nexts)?;
    add_lets(&mut marks, design.spec.locals.as_slice())?;
    Ok(marks)
}

/// What the invariant reaches.
fn in_invariant(alloc: Global, design: &Design) -> Result<NameMarks, AllocError>
    requires { IsLawful (design_view design.now) }
    ensures { IfOk result (AreReached ((design_view design.now).inv ∷ [])
        (design_view design.now).inv_locals) }
{
    let mut marks = NameMarks::new(alloc);
    add_expr(&mut marks, &design.inv)?;
    add_lets(&mut marks, design.inv_locals.as_slice())?;
    Ok(marks)
}

/// The places below a count that no list of flags has.
fn unset(
    alloc: Global,
    count: usize,
    first: &[bool],
    second: &[bool],
    third: &[bool],
) -> Result<Places, AllocError>
    requires { count ≤ most_items }
    ensures { IfOk result (λ places. places ≡ unset_below
        (λ i. (slice_index_or first.now i false || slice_index_or second.now i false)
        || slice_index_or third.now i false) count) }
{
    let mut places = Sequence::new(alloc);
    for i in 0..count as u32 {
        if !(is_set(first, i) || is_set(second, i) || is_set(third, i)) {
            places.push(i)?;
        }
    }
    Ok(places)
}

/// What nothing reads.
pub fn unread_of(alloc: Global, design: &Design) -> Result<Unread, AllocError>
    requires { IsLawful (design_view design.now) }
    ensures { IfOk result (IsUnread (design_view design.now)) }
{
    let pipe = in_pipe(alloc, design)?;
    let spec = in_spec(alloc, design)?;
    let inv = in_invariant(alloc, design)?;
    listed(alloc, design, &pipe, &spec, &inv)
}

/// What is marked by none.
fn listed(
    alloc: Global,
    design: &Design,
    pipe: &NameMarks,
    spec: &NameMarks,
    inv: &NameMarks,
) -> Result<Unread, AllocError>
    requires lawful { IsLawful (design_view design.now) }
    requires pipe { AreReached (pipe_roots (design_view design.now))
        (design_view design.now).pipe.locals pipe.now }
    requires spec { AreReached (design_view design.now).spec.nexts
        (design_view design.now).spec.locals spec.now }
    requires inv { AreReached ((design_view design.now).inv ∷ [])
        (design_view design.now).inv_locals inv.now }
    ensures { IfOk result (IsUnread (design_view design.now)) }
{
    let lets = design.pipe.locals.len();
    let spec_lets = design.spec.locals.len();
    let inv_lets = design.inv_locals.len();
    let entries = design.pipe.entries.len();
    let inputs = design.pipe.ports.len();
    let symbols = design.symbols.len();
    Ok(Unread {
        lets: unset(alloc, lets, &pipe.locals, &[], &[])?,
        spec_lets: unset(alloc, spec_lets, &spec.locals, &[], &[])?,
        inv_lets: unset(alloc, inv_lets, &inv.locals, &[], &[])?,
        entries: unset(alloc, entries, &pipe.entries, &inv.entries, &[])?,
        inputs: unset(alloc, inputs, &pipe.inputs, &[], &[])?,
        symbols: unset(alloc, symbols, &pipe.symbols, &spec.symbols, &inv.symbols)?,
    })
}
