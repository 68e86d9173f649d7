//! The nested ite of an application, built from its own variable outwards.
ghost use Rattle.std.specs.Prelude.{◌≡◌, ◌<◌, [], length, nat_eq, IfOk, OnOk};
ghost use Rattle.std.specs.List.{All};
ghost use lib.Pointwise.{pointwise};
ghost use Rattle.bd_model.specs.declared.design.Sort.TheVariants as sort;
ghost use Rattle.bd_terms.specs.Graph.{AddsUses, Extends, HasSort, IsGraph, sort_at};
ghost use Rattle.bd_terms.specs.Denotation.{Denotes, Truth, denoted, words};
ghost use Rattle.bd_function.specs.Flattened.{IsEquality};
ghost use Rattle.bd_function.specs.inner.Nested.{AreEarlier, IsNestedChoice, chosen};

use crate::flat::FlatRow;
use bd_terms::{Graph, Id};
use std::alloc::AllocError;

/// The conjunction of the equations between arguments, pair by pair: true where there is none.
pub(crate) fn equal(graph: &mut Graph, left: &[Id], right: &[Id]) -> Result<Id, AllocError>
    requires left { All (λ a. HasSort graph.old a sort.Word) left.now }
    requires right { All (λ a. HasSort graph.old a sort.Word) right.now }
    requires alike { length left.now ≡ length right.now }
    ensures denotes { IfOk result (λ id. Denotes graph.new id
        (λ w. Truth (pointwise nat_eq
        (words w graph.old left.now) (words w graph.old right.now)))) }
    ensures made { IfOk result (IsEquality graph.new left.now right.now) }
    ensures sorted { IfOk result (λ id. HasSort graph.new id sort.Bool) }
    ensures extends { OnOk result (Extends graph.old graph.new) }
    ensures uses { OnOk result (AddsUses graph.old graph.new []) }
{
    let mut same = graph.mk_true()?;
    for index in (0..left.len()).rev() {
        let equation = graph.mk_eq(left[index], right[index])?;
        same = graph.mk_and(equation, same)?;
    }
    Ok(same)
}

/// The variable of the first row with equal arguments, or else the own one.
pub(crate) fn nested(
    graph: &mut Graph,
    variables: &[Id],
    rows: &[FlatRow],
    args: &[Id],
    own: Id,
) -> Result<Id, AllocError>
    requires arguments { All (λ a. HasSort graph.old a sort.Word) args.now }
    requires own { own < length graph.old }
    requires rows { AreEarlier graph.old variables.now (length args.now) (sort_at graph.old own)
        rows.now }
    ensures denotes { IfOk result (λ id. Denotes graph.new id (λ w.
        chosen w graph.old variables.now rows.now args.now (denoted w graph.old own))) }
    ensures made { IfOk result (IsNestedChoice graph.new variables.now rows.now args.now own) }
    ensures sorted { IfOk result (λ id. HasSort graph.new id (sort_at graph.old own)) }
    ensures graph { OnOk result (IsGraph graph.old → IsGraph graph.new) }
    ensures extends { OnOk result (Extends graph.old graph.new) }
    ensures uses { OnOk result (AddsUses graph.old graph.new []) }
{
    let mut term = own;
    for index in (0..rows.len()).rev() {
        let row = &rows[index];
        let same = equal(graph, row.args.as_slice(), args)?;
        term = graph.mk_ite(same, variables[row.var as usize], term)?;
    }
    Ok(term)
}
