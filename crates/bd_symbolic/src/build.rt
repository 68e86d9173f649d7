//! The connectives that terms lack.
ghost use Rattle.std.specs.Prelude.{◌≡◌, IfOk};
ghost use mathlib.Core.Bool.{beq};
ghost use Rattle.bd_model.specs.declared.design.Sort.TheVariants as sort;
ghost use Rattle.bd_terms.specs.Graph.{AddsUses, Extends, HasSort};
ghost use Rattle.bd_terms.specs.Denotation.{Denotes, Truth, truth};
ghost use Rattle.std.specs.Prelude.{◌||◌, [], length, not, slice_get, Some};
ghost use Rattle.std.specs.List.{All};
ghost use Rattle.bd_model.specs.DesignView.{design_view};
ghost use Rattle.bd_model.specs.declared.design.Symbol as symbol;
ghost use Rattle.bd_symbolic.specs.DesignSymbols.{GrowsWithin, KeepsDesign};
ghost use Rattle.bd_symbolic.specs.Made.{IsConstant, IsEquivalence, IsImplication};
ghost use Rattle.bd_symbolic.specs.inner.Evaluates.{Applied};

use bd_model::Design;
use bd_terms::{Graph, Id, Sym};
use std::alloc::AllocError;

/// The term of a truth value: true, or its negation.
pub(crate) fn constant(graph: &mut Graph, value: bool) -> Result<Id, AllocError>
    ensures denotes { IfOk result (λ id. Denotes graph.new id (λ w. Truth value)) }
    ensures sorted { IfOk result (λ id. HasSort graph.new id sort.Bool) }
    ensures made { IfOk result (IsConstant graph.new value) }
    ensures extends { Extends graph.old graph.new }
    ensures uses { AddsUses graph.old graph.new [] }
{
    let yes = graph.mk_true()?;
    if value { Ok(yes) } else { graph.mk_not(yes) }
}

/// The implication, as the disjunction with the negation. If memory runs out, the graph may keep the negation.
pub fn implies(graph: &mut Graph, a: Id, b: Id) -> Result<Id, AllocError>
    requires first { HasSort graph.old a sort.Bool }
    requires second { HasSort graph.old b sort.Bool }
    ensures denotes { IfOk result (λ id. Denotes graph.new id
        (λ w. Truth (not (truth w graph.old a) || truth w graph.old b))) }
    ensures sorted { IfOk result (λ id. HasSort graph.new id sort.Bool) }
    ensures made { IfOk result (IsImplication graph.new a b) }
    ensures extends { Extends graph.old graph.new }
    ensures uses { AddsUses graph.old graph.new [] }
{
    let denied = graph.mk_not(a)?;
    graph.mk_or(denied, b)
}

/// The equality of truth values: the second where the first is true, else its negation.
pub(crate) fn iff(graph: &mut Graph, a: Id, b: Id) -> Result<Id, AllocError>
    requires first { HasSort graph.old a sort.Bool }
    requires second { HasSort graph.old b sort.Bool }
    ensures denotes { IfOk result (λ id. Denotes graph.new id
        (λ w. Truth (beq (truth w graph.old a) (truth w graph.old b)))) }
    ensures sorted { IfOk result (λ id. HasSort graph.new id sort.Bool) }
    ensures made { IfOk result (IsEquivalence graph.new a b) }
    ensures extends { Extends graph.old graph.new }
    ensures uses { AddsUses graph.old graph.new [] }
{
    let denied = graph.mk_not(b)?;
    graph.mk_ite(a, b, denied)
}

/// The term of a symbol of the design applied to words: a word, or a truth value if the symbol is a predicate.
pub(crate) fn apply(
    graph: &mut Graph,
    design: &Design,
    f: u32,
    args: &[Id],
) -> Result<Id, AllocError>
    requires arguments { All (λ a. HasSort graph.old a sort.Word) args.now }
    requires keeps { KeepsDesign (design_view design.now) graph.old }
    requires applies { (y : symbol.Symbol)
        × (slice_get design.now.symbols f ≡ Some y) × (length args.now ≡ y.arity) }
    ensures grows { GrowsWithin (design_view design.now) graph.old graph.new }
    ensures applied { IfOk result (λ id.
        Applied (design_view design.now) graph.old graph.new f args.now id) }
{
    if design.symbols.get(f).predicate {
        graph.mk_pred(Sym::Function(f), args)
    } else {
        graph.mk_app(Sym::Function(f), args)
    }
}
