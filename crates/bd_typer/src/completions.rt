//! What a completion abstracts to.

ghost use Rattle.std.specs.Prelude.{IfSome, Some, false, map, replicate};
ghost use Rattle.std.specs.Option.{option_map};
ghost use Rattle.bd_model.specs.Abstraction.{abstraction_view};
ghost use Rattle.bd_model.specs.ExprView.{Truth, expr_view};
ghost use Rattle.bd_syntax.specs.Completion.{IsLimitedCompAst, abstract_view, completion_view};
ghost use Rattle.bd_syntax.specs.Reading.{Gives};
ghost use Rattle.bd_typer.specs.Completions.{typed_abstract, typed_abstracts};
ghost use Rattle.bd_typer.specs.Joined.{typed_completion};
ghost use Rattle.bd_typer.specs.NameMap.{shared_names};
ghost use Rattle.bd_typer.specs.inner.Held.{lookup_names, meanings};

use crate::expression::expression;
use crate::names::{Lookup, NameMap, Outer};
use crate::walk::{Typed, entry_named, set_entry, start, unset};
use bd_model::{Abstraction, Expr, Exprs};
use bd_syntax::{Abstract, CompAst, FormFault};
use std::alloc::Global;

/// Sets the expression of an entry by `(abstract NAME EXPR)`.
#[tactic(auto, unfolding(crate::specs::Completions::typed_abstract))]
fn typed_abstract(
    alloc: Global,
    names: Lookup<'_>,
    spec: &NameMap<'_>,
    values: &mut Vec<Expr>,
    part: &Abstract,
) -> Result<(), FormFault>
    ensures { Gives (λ _. map expr_view values.new.items) result
        (typed_abstract (lookup_names names.entry) (meanings spec.now)
        (map expr_view values.old.items) (abstract_view part.now)) }
{
    let meaning = spec.get(part.name.text.as_slice());
    let (number, sort) = entry_named(part.name.offset, meaning)?;
    let value = expression(alloc, names, false, sort, &part.value)?;
    set_entry(values, number as usize, value);
    Ok(())
}

/// The expressions of abstracts, each at the place of its entry.
fn typed_abstracts(
    alloc: Global,
    names: Lookup<'_>,
    spec: &NameMap<'_>,
    entries: usize,
    parts: &[Abstract],
) -> Result<Vec<Expr>, FormFault>
    ensures { Gives (λ values. map expr_view values.items) result
        (typed_abstracts (lookup_names names.entry) (meanings spec.now)
        (replicate entries (Truth false)) (map abstract_view parts.now)) }
{
    let mut values = unset(alloc, entries)?;
    for part in parts {
        typed_abstract(alloc, names, spec, &mut values, part)?;
    }
    Ok(values)
}

/// What a completion that is given abstracts to, where the specification has so many entries.
#[tactic(auto, unfolding(crate::specs::Joined::typed_completion))]
fn given_completion(
    alloc: Global,
    pipe: &NameMap<'_>,
    spec: &NameMap<'_>,
    entries: usize,
    comp: &CompAst,
) -> Result<Abstraction, FormFault>
    requires { IsLimitedCompAst (completion_view comp.now) }
    ensures { Gives abstraction_view result (typed_completion
        (shared_names (meanings pipe.now) (meanings spec.now))
        (meanings spec.now) entries (Some (completion_view comp.now))) }
{
    let outer = Some(Outer { pipe, spec });
    let mut typed = start(alloc, NameMap::new(alloc), 0)?;
    typed.items(alloc, outer, false, comp.lets.as_slice())?;
    let names = typed.lookup(outer);
    let values = typed_abstracts(alloc, names, spec, entries, comp.parts.as_slice())?;
    let Typed { locals, .. } = typed;
    Ok(Abstraction::Given {
        lets: locals,
        parts: Exprs { items: values },
    })
}

/// What a completion abstracts to: one that isn't given to what flushing shows.
#[tactic(auto, unfolding(crate::specs::Joined::typed_completion))]
pub fn typed_completion(
    alloc: Global,
    pipe: &NameMap<'_>,
    spec: &NameMap<'_>,
    entries: usize,
    comp: Option<&CompAst>,
) -> Result<Abstraction, FormFault>
    requires { IfSome comp (λ comp. IsLimitedCompAst (completion_view comp.now)) }
    ensures { Gives abstraction_view result (typed_completion
        (shared_names (meanings pipe.now) (meanings spec.now))
        (meanings spec.now) entries
        (option_map (λ comp. completion_view comp.now) comp.entry)) }
{
    match comp {
        Some(comp) => given_completion(alloc, pipe, spec, entries, comp),
        None => Ok(Abstraction::Flushing),
    }
}
