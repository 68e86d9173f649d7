//! Typing an expression: its names are found, its sorts compared, and it is built, in one walk.

ghost use Rattle.std.specs.Prelude.{◌≡◌};
ghost use Rattle.bd_model.specs.ExprView.{expr_view};
ghost use Rattle.bd_syntax.specs.Forms.{expression_of};
ghost use Rattle.bd_syntax.specs.Reading.{Gives, spot as spot_of};
ghost use Rattle.bd_syntax.specs.Words.{operator_of};
ghost use Rattle.bd_typer.specs.Typing.{of_sort, operation, symbol_named, typed, typed_leaf, value_named, leaf_value};
ghost use Rattle.bd_typer.specs.inner.Held.{lookup_names};

use crate::names::{Lookup, Meaning};
use crate::operation::{Operation, build, operator_sort};
use bd_model::{Expr, Sort};
use bd_syntax::{Form, FormFault, Operator, Spot, bad};
use bd_text::Code;
use std::alloc::Global;

/// Tests that something has the wanted sort.
fn of_sort(want: Sort, offset: usize, sort: Sort) -> Result<(), FormFault>
    ensures { Gives (λ _. tt {0}) result (of_sort want offset (tt {0}) sort) }
{
    if sort == want {
        Ok(())
    } else {
        Err(bad(offset, Code::WrongSort))
    }
}

/// What a name is as a value, and its sort, where inputs may be used or not.
fn value_named(
    inputs: bool,
    offset: usize,
    meaning: Option<Meaning>,
) -> Result<(Expr, Sort), FormFault>
    ensures { Gives (λ p. (expr_view p.0, p.1)) result (value_named inputs offset meaning) }
{
    match meaning {
        None | Some(Meaning::Later) => Err(bad(offset, Code::UnknownName)),
        Some(Meaning::Symbol { .. }) => Err(bad(offset, Code::WrongSort)),
        Some(Meaning::Entry { number, sort }) => Ok((Expr::Entry(number), sort)),
        Some(Meaning::Input { number, sort }) if inputs => Ok((Expr::Input(number), sort)),
        Some(
            Meaning::Local {
                number,
                sort,
                uses_input,
            },
        ) if inputs || !uses_input => Ok((Expr::Local(number), sort)),
        Some(Meaning::Input { .. } | Meaning::Local { .. }) => {
            Err(bad(offset, Code::InputNotAllowed))
        }
    }
}

/// What `true`, `false` or a name is as a value, and its sort.
fn leaf_value(names: Lookup<'_>, inputs: bool, leaf: &Spot) -> Result<(Expr, Sort), FormFault>
    ensures { Gives (λ p. (expr_view p.0, p.1)) result
        (leaf_value (lookup_names names.entry) inputs leaf.now) }
{
    let text = leaf.text.as_slice();
    if text == b"true".as_slice() {
        Ok((Expr::Bool(true), Sort::Bool))
    } else if text == b"false".as_slice() {
        Ok((Expr::Bool(false), Sort::Bool))
    } else {
        value_named(inputs, leaf.offset, names.get(text))
    }
}

/// The expression of `true`, `false` or a name, of the wanted sort.
#[tactic(auto, unfolding(crate::specs::Typing::typed_leaf))]
fn leaf(names: Lookup<'_>, inputs: bool, want: Sort, leaf: &Spot) -> Result<Expr, FormFault>
    ensures { Gives expr_view result
        (typed_leaf (lookup_names names.entry) inputs want leaf.now) }
{
    let (value, sort) = leaf_value(names, inputs, leaf)?;
    of_sort(want, leaf.offset, sort)?;
    Ok(value)
}

/// The number of a function or predicate that takes so many parts, and the sort of its value.
fn symbol_named(
    offset: usize,
    parts: usize,
    meaning: Option<Meaning>,
) -> Result<(u32, Sort), FormFault>
    ensures { Gives (λ p. p) result (symbol_named offset parts meaning) }
{
    match meaning {
        None | Some(Meaning::Later) => Err(bad(offset, Code::UnknownName)),
        Some(
            Meaning::Symbol {
                number,
                arity,
                predicate,
            },
        ) => {
            if arity as usize != parts {
                return Err(bad(offset, Code::WrongArity));
            }
            let sort = if predicate { Sort::Bool } else { Sort::Word };
            Ok((number, sort))
        }
        Some(_) => Err(bad(offset, Code::WrongSort)),
    }
}

/// What a list does with its parts.
#[tactic(auto, unfolding(crate::specs::Typing::operation))]
fn operation(
    names: Lookup<'_>,
    want: Sort,
    offset: usize,
    head: &Spot,
    parts: usize,
) -> Result<Operation, FormFault>
    ensures { Gives (λ how. how) result
        (operation (lookup_names names.entry) want offset head.now parts
        (operator_of head.now.text)) }
{
    let text = head.text.as_slice();
    if let Some(operator) = Operator::from_text(text) {
        of_sort(want, offset, operator_sort(operator, want))?;
        return Ok(Operation::Operator(operator));
    }
    let (number, sort) = symbol_named(head.offset, parts, names.get(text))?;
    of_sort(want, offset, sort)?;
    Ok(Operation::Apply(number))
}

/// An expression of the wanted sort, where inputs may be used or not. It goes as deep as the form nests.
pub fn expression(
    alloc: Global,
    names: Lookup<'_>,
    inputs: bool,
    want: Sort,
    form: &Form,
) -> Result<Expr, FormFault>
    ensures { Gives expr_view result
        (typed (lookup_names names.entry) inputs want (expression_of form.now)) }
{
    match form {
        Form::Atom(spot) => leaf(names, inputs, want, spot),
        Form::List {
            offset,
            head,
            parts,
        } => {
            let how = operation(names, want, *offset, head, parts.len())?;
            let mut exprs = Vec::new(alloc);
            for part in parts.as_slice() {
                let sort = how.part_sort(want, exprs.len());
                exprs.push(expression(alloc, names, inputs, sort, part)?)?;
            }
            Ok(build(alloc, how, exprs)?)
        }
    }
}
