//! What a list does with its parts.

ghost use Rattle.std.specs.Prelude.{◌≡◌, ◌≢◌, [], ◌∷◌, length, map, IfOk, IfSome, IfNone};
ghost use Rattle.bd_model.specs.ExprView.{expr_view};
ghost use Rattle.bd_typer.specs.Typing.{built, of_one_part, of_three, of_three_parts, of_two, of_two_parts, operator_sort, part_sort};

use bd_model::{Expr, Exprs, Sort};
use bd_syntax::Operator;
use std::alloc::{AllocError, Global};

/// An operator, or the application of a symbol.
#[derive(Clone, Copy, PartialEq, Eq)]
pub enum Operation {
    Operator(Operator),
    Apply(u32),
}

/// The sort of an operator's value, where this one is wanted.
pub fn operator_sort(operator: Operator, want: Sort) -> Sort
    ensures { result ≡ operator_sort operator want }
{
    match operator {
        Operator::Ite => want,
        Operator::Read => Sort::Word,
        Operator::Write => Sort::Memory,
        Operator::Not
        | Operator::And
        | Operator::Or
        | Operator::Implies
        | Operator::Iff
        | Operator::Equal => Sort::Bool,
    }
}

impl Operation {
    /// The sort of a part, by its place from 0, where this sort is wanted of the whole.
    pub fn part_sort(self, want: Sort, place: usize) -> Sort
        ensures { result ≡ part_sort self want place }
    {
        match self {
            Operation::Operator(Operator::Ite) if place == 0 => Sort::Bool,
            Operation::Operator(Operator::Ite) => want,
            Operation::Operator(Operator::Read | Operator::Write) if place == 0 => Sort::Memory,
            Operation::Operator(Operator::Read | Operator::Write | Operator::Equal) => Sort::Word,
            Operation::Operator(_) => Sort::Bool,
            Operation::Apply(_) => Sort::Word,
        }
    }
}

/// The part of a list that has one.
fn one(alloc: Global, parts: Vec<Expr>) -> Result<Option<Box<Expr>>, AllocError>
    ensures some { IfOk result (λ r. IfSome r (λ a. parts.items ≡ a.value ∷ [])) }
    ensures none { IfOk result (λ r. IfNone r (length parts.items ≢ 1)) }
{
    let mut parts = parts;
    if parts.len() != 1 {
        return Ok(None);
    }
    let Some(a) = parts.pop() else {
        return Ok(None);
    };
    Ok(Some(Box::new(alloc, a)?))
}

/// The parts of a list that has two.
fn two(alloc: Global, parts: Vec<Expr>) -> Result<Option<(Box<Expr>, Box<Expr>)>, AllocError>
    ensures some { IfOk result (λ r. IfSome r (λ p. parts.items ≡ p.0.value ∷ p.1.value ∷ [])) }
    ensures none { IfOk result (λ r. IfNone r (length parts.items ≢ 2)) }
{
    let mut parts = parts;
    if parts.len() != 2 {
        return Ok(None);
    }
    let (Some(b), Some(a)) = (parts.pop(), parts.pop()) else {
        return Ok(None);
    };
    Ok(Some((Box::new(alloc, a)?, Box::new(alloc, b)?)))
}

type Three = (Box<Expr>, Box<Expr>, Box<Expr>);

/// The parts of a list that has three.
fn three(alloc: Global, parts: Vec<Expr>) -> Result<Option<Three>, AllocError>
    ensures some { IfOk result (λ r. IfSome r (λ p.
        parts.items ≡ p.0.value ∷ p.1.value ∷ p.2.value ∷ [])) }
    ensures none { IfOk result (λ r. IfNone r (length parts.items ≢ 3)) }
{
    let mut parts = parts;
    if parts.len() != 3 {
        return Ok(None);
    }
    let (Some(c), Some(b), Some(a)) = (parts.pop(), parts.pop(), parts.pop()) else {
        return Ok(None);
    };
    Ok(Some((
        Box::new(alloc, a)?,
        Box::new(alloc, b)?,
        Box::new(alloc, c)?,
    )))
}

/// The expression of an operator of two parts.
fn of_two(operator: Operator, a: Box<Expr>, b: Box<Expr>) -> Expr
    ensures { expr_view result ≡ of_two operator (expr_view a.value) (expr_view b.value) }
{
    match operator {
        Operator::Implies => Expr::Implies(a, b),
        Operator::Iff => Expr::Iff(a, b),
        Operator::Equal => Expr::Equal(a, b),
        _ => Expr::Read(a, b),
    }
}

/// The expression of an operator of three parts.
fn of_three(operator: Operator, a: Box<Expr>, b: Box<Expr>, c: Box<Expr>) -> Expr
    ensures { expr_view result
        ≡ of_three operator (expr_view a.value) (expr_view b.value) (expr_view c.value) }
{
    match operator {
        Operator::Ite => Expr::Ite(a, b, c),
        _ => Expr::Write(a, b, c),
    }
}

/// The expression of the operator of one part, `not`; any other number of parts makes false.
#[tactic(auto, using(crate::proofs::Operations::not_one))]
fn of_one_part(alloc: Global, parts: Vec<Expr>) -> Result<Expr, AllocError>
    ensures { IfOk result (λ e. expr_view e ≡ of_one_part (map expr_view parts.items)) }
{
    match one(alloc, parts)? {
        Some(a) => Ok(Expr::Not(a)),
        None => Ok(Expr::Bool(false)),
    }
}

/// The expression of an operator of two parts; any other number of parts makes false.
#[tactic(auto, using(crate::proofs::Operations::not_two))]
fn of_two_parts(alloc: Global, operator: Operator, parts: Vec<Expr>) -> Result<Expr, AllocError>
    ensures { IfOk result (λ e. expr_view e ≡ of_two_parts operator (map expr_view parts.items)) }
{
    match two(alloc, parts)? {
        Some((a, b)) => Ok(of_two(operator, a, b)),
        None => Ok(Expr::Bool(false)),
    }
}

/// The expression of an operator of three parts; any other number of parts makes false.
#[tactic(auto, using(crate::proofs::Operations::not_three))]
fn of_three_parts(alloc: Global, operator: Operator, parts: Vec<Expr>) -> Result<Expr, AllocError>
    ensures { IfOk result (λ e. expr_view e
        ≡ of_three_parts operator (map expr_view parts.items)) }
{
    match three(alloc, parts)? {
        Some((a, b, c)) => Ok(of_three(operator, a, b, c)),
        None => Ok(Expr::Bool(false)),
    }
}

/// The expression of an operator with its parts.
fn build_operator(alloc: Global, operator: Operator, parts: Vec<Expr>) -> Result<Expr, AllocError>
    ensures { IfOk result (λ e. expr_view e
        ≡ built (Operation.Operator operator) (map expr_view parts.items)) }
{
    match operator {
        Operator::And => Ok(Expr::And(Exprs { items: parts })),
        Operator::Or => Ok(Expr::Or(Exprs { items: parts })),
        Operator::Not => of_one_part(alloc, parts),
        Operator::Ite | Operator::Write => of_three_parts(alloc, operator, parts),
        Operator::Implies | Operator::Iff | Operator::Equal | Operator::Read => {
            of_two_parts(alloc, operator, parts)
        }
    }
}

/// The expression of an operation with its parts.
pub fn build(alloc: Global, how: Operation, parts: Vec<Expr>) -> Result<Expr, AllocError>
    ensures { IfOk result (λ e. expr_view e ≡ built how (map expr_view parts.items)) }
{
    match how {
        Operation::Apply(symbol) => Ok(Expr::Apply(symbol, Exprs { items: parts })),
        Operation::Operator(operator) => build_operator(alloc, operator, parts),
    }
}
