//! Expressions of a machine.

/// An expression over a machine's entries, inputs and lets. `Entry`, `Input` and `Local` count from 0 in the
/// machine in which the expression stands, in an invariant in the pipeline's entries and the invariant's own
/// lets; `Apply` names a symbol of the design.
#[derive(PartialEq, Drop)]
#[cycle(expr)]
pub enum Expr {
    Bool(bool),
    Entry(u32),
    Input(u32),
    Local(u32),
    Not(Box<Expr>),
    And(Exprs),
    Or(Exprs),
    Implies(Box<Expr>, Box<Expr>),
    Iff(Box<Expr>, Box<Expr>),
    Equal(Box<Expr>, Box<Expr>),
    Ite(Box<Expr>, Box<Expr>, Box<Expr>),
    Read(Box<Expr>, Box<Expr>),
    Write(Box<Expr>, Box<Expr>, Box<Expr>),
    Apply(u32, Exprs),
}

/// A list of expressions.
#[derive(PartialEq, Drop)]
#[cycle(expr)]
pub struct Exprs {
    pub items: Vec<Expr>,
}
