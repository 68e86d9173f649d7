//! Marks on what is named.
ghost use Rattle.std.specs.Prelude.{◌≡◌, ◌||◌, ◌==◌, ℕ, false, slice_index_or, OnOk};
ghost use Rattle.bd_model.specs.ExprView.{expr_view, expr_views};
ghost use Rattle.bd_about.specs.Named.{any_names, is_same, names};
ghost use Rattle.bd_about.specs.Marked.{Adds, is_marked};

use crate::named::Named;
use bd_model::{Expr, Exprs};
use std::alloc::{AllocError, Global};

/// Marks on entries, inputs, lets and symbols. What stands past the end of a list isn't marked.
#[derive(Drop)]
pub struct NameMarks {
    pub entries: Vec<bool>,
    pub inputs: Vec<bool>,
    pub locals: Vec<bool>,
    pub symbols: Vec<bool>,
}

/// Sets one flag.
pub fn set(flags: &mut Vec<bool>, i: u32) -> Result<(), AllocError>
    ensures { OnOk result ((k : ℕ) → slice_index_or flags.new.items k false
        ≡ (slice_index_or flags.old.items k false || (i == k))) }
{
    let place = i as usize;
    while flags.len() <= place {
        flags.push(false)?;
    }
    flags[place] = true;
    Ok(())
}

/// Whether a flag is set.
pub fn is_set(flags: &[bool], i: u32) -> bool
    ensures { result ≡ slice_index_or flags.now i false }
{
    flags.get(i as usize).copied().unwrap_or(false)
}

impl NameMarks {
    /// No marks.
    pub fn new(alloc: Global) -> Self
        ensures { (x : Named) → is_marked result x ≡ false }
    {
        NameMarks {
            entries: Vec::new(alloc),
            inputs: Vec::new(alloc),
            locals: Vec::new(alloc),
            symbols: Vec::new(alloc),
        }
    }

    /// Whether a let is marked.
    pub fn has_local(&self, i: usize) -> bool
        ensures { result ≡ is_marked self.now (Named.Local i) }
    {
        self.locals.get(i).copied().unwrap_or(false)
    }

    /// Marks a thing.
    pub fn add(&mut self, named: Named) -> Result<(), AllocError>
        ensures { OnOk result (Adds self.old self.new (is_same named)) }
    {
        match named {
            Named::Entry(i) => set(&mut self.entries, i),
            Named::Input(i) => set(&mut self.inputs, i),
            Named::Local(i) => set(&mut self.locals, i),
            Named::Symbol(i) => set(&mut self.symbols, i),
        }
    }
}

/// Marks what an expression names. It goes as deep as the expression nests.
#[cycle(adds)]
pub fn add_expr(marks: &mut NameMarks, expr: &Expr) -> Result<(), AllocError>
    ensures { OnOk result (Adds marks.old marks.new (λ x. names x (expr_view expr.now))) }
{
    match expr {
        Expr::Bool(_) => Ok(()),
        Expr::Entry(i) => marks.add(Named::Entry(*i)),
        Expr::Input(i) => marks.add(Named::Input(*i)),
        Expr::Local(i) => marks.add(Named::Local(*i)),
        Expr::Not(a) => add_expr(marks, a),
        Expr::And(es) | Expr::Or(es) => add_exprs(marks, es),
        Expr::Implies(a, b) | Expr::Iff(a, b) | Expr::Equal(a, b) | Expr::Read(a, b) => {
            add_expr(marks, a)?;
            add_expr(marks, b)
        }
        Expr::Ite(a, b, c) | Expr::Write(a, b, c) => {
            add_expr(marks, a)?;
            add_expr(marks, b)?;
            add_expr(marks, c)
        }
        Expr::Apply(f, es) => {
            marks.add(Named::Symbol(*f))?;
            add_exprs(marks, es)
        }
    }
}

/// Marks what expressions name.
#[cycle(adds)]
pub fn add_exprs(marks: &mut NameMarks, exprs: &Exprs) -> Result<(), AllocError>
    ensures { OnOk result (Adds marks.old marks.new (λ x. any_names x (expr_views exprs.now))) }
{
    for expr in &exprs.items {
        add_expr(marks, expr)?;
    }
    Ok(())
}
