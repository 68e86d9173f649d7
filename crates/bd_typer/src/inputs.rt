//! Whether expressions use inputs.

ghost use Rattle.std.specs.Prelude.{◌≡◌};
ghost use Rattle.bd_model.specs.ExprView.{expr_view, expr_views};
ghost use Rattle.bd_model.specs.Lawful.{uses_input, any_uses_input};

use bd_model::{Expr, Exprs};

/// Whether an expression uses an input, also through lets, of which the flags say whether they do. It goes as deep
/// as the expression nests.
#[cycle(uses)]
pub fn uses_input(flags: &[bool], expr: &Expr) -> bool
    ensures { result ≡ uses_input flags.now (expr_view expr.now) }
{
    match expr {
        Expr::Bool(_) | Expr::Entry(_) => false,
        Expr::Input(_) => true,
        Expr::Local(i) => flags.get(*i as usize).copied().unwrap_or(false),
        Expr::Not(a) => uses_input(flags, a),
        Expr::And(es) | Expr::Or(es) | Expr::Apply(_, es) => any_uses_input(flags, es),
        Expr::Implies(a, b) | Expr::Iff(a, b) | Expr::Equal(a, b) | Expr::Read(a, b) => {
            uses_input(flags, a) || uses_input(flags, b)
        }
        Expr::Ite(a, b, c) | Expr::Write(a, b, c) => {
            uses_input(flags, a) || uses_input(flags, b) || uses_input(flags, c)
        }
    }
}

/// Whether one of these expressions uses an input, also through lets.
#[cycle(uses)]
fn any_uses_input(flags: &[bool], exprs: &Exprs) -> bool
    ensures { result ≡ any_uses_input flags.now (expr_views exprs.now) }
{
    for expr in &exprs.items {
        if uses_input(flags, expr) {
            return true;
        }
    }
    false
}
