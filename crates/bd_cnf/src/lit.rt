ghost use Rattle.std.specs.Prelude.{◌≡◌, ◌<◌};
ghost use Rattle.bd_cnf.specs.Literal.{literal, negate};

use std::fmt;
use std::marker::Model;

/// A variable, counted from 1, or its negation.
#[derive(Clone, Copy, PartialEq, Eq, Hash)]
pub struct Lit {
    var: u64,
    positive: bool,
}

impl Model for Lit {
    ghost use Rattle.std.specs.Prelude.{◌<◌};
    ghost use Rattle.bd_cnf.specs.Literal.{Literal, literal};

    ghost Value = { Literal };

    ghost view = { λ l. literal l.var l.positive };

    ghost invariant = { λ l. 0 < l.var };

    ghost inverse = { λ l. record { var = l.var; positive = l.positive } };
}

impl Lit {
    /// The literal of `var`, negated where `positive` is false.
    pub fn new(var: u64, positive: bool) -> Lit
        requires { 0 < var }
        ensures { result ≡ literal var positive }
    {
        Lit { var, positive }
    }

    /// The number of the literal's variable, from 1.
    pub fn var(self) -> u64
        ensures value { result ≡ self.var }
        ensures from_one { 0 < result }
    {
        self.var
    }

    /// Whether the literal is a variable and not a negation.
    pub fn is_positive(self) -> bool
        ensures { result ≡ self.positive }
    {
        self.positive
    }

    /// The literal of the same variable that is true where this one is false.
    pub fn negated(self) -> Lit
        ensures { result ≡ negate self }
    {
        Lit {
            var: self.var,
            positive: !self.positive,
        }
    }
}

/// Writes the literal as DIMACS CNF does.
impl fmt::Display for Lit {
    ghost use Rattle.std.specs.Prelude.{Some};
    ghost use Rattle.bd_cnf.specs.Literal.{literal_text};

    ghost output = { λ l. Some (literal_text l) };

    /// Writes the literal as DIMACS CNF does: its variable, after a `-` if it is negated.
    fn fmt<W: fmt::Write>(&self, f: &mut fmt::Formatter<W>) -> fmt::Result {
        let var = self.var;
        if self.positive {
            write!(f, "{var}")
        } else {
            write!(f, "-{var}")
        }
    }
}
