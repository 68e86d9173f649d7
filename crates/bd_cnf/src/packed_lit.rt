//! Literals in four bytes, so that a clause of three lies in a part of one cache line.
ghost use Rattle.std.specs.Prelude.{◌≡◌, ◌<◌, ◌^◌};
ghost use Rattle.bd_cnf.specs.Literal.{literal_eq, negate};
ghost use Rattle.bd_cnf.specs.Packed.{literal_index};

use crate::lit::Lit;
use std::marker::Model;

/// A literal as a number: twice its variable, and one more where it is negative.
#[derive(Clone, Copy)]
pub struct PackedLit {
    number: u32,
}

impl Model for PackedLit {
    ghost use Rattle.std.specs.Prelude.{◌+◌, ◌*◌, ◌/◌, ◌%◌, ◌≤◌, ◌==◌, if◌then◌else◌};
    ghost use Rattle.bd_cnf.specs.Literal.{Literal, literal};
    ghost use Rattle.bd_cnf.specs.inner.Packing.{number_of_halves};

    ghost Value = { Literal };

    ghost view = { λ p. literal (p.number / 2) (p.number % 2 == 0) };

    ghost invariant = { λ p. 2 ≤ p.number };

    ghost inverse = { λ l. record { number = 2 * l.var + (if l.positive then 0 else 1) } };

    ghost inverse_ok = { λ a h i. record { number = number_of_halves a.number i } };
}

impl PackedLit {
    /// The literal as one number of 32 bits: twice its variable, and one more if it is negated.
    pub fn of(lit: Lit) -> PackedLit
        requires { lit.var < 2 ^ 31 }
        ensures { result ≡ lit }
    {
        let twice = 2 * lit.var() as u32;
        let number = if lit.is_positive() { twice } else { twice + 1 };
        PackedLit { number }
    }

    /// The literal that the number stands for.
    pub fn lit(self) -> Lit
        ensures { result ≡ self }
    {
        Lit::new(u64::from(self.number / 2), self.number % 2 == 0)
    }

    /// The literal's place in a table that is indexed by literal.
    pub fn index(self) -> usize
        ensures { result ≡ literal_index self }
    {
        self.number as usize
    }

    /// The variable's place in a table that is indexed by variable.
    pub fn variable(self) -> usize
        ensures { result ≡ self.var }
    {
        self.number as usize / 2
    }

    /// The literal of the same variable that is true where this one is false.
    pub fn negated(self) -> PackedLit
        ensures { result ≡ negate self }
    {
        let number = if self.number % 2 == 0 {
            self.number + 1
        } else {
            self.number - 1
        };
        PackedLit { number }
    }

    /// Whether two packed literals are one.
    pub fn is(self, other: PackedLit) -> bool
        ensures { result ≡ literal_eq self other }
    {
        self.number == other.number
    }
}
