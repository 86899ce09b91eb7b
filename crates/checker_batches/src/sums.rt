//! What solutions of equations can sum to.
ghost use Rattle.std.specs.Prelude.{◌≡◌, ◌≢◌, ◌↔◌, ◌++◌, ◌∷◌, [], IsTrue, List};
ghost use Rattle.lookup_model.specs.internal.Equations.{CanSumTo, Equation};
ghost use Rattle.checker_batches.specs.internal.Sums.{AreSums};

use field::Field;

/// What solutions of some equations can sum to, if one of each is taken.
#[derive(Clone, Copy)]
pub(crate) enum Sums<K> {
    /// Nothing: an equation has no solution.
    Nothing,
    /// This quotient alone: each equation has one solution. The denominator is not zero.
    One { numerator: K, denominator: K },
    /// Everything: each equation has a solution, and one is solved by every element.
    Everything,
}

impl<K: Field> Sums<K> {
    /// Those of no equations: zero alone.
    pub(crate) fn of_none() -> Self
        ensures { AreSums K.ring [] result }
    {
        Sums::One {
            numerator: K::ZERO,
            denominator: K::ONE,
        }
    }

    /// Those with one more equation, `denominator * f = numerator`, which has one solution.
    fn with_one_solution(self, numerator: K, denominator: K) -> Self
        requires { denominator ≢ K.ring.zero }
        ensures { (equations : List (Equation K)) → AreSums K.ring equations self
            → AreSums K.ring (equations
            ++ record { numerator = numerator; denominator = denominator } ∷ []) result }
    {
        match self {
            Sums::Nothing => Sums::Nothing,
            Sums::One {
                numerator: n,
                denominator: d,
            } => Sums::One {
                numerator: n * denominator + numerator * d,
                denominator: d * denominator,
            },
            Sums::Everything => Sums::Everything,
        }
    }

    /// Those with one more equation, which every element solves.
    fn with_every_solution(self) -> Self
        ensures { (equations : List (Equation K)) (e : Equation K) → e.denominator ≡ K.ring.zero
            → e.numerator ≡ K.ring.zero → AreSums K.ring equations self
            → AreSums K.ring (equations ++ e ∷ []) result }
    {
        match self {
            Sums::Nothing => Sums::Nothing,
            Sums::One { .. } => Sums::Everything,
            Sums::Everything => Sums::Everything,
        }
    }

    /// Those with one more equation, `denominator * f = numerator`.
    pub(crate) fn plus(self, numerator: K, denominator: K) -> Self
        ensures { (equations : List (Equation K)) → AreSums K.ring equations self
            → AreSums K.ring (equations
            ++ record { numerator = numerator; denominator = denominator } ∷ []) result }
    {
        if !denominator.is_zero() {
            self.with_one_solution(numerator, denominator)
        } else if numerator.is_zero() {
            self.with_every_solution()
        } else {
            Sums::Nothing
        }
    }

    /// Whether they are nothing, and so stay nothing whatever equations come further.
    pub(crate) fn is_nothing(self) -> bool
        ensures { IsTrue result ↔ (self ≡ Sums.Nothing) }
    {
        match self {
            Sums::Nothing => true,
            Sums::One { .. } => false,
            Sums::Everything => false,
        }
    }

    /// Whether zero is one of them.
    pub(crate) fn has_zero(self) -> bool
        ensures { (equations : List (Equation K)) → AreSums K.ring equations self
            → IsTrue result ↔ CanSumTo K.ring equations K.ring.zero }
    {
        match self {
            Sums::Nothing => false,
            Sums::One { numerator, .. } => numerator.is_zero(),
            Sums::Everything => true,
        }
    }
}
