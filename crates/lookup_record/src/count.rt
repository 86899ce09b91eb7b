//! Signed counts of messages.
ghost use Rattle.std.specs.Prelude.{◌≡◌, ℕ, IfOk};
ghost use Rattle.air_expressions.specs.Tree.{tree_of};
ghost use Rattle.air_expressions.specs.declared.layout.AirLayout.{AirLayout};
ghost use Rattle.lookup_record.specs.Negation.{IsNegation};

use air::{Expression, SymbolicExpression, WholeNumbers};
use field::Field;
use std::alloc::{AllocError, Global};
use std::marker::Model;
use std::ops::Neg;

/// How many times a message is sent on a row, with a bound on that number.
///
/// The expression is signed: what is sent counts up, what is received or provided counts down. The
/// weight is the most that one row adds in absolute value. The AIR must enforce that the expression
/// stays within it on each row; here it is only carried along.
#[derive(Debug, Drop)]
pub struct Count<E> {
    expression: E,
    weight: u64,
}

impl<E> Model for Count<E> {
    ghost use Rattle.lookup_record.specs.SignedCount.{SignedCount};

    ghost Value = { SignedCount E };

    ghost view = { λ c. record { expression = c.expression; weight = c.weight } };
}

impl<E> Count<E> {
    /// The count `expression`, which is at most `weight` in absolute value on each row.
    pub fn bounded(expression: E, weight: u64) -> Self
        ensures { result ≡ record { expression = expression; weight = weight } }
    {
        Count { expression, weight }
    }

    /// The count of a provided entry. Its weight is 0, since an entry answers queries and makes
    /// none.
    pub fn provided(expression: E) -> Self
        ensures { result ≡ record { expression = expression; weight = 0 } }
    {
        Count {
            expression,
            weight: 0,
        }
    }

    /// The most that one row adds in absolute value.
    pub fn weight(&self) -> u64
        ensures { result ≡ self.now.weight }
    {
        self.weight
    }

    /// The expression and the weight.
    pub fn into_parts(self) -> (E, u64)
        ensures { result ≡ (self.expression, self.weight) }
    {
        (self.expression, self.weight)
    }

    /// The negated count, with the same weight. Negating twice gives the same value.
    ///
    /// Fails only when out of memory.
    pub fn negate<F: Field>(self, alloc: Global) -> Result<Self, AllocError>
    where
        E: Expression<F>,
        ensures negation { IfOk result (λ c. IsNegation F.ring.neg (E.value c.expression)
            (E.value self.expression)
            (E.degree c.expression) (E.degree self.expression)) }
        ensures twice { IfOk result (λ c. (s : E.Seen)
            → F.ring.neg (E.value c.expression s) ≡ E.value self.expression s) }
        ensures weight { IfOk result (λ c. c.weight ≡ self.weight) }
        ensures within { IfOk result (λ c. (l : AirLayout) → E.within l self.expression
            → E.within l c.expression) }
    {
        let expression = self.expression.neg(alloc)?;
        Ok(Count {
            expression,
            weight: self.weight,
        })
    }

    /// A deep copy.
    ///
    /// Fails only when out of memory.
    pub fn copy<F: Field>(&self, alloc: Global) -> Result<Self, AllocError>
    where
        E: Expression<F>,
        ensures means { IfOk result (λ c. (s : E.Seen)
            → E.value c.expression s ≡ E.value self.now.expression s) }
        ensures degree { IfOk result (λ c. (t : ℕ)
            → E.degree c.expression t ≡ E.degree self.now.expression t) }
        ensures same { IfOk result (λ c. E.same self.now.expression c.expression) }
        ensures weight { IfOk result (λ c. c.weight ≡ self.now.weight) }
        ensures within { IfOk result (λ c. (l : AirLayout) → E.within l self.now.expression
            → E.within l c.expression) }
    {
        let expression = self.expression.copy(alloc)?;
        Ok(Count {
            expression,
            weight: self.weight,
        })
    }
}

impl<F: Field> Count<SymbolicExpression<F>> {
    /// A deep copy.
    pub(crate) fn copy_tree(&self, alloc: Global) -> Result<Self, AllocError>
        ensures tree { IfOk result (λ c. tree_of c.expression ≡ tree_of self.now.expression) }
        ensures weight { IfOk result (λ c. c.weight ≡ self.now.weight) }
    {
        Ok(Count {
            expression: self.expression.copy(alloc)?,
            weight: self.weight,
        })
    }
}

/// The whole number `count`, with its absolute value as the weight.
impl<E: WholeNumbers> From<i32> for Count<E> {
    ghost use Rattle.std.specs.Prelude.{◌≡◌, unsigned_abs};

    ghost from_gives = { λ n c. E.is_whole n c.expression × (c.weight ≡ unsigned_abs n) };

    fn from(count: i32) -> Count<E> {
        Count {
            expression: E::whole(count),
            weight: u64::from(count.unsigned_abs()),
        }
    }
}

/// The negated count, with the same weight.
impl<E: Neg<Output = E>> Neg for Count<E> {
    ghost use Rattle.std.specs.Prelude.{◌≡◌};

    type Output = Count<E>;

    ghost can_neg = { λ c. E.can_neg c.expression };

    ghost neg_gives = { λ c r. E.neg_gives c.expression r.expression × (r.weight ≡ c.weight) };

    fn neg(self) -> Count<E> {
        Count {
            expression: -self.expression,
            weight: self.weight,
        }
    }
}
