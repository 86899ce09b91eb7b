//! Fractions of expressions.
ghost use Rattle.std.specs.Prelude.{IfOk};
ghost use Rattle.lookup_constraints.specs.internal.Meanings.{Means, meaning_of, minus, times};
ghost use Rattle.lookup_constraints.specs.internal.Quotients.{IsQuotient, plus_fraction, quotient_meaning, zero_quotient};

use air_expressions::Expression;
use field::Field;
use std::alloc::{AllocError, Global};

/// A numerator over a denominator, as expressions of a builder. The denominator may be zero.
#[derive(Drop)]
pub struct Quotient<E> {
    /// What the denominator times the fraction has to be: V without flags, N with flags.
    pub numerator: E,
    /// U without flags, D with flags.
    pub denominator: E,
}

/// Zero over one.
pub(crate) fn zero_quotient<K: Field, E: Expression<K>>() -> Quotient<E>
    ensures { IsQuotient (Means E.value E.degree) (zero_quotient K.ring) result }
{
    Quotient {
        numerator: E::constant(K::ZERO),
        denominator: E::constant(K::ONE),
    }
}

/// `quotient + numerator / denominator`, over the product of both denominators.
pub(crate) fn add_fraction<K: Field, E: Expression<K>>(
    alloc: Global,
    quotient: Quotient<E>,
    numerator: E,
    denominator: E,
) -> Result<Quotient<E>, AllocError>
    ensures { let of = meaning_of E.value E.degree in
        IfOk result (IsQuotient (Means E.value E.degree) (plus_fraction K.ring
        (quotient_meaning of quotient) (of numerator) (of denominator))) }
{
    let raised = quotient.numerator.mul(alloc, denominator.copy(alloc)?)?;
    let added = numerator.mul(alloc, quotient.denominator.copy(alloc)?)?;
    Ok(Quotient {
        numerator: raised.add(alloc, added)?,
        denominator: quotient.denominator.mul(alloc, denominator)?,
    })
}

/// The left side of the equation of a fraction: `quotient.denominator * fraction - quotient.numerator`.
pub(crate) fn fraction_equation<K: Field, E: Expression<K>>(
    alloc: Global,
    quotient: Quotient<E>,
    fraction: E,
) -> Result<E, AllocError>
    ensures { let of = meaning_of E.value E.degree in
        IfOk result (Means E.value E.degree (minus K.ring
        (times K.ring (of quotient.denominator) (of fraction)) (of quotient.numerator))) }
{
    quotient
        .denominator
        .mul(alloc, fraction)?
        .sub(alloc, quotient.numerator)
}
