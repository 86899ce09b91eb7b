//! Four elements of [`MontyQuartic`] side by side, as the four vectors of their coefficients.
ghost use Rattle.std.specs.Prelude.{⊤, ◌≡◌, ◌≤◌, ◌+◌, ◌↔◌, IsTrue, length};
ghost use Rattle.field_monty.specs.Quartic.{norm_high, norm_low, quartic_cofactor, quartic_norm, quartic_ring};
ghost use Rattle.field_monty.specs.internal.Four.{elements_of, four, planes_of};
ghost use Rattle.field_monty.specs.internal.Lanes.{lanes_ring, lanes_w};
ghost use Rattle.field_monty.specs.internal.Planes.{planes_at};

use crate::lanes::Lanes;
use crate::monty_field::QuarticParameters;
use crate::monty_quartic::MontyQuartic;
use field::chains::Factor;
use std::alloc::AllocError;
use std::marker::Model;
use std::ops::Mul;

/// Four elements of [`MontyQuartic`].
#[derive_where(Copy)]
pub(crate) struct Planes<const P: u32, K: QuarticParameters<P>> {
    c0: Lanes<P, K>,
    c1: Lanes<P, K>,
    c2: Lanes<P, K>,
    c3: Lanes<P, K>,
}

impl<const P: u32, K: QuarticParameters<P>> Model for Planes<P, K> {
    ghost use Rattle.field_monty.specs.Quartic.{Quartic, quartic_coded};
    ghost use Rattle.field.specs.Residue.{Residue, residue_coded};
    ghost use Rattle.field_monty.specs.internal.Four.{Four, four_coded};

    ghost Value = { Quartic (Four (Residue P)) };

    ghost coded = { quartic_coded (four_coded (residue_coded P)) };

    ghost view = { λ s. record { c0 = s.c0; c1 = s.c1; c2 = s.c2; c3 = s.c3 } };

    ghost inverse = { λ d. record { c0 = d.c0; c1 = d.c1; c2 = d.c2; c3 = d.c3 } };
}

impl<const P: u32, K: QuarticParameters<P>> Clone for Planes<P, K> {
    ghost is_clone = { λ x y. y ≡ x };

    ghost is_infallible = { λ _. ⊤ };

    fn clone(&self) -> Result<Self, AllocError> {
        Ok(*self)
    }
}

impl<const P: u32, K: QuarticParameters<P>> Planes<P, K> {
    /// Four elements side by side.
    #[inline(always)]
    pub(crate) fn new(
        first: MontyQuartic<P, K>,
        second: MontyQuartic<P, K>,
        third: MontyQuartic<P, K>,
        fourth: MontyQuartic<P, K>,
    ) -> Self
        ensures { result ≡ planes_of (four first second third fourth) }
    {
        let (c0, c1, c2, c3) = Lanes::transposed(
            Lanes::of(first),
            Lanes::of(second),
            Lanes::of(third),
            Lanes::of(fourth),
        );
        Planes { c0, c1, c2, c3 }
    }

    /// The four elements.
    #[inline(always)]
    pub(crate) fn elements(
        self,
    ) -> (
        MontyQuartic<P, K>,
        MontyQuartic<P, K>,
        MontyQuartic<P, K>,
        MontyQuartic<P, K>,
    )
        ensures { four result.0 result.1 result.2 result.3 ≡ elements_of self }
    {
        let (first, second, third, fourth) = Lanes::transposed(self.c0, self.c1, self.c2, self.c3);
        (first.keep(), second.keep(), third.keep(), fourth.keep())
    }

    /// The two parts of the norms.
    #[inline(always)]
    pub(crate) fn norm_parts(self) -> (Lanes<P, K>, Lanes<P, K>)
        ensures low { result.0 ≡ norm_low (lanes_ring P K.positive) (lanes_w P K.positive K.W) self }
        ensures high { result.1 ≡ norm_high (lanes_ring P K.positive) (lanes_w P K.positive K.W) self }
    {
        let w2 = self.c2.times_w();
        let w3 = self.c3.times_w();
        let n1 = -self.c1;
        (
            Lanes::sum_of_three((self.c0, self.c0), (self.c2, w2), (n1 + n1, w3)),
            Lanes::sum_of_three((self.c0 + self.c0, self.c2), (n1, self.c1), (-self.c3, w3)),
        )
    }

    /// The norms, by their parts.
    #[inline(always)]
    pub(crate) fn norm(self, low: Lanes<P, K>, high: Lanes<P, K>) -> Lanes<P, K>
        requires low { low ≡ norm_low (lanes_ring P K.positive) (lanes_w P K.positive K.W) self }
        requires high { high ≡ norm_high (lanes_ring P K.positive) (lanes_w P K.positive K.W) self }
        ensures { result ≡ quartic_norm (lanes_ring P K.positive) (lanes_w P K.positive K.W) self }
    {
        Lanes::sum_of_two((low, low), (-high, high.times_w()))
    }

    /// The norms' cofactors times `d`, by the parts of the norms.
    #[inline(always)]
    pub(crate) fn cofactor_times(self, low: Lanes<P, K>, high: Lanes<P, K>, d: Lanes<P, K>) -> Self
        requires low { low ≡ norm_low (lanes_ring P K.positive) (lanes_w P K.positive K.W) self }
        requires high { high ≡ norm_high (lanes_ring P K.positive) (lanes_w P K.positive K.W) self }
        ensures { result ≡ quartic_cofactor (lanes_ring P K.positive) (lanes_w P K.positive K.W) d self }
    {
        let x = low * d;
        let y = high * d;
        let z = y.times_w();
        Planes {
            c0: Lanes::sum_of_two((self.c0, x), (self.c2, -z)),
            c1: Lanes::sum_of_two((self.c3, z), (self.c1, -x)),
            c2: Lanes::sum_of_two((self.c2, x), (self.c0, -y)),
            c3: Lanes::sum_of_two((self.c1, y), (self.c3, -x)),
        }
    }
}

impl<const P: u32, K: QuarticParameters<P>> Planes<P, K> {
    /// Whether all four are embedded elements of the base field.
    #[inline(always)]
    fn are_embedded(self) -> bool
        ensures { IsTrue result ↔ (self.c1 ≡ (lanes_ring P K.positive).zero)
            × (self.c2 ≡ (lanes_ring P K.positive).zero)
            × (self.c3 ≡ (lanes_ring P K.positive).zero) }
    {
        if !self.c1.are_zero() {
            return false;
        }
        if !self.c2.are_zero() {
            return false;
        }
        self.c3.are_zero()
    }

    /// The quotients by denominators, given the parts of their norms and the inverses of the norms.
    /// Numerators that are all embedded elements of the base field take a third less.
    #[inline(always)]
    pub(crate) fn over(
        self,
        denominators: Self,
        low: Lanes<P, K>,
        high: Lanes<P, K>,
        inverses: Lanes<P, K>,
    ) -> Self
        requires low { low ≡ norm_low (lanes_ring P K.positive) (lanes_w P K.positive K.W) denominators }
        requires high { high ≡ norm_high (lanes_ring P K.positive) (lanes_w P K.positive K.W) denominators }
        ensures { result ≡ (quartic_ring (lanes_ring P K.positive) (lanes_w P K.positive K.W)).mul self
            (quartic_cofactor (lanes_ring P K.positive) (lanes_w P K.positive K.W) inverses denominators) }
    {
        if self.are_embedded() {
            denominators.cofactor_times(low, high, self.c0 * inverses)
        } else {
            self * denominators.cofactor_times(low, high, inverses)
        }
    }
}

impl<const P: u32, K: QuarticParameters<P>> Mul for Planes<P, K> {
    type Output = Planes<P, K>;

    ghost mul_gives = { λ a b r. r ≡ (quartic_ring (lanes_ring P K.positive) (lanes_w P K.positive K.W)).mul a b };

    #[inline(always)]
    fn mul(self, rhs: Self) -> Self {
        let (a0, a1, a2, a3) = (self.c0, self.c1, self.c2, self.c3);
        let (b0, b1, b2, b3) = (rhs.c0, rhs.c1, rhs.c2, rhs.c3);
        let w1 = b1.times_w();
        let w2 = b2.times_w();
        let w3 = b3.times_w();
        Planes {
            c0: Lanes::sum_of_four((a0, b0), (a1, w3), (a2, w2), (a3, w1)),
            c1: Lanes::sum_of_four((a0, b1), (a1, b0), (a2, w3), (a3, w2)),
            c2: Lanes::sum_of_four((a0, b2), (a1, b1), (a2, b0), (a3, w3)),
            c3: Lanes::sum_of_four((a0, b3), (a1, b2), (a2, b1), (a3, b0)),
        }
    }
}

/// The four elements of a list from place `i` on.
#[inline(always)]
pub(crate) fn load<const P: u32, K: QuarticParameters<P>>(
    xs: &[MontyQuartic<P, K>],
    i: usize,
) -> Planes<P, K>
    requires { i + 4 ≤ length xs.now }
    ensures { result ≡ planes_at P K.positive xs.now i }
{
    Planes::new(xs[i], xs[i + 1], xs[i + 2], xs[i + 3])
}
