//! The quartic extensions of prime fields below 2^31.
ghost use Rattle.std.specs.Prelude.{⊤, ◌≡◌, IfOk, ◌<◌, ◌+◌, ◌*◌, ℕ, refl};
ghost use Rattle.std.specs.String.{string_bytes};
ghost use Rattle.std.proofs.Common.{rules, arith};
ghost use Rattle.field_monty.specs.Quartic.{coefficients_of, four_decimals, norm_high, norm_low, quartic_cofactor, quartic_embed, quartic_inverse, quartic_norm, quartic_residue_ring, quartic_text};
ghost use Rattle.field.specs.Residue.{residue_of};
ghost use Rattle.field.specs.ResidueRing.{residue_inverse, residue_ring};
ghost use Rattle.field.specs.Ring.{sub_in};
ghost use Rattle.field_monty.specs.laws.Montgomery.{stored_equality};
ghost use Rattle.field_monty.specs.laws.Quartic.{quartic_equality};
ghost use Rattle.field_monty.specs.laws.QuarticResidues.{quartic_residues_characteristic, quartic_residues_domain, quartic_residues_invert, quartic_residues_lawful};
ghost use Rattle.serde.specs.Event.{Sends, WritesSeq, unsigned};

use crate::monty_field::{MontyField31, QuarticParameters};
use field::{Domain, Field, PrimeCharacteristicRing};
use serde::{
    Described, Deserialize, DeserializeOwned, Deserializer, Format, Serialize, Serializer,
};
use std::alloc::{AllocError, Global};
use std::marker::Model;
use std::ops::{Add, Mul, Neg, Sub};

/// A polynomial of degree at most 3 over [`MontyField31`], modulo `X^4 - W`.
#[derive_where(Copy, Debug, PartialEq, Eq, Hash)]
pub struct MontyQuartic<const P: u32, K: QuarticParameters<P>> {
    pub(crate) c0: MontyField31<P, K>,
    pub(crate) c1: MontyField31<P, K>,
    pub(crate) c2: MontyField31<P, K>,
    pub(crate) c3: MontyField31<P, K>,
}

impl<const P: u32, K: QuarticParameters<P>> Model for MontyQuartic<P, K> {
    ghost use Rattle.field_monty.specs.Quartic.{Quartic, quartic_coded};
    ghost use Rattle.field.specs.Residue.{Residue, residue_coded};

    ghost Value = { Quartic (Residue P) };

    ghost coded = { quartic_coded (residue_coded P) };

    ghost view = { λ s. record { c0 = s.c0; c1 = s.c1; c2 = s.c2; c3 = s.c3 } };

    ghost inverse = { λ d. record { c0 = d.c0; c1 = d.c1; c2 = d.c2; c3 = d.c3 } };
}

impl<const P: u32, K: QuarticParameters<P>> MontyQuartic<P, K> {
    /// The polynomial with these four coefficients, lowest power first.
    pub fn new(coefficients: [MontyField31<P, K>; 4]) -> Self
        ensures { coefficients_of result ≡ coefficients }
    {
        let [c0, c1, c2, c3] = coefficients;
        MontyQuartic { c0, c1, c2, c3 }
    }

    /// The polynomial with this constant coefficient alone.
    #[inline]
    pub(crate) fn constant(x: MontyField31<P, K>) -> Self
        ensures { result ≡ quartic_embed (residue_ring P K.positive) x }
    {
        MontyQuartic {
            c0: x,
            c1: MontyField31::ZERO,
            c2: MontyField31::ZERO,
            c3: MontyField31::ZERO,
        }
    }

    /// The four coefficients, lowest power first.
    pub fn coefficients(self) -> [MontyField31<P, K>; 4]
        ensures { result ≡ coefficients_of self }
    {
        [self.c0, self.c1, self.c2, self.c3]
    }

    /// With `Y = X^2` the polynomial is `a + b X`, where `a` and `b` have degree at most 1 in `Y`.
    /// Returns the two coefficients of `a^2 - Y b^2`.
    #[inline]
    fn norm_parts(self) -> (MontyField31<P, K>, MontyField31<P, K>)
        ensures low { result.0 ≡ norm_low (residue_ring P K.positive)
            (residue_of P K.positive K.W) self }
        ensures high { result.1 ≡ norm_high (residue_ring P K.positive)
            (residue_of P K.positive K.W) self }
    {
        let cross = self.c1 * self.c3;
        let middle = self.c0 * self.c2;
        (
            self.c0 * self.c0 + (self.c2 * self.c2).times_w() - (cross + cross).times_w(),
            middle + middle - (self.c1 * self.c1 + (self.c3 * self.c3).times_w()),
        )
    }

    /// The norm over [`MontyField31`].
    #[inline]
    fn norm(self) -> MontyField31<P, K>
        ensures { result ≡ quartic_norm (residue_ring P K.positive)
            (residue_of P K.positive K.W) self }
    {
        let (u, v) = self.norm_parts();
        u * u - (v * v).times_w()
    }

    /// The norm's cofactor times `d`: the inverse, if `d` is the inverse of the norm.
    #[inline]
    fn cofactor_times(self, d: MontyField31<P, K>) -> Self
        ensures { result ≡ quartic_cofactor (residue_ring P K.positive)
            (residue_of P K.positive K.W) d self }
    {
        let (u, v) = self.norm_parts();
        MontyQuartic {
            c0: d * (self.c0 * u - (self.c2 * v).times_w()),
            c1: d * ((self.c3 * v).times_w() - self.c1 * u),
            c2: d * (self.c2 * u - self.c0 * v),
            c3: d * (self.c1 * v - self.c3 * u),
        }
    }
}

impl<const P: u32, K: QuarticParameters<P>> Clone for MontyQuartic<P, K> {
    ghost is_clone = { λ x y. y ≡ x };

    ghost is_infallible = { λ _. ⊤ };

    fn clone(&self) -> Result<Self, AllocError> {
        Ok(*self)
    }
}

/// Four numbers in decimal, separated by commas.
fn join_decimals(alloc: Global, c0: u32, c1: u32, c2: u32, c3: u32) -> Result<String, AllocError>
    ensures { IfOk result (λ s. string_bytes s ≡ four_decimals c0 c1 c2 c3) }
{
    format!(in alloc; "{c0},{c1},{c2},{c3}")
}

impl<const P: u32, K: QuarticParameters<P>> Add for MontyQuartic<P, K> {
    type Output = MontyQuartic<P, K>;

    ghost add_gives = { λ a b r. r ≡ (quartic_residue_ring P K.positive K.W).add a b };

    #[inline]
    fn add(self, rhs: Self) -> Self {
        MontyQuartic {
            c0: self.c0 + rhs.c0,
            c1: self.c1 + rhs.c1,
            c2: self.c2 + rhs.c2,
            c3: self.c3 + rhs.c3,
        }
    }
}

impl<const P: u32, K: QuarticParameters<P>> Sub for MontyQuartic<P, K> {
    type Output = MontyQuartic<P, K>;

    ghost sub_gives = { λ a b r. r ≡ sub_in (quartic_residue_ring P K.positive K.W) a b };

    #[inline]
    fn sub(self, rhs: Self) -> Self {
        MontyQuartic {
            c0: self.c0 - rhs.c0,
            c1: self.c1 - rhs.c1,
            c2: self.c2 - rhs.c2,
            c3: self.c3 - rhs.c3,
        }
    }
}

impl<const P: u32, K: QuarticParameters<P>> Mul for MontyQuartic<P, K> {
    type Output = MontyQuartic<P, K>;

    ghost mul_gives = { λ a b r. r ≡ (quartic_residue_ring P K.positive K.W).mul a b };

    // Two products with one factor `rhs`, both put in place, share its multiples of `W`.
    #[inline(always)]
    fn mul(self, rhs: Self) -> Self {
        let (a0, a1, a2, a3) = (self.c0, self.c1, self.c2, self.c3);
        let (b0, b1, b2, b3) = (rhs.c0, rhs.c1, rhs.c2, rhs.c3);
        let w1 = b1.times_w();
        let w2 = b2.times_w();
        let w3 = b3.times_w();
        MontyQuartic {
            c0: MontyField31::sum_of_products((a0, b0), (a1, w3), (a2, w2), (a3, w1)),
            c1: MontyField31::sum_of_products((a0, b1), (a1, b0), (a2, w3), (a3, w2)),
            c2: MontyField31::sum_of_products((a0, b2), (a1, b1), (a2, b0), (a3, w3)),
            c3: MontyField31::sum_of_products((a0, b3), (a1, b2), (a2, b1), (a3, b0)),
        }
    }
}

impl<const P: u32, K: QuarticParameters<P>> Neg for MontyQuartic<P, K> {
    type Output = MontyQuartic<P, K>;

    ghost neg_gives = { λ a r. r ≡ (quartic_residue_ring P K.positive K.W).neg a };

    #[inline]
    fn neg(self) -> Self {
        MontyQuartic {
            c0: -self.c0,
            c1: -self.c1,
            c2: -self.c2,
            c3: -self.c3,
        }
    }
}

impl<const P: u32, K: QuarticParameters<P>> PrimeCharacteristicRing for MontyQuartic<P, K> {
    ghost ring = { quartic_residue_ring P K.positive K.W };

    ghost lawful = { quartic_residues_lawful P K.positive K.W };

    ghost ZERO = { (quartic_residue_ring P K.positive K.W).zero };

    const ZERO: Self = MontyQuartic {
        c0: MontyField31::ZERO,
        c1: MontyField31::ZERO,
        c2: MontyField31::ZERO,
        c3: MontyField31::ZERO,
    };

    ghost ONE = { (quartic_residue_ring P K.positive K.W).one };

    const ONE: Self = MontyQuartic {
        c0: MontyField31::ONE,
        c1: MontyField31::ZERO,
        c2: MontyField31::ZERO,
        c3: MontyField31::ZERO,
    };

    ghost CHARACTERISTIC = { P };

    const CHARACTERISTIC: u128 = P as u128;

    fn from_u32(n: u32) -> Self {
        Self::constant(MontyField31::new(n))
    }

    ghost zero_is = { refl };

    ghost one_is = { refl };

    ghost eq_is = { quartic_equality _ (stored_equality K.positive K.right) };

    ghost may_add = { Prim.search rules };

    ghost add_is = { λ a b r h. h };

    ghost may_sub = { Prim.search rules };

    ghost sub_is = { λ a b r h. h };

    ghost may_mul = { Prim.search rules };

    ghost mul_is = { λ a b r h. h };

    ghost may_neg = { Prim.search rules };

    ghost neg_is = { λ a r h. h };

    ghost characteristic = { quartic_residues_characteristic P K.positive K.W };

    ghost prime = { K.right.prime };

    ghost characteristic_fits = { Prim.search (rules, arith) };
}

impl<const P: u32, K: QuarticParameters<P>> Domain for MontyQuartic<P, K> {
    ghost domain = { quartic_residues_domain P K.positive K.right.prime K.W K.i K.roots };
}

impl<const P: u32, K: QuarticParameters<P>> Field for MontyQuartic<P, K> {
    ghost inverse = { quartic_inverse (residue_ring P K.positive) (residue_of P K.positive K.W)
        (residue_inverse P K.positive) };

    ghost text = { quartic_text };

    fn try_inverse(self) -> Option<Self> {
        match self.norm().try_inverse() {
            None => None,
            Some(d) => Some(self.cofactor_times(d)),
        }
    }

    fn text(self, alloc: Global) -> Result<String, AllocError> {
        let [c0, c1, c2, c3] = self.coefficients();
        join_decimals(
            alloc,
            c0.as_canonical_u32(),
            c1.as_canonical_u32(),
            c2.as_canonical_u32(),
            c3.as_canonical_u32(),
        )
    }

    ghost inverse_is = { quartic_residues_invert P K.positive K.right.prime K.W K.i K.roots };
}

impl<const P: u32, K: QuarticParameters<P>> Described for MontyQuartic<P, K> {
    ghost writes = { λ x. WritesSeq (λ c. Sends (unsigned c.value)) (coefficients_of x) };
}

/// An element is written as the list of its four coefficients, lowest power first.
impl<const P: u32, K: QuarticParameters<P>> Serialize for MontyQuartic<P, K> {
    fn serialize<S: Serializer>(&self, out: &mut S) -> Result<(), S::Error> {
        self.coefficients().serialize(out)
    }
}

/// Refuses anything but a list of four elements of [`MontyField31`].
impl<const P: u32, K: QuarticParameters<P>> DeserializeOwned for MontyQuartic<P, K> {
    fn deserialize_owned<R: Format>(
        alloc: Global,
        from: &mut Deserializer<'_, '_, R>,
    ) -> Result<Self, R::Error> {
        let (c0, c1, c2, c3) = DeserializeOwned::deserialize_owned(alloc, from)?;
        Ok(Self::new([c0, c1, c2, c3]))
    }
}

/// Refuses anything but a list of four elements of [`MontyField31`].
impl<'de, const P: u32, K: QuarticParameters<P>> Deserialize<'de> for MontyQuartic<P, K> {
    fn deserialize<R: Format>(
        alloc: Global,
        from: &mut Deserializer<'de, '_, R>,
    ) -> Result<Self, R::Error> {
        Self::deserialize_owned(alloc, from)
    }
}
