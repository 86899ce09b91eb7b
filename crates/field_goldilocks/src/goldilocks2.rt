//! The quadratic extension of Goldilocks.
ghost use Rattle.std.specs.Prelude.{◌≡◌, IfOk, ◌<◌, ◌+◌, ◌*◌, ℕ, refl};
ghost use Rattle.std.specs.String.{string_bytes};
ghost use Rattle.std.proofs.Common.{rules, arith};
ghost use Rattle.field.specs.Ring.{sub_in};
ghost use Rattle.field.specs.laws.Extension.{lawful_extension};
ghost use Rattle.field.specs.laws.Residue.{residue_equality};
ghost use Rattle.field_goldilocks.specs.Goldilocks.{goldilocks_of, goldilocks_ring};
ghost use Rattle.field_goldilocks.specs.Goldilocks2.{goldilocks2_inverse, goldilocks2_ring, goldilocks2_text, two_decimals};
ghost use Rattle.field_goldilocks.specs.Quadratic.{coefficients_of, quadratic_cofactor, quadratic_embed, quadratic_norm};
ghost use Rattle.field_goldilocks.specs.laws.Goldilocks.{goldilocks_inverse_is, goldilocks_lawful, goldilocks_prime};
ghost use Rattle.field_goldilocks.specs.laws.Goldilocks2.{goldilocks2_characteristic, goldilocks2_domain, goldilocks2_embeds, goldilocks2_inverse_is, goldilocks2_lawful};
ghost use Rattle.field_goldilocks.specs.laws.QuadraticField.{quadratic_equality};
ghost use Rattle.serde.specs.Event.{Sends, WritesSeq, unsigned};

use crate::goldilocks::Goldilocks;
use field::{Domain, ExtensionDomain, ExtensionField, Field, PrimeCharacteristicRing};
use serde::{
    Described, Deserialize, DeserializeOwned, Deserializer, Format, Serialize, Serializer,
};
use std::alloc::{AllocError, Global};
use std::marker::Model;
use std::ops::{Add, Mul, Neg, Sub};

/// A polynomial of degree at most 1 over [`Goldilocks`], modulo `X^2 - 7`.
#[derive(Clone, Copy, Debug, PartialEq, Eq, Hash)]
pub struct Goldilocks2 {
    c0: Goldilocks,
    c1: Goldilocks,
}

impl Model for Goldilocks2 {
    ghost use Rattle.field_goldilocks.specs.Quadratic.{Quadratic, quadratic_coded};
    ghost use Rattle.field.specs.Residue.{Residue, residue_coded};

    ghost Value = { Quadratic (Residue 18446744069414584321) };

    ghost coded = { quadratic_coded (residue_coded 18446744069414584321) };

    ghost view = { λ s. record { c0 = s.c0; c1 = s.c1 } };

    ghost inverse = { λ d. record { c0 = d.c0; c1 = d.c1 } };
}

impl Goldilocks {
    /// 7 times `self`.
    #[inline]
    fn times_seven(self) -> Self
        ensures { result ≡ goldilocks_ring.mul (goldilocks_of 7) self }
    {
        Goldilocks::new(7) * self
    }
}

impl Goldilocks2 {
    /// The polynomial with these two coefficients, lowest power first.
    pub fn new(coefficients: [Goldilocks; 2]) -> Self
        ensures { coefficients_of result ≡ coefficients }
    {
        let [c0, c1] = coefficients;
        Goldilocks2 { c0, c1 }
    }

    /// The two coefficients, lowest power first.
    pub fn coefficients(self) -> [Goldilocks; 2]
        ensures { result ≡ coefficients_of self }
    {
        [self.c0, self.c1]
    }

    /// The norm over [`Goldilocks`].
    #[inline]
    fn norm(self) -> Goldilocks
        ensures { result ≡ quadratic_norm goldilocks_ring (goldilocks_of 7) self }
    {
        self.c0 * self.c0 - (self.c1 * self.c1).times_seven()
    }

    /// The conjugate times `d`: the inverse, if `d` is the inverse of the norm.
    #[inline]
    fn cofactor_times(self, d: Goldilocks) -> Self
        ensures { result ≡ quadratic_cofactor goldilocks_ring (goldilocks_of 7) d self }
    {
        Goldilocks2 {
            c0: d * self.c0,
            c1: -(d * self.c1),
        }
    }
}

/// Two numbers in decimal, separated by a comma.
fn join_decimals(alloc: Global, c0: u64, c1: u64) -> Result<String, AllocError>
    ensures { IfOk result (λ s. string_bytes s ≡ two_decimals c0 c1) }
{
    format!(in alloc; "{c0},{c1}")
}

impl Add for Goldilocks2 {
    type Output = Goldilocks2;

    ghost add_gives = { λ a b r. r ≡ goldilocks2_ring.add a b };

    #[inline]
    fn add(self, rhs: Goldilocks2) -> Goldilocks2 {
        Goldilocks2 {
            c0: self.c0 + rhs.c0,
            c1: self.c1 + rhs.c1,
        }
    }
}

impl Sub for Goldilocks2 {
    type Output = Goldilocks2;

    ghost sub_gives = { λ a b r. r ≡ sub_in goldilocks2_ring a b };

    #[inline]
    fn sub(self, rhs: Goldilocks2) -> Goldilocks2 {
        Goldilocks2 {
            c0: self.c0 - rhs.c0,
            c1: self.c1 - rhs.c1,
        }
    }
}

impl Mul for Goldilocks2 {
    type Output = Goldilocks2;

    ghost mul_gives = { λ a b r. r ≡ goldilocks2_ring.mul a b };

    #[inline]
    fn mul(self, rhs: Goldilocks2) -> Goldilocks2 {
        Goldilocks2 {
            c0: self.c0 * rhs.c0 + (self.c1 * rhs.c1).times_seven(),
            c1: self.c0 * rhs.c1 + self.c1 * rhs.c0,
        }
    }
}

impl Neg for Goldilocks2 {
    type Output = Goldilocks2;

    ghost neg_gives = { λ a r. r ≡ goldilocks2_ring.neg a };

    #[inline]
    fn neg(self) -> Goldilocks2 {
        Goldilocks2 {
            c0: -self.c0,
            c1: -self.c1,
        }
    }
}

impl PrimeCharacteristicRing for Goldilocks2 {
    ghost ring = { goldilocks2_ring };

    ghost lawful = { goldilocks2_lawful };

    ghost ZERO = { goldilocks2_ring.zero };

    const ZERO: Goldilocks2 = Goldilocks2 {
        c0: crate::goldilocks::ZERO,
        c1: crate::goldilocks::ZERO,
    };

    ghost ONE = { goldilocks2_ring.one };

    const ONE: Goldilocks2 = Goldilocks2 {
        c0: crate::goldilocks::ONE,
        c1: crate::goldilocks::ZERO,
    };

    ghost CHARACTERISTIC = { 18446744069414584321 };

    const CHARACTERISTIC: u128 = 18_446_744_069_414_584_321;

    fn from_u32(n: u32) -> Goldilocks2 {
        Goldilocks2::embed(Goldilocks::new(n as u64))
    }

    ghost zero_is = { refl };

    ghost one_is = { refl };

    ghost eq_is = { quadratic_equality _ residue_equality };

    ghost may_add = { Prim.search rules };

    ghost add_is = { λ a b r h. h };

    ghost may_sub = { Prim.search rules };

    ghost sub_is = { λ a b r h. h };

    ghost may_mul = { Prim.search rules };

    ghost mul_is = { λ a b r h. h };

    ghost may_neg = { Prim.search rules };

    ghost neg_is = { λ a r h. h };

    ghost characteristic = { goldilocks2_characteristic };

    ghost prime = { goldilocks_prime };

    ghost characteristic_fits = { Prim.search (rules, arith) };
}

impl Domain for Goldilocks2 {
    ghost domain = { goldilocks2_domain };
}

impl Field for Goldilocks2 {
    ghost inverse = { goldilocks2_inverse };

    ghost text = { goldilocks2_text };

    fn try_inverse(self) -> Option<Goldilocks2> {
        match self.norm().try_inverse() {
            None => None,
            Some(d) => Some(self.cofactor_times(d)),
        }
    }

    fn text(self, alloc: Global) -> Result<String, AllocError> {
        let [c0, c1] = self.coefficients();
        join_decimals(alloc, c0.as_canonical_u64(), c1.as_canonical_u64())
    }

    ghost inverse_is = { goldilocks2_inverse_is };
}

impl ExtensionDomain<Goldilocks> for Goldilocks2 {
    ghost embed = { quadratic_embed goldilocks_ring };

    #[inline]
    fn embed(x: Goldilocks) -> Goldilocks2 {
        Goldilocks2 {
            c0: x,
            c1: Goldilocks::ZERO,
        }
    }

    ghost embeds = { goldilocks2_embeds };

    ghost same_characteristic = { refl };
}

impl ExtensionField<Goldilocks> for Goldilocks2 {
    ghost lawful_fields = { lawful_extension goldilocks_lawful residue_equality goldilocks2_lawful goldilocks2_domain
        (quadratic_equality _ residue_equality) goldilocks2_embeds goldilocks2_inverse_is };
}

impl Described for Goldilocks2 {
    ghost writes = { λ x. WritesSeq (λ c. Sends (unsigned c.value)) (coefficients_of x) };
}

/// An element is written as the list of its two coefficients, lowest power first.
impl Serialize for Goldilocks2 {
    fn serialize<S: Serializer>(&self, out: &mut S) -> Result<(), S::Error> {
        self.coefficients().serialize(out)
    }
}

/// Refuses anything but a list of two elements of [`Goldilocks`].
impl DeserializeOwned for Goldilocks2 {
    fn deserialize_owned<R: Format>(
        alloc: Global,
        from: &mut Deserializer<'_, '_, R>,
    ) -> Result<Goldilocks2, R::Error> {
        let (c0, c1) = DeserializeOwned::deserialize_owned(alloc, from)?;
        Ok(Goldilocks2::new([c0, c1]))
    }
}

/// Refuses anything but a list of two elements of [`Goldilocks`].
impl<'de> Deserialize<'de> for Goldilocks2 {
    fn deserialize<R: Format>(
        alloc: Global,
        from: &mut Deserializer<'de, '_, R>,
    ) -> Result<Goldilocks2, R::Error> {
        Goldilocks2::deserialize_owned(alloc, from)
    }
}
