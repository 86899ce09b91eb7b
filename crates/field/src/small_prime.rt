//! Prime fields below 2^16.
ghost use Rattle.std.specs.Prelude.{◌≡◌, IfOk, ◌<◌, ◌+◌, ◌-◌, ◌*◌, ◌^◌, ℕ, List, refl, decimal};
ghost use Rattle.std.proofs.Common.{rules, arith};
ghost use Rattle.field.specs.Characteristic.{IsPrime};
ghost use Rattle.field.specs.Residue.{residue_of};
ghost use Rattle.field.specs.ResidueRing.{residue_inverse, residue_ring};
ghost use Rattle.field.specs.Ring.{sub_in};
ghost use Rattle.field.specs.laws.PrimeResidues.{residue_domain, residue_inverse_is};
ghost use Rattle.field.specs.laws.Residue.{residue_equality};
ghost use Rattle.field.specs.laws.ResidueRing.{residue_characteristic, residue_ring_lawful, value_is};
ghost use Rattle.serde.specs.Event.{Sends, unsigned};
ghost use Rattle.serde.specs.Steps.{Gives};

use crate::reading::number_below;
use crate::signed::SignedField;
use crate::traits::{Domain, Field, PrimeCharacteristicRing};
use serde::{
    Described, Deserialize, DeserializeOwned, Deserializer, Format, Serialize, Serializer,
};
use std::alloc::{AllocError, Global};
use std::fmt;
use std::marker::{Model, PhantomData};
use std::ops::{Add, Mul, Neg, Sub};

/// What the field of the integers modulo `P` is made of: that `P` is a prime below 2^16, and the name of
/// the field.
pub trait SmallPrimeParameters<const P: u32>: Copy {
    ghost positive: { 0 < P };

    ghost small: { P < 65536 };

    ghost prime: { IsPrime P };

    ghost name: { List ℕ };

    /// The name that `Debug` shows.
    fn name() -> &'static str
        ensures { result.now ≡ name };
}

/// An integer modulo the prime `P`, which is below 2^16.
#[derive_where(Clone, Copy, PartialEq, Eq, Hash)]
pub struct SmallPrime<const P: u32, K: SmallPrimeParameters<P>> {
    value: u32,
    #[derive_where(skip(EqHashOrd))]
    parameters: PhantomData<K>,
}

impl<const P: u32, K: SmallPrimeParameters<P>> Model for SmallPrime<P, K> {
    ghost use Rattle.std.specs.Prelude.{◌<◌};
    ghost use native.Mathlib.Nat.{mod-eq_of_lt};
    ghost use Rattle.field.specs.Residue.{Residue, residue_coded, residue_of};

    ghost Value = { Residue P };

    ghost coded = { residue_coded P };

    ghost view = { λ s. residue_of P K.positive s.value };

    ghost invariant = { λ s. s.value < P };

    ghost inverse = { λ d. record { value = d.value; parameters = record {} } };

    ghost inverse_ok = { λ a h i. record { value = mod-eq_of_lt h i; parameters = record {} } };
}

impl<const P: u32, K: SmallPrimeParameters<P>> SmallPrime<P, K> {
    /// The residue of `n`.
    pub fn new(n: u32) -> Self
        ensures { result ≡ residue_of P K.positive n }
    {
        SmallPrime {
            value: n % P,
            parameters: PhantomData,
        }
    }

    pub(crate) fn number(self) -> u32
        ensures value { result ≡ self.value }
        ensures below { result < P }
        ensures small { result < 65536 }
    {
        self.value
    }
}

impl<const P: u32, K: SmallPrimeParameters<P>> Add for SmallPrime<P, K> {
    type Output = SmallPrime<P, K>;

    ghost add_gives = { λ a b r. r ≡ (residue_ring P K.positive).add a b };

    fn add(self, rhs: Self) -> Self {
        Self::new(self.number() + rhs.number())
    }
}

impl<const P: u32, K: SmallPrimeParameters<P>> Sub for SmallPrime<P, K> {
    type Output = SmallPrime<P, K>;

    ghost sub_gives = { λ a b r. r ≡ sub_in (residue_ring P K.positive) a b };

    fn sub(self, rhs: Self) -> Self {
        Self::new(self.number() + (P - rhs.number()))
    }
}

impl<const P: u32, K: SmallPrimeParameters<P>> Mul for SmallPrime<P, K> {
    type Output = SmallPrime<P, K>;

    ghost mul_gives = { λ a b r. r ≡ (residue_ring P K.positive).mul a b };

    fn mul(self, rhs: Self) -> Self {
        Self::new(self.number() * rhs.number())
    }
}

impl<const P: u32, K: SmallPrimeParameters<P>> Neg for SmallPrime<P, K> {
    type Output = SmallPrime<P, K>;

    ghost neg_gives = { λ a r. r ≡ (residue_ring P K.positive).neg a };

    fn neg(self) -> Self {
        Self::new(P - self.number())
    }
}

impl<const P: u32, K: SmallPrimeParameters<P>> fmt::Debug for SmallPrime<P, K> {
    fn fmt<W: fmt::Write>(&self, f: &mut fmt::Formatter<W>) -> fmt::Result {
        f.debug_struct(K::name())
            .field("value", &self.value)
            .finish()
    }
}

impl<const P: u32, K: SmallPrimeParameters<P>> PrimeCharacteristicRing for SmallPrime<P, K> {
    ghost ring = { residue_ring P K.positive };

    ghost lawful = { residue_ring_lawful P K.positive };

    ghost ZERO = { residue_of P K.positive 0 };

    const ZERO: Self = SmallPrime {
        value: 0,
        parameters: PhantomData,
    };

    ghost ONE = { residue_of P K.positive 1 };

    const ONE: Self = SmallPrime {
        value: 1,
        parameters: PhantomData,
    };

    ghost CHARACTERISTIC = { P };

    const CHARACTERISTIC: u128 = P as u128;

    fn from_u32(n: u32) -> Self {
        Self::new(n)
    }

    ghost zero_is = { refl };

    ghost one_is = { refl };

    ghost eq_is = { residue_equality };

    ghost may_add = { Prim.search rules };

    ghost add_is = { λ a b r h. h };

    ghost may_sub = { Prim.search rules };

    ghost sub_is = { λ a b r h. h };

    ghost may_mul = { Prim.search rules };

    ghost mul_is = { λ a b r h. h };

    ghost may_neg = { Prim.search rules };

    ghost neg_is = { λ a r h. h };

    ghost characteristic = { residue_characteristic P K.positive };

    ghost prime = { K.prime };

    ghost characteristic_fits = { Prim.search (rules, arith) };
}

impl<const P: u32, K: SmallPrimeParameters<P>> Domain for SmallPrime<P, K> {
    ghost domain = { residue_domain P K.positive K.prime };
}

impl<const P: u32, K: SmallPrimeParameters<P>> Field for SmallPrime<P, K> {
    ghost inverse = { residue_inverse P K.positive };

    ghost text = { λ a. decimal a.value };

    fn try_inverse(self) -> Option<Self> {
        if self.is_zero() {
            None
        } else {
            Some(self.exp_u64(P as u64 - 2))
        }
    }

    fn text(self, alloc: Global) -> Result<String, AllocError> {
        format!(in alloc; "{}", self.number())
    }

    ghost inverse_is = { residue_inverse_is P K.positive K.prime };
}

impl<const P: u32, K: SmallPrimeParameters<P>> SignedField for SmallPrime<P, K> {
    ghost number = { λ a. a.value };

    ghost number_is = { value_is P K.positive };

    ghost number_below = { λ a. a.below };

    fn is_negative(self) -> bool {
        2 * self.number() > P
    }
}

impl<const P: u32, K: SmallPrimeParameters<P>> Described for SmallPrime<P, K> {
    ghost writes = { λ x old new. Sends (unsigned x.value) old new };
}

/// An element is written as its own number, unsigned and below the modulus.
impl<const P: u32, K: SmallPrimeParameters<P>> Serialize for SmallPrime<P, K> {
    fn serialize<S: Serializer>(&self, out: &mut S) -> Result<(), S::Error> {
        self.number().serialize(out)
    }
}

/// Refuses anything but a whole number below the modulus.
impl<const P: u32, K: SmallPrimeParameters<P>> DeserializeOwned for SmallPrime<P, K> {
    fn deserialize_owned<R: Format>(
        alloc: Global,
        from: &mut Deserializer<'_, '_, R>,
    ) -> Result<Self, R::Error>
        ensures { IfOk result (λ x. Gives R.gives from.old (unsigned x.value) from.new) }
    {
        let number = number_below(alloc, P, from)?;
        Ok(Self::new(number))
    }
}

/// Refuses anything but a whole number below the modulus.
impl<'de, const P: u32, K: SmallPrimeParameters<P>> Deserialize<'de> for SmallPrime<P, K> {
    fn deserialize<R: Format>(
        alloc: Global,
        from: &mut Deserializer<'de, '_, R>,
    ) -> Result<Self, R::Error>
        ensures { IfOk result (λ x. Gives R.gives from.old (unsigned x.value) from.new) }
    {
        Self::deserialize_owned(alloc, from)
    }
}
