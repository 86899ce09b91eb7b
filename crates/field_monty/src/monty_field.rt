//! Prime fields below 2^31, in Montgomery's form.
ghost use Rattle.std.specs.Prelude.{◌≡◌, IfOk, ◌<◌, ◌≤◌, ◌+◌, ◌-◌, ◌*◌, ◌^◌, ℕ, refl, decimal};
ghost use Rattle.std.proofs.Common.{rules, arith};
ghost use Rattle.field_monty.specs.Montgomery.{IsMontgomery, from_stored};
ghost use Rattle.field.specs.Residue.{residue_of};
ghost use Rattle.field.specs.ResidueRing.{residue_inverse, residue_ring};
ghost use Rattle.field_monty.specs.laws.Montgomery.{stored_equality};
ghost use Rattle.field.specs.laws.PrimeResidues.{residue_domain, residue_inverse_is};
ghost use Rattle.field_monty.specs.laws.QuarticField.{HasNoSquareRoot};
ghost use Rattle.field.specs.laws.ResidueRing.{residue_characteristic, residue_ring_lawful, value_is};
ghost use Rattle.field.specs.Ring.{sub_in};
ghost use Rattle.serde.specs.Event.{Sends, unsigned};
ghost use Rattle.serde.specs.Steps.{Gives};

use field::{Domain, Field, PrimeCharacteristicRing, SignedField, number_below};
use serde::{
    Described, Deserialize, DeserializeOwned, Deserializer, Format, Serialize, Serializer,
};
use std::alloc::{AllocError, Global};
use std::fmt;
use std::marker::{Model, PhantomData};
use std::ops::{Add, Mul, Neg, Sub};

/// The constants of the field of the integers modulo the prime `P`, which is below 2^31.
///
/// `radix_inverse` is the inverse of 2^32, and `right` says that all constants are right.
pub trait MontyParameters<const P: u32>: Copy {
    ghost MODULUS_INVERSE: { ℕ };
    /// The inverse of the modulus, modulo 2^32.
    const MODULUS_INVERSE: u32;

    ghost RADIX_SQUARED: { ℕ };
    /// 2^64 modulo the modulus.
    const RADIX_SQUARED: u32;

    ghost ONE: { ℕ };
    /// 2^32 modulo the modulus, as which one is stored.
    const ONE: u32;

    ghost radix_inverse: { ℕ };

    ghost positive: { 0 < P };

    ghost right: { IsMontgomery P MODULUS_INVERSE RADIX_SQUARED ONE radix_inverse };
}

/// The constants of a quartic extension, by the polynomials modulo `X^4 - W`.
///
/// `W` is no square, and `i` is a root of -1, so `P` is 1 modulo 4.
pub trait QuarticParameters<const P: u32>: MontyParameters<P> {
    ghost W: { ℕ };
    /// The number `W`.
    const W: u32;

    ghost STORED_W: { ℕ };
    /// The number that `W` is stored as.
    const STORED_W: u32;

    ghost i: { ℕ };

    ghost stored_w_below: { STORED_W < P };

    ghost stored_w_is: { from_stored P Self.radix_inverse Self.positive STORED_W
        ≡ residue_of P Self.positive W };

    ghost roots: { HasNoSquareRoot (residue_ring P Self.positive) (residue_of P Self.positive W)
        (residue_of P Self.positive i) };
}

/// An integer modulo the prime `P`, which is below 2^31.
///
/// It is stored multiplied by 2^32, so that a product needs no division.
#[derive_where(Clone, Copy, PartialEq, Eq, Hash)]
pub struct MontyField31<const P: u32, K: MontyParameters<P>> {
    value: u32,
    #[derive_where(skip(EqHashOrd))]
    parameters: PhantomData<K>,
}

impl<const P: u32, K: MontyParameters<P>> Model for MontyField31<P, K> {
    ghost use Rattle.std.specs.Prelude.{◌<◌};
    ghost use Rattle.field_monty.specs.Montgomery.{from_stored, stored_of};
    ghost use Rattle.field_monty.specs.laws.Montgomery.{stored_again};
    ghost use Rattle.field.specs.Residue.{Residue, residue_coded};

    ghost Value = { Residue P };

    ghost coded = { residue_coded P };

    ghost view = { λ s. from_stored P K.radix_inverse K.positive s.value };

    ghost invariant = { λ s. s.value < P };

    ghost inverse = { λ d. record { value = stored_of P d; parameters = record {} } };

    ghost inverse_ok = { λ a h i. record {
      value = stored_again K.positive K.right a.value h i;
      parameters = record {};
    } };
}

impl<const P: u32, K: MontyParameters<P>> MontyField31<P, K> {
    /// `x / 2^32` modulo the modulus, by Montgomery reduction.
    #[inline]
    fn reduce(x: u64) -> u32
        requires { x < P * 4294967296 }
        ensures below { result < P }
        ensures value { residue_of P K.positive result
            ≡ from_stored P K.radix_inverse K.positive x }
    {
        Self::reduce_halves((x / 4_294_967_296) as u32, (x % 4_294_967_296) as u32)
    }

    /// As `reduce`, for a number up to twice as large: its high half is reduced first.
    #[inline]
    fn reduce_wide(x: u64) -> u32
        requires { x < 2 * P * 4294967296 }
        ensures below { result < P }
        ensures value { residue_of P K.positive result
            ≡ from_stored P K.radix_inverse K.positive x }
    {
        Self::reduce_halves(
            Self::reduce_once((x / 4_294_967_296) as u32),
            (x % 4_294_967_296) as u32,
        )
    }

    /// As `reduce`, of a number in two halves.
    #[inline]
    fn reduce_halves(high: u32, low: u32) -> u32
        requires { high < P }
        ensures below { result < P }
        ensures value { residue_of P K.positive result
            ≡ from_stored P K.radix_inverse K.positive (high * 4294967296 + low) }
    {
        let multiple = low.wrapping_mul(K::MODULUS_INVERSE) as u64 * P as u64;
        Self::difference(high, (multiple / 4_294_967_296) as u32)
    }

    /// `a - b`, plus the modulus if that is negative. Chosen without a jump, as the lesser of two numbers.
    #[inline]
    fn difference(a: u32, b: u32) -> u32
        requires minuend { a < P }
        requires subtrahend { b < P }
        ensures below { result < P }
        ensures borrowing { a < b → result ≡ a + P - b }
        ensures plain { b ≤ a → result ≡ a - b }
    {
        let wrapped = a.wrapping_sub(b);
        wrapped.min(wrapped.wrapping_add(P))
    }

    /// `x`, minus the modulus unless `x` is below it. Chosen in the same way.
    #[inline]
    fn reduce_once(x: u32) -> u32
        requires { x < 2 * P }
        ensures below { result < P }
        ensures kept { x < P → result ≡ x }
        ensures lowered { P ≤ x → result ≡ x - P }
        ensures value { residue_of P K.positive result ≡ residue_of P K.positive x }
    {
        x.min(x.wrapping_sub(P))
    }
}

impl<const P: u32, K: MontyParameters<P>> MontyField31<P, K> {
    /// The residue of `n`.
    #[inline]
    pub fn new(n: u32) -> Self
        ensures { result ≡ residue_of P K.positive n }
    {
        Self::from_stored(Self::reduce(n as u64 * K::RADIX_SQUARED as u64))
    }

    #[inline]
    pub(crate) fn from_stored(stored: u32) -> Self
        requires { stored < P }
        ensures { result ≡ from_stored P K.radix_inverse K.positive stored }
    {
        MontyField31 {
            value: stored,
            parameters: PhantomData,
        }
    }

    #[inline]
    pub(crate) fn stored(self) -> u32
        ensures value { from_stored P K.radix_inverse K.positive result ≡ self }
        ensures below { result < P }
    {
        self.value
    }

    /// The whole number below the modulus whose residue the element is.
    pub fn as_canonical_u32(self) -> u32
        ensures value { result ≡ self.value }
        ensures below { result < P }
    {
        Self::reduce(self.stored() as u64)
    }

    /// The unreduced product of the stored numbers.
    #[inline]
    fn stored_product(self, rhs: Self) -> u64
        ensures below { result < P * 2147483648 }
        ensures value { from_stored P K.radix_inverse K.positive result
            ≡ (residue_ring P K.positive).mul (residue_of P K.positive 4294967296)
            ((residue_ring P K.positive).mul self rhs) }
    {
        self.stored() as u64 * rhs.stored() as u64
    }
}

impl<const P: u32, K: MontyParameters<P>> MontyField31<P, K> {
    /// The sum of four products, reduced once.
    #[inline]
    pub(crate) fn sum_of_products(
        x: (Self, Self),
        y: (Self, Self),
        z: (Self, Self),
        w: (Self, Self),
    ) -> Self
        ensures { result ≡ (residue_ring P K.positive).add
            ((residue_ring P K.positive).add ((residue_ring P K.positive).mul x.0 x.1)
            ((residue_ring P K.positive).mul y.0 y.1))
            ((residue_ring P K.positive).add ((residue_ring P K.positive).mul z.0 z.1)
            ((residue_ring P K.positive).mul w.0 w.1)) }
    {
        let front = x.0.stored_product(x.1) + y.0.stored_product(y.1);
        let back = z.0.stored_product(z.1) + w.0.stored_product(w.1);
        Self::from_stored(Self::reduce_wide(front + back))
    }
}

impl<const P: u32, K: QuarticParameters<P>> MontyField31<P, K> {
    /// `W` times `self`.
    #[inline]
    pub(crate) fn times_w(self) -> Self
        ensures { result ≡ (residue_ring P K.positive).mul (residue_of P K.positive K.W) self }
    {
        Self::from_stored(K::STORED_W) * self
    }
}

impl<const P: u32, K: MontyParameters<P>> Add for MontyField31<P, K> {
    type Output = MontyField31<P, K>;

    ghost add_gives = { λ a b r. r ≡ (residue_ring P K.positive).add a b };

    #[inline]
    fn add(self, rhs: Self) -> Self {
        Self::from_stored(Self::reduce_once(self.stored() + rhs.stored()))
    }
}

impl<const P: u32, K: MontyParameters<P>> Sub for MontyField31<P, K> {
    type Output = MontyField31<P, K>;

    ghost sub_gives = { λ a b r. r ≡ sub_in (residue_ring P K.positive) a b };

    #[inline]
    fn sub(self, rhs: Self) -> Self {
        Self::from_stored(Self::difference(self.stored(), rhs.stored()))
    }
}

impl<const P: u32, K: MontyParameters<P>> Mul for MontyField31<P, K> {
    type Output = MontyField31<P, K>;

    ghost mul_gives = { λ a b r. r ≡ (residue_ring P K.positive).mul a b };

    #[inline]
    fn mul(self, rhs: Self) -> Self {
        Self::from_stored(Self::reduce(self.stored_product(rhs)))
    }
}

impl<const P: u32, K: MontyParameters<P>> Neg for MontyField31<P, K> {
    type Output = MontyField31<P, K>;

    ghost neg_gives = { λ a r. r ≡ (residue_ring P K.positive).neg a };

    #[inline]
    fn neg(self) -> Self {
        Self::from_stored(Self::reduce_once(P - self.stored()))
    }
}

impl<const P: u32, K: MontyParameters<P>> fmt::Debug for MontyField31<P, K> {
    fn fmt<W: fmt::Write>(&self, f: &mut fmt::Formatter<W>) -> fmt::Result {
        write!(f, "{}", self.as_canonical_u32())
    }
}

impl<const P: u32, K: MontyParameters<P>> PrimeCharacteristicRing for MontyField31<P, K> {
    ghost ring = { (residue_ring P K.positive) };

    ghost lawful = { residue_ring_lawful P K.positive };

    ghost ZERO = { residue_of P K.positive 0 };

    const ZERO: Self = MontyField31 {
        value: 0,
        parameters: PhantomData,
    };

    ghost ONE = { residue_of P K.positive 1 };

    const ONE: Self = MontyField31 {
        value: K::ONE,
        parameters: PhantomData,
    };

    ghost CHARACTERISTIC = { P };

    const CHARACTERISTIC: u128 = P as u128;

    fn from_u32(n: u32) -> Self {
        Self::new(n)
    }

    ghost zero_is = { refl };

    ghost one_is = { refl };

    ghost eq_is = { stored_equality K.positive K.right };

    ghost may_add = { Prim.search rules };

    ghost add_is = { λ a b r h. h };

    ghost may_sub = { Prim.search rules };

    ghost sub_is = { λ a b r h. h };

    ghost may_mul = { Prim.search rules };

    ghost mul_is = { λ a b r h. h };

    ghost may_neg = { Prim.search rules };

    ghost neg_is = { λ a r h. h };

    ghost characteristic = { residue_characteristic P K.positive };

    ghost prime = { K.right.prime };

    ghost characteristic_fits = { Prim.search (rules, arith) };
}

impl<const P: u32, K: MontyParameters<P>> Domain for MontyField31<P, K> {
    ghost domain = { residue_domain P K.positive K.right.prime };
}

impl<const P: u32, K: MontyParameters<P>> Field for MontyField31<P, K> {
    ghost inverse = { residue_inverse P K.positive };

    ghost text = { λ a. decimal a.value };

    fn try_inverse(self) -> Option<Self> {
        if self.is_zero() {
            None
        } else {
            Some(self.exp_u64(P as u64 - 2))
        }
    }

    fn text(self, alloc: Global) -> Result<String, AllocError> {
        format!(in alloc; "{}", self.as_canonical_u32())
    }

    ghost inverse_is = { residue_inverse_is P K.positive K.right.prime };
}

impl<const P: u32, K: MontyParameters<P>> SignedField for MontyField31<P, K> {
    ghost number = { λ a. a.value };

    ghost number_is = { value_is P K.positive };

    ghost number_below = { λ a. a.below };

    fn is_negative(self) -> bool {
        2 * self.as_canonical_u32() as u64 > P as u64
    }
}

impl<const P: u32, K: MontyParameters<P>> Described for MontyField31<P, K> {
    ghost writes = { λ x old new. Sends (unsigned x.value) old new };
}

/// An element is written as its own number, unsigned and below the modulus.
impl<const P: u32, K: MontyParameters<P>> Serialize for MontyField31<P, K> {
    fn serialize<S: Serializer>(&self, out: &mut S) -> Result<(), S::Error> {
        self.as_canonical_u32().serialize(out)
    }
}

/// Refuses anything but a whole number below the modulus.
impl<const P: u32, K: MontyParameters<P>> DeserializeOwned for MontyField31<P, K> {
    fn deserialize_owned<R: Format>(
        alloc: Global,
        from: &mut Deserializer<'_, '_, R>,
    ) -> Result<Self, R::Error>
        ensures { IfOk result (λ x. Gives R.gives from.old (unsigned x.value) from.new) }
    {
        let number = number_below(alloc, P, from)?;
        Ok(Self::new(number))
    }
}

/// Refuses anything but a whole number below the modulus.
impl<'de, const P: u32, K: MontyParameters<P>> Deserialize<'de> for MontyField31<P, K> {
    fn deserialize<R: Format>(
        alloc: Global,
        from: &mut Deserializer<'de, '_, R>,
    ) -> Result<Self, R::Error>
        ensures { IfOk result (λ x. Gives R.gives from.old (unsigned x.value) from.new) }
    {
        Self::deserialize_owned(alloc, from)
    }
}
